//! Tests of what lies between any two steps: all short lists of steps, beside a model, and races of two threads.
//!
//! Each asserts how many lists or rounds it ran, and has one output whatever the schedule.
#![tactic(auto)]

#[cfg(test)]
mod tests;
