//! Tests of the handles, for threads, by deadlines and for tasks, and of the pool.
//!
//! Threads are joined, tasks are polled to their end, and each test has one output whatever the schedule.
#![tactic(auto)]

#[cfg(test)]
mod tests;
