//! Tests of the core (calls, texts, edges, drops) and of the hand-over cell (steps, drops, threads, wakes).
#![tactic(auto)]

#[cfg(test)]
mod tests;
