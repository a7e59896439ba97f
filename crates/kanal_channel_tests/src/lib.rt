//! Tests of a channel whose lock the test holds, of how waits begin, and of calls of a channel with one history.
#![tactic(auto)]

#[cfg(test)]
mod tests;
