//! A channel's history: what a list of events does on one core, and what can be proved of it.
//!
//! Nothing here waits, and nothing starts a thread.
#![tactic(auto)]

pub mod journal;
pub mod laws;
