//! The hand-over cell: one outcome goes from a settler to a waiter; and how a blocked call waits at it.
//!
//! `signal` has the two ends and their law, `backoff` waits, `deadline` says until when, `clock` measures. Nothing here
//! knows of a channel, and nothing starts a thread.
#![tactic(auto)]

mod backoff;
mod clock;
mod deadline;
pub mod error;
mod pauses;
mod pointer;
pub mod signal;

pub use backoff::{Contention, LOCK_TRIES, WaitPolicy, Waiting};
pub use clock::{Clock, SystemClock, TestClock};
pub use deadline::{At, Deadline, Never, deadline_after};
pub use pauses::PollBackoff;
