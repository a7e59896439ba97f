//! The channel's core, its errors and its lock.
//!
//! `internal` is the channel as plain data, `error` is what a call may answer in place of its result, and `mutex`
//! is the lock, whose `lock` is the only call of this crate that waits. Nothing here starts a thread.
#![tactic(auto)]

pub mod error;
pub mod internal;
pub mod mutex;
