//! The scenario of a wait for a message that nobody sends.
use crate::capacity::Ends;
use kanal::SystemClock;
use kanal::error::ReceiveErrorTimeout;
use std::sync::Wait;
use std::time::{Clock, Duration};

/// Waits for a message that nobody sends, and tells how that ended.
pub fn for_nothing<R: Wait + Clock>(rt: &R, ends: Ends, milliseconds: u64) -> &'static str {
    let (sender, receiver) = ends;
    let clock = SystemClock::new(rt);
    let got = receiver.recv_timeout(rt, Duration::from_millis(milliseconds), &clock);
    drop(sender);
    match got {
        Err(ReceiveErrorTimeout::Timeout) => "timeout",
        Err(ReceiveErrorTimeout::DeadlineOutOfRange) => "deadline out of range",
        _ => "no timeout",
    }
}
