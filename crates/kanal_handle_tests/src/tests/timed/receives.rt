//! Timed receives: which moments end them, and that no clock is read under the lock.
use super::clocks::{Looking, Turning};
use crate::tests::given::{ends, equal, holds};
use kanal::error::ReceiveErrorTimeout;
use kanal::error::ReceiveErrorTimeout::{Closed, DeadlineOutOfRange, SendClosed, Timeout};
use std::alloc::AllocGlobal;
use std::cell::Cell;
use std::process::Abort;
use std::sync::Wait;
use std::time;
use std::time::Duration;

/// What became of a channel with one place before the receive.
#[derive(Drop, Clone, Copy)]
enum Before {
    /// It is empty, and has a sender.
    Empty,
    /// It holds the message 4, and its sender is gone.
    Last,
    /// It is empty, and its sender is gone.
    Alone,
    /// It was closed.
    Shut,
}

/// For how many nanoseconds a receive waits, by a clock that stands at a moment for so many reads and at
/// another then, and its answer.
type TimedCase = (
    Before,
    u64,
    (u64, u64, u64),
    Result<u64, ReceiveErrorTimeout>,
);

const LAST: u64 = u64::MAX;

const HOUR: u64 = 3_600_000_000_000;

const ROWS: &[TimedCase] = &[
    // The last moment is a deadline.
    (Before::Empty, 1, (LAST - 1, 1, LAST), Err(Timeout)),
    // A missing sender is told at the deadline.
    (Before::Alone, 1, (LAST - 1, 1, LAST), Err(SendClosed)),
    // A late receive takes what is there, and doesn't look at the senders.
    (Before::Last, 0, (0, 1, 1), Ok(4)),
    (Before::Alone, 0, (0, 1, 1), Err(Timeout)),
    (Before::Shut, 0, (0, 1, 1), Err(Closed)),
    // A clock that stands at the deadline is not late.
    (Before::Alone, 0, (0, 1, 0), Err(SendClosed)),
    (Before::Empty, 0, (0, 1, 0), Err(Timeout)),
    // A deadline out of range comes before the channel.
    (Before::Shut, 1, (LAST, 1, LAST), Err(DeadlineOutOfRange)),
    // A wait looks at its clock again.
    (Before::Empty, HOUR, (0, 100, HOUR), Err(Timeout)),
];

/// What a receive answers on such a channel for so many nanoseconds by this clock.
fn answer<R: Abort + Wait + time::Clock + AllocGlobal>(
    rt: &R,
    channel: Before,
    nanoseconds: u64,
    clock: &Turning,
) -> Result<u64, ReceiveErrorTimeout> {
    let (sender, receiver) = ends(rt, 1);
    match channel {
        Before::Empty | Before::Alone => {},
        Before::Last => equal(rt, sender.send(rt, 4), Ok(())),
        Before::Shut => equal(rt, sender.close(rt), Ok(())),
    }
    let _kept = match channel {
        Before::Empty => Some(sender),
        Before::Alone | Before::Last | Before::Shut => {
            drop(sender);
            None
        },
    };
    receiver.recv_timeout(rt, Duration::from_nanos(nanoseconds), clock)
}

#[test]
fn the_moments_that_end_a_receive(rt: HostRuntime) {
    for (channel, nanoseconds, (first, still, then), expected) in ROWS {
        let clock = Turning::new(*first, *still, *then);
        equal(&rt, answer(&rt, *channel, *nanoseconds, &clock), *expected);
    }
}

#[test]
fn no_clock_is_read_under_the_lock(rt: HostRuntime) {
    let (sender, receiver) = ends::<u64>(&rt, 1);
    drop(sender);
    let clock = Looking {
        receiver: receiver.clone(&rt).expect(&rt, "a clone"),
        was_held: Cell::new(false),
    };
    let got = receiver.recv_timeout(&rt, Duration::from_nanos(1), &clock);
    equal(&rt, got, Err(ReceiveErrorTimeout::SendClosed));
    holds(&rt, !clock.was_held.get());
}
