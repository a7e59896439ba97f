//! Two threads with deadlines on one channel: 20,000 messages come in order, at each kind of capacity.
//!
//! Each message is tried with deadlines that have come at once, so that waits are taken back while the
//! other thread settles, and then with one that no run reaches.
use crate::tests::given::equal;
use crate::tests::history::exchange::{MESSAGES, Mode};
use crate::tests::history::given::new_log;
use kanal_core::error::{ReceiveErrorTimeout, SendErrorTimeout};
use kanal_one_history::{Channel, GhostPass, LogId, SystemClock, TestClock};
use std::marker::Brand;
use std::sync::Wait;
use std::time;
use std::time::Duration;

/// How often a message is tried with a deadline that has come.
const TRIES: u64 = 2;

/// Sends a message, and says whether it entered.
pub(super) fn send<J: LogId, R: Wait + time::Clock>(
    rt: &R,
    channel: &Channel<u64, J>,
    pass: &mut GhostPass<u64, J>,
    number: u64,
) -> bool {
    let none = Duration::from_nanos(0);
    for _ in 0..TRIES {
        let sent = channel.send_timeout(rt, pass, number, none, &TestClock::still(0));
        if sent != Err(SendErrorTimeout::Timeout) {
            return sent.is_ok();
        }
    }
    let hour = Duration::from_secs(3_600);
    let clock = SystemClock::new(rt);
    channel.send_timeout(rt, pass, number, hour, &clock).is_ok()
}

/// Receives a message, and says whether it is this one.
pub(super) fn recv<J: LogId, R: Wait + time::Clock>(
    rt: &R,
    channel: &Channel<u64, J>,
    pass: &mut GhostPass<u64, J>,
    number: u64,
) -> bool {
    let none = Duration::from_nanos(0);
    for _ in 0..TRIES {
        let got = channel.recv_timeout(rt, pass, none, &TestClock::still(0));
        if got != Err(ReceiveErrorTimeout::Timeout) {
            return got == Ok(number);
        }
    }
    let hour = Duration::from_secs(3_600);
    let clock = SystemClock::new(rt);
    channel.recv_timeout(rt, pass, hour, &clock) == Ok(number)
}

#[test]
fn until_moments_at_each_capacity(rt: HostRuntime) {
    for capacity in [0, 1, 64] {
        let opened = new_log(&rt, rt.alloc());
        let counts = Mode::Timed.exchange_bounded::<Brand, _>(&rt, rt.alloc(), capacity, opened);
        equal(&rt, counts, Ok((MESSAGES, MESSAGES)));
    }
    let opened = new_log(&rt, rt.alloc());
    let counts = Mode::Timed.exchange_unbounded::<Brand, _>(&rt, rt.alloc(), opened);
    equal(&rt, counts, (MESSAGES, MESSAGES));
}
