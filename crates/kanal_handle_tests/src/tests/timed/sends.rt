//! Timed sends: which moments end them, what the option keeps, and that a message is dropped once.
use super::clocks::Dropping;
use crate::tests::counted::{counted_ends, message};
use crate::tests::given::{ends, equal};
use kanal::error::SendErrorTimeout;
use kanal::error::SendErrorTimeout::{Closed, DeadlineOutOfRange, ReceiveClosed, Timeout};
use kanal::{Clock, ReceiveErrorTimeout, Sender, TestClock};
use std::cell::{Cell, RefCell};
use std::process::Abort;
use std::sync::Wait;
use std::time;
use std::time::Duration;

/// The error of a send of an option's message, which the option keeps.
fn refused<R: Abort + Wait + time::Clock>(
    rt: &R,
    sender: &Sender<u64>,
    time: Duration,
    clock: &impl Clock,
) -> SendErrorTimeout {
    let mut option = Some(7);
    let sent = sender.send_option_timeout(rt, &mut option, time, clock);
    equal(rt, option, Some(7));
    sent.err().expect(rt, "an error")
}

#[test]
fn a_deadline_out_of_range_keeps_the_message(rt: HostRuntime) {
    let (sender, receiver) = ends::<u64>(&rt, 1);
    let (start, last) = (TestClock::still(0), TestClock::still(u64::MAX));
    let soon = Duration::from_nanos(1);
    equal(&rt, refused(&rt, &sender, soon, &last), DeadlineOutOfRange);
    // More nanoseconds than a word counts.
    let long = Duration::from_secs(18_446_744_074);
    equal(&rt, refused(&rt, &sender, long, &start), DeadlineOutOfRange);
    let got = receiver.recv_timeout(&rt, long, &start);
    equal(&rt, got, Err(ReceiveErrorTimeout::DeadlineOutOfRange));
    equal(&rt, sender.len(&rt), 0);
    equal(&rt, sender.close(&rt), Ok(()));
    equal(&rt, refused(&rt, &sender, soon, &start), Closed);
}

#[test]
fn a_send_to_a_full_channel_keeps_the_message(rt: HostRuntime) {
    let (sender, receiver) = ends::<u64>(&rt, 1);
    equal(&rt, sender.send(&rt, 1), Ok(()));
    let (now, soon) = (Duration::from_nanos(0), Duration::from_nanos(1));
    equal(
        &rt,
        refused(&rt, &sender, now, &TestClock::still(0)),
        Timeout,
    );
    equal(
        &rt,
        refused(&rt, &sender, now, &TestClock::rising()),
        Timeout,
    );
    equal(&rt, sender.len(&rt), 1);
    // The last receiver goes during the wait.
    let clock = Dropping {
        reads: Cell::new(0),
        receiver: RefCell::new(Some(receiver)),
    };
    equal(&rt, refused(&rt, &sender, soon, &clock), ReceiveClosed);
}

#[test]
fn a_refused_message_is_dropped_once(rt: HostRuntime) {
    let (sender, receiver, drops) = counted_ends(&rt, 0);
    let (now, soon) = (Duration::from_nanos(0), Duration::from_nanos(1));
    let sent = sender.send_timeout(&rt, message(&rt, &drops), now, &TestClock::still(0));
    equal(&rt, (sent, drops.count()), (Err(Timeout), 1));
    let late = TestClock::still(u64::MAX);
    let sent = sender.send_timeout(&rt, message(&rt, &drops), soon, &late);
    equal(&rt, (sent, drops.count()), (Err(DeadlineOutOfRange), 2));
    equal(&rt, receiver.len(&rt), 0);
}
