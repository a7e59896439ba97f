//! Timed calls whose wait is served, ended or late, by a clock that acts when it is read.
use crate::tests::given::{channel, equal, handles, holds, new_task};
use futures::task::Poll;
use kanal::AsyncSender;
use kanal_channel::{Clock, Shared, TestClock};
use kanal_core::error::SendErrorTimeout;
use kanal_futures::send_future;
use kanal_state::NoHistory;
use std::cell::Cell;
use std::time::Duration;

/// A clock that stands at 0, and sends 7 at the read with this number.
#[derive(Drop)]
struct SendingClock<'a> {
    reads: Cell<u64>,
    sends_at: u64,
    shared: &'a Shared<u64, NoHistory>,
}

impl Clock for SendingClock<'_> {
    fn now(&self) -> u64 {
        let reads = self.reads.get().wrapping_add(1);
        self.reads.set(reads);
        if reads == self.sends_at {
            drop(self.shared.try_send_realtime(&mut (), 7));
        }
        0
    }
}

/// A clock that stands at 0, and drops the last sender at its second read.
#[derive(Drop)]
struct DroppingClock {
    reads: Cell<u64>,
    sender: Cell<Option<AsyncSender<u64>>>,
}

impl Clock for DroppingClock {
    fn now(&self) -> u64 {
        let reads = self.reads.get().wrapping_add(1);
        self.reads.set(reads);
        if reads == 2 {
            drop(self.sender.take());
        }
        0
    }
}

#[test]
fn a_late_receive_serves_a_send(rt: HostRuntime) {
    let shared = channel::<u64>(&rt, 0);
    let task = new_task(&rt);
    let mut sending = send_future(&shared, 7);
    equal(&rt, task.poll(&mut sending), Poll::Pending);
    let got = shared.recv_timeout(&rt, &mut (), Duration::from_nanos(0), &TestClock::rising());
    equal(&rt, got, Ok(7));
    holds(&rt, task.is_woken());
    equal(&rt, task.poll(&mut sending), Poll::Ready(Ok(())));
}

/// The read at which a clock that stands still sends a message, and for how many nanoseconds a receive waits.
/// However often the clock is read, and however far the deadline is, the wait goes on until its outcome comes.
const SENDS_AT: [(u64, u64); 4] = [(3, 1), (200, 1), (3, u64::MAX), (40, u64::MAX)];

#[test]
fn a_timed_receive_is_given_a_message_during_its_wait(rt: HostRuntime) {
    for (sends_at, nanos) in SENDS_AT {
        let shared = channel::<u64>(&rt, 0);
        let clock = SendingClock {
            reads: Cell::new(0),
            sends_at,
            shared: &shared,
        };
        let got = shared.recv_timeout(&rt, &mut (), Duration::from_nanos(nanos), &clock);
        equal(&rt, got, Ok(7));
    }
}

/// The last sender's drop ends the send's wait too, and its message comes back.
#[test]
fn a_message_whose_wait_is_ended_comes_back(rt: HostRuntime) {
    let (sender, receiver) = handles::<u64>(&rt, 0);
    let shared = receiver.channel();
    let clock = DroppingClock {
        reads: Cell::new(0),
        sender: Cell::new(Some(sender)),
    };
    let mut option = Some(7);
    let nanosecond = Duration::from_nanos(1);
    let sent = shared.send_option_timeout(&rt, &mut (), &mut option, nanosecond, &clock);
    equal(&rt, sent, Err(SendErrorTimeout::Closed));
    equal(&rt, option, Some(7));
}
