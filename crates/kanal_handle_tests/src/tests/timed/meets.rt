//! A deadline that meets a receiver: each message is received once or given up once.
//!
//! A run in which the sends and the receives didn't meet fails the test: then all but one were given up, or all
//! but one were received.
use super::clocks::Turning;
use crate::tests::counted::{counted_ends, shared};
use crate::tests::given::{equal, holds};
use kanal::error::SendErrorTimeout;
use kanal::{Receiver, Sender};
use kanal_given::{Counted, Drops};
use std::sync::Wait;
use std::time::Duration;
use std::{thread, time};

/// How many messages are sent.
const ROUNDS: u64 = 10_000;

/// How often the receiver looks for a message at most.
const TURNS: u64 = 1_000_000_000;

/// Sends the messages, each by a deadline; answers how many were given up. In the first round nobody receives
/// yet, so it times out; the clock of the second never crosses its deadline, so it is received.
fn send_all<R: Wait + time::Clock>(rt: &R, sender: &Sender<Counted>, drops: &Drops) -> u64 {
    let mut given_up = 0u64;
    for round in 0..ROUNDS {
        let Ok(message) = drops.message() else {
            return given_up;
        };
        let reads = match round {
            0 => 1,
            1 => u64::MAX,
            _ => 1 + round % 97,
        };
        let clock = Turning::new(0, reads, 1);
        let sent = sender.send_timeout(rt, message, Duration::from_nanos(1), &clock);
        if sent == Err(SendErrorTimeout::Timeout) {
            given_up = given_up.wrapping_add(1);
        }
    }
    given_up
}

/// Looks until the first message is given up.
fn await_one_drop(drops: &Drops) {
    for _ in 0..TURNS {
        if drops.count() == 1 {
            break;
        }
    }
}

/// Receives until the channel ends; answers how many messages came.
fn receive_all<R: Wait>(rt: &R, receiver: &Receiver<Counted>) -> u64 {
    let mut received = 0u64;
    for _ in 0..TURNS {
        match receiver.try_recv(rt) {
            Ok(Some(_message)) => received = received.wrapping_add(1),
            Ok(None) => {},
            Err(_) => break,
        }
    }
    received
}

#[test]
fn a_deadline_meets_a_receiver(rt: HostRuntime) {
    let (sender, receiver, drops) = counted_ends(&rt, 0);
    let theirs = shared(&rt, &drops);
    let thread = thread::spawn(&rt, move || send_all(&rt, &sender, &theirs));
    let thread = thread.expect(&rt, "a thread");
    await_one_drop(&drops);
    let received = receive_all(&rt, &receiver);
    // Where the receiver gave up, a send that waits still is refused now, and the counts differ.
    drop(receiver);
    let given_up = thread.join(&rt);
    // One of each is sure; the others met.
    holds(&rt, received > 1);
    holds(&rt, given_up > 1);
    equal(&rt, received.wrapping_add(given_up), ROUNDS);
    equal(&rt, drops.count(), ROUNDS);
}
