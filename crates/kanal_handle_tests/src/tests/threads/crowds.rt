//! Four threads that send, and two that receive by short waits again and again, so that messages and
//! deadlines meet: all that was sent arrives, once.
use super::starts::{SendResult, start_numbers};
use crate::tests::given::{ends, equal};
use kanal::error::ReceiveErrorTimeout;
use kanal::{Receiver, SystemClock};
use std::process::Abort;
use std::sync::Wait;
use std::thread::{JoinHandle, Threads};
use std::time::Duration;
use std::{thread, time};

/// How many messages came, and their sum.
#[derive(Drop)]
struct CountAndSum {
    count: u64,
    sum: u64,
}

/// How often a receiver waits for its turn before it gives up.
const LOOKS: u32 = 1_000_000;

/// For how many microseconds it waits in a turn.
const TURN: u64 = 50;

/// Receives by calls that wait for so short a time each, until the channel ends.
fn receive_in_turns<R: Wait + time::Clock>(rt: &R, receiver: &Receiver<u64>) -> CountAndSum {
    let clock = SystemClock::new(rt);
    let mut tally = CountAndSum { count: 0, sum: 0 };
    for _ in 0..LOOKS {
        match receiver.recv_timeout(rt, Duration::from_micros(TURN), &clock) {
            Ok(number) => {
                tally.count = tally.count.wrapping_add(1);
                tally.sum = tally.sum.wrapping_add(number);
            },
            Err(ReceiveErrorTimeout::Timeout) => {},
            Err(_) => break,
        }
    }
    tally
}

/// How many numbers each sender sends: 0, 1, and so on.
const EACH: u64 = 100;

/// The sum of the numbers of one sender.
const SUM: u64 = 4950;

/// Ends the test unless all their sends went through.
fn join_senders<R: Threads + Abort>(rt: &R, sending: Vec<JoinHandle<SendResult>>) {
    for thread in sending {
        equal(rt, thread.join(rt), Ok(()));
    }
}

#[test]
fn crowds_that_receive_until_deadlines(rt: HostRuntime) {
    let (sender, receiver) = ends::<u64>(&rt, 0);
    let mut sending = Vec::new(rt.alloc());
    for _ in 0..4 {
        let theirs = sender.clone(&rt).expect(&rt, "a clone");
        let thread = start_numbers(rt, theirs, 0, EACH);
        sending.push(thread).expect(&rt, "memory for a thread");
    }
    drop(sender);
    let other = receiver.clone(&rt).expect(&rt, "a clone");
    let receiving = thread::spawn(&rt, move || receive_in_turns(&rt, &other));
    let receiving = receiving.expect(&rt, "a thread");
    let own = receive_in_turns(&rt, &receiver);
    let theirs = receiving.join(&rt);
    equal(&rt, own.count.wrapping_add(theirs.count), 4 * EACH);
    equal(&rt, own.sum.wrapping_add(theirs.sum), 4 * SUM);
    join_senders(&rt, sending);
}
