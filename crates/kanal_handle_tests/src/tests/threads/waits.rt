//! A send and a receive that wait in a thread, and what ends the wait well: the other side's call.
use super::starts::start_numbers;
use crate::tests::given::{ends, equal, holds};
use kanal::error::{ReceiveError, SendError};
use kanal::{Receiver, Sender};
use std::sync::Wait;
use std::thread;

/// How often a test looks before it gives up.
const LOOKS: u32 = 10_000_000;

/// Sends the number as soon as a receiver waits at a channel with no buffer.
fn send_to_a_waiter<R: Wait>(rt: &R, sender: &Sender<u64>, message: u64) -> bool {
    for _ in 0..LOOKS {
        if sender.try_send(rt, message) == Ok(true) {
            return true;
        }
        thread::yield_now();
    }
    false
}

/// With no buffer a message is taken only where a receiver waits. A loop over messages waits, too.
#[test]
fn a_waiting_receiver_is_handed_the_message(rt: HostRuntime) {
    let (sender, mut receiver) = ends::<u64>(&rt, 0);
    let thread = thread::spawn(&rt, move || {
        let first = receiver.recv(&rt);
        (first, receiver.iter(&rt).next())
    });
    let thread = thread.expect(&rt, "a thread");
    holds(&rt, send_to_a_waiter(&rt, &sender, 7));
    holds(&rt, send_to_a_waiter(&rt, &sender, 8));
    equal(&rt, thread.join(&rt), (Ok(7), Some(8)));
}

/// Receives as soon as a sender waits at a channel with no buffer.
fn receive_from_a_waiter<R: Wait>(rt: &R, receiver: &Receiver<u64>) -> Option<u64> {
    for _ in 0..LOOKS {
        if let Ok(Some(message)) = receiver.try_recv(rt) {
            return Some(message);
        }
        thread::yield_now();
    }
    None
}

/// Drains as soon as a sender waits at a channel with no buffer; how many messages came.
fn drain_a_waiter<R: Wait>(rt: &R, receiver: &Receiver<u64>, into: &mut Vec<u64>) -> usize {
    for _ in 0..LOOKS {
        match receiver.drain_into(rt, into) {
            Ok(0) | Err(_) => thread::yield_now(),
            Ok(count) => return count,
        }
    }
    0
}

/// With no buffer a message is there only where a sender waits. A drain takes it, too.
#[test]
fn a_waiting_sender_hands_over_its_message(rt: HostRuntime) {
    let (sender, receiver) = ends::<u64>(&rt, 0);
    let mut messages = Vec::new(rt.alloc());
    let thread = start_numbers(rt, sender, 7, 9);
    equal(&rt, receive_from_a_waiter(&rt, &receiver), Some(7));
    equal(&rt, drain_a_waiter(&rt, &receiver, &mut messages), 1);
    equal(&rt, messages.as_slice(), [8].as_slice());
    equal(&rt, thread.join(&rt), Ok(()));
}

/// How long the test puts off the seal, in turns that the other thread gets.
const TURNS: [u32; 6] = [0, 1, 10, 100, 1000, 5000];

/// Lets other threads run, so many times.
fn pass_turns(turns: u32) {
    for _ in 0..turns {
        thread::yield_now();
    }
}

/// The send of 2 waits behind 1, or comes too late.
#[test]
fn a_send_that_waits_is_served_after_a_seal(rt: HostRuntime) {
    for turns in TURNS {
        let (sender, receiver) = ends::<u64>(&rt, 1);
        equal(&rt, sender.send(&rt, 1), Ok(()));
        let thread = start_numbers(rt, sender, 2, 3);
        pass_turns(turns);
        equal(&rt, receiver.seal(&rt), Ok(()));
        equal(&rt, receiver.recv(&rt), Ok(1));
        let waited = receiver.recv(&rt) == Ok(2);
        let answer = if waited {
            Ok(())
        } else {
            Err(SendError::Sealed)
        };
        equal(&rt, thread.join(&rt), answer);
        equal(&rt, receiver.recv(&rt), Err(ReceiveError::SendClosed));
    }
}
