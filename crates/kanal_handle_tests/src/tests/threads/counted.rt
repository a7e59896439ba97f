//! Many messages that count their drops, where the receiver goes beside the thread that sends.
use crate::tests::counted::{counted_ends, shared};
use crate::tests::given::{equal, holds};
use kanal::{Receiver, Sender};
use kanal_given::{Counted, Drops};
use std::sync::Wait;
use std::thread;

/// How many messages go through a buffer.
const MANY: u64 = 500;

/// Sends so many messages, whatever becomes of them. How many were sent.
fn send_many<R: Wait>(rt: &R, sender: &Sender<Counted>, drops: &Drops) -> u64 {
    let mut sent = 0u64;
    for _ in 0..MANY {
        let Ok(message) = drops.message() else {
            return sent;
        };
        if sender.send(rt, message).is_ok() {
            sent = sent.wrapping_add(1);
        }
    }
    sent
}

/// Receives and drops at most so many messages. How many came.
fn receive_many<R: Wait>(rt: &R, receiver: &Receiver<Counted>, limit: u64) -> u64 {
    let mut received = 0u64;
    for _ in 0..limit {
        if receiver.recv(rt).is_err() {
            break;
        }
        received = received.wrapping_add(1);
    }
    received
}

/// The receiver goes after a part of the messages: those are dropped by it, the others are refused,
/// or dropped with the channel.
#[test]
fn each_message_is_dropped_once_where_the_receiver_goes(rt: HostRuntime) {
    for capacity in [0, 1, 4] {
        let (sender, receiver, drops) = counted_ends(&rt, capacity);
        let theirs = shared(&rt, &drops);
        let thread = thread::spawn(&rt, move || send_many(&rt, &sender, &theirs));
        let thread = thread.expect(&rt, "a thread");
        equal(&rt, receive_many(&rt, &receiver, 100), 100);
        drop(receiver);
        holds(&rt, thread.join(&rt) < MANY);
        equal(&rt, drops.count(), MANY);
    }
}
