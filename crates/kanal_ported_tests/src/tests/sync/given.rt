//! What the tests of threads share: the ends of a channel, and parties that send and receive.
use crate::tests::given::equal;
use crate::tests::messages::boxed;
use kanal::{Receiver, Sender, bounded, unbounded};
use std::alloc::AllocGlobal;
use std::fmt::Debug;
use std::process::Abort;
use std::sync::Wait;

/// The ends of a channel with so many places, or without limit.
pub fn new<T: Drop>(
    rt: &(impl Abort + AllocGlobal),
    capacity: Option<usize>,
) -> (Sender<T>, Receiver<T>) {
    match capacity {
        None => unbounded(rt.alloc()).expect(rt, "a channel"),
        Some(capacity) => bounded(rt.alloc(), capacity).expect(rt, "a channel"),
    }
}

/// Sends the message, and waits until it has a place or is taken.
pub fn send_one<T: Drop, R: Wait + Abort>(rt: &R, tx: &Sender<T>, message: T) {
    equal(rt, tx.send(rt, message), Ok(()));
}

/// Receives this message, and waits for it.
pub fn receive_one<T, R>(rt: &R, rx: &Receiver<T>, message: T)
where
    T: Drop + PartialEq + Debug,
    R: Wait + Abort,
{
    equal(rt, rx.recv(rt), Ok(message));
}

/// Sends so many boxes round 1.
pub fn send_ones<R: Wait + Abort + AllocGlobal>(rt: &R, tx: &Sender<Box<u64>>, count: u64) {
    for _ in 0..count {
        equal(rt, tx.send(rt, boxed(rt, 1)), Ok(()));
    }
}

/// Receives so many boxes round 1.
pub fn receive_ones<R: Wait + Abort>(rt: &R, rx: &Receiver<Box<u64>>, count: u64) {
    for _ in 0..count {
        let message = rx.recv(rt).expect(rt, "a message");
        equal(rt, *message, 1);
    }
}
