//! A buffer of three places, whose messages lie across its end.
use super::given::{new, receive_one};
use crate::tests::given::{equal, holds};
use kanal::{Receiver, Sender};
use std::alloc::AllocGlobal;
use std::fmt::Debug;
use std::process::Abort;
use std::sync::Wait;

/// Sends a message, which finds a place.
fn enter<T: Drop, R: Wait + Abort>(rt: &R, tx: &Sender<T>, message: T) {
    equal(rt, tx.try_send(rt, message), Ok(true));
}

/// Fills the buffer, from the place behind the one that it began with before.
fn fill<T, R>(rt: &R, tx: &Sender<T>, rx: &Receiver<T>, first: T, second: T, third: T)
where
    T: Drop + Copy + PartialEq + Debug,
    R: Wait + Abort,
{
    enter(rt, tx, third);
    enter(rt, tx, first);
    receive_one(rt, rx, third);
    enter(rt, tx, second);
    enter(rt, tx, third);
    equal(rt, tx.try_send(rt, first), Ok(false));
    equal(rt, rx.len(rt), 3);
}

/// Fills the buffer from its second place, from its third and from its first one, and empties it each
/// time. The first two times the messages lie across its end, where a drain takes them at last.
pub fn round_the_end<T, R>(rt: &R, first: T, second: T, third: T)
where
    T: Drop + Copy + PartialEq + Debug,
    R: Wait + Abort + AllocGlobal,
{
    let (tx, rx) = new::<T>(rt, Some(3));
    for _ in 0..3 {
        fill(rt, &tx, &rx, first, second, third);
        receive_one(rt, &rx, first);
        receive_one(rt, &rx, second);
        receive_one(rt, &rx, third);
        equal(rt, rx.try_recv(rt), Ok(None));
    }
    fill(rt, &tx, &rx, first, second, third);
    let mut drained = Vec::new(rt.alloc());
    equal(rt, rx.drain_into(rt, &mut drained), Ok(3));
    equal(rt, drained.pop(), Some(third));
    equal(rt, drained.pop(), Some(second));
    equal(rt, drained.pop(), Some(first));
    holds(rt, rx.is_empty(rt));
}

#[test]
fn numbers_through_a_buffer(rt: HostRuntime) {
    round_the_end::<u64, _>(&rt, 1, 2, 3);
}
