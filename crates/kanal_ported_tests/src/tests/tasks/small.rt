//! One message, two messages, and a stream.
use super::given::{new, receive_one, send_below, send_one, stream_below};
use crate::tests::given::MESSAGES;
use std::alloc::AllocGlobal;
use std::process::Abort;
use std::random::RandomSource;
use std::sync::Wait;
use std::thread;
use std::thread::Threads;

#[test]
fn one_msg(rt: HostRuntime) {
    let (tx, rx) = new::<u8>(&rt, Some(1));
    send_one(&rt, &tx, 0);
    receive_one(&rt, &rx, 0);
}

/// The messages 0 and 1 go through a channel with so many places, whose sole sender is the task's that sends.
fn two_msg<R>(rt: &R, size: usize)
where
    R: Threads + Wait + Abort + RandomSource + AllocGlobal + Sync,
{
    let (tx, rx) = new::<u8>(rt, Some(size));
    thread::join(
        rt,
        move || {
            send_one(rt, &tx, 0);
            send_one(rt, &tx, 1);
        },
        || {
            receive_one(rt, &rx, 0);
            receive_one(rt, &rx, 1);
        },
    );
}

#[test]
fn two_msg_0(rt: HostRuntime) {
    two_msg(&rt, 0);
}

#[test]
fn two_msg_1(rt: HostRuntime) {
    two_msg(&rt, 1);
}

#[test]
fn two_msg_2(rt: HostRuntime) {
    two_msg(&rt, 2);
}

#[test]
fn stream(rt: HostRuntime) {
    let (tx, rx) = new::<u64>(&rt, Some(0));
    thread::join(
        &rt,
        move || send_below(&rt, tx, MESSAGES),
        || stream_below(&rt, &rx, MESSAGES),
    );
}
