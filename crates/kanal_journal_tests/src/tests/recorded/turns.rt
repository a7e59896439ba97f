//! Histories with more entries, and with more passes, than are compared in one turn.
use crate::tests::given::equal;
use crate::tests::recorded::parties::{add, channel, finish_with, pass};
use kanal_journal::journal::Reply;
use kanal_recorded::{Pass, Recorded};
use std::alloc::AllocGlobal;
use std::process::Abort;
use std::sync::Wait;

/// Draws so many passes.
fn draw<R: Abort + Wait + AllocGlobal>(
    rt: &R,
    channel: &Recorded<u64>,
    count: u64,
) -> Vec<Pass<u64>> {
    let mut passes = Vec::new(rt.alloc());
    for _ in 0..count {
        add(rt, &mut passes, pass(rt, channel));
    }
    passes
}

/// Sends the message once by each pass.
fn send_by_each<R: Abort + Wait>(
    rt: &R,
    channel: &Recorded<u64>,
    passes: &mut Vec<Pass<u64>>,
    message: u64,
) {
    for pass in passes.iter_mut() {
        equal(rt, pass.try_send(rt, channel, message), Reply::Yes);
    }
}

/// Sends so many messages by each pass, in turn.
fn send_in_turn<R: Abort + Wait>(
    rt: &R,
    channel: &Recorded<u64>,
    passes: &mut Vec<Pass<u64>>,
    count: u64,
) {
    for message in 0..count {
        send_by_each(rt, channel, passes, message);
    }
}

#[test]
fn ten_thousand_entries_of_two_passes(rt: HostRuntime) {
    let channel = channel(&rt, None);
    let mut passes = draw(&rt, &channel, 2);
    send_in_turn(&rt, &channel, &mut passes, 5_000);
    finish_with(&rt, channel, passes, 10_000);
}

/// Also the last one first.
#[test]
fn eleven_hundred_passes(rt: HostRuntime) {
    for is_reversed in [false, true] {
        let channel = channel(&rt, None);
        let mut passes = draw(&rt, &channel, 1_100);
        send_in_turn(&rt, &channel, &mut passes, 10);
        if is_reversed {
            passes.reverse();
        }
        finish_with(&rt, channel, passes, 11_000);
    }
}
