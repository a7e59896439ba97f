//! Four threads on one recorded channel.
use crate::tests::recorded::parties::{add, both, channel, finish_with, pass};
use kanal_journal::journal::Reply;
use kanal_recorded::{Pass, Recorded};
use std::sync::Wait;
use std::thread;

/// Makes 1,000 calls: sends, receives, waits and withdrawals, mixed.
fn calls<R: Wait>(rt: &R, channel: &Recorded<u64>, mut pass: Pass<u64>, first: u64) -> Pass<u64> {
    for i in 0..250u64 {
        let message = first.wrapping_add(i);
        pass.try_send(rt, channel, message);
        let sent = pass.send(rt, channel, message);
        pass.try_recv(rt, channel);
        match sent {
            Reply::Waits(ticket) => pass.withdraw(rt, channel, ticket),
            _ => pass.recv_late(rt, channel),
        };
    }
    pass
}

/// Each pass's messages begin a thousand later than those of the one before.
#[test]
fn four_threads(rt: HostRuntime) {
    let channel = channel(&rt, Some(3));
    let (a, b) = (pass(&rt, &channel), pass(&rt, &channel));
    let (c, d) = (pass(&rt, &channel), pass(&rt, &channel));
    let ((a, b), (c, d)) = thread::join(
        &rt,
        || {
            thread::join(
                &rt,
                || calls(&rt, &channel, a, 0),
                || calls(&rt, &channel, b, 1000),
            )
        },
        || {
            thread::join(
                &rt,
                || calls(&rt, &channel, c, 2000),
                || calls(&rt, &channel, d, 3000),
            )
        },
    );
    let mut passes = both(&rt, a, b);
    add(&rt, &mut passes, c);
    add(&rt, &mut passes, d);
    finish_with(&rt, channel, passes, 4000);
}
