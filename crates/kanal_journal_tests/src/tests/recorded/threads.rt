//! Two threads on one recorded channel.
use crate::tests::given::equal;
use crate::tests::recorded::parties::{Parties, recorded};
use kanal_journal::journal::Reply;
use kanal_recorded::{Pass, Recorded};
use std::sync::Wait;
use std::thread;

const TURNS: u32 = 1_000_000;

/// Tries again until a message is there, or all turns were taken.
fn until_got<R: Wait>(rt: &R, channel: &Recorded<u64>, mut pass: Pass<u64>) -> Option<u64> {
    for _ in 0..TURNS {
        if let Reply::Got(message) = pass.try_recv(rt, channel) {
            return Some(message);
        }
    }
    None
}

#[test]
fn a_message_between_threads(rt: HostRuntime) {
    let Parties { channel, mut a, b } = recorded(&rt, Some(1));
    let channel = &channel;
    let (sent, got) = thread::join(
        &rt,
        move || a.try_send(&rt, channel, 7),
        move || until_got(&rt, channel, b),
    );
    equal(&rt, sent, Reply::Yes);
    equal(&rt, got, Some(7));
}
