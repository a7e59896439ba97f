//! Races of a seal: in each round one thread seals a channel while this one sends to it, and then receives.
//!
//! A message that was sent is received behind the seal, and one that was refused isn't.
use crate::tests::counted::{DropCounts, Numbered};
use crate::tests::given::{equal, holds};
use crate::tests::meeting::{Meeting, shared};
use crate::tests::watch::Watchdog;
use kanal::error::{ReceiveError, SendError};
use kanal::{Receiver, Sender, bounded};
use std::alloc::{AllocGlobal, Global};
use std::process::Abort;
use std::sync::{Arc, Wait};
use std::thread;
use std::thread::Threads;

/// How many rounds there are.
const ROUNDS: u32 = 10_000;

/// Ends the test unless so many messages are there, and then the end.
fn receive_rest<R: Wait + Abort>(rt: &R, receiver: &Receiver<Numbered>, count: usize) {
    for _ in 0..count {
        holds(rt, receiver.recv(rt).is_ok());
    }
    holds(
        rt,
        matches!(receiver.recv(rt), Err(ReceiveError::SendClosed)),
    );
}

/// Sends a message beside a seal, which another thread makes: it is received, or it is refused.
fn send_beside_a_seal<R: Threads + Wait + Abort + AllocGlobal + Copy + Send + 'static>(
    rt: R,
    pauses: u32,
    drops: &Arc<DropCounts, Global>,
) {
    let (sender, receiver) = bounded(rt.alloc(), 1).expect(&rt, "a channel");
    let other: Sender<Numbered> = sender.clone(&rt).expect(&rt, "a clone");
    let message = Numbered::new(&rt, drops, 0);
    let meeting = Meeting::new(&rt, 2);
    let theirs = shared(&rt, &meeting);
    let sealing = thread::spawn(&rt, move || {
        theirs.attend(&rt, pauses);
        other.seal(&rt).is_ok()
    });
    let sealing = sealing.expect(&rt, "a thread");
    meeting.attend(&rt, 0);
    let answer = sender.send(&rt, message);
    let count = if answer.is_ok() { 1 } else { 0 };
    holds(&rt, matches!(answer, Ok(()) | Err(SendError::Sealed)));
    receive_rest(&rt, &receiver, count);
    holds(&rt, sealing.join(&rt));
    drops.were_once(&rt, 1);
}

#[test]
fn a_seal_beside_a_send(rt: HostRuntime) {
    let drops = DropCounts::new(&rt);
    let watch = Watchdog::start(rt);
    for round in 0..ROUNDS {
        send_beside_a_seal(rt, round % 40, &drops);
        watch.count();
    }
    equal(&rt, watch.stop(&rt), 10_000);
}
