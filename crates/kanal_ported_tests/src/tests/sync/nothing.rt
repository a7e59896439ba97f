//! Messages of size 0 between threads, and through a buffer.
use super::given::new;
use super::ring::round_the_end;
use crate::tests::given::{counter, holds, wait_until};
use crate::tests::messages::NoBytes;
use kanal::{Receiver, Sender};
use std::process::Abort;
use std::sync::Wait;
use std::sync::atomic::AtomicU64;
use std::sync::atomic::Ordering::SeqCst;
use std::thread;

/// How many messages there are.
const FEW: u64 = 10;

/// Sends each message once its receive has begun.
fn send_late<R: Wait + Abort>(rt: &R, tx: &Sender<NoBytes>, begun: &AtomicU64) {
    for number in 0..FEW {
        wait_until(rt, begun, number + 1);
        holds(rt, tx.send(rt, []).is_ok());
    }
}

/// Receives the messages, and counts each receive as it begins.
fn receive_and_tell<R: Wait + Abort>(rt: &R, rx: &Receiver<NoBytes>, begun: &AtomicU64) {
    for _ in 0..FEW {
        begun.fetch_add(1, SeqCst);
        holds(rt, rx.recv(rt).is_ok());
    }
}

#[test]
fn spsc_overaligned_zst(rt: HostRuntime) {
    let (tx, rx) = new::<NoBytes>(&rt, Some(0));
    let begun = counter(&rt);
    thread::join(
        &rt,
        || send_late(&rt, &tx, &begun),
        || receive_and_tell(&rt, &rx, &begun),
    );
}

#[test]
fn nothing_through_a_buffer(rt: HostRuntime) {
    round_the_end::<NoBytes, _>(&rt, [], [], []);
}
