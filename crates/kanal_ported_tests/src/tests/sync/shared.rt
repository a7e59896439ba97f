//! Handles that several threads use at once, through references.
use super::given::new;
use crate::tests::given::equal;
use kanal::{Receiver, Sender};
use std::process::Abort;
use std::sync::Wait;
use std::sync::atomic::AtomicU64;
use std::sync::atomic::Ordering::SeqCst;
use std::thread;

/// Sends 0 to 99.
fn send_hundred<R: Wait + Abort>(rt: &R, s: &Sender<u64>) {
    for number in 0..100 {
        equal(rt, s.send(rt, number), Ok(()));
    }
}

/// Receives 200 numbers, and adds them to the sum.
fn add_received<R: Wait + Abort>(rt: &R, r: &Receiver<u64>, sum: &AtomicU64) {
    for _ in 0..200 {
        let number = r.recv(rt).expect(rt, "a number");
        sum.fetch_add(number, SeqCst);
    }
}

/// Four threads send through the one sender, two receive through the one receiver.
#[test]
fn shared_handles(rt: HostRuntime) {
    let (sender, receiver) = new::<u64>(&rt, Some(1));
    let all = AtomicU64::new(0);
    let (rt, s, r, sum) = (&rt, &sender, &receiver, &all);
    thread::scope(thread::scope_env(), rt, |scope| {
        for _ in 0..4 {
            scope
                .spawn(move || send_hundred(rt, s))
                .expect(rt, "a thread");
        }
        for _ in 0..2 {
            scope
                .spawn(move || add_received(rt, r, sum))
                .expect(rt, "a thread");
        }
    });
    equal(rt, sum.load(SeqCst), 19800);
}
