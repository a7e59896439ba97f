//! Eight threads that send to one receiver, until no sender is left.
use crate::tests::given::{THREADS, equal};
use crate::tests::sync::given::{new, send_one};
use kanal::{Receiver, Sender};
use std::process::Abort;
use std::sync::Wait;
use std::thread;
use std::thread::Threads;

/// Sends 1 to 99, and drops the sender.
fn send_numbers<R: Wait + Abort>(rt: &R, s: Sender<u32>) {
    for number in 1..100 {
        send_one(rt, &s, number);
    }
}

/// The sum of the numbers that come until no sender is left.
fn sum<R: Wait + Abort>(rt: &R, mut r: Receiver<u32>) -> u32 {
    let mut sum = r.recv(rt).expect(rt, "a number");
    for number in r.iter(rt).take(1000) {
        sum = sum.wrapping_add(number);
    }
    sum
}

/// Eight threads send, each through a clone, and this one adds up what comes.
fn add_up<R: Threads + Wait + Abort + Sync>(rt: &R, s: Sender<u32>, r: Receiver<u32>) {
    thread::scope(thread::scope_env(), rt, |scope| {
        for _ in 0..THREADS {
            let theirs = s.clone(rt).expect(rt, "a clone");
            scope
                .spawn(move || send_numbers(rt, theirs))
                .expect(rt, "a thread");
        }
        drop(s);
        equal(rt, sum(rt, r), 39600);
    });
}

#[test]
fn bounded_and_unbounded(rt: HostRuntime) {
    let (s, r) = new::<u32>(&rt, Some(0));
    add_up(&rt, s, r);
    let (s, r) = new::<u32>(&rt, None);
    add_up(&rt, s, r);
}
