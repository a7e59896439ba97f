//! Each message is dropped once, whoever drops it.
use super::given::new;
use crate::tests::given::{MESSAGES, THREADS, counter, equal, holds, wait_until};
use crate::tests::messages::{DropTester, dropped, one_two_three};
use kanal::error::SendError;
use kanal::{Receiver, Sender};
use std::alloc::{AllocGlobal, Global};
use std::process::Abort;
use std::sync::atomic::AtomicU64;
use std::sync::atomic::Ordering::SeqCst;
use std::sync::{Arc, Wait};
use std::thread;

/// The counter that the messages share.
type DropCount = Arc<AtomicU64, Global>;

/// How many messages each thread sends, and receives.
const EACH: u64 = MESSAGES / THREADS;

/// Sends so many messages that count their drops, of which each is answered so.
fn send_testers<R: Wait + Abort>(
    rt: &R,
    tx: &Sender<DropTester>,
    drops: &DropCount,
    count: u64,
    expected: Result<(), SendError>,
) {
    for _ in 0..count {
        equal(rt, tx.send(rt, DropTester::new(rt, drops)), expected);
    }
}

/// Receives messages, and drops them.
fn receive_any<T: Drop, R: Wait + Abort>(rt: &R, rx: &Receiver<T>) {
    for _ in 0..EACH {
        holds(rt, rx.recv(rt).is_ok());
    }
}

/// Several threads send such messages to as many.
#[test]
fn drop_test(rt: HostRuntime) {
    let drops = counter(&rt);
    let (sender, receiver) = new(&rt, Some(1));
    let (rt, tx, rx, told) = (&rt, &sender, &receiver, &drops);
    thread::scope(thread::scope_env(), rt, |scope| {
        for _ in 0..THREADS {
            scope
                .spawn(move || send_testers(rt, tx, told, EACH, Ok(())))
                .expect(rt, "a thread");
            scope
                .spawn(move || receive_any(rt, rx))
                .expect(rt, "a thread");
        }
    });
    dropped(rt, &drops, MESSAGES);
}

/// Sends vectors.
fn send_vectors<R: Wait + Abort + AllocGlobal>(rt: &R, tx: &Sender<Vec<u64>>) {
    for _ in 0..EACH {
        holds(rt, tx.send(rt, one_two_three(rt)).is_ok());
    }
}

/// Several threads send vectors to as many.
#[test]
fn vec_test(rt: HostRuntime) {
    let (sender, receiver) = new(&rt, Some(1));
    let (rt, tx, rx) = (&rt, &sender, &receiver);
    thread::scope(thread::scope_env(), rt, |scope| {
        for _ in 0..THREADS {
            scope
                .spawn(move || send_vectors(rt, tx))
                .expect(rt, "a thread");
            scope
                .spawn(move || receive_any(rt, rx))
                .expect(rt, "a thread");
        }
    });
}

#[test]
fn drop_test_in_queue(rt: HostRuntime) {
    let drops = counter(&rt);
    let (tx, rx) = new(&rt, Some(10));
    send_testers(&rt, &tx, &drops, 10, Ok(()));
    dropped(&rt, &drops, 0);
    equal(&rt, rx.close(&rt), Ok(()));
    dropped(&rt, &drops, 10);
}

#[test]
fn drop_test_send_to_closed(rt: HostRuntime) {
    let drops = counter(&rt);
    let (tx, rx) = new(&rt, Some(10));
    equal(&rt, rx.close(&rt), Ok(()));
    send_testers(&rt, &tx, &drops, 10, Err(SendError::Closed));
    dropped(&rt, &drops, 10);
}

#[test]
fn drop_test_send_to_half_closed(rt: HostRuntime) {
    let drops = counter(&rt);
    let (tx, rx) = new(&rt, Some(10));
    drop(rx);
    send_testers(&rt, &tx, &drops, 10, Err(SendError::ReceiveClosed));
    dropped(&rt, &drops, 10);
}

/// Ten threads send, each through a clone of its own, and tell first that the send begins. Once all have begun
/// the channel is closed, which refuses each.
#[test]
fn drop_test_in_signal(rt: HostRuntime) {
    let (drops, begun) = (counter(&rt), counter(&rt));
    let (sender, receiver) = new(&rt, Some(0));
    let (rt, told, count) = (&rt, &begun, &drops);
    thread::scope(thread::scope_env(), rt, |scope| {
        for _ in 0..10 {
            let theirs = sender.clone(rt).expect(rt, "a clone");
            scope
                .spawn(move || {
                    let message = DropTester::new(rt, count);
                    told.fetch_add(1, SeqCst);
                    equal(rt, theirs.send(rt, message), Err(SendError::Closed));
                })
                .expect(rt, "a thread");
        }
        wait_until(rt, told, 10);
        equal(rt, receiver.close(rt), Ok(()));
    });
    dropped(rt, &drops, 10);
}
