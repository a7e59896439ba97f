//! Each message is dropped once, whoever drops it.
use super::given::{new, recv, send};
use crate::tests::given::{MESSAGES, THREADS, counter, equal, holds};
use crate::tests::messages::{DropTester, dropped, one_two_three};
use kanal::error::SendError;
use kanal::{AsyncReceiver, AsyncSender};
use std::alloc::{AllocGlobal, Global};
use std::process::Abort;
use std::random::RandomSource;
use std::sync::atomic::AtomicU64;
use std::sync::{Arc, Wait};
use std::thread;
use std::thread::Threads;

/// The counter that the messages share.
type DropCount = Arc<AtomicU64, Global>;

/// How many messages each task sends, and receives.
const EACH: u64 = MESSAGES / THREADS;

/// Sends so many messages that count their drops, of which each is answered so.
fn send_testers<R: Wait + Abort + RandomSource + AllocGlobal>(
    rt: &R,
    tx: &AsyncSender<DropTester>,
    drops: &DropCount,
    count: u64,
    expected: Result<(), SendError>,
) {
    for _ in 0..count {
        equal(rt, send(rt, tx, DropTester::new(rt, drops)), expected);
    }
}

/// Receives messages, and drops them.
fn receive_any<T: Drop, R: Wait + Abort + RandomSource + AllocGlobal>(
    rt: &R,
    rx: &AsyncReceiver<T>,
) {
    for _ in 0..EACH {
        holds(rt, recv(rt, rx).is_ok());
    }
}

/// Several tasks send such messages to as many, each through a clone of its own.
#[test]
fn drop_test(rt: HostRuntime) {
    let drops = counter(&rt);
    let (tx, rx) = new(&rt, Some(1));
    let (rt, told) = (&rt, &drops);
    thread::scope(thread::scope_env(), rt, |scope| {
        for _ in 0..THREADS {
            let theirs = tx.clone(rt).expect(rt, "a clone");
            scope
                .spawn(move || send_testers(rt, &theirs, told, EACH, Ok(())))
                .expect(rt, "a thread");
            let theirs = rx.clone(rt).expect(rt, "a clone");
            scope
                .spawn(move || receive_any(rt, &theirs))
                .expect(rt, "a thread");
        }
    });
    dropped(rt, &drops, MESSAGES);
}

/// Sends vectors.
fn send_vectors<R: Wait + Abort + RandomSource + AllocGlobal>(rt: &R, tx: &AsyncSender<Vec<u64>>) {
    for _ in 0..EACH {
        holds(rt, send(rt, tx, one_two_three(rt)).is_ok());
    }
}

/// Several tasks send vectors to as many, each through a clone of its own.
#[test]
fn vec_test(rt: HostRuntime) {
    let (tx, rx) = new(&rt, Some(1));
    let rt = &rt;
    thread::scope(thread::scope_env(), rt, |scope| {
        for _ in 0..THREADS {
            let theirs = tx.clone(rt).expect(rt, "a clone");
            scope
                .spawn(move || send_vectors(rt, &theirs))
                .expect(rt, "a thread");
            let theirs = rx.clone(rt).expect(rt, "a clone");
            scope
                .spawn(move || receive_any(rt, &theirs))
                .expect(rt, "a thread");
        }
    });
}

#[test]
fn drop_test_send_to_closed(rt: HostRuntime) {
    let drops = counter(&rt);
    let (tx, rx) = new(&rt, Some(10));
    equal(&rt, rx.close(&rt), Ok(()));
    send_testers(&rt, &tx, &drops, 10, Err(SendError::Closed));
    dropped(&rt, &drops, 10);
}

#[test]
fn drop_test_send_to_half_closed(rt: HostRuntime) {
    let drops = counter(&rt);
    let (tx, rx) = new(&rt, Some(10));
    drop(rx);
    send_testers(&rt, &tx, &drops, 10, Err(SendError::ReceiveClosed));
    dropped(&rt, &drops, 10);
}

#[test]
fn drop_test_in_unused_signal(rt: HostRuntime) {
    let drops = counter(&rt);
    let (tx, rx) = new(&rt, Some(10));
    for _ in 0..10 {
        drop(tx.send(DropTester::new(&rt, &drops)));
    }
    dropped(&rt, &drops, 10);
    equal(&rt, rx.close(&rt), Ok(()));
    dropped(&rt, &drops, 10);
}

/// Ten tasks send one message each, which goes or is refused, each through a clone of its own.
fn send_from_ten<R>(rt: &R, tx: &AsyncSender<DropTester>, drops: &DropCount)
where
    R: Threads + Wait + Abort + RandomSource + AllocGlobal + Sync,
{
    thread::scope(thread::scope_env(), rt, |scope| {
        for _ in 0..10 {
            let theirs = tx.clone(rt).expect(rt, "a clone");
            scope
                .spawn(move || {
                    let _answer = send(rt, &theirs, DropTester::new(rt, drops));
                })
                .expect(rt, "a thread");
        }
    });
}

#[test]
fn drop_test_in_queue(rt: HostRuntime) {
    let drops = counter(&rt);
    let (tx, rx) = new(&rt, Some(10));
    send_from_ten(&rt, &tx, &drops);
    equal(&rt, rx.len(&rt), 10);
    dropped(&rt, &drops, 0);
    equal(&rt, rx.close(&rt), Ok(()));
    dropped(&rt, &drops, 10);
}

#[test]
fn drop_test_in_signal(rt: HostRuntime) {
    let drops = counter(&rt);
    let (tx, rx) = new(&rt, Some(10));
    thread::join(
        &rt,
        || send_from_ten(&rt, &tx, &drops),
        || equal(&rt, rx.close(&rt), Ok(())),
    );
    dropped(&rt, &drops, 10);
}
