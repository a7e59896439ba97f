//! Futures that wait and are dropped, as where their tasks are stopped.
use super::given::new;
use crate::tests::given::{counter, equal, holds};
use crate::tests::messages::{DropTester, dropped};
use futures::test::MockTask;
use kanal::{AsyncReceiver, AsyncSender, ReceiveFuture, SendFuture};
use std::alloc::{AllocGlobal, Global};
use std::process::Abort;
use std::random::RandomSource;
use std::sync::Arc;
use std::sync::atomic::AtomicU64;

/// A receive that waits by each of these receivers: none has answered.
fn waiting_receives<'a, R: Abort + RandomSource + AllocGlobal>(
    rt: &R,
    receivers: &'a [AsyncReceiver<DropTester>],
) -> Vec<ReceiveFuture<'a, DropTester>> {
    let task = MockTask::new(rt).expect(rt, "a task");
    let mut list = Vec::new(rt.alloc());
    for rx in receivers {
        let mut receiving = rx.recv();
        holds(rt, task.poll(&mut receiving).is_pending());
        list.push(receiving).expect(rt, "memory for a future");
    }
    list
}

/// Ten clones of the receiver, one for each task.
#[test]
fn recv_abort_test(rt: HostRuntime) {
    let (_tx, rx) = new::<DropTester>(&rt, Some(10));
    let mut clones = Vec::new(rt.alloc());
    for _ in 0..10 {
        let theirs = rx.clone(&rt).expect(&rt, "a clone");
        clones.push(theirs).expect(&rt, "memory for a clone");
    }
    let list = waiting_receives(&rt, clones.as_slice());
    drop(list);
    drop(clones);
    equal(&rt, rx.close(&rt), Ok(()));
}

/// A send that waits by each of these senders: none has answered.
fn waiting_sends<'a, R: Abort + RandomSource + AllocGlobal>(
    rt: &R,
    senders: &'a [AsyncSender<DropTester>],
    drops: &Arc<AtomicU64, Global>,
) -> Vec<SendFuture<'a, DropTester>> {
    let task = MockTask::new(rt).expect(rt, "a task");
    let mut list = Vec::new(rt.alloc());
    for tx in senders {
        let mut sending = tx.send(DropTester::new(rt, drops));
        holds(rt, task.poll(&mut sending).is_pending());
        list.push(sending).expect(rt, "memory for a future");
    }
    list
}

/// Ten clones of the sender, one for each task.
#[test]
fn send_abort_test(rt: HostRuntime) {
    let drops = counter(&rt);
    let (tx, rx) = new::<DropTester>(&rt, Some(0));
    let mut clones = Vec::new(rt.alloc());
    for _ in 0..10 {
        let theirs = tx.clone(&rt).expect(&rt, "a clone");
        clones.push(theirs).expect(&rt, "memory for a clone");
    }
    let list = waiting_sends(&rt, clones.as_slice(), &drops);
    dropped(&rt, &drops, 0);
    drop(list);
    drop(clones);
    dropped(&rt, &drops, 10);
    equal(&rt, rx.close(&rt), Ok(()));
    dropped(&rt, &drops, 10);
}
