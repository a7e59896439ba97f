//! Futures and streams that are made in one thread and polled in another.
use super::given::new;
use crate::tests::given::equal;
use futures::StreamExt;
use futures::task::Poll;
use futures::test::MockTask;
use kanal::error::{ReceiveError, SendError};
use kanal::{ReceiveFuture, ReceiveStream, SendFuture};
use std::alloc::AllocGlobal;
use std::process::Abort;
use std::random::RandomSource;
use std::sync::Wait;
use std::thread;
use std::thread::Threads;

/// A task that is polled by hand.
fn new_task(rt: &(impl Abort + RandomSource + AllocGlobal)) -> MockTask {
    MockTask::new(rt).expect(rt, "a task")
}

/// Polls the send once, in a scoped thread of its own, which is joined.
fn send_there<R: Threads + Wait + Abort + RandomSource + AllocGlobal + Sync>(
    rt: &R,
    future: SendFuture<'_, u64>,
) -> Poll<Result<(), SendError>> {
    thread::scope(thread::scope_env(), rt, |scope| {
        let thread = scope.spawn(move || {
            let mut future = future;
            new_task(rt).poll(&mut future)
        });
        thread.expect(rt, "a thread").join(rt)
    })
}

/// Polls the receive once, in a scoped thread of its own.
fn receive_there<R: Threads + Wait + Abort + RandomSource + AllocGlobal + Sync>(
    rt: &R,
    future: ReceiveFuture<'_, u64>,
) -> Poll<Result<u64, ReceiveError>> {
    thread::scope(thread::scope_env(), rt, |scope| {
        let thread = scope.spawn(move || {
            let mut future = future;
            new_task(rt).poll(&mut future)
        });
        thread.expect(rt, "a thread").join(rt)
    })
}

/// Polls the stream once, in a scoped thread of its own.
fn next_there<R: Threads + Wait + Abort + RandomSource + AllocGlobal + Sync>(
    rt: &R,
    stream: ReceiveStream<'_, u64>,
) -> Poll<Option<u64>> {
    thread::scope(thread::scope_env(), rt, |scope| {
        let thread = scope.spawn(move || {
            let mut stream = stream;
            new_task(rt).poll(&mut stream.next())
        });
        thread.expect(rt, "a thread").join(rt)
    })
}

/// Where nothing is there the polls are pending, and once the sender is gone the stream is over.
#[test]
fn moved_futures(rt: HostRuntime) {
    let (tx, rx) = new::<u64>(&rt, Some(1));
    equal(&rt, send_there(&rt, tx.send(7)), Poll::Ready(Ok(())));
    equal(&rt, receive_there(&rt, rx.recv()), Poll::Ready(Ok(7)));
    equal(&rt, tx.try_send(&rt, 8), Ok(true));
    equal(&rt, next_there(&rt, rx.stream()), Poll::Ready(Some(8)));
    let (tx, rx) = new::<u64>(&rt, Some(1));
    equal(&rt, receive_there(&rt, rx.recv()), Poll::Pending);
    equal(&rt, next_there(&rt, rx.stream()), Poll::Pending);
    drop(tx);
    equal(&rt, next_there(&rt, rx.stream()), Poll::Ready(None));
}

/// A wait that was started in one thread is polled to its end in another.
#[test]
fn a_started_receive_is_moved(rt: HostRuntime) {
    let (tx, rx) = new::<u64>(&rt, Some(0));
    let task = new_task(&rt);
    let mut receiving = rx.recv();
    equal(&rt, task.poll(&mut receiving), Poll::Pending);
    equal(&rt, tx.try_send(&rt, 7), Ok(true));
    equal(&rt, receive_there(&rt, receiving), Poll::Ready(Ok(7)));
}
