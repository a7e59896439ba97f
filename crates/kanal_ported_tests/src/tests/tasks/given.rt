//! What the tests of tasks share: the ends of a channel, and tasks that run to their end.
use crate::tests::given::{equal, holds};
use crate::tests::messages::boxed;
use futures::StreamExt;
use futures::executor::block_on;
use kanal::error::{ReceiveError, SendError};
use kanal::{AsyncReceiver, AsyncSender, ReceiveStream, bounded_async, unbounded_async};
use std::alloc::AllocGlobal;
use std::fmt::Debug;
use std::process::Abort;
use std::random::RandomSource;
use std::sync::Wait;

/// The ends of a channel with so many places, or without limit.
pub fn new<T: Drop>(
    rt: &(impl Abort + AllocGlobal),
    capacity: Option<usize>,
) -> (AsyncSender<T>, AsyncReceiver<T>) {
    match capacity {
        None => unbounded_async(rt.alloc()).expect(rt, "a channel"),
        Some(capacity) => bounded_async(rt.alloc(), capacity).expect(rt, "a channel"),
    }
}

/// Sends in a task that runs to its end.
pub fn send<T: Drop, R: Wait + Abort + RandomSource + AllocGlobal>(
    rt: &R,
    tx: &AsyncSender<T>,
    message: T,
) -> Result<(), SendError> {
    block_on(rt, tx.send(message)).expect(rt, "a task")
}

/// Receives in a task that runs to its end.
pub fn recv<T: Drop, R: Wait + Abort + RandomSource + AllocGlobal>(
    rt: &R,
    rx: &AsyncReceiver<T>,
) -> Result<T, ReceiveError> {
    block_on(rt, rx.recv()).expect(rt, "a task")
}

/// Sends the message, and waits until it has a place or is taken.
pub fn send_one<T: Drop, R: Wait + Abort + RandomSource + AllocGlobal>(
    rt: &R,
    tx: &AsyncSender<T>,
    message: T,
) {
    equal(rt, send(rt, tx, message), Ok(()));
}

/// Receives this message, and waits for it.
pub fn receive_one<T, R>(rt: &R, rx: &AsyncReceiver<T>, message: T)
where
    T: Drop + PartialEq + Debug,
    R: Wait + Abort + RandomSource + AllocGlobal,
{
    equal(rt, recv(rt, rx), Ok(message));
}

/// Sends so many boxes round 1.
pub fn send_ones<R: Wait + Abort + RandomSource + AllocGlobal>(
    rt: &R,
    tx: &AsyncSender<Box<u64>>,
    count: u64,
) {
    for _ in 0..count {
        equal(rt, send(rt, tx, boxed(rt, 1)), Ok(()));
    }
}

/// Receives so many boxes round 1.
pub fn receive_ones<R: Wait + Abort + RandomSource + AllocGlobal>(
    rt: &R,
    rx: &AsyncReceiver<Box<u64>>,
    count: u64,
) {
    for _ in 0..count {
        let message = recv(rt, rx).expect(rt, "a message");
        equal(rt, *message, 1);
    }
}

/// Sends 0, 1 and so on, below the end, and drops the sender.
pub fn send_below<R: Wait + Abort + RandomSource + AllocGlobal>(
    rt: &R,
    tx: AsyncSender<u64>,
    end: u64,
) {
    for number in 0..end {
        send_one(rt, &tx, number);
    }
}

/// The stream's next message.
fn next<R: Wait + Abort + RandomSource + AllocGlobal>(
    rt: &R,
    stream: &mut ReceiveStream<'_, u64>,
) -> Option<u64> {
    block_on(rt, stream.next()).expect(rt, "a task")
}

/// Takes 0, 1 and so on, below the end, from a stream; then it is over, and stays so.
pub fn stream_below<R: Wait + Abort + RandomSource + AllocGlobal>(
    rt: &R,
    rx: &AsyncReceiver<u64>,
    end: u64,
) {
    let mut stream = rx.stream();
    holds(rt, !stream.is_terminated(rt));
    for number in 0..end {
        equal(rt, next(rt, &mut stream), Some(number));
    }
    equal(rt, next(rt, &mut stream), None);
    holds(rt, stream.is_terminated(rt));
    equal(rt, next(rt, &mut stream), None);
}
