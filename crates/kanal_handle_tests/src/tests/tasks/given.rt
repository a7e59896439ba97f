//! What the tests of tasks share: the ends of a channel for tasks, tasks, and their polls.
//!
//! Each ends the test by itself, so that a test has nothing to hand out where something is missing.
use crate::tests::given::equal;
use futures::StreamExt;
use futures::executor::block_on;
use futures::task::Poll;
use futures::test::MockTask;
use kanal::error::{ReceiveError, SendError};
use kanal::{AsyncReceiver, AsyncSender, ReceiveFuture, ReceiveStream, SendFuture, bounded_async};
use std::alloc::AllocGlobal;
use std::process::Abort;
use std::random::RandomSource;
use std::sync::Wait;

/// The ends, for tasks, of a channel with so many places.
pub fn ends<T: Drop>(
    rt: &(impl Abort + AllocGlobal),
    capacity: usize,
) -> (AsyncSender<T>, AsyncReceiver<T>) {
    bounded_async(rt.alloc(), capacity).expect(rt, "a channel")
}

/// A task that is polled by hand.
pub fn new_task(rt: &(impl Abort + RandomSource + AllocGlobal)) -> MockTask {
    MockTask::new(rt).expect(rt, "a task")
}

/// The ends, for tasks, of a channel with so many places, and a task that is polled by hand.
pub fn ends_and_task<T: Drop>(
    rt: &(impl Abort + RandomSource + AllocGlobal),
    capacity: usize,
) -> (AsyncSender<T>, AsyncReceiver<T>, MockTask) {
    let (sender, receiver) = ends(rt, capacity);
    (sender, receiver, new_task(rt))
}

/// A send that waits: its first poll, in this task, was pending.
pub fn waiting_send<'a>(
    rt: &impl Abort,
    task: &MockTask,
    sender: &'a AsyncSender<u64>,
    message: u64,
) -> SendFuture<'a, u64> {
    let mut sending = sender.send(message);
    equal(rt, task.poll(&mut sending), Poll::Pending);
    sending
}

/// A receive that waits: its first poll, in this task, was pending.
pub fn waiting_receive<'a>(
    rt: &impl Abort,
    task: &MockTask,
    receiver: &'a AsyncReceiver<u64>,
) -> ReceiveFuture<'a, u64> {
    let mut receiving = receiver.recv();
    equal(rt, task.poll(&mut receiving), Poll::Pending);
    receiving
}

/// Polls once for the stream's next message.
pub fn poll_next(task: &MockTask, stream: &mut ReceiveStream<'_, u64>) -> Poll<Option<u64>> {
    task.poll(&mut stream.next())
}

/// Sends in a task that runs to its end.
pub fn send_in_task<R: Abort + Wait + RandomSource + AllocGlobal>(
    rt: &R,
    sender: &AsyncSender<u64>,
    message: u64,
) -> Result<(), SendError> {
    block_on(rt, sender.send(message)).expect(rt, "a task")
}

/// Receives in a task that runs to its end.
pub fn receive_in_task<R: Abort + Wait + RandomSource + AllocGlobal>(
    rt: &R,
    receiver: &AsyncReceiver<u64>,
) -> Result<u64, ReceiveError> {
    block_on(rt, receiver.recv()).expect(rt, "a task")
}
