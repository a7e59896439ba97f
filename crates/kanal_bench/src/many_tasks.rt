//! What a thread does that runs many tasks, on an executor of its own.
use futures::executor::run_all;
use futures::{FutureExt, StreamExt, future, stream};
use kanal::{AsyncReceiver, AsyncSender};
use std::alloc::AllocGlobal;
use std::cell::Cell;
use std::io;
use std::random::RandomSource;
use std::sync::Wait;

/// How many tasks each thread runs.
pub const TASKS: u64 = 16;

/// Runs the tasks of a thread that sends, where each sends the numbers below the count.
pub fn send_all<R>(rt: &R, sender: &AsyncSender<u64>, count: u64) -> io::Result<()>
where
    R: Wait + RandomSource + AllocGlobal,
{
    let tasks = stream::iter(0..TASKS).map(move |_| {
        stream::iter(0..count).for_each(move |number| sender.send(number).map(|_| ()))
    });
    run_all(rt, tasks)
}

/// Runs the tasks of a thread that receives, each until the channel ends, and answers the sum of all
/// that they got.
pub fn receive_all<R>(rt: &R, receiver: &AsyncReceiver<u64>) -> io::Result<u64>
where
    R: Wait + RandomSource + AllocGlobal,
{
    let sum = Cell::new(0u64);
    let total = &sum;
    let tasks = stream::iter(0..TASKS).map(move |_| {
        receiver.stream().for_each(move |number| {
            total.set(total.get().wrapping_add(number));
            future::ready(())
        })
    });
    run_all(rt, tasks)?;
    Ok(sum.get())
}
