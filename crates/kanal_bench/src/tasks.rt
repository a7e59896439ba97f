//! What a thread does that runs one task to its end.
use futures::executor::block_on;
use futures::{FutureExt, StreamExt, future, stream};
use kanal::{AsyncReceiver, AsyncSender};
use std::alloc::AllocGlobal;
use std::io;
use std::random::RandomSource;
use std::sync::Wait;

/// Sends and receives in turn, in one task.
pub fn add_up<R>(
    rt: &R,
    sender: &AsyncSender<u64>,
    receiver: &AsyncReceiver<u64>,
    count: u64,
) -> io::Result<u64>
where
    R: Wait + RandomSource + AllocGlobal,
{
    let sum = stream::iter(0..count).fold(0u64, |sum, number| {
        sender
            .send(number)
            .then(|_| receiver.recv())
            .map(move |got| sum.wrapping_add(got.unwrap_or(0)))
    });
    block_on(rt, sum)
}

/// Sends and receives in turn, in one task, by one `AsyncSender::send_all` and one `AsyncReceiver::for_each`.
pub fn add_up_in_loops<R>(
    rt: &R,
    sender: AsyncSender<u64>,
    receiver: &AsyncReceiver<u64>,
    count: u64,
) -> io::Result<u64>
where
    R: Wait + RandomSource + AllocGlobal,
{
    let mut sum = 0u64;
    let all = sender.send_all(stream::iter(0..count));
    let each = receiver.for_each(|number| sum = sum.wrapping_add(number));
    let _ended = block_on(rt, future::join(all, each))?;
    Ok(sum)
}

/// Sends the numbers below the count.
pub fn send_all<R>(rt: &R, sender: &AsyncSender<u64>, count: u64) -> io::Result<()>
where
    R: Wait + RandomSource + AllocGlobal,
{
    let all = stream::iter(0..count).for_each(|number| sender.send(number).map(|_| ()));
    block_on(rt, all)
}

/// Sends the numbers below the count by one `AsyncSender::send_all`.
pub fn send_list<R>(rt: &R, sender: AsyncSender<u64>, count: u64) -> io::Result<()>
where
    R: Wait + RandomSource + AllocGlobal,
{
    let _sent = block_on(rt, sender.send_all(stream::iter(0..count)))?;
    Ok(())
}

/// The sum of all that is received by one `AsyncReceiver::for_each`.
pub fn receive_each<R>(rt: &R, receiver: &AsyncReceiver<u64>) -> io::Result<u64>
where
    R: Wait + RandomSource + AllocGlobal,
{
    let mut sum = 0u64;
    let _ended = block_on(
        rt,
        receiver.for_each(|number| sum = sum.wrapping_add(number)),
    )?;
    Ok(sum)
}

/// The sum of all that is received until the channel ends.
pub fn receive_all<R>(rt: &R, receiver: &AsyncReceiver<u64>) -> io::Result<u64>
where
    R: Wait + RandomSource + AllocGlobal,
{
    let sum = receiver.stream().fold(0u64, |sum, number| future::ready(sum.wrapping_add(number)));
    block_on(rt, sum)
}
