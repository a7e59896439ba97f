//! Futures and streams: polled by hand, and several at once.
use anyhow::Result;
use futures::executor::block_on;
use futures::task::Poll;
use futures::test::MockTask;
use futures::{Future, StreamExt, future, stream};
use std::alloc::AllocGlobal;
use std::random::RandomSource;
use std::sync::Wait;

/// One poll before the message and one after it.
pub fn before_the_message_and_after_it<R>(rt: &R) -> Result<()>
where
    R: Wait + RandomSource + AllocGlobal + Print,
{
    let (sender, receiver) = kanal::bounded_async::<u64>(rt.alloc(), 1)?;
    let task = MockTask::new(rt)?;
    let mut receiving = receiver.recv();
    println!(rt; "{}", task.poll(&mut receiving).is_pending())?;
    println!(rt; "{}", sender.try_send(rt, 7)?)?;
    if let Poll::Ready(answer) = task.poll(&mut receiving) {
        println!(rt; "{}", answer?)?;
    }
    Ok(())
}

/// Runs two tasks on one executor to their ends. Each may be several, joined.
fn run_both<R, A, B>(rt: &R, a: A, b: B) -> Result<(A::Output, B::Output)>
where
    R: Wait + RandomSource + AllocGlobal,
    A: Future<Output: Drop>,
    B: Future<Output: Drop>,
    requires first { A.can_poll a }
    requires second { B.can_poll b }
{
    Ok(block_on(rt, future::join(a, b))?)
}

/// Three clients and a hub as tasks on one executor: a client sends its numbers, and then its sender goes; the
/// hub adds up what comes by all channels until each has ended.
pub fn clients_of_one_hub<R: Wait + RandomSource + AllocGlobal + Print>(rt: &R) -> Result<()> {
    let (to_a, a) = kanal::bounded_async::<u64>(rt.alloc(), 1)?;
    let (to_b, b) = kanal::bounded_async::<u64>(rt.alloc(), 1)?;
    let (to_c, c) = kanal::bounded_async::<u64>(rt.alloc(), 1)?;
    let one = to_a.send_all(stream::iter(1..=4));
    let two = to_b.send_all(stream::iter(10..=12));
    let three = to_c.send_all(stream::iter(100..=101));
    let mut streams = Vec::new(rt.alloc());
    streams.push(a.stream())?;
    streams.push(b.stream())?;
    streams.push(c.stream())?;
    let all = stream::select_all(rt.alloc(), streams)?;
    let hub = all.fold(0, |sum: u64, n| future::ready(sum.wrapping_add(n)));
    let ((one, two, three), sum) = run_both(rt, future::join3(one, two, three), hub)?;
    println!(rt; "the hub: {sum}")?;
    Ok(one.and(two).and(three)?)
}
