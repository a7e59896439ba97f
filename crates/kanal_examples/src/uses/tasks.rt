//! Channels between tasks, and between a task and a thread.
use super::{SendResult, send_one};
use anyhow::Result;
use futures::executor::block_on;
use kanal::error::ReceiveError;
use kanal::{AsyncReceiver, Receiver, Sender};
use std::alloc::AllocGlobal;
use std::random::RandomSource;
use std::sync::Wait;
use std::thread::{JoinHandle, Threads};
use std::{io, thread};

/// What a receive answers.
type Got = std::result::Result<&'static str, ReceiveError>;

/// Two futures on one thread, one after the other.
pub fn within_one_task<R: Wait + RandomSource + AllocGlobal + Print>(rt: &R) -> Result<()> {
    let (sender, receiver) = kanal::bounded_async::<u64>(rt.alloc(), 8)?;
    block_on(rt, sender.send(7))??;
    println!(rt; "{}", block_on(rt, receiver.recv())??)?;
    Ok(())
}

/// Lends the sender to a task, which sends a hello and runs in a thread.
fn send_in_a_task<R>(
    rt: R,
    sender: Sender<&'static str>,
) -> Result<JoinHandle<io::Result<SendResult>>>
where
    R: Threads + Wait + RandomSource + AllocGlobal + Copy + Send + 'static,
{
    let thread = thread::spawn(&rt, move || block_on(&rt, sender.as_async().send("hello")))?;
    Ok(thread)
}

/// A channel between threads, whose sender a task then borrows: the first example of kanal's own
/// README.
pub fn a_sender_lent_to_a_task<R>(rt: R) -> Result<()>
where
    R: Threads + Wait + RandomSource + AllocGlobal + Print + Copy + Send + 'static,
{
    // A channel with room for 8 messages.
    let (sender, receiver) = kanal::bounded::<&'static str>(rt.alloc(), 8)?;

    let thread = send_one(rt, sender.clone(&rt)?, "hello")?;
    println!(rt; "I got msg: {}", receiver.recv(&rt)?)?;
    thread.join(&rt)?;

    // The same channel, borrowed for a task.
    let task = send_in_a_task(rt, sender)?;
    println!(rt; "I got msg: {}", receiver.recv(&rt)?)?;
    task.join(&rt)??;
    Ok(())
}

/// Receives in a task that runs in a thread.
fn receive_in_a_task<R>(
    rt: R,
    receiver: AsyncReceiver<&'static str>,
) -> Result<JoinHandle<io::Result<Got>>>
where
    R: Threads + Wait + RandomSource + AllocGlobal + Copy + Send + 'static,
{
    let thread = thread::spawn(&rt, move || block_on(&rt, receiver.recv()))?;
    Ok(thread)
}

/// Receives in a thread.
fn receive_in_a_thread<R: Threads + Wait + Copy + Send + 'static>(
    rt: R,
    receiver: Receiver<&'static str>,
) -> Result<JoinHandle<Got>> {
    let thread = thread::spawn(&rt, move || receiver.recv(&rt))?;
    Ok(thread)
}

/// A channel between tasks, whose receiver a thread then takes: the second example of kanal's own
/// README.
pub fn a_receiver_for_a_task_and_one_for_a_thread<R>(rt: R) -> Result<()>
where
    R: Threads + Wait + RandomSource + AllocGlobal + Print + Copy + Send + 'static,
{
    // A channel with room for 8 messages.
    let (sender, receiver) = kanal::bounded_async::<&'static str>(rt.alloc(), 8)?;
    block_on(&rt, sender.send("hello"))??;
    block_on(&rt, sender.send("hello"))??;

    // One more receiver, for a thread.
    let for_threads = receiver.clone(&rt)?.to_sync();

    let task = receive_in_a_task(rt, receiver)?;
    println!(rt; "I got msg: {}", task.join(&rt)??)?;
    let thread = receive_in_a_thread(rt, for_threads)?;
    println!(rt; "I got msg in sync context: {}", thread.join(&rt)?)?;
    Ok(())
}
