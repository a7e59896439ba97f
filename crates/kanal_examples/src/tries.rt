//! What users try first, a function for each: a full buffer, messages that carry more than a number, a seal and the
//! rest, who is counted and refused, threads in a scope, two channels at once, and a channel without a buffer.
use anyhow::Result;
use futures::executor::block_on;
use futures::{StreamExt, future, stream};
use kanal::error::{ReceiveErrorTimeout, SendError};
use kanal::{Receiver, TestClock};
use std::alloc::AllocGlobal;
use std::random::RandomSource;
use std::sync::Wait;
use std::thread::{self, Threads};
use std::time::{Clock, Duration};

/// What came, and by which of two channels.
#[derive(Debug, Drop)]
enum Came {
    /// A number.
    Number(u64),
    /// A word.
    Word(String),
}

/// A thing with an area.
trait Shape: Drop + Send {
    /// Its area.
    fn area(&self) -> u64;
}

/// A square, by its side.
impl Shape for u64 {
    fn area(&self) -> u64 {
        self.wrapping_mul(*self)
    }
}

/// A full buffer refuses a message, which the option form keeps.
fn full<R: Wait + AllocGlobal + Print>(rt: &R) -> Result<()> {
    let (sender, receiver) = kanal::bounded(rt.alloc(), 1)?;
    let first = sender.try_send(rt, Came::Number(1))?;
    let mut kept = Some(Came::Word(String::from_str(rt.alloc(), "two")?));
    let second = sender.try_send_option(rt, &mut kept)?;
    println!(rt;
        "full: {first}, {second}, {kept:?}; read {:?}",
        receiver.recv(rt)?
    )?;
    let third = kept.is_some() && sender.try_send_option(rt, &mut kept)?;
    println!(rt; "a place: {third}, {kept:?}; read {:?}", receiver.recv(rt)?)?;
    Ok(())
}

/// A message may hold a sender, or be a box that is made where its channel is.
fn carried<R: Wait + AllocGlobal + Print>(rt: &R) -> Result<()> {
    let (asks, requests) = kanal::bounded(rt.alloc(), 1)?;
    let (reply, answers) = kanal::bounded(rt.alloc(), 1)?;
    asks.send(rt, (21u64, reply))?;
    let (number, reply) = requests.recv(rt)?;
    reply.send(rt, number.wrapping_mul(2))?;
    println!(rt; "reply: {}", answers.recv(rt)?)?;

    let (shapes, boxes) = kanal::bounded::<Box<dyn Shape>>(rt.alloc(), 1)?;
    shapes.send(rt, Box::new(rt.alloc(), 3u64)?)?;
    println!(rt; "boxed: {}", boxes.recv(rt)?.area())?;
    Ok(())
}

/// Without limit no send waits; after a seal the rest is still there.
fn unlimited<R: Wait + AllocGlobal + Print>(rt: &R) -> Result<()> {
    let (sender, mut receiver) = kanal::unbounded(rt.alloc())?;
    for number in 1..=5u64 {
        sender.send(rt, number)?;
    }
    for number in receiver.iter(rt).take(2) {
        println!(rt; "taken: {number}")?;
    }
    sender.seal(rt)?;
    let sealed = matches!(sender.send(rt, 6), Err(SendError::Sealed));
    let mut rest = Vec::new(rt.alloc());
    let count = receiver.drain_into(rt, &mut rest)?;
    println!(rt; "sealed: {sealed}, drained {count}: {rest:?}")?;
    Ok(())
}

/// The counts follow the clones; a deadline that is over, and the last receiver's drop, refuse.
fn refused<R: Wait + Clock + AllocGlobal + Print>(rt: &R) -> Result<()> {
    let (sender, receiver) = kanal::bounded::<u64>(rt.alloc(), 1)?;
    let clones = (sender.clone(rt)?, receiver.clone(rt)?);
    let two = (sender.sender_count(rt), sender.receiver_count(rt));
    drop(clones);
    let one = (receiver.sender_count(rt), receiver.receiver_count(rt));
    println!(rt; "counts: {two:?}, then {one:?}")?;
    let (clock, none) = (TestClock::rising(), Duration::from_nanos(0));
    let empty = receiver.recv_timeout(rt, none, &clock);
    let late = matches!(empty, Err(ReceiveErrorTimeout::Timeout));
    sender.send(rt, 5)?;
    let there = receiver.recv_timeout(rt, none, &clock)?;
    println!(rt; "late: {late}, there: {there}")?;
    drop(receiver);
    let gone = matches!(sender.send(rt, 1), Err(SendError::ReceiveClosed));
    println!(rt; "gone: {gone}, receivers: {}", sender.receiver_count(rt))?;
    Ok(())
}

/// Threads of a scope share one sender, and each answers what it did.
fn scoped<R: Threads + Wait + Sync + AllocGlobal + Print>(rt: &R) -> Result<()> {
    let (sender, receiver) = kanal::bounded(rt.alloc(), 3)?;
    let shared = &sender;
    thread::scope(thread::scope_env(), rt, |scope| -> Result<()> {
        let mut workers = Vec::new(rt.alloc());
        for number in 1..=3u64 {
            workers.push(scope.spawn(move || shared.send(rt, number).map(|()| number))?)?;
        }
        for worker in workers {
            println!(rt; "worker: {}", worker.join(rt)?)?;
        }
        Ok(())
    })?;
    println!(rt; "scope: {} in the buffer", receiver.len(rt))?;
    Ok(())
}

/// What two channels of different types bring, added up by one thread until both have ended.
fn add_both<R>(rt: &R, numbers: &Receiver<u64>, words: &Receiver<String>) -> Result<u64>
where
    R: Wait + RandomSource + AllocGlobal,
{
    let both = stream::select(
        numbers.as_async().stream().map(Came::Number),
        words.as_async().stream().map(Came::Word),
    );
    let sum = both.fold(0u64, |sum, came| match came {
        Came::Number(number) => future::ready(sum.wrapping_add(number)),
        Came::Word(word) => future::ready(sum.wrapping_add(word.len() as u64)),
    });
    Ok(block_on(rt, sum)?)
}

/// Waits for two channels of different types.
fn several<R: Wait + RandomSource + AllocGlobal + Print>(rt: &R) -> Result<()> {
    let (count, numbers) = kanal::bounded(rt.alloc(), 1)?;
    let (speak, words) = kanal::bounded(rt.alloc(), 1)?;
    count.send(rt, 40u64)?;
    speak.send(rt, String::from_str(rt.alloc(), "ab")?)?;
    drop((count, speak));
    println!(rt; "several: {}", add_both(rt, &numbers, &words)?)?;
    Ok(())
}

/// Without a buffer a thread meets this one, first as a thread and then as a task.
fn meet<R>(rt: R) -> Result<()>
where
    R: Threads + Wait + RandomSource + AllocGlobal + Print + Copy + Send + 'static,
{
    let (sender, receiver) = kanal::bounded(rt.alloc(), 0)?;
    let thread = thread::spawn(&rt, move || {
        sender.send(&rt, 7u64)?;
        sender.send(&rt, 8)
    })?;
    println!(rt; "met: {}", receiver.recv(&rt)?)?;
    println!(rt; "task: {}", block_on(&rt, receiver.as_async().recv())??)?;
    thread.join(&rt)?;
    Ok(())
}

/// Prints each.
pub fn show<R>(rt: R) -> Result<()>
where
    R: Threads + Wait + RandomSource + AllocGlobal + Clock + Print + Copy + Send + Sync + 'static,
{
    full(&rt)?;
    carried(&rt)?;
    unlimited(&rt)?;
    refused(&rt)?;
    scoped(&rt)?;
    several(&rt)?;
    meet(rt)
}
