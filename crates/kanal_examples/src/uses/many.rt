//! One channel among many threads.
use super::{SendResult, send_one};
use anyhow::Result;
use futures::future::Either;
use kanal::{Receiver, Sender};
use std::alloc::AllocGlobal;
use std::random::RandomSource;
use std::sync::Wait;
use std::thread::{self, JoinHandle, Threads};

/// A clone for each of four threads, and the sum of what they sent.
pub fn a_clone_for_each_thread<R>(rt: R) -> Result<()>
where
    R: Threads + Wait + AllocGlobal + Print + Copy + Send + 'static,
{
    let (sender, receiver) = kanal::bounded::<u64>(rt.alloc(), 2)?;
    let mut threads = Vec::new(rt.alloc());
    for number in 1..=4 {
        threads.push(send_one(rt, sender.clone(&rt)?, number)?)?;
    }
    drop(sender);
    println!(rt; "{}", sum_of(&rt, &receiver)?)?;
    for thread in threads {
        thread.join(&rt)?;
    }
    Ok(())
}

/// The sum of all numbers that come, once no sender is left or the channel is sealed.
fn sum_of<R: Wait>(rt: &R, receiver: &Receiver<u64>) -> Result<u64> {
    let mut sum: u64 = 0;
    receiver.for_each(rt, |number| sum = sum.wrapping_add(number))?;
    Ok(sum)
}

/// Adds up what comes, in a thread.
fn add_up<R: Threads + Wait + Copy + Send + 'static>(
    rt: R,
    receiver: Receiver<u64>,
) -> Result<JoinHandle<Result<u64>>> {
    let thread = thread::spawn(&rt, move || sum_of(&rt, &receiver))?;
    Ok(thread)
}

/// Two workers, which a seal lets end: what is in the channel is still worked on.
pub fn a_seal_and_then_a_join<R>(rt: R) -> Result<()>
where
    R: Threads + Wait + AllocGlobal + Print + Copy + Send + 'static,
{
    let (sender, receiver) = kanal::bounded::<u64>(rt.alloc(), 8)?;
    let one = add_up(rt, receiver.clone(&rt)?)?;
    let other = add_up(rt, receiver)?;
    for number in 1..=10 {
        sender.send(&rt, number)?;
    }
    sender.seal(&rt)?;
    let (one, other) = (one.join(&rt)?, other.join(&rt)?);
    println!(rt; "{}", one.wrapping_add(other))?;
    Ok(())
}

/// What comes from two kinds of threads by one channel.
#[derive(Clone, Copy, Debug, PartialEq, Eq)]
enum Item {
    Word(&'static str),
    Number(u64),
}

/// Waits for the first of several senders: one channel, whose messages say where they come from.
pub fn one_of_several<R>(rt: R) -> Result<()>
where
    R: Threads + Wait + AllocGlobal + Print + Copy + Send + 'static,
{
    let (sender, receiver) = kanal::bounded::<Item>(rt.alloc(), 1)?;
    let words = send_one(rt, sender.clone(&rt)?, Item::Word("four"))?;
    let numbers = send_one(rt, sender, Item::Number(5))?;
    let mut letters: usize = 0;
    let mut sum: u64 = 0;
    receiver.for_each(&rt, |event| match event {
        Item::Word(word) => letters = letters.wrapping_add(word.len()),
        Item::Number(number) => sum = sum.wrapping_add(number),
    })?;
    println!(rt; "{letters} letters, and {sum}")?;
    words.join(&rt)?;
    numbers.join(&rt)?;
    Ok(())
}

/// Urgent jobs and normal ones: what came by the first lane is done before what waits in the second.
pub fn urgent_jobs_first<R>(rt: &R) -> Result<()>
where
    R: Wait + RandomSource + AllocGlobal + Print,
{
    let (urgent, first) = kanal::bounded::<u64>(rt.alloc(), 8)?;
    let (normal, second) = kanal::bounded::<&'static str>(rt.alloc(), 8)?;
    normal.send(rt, "later")?;
    urgent.send(rt, 1)?;
    urgent.send(rt, 2)?;
    drop((urgent, normal));
    let (mut sum, mut before) = (0u64, 0u64);
    kanal::prefer(&first, &second).for_each(rt, |job| match job {
        Either::Left(number) => sum = sum.wrapping_add(number),
        Either::Right(_word) => before = sum,
    })??;
    println!(rt; "first {before}")?;
    Ok(())
}

/// Puts a job into its lane, and then rings the bell.
fn put<R: Wait>(rt: &R, lane: &Sender<u64>, bell: &Sender<()>, job: u64) -> SendResult {
    lane.send(rt, job)?;
    bell.send(rt, ())
}

/// At each ring takes one job, of the first lane that has one, until no sender of the bell is left.
fn work<R: Wait + Print>(rt: &R, rings: &Receiver<()>, lanes: &[Receiver<u64>]) -> Result<()> {
    rings.try_for_each(rt, |()| -> Result<()> {
        for lane in lanes {
            if let Ok(Some(job)) = lane.try_recv(rt) {
                println!(rt; "job {job}")?;
                break;
            }
        }
        Ok(())
    })??;
    Ok(())
}

/// Three lanes by rank: what came by one is done before what waits in a later one.
pub fn three_lanes_by_a_bell<R: Wait + AllocGlobal + Print>(rt: &R) -> Result<()> {
    let (urgent, first) = kanal::bounded(rt.alloc(), 8)?;
    let (normal, second) = kanal::bounded(rt.alloc(), 8)?;
    let (idle, third) = kanal::bounded(rt.alloc(), 8)?;
    let (bell, rings) = kanal::unbounded(rt.alloc())?;
    put(rt, &idle, &bell, 1)?;
    put(rt, &normal, &bell, 2)?;
    put(rt, &urgent, &bell, 3)?;
    put(rt, &normal, &bell, 4)?;
    drop(bell);
    work(rt, &rings, &[first, second, third])
}
