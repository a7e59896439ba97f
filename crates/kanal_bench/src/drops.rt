//! The scenario of receive futures that wait on one channel and are all dropped: what it costs to drop one.
use anyhow::{Result, bail};
use futures::test::MockTask;
use kanal::{AsyncReceiver, ReceiveFuture};
use rand::rngs::SmallRng;
use rand::seq::SliceRandom;
use rand_core::SeedableRng;
use std::alloc::AllocGlobal;
use std::random::RandomSource;
use std::time::{Clock, Duration, Instant};

/// The order in which the futures are dropped.
#[derive(Copy, Clone)]
pub enum Turn {
    /// Shuffled, in the same way in each run.
    Shuffled,
    /// The one that waits longest first.
    OldestFirst,
    /// The one that waits longest last.
    YoungestFirst,
}

impl Turn {
    /// The order that the first of these words names.
    pub fn named(words: &[String]) -> Result<Self> {
        match words {
            [word, ..] if word.as_str() == "shuffled" => Ok(Turn::Shuffled),
            [word, ..] if word.as_str() == "oldest-first" => Ok(Turn::OldestFirst),
            [word, ..] if word.as_str() == "youngest-first" => Ok(Turn::YoungestFirst),
            _ => bail!("the order is shuffled, oldest-first or youngest-first"),
        }
    }

    /// Puts them into the order in which they are dropped.
    fn arrange(self, waits: &mut [ReceiveFuture<'_, u64>]) {
        match self {
            Turn::Shuffled => waits.shuffle(&mut SmallRng::seed_from_u64(1)),
            Turn::OldestFirst => {},
            Turn::YoungestFirst => waits.reverse(),
        }
    }
}

/// Lets so many futures wait on a channel without a buffer and drops them in this order. It answers how long that
/// took, in nanoseconds a drop.
pub fn time<R: RandomSource + AllocGlobal + Clock>(rt: &R, turn: Turn, count: u64) -> Result<u64> {
    let task = MockTask::new(rt)?;
    let (_sender, receiver) = kanal::bounded_async::<u64>(rt.alloc(), 0)?;
    let spent = time_on(rt, &task, &receiver, turn, count)?;
    Ok(u64::try_from(spent.as_nanos())? / count.max(1))
}

/// How long it takes to drop the futures on this channel.
fn time_on<R: AllocGlobal + Clock>(
    rt: &R,
    task: &MockTask,
    receiver: &AsyncReceiver<u64>,
    turn: Turn,
    count: u64,
) -> Result<Duration> {
    let mut waits = Vec::new(rt.alloc());
    wait(task, receiver, count, &mut waits)?;
    turn.arrange(&mut waits);
    drop_all(rt, waits)
}

/// Lets so many receives wait, the oldest first.
fn wait<'a>(
    task: &MockTask,
    receiver: &'a AsyncReceiver<u64>,
    count: u64,
    waits: &mut Vec<ReceiveFuture<'a, u64>>,
) -> Result<()> {
    for _ in 0..count {
        let mut receiving = receiver.recv();
        if task.poll(&mut receiving).is_ready() {
            bail!("a receive from an empty channel has answered");
        }
        waits.push(receiving)?;
    }
    Ok(())
}

/// Drops them one by one, and answers how long that took.
fn drop_all<R: Clock>(rt: &R, waits: Vec<ReceiveFuture<'_, u64>>) -> Result<Duration> {
    let start = Instant::now(rt);
    for receiving in waits {
        drop(receiving);
    }
    Ok(start?.elapsed(rt)?)
}
