//! The scenarios of a crowd: threads that send and threads that receive, each of which blocks or runs tasks.
ghost use Rattle.std.specs.Prelude.{◌<◌};

use crate::capacity::Ends;
use crate::{many_tasks, tasks, threads};
use anyhow::Result;
use kanal::{Receiver, Sender};
use std::alloc::AllocGlobal;
use std::random::RandomSource;
use std::sync::Wait;
use std::thread::{JoinHandle, Threads};
use std::{io, thread};

/// How a thread works.
#[derive(Copy, Clone)]
pub enum Worker {
    /// It blocks.
    Thread,
    /// It runs one task.
    Task,
    /// It runs one, which sends or receives all by one call.
    Loop,
    /// It runs many.
    Tasks,
}

/// How many threads send, how many receive, and how each works.
#[derive(Copy, Clone)]
pub struct Crowd {
    pub senders: u64,
    pub receivers: u64,
    pub worker: Worker,
    ghost some: { 0 < senders },
}

/// One sends, and one receives.
pub const ONE_TO_ONE: Crowd = Crowd {
    senders: 1,
    receivers: 1,
    worker: Worker::Thread,
};

/// Four send, and one receives.
pub const FOUR_TO_ONE: Crowd = Crowd {
    senders: 4,
    receivers: 1,
    worker: Worker::Thread,
};

/// Four send, and four receive.
pub const FOUR_TO_FOUR: Crowd = Crowd {
    senders: 4,
    receivers: 4,
    worker: Worker::Thread,
};

/// A task sends, and one receives.
pub const TASK_TO_TASK: Crowd = Crowd {
    senders: 1,
    receivers: 1,
    worker: Worker::Task,
};

/// Four tasks send, and four receive.
pub const FOUR_TASKS_TO_FOUR: Crowd = Crowd {
    senders: 4,
    receivers: 4,
    worker: Worker::Task,
};

/// A task sends all by one call, and one receives so.
pub const LOOP_TO_LOOP: Crowd = Crowd {
    senders: 1,
    receivers: 1,
    worker: Worker::Loop,
};

/// Four tasks send so, and four receive.
pub const FOUR_LOOPS_TO_FOUR: Crowd = Crowd {
    senders: 4,
    receivers: 4,
    worker: Worker::Loop,
};

/// Two threads send by many tasks, and two receive so.
pub const MANY_TASKS: Crowd = Crowd {
    senders: 2,
    receivers: 2,
    worker: Worker::Tasks,
};

/// What a thread does: it sends the numbers below a count, or it receives until the channel ends.
#[derive(Drop)]
enum Part {
    Send(Sender<u64>, u64),
    Receive(Receiver<u64>),
}

impl Worker {
    /// Does the part, and answers the sum of what was received.
    fn work<R: Wait + RandomSource + AllocGlobal>(self, rt: &R, part: Part) -> io::Result<u64> {
        match part {
            Part::Send(sender, count) => {
                match self {
                    Worker::Thread => threads::send_all(rt, &sender, count),
                    Worker::Task => tasks::send_all(rt, sender.as_async(), count)?,
                    Worker::Loop => tasks::send_list(rt, sender.to_async(), count)?,
                    Worker::Tasks => many_tasks::send_all(rt, sender.as_async(), count)?,
                }
                Ok(0)
            },
            Part::Receive(receiver) => match self {
                Worker::Thread => Ok(threads::receive_all(rt, &receiver)),
                Worker::Task => tasks::receive_all(rt, receiver.as_async()),
                Worker::Loop => tasks::receive_each(rt, receiver.as_async()),
                Worker::Tasks => many_tasks::receive_all(rt, receiver.as_async()),
            },
        }
    }
}

/// Starts a thread that does its part.
fn start<R>(rt: R, worker: Worker, part: Part) -> Result<JoinHandle<io::Result<u64>>>
where
    R: Threads + Wait + RandomSource + AllocGlobal + Copy + Send + 'static,
{
    Ok(thread::spawn(&rt, move || worker.work(&rt, part))?)
}

/// Starts the threads of a crowd through clones of the ends, which it drops.
fn start_all<R>(
    rt: R,
    ends: Ends,
    crowd: Crowd,
    each: u64,
    started: &mut Vec<JoinHandle<io::Result<u64>>>,
) -> Result<()>
where
    R: Threads + Wait + RandomSource + AllocGlobal + Copy + Send + 'static,
{
    let (sender, receiver) = ends;
    for number in 0..crowd.senders.saturating_add(crowd.receivers) {
        let part = if number < crowd.senders {
            Part::Send(sender.clone(&rt)?, each)
        } else {
            Part::Receive(receiver.clone(&rt)?)
        };
        started.push(start(rt, crowd.worker, part)?)?;
    }
    Ok(())
}

/// The sum of what the threads got, when all have ended.
fn sum_of<R: Threads>(rt: &R, started: Vec<JoinHandle<io::Result<u64>>>) -> io::Result<u64> {
    let mut sum = 0u64;
    for thread in started {
        sum = sum.wrapping_add(thread.join(rt)?);
    }
    Ok(sum)
}

/// Sends so many messages and receives them in threads of their own, and joins them all.
pub fn send_and_receive<R>(rt: R, ends: Ends, crowd: Crowd, count: u64) -> Result<u64>
where
    R: Threads + Wait + RandomSource + AllocGlobal + Copy + Send + 'static,
{
    let each = match crowd.worker {
        Worker::Thread | Worker::Task | Worker::Loop => count / crowd.senders,
        Worker::Tasks => count / crowd.senders / many_tasks::TASKS,
    };
    let mut all = Vec::new(rt.alloc());
    let started = start_all(rt, ends, crowd, each, &mut all);
    let sum = sum_of(&rt, all);
    started?;
    Ok(sum?)
}
