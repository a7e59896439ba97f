//! The scenario of jobs without work, by a pool or in turn: what a pool costs a job.
ghost use Rattle.kanal_pool.specs.Equality.{equal_fields};

use crate::number;
use anyhow::Result;
use kanal_pool::{Job, NoGate, NoMemory, map_in_turn, map_jobs};
use std::alloc::{AllocGlobal, Global};
use std::sync::Wait;
use std::thread::Threads;

/// A job without work: its answer is its number.
#[derive(Clone, Copy, Debug, PartialEq, Eq)]
struct IdleJob(u64);

impl Job for IdleJob {
    type Answer = u64;

    ghost value = { λ number. number.0 };

    fn work(&self) -> Result<u64, NoMemory> {
        Ok(self.0)
    }

    ghost equal_values = { Prim.search equal_fields };
}

/// How many workers the first of these words names: none, where it is `in-turn`.
pub fn workers(words: &[String]) -> Result<Option<usize>> {
    match words.first() {
        Some(word) if word.as_str() == "in-turn" => Ok(None),
        _ => Ok(Some(usize::try_from(number(words, 0)?)?)),
    }
}

/// Does so many jobs by a pool of so many workers, or in turn on this thread where there is none, and answers the
/// sum of their answers.
pub fn sum<R: Threads + Wait + AllocGlobal + Sync>(
    rt: &R,
    workers: Option<usize>,
    count: u64,
) -> Result<u64> {
    let jobs = numbers(rt.alloc(), count)?;
    let answers = match workers {
        None => map_in_turn(rt.alloc(), jobs.as_slice())?,
        Some(workers) => map_jobs(rt, rt.alloc(), jobs.as_slice(), workers, &NoGate)?,
    };
    Ok(
        answers
            .iter()
            .fold(0u64, |sum, answer| sum.wrapping_add(*answer)),
    )
}

/// The jobs with the numbers below the count.
fn numbers(alloc: Global, count: u64) -> Result<Vec<IdleJob>> {
    let mut numbers = Vec::new(alloc);
    for number in 0..count {
        numbers.push(IdleJob(number))?;
    }
    Ok(numbers)
}
