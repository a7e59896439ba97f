//! A pool whose growths, threads and jobs may be refused: its workers have ended then.
ghost use Rattle.kanal_pool.specs.Equality.{equal_fields};

use crate::driver::{Score, holds};
use kanal_pool::{Gate, Job, NoMemory, PoolError, map_jobs};
use std::alloc::Global;
use std::sync::Wait;
use std::sync::atomic::AtomicU64;
use std::sync::atomic::Ordering::SeqCst;
use std::thread::Threads;

/// A job whose answer is its number.
#[derive(Clone, Copy, Debug, PartialEq, Eq)]
struct NumberJob(u64);

impl Job for NumberJob {
    type Answer = u64;

    ghost value = { λ number. number.0 };

    fn work(&self) -> Result<u64, NoMemory> {
        Ok(self.0)
    }

    ghost equal_values = { Prim.search equal_fields };
}

/// How many jobs were begun, and how many have ended.
#[derive(Drop)]
struct RefusalCounts {
    entered: AtomicU64,
    left: AtomicU64,
}

impl Gate for RefusalCounts {
    fn enter(&self, _job: usize) {
        self.entered.fetch_add(1, SeqCst);
    }

    fn leave(&self, _job: usize) {
        self.left.fetch_add(1, SeqCst);
    }
}

/// Three jobs by two workers.
pub fn works<R: Threads + Wait + Sync>(rt: &R, alloc: Global, tally: &mut Score) -> Option<()> {
    let jobs = [NumberJob(1), NumberJob(2), NumberJob(3)];
    let counts = RefusalCounts {
        entered: AtomicU64::new(0),
        left: AtomicU64::new(0),
    };
    let answers = match map_jobs(rt, alloc, &jobs, 2, &counts) {
        Err(PoolError::NoMemory | PoolError::NoThread) => {
            tally.add()?;
            holds(counts.entered.load(SeqCst) == counts.left.load(SeqCst))?;
            map_jobs(rt, alloc, &jobs, 2, &counts).ok()?
        },
        answers => answers.ok()?,
    };
    holds(answers.as_slice() == [1, 2, 3].as_slice())
}
