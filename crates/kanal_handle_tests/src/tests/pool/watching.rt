//! Jobs whose gate and work are counted, each for itself.
ghost use Rattle.std.specs.Prelude.{◌==◌, ◌≡◌, true};
ghost use Rattle.std.proofs.Common.{rules};
ghost use Rattle.std.proofs.lemmas.Bool.{eqb-true};
ghost use Rattle.std.specs.Cmp.Rules.{comparing};

use super::tally::GateTally;
use crate::tests::given::{equal, holds};
use kanal_pool::{Gate, Job, NoMemory, map_jobs};
use std::alloc::AllocGlobal;
use std::sync::atomic::Ordering::SeqCst;

/// A job whose answer is its number, and whose work is counted.
#[derive(Drop)]
struct Watched {
    number: u32,
    tally: GateTally,
}

/// A gate that counts who passes it.
#[derive(Drop)]
struct Passers<'a> {
    jobs: &'a [Watched],
}

impl Gate for Passers<'_> {
    fn enter(&self, job: usize) {
        let jobs = self.jobs;
        if let Some(watched) = jobs.get(job) {
            watched.tally.entered.fetch_add(1, SeqCst);
        }
    }

    fn leave(&self, job: usize) {
        let jobs = self.jobs;
        if let Some(watched) = jobs.get(job) {
            watched.tally.left.fetch_add(1, SeqCst);
        }
    }
}

impl PartialEq for Watched {
    ghost eq = { λ one other. one.number == other.number };

    ghost laws = { Prim.search (comparing, rules) };

    fn eq(&self, other: &Self) -> bool {
        self.number == other.number
    }
}

impl Eq for Watched {
    ghost laws = { Prim.search (comparing, rules) };
}

impl Job for Watched {
    type Answer = u32;

    ghost value = { λ job. job.number };

    fn work(&self) -> Result<u32, NoMemory> {
        self.tally.work();
        Ok(self.number)
    }

    ghost equal_values = { λ one other equal. eqb-true one.number other.number equal };
}

/// The job with this number, to which nothing has happened.
fn fresh(number: u32) -> Watched {
    Watched {
        number,
        tally: GateTally::new(),
    }
}

/// Each job's counts where it was entered, worked on within its gate and left, once.
const ONCE: [u64; 4] = [1, 1, 0, 1];

#[test]
fn each_job_is_entered_worked_on_and_left_once(rt: HostRuntime) {
    for workers in [1, 2] {
        let jobs = [fresh(0), fresh(1), fresh(2)];
        let done = map_jobs(&rt, rt.alloc(), &jobs, workers, &Passers { jobs: &jobs });
        holds(&rt, done.is_ok());
        let [first, second, third] = &jobs;
        equal(&rt, first.tally.counts(), ONCE);
        equal(&rt, second.tally.counts(), ONCE);
        equal(&rt, third.tally.counts(), ONCE);
    }
}
