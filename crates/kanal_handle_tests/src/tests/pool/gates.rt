//! Jobs that wait for each other at their gate: fewer threads can't do them, in any order.
use super::given::{gives, squares};
use crate::tests::given::equal;
use kanal_pool::{Gate, map_jobs};
use std::alloc::AllocGlobal;
use std::sync::atomic::AtomicU64;
use std::sync::atomic::Ordering::SeqCst;
use std::thread;

/// How often a job that is to meet others looks for them.
const TURNS: u32 = 1_000_000;

/// How often a job that is to meet nobody looks for one too many.
const FEW_TURNS: u32 = 20_000;

/// Where jobs meet: how many are inside, how many are to be, and how many gave up waiting for the others.
#[derive(Drop)]
struct MeetingJobs {
    inside: AtomicU64,
    wanted: u64,
    turns: u32,
    met: AtomicU64,
    missed: AtomicU64,
}

impl MeetingJobs {
    /// So many jobs are to be inside at once; each looks for the others so often.
    fn of(wanted: u64, turns: u32) -> Self {
        MeetingJobs {
            inside: AtomicU64::new(0),
            wanted,
            turns,
            met: AtomicU64::new(0),
            missed: AtomicU64::new(0),
        }
    }
}

impl Gate for MeetingJobs {
    fn enter(&self, _job: usize) {
        self.inside.fetch_add(1, SeqCst);
        for _ in 0..self.turns {
            if self.met.load(SeqCst) > 0 || self.inside.load(SeqCst) == self.wanted {
                self.met.fetch_add(1, SeqCst);
                return;
            }
            thread::yield_now();
        }
        self.missed.fetch_add(1, SeqCst);
    }

    fn leave(&self, _job: usize) {
        self.inside.fetch_sub(1, SeqCst);
    }
}

/// As many jobs as there are workers.
#[test]
fn two_jobs_meet_and_four(rt: HostRuntime) {
    for workers in [2, 4] {
        let jobs = squares(&rt, workers);
        let meeting = MeetingJobs::of(u64::from(workers), TURNS);
        let answer = map_jobs(&rt, rt.alloc(), jobs.as_slice(), workers as usize, &meeting);
        let expected: &[u64] = if workers == 2 { &[0, 1] } else { &[0, 1, 4, 9] };
        gives(&rt, answer, expected);
        equal(&rt, meeting.missed.load(SeqCst), 0);
        equal(&rt, meeting.met.load(SeqCst), u64::from(workers));
    }
}

#[test]
fn no_more_jobs_at_once_than_workers(rt: HostRuntime) {
    let jobs = squares(&rt, 6);
    let meeting = MeetingJobs::of(3, FEW_TURNS);
    let answer = map_jobs(&rt, rt.alloc(), jobs.as_slice(), 2, &meeting);
    gives(&rt, answer, &[0, 1, 4, 9, 16, 25]);
    equal(&rt, meeting.met.load(SeqCst), 0);
    equal(&rt, meeting.missed.load(SeqCst), 6);
}
