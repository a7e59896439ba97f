//! A refused pool has no worker that goes on.
use super::given::{Starved, refuses};
use crate::tests::given::equal;
use kanal_pool::{Gate, PoolError, map_jobs};
use std::alloc::AllocGlobal;
use std::sync::atomic::AtomicU64;
use std::sync::atomic::Ordering::SeqCst;
use std::thread;

/// How many turns other threads get after a refusal.
const TURNS: u32 = 1000;

/// How many jobs were entered, and how many were left.
#[derive(Drop)]
struct EnterCounts {
    entered: AtomicU64,
    left: AtomicU64,
}

impl Gate for EnterCounts {
    fn enter(&self, _job: usize) {
        self.entered.fetch_add(1, SeqCst);
        thread::yield_now();
    }

    fn leave(&self, _job: usize) {
        thread::yield_now();
        self.left.fetch_add(1, SeqCst);
    }
}

#[test]
fn no_worker_goes_on_after_a_refusal(rt: HostRuntime) {
    let jobs = [Starved; 20];
    let counts = EnterCounts {
        entered: AtomicU64::new(0),
        left: AtomicU64::new(0),
    };
    refuses(
        &rt,
        map_jobs(&rt, rt.alloc(), &jobs, 4, &counts),
        PoolError::NoMemory,
    );
    let entered = counts.entered.load(SeqCst);
    equal(&rt, counts.left.load(SeqCst), entered);
    for _ in 0..TURNS {
        thread::yield_now();
    }
    equal(&rt, counts.entered.load(SeqCst), entered);
    equal(&rt, counts.left.load(SeqCst), entered);
}
