//! Squares by several numbers of workers, and in turn; no jobs, and no workers.
use super::given::{Square, gives, refuses, squares};
use kanal_pool::{NoGate, PoolError, map_in_turn, map_jobs};
use std::alloc::AllocGlobal;

/// The squares of 0 to 9.
const SQUARES: [u64; 10] = [0, 1, 4, 9, 16, 25, 36, 49, 64, 81];

#[test]
fn squares_of_0_to_9(rt: HostRuntime) {
    let jobs = squares(&rt, 10);
    for workers in [1, 3, 12] {
        let answer = map_jobs(&rt, rt.alloc(), jobs.as_slice(), workers, &NoGate);
        gives(&rt, answer, &SQUARES);
    }
    let answer = map_in_turn(rt.alloc(), jobs.as_slice());
    gives(&rt, answer.map_err(PoolError::from), &SQUARES);
}

#[test]
fn no_jobs_or_no_workers(rt: HostRuntime) {
    let (none, one): ([Square; 0], [Square; 1]) = ([], [Square(1)]);
    gives(&rt, map_jobs(&rt, rt.alloc(), &none, 1, &NoGate), &[]);
    let answer = map_jobs(&rt, rt.alloc(), &none, 0, &NoGate);
    refuses(&rt, answer, PoolError::NoWorkers);
    let answer = map_jobs(&rt, rt.alloc(), &one, 0, &NoGate);
    refuses(&rt, answer, PoolError::NoWorkers);
}
