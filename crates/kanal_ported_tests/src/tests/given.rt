//! What the tests share: their sizes, the comparison of an answer with the expected one, and a count of
//! calls that begin.
use std::alloc::{AllocGlobal, Global};
use std::fmt::Debug;
use std::process::Abort;
use std::sync::Arc;
use std::sync::atomic::AtomicU64;
use std::sync::atomic::Ordering::SeqCst;
use std::thread;

/// How many messages go through a channel.
pub const MESSAGES: u64 = 10_000;

/// As many, as a capacity.
pub const PLACES: usize = 10_000;

/// How many threads there are on a side.
pub const THREADS: u64 = 8;

/// How often a test looks whether others have come as far as it wants, before it fails.
pub const TURNS: u32 = 100_000_000;

/// Ends the test, and shows both values, unless the answer is the expected one.
pub fn equal<A: PartialEq + Debug + Drop>(rt: &impl Abort, answer: A, expected: A) {
    assert_eq!(rt; answer, expected);
}

/// Ends the test unless the fact holds.
pub fn holds(rt: &impl Abort, fact: bool) {
    assert!(rt; fact);
}

/// A counter at 0.
pub fn counter(rt: &(impl Abort + AllocGlobal)) -> Arc<AtomicU64, Global> {
    Arc::new(rt.alloc(), AtomicU64::new(0)).expect(rt, "memory for a counter")
}

/// Waits until so many calls have begun; ends the test where that takes too many turns.
pub fn wait_until(rt: &impl Abort, begun: &AtomicU64, calls: u64) {
    for _ in 0..TURNS {
        if begun.load(SeqCst) >= calls {
            return;
        }
        thread::yield_now();
    }
    holds(rt, false);
}
