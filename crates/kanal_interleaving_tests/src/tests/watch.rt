//! A thread that fails the test where one of its rounds doesn't end, as where a wake-up was lost.
use crate::tests::given::holds;
use std::alloc::{AllocGlobal, Global};
use std::process::Abort;
use std::sync::Arc;
use std::sync::atomic::Ordering::SeqCst;
use std::sync::atomic::{AtomicBool, AtomicU32};
use std::thread;
use std::thread::{JoinHandle, Threads};
use std::time::{Clock, Duration};

/// How many milliseconds the thread sleeps between two looks.
const NAP: u64 = 10;

/// At how many looks in a row the same round may be on: for 20 seconds.
const SAME: u32 = 2_000;

/// How often the thread looks at most: for ten minutes, which is more than a test has.
const LOOKS: u32 = 60_000;

/// How far the test is.
#[derive(Drop)]
struct RoundsDone {
    rounds: AtomicU32,
    is_over: AtomicBool,
}

/// Looks again and again whether the next round has ended, until the test is over.
fn look<R: Clock + Abort>(rt: &R, progress: &RoundsDone) {
    let (mut last, mut same) = (0u32, 0u32);
    for _ in 0..LOOKS {
        if progress.is_over.load(SeqCst) {
            return;
        }
        let rounds = progress.rounds.load(SeqCst);
        same = if rounds == last {
            same.wrapping_add(1)
        } else {
            0
        };
        last = rounds;
        assert!(rt; same < SAME, "the round after {rounds} others doesn't end");
        thread::sleep(rt, Duration::from_millis(NAP));
    }
    holds(rt, false);
}

/// The thread that looks, and what it looks at.
pub struct Watchdog {
    progress: Arc<RoundsDone, Global>,
    thread: JoinHandle<()>,
}

impl Watchdog {
    /// Starts the thread, before the first round.
    pub fn start<R: Threads + Clock + Abort + AllocGlobal + Copy + Send + 'static>(rt: R) -> Self {
        let new = RoundsDone {
            rounds: AtomicU32::new(0),
            is_over: AtomicBool::new(false),
        };
        let progress = Arc::new(rt.alloc(), new).expect(&rt, "memory for the progress");
        let theirs = Arc::try_clone(&progress).expect(&rt, "one more");
        let thread = thread::spawn(&rt, move || look(&rt, &theirs)).expect(&rt, "a thread");
        Watchdog { progress, thread }
    }

    /// A round has ended.
    pub fn count(&self) {
        self.progress.rounds.fetch_add(1, SeqCst);
    }

    /// Stops the thread, after the last round. How many rounds there were.
    pub fn stop<R: Threads>(self, rt: &R) -> u32 {
        let Watchdog { progress, thread } = self;
        progress.is_over.store(true, SeqCst);
        thread.join(rt);
        progress.rounds.load(SeqCst)
    }
}
