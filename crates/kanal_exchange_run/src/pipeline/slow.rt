//! The slow stage, and what is told of who waits for it.
use kanal_exchange::Stage;
use std::sync::atomic::AtomicU64;
use std::sync::atomic::Ordering::SeqCst;
use std::thread;
use std::time::{Clock, Duration};

/// How long the stage takes for a count, in milliseconds.
const WORK: u64 = 1;

/// How many counts wait for the slow stage: those in the channel before it, and those on their way in and out.
#[derive(Drop)]
pub struct Backlog {
    now: AtomicU64,
    most: AtomicU64,
}

impl Backlog {
    /// None waits.
    pub fn new() -> Self {
        Backlog {
            now: AtomicU64::new(0),
            most: AtomicU64::new(0),
        }
    }

    /// One more waits.
    pub fn begins(&self) {
        let now = self.now.fetch_add(1, SeqCst).wrapping_add(1);
        self.most.fetch_max(now, SeqCst);
    }

    /// One waits no longer.
    fn ends(&self) {
        self.now.fetch_sub(1, SeqCst);
    }

    /// How many waited at most.
    pub fn most(&self) -> u64 {
        self.most.load(SeqCst)
    }
}

/// Hands on each count as it is, and takes its time.
#[derive(Drop)]
pub struct Slow<'a, R> {
    /// What tells the time.
    pub rt: &'a R,
    /// Who waits for the stage.
    pub waiting: &'a Backlog,
}

impl<'a, R: Clock> Stage for Slow<'a, R> {
    type Input = u64;

    type Output = u64;

    ghost value = { λ _ count. count };

    fn apply(&self, message: u64) -> Option<u64> {
        self.waiting.ends();
        let _slept = thread::sleep(self.rt, Duration::from_millis(WORK));
        Some(message)
    }
}
