//! What becomes of one job, counted. Two tallies are one value, so a job that is watched is its number alone.
use std::marker::Model;
use std::sync::atomic::AtomicU64;
use std::sync::atomic::Ordering::SeqCst;

/// How often a job was entered, was worked on between enter and leave, was worked on otherwise, and was left.
#[derive(Drop)]
pub struct GateTally {
    pub entered: AtomicU64,
    worked: AtomicU64,
    worked_outside: AtomicU64,
    pub left: AtomicU64,
}

impl Model for GateTally {
    ghost Value = { Unit {0} };

    ghost view = { λ _. tt };
}

impl GateTally {
    /// Nothing happened.
    pub fn new() -> Self {
        GateTally {
            entered: AtomicU64::new(0),
            worked: AtomicU64::new(0),
            worked_outside: AtomicU64::new(0),
            left: AtomicU64::new(0),
        }
    }

    /// The job is worked on.
    pub fn work(&self) {
        let is_inside = self.entered.load(SeqCst) == 1 && self.left.load(SeqCst) == 0;
        let count = if is_inside {
            &self.worked
        } else {
            &self.worked_outside
        };
        count.fetch_add(1, SeqCst);
    }

    /// Entered, worked on within the gate, worked on outside of it, left: how often each.
    pub fn counts(&self) -> [u64; 4] {
        [
            self.entered.load(SeqCst),
            self.worked.load(SeqCst),
            self.worked_outside.load(SeqCst),
            self.left.load(SeqCst),
        ]
    }
}
