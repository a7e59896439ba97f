//! Numbered messages that count their drops, each number for itself.
use crate::tests::given::equal;
use std::alloc::{AllocGlobal, Global};
use std::process::Abort;
use std::sync::Arc;
use std::sync::atomic::AtomicU64;
use std::sync::atomic::Ordering::SeqCst;

/// How often the message of each number was dropped.
#[derive(Drop)]
pub struct DropCounts {
    counts: [AtomicU64; 5],
}

impl DropCounts {
    /// No message was dropped.
    pub fn new(rt: &(impl Abort + AllocGlobal)) -> Arc<DropCounts, Global> {
        let drops = DropCounts {
            counts: [
                AtomicU64::new(0),
                AtomicU64::new(0),
                AtomicU64::new(0),
                AtomicU64::new(0),
                AtomicU64::new(0),
            ],
        };
        Arc::new(rt.alloc(), drops).expect(rt, "memory for counters")
    }

    /// Ends the test unless each message below this number was dropped once, and no other. The counts
    /// are 0 afterwards.
    pub fn were_once(&self, rt: &impl Abort, made: usize) {
        for (number, count) in self.counts.iter().enumerate() {
            let expected = if number < made { 1 } else { 0 };
            equal(rt, count.swap(0, SeqCst), expected);
        }
    }
}

/// A message with a number, which counts its drop.
pub struct Numbered {
    number: usize,
    drops: Arc<DropCounts, Global>,
}

impl Drop for Numbered {
    fn drop(self) {
        let Numbered { number, drops } = self;
        if let Some(count) = drops.counts.get(number) {
            count.fetch_add(1, SeqCst);
        }
    }
}

impl Numbered {
    /// The message of this number.
    pub fn new(rt: &impl Abort, drops: &Arc<DropCounts, Global>, number: usize) -> Self {
        let drops = Arc::try_clone(drops).expect(rt, "one more");
        Numbered { number, drops }
    }

    /// Its number.
    pub fn number(&self) -> usize {
        self.number
    }
}
