//! What the tests of several crates are given: messages that count their drops.
//!
//! Only tests, and programs that test, use it.
#![tactic(auto)]

use std::alloc::{AllocError, Global};
use std::sync::Arc;
use std::sync::atomic::AtomicU64;
use std::sync::atomic::Ordering::SeqCst;

/// How many messages were dropped.
#[derive(Drop)]
pub struct Drops {
    count: Arc<AtomicU64, Global>,
}

/// A message that is counted when it is dropped.
pub struct Counted {
    count: Arc<AtomicU64, Global>,
}

impl Drop for Counted {
    fn drop(self) {
        let Counted { count } = self;
        count.fetch_add(1, SeqCst);
    }
}

impl Drops {
    /// No message was dropped.
    ///
    /// # Errors
    /// `AllocError` where there is no memory for the counter.
    pub fn new(alloc: Global) -> Result<Self, AllocError> {
        let count = Arc::new(alloc, AtomicU64::new(0))?;
        Ok(Drops { count })
    }

    /// A message that is counted here.
    ///
    /// # Errors
    /// `AllocError` where there are too many messages.
    pub fn message(&self) -> Result<Counted, AllocError> {
        let count = Arc::try_clone(&self.count)?;
        Ok(Counted { count })
    }

    /// The same counter once more.
    ///
    /// # Errors
    /// `AllocError` where there are too many of them.
    pub fn try_clone(&self) -> Result<Self, AllocError> {
        let count = Arc::try_clone(&self.count)?;
        Ok(Drops { count })
    }

    /// How many messages were dropped so far.
    pub fn count(&self) -> u64 {
        self.count.load(SeqCst)
    }
}
