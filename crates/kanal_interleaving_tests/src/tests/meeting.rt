//! A meeting of threads: none of them goes on before all are there.
//!
//! How long one may take to come is for the test's watch to say, by the clock: a thread that is ready may be kept from
//! a processor for more turns than can be told beforehand.
use crate::tests::given::holds;
use std::alloc::{AllocGlobal, Global};
use std::process::Abort;
use std::sync::Arc;
use std::sync::atomic::AtomicU32;
use std::sync::atomic::Ordering::SeqCst;
use std::{hint, thread};

/// How often a thread looks for the others: for hours, so that the watch ends a test in which one doesn't come.
const TURNS: u64 = 1 << 40;

/// How many threads are to meet, and how many are there.
#[derive(Drop)]
pub struct Meeting {
    threads: u32,
    there: AtomicU32,
}

impl Meeting {
    /// A meeting of so many threads, where nobody is yet.
    pub fn new(rt: &(impl Abort + AllocGlobal), threads: u32) -> Arc<Meeting, Global> {
        let meeting = Meeting {
            threads,
            there: AtomicU32::new(0),
        };
        Arc::new(rt.alloc(), meeting).expect(rt, "memory for a meeting")
    }

    /// Comes, and waits until all are there.
    fn wait_for_all(&self, rt: &impl Abort) {
        self.there.fetch_add(1, SeqCst);
        for turn in 0..TURNS {
            if self.there.load(SeqCst) >= self.threads {
                return;
            }
            if turn % 64 == 63 {
                thread::yield_now();
            }
        }
        holds(rt, false);
    }

    /// Meets the others, and then puts off what comes next for so many pauses.
    pub fn attend(&self, rt: &impl Abort, pauses: u32) {
        self.wait_for_all(rt);
        for _ in 0..pauses {
            hint::spin_loop();
        }
    }
}

/// The same meeting, for another thread.
pub fn shared(rt: &impl Abort, meeting: &Arc<Meeting, Global>) -> Arc<Meeting, Global> {
    Arc::try_clone(meeting).expect(rt, "one more")
}
