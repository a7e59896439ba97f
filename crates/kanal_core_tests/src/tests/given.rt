//! What the tests share: cores, cells, counters, and the comparison of an answer with the expected one.
//!
//! Each ends the test by itself, so that a test has nothing to hand out where something is missing.
ghost use Rattle.std.specs.Prelude.{◌≡◌};
ghost use Rattle.kanal_cell.specs.CellRule.{fresh};
ghost use Rattle.kanal_cell.specs.CellEnds.{AreOfOneCell, wait_view, settle_view};
ghost use Rattle.kanal_cell.specs.declared.signal.rule.Role.TheVariants.{Waiter, Settler};

use crossbeam_utils::sync::{Parker, Unparker};
use kanal_cell::signal;
use kanal_cell::signal::{SettleEnd, WaitEnd};
use kanal_core::internal::ChannelInternal;
use std::alloc::{AllocGlobal, Global};
use std::fmt::Debug;
use std::process::Abort;
use std::sync::atomic::{AtomicU64, Ordering};
use std::sync::{Arc, Wait};
use std::thread;
use std::thread::Threads;

/// Ends the test, and shows both values, unless the answer is the expected one.
pub fn equal<A: PartialEq + Debug + Drop>(rt: &impl Abort, answer: A, expected: A) {
    assert_eq!(rt; answer, expected);
}

/// Ends the test unless the fact holds.
pub fn holds(rt: &impl Abort, fact: bool) {
    assert!(rt; fact);
}

/// A core with so many places.
pub fn core_of<T: Drop, W: Drop>(
    rt: &(impl Abort + AllocGlobal),
    capacity: usize,
) -> ChannelInternal<T, W> {
    ChannelInternal::new(rt.alloc(), capacity).expect(rt, "a core")
}

/// A box round the number.
pub fn boxed(rt: &(impl Abort + AllocGlobal), number: u32) -> Box<u32> {
    Box::new(rt.alloc(), number).expect(rt, "memory for a box")
}

/// The ends of a fresh cell.
pub fn cell<P: Drop>(rt: &(impl Abort + AllocGlobal)) -> (WaitEnd<P>, SettleEnd<P>)
    ensures waiter { wait_view result.0 ≡ fresh Waiter }
    ensures settler { settle_view result.1 ≡ fresh Settler }
    ensures cell { AreOfOneCell result.0 result.1 }
{
    signal::new(rt.alloc()).expect(rt, "a cell")
}

/// A parker with no token.
pub fn new_parker(rt: &(impl Abort + AllocGlobal)) -> Parker {
    Parker::new(rt.alloc()).expect(rt, "a parker")
}

/// What unparks the parker.
pub fn unparker_of(rt: &impl Abort, parker: &Parker) -> Unparker {
    parker.unparker().clone().expect(rt, "an unparker")
}

/// The thread that may have been parked has gone on.
pub const PASSED: u64 = 2;

/// How often a thread looks whether another has gone on.
const TURNS: u32 = 10_000_000;

/// Sees the thread that may be parked go on; where it doesn't, wakes it.
pub fn goes_on(stage: &AtomicU64, waking: &Unparker) -> bool {
    for _ in 0..TURNS {
        if stage.load(Ordering::SeqCst) == PASSED {
            return true;
        }
        thread::yield_now();
    }
    waking.unpark();
    false
}

/// Parks at a parker that was woken, and ends the test where another thread had to end the park.
pub fn park_woken<R: Threads + Wait + Abort + AllocGlobal>(rt: &R, parker: &Parker) {
    let (stage, waking) = (counter(rt), unparker_of(rt, parker));
    let theirs = shared(rt, &stage);
    let other = thread::spawn(rt, move || goes_on(&theirs, &waking)).expect(rt, "a thread");
    parker.park(rt);
    stage.store(PASSED, Ordering::SeqCst);
    holds(rt, other.join(rt));
}

/// A counter at 0.
pub fn counter(rt: &(impl Abort + AllocGlobal)) -> Arc<AtomicU64, Global> {
    Arc::new(rt.alloc(), AtomicU64::new(0)).expect(rt, "memory for a counter")
}

/// The same counter once more.
pub fn shared(rt: &impl Abort, counter: &Arc<AtomicU64, Global>) -> Arc<AtomicU64, Global> {
    Arc::try_clone(counter).expect(rt, "a count of the counter")
}
