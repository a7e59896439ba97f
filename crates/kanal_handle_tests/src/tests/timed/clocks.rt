//! Clocks for the rows beside the test clock of the crate, and the system's.
use crate::tests::given::holds;
use kanal::{Clock, ReceiveError, Receiver, SystemClock};
use std::cell::{Cell, RefCell};
use std::time::Instant;

/// A clock that stands at one moment for so many reads, and at another from then on. It counts its reads.
#[derive(Drop)]
pub(crate) struct Turning {
    first: u64,
    still: u64,
    then: u64,
    pub reads: Cell<u64>,
}

impl Turning {
    pub(crate) fn new(first: u64, still: u64, then: u64) -> Self {
        Turning {
            first,
            still,
            then,
            reads: Cell::new(0),
        }
    }
}

impl Clock for Turning {
    fn now(&self) -> u64 {
        let reads = self.reads.get();
        self.reads.set(reads.saturating_add(1));
        if reads < self.still {
            self.first
        } else {
            self.then
        }
    }
}

/// A clock that stands at 0 and drops the last receiver at its second read.
#[derive(Drop)]
pub(crate) struct Dropping {
    pub reads: Cell<u64>,
    pub receiver: RefCell<Option<Receiver<u64>>>,
}

impl Clock for Dropping {
    fn now(&self) -> u64 {
        let reads = self.reads.get().wrapping_add(1);
        self.reads.set(reads);
        if reads == 2
            && let Ok(mut place) = self.receiver.try_borrow_mut()
        {
            *place = None;
        }
        0
    }
}

/// A clock that stands at 0, and tells whether the lock was held at a read: a channel with no sender and
/// no message answers so only where it is free.
#[derive(Drop)]
pub(crate) struct Looking {
    pub receiver: Receiver<u64>,
    pub was_held: Cell<bool>,
}

impl Clock for Looking {
    fn now(&self) -> u64 {
        if self.receiver.try_recv_realtime() != Err(ReceiveError::SendClosed) {
            self.was_held.set(true);
        }
        0
    }
}

/// How often a test looks at the time before it gives up.
const LOOKS: u32 = 10_000_000;

#[test]
fn the_systems_clock_tells_nanoseconds(rt: HostRuntime) {
    let clock = SystemClock::new(&rt);
    let start = Instant::now(&rt).expect(&rt, "a clock");
    let mut passed = 0;
    for _ in 0..LOOKS {
        passed = start.elapsed(&rt).expect(&rt, "a clock").as_nanos();
        if passed > 2_000_000 {
            break;
        }
    }
    holds(&rt, u128::from(clock.now()) >= passed);
}
