//! How often a timed wait reads its clock, and for how long it sleeps.
use super::clocks::Turning;
use crate::tests::given::{ends, equal, holds};
use kanal::Clock;
use kanal::error::ReceiveErrorTimeout;
use std::cell::Cell;
use std::time;
use std::time::{Duration, Instant};

/// One read sets the deadline, one comes before the lock, and one finds that the deadline has come.
#[test]
fn a_wait_at_its_deadline_reads_no_clock_again(rt: HostRuntime) {
    let (_sender, receiver) = ends::<u64>(&rt, 0);
    let clock = Turning::new(0, 0, 0);
    let got = receiver.recv_timeout(&rt, Duration::from_nanos(0), &clock);
    equal(&rt, got, Err(ReceiveErrorTimeout::Timeout));
    equal(&rt, clock.reads.get(), 3);
}

/// A clock that stands at 0 for so many reads, and keeps the shortest time between two of the later half of
/// them, in the system's nanoseconds. Then it is past every deadline.
#[derive(Drop)]
struct Gaps<'a, R> {
    rt: &'a R,
    still: u64,
    reads: Cell<u64>,
    last: Cell<Option<Instant>>,
    shortest: Cell<u128>,
}

impl<'a, R> Gaps<'a, R> {
    fn new(rt: &'a R, still: u64) -> Self {
        Gaps {
            rt,
            still,
            reads: Cell::new(0),
            last: Cell::new(None),
            shortest: Cell::new(u128::MAX),
        }
    }
}

impl<R: time::Clock> Clock for Gaps<'_, R> {
    fn now(&self) -> u64 {
        let now = Instant::now(self.rt).ok();
        if let (Some(last), Some(now)) = (self.last.get(), now) {
            let gap = now.duration_since(last).as_nanos();
            self.shortest.set(self.shortest.get().min(gap));
        }
        // The pauses and yields before a wait sleeps are no sleeps: 64 reads at most.
        self.last.set(if self.reads.get() > self.still / 2 {
            now
        } else {
            None
        });
        self.reads.set(self.reads.get().wrapping_add(1));
        if self.reads.get() < self.still {
            0
        } else {
            u64::MAX
        }
    }
}

/// Where one nanosecond is left at each read, a sleep of a whole millisecond would go past the deadline. Where a
/// second is left, a sleep of all of that would have the clock read a second later.
#[test]
fn a_wait_sleeps_no_longer_than_is_left_or_a_millisecond_or_so(rt: HostRuntime) {
    let waits = [
        (1_000, Duration::from_nanos(1), 1_000_000),
        (140, Duration::from_secs(1), 500_000_000),
    ];
    for (reads, left, limit) in waits {
        let (_sender, receiver) = ends::<u64>(&rt, 0);
        let clock = Gaps::new(&rt, reads);
        let got = receiver.recv_timeout(&rt, left, &clock);
        equal(&rt, got, Err(ReceiveErrorTimeout::Timeout));
        holds(&rt, clock.shortest.get() < limit);
    }
}
