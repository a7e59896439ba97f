//! Until when a blocked call waits: for ever, or until a clock answers a moment.
//!
//! No other module compares a deadline with a moment. The clock is read with the lock released.
ghost use Rattle.std.specs.Prelude.{◌≡◌, ◌≤◌, ◌<◌, ◌+◌, ◌^◌, IfNone, IfSome, MatchOption};
ghost use Rattle.std.specs.Duration.{as_nanos};

use crate::clock::Clock;
use crate::signal::WaitEnd;
use std::sync::Wait;
use std::time::Duration;

/// How long a timed wait sleeps at most before it reads its clock again, in nanoseconds.
const NAP: u64 = 1_000_000;

/// Until when a call waits.
///
/// # Examples
/// ```text
/// waiting.outcome(&rt, &policy, &Never)                           waits for the outcome alone
/// waiting.outcome(&rt, &policy, &At { clock, deadline: 1_000 })   ends where the clock answers 1,000 or more, too
/// ```
pub trait Deadline {
    /// How long it is until then.
    type Left: Drop;

    /// The deadline has come.
    ghost has_come: { Self → Type 0 };

    /// It is so long until the deadline.
    ghost is_left: { Self → Self.Left → Type 0 };

    /// How long it is until the deadline; `None` where that has come.
    fn left(&self) -> Option<Self::Left>
        ensures come { IfNone result (has_come self.now) }
        ensures left { IfSome result (is_left self.now) };

    /// Sleeps at the end of a cell until that is settled, for no longer than is left, or for no reason.
    fn park<P: Drop, R: Wait>(&self, rt: &R, end: &WaitEnd<P>, left: Self::Left)
        requires left { is_left self.now left };
}

/// No deadline: a call waits until its outcome is there.
#[derive(Clone, Copy)]
pub struct Never;

impl Deadline for Never {
    ghost use Rattle.std.specs.Prelude.{⊤};

    type Left = ();

    ghost has_come = { λ _. ⊥ };

    ghost is_left = { λ _ _. ⊤ };

    #[inline(always)]
    fn left(&self) -> Option<()> {
        Some(())
    }

    fn park<P: Drop, R: Wait>(&self, rt: &R, end: &WaitEnd<P>, _left: ()) {
        end.park(rt);
    }
}

/// The moment of a clock, in nanoseconds, until which a call waits.
#[derive(Drop)]
pub struct At<'a, C: Clock> {
    pub clock: &'a C,
    pub deadline: u64,
}

impl<C: Clock> Deadline for At<'_, C> {
    ghost use Rattle.kanal_cell.specs.Deadlines.{DeadlineReached, IsLeft};

    type Left = u64;

    ghost has_come = { λ at. DeadlineReached (C.answers at.clock.now) at.deadline };

    ghost is_left = { λ at left. IsLeft (C.answers at.clock.now) at.deadline left };

    fn left(&self) -> Option<u64> {
        let now = self.clock.now();
        if now >= self.deadline {
            return None;
        }
        Some(self.deadline - now)
    }

    /// It sleeps for at most a millisecond, so that a clock of the caller's is read again.
    fn park<P: Drop, R: Wait>(&self, rt: &R, end: &WaitEnd<P>, left: u64) {
        nap(rt, end, left, Duration::from_nanos(left.min(NAP)));
    }
}

/// Sleeps at the end for so long, where that is no longer than is left.
fn nap<P: Drop, R: Wait>(rt: &R, end: &WaitEnd<P>, left: u64, duration: Duration)
    requires within { as_nanos duration ≤ left }
{
    end.park_timeout(rt, duration);
}

/// The moment so long after this one; `None` where that is past the largest one.
///
/// # Examples
/// ```text
/// deadline_after(7, Duration::from_nanos(5))          answers  Some(12)
/// deadline_after(u64::MAX, Duration::from_nanos(1))   answers  None
/// ```
pub fn deadline_after(moment: u64, duration: Duration) -> Option<u64>
    ensures sum { MatchOption result (2 ^ 64 ≤ moment + as_nanos duration)
        (λ late. (late ≡ moment + as_nanos duration) × (late < 2 ^ 64)) }
{
    let nanos = u64::try_from(duration.as_nanos()).ok()?;
    moment.checked_add(nanos)
}
