//! The waiting end of a blocked call, before and after the cell knows that it sleeps.
//!
//! A call sleeps on the word of its cell, so it asks for no memory. The types keep that an end is polled only before
//! it left or had its outcome, so no outcome is thrown away, and that it is put to sleep once.
ghost use Rattle.std.specs.Prelude.{◌≡◌};
ghost use Rattle.kanal_cell.specs.CellRule.{MaySleep, StillWaits};
ghost use Rattle.kanal_cell.specs.CellEnds.{wait_view};

use crate::deadline::Deadline;
use crate::signal::WaitEnd;
use std::sync::Wait;

/// A waiting end that has neither slept nor had its outcome.
#[derive(Drop)]
pub(super) struct Awake<P> {
    end: WaitEnd<P>,
    ghost unspent: { MaySleep (wait_view end) },
}

/// A waiting end whose cell knows that it sleeps, and that has not had its outcome.
#[derive(Drop)]
pub(super) struct Asleep<P> {
    end: WaitEnd<P>,
    ghost unspent: { StillWaits (wait_view end) },
}

impl<P: Drop> Awake<P> {
    pub(super) fn new(end: WaitEnd<P>) -> Self
        requires { MaySleep (wait_view end) }
        ensures { result.end ≡ end }
    {
        Awake { end }
    }

    #[inline(always)]
    pub(super) fn is_settled(&self) -> bool {
        self.end.is_settled()
    }

    pub(super) fn poll(self) -> Result<P, Self> {
        let Awake { mut end } = self;
        match end.poll() {
            Some(outcome) => Ok(outcome),
            None => Err(Awake { end }),
        }
    }

    pub(super) fn sleep(self) -> Result<P, Asleep<P>> {
        let Awake { mut end } = self;
        match end.sleep_here() {
            Some(outcome) => Ok(outcome),
            None => Err(Asleep { end }),
        }
    }
}

impl<P: Drop> Asleep<P> {
    pub(super) fn poll(self) -> Result<P, Self> {
        let Asleep { mut end } = self;
        match end.poll() {
            Some(outcome) => Ok(outcome),
            None => Err(Asleep { end }),
        }
    }

    /// Sleeps until the settle wakes it, for no longer than is left, or for no reason.
    pub(super) fn park<R: Wait, D: Deadline>(&self, rt: &R, deadline: &D, left: D::Left)
        requires left { D.is_left deadline.now left }
    {
        deadline.park(rt, &self.end, left);
    }
}
