//! What becomes of a wait, with what a pass has seen of it, on its way from who settles it to who waits.
//!
//! The type's invariant: what was seen says that a call settled this ticket with this outcome.
ghost use Rattle.std.specs.Prelude.{◌≡◌, Some};
ghost use Rattle.kanal_cell.specs.CellRule.{HasNotSettled};
ghost use Rattle.kanal_cell.specs.CellEnds.{WasSettled, StaysAtCell, kept_waker, settle_view};

use crate::History;
use futures::task::Waker;
use kanal_cell::signal::{SettleEnd, SettleProof};
use kanal_core::internal::Outcome;
use std::marker::Model;

/// What became of a wait, with what was seen of the settlement. Contracts see the ticket's number and the outcome.
#[derive(Drop)]
pub struct WaitResult<T, H: History<T>> {
    ticket: u64,
    outcome: Outcome<T>,
    prefix: H::Prefix,
}

impl<T, H: History<T>> Model for WaitResult<T, H> {
    ghost use Rattle.std.specs.Prelude.{ℕ};
    ghost use Rattle.kanal_core.specs.declared.internal.outcome.Outcome.{Outcome};

    ghost Value = { ℕ × Outcome T };

    ghost view = { λ d. (d.ticket, d.outcome) };

    ghost invariant = { λ d. H.shows d.prefix (d.ticket, d.outcome) };
}

impl<T: Drop, H: History<T>> WaitResult<T, H> {
    pub(crate) fn new(ticket: u64, outcome: Outcome<T>, prefix: H::Prefix) -> Self
        requires settled { H.shows prefix (ticket, outcome) }
        ensures { result ≡ (ticket, outcome) }
    {
        WaitResult {
            ticket,
            outcome,
            prefix,
        }
    }

    pub fn ticket(&self) -> u64
        ensures { result ≡ self.now.0 }
    {
        self.ticket
    }

    pub fn into_parts(self) -> (Outcome<T>, H::Prefix)
        ensures outcome { result.0 ≡ self.1 }
        ensures settled { H.shows result.1 self }
    {
        let WaitResult {
            ticket: _,
            outcome,
            prefix,
        } = self;
        (outcome, prefix)
    }
}

/// The end by which a wait is settled: what a waiter brings to the core. It has not settled yet.
#[derive(Drop)]
pub struct Settler<T, H: History<T>> {
    end: SettleEnd<WaitResult<T, H>>,
    ghost unspent: { HasNotSettled (settle_view end) },
}

impl<T: Drop, H: History<T>> Settler<T, H> {
    pub(crate) fn new(end: SettleEnd<WaitResult<T, H>>) -> Self
        requires { HasNotSettled (settle_view end) }
        ensures { result.end ≡ end }
    {
        Settler { end }
    }

    /// Hands over what became of the wait, and shows that; what comes back, since the waiter has left, is let go.
    pub(crate) fn settle(self, delivered: WaitResult<T, H>) -> SettleProof<WaitResult<T, H>>
        ensures told { WasSettled result self.end delivered }
    {
        let Settler { mut end } = self;
        let (settlement, back) = end.hand_over(delivered);
        drop(back);
        settlement
    }

    pub(crate) fn set_waker(&mut self, waker: Waker) -> Option<Waker>
        ensures displaced { result ≡ kept_waker self.old.end }
        ensures kept { kept_waker self.new.end ≡ Some waker }
        ensures cell { StaysAtCell self.old.end self.new.end }
    {
        self.end.set_waker(waker)
    }

    pub(crate) fn is_left(&self) -> bool {
        self.end.is_left()
    }
}
