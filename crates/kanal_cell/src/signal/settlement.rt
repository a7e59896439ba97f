//! What shows that a cell was settled, and with which outcome.
//!
//! It has no bytes. A settle alone makes one, after its step and after it woke whom it had to.
ghost use Rattle.std.specs.Prelude.{◌≡◌, true};
ghost use Rattle.kanal_cell.specs.CellEnds.{WasSettled, settle_view};

use super::SettleEnd;
use super::waking::Woken;
use std::snapshot::Snapshot;

/// That a settler has settled its cell with an outcome, and has woken whom it had to.
#[derive(Drop)]
pub struct SettleProof<P> {
    end: Snapshot<SettleEnd<P>>,
    outcome: Snapshot<P>,
}

impl<P> SettleProof<P> {
    pub(super) fn new(end: &SettleEnd<P>, outcome: Snapshot<P>, woken: Woken) -> Self
        requires ended { (settle_view end.now).set.ended ≡ true }
        ensures { WasSettled result end.now outcome.value }
    {
        drop(woken);
        SettleProof {
            end: Snapshot::of(end),
            outcome,
        }
    }
}
