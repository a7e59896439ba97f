//! Put and take of a cell's two slots.
//!
//! Only `signal` may use it: a put or a take is right only while the end is lent the slot.
ghost use Rattle.std.specs.Prelude.{◌≡◌, ◌∷◌};
ghost use Rattle.atomic_table.specs.Table.{rest};
ghost use Rattle.kanal_cell.specs.CellRule.{Carries, IsOutcome, IsSleeper};

use crate::signal::{CellView, Held, SignalRule, Sleeper};
use atomic_table::{Seat, Shared};

pub(crate) type SharedSlot<P> = Shared<Option<Held<P>>, CellView, (), SignalRule>;

type Place<P> = Seat<Option<Held<P>>, CellView>;

pub(crate) fn put_outcome<P: Drop>(cell: &SharedSlot<P>, seat: &mut Place<P>, outcome: P)
    requires table { seat.old.table_id ≡ cell.now.table_id }
    requires empty { seat.old.me.1 ≡ (0, None) ∷ rest seat.old.me.1 }
    ensures table { (seat.new.table_id ≡ seat.old.table_id) × (seat.new.id ≡ seat.old.id) }
    ensures put { seat.new.me
        ≡ (seat.old.me.0, (0, Some (Held.Outcome outcome)) ∷ rest seat.old.me.1) }
{
    let None = cell.exchange(seat, 0, Some(Held::Outcome(outcome))) else {
        unreachable!()
    };
}

pub(crate) fn take_outcome<P: Drop>(cell: &SharedSlot<P>, seat: &mut Place<P>) -> P
    requires table { seat.old.table_id ≡ cell.now.table_id }
    requires full { Carries 0 IsOutcome seat.old.me.1 }
    ensures table { (seat.new.table_id ≡ seat.old.table_id) × (seat.new.id ≡ seat.old.id) }
    ensures took { seat.new.me ≡ (seat.old.me.0, (0, None) ∷ rest seat.old.me.1) }
    ensures value { seat.old.me.1 ≡ (0, Some (Held.Outcome result)) ∷ rest seat.old.me.1 }
{
    let Some(Held::Outcome(outcome)) = cell.exchange(seat, 0, None) else {
        unreachable!()
    };
    outcome
}

pub(crate) fn put_sleeper<P: Drop>(cell: &SharedSlot<P>, seat: &mut Place<P>, sleeper: Sleeper)
    requires table { seat.old.table_id ≡ cell.now.table_id }
    requires empty { seat.old.me.1 ≡ (1, None) ∷ rest seat.old.me.1 }
    ensures table { (seat.new.table_id ≡ seat.old.table_id) × (seat.new.id ≡ seat.old.id) }
    ensures put { seat.new.me
        ≡ (seat.old.me.0, (1, Some (Held.Sleeper sleeper)) ∷ rest seat.old.me.1) }
{
    let None = cell.exchange(seat, 1, Some(Held::Sleeper(sleeper))) else {
        unreachable!()
    };
}

pub(crate) fn take_sleeper<P: Drop>(cell: &SharedSlot<P>, seat: &mut Place<P>) -> Sleeper
    requires table { seat.old.table_id ≡ cell.now.table_id }
    requires full { Carries 1 IsSleeper seat.old.me.1 }
    ensures table { (seat.new.table_id ≡ seat.old.table_id) × (seat.new.id ≡ seat.old.id) }
    ensures took { seat.new.me ≡ (seat.old.me.0, (1, None) ∷ rest seat.old.me.1) }
    ensures value { seat.old.me.1 ≡ (1, Some (Held.Sleeper result)) ∷ rest seat.old.me.1 }
{
    let Some(Held::Sleeper(sleeper)) = cell.exchange(seat, 1, None) else {
        unreachable!()
    };
    sleeper
}
