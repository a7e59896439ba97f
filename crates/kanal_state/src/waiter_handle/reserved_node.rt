//! Where the entry of a wait is kept that was left by notice, until the lock is released.
ghost use Rattle.std.specs.Prelude.{◌≡◌, length};

use crate::History;
use crate::wait_result::Settler;
use std::collections::LinkedList;
use std::marker::Model;

/// Who left by notice: the end of its cell, and the message of its entry. Contracts see which cell that is.
#[derive(Drop)]
pub struct LeftWait<T, H: History<T>> {
    pub(super) settler: Settler<T, H>,
    pub(super) message: Option<T>,
}

impl<T, H: History<T>> Model for LeftWait<T, H> {
    ghost use Rattle.kanal_cell.specs.CellEnds.{settle_cell};
    ghost use Rattle.kanal_state.specs.WaiterHandles.{LeftEntry};

    ghost Value = { LeftEntry T };

    ghost view = { λ l. record { cell = settle_cell l.settler.end; message = l.message } };
}

/// Those who left by notice, the last of them first, each in the reserved node that it brought.
pub type LeftWaits<T, H> = LinkedList<Option<LeftWait<T, H>>>;

/// A one-node list allocated when the wait starts, so that keeping the entry can't fail.
#[derive(Drop)]
pub struct ReservedNode<T, H: History<T>> {
    pub(super) place: LeftWaits<T, H>,
    ghost one_place: { length place ≡ 1 },
}
