//! The hand-over cell: one outcome of type `P` goes from its `SettleEnd` to its `WaitEnd`, which may act at the
//! same instant on two threads. The same cell as plain data is `CellCore`.
//!
//! Every step is one atomic operation on one word. No call waits (but for `park` and `park_timeout`), takes memory
//! (but for `new` and `cell_run`), or tries a step again. Dropping an end tells the other nothing.
ghost use Rattle.std.specs.Prelude.{◌≡◌};
ghost use Rattle.std.specs.Arc.{arc_value};
ghost use Rattle.kanal_cell.specs.CellRule.{IsWaiter, IsSettler};

use atomic_table::Seat;
use futures::task::Waker;
use std::alloc::Global;
use std::sync::Arc;

mod calls;
mod law;
mod rule;
mod settlement;
mod steps;
mod waking;

pub use calls::new;
pub use law::{cell_law, signal_law};
pub use rule::{Bits, CellView, Held, Role, Signal, SignalRule, Sleeper};
pub use settlement::SettleProof;
pub use steps::{CellCore, CellReply, CellReport, CellStep, Owner, cell_run};

/// The end that waits for the outcome. Once it has left it may not be used any more.
#[derive(Drop)]
pub struct WaitEnd<P> {
    signal: Arc<Signal<P>, Global>,
    seat: Seat<Option<Held<P>>, CellView>,
    had: bool,
    ghost sized: { ((arc_value signal).table.shared.table_id.words ≡ 1) × ((arc_value signal).table.shared.table_id.slots ≡ 2) },
    ghost fits: { seat.table_id ≡ (arc_value signal).table.shared.table_id },
    ghost view: { IsWaiter seat.me.0 seat.me.1 × (had ≡ seat.me.0.had) },
}

/// The end that hands the outcome over. Once it has settled it may not be used any more.
#[derive(Drop)]
pub struct SettleEnd<P> {
    signal: Arc<Signal<P>, Global>,
    seat: Seat<Option<Held<P>>, CellView>,
    waker: Option<Waker>,
    ghost sized: { ((arc_value signal).table.shared.table_id.words ≡ 1) × ((arc_value signal).table.shared.table_id.slots ≡ 2) },
    ghost fits: { seat.table_id ≡ (arc_value signal).table.shared.table_id },
    ghost view: { IsSettler seat.me.0 seat.me.1 },
}
