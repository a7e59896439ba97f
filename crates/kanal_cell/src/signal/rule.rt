//! What the running cell holds, what its ends know, its rule, and the names of its steps.
//!
//! No other module may make a `Seat` of a cell, nor step on its word.
use atomic_table::{Play, Seat, Split, Table, TableRule};
use crossbeam_utils::sync::Unparker;
use std::alloc::Global;

/// The waiter has registered a sleeper, or tried to once the cell was ended.
pub(crate) const SLEEPING: u64 = 1;

/// The settler has settled.
pub(crate) const ENDED: u64 = 2;

/// The waiter has left.
pub(crate) const LEFT: u64 = 4;

/// By what the waiter's thread sleeps, and so how it is woken.
#[derive(Drop)]
pub enum Sleeper {
    /// By a parker.
    Parker(Unparker),
    /// On the word of the cell, which takes no memory.
    Word,
}

/// What a slot holds. Both slots of a cell have this one type, and the rule says which holds which.
#[derive(Drop)]
pub enum Held<P> {
    /// What the settler hands over.
    Outcome(P),
    /// How the waiter's thread is woken.
    Sleeper(Sleeper),
}

/// The three bits of the word.
pub struct Bits {
    pub sleeping: bool,
    pub ended: bool,
    pub left: bool,
}

/// Whose view it is.
pub enum Role {
    /// The one seat of a cell that is being made.
    Maker,
    /// The same seat once it is lent the sleeper's slot.
    WaiterToBe,
    /// The second seat before it is lent the outcome's slot.
    SettlerToBe,
    /// The seat of the `WaitEnd`.
    Waiter,
    /// The seat of the `SettleEnd`.
    Settler,
}

/// What an end knows of its own steps. It stands in contracts alone, and no value of it is made,
/// so the number of steps has no limit.
pub struct CellView {
    /// Whose view it is.
    pub role: Role,
    /// How many steps the end has made.
    pub steps: u64,
    /// The bits that it set.
    pub set: Bits,
    /// The bits of the word that its last step found.
    pub found: Bits,
    /// It had the outcome: it was handed to the waiter, or back to the settler.
    pub had: bool,
}

/// The rule that every cell keeps between any two steps.
pub struct SignalRule;

impl<P> TableRule<Option<Held<P>>, CellView, ()> for SignalRule {
    ghost use Rattle.kanal_cell.specs.CellRule.{FollowsRule, fresh};
    ghost use Rattle.kanal_cell.specs.declared.signal.rule.Role.TheVariants.{Maker};

    ghost holds = { λ _. FollowsRule };

    ghost first = { λ _. fresh Maker };
}

/// The load at which the waiter is lent the sleeper's slot.
pub(crate) struct WaiterBegins;

impl<P> Play<Option<Held<P>>, CellView> for WaiterBegins {
    ghost use Rattle.kanal_cell.specs.CellRule.{waiter_began};

    ghost then = { waiter_began };
}

/// The load at which the settler is lent the outcome's slot.
pub(crate) struct SettlerBegins;

impl<P> Play<Option<Held<P>>, CellView> for SettlerBegins {
    ghost use Rattle.kanal_cell.specs.CellRule.{settler_began};

    ghost then = { settler_began };
}

pub(crate) struct CellParts;

impl Split<CellView> for CellParts {
    ghost use Rattle.kanal_cell.specs.CellRule.{fresh};
    ghost use Rattle.kanal_cell.specs.declared.signal.rule.Role.TheVariants.{Waiter, SettlerToBe};

    ghost left = { λ _. fresh Waiter };

    ghost right = { λ _. fresh SettlerToBe };
}

pub(crate) struct Sleeps;

impl<P> Play<Option<Held<P>>, CellView> for Sleeps {
    ghost use Rattle.kanal_cell.specs.CellRule.{slept};

    ghost then = { slept };
}

pub(crate) struct Polls;

impl<P> Play<Option<Held<P>>, CellView> for Polls {
    ghost use Rattle.kanal_cell.specs.CellRule.{polled};

    ghost then = { polled };
}

pub(crate) struct Leaves;

impl<P> Play<Option<Held<P>>, CellView> for Leaves {
    ghost use Rattle.kanal_cell.specs.CellRule.{quit};

    ghost then = { quit };
}

pub(crate) struct Settles;

impl<P> Play<Option<Held<P>>, CellView> for Settles {
    ghost use Rattle.kanal_cell.specs.CellRule.{settled};

    ghost then = { settled };
}

/// One word and two slots, under the rule.
pub(crate) type CellTable<P> = Table<Option<Held<P>>, CellView, (), SignalRule, Global>;

pub(crate) type EndSeat<P> = Seat<Option<Held<P>>, CellView>;

/// What the two ends share.
#[derive(Drop)]
pub struct Signal<P> {
    pub(crate) table: CellTable<P>,
}
