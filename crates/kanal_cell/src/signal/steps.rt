//! The cell as plain data, for one thread: steps, replies, and any list of steps run on it.
//!
//! It is the model of the running cell, and no value of it is ever shared. A step that the running cell's
//! conditions rule out replies `Spent` here and changes nothing.
ghost use Rattle.std.specs.Prelude.{◌≡◌, ◌||◌, [], Some, None, if◌then◌else◌, IfOk, IsOk};
ghost use Rattle.kanal_cell.specs.CellMoves.{empty, is_home, cell_reply, cell_after, cell_word, owner_of};
ghost use Rattle.kanal_cell.specs.declared.signal.steps.CellStep.TheVariants.{Settle};
ghost use Rattle.kanal_cell.specs.CellHistory.{IsHistory};

use crate::error::NoMemory;
use std::alloc::Global;

/// One step of an end of a cell.
#[derive(Clone, Copy, Debug, PartialEq, Eq)]
pub enum CellStep {
    /// The waiter registers its sleeper.
    Sleep,
    /// The settler hands the outcome over.
    Settle(u64),
    /// The waiter looks for the outcome.
    Poll,
    /// The waiter leaves.
    Leave,
    /// The settler asks whether the waiter has left.
    IsLeft,
}

/// What a step replies.
#[derive(Clone, Copy, Debug, PartialEq, Eq)]
pub enum CellReply {
    /// The sleeper is registered, and no outcome was there.
    Slept,
    /// The waiter has this outcome.
    Outcome(u64),
    /// There is no outcome for the waiter, not yet or not any more.
    Pending,
    /// The cell is ended: whether a sleeper was there, and the outcome if the waiter had left.
    Settled { woke: bool, back: Option<u64> },
    /// The waiter has left, with the outcome if it was there and not given before.
    Left(Option<u64>),
    /// Whether the waiter has left.
    Flag(bool),
    /// The end can't make this step any more. Nothing changed.
    Spent,
}

/// Where the outcome is.
#[derive(Clone, Copy, Debug, PartialEq, Eq)]
pub enum Owner {
    /// Nobody settled yet.
    Nowhere,
    /// In the cell.
    Home,
    /// A poll, a sleep or a leave gave it.
    Waiter,
    /// The settle that found the waiter gone took it back.
    Settler,
}

/// The replies to a list of steps, and the cell after the last one.
#[derive(Drop, Debug)]
pub struct CellReport {
    /// One reply a step, in order.
    pub replies: Vec<CellReply>,
    /// 1 for a registered sleeper, 2 for a settled cell, 4 for a waiter that left, added up.
    pub word: u8,
    /// Where the outcome is.
    pub owner: Owner,
}

/// A cell as plain data.
#[derive(Clone, Copy, Debug, PartialEq, Eq)]
pub struct CellCore {
    /// A sleeper was registered.
    pub sleeping: bool,
    /// The settler has settled.
    pub ended: bool,
    /// The waiter has left.
    pub left: bool,
    /// The waiter got the outcome.
    pub had: bool,
    /// The settler got the outcome back.
    pub back: bool,
    /// The outcome, once settled.
    pub value: u64,
}

impl CellCore {
    /// A cell in which nothing has happened.
    pub fn new() -> CellCore
        ensures { result ≡ empty }
    {
        CellCore {
            sleeping: false,
            ended: false,
            left: false,
            had: false,
            back: false,
            value: 0,
        }
    }

    /// Makes one step and answers its reply.
    pub fn step(&mut self, step: CellStep) -> CellReply
        ensures reply { result ≡ cell_reply self.old step }
        ensures state { self.new ≡ cell_after self.old step }
    {
        match step {
            CellStep::Sleep => {
                if self.sleeping || self.left || self.had {
                    return CellReply::Spent;
                }
                self.sleeping = true;
                match self.give() {
                    Some(outcome) => CellReply::Outcome(outcome),
                    None => CellReply::Slept,
                }
            }
            CellStep::Settle(outcome) => self.settle(outcome),
            CellStep::Poll => {
                if self.left {
                    return CellReply::Spent;
                }
                match self.give() {
                    Some(outcome) => CellReply::Outcome(outcome),
                    None => CellReply::Pending,
                }
            }
            CellStep::Leave => {
                if self.left {
                    return CellReply::Spent;
                }
                self.left = true;
                CellReply::Left(self.give())
            }
            CellStep::IsLeft => {
                if self.ended {
                    CellReply::Spent
                } else {
                    CellReply::Flag(self.left)
                }
            }
        }
    }

    /// The three bits as a number.
    pub fn word(&self) -> u8
        ensures { result ≡ cell_word self.now }
    {
        let sleeping = if self.sleeping { 1u8 } else { 0 };
        let ended = if self.ended { 2u8 } else { 0 };
        let left = if self.left { 4u8 } else { 0 };
        sleeping + ended + left
    }

    /// Where the outcome is.
    pub fn owner(&self) -> Owner
        ensures { result ≡ owner_of self.now }
    {
        if !self.ended {
            Owner::Nowhere
        } else if self.back {
            Owner::Settler
        } else if self.had {
            Owner::Waiter
        } else {
            Owner::Home
        }
    }

    fn settle(&mut self, outcome: u64) -> CellReply
        ensures reply { result ≡ cell_reply self.old (Settle outcome) }
        ensures state { self.new ≡ cell_after self.old (Settle outcome) }
    {
        if self.ended {
            return CellReply::Spent;
        }
        self.ended = true;
        self.back = self.left;
        self.value = outcome;
        CellReply::Settled {
            woke: self.sleeping,
            back: if self.left { Some(outcome) } else { None },
        }
    }

    fn give(&mut self) -> Option<u64>
        ensures given { result ≡ (if is_home self.old then Some self.old.value else None) }
        ensures state { self.new ≡ record self.old { had = self.old.had || is_home self.old } }
    {
        if self.ended && !self.back && !self.had {
            self.had = true;
            Some(self.value)
        } else {
            None
        }
    }
}

/// Runs a list of steps on a fresh cell.
///
/// Every list of steps is answered: the replies, the word and the owner are those of the list's
/// history. It refuses only for want of memory, and never waits.
///
/// ```
/// let report = cell_run(alloc, &[CellStep::Settle(5), CellStep::Sleep])?;
/// assert!(report.word == 3 && report.owner == Owner::Waiter);
/// ```
pub fn cell_run(alloc: Global, steps: &[CellStep]) -> Result<CellReport, NoMemory>
    ensures history { IfOk result (λ report. IsHistory steps.now report) }
    ensures empty { steps.now ≡ [] → IsOk result }
{
    let Ok(mut replies) = Vec::with_capacity(alloc, steps.len()) else {
        return Err(NoMemory);
    };
    let mut core = CellCore::new();
    for step in steps {
        if replies.push(core.step(*step)).is_err() {
            return Err(NoMemory);
        }
    }
    Ok(CellReport {
        replies,
        word: core.word(),
        owner: core.owner(),
    })
}
