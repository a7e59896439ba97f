//! The law of the cell, as contracts.
//!
//! The functions here do nothing: each is called for what its contract says.
ghost use Rattle.atomic_table.specs.Table.{State};
ghost use Rattle.kanal_cell.specs.declared.signal.rule.CellView.{CellView};
ghost use Rattle.kanal_cell.specs.CellLaw.{CellLaw};
ghost use Rattle.kanal_cell.specs.CellRule.{CellSlot, HasBothEnds};
ghost use Rattle.kanal_cell.specs.CellRunningLaw.{RunningLaw, SecondHolds, StepLaw};
ghost use Rattle.kanal_cell.specs.CellSlots.{SlotLaw};
ghost use Rattle.kanal_cell.specs.CellOutcome.{OutcomeSlot};

use super::WaitEnd;
use super::steps::CellStep;

/// What the history of every list of steps meets, at every cut of it.
///
/// Bits are only set. A cell is settled once and left once. At most one reply hands the outcome
/// out, and after a settle it is in exactly one of three places. Of a leave and a settle, and of
/// a sleep and a settle, the second comer finds what the first one left.
pub fn cell_law(steps: &[CellStep])
    ensures law { CellLaw steps.now }
{
    let _ = steps;
}

/// What every running cell meets between any two steps, and what each step of an end keeps.
///
/// It is the law of `cell_law`, said of the word, of the slots and of what the two ends know,
/// whatever threads they are on. A step lends and gives back slots and changes what lies in none: what
/// a taker is lent is what lay at home, and that is what the end had put there which gave it.
///
/// `outcome_slot` says it of the outcome's slot. The slot is out until the settle. A settler may make
/// its step only once it has put an outcome into the slot. It makes the step once: the step finds no
/// ENDED and sets it. If the step found no LEFT, that outcome then lies at home, and the settler is
/// lent the slot no more. If it found LEFT, the settler is still lent the slot with that outcome in
/// it. The waiter's next step takes what lies at home. No step of the waiter brings the slot home.
pub fn signal_law<P>(end: &WaitEnd<P>)
    ensures states { (s : State (CellSlot P) CellView) → (r : HasBothEnds s) → RunningLaw s r }
    ensures steps { StepLaw }
    ensures second { SecondHolds P }
    ensures slots { SlotLaw P }
    ensures outcome_slot { OutcomeSlot P }
{
    let _ = end;
}
