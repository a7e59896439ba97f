//! What a step told, put at the end of the lists that keep it.
//!
//! Every list has its room before, so that nothing is refused here.
ghost use Rattle.std.specs.Prelude.{◌≡◌, ◌+◌, ◌<◌, ◌≤◌, [], ◌∷◌, ◌++◌, length, vec_len, vec_capacity};
ghost use Rattle.kanal_events.specs.StepResult.{reply_of, settled_of, cleared_of, owed_of};
ghost use Rattle.kanal_journal.specs.Runs.{numbered};

use super::calls::JournalStep;
use super::report::Settlement;
use kanal_core::internal::{Cleared, Remaining};
use kanal_events::event::Reply;
use kanal_events::step_result::Wakeup;

fn move_cleared<T: Drop>(messages: Cleared<T>, into: &mut Vec<T>)
    requires { vec_len into.old + length messages ≤ vec_capacity into.old }
    ensures items { into.new.items ≡ into.old.items ++ messages }
    ensures room { vec_capacity into.new ≡ vec_capacity into.old }
{
    let mut messages = messages;
    while let Some(message) = messages.next() {
        into.push_reserved(message);
    }
}

pub(crate) fn move_left<T: Drop>(messages: Remaining<T, ()>, into: &mut Vec<T>)
    requires { vec_len into.old + length messages ≤ vec_capacity into.old }
    ensures items { into.new.items ≡ into.old.items ++ messages }
    ensures room { vec_capacity into.new ≡ vec_capacity into.old }
{
    let mut messages = messages;
    while let Some(message) = messages.next() {
        into.push_reserved(message);
    }
}

fn settle<T: Drop>(step: usize, owed: Wakeup<T, ()>, into: &mut Vec<Settlement<T>>)
    requires { vec_len into.old < vec_capacity into.old }
    ensures items { into.new.items ≡ into.old.items ++ numbered step (owed_of owed ∷ []) }
    ensures room { vec_capacity into.new ≡ vec_capacity into.old }
{
    let (ticket, outcome) = owed.into_settlement();
    into.push_reserved(Settlement {
        step,
        ticket,
        outcome,
    });
}

fn settle_all<T: Drop>(step: usize, made: &mut JournalStep<T>, into: &mut Vec<Settlement<T>>)
    requires { vec_len into.old + length (settled_of made.old) ≤ vec_capacity into.old }
    ensures items { into.new.items ≡ into.old.items ++ numbered step (settled_of made.old) }
    ensures room { vec_capacity into.new ≡ vec_capacity into.old }
    ensures none { settled_of made.new ≡ [] }
    ensures reply { reply_of made.new ≡ reply_of made.old }
    ensures cleared { cleared_of made.new ≡ cleared_of made.old }
{
    while let Some(owed) = made.next() {
        settle(step, owed, into);
    }
}

pub(crate) fn note<T: Drop>(
    step: usize,
    made: JournalStep<T>,
    settlements: &mut Vec<Settlement<T>>,
    clearings: &mut Vec<T>,
) -> Reply<T>
    requires settled { vec_len settlements.old + length (settled_of made)
        ≤ vec_capacity settlements.old }
    requires cleared { vec_len clearings.old + length (cleared_of made)
        ≤ vec_capacity clearings.old }
    ensures reply { result ≡ reply_of made }
    ensures settled { settlements.new.items
        ≡ settlements.old.items ++ numbered step (settled_of made) }
    ensures cleared { clearings.new.items ≡ clearings.old.items ++ cleared_of made }
    ensures room { (vec_capacity settlements.new ≡ vec_capacity settlements.old)
        × (vec_capacity clearings.new ≡ vec_capacity clearings.old) }
{
    let mut made = made;
    settle_all(step, &mut made, settlements);
    let (reply, cleared) = made.into_parts();
    if let Some(cleared) = cleared {
        move_cleared(cleared, clearings);
    }
    reply
}
