//! A list of events, run on one core, and the report of all that was told.
//!
//! `run` makes its events on a new channel. `RecordedState` keeps a journal of the calls made on it. Nothing here
//! looks into the core.
ghost use Rattle.std.specs.Prelude.{◌≡◌, ◌↔◌, ℕ, ◌+◌, ◌<◌, IfOk, IsErrOf, Some, vec_len, vec_capacity};
ghost use Rattle.kanal_core.specs.Line.{last_word};
ghost use Rattle.kanal_journal.specs.Runs.{AccountStep, Runs};
ghost use Rattle.kanal_journal.specs.Running.{IsWithinEvents, HasRoom, HasSameRoom, account_of};
ghost use Rattle.kanal_journal.specs.Paired.{Paired, history, until, rest};
ghost use Rattle.kanal_journal.specs.Weights.{weigh, event_weight, report_weight};

use kanal_core::error::NewError;
use running::Running;
use std::alloc::Global;

mod calls;
mod collect;
mod handles;
mod recorded_state;
mod report;
mod running;

pub use kanal_events::event::{Ask, Event, Refusal, Reply, Side};
pub use recorded_state::{Entry, Journal, RecordedState};
pub use report::{Report, Settlement};

fn step<T: Drop>(running: &mut Running<T>, replies: &mut Vec<Reply<T>>, event: Event<T>)
    requires within { IsWithinEvents (vec_len replies.old) running.old }
    requires room { HasRoom (vec_len replies.old + 1) running.old }
    requires replies { vec_len replies.old < vec_capacity replies.old }
    ensures told { AccountStep (account_of replies.old.items running.old) event
        (account_of replies.new.items running.new) }
    ensures within { IsWithinEvents (vec_len replies.new) running.new }
    ensures count { vec_len replies.new ≡ vec_len replies.old + 1 }
    ensures room { HasSameRoom running.old running.new }
    ensures same { vec_capacity replies.new ≡ vec_capacity replies.old }
{
    let reply = running.answer(replies.len(), event);
    replies.push_reserved(reply);
}

/// Makes the events in order on a new channel of this capacity, `None` being no limit, and reports all that was told.
///
/// The memory for the report is asked for before the first event; after that the whole report is answered. A step is
/// refused for memory only where it would start a wait, lengthen a line without limit, or drain a line that is not
/// empty; an event through a side without a live handle is refused as such. Of the messages that entered and the
/// receives that were made, leaving out those that were withdrawn, ended or cleared, the i-th message went to the
/// i-th receive as soon as both were there, after every number of steps.
///
/// # Errors
/// `TooLarge` exactly for `Some(usize::MAX)`; `NoMemory` where there is no memory for the channel or
/// for the report. No step was made then.
///
/// # Examples
/// ```text
/// run(alloc, Some(1), [Send(7), Send(8), TryRecv])   replies  Sent, Waits(0), Got(7)
///                                                    settles  ticket 0 as Taken, at step 2
/// ```
pub fn run<T: Drop>(
    alloc: Global,
    capacity: Option<usize>,
    events: Vec<Event<T>>,
) -> Result<Report<T>, NewError>
    ensures large { IsErrOf result NewError.TooLarge ↔ (capacity ≡ Some last_word) }
    ensures runs { IfOk result (λ r. Runs capacity events.items r) }
    ensures paired { IfOk result (λ r. (n : ℕ) → Paired (until n (history events.items r))) }
    ensures left { IfOk result (λ r. r.left.items ≡ rest (history events.items r)) }
    ensures whole { IfOk result (λ r. (h : T → ℕ)
        → weigh (event_weight h) events.items ≡ report_weight h r) }
{
    let mut running = Running::new(alloc, capacity)?;
    let steps = events.len();
    let Ok(()) = running.reserve(steps) else {
        return Err(NewError::NoMemory);
    };
    let Ok(mut replies) = Vec::with_capacity(alloc, steps) else {
        return Err(NewError::NoMemory);
    };
    let Ok(mut left) = Vec::with_capacity(alloc, steps) else {
        return Err(NewError::NoMemory);
    };
    for event in events {
        step(&mut running, &mut replies, event);
    }
    collect::move_left(running.core.into_messages(), &mut left);
    Ok(Report {
        replies,
        settled: running.settled,
        drained: running.drained,
        cleared: running.cleared,
        left,
    })
}
