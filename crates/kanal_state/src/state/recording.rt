//! How a call is kept: which entry of the line each step makes, and how it comes into the history.
//!
//! Only the state and the internal calls use it: each has its call kept before the lock is released.
ghost use Rattle.std.specs.Prelude.{◌≡◌, true};
ghost use Rattle.kanal_core.specs.Line.{Line};
ghost use Rattle.kanal_events.specs.Steps.{Tells, is_no_memory};
ghost use Rattle.kanal_events.specs.StepResult.{reply_of, told_of};
ghost use Rattle.kanal_state.specs.Entries.{told_by};
ghost use Rattle.kanal_state.specs.Makes.{AppendPost, StepAppendPost};

use crate::{Call, History};
use kanal_core::internal::{Ticket, Waiter};
use kanal_events::event::{Event, Reply};
use kanal_events::step_result::{FastResult, StepResult};
use kanal_log::EntryOf;
use std::snapshot::Snapshot;

pub(super) type Asked<T> = Snapshot<Event<T>>;

/// The entry of a call: what was asked, and what the step told.
pub(super) struct CallEntry;

impl<T, W> EntryOf<Asked<T>, StepResult<T, W>, Call<T>> for CallEntry {
    ghost use Rattle.kanal_state.specs.Entries.{call_from};

    ghost entry = { λ event made. call_from event.value made };
}

/// The entry of a call that was answered at once.
pub(super) struct AnswerEntry;

impl<T, W> EntryOf<Asked<T>, FastResult<T, W>, Call<T>> for AnswerEntry {
    ghost use Rattle.kanal_events.specs.StepResult.{made_of};
    ghost use Rattle.kanal_state.specs.Entries.{call_from};

    ghost entry = { λ event answered. call_from event.value (made_of answered) };
}

/// The entry of a call that was replied so, and settled nobody.
pub(super) struct ReplyEntry;

impl<T> EntryOf<Asked<T>, Reply<T>, Call<T>> for ReplyEntry {
    ghost use Rattle.kanal_state.specs.Entries.{replied};

    ghost entry = { λ event reply. replied event.value reply };
}

pub(super) struct SendEntry;

impl<T> EntryOf<Snapshot<T>, (), Call<T>> for SendEntry {
    ghost use Rattle.kanal_events.specs.declared.event.Event.{Event};
    ghost use Rattle.kanal_events.specs.declared.event.Reply.{Reply};
    ghost use Rattle.kanal_state.specs.Entries.{replied};

    ghost entry = { λ message _. replied (Event.Send message.value) Reply.Sent };
}

pub(super) struct RecvEntry;

impl<T> EntryOf<T, (), Call<T>> for RecvEntry {
    ghost use Rattle.kanal_events.specs.declared.event.Event.{Event};
    ghost use Rattle.kanal_events.specs.declared.event.Reply.{Reply};
    ghost use Rattle.kanal_state.specs.Entries.{replied};

    ghost entry = { λ message _. replied Event.Recv (Reply.Got message) };
}

pub(super) struct TrySendEntry;

impl<T> EntryOf<Snapshot<T>, (), Call<T>> for TrySendEntry {
    ghost use Rattle.kanal_events.specs.declared.event.Event.{Event};
    ghost use Rattle.kanal_events.specs.declared.event.Reply.{Reply};
    ghost use Rattle.kanal_state.specs.Entries.{replied};

    ghost entry = { λ message _. replied (Event.TrySend message.value) Reply.Yes };
}

pub(super) struct TryRecvEntry;

impl<T> EntryOf<T, (), Call<T>> for TryRecvEntry {
    ghost use Rattle.kanal_events.specs.declared.event.Event.{Event};
    ghost use Rattle.kanal_events.specs.declared.event.Reply.{Reply};
    ghost use Rattle.kanal_state.specs.Entries.{replied};

    ghost entry = { λ message _. replied Event.TryRecv (Reply.Got message) };
}

/// The entry of a withdrawal: the ticket that was asked for, and the wait that left.
pub(super) struct WithdrawalEntry;

impl<T, W> EntryOf<Ticket, Waiter<T, W>, Call<T>> for WithdrawalEntry {
    ghost use Rattle.kanal_core.specs.Tickets.{number_of};
    ghost use Rattle.kanal_state.specs.Entries.{withdrawal};

    ghost entry = { λ ticket waiter. withdrawal (number_of ticket) waiter.message };
}

/// Appends the call; if memory was refused, only shows the history.
#[inline]
pub(super) fn note<T: Drop, Y, M: EntryOf<Asked<T>, Y, Call<T>>, H: History<T>>(
    history: &mut H,
    log: &H::Log,
    pass: &mut H::Pass,
    asked: &Asked<T>,
    told: &Y,
    lacks_memory: bool,
)
    requires asked { (M.entry asked.now told.now).event ≡ asked.now.value }
    requires lacks { lacks_memory ≡ is_no_memory (M.entry asked.now told.now).reply }
    requires told { (old new : Line _) × H.stands history.old old
        × Tells old asked.now.value (told_by new (M.entry asked.now told.now)) }
    ensures stands { (old new : Line _) → H.stands history.old old
        → Tells old asked.now.value (told_by new (M.entry asked.now told.now))
        → H.stands history.new new }
    ensures kept { AppendPost H.relations pass.old pass.new asked.now.value (M.entry asked.now told.now) }
    ensures ends { lacks_memory ≡ true → (l : Line _) → H.stands history.old l
        → H.relations.reaches pass.new l }
{
    if lacks_memory {
        history.show(log, pass);
    } else {
        history.append::<Asked<T>, Y, M>(log, pass, asked, told);
    }
}

#[inline]
pub(super) fn note_made<T: Drop, W: Drop, H: History<T>>(
    history: &mut H,
    log: &H::Log,
    pass: &mut H::Pass,
    asked: &Asked<T>,
    made: &StepResult<T, W>,
)
    requires told { (old new : Line _) × H.stands history.old old
        × Tells old asked.now.value (told_of new made.now) }
    ensures stands { (old new : Line _) → H.stands history.old old
        → Tells old asked.now.value (told_of new made.now) → H.stands history.new new }
    ensures noted { StepAppendPost H.relations pass.old pass.new asked.now.value made.now }
    ensures ends { is_no_memory (reply_of made.now) ≡ true
        → (l : Line _) → H.stands history.old l → H.relations.reaches pass.new l }
{
    let lacks = made.lacks_memory();
    note::<T, StepResult<T, W>, CallEntry, H>(history, log, pass, asked, made, lacks);
}
