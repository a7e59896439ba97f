//! What lies under the lock: the core, and the history of the calls on its line.
//!
//! Each call lends the core to one step and has the call that was made kept, before the lock is released; a call
//! that is refused for memory is not kept. Nothing else changes a core.
ghost use Rattle.std.specs.Prelude.{◌≡◌, ◌↔◌, ◌==◌, ◌-◌, ◌++◌, true, false, not, None, Some, IsSome, IfErr, IfNone, IfOk, IfSome, OnOk};
ghost use Rattle.std.specs.Vec.{vec_capacity, vec_len};
ghost use Rattle.kanal_core.specs.Channel.{line_of};
ghost use Rattle.kanal_core.specs.Line.{Line, buffered, capacity_word, is_at, last_word};
ghost use Rattle.kanal_core.specs.Tickets.{number_of};
ghost use Rattle.kanal_core.specs.Waiters.{waiter_of, without};
ghost use Rattle.kanal_events.specs.Leaving.{Leave, LeaveTried, gone_of};
ghost use Rattle.kanal_events.specs.Steps.{IsWait, Tells, is_no_memory, only};
ghost use Rattle.kanal_events.specs.StepResult.{MustWait, Tries, drained_of, entered, got, is_drained, is_plain, may_wait, reply_of, told_of, withdrawn};
ghost use Rattle.kanal_state.specs.Calls.{IsTold};
ghost use Rattle.kanal_state.specs.Entries.{replied, told_by, withdrawal};
ghost use Rattle.kanal_state.specs.Makes.{HasTooLittleRoom, AppendPost, StepAppendPost, StartPost};
ghost use Rattle.kanal_state.specs.Counts.{count_of, counts_handle, ticket_of};
ghost use Rattle.kanal_state.specs.Frames.{OnlyLineMoves};
ghost use Rattle.kanal_state.specs.Renewing.{Renews};
ghost use Rattle.kanal_state.specs.Waits.{HasStarted, Joins, start_reply};

mod handle_count;
mod internal_calls;
mod recording;

use crate::History;
use crate::counted::{CountedWait, FirstHandles, Notices};
use crate::released::Deferred;
use crate::waiter_handle::{Core, WaiterHandle};
use futures::task::Waker;
pub use internal_calls::{DropResult, TakenOut};
use kanal_core::internal::{Ticket, Waiter};
use kanal_events::event::{Event, Refusal, Reply, Side};
use kanal_events::step_result::{FastResult, Placement, StepResult};
use kanal_events::steps;
use recording::{
    AnswerEntry, Asked, CallEntry, RecvEntry, ReplyEntry, SendEntry, TryRecvEntry, TrySendEntry,
    WithdrawalEntry, note, note_made,
};
use std::marker::Model;
use std::snapshot::Snapshot;

/// The core, the history of the calls on its line, and what makes the internal calls: of a handle that is gone,
/// or of a wait that was left. Contracts see what makes those, the line, and who waits with what.
///
/// Invariant: the history explains the core's line.
#[derive(Drop)]
pub struct State<T, H: History<T>> {
    core: Core<T, H>,
    history: H,
    internal_pass: H::InternalPass,
}

impl<T, H: History<T>> Model for State<T, H> {
    ghost use Rattle.kanal_core.specs.Channel.{line_of};
    ghost use Rattle.std.specs.Prelude.{List};
    ghost use Rattle.kanal_core.specs.Line.{Line};
    ghost use Rattle.kanal_core.specs.declared.internal.outcome.Waiter.{Waiter};
    ghost use Rattle.kanal_state.specs.Renewing.{Brought};

    ghost Value = { H.InternalPass × Line T × List (Waiter T Brought) };

    ghost view = { λ s. (s.internal_pass, line_of s.core, s.core.waiters) };

    ghost invariant = { λ s. H.stands s.history (line_of s.core) };
}

/// What the start of a wait came to.
pub enum WaitStart<T, H: History<T>> {
    /// The call waits. That has to be counted out.
    Waits(CountedWait),
    /// It was refused so, and the waiter's handle that it brought is back.
    Refused(Deferred<Reply<T>>, Deferred<WaiterHandle<T, H>>),
}

fn too_many<T: Drop, H: History<T>>(core: &Core<T, H>, event: Event<T>) -> Reply<T>
    requires waits { may_wait event ≡ true }
    requires must { MustWait (line_of core.now) event }
    requires used_up { core.now.next ≡ last_word }
    ensures told { Tells (line_of core.now) event (only (line_of core.now) result) }
    ensures clear { IsWait result → ⊥ }
{
    let _ = core;
    event.refused(Refusal::TooMany)
}

fn renew<T: Drop, H: History<T>>(
    core: &mut Core<T, H>,
    ticket: Ticket,
    spare: &mut Option<Waker>,
) -> bool
    ensures line { line_of core.new ≡ line_of core.old }
    ensures waits { (result ≡ true) ↔ IsSome (waiter_of ticket core.old.waiters) }
    ensures renewed { Renews ticket spare.old core.old.waiters core.new.waiters spare.new }
{
    let Some(waiter) = core.waiting(ticket) else {
        return false;
    };
    waiter.renew(spare);
    true
}

impl<T: Drop, H: History<T>> State<T, H> {
    /// A core, and what is kept of the calls that led to its line.
    pub fn new(core: Core<T, H>, history: H, internal_pass: H::InternalPass) -> State<T, H>
        requires core { H.stands history (line_of core) }
    {
        State {
            core,
            history,
            internal_pass,
        }
    }

    /// As `new`, for handles: with that of the core's first sender and first receiver.
    pub fn with_handles(
        core: Core<T, H>,
        history: H,
        internal_pass: H::InternalPass,
    ) -> (State<T, H>, FirstHandles)
        requires core { H.stands history (line_of core) }
    {
        (
            State::new(core, history, internal_pass),
            FirstHandles::new(),
        )
    }

    /// The channel goes, with its notices.
    pub fn end(self, notices: Notices) {
        notices.end();
        drop(self);
    }

    fn count_of(&self, side: Side) -> u32
        ensures { result ≡ count_of side self.now.1 }
    {
        match side {
            Side::Tx => self.core.sender_count(),
            Side::Rx => self.core.receiver_count(),
        }
    }

    /// Makes a call that never waits, and counts no handle.
    pub fn call(
        &mut self,
        log: &H::Log,
        pass: &mut H::Pass,
        event: Event<T>,
    ) -> Deferred<StepResult<T, WaiterHandle<T, H>>>
        requires plain { is_plain event ≡ true }
        requires uncounted { counts_handle event ≡ false }
        ensures noted { StepAppendPost H.relations pass.old pass.new event result }
        ensures step { Tells self.old.1 event (told_of self.new.1 result) }
        ensures leave { Leave self.old.2 (gone_of result) self.new.2 }
        ensures internal_pass { self.new.0 ≡ self.old.0 }
    {
        Deferred {
            inside: self.make(log, pass, event),
        }
    }

    fn make(
        &mut self,
        log: &H::Log,
        pass: &mut H::Pass,
        event: Event<T>,
    ) -> StepResult<T, WaiterHandle<T, H>>
        requires plain { is_plain event ≡ true }
        ensures noted { StepAppendPost H.relations pass.old pass.new event result }
        ensures step { Tells self.old.1 event (told_of self.new.1 result) }
        ensures leave { Leave self.old.2 (gone_of result) self.new.2 }
        ensures internal_pass { self.new.0 ≡ self.old.0 }
    {
        let asked = Snapshot::of(&event);
        let made = steps::make(&mut self.core, event);
        note_made(&mut self.history, log, pass, &asked, &made);
        made
    }

    /// Makes a send whose message enters where nobody waits.
    #[inline(always)]
    pub fn push(&mut self, log: &H::Log, pass: &mut H::Pass, message: T) -> Result<(), T>
        ensures made { OnOk result (H.relations.appends pass.old pass.new (replied (Event.Send message) Reply.Sent)) }
        ensures told { OnOk result (IsTold (replied (Event.Send message) Reply.Sent)) }
        ensures refused { IfErr result (λ back. (back ≡ message) × (pass.new ≡ pass.old)) }
        ensures step { OnOk result (Tells self.old.1 (Event.Send message) (entered self.new.1)) }
        ensures same { IfErr result (λ _. self.new.1 ≡ self.old.1) }
        ensures rest { OnlyLineMoves self.old self.new }
    {
        let asked = Snapshot::of(&message);
        steps::push(&mut self.core, message)?;
        let history = &mut self.history;
        history.append::<Snapshot<T>, (), SendEntry>(log, pass, &asked, &());
        Ok(())
    }

    #[inline(always)]
    pub fn pop(&mut self, log: &H::Log, pass: &mut H::Pass) -> Option<T>
        ensures made { IfSome result (λ m. H.relations.appends pass.old pass.new (replied Event.Recv (Reply.Got m))) }
        ensures told { IfSome result (λ m. IsTold (replied Event.Recv (Reply.Got m))) }
        ensures refused { IfNone result (pass.new ≡ pass.old) }
        ensures step { IfSome result (λ m. Tells self.old.1 Event.Recv (got m self.new.1)) }
        ensures same { IfNone result (self.new.1 ≡ self.old.1) }
        ensures rest { OnlyLineMoves self.old self.new }
    {
        let message = steps::pop(&mut self.core)?;
        let history = &mut self.history;
        history.append::<T, (), RecvEntry>(log, pass, &message, &());
        Some(message)
    }

    /// As `push`, for a call that doesn't wait.
    #[inline(always)]
    pub fn try_push(&mut self, log: &H::Log, pass: &mut H::Pass, message: T) -> Result<(), T>
        ensures made { OnOk result (H.relations.appends pass.old pass.new
            (replied (Event.TrySend message) Reply.Yes)) }
        ensures told { OnOk result (IsTold (replied (Event.TrySend message) Reply.Yes)) }
        ensures refused { IfErr result (λ back. (back ≡ message) × (pass.new ≡ pass.old)) }
        ensures rest { OnlyLineMoves self.old self.new }
    {
        let asked = Snapshot::of(&message);
        steps::push(&mut self.core, message)?;
        let history = &mut self.history;
        history.append::<Snapshot<T>, (), TrySendEntry>(log, pass, &asked, &());
        Ok(())
    }

    #[inline(always)]
    pub fn try_pop(&mut self, log: &H::Log, pass: &mut H::Pass) -> Option<T>
        ensures made { IfSome result (λ m. H.relations.appends pass.old pass.new
            (replied Event.TryRecv (Reply.Got m))) }
        ensures told { IfSome result (λ m. IsTold (replied Event.TryRecv (Reply.Got m))) }
        ensures refused { IfNone result (pass.new ≡ pass.old) }
        ensures rest { OnlyLineMoves self.old self.new }
    {
        let message = steps::pop(&mut self.core)?;
        let history = &mut self.history;
        history.append::<T, (), TryRecvEntry>(log, pass, &message, &());
        Some(message)
    }

    /// Makes a send or a receive.
    ///
    /// # Errors
    /// The call, where it must wait: the pass has seen that it must.
    pub fn start(
        &mut self,
        log: &H::Log,
        pass: &mut H::Pass,
        event: Event<T>,
    ) -> Result<Deferred<FastResult<T, WaiterHandle<T, H>>>, Event<T>>
        requires waits { may_wait event ≡ true }
        ensures tried { StartPost H.relations pass.old pass.new event result }
        ensures step { Tries self.old.1 event result self.new.1 }
        ensures leave { LeaveTried self.old.2 result self.new.2 }
        ensures internal_pass { self.new.0 ≡ self.old.0 }
    {
        let asked = Snapshot::of(&event);
        let tried = steps::start(&mut self.core, event);
        let history = &mut self.history;
        match tried {
            Ok(answered) => {
                let lacks = answered.lacks_memory();
                note::<T, FastResult<T, WaiterHandle<T, H>>, AnswerEntry, H>(
                    history, log, pass, &asked, &answered, lacks,
                );
                Ok(Deferred { inside: answered })
            },
            Err(back) => {
                history.show(log, pass);
                Err(back)
            },
        }
    }

    pub fn has_ticket(&self) -> bool
        ensures { result ≡ not (self.now.1.next == last_word) }
    {
        self.core.has_ticket()
    }

    /// Whether the buffer has no place: always at capacity 0, and never without a limit.
    #[inline]
    pub fn is_full(&self) -> bool
        ensures { result ≡ is_at (buffered self.now.1) self.now.1.capacity }
    {
        self.core.is_full()
    }

    /// How many places of the buffer are free. Without a limit no length is subtracted from less than the largest word.
    #[inline]
    pub fn places(&self) -> usize
        ensures exact { result ≡ capacity_word self.now.1.capacity - buffered self.now.1 }
    {
        self.core.capacity().saturating_sub(self.core.len())
    }

    /// How many messages lie in the buffer.
    #[inline]
    pub fn len(&self) -> usize
        ensures exact { result ≡ buffered self.now.1 }
    {
        self.core.len()
    }

    /// Whether no message is in the buffer, whoever waits.
    #[inline]
    pub fn is_empty(&self) -> bool
        ensures { result ≡ buffered self.now.1 == 0 }
    {
        self.core.is_empty()
    }

    /// Answers `TooMany`; the refusal is recorded.
    pub fn refuse(
        &mut self,
        log: &H::Log,
        pass: &mut H::Pass,
        event: Event<T>,
    ) -> Deferred<Reply<T>>
        requires waits { may_wait event ≡ true }
        requires must { MustWait self.old.1 event }
        requires used_up { self.old.1.next ≡ last_word }
        ensures made { AppendPost H.relations pass.old pass.new event (replied event result) }
        ensures clear { IsWait result → ⊥ }
        ensures step { Tells self.old.1 event (only self.new.1 result) }
        ensures rest { OnlyLineMoves self.old self.new }
    {
        let asked = Snapshot::of(&event);
        let reply = too_many(&self.core, event);
        let lacks = reply.is_no_memory();
        note::<T, Reply<T>, ReplyEntry, H>(&mut self.history, log, pass, &asked, &reply, lacks);
        Deferred { inside: reply }
    }

    /// Starts the wait of a call that must, with the waiter's handle. It settles no wait. This one is to be
    /// counted out.
    #[inline]
    pub fn wait(
        &mut self,
        log: &H::Log,
        pass: &mut H::Pass,
        event: Event<T>,
        waiter: WaiterHandle<T, H>,
    ) -> WaitStart<T, H>
        requires waits { may_wait event ≡ true }
        requires must { MustWait self.old.1 event }
        ensures started { HasStarted H.relations pass.old pass.new event result }
        ensures step { Tells self.old.1 event (only self.new.1 (start_reply result)) }
        ensures joins { Joins self.old.2 event waiter result self.new.2 }
        ensures internal_pass { self.new.0 ≡ self.old.0 }
    {
        let asked = Snapshot::of(&event);
        let (reply, kept) = steps::wait(&mut self.core, event, waiter);
        let lacks = reply.is_no_memory();
        note::<T, Reply<T>, ReplyEntry, H>(&mut self.history, log, pass, &asked, &reply, lacks);
        match kept {
            Placement::Ticket(ticket) => WaitStart::Waits(CountedWait::new(ticket)),
            Placement::Back(waiter) => WaitStart::Refused(
                Deferred { inside: reply },
                Deferred { inside: waiter },
            ),
        }
    }

    /// Takes this wait back, if it still waits; where it doesn't, nothing changes, and it is still to be counted out.
    pub fn withdraw(
        &mut self,
        log: &H::Log,
        pass: &mut H::Pass,
        counted: CountedWait,
    ) -> Result<Deferred<Waiter<T, WaiterHandle<T, H>>>, CountedWait>
        ensures made { IfOk result (λ w. H.relations.appends pass.old pass.new
            (withdrawal (number_of (ticket_of counted)) w.message)) }
        ensures told { IfOk result (λ w. IsTold
            (withdrawal (number_of (ticket_of counted)) w.message)) }
        ensures refused { IfErr result (λ back. (back ≡ counted) × (pass.new ≡ pass.old)) }
        ensures step { IfOk result (λ w. Tells self.old.1
            (Event.Withdraw (number_of (ticket_of counted))) (withdrawn self.new.1 w.message)) }
        ensures waiter { IfOk result (λ w. waiter_of (ticket_of counted) self.old.2 ≡ Some w) }
        ensures others { IfOk result (λ _. self.new.2 ≡ without (ticket_of counted) self.old.2) }
        ensures same { IfErr result (λ _. self.new ≡ self.old) }
        ensures internal_pass { self.new.0 ≡ self.old.0 }
    {
        let ticket = counted.ticket();
        let Some(waiter) = steps::withdraw(&mut self.core, ticket) else {
            return Err(counted);
        };
        let before = Snapshot::of(pass);
        let history = &mut self.history;
        history.append::<Ticket, Waiter<T, WaiterHandle<T, H>>, WithdrawalEntry>(
            log, pass, &ticket, &waiter,
        );
        counted.withdrawn::<T, WaiterHandle<T, H>, H>(&before, pass, &waiter);
        Ok(Deferred { inside: waiter })
    }

    /// Moves the whole line to the vector's end.
    pub fn drain(
        &mut self,
        log: &H::Log,
        pass: &mut H::Pass,
        into: &mut Vec<T>,
    ) -> Deferred<StepResult<T, WaiterHandle<T, H>>>
        ensures noted { StepAppendPost H.relations pass.old pass.new Event.Drain result }
        ensures moved { into.new.items ≡ into.old.items ++ drained_of result }
        ensures memory { is_no_memory (reply_of result) ≡ true
            → HasTooLittleRoom H.relations pass.new (vec_len into.old) (vec_capacity into.old) }
        ensures no_growth { is_drained result ≡ false
            → vec_capacity into.new ≡ vec_capacity into.old }
        ensures step { Tells self.old.1 Event.Drain (told_of self.new.1 result) }
        ensures leave { Leave self.old.2 (gone_of result) self.new.2 }
        ensures internal_pass { self.new.0 ≡ self.old.0 }
    {
        let asked = Snapshot::of(&Event::Drain);
        let made = steps::drain(&mut self.core, into);
        note_made(&mut self.history, log, pass, &asked, &made);
        Deferred { inside: made }
    }

    /// How many senders and how many receivers there are.
    #[doc(hidden)] // The tests of the held lock look at the core.
    pub fn counts(&self) -> (u32, u32) {
        (self.core.sender_count(), self.core.receiver_count())
    }

    /// Whether a call waits, or a future.
    #[doc(hidden)] // The tests of the held lock wait until a call has begun to wait.
    pub fn somebody_waits(&self) -> bool {
        self.core.first_waiter(|_| true).is_some()
    }

    /// Swaps the waker of the wait with the ticket for the spare one, if there is a spare; whether the ticket waits.
    pub fn renew(&mut self, ticket: Ticket, spare: &mut Option<Waker>) -> bool
        ensures line { self.new.1 ≡ self.old.1 }
        ensures waits { (result ≡ true) ↔ IsSome (waiter_of ticket self.old.2) }
        ensures renewed { Renews ticket spare.old self.old.2 self.new.2 spare.new }
        ensures internal_pass { self.new.0 ≡ self.old.0 }
    {
        renew(&mut self.core, ticket, spare)
    }
}
