//! Sending: the calls of a pass by which a message enters the line.
//!
//! Each call here is one event, and its answer is what the reply reads as. `OfSend` is all that tells a send from
//! a receive where it waits.
ghost use Rattle.std.specs.Prelude.{◌≡◌, ◌≢◌, ◌∷◌, [], cond, Err, IfErr, IfOk, IfSome, IsSome, None, Ok, true};
ghost use Rattle.std.specs.Result.{result_err};
ghost use Rattle.std.specs.Duration.{as_nanos};
ghost use Rattle.kanal_state.specs.Handles.{Sends, SendsInTime, TriesToSend, TriesToSendNow};
ghost use Rattle.kanal_core.specs.declared.error.SendError.{SendError};
ghost use Rattle.kanal_events.specs.declared.event.Event.TheVariants.{Send};
ghost use Rattle.kanal_events.specs.StepResult.{may_wait};
ghost use Rattle.kanal_state.specs.Makes.{Comes, HasReplied};
ghost use Rattle.kanal_state.specs.Refusals.{StartedNoWait};
ghost use Rattle.kanal_state.specs.Results.{entered_by, sent_after, sent_by};
ghost use Rattle.kanal_state.specs.Frames.{OnlyLineMoves};
ghost use Rattle.kanal_channel.specs.Batches.{SendsFront};
ghost use Rattle.kanal_channel.specs.Deadlines.{GivesBack};

use crate::operation::Operation;
use crate::shared::{Locked, Shared};
use crate::timed::sent_in_time;
use kanal_cell::{At, Clock, deadline_after};
use kanal_core::error::{SendError, SendErrorTimeout};
use kanal_core::internal::Outcome;
use kanal_events::event::{Event, Reply};
use kanal_state::answers::{restored, sent_after, sent_by};
use kanal_state::{History, State};
use std::collections::VecDeque;
use std::sync::Wait;
use std::time;
use std::time::Duration;

fn taken<T: Drop>(option: &mut Option<T>) -> T
    requires { IsSome option.old }
    ensures was { option.old ≡ Some result }
    ensures emptied { option.new ≡ None }
{
    match option.take() {
        Some(message) => message,
        None => unreachable!(),
    }
}

/// To send the message.
pub struct OfSend;

impl<T> Operation<T, T> for OfSend {
    type Answer = Result<(), SendError>;

    ghost event = { λ message. Send message };

    ghost read = { sent_by };

    ghost ended = { sent_after };

    ghost finished = { Err SendError.Finished };

    fn into_event(asked: T) -> Event<T>
        ensures asked { result ≡ Send asked }
        ensures waits { may_wait result ≡ true }
    {
        Event::Send(asked)
    }

    #[inline(always)]
    fn make_fast<H: History<T>>(
        locked: &mut Locked<'_, T, H>,
        log: &H::Log,
        pass: &mut H::Pass,
        asked: T,
    ) -> Result<Reply<T>, T>
    where
        T: Drop,
        ensures made { IfOk result (HasReplied H.relations pass.old pass.new (Send asked)) }
        ensures refused { IfErr result (λ back. (back ≡ asked) × (pass.new ≡ pass.old)) }
    {
        locked.state.push(log, pass, asked)?;
        Ok(Reply::Sent)
    }

    #[inline]
    fn is_short<H: History<T>>(locked: &Locked<'_, T, H>) -> bool
    where
        T: Drop,
    {
        locked.state.is_full()
    }

    #[inline]
    fn by(reply: Reply<T>) -> Result<(), SendError>
    where
        T: Drop,
        ensures { result ≡ sent_by reply }
    {
        sent_by(reply)
    }

    #[inline]
    fn after(outcome: Outcome<T>) -> Result<(), SendError>
    where
        T: Drop,
        ensures { result ≡ sent_after outcome }
    {
        sent_after(outcome)
    }

    fn again() -> Result<(), SendError>
        ensures { result ≡ Err SendError.Finished }
    {
        Err(SendError::Finished)
    }
}

fn push_each<T: Drop, H: History<T>>(
    state: &mut State<T, H>,
    log: &H::Log,
    pass: &mut H::Pass,
    message: T,
    behind: &mut VecDeque<T>,
) -> Result<usize, T>
    ensures sent { SendsFront H.relations pass.old pass.new (message ∷ behind.old.items) (result_err result)
        behind.new.items }
    ensures rest { OnlyLineMoves state.old state.new }
{
    let mut next = Some(message);
    while let Some(message) = next {
        state.push(log, pass, message)?;
        next = behind.pop_front();
    }
    Ok(state.places())
}

impl<T: Drop, H: History<T>> Shared<T, H> {
    /// Sends the message, and waits where there is no place for it.
    ///
    /// `Ok(())` where it entered: at once, or it waited and was taken.
    ///
    /// # Errors
    /// `ReceiveClosed` where no receiver is left or the last was dropped while it waited, `Closed` where no side is
    /// left or the channel was closed while it waited, `Sealed` where only no sender is left, and `TooMany` where the
    /// tickets are used up. `NoMemory` where memory was refused: the call is in no history then, and the pass has
    /// seen that a line may refuse it so, or that it had to wait. The message is dropped.
    #[inline]
    #[tactic(auto, using(kanal_state::proofs::Exchanging::sends_put))]
    pub fn send<R: Wait>(&self, rt: &R, pass: &mut H::Pass, message: T) -> Result<(), SendError>
        ensures sent { Sends H.relations pass.old pass.new message result }
        ensures put { IfOk result (λ _. H.exchanges pass.old pass.new (message ∷ []) []) }
    {
        self.make::<R, T, OfSend>(rt, pass, message)
    }

    /// Sends the message if it can enter at once; `Ok(false)` says that there is no place for it, and the
    /// message is dropped. It waits for the lock alone.
    ///
    /// # Errors
    /// `ReceiveClosed` where no receiver is left, `Closed` where no side is, `Sealed` where only no sender
    /// is, and `NoMemory` where a buffer without limit can't grow: the call is in no history then, and the
    /// pass has seen that a line may refuse it so. The message is dropped.
    pub fn try_send<R: Wait>(
        &self,
        rt: &R,
        pass: &mut H::Pass,
        message: T,
    ) -> Result<bool, SendError>
        ensures sent { TriesToSend H.relations pass.old pass.new message result }
        ensures put { IfOk result (λ entered.
            H.exchanges pass.old pass.new (cond entered (message ∷ []) []) []) }
    {
        let mut back = None;
        self.offer(rt, pass, message, &mut back)
    }

    #[inline]
    fn offer<R: Wait>(
        &self,
        rt: &R,
        pass: &mut H::Pass,
        message: T,
        back: &mut Option<T>,
    ) -> Result<bool, SendError>
        requires empty { back.old ≡ None }
        ensures sent { TriesToSend H.relations pass.old pass.new message result }
        ensures entered { result ≡ Ok true → back.new ≡ None }
        ensures kept { result ≢ Ok true → back.new ≡ Some message }
    {
        let mut locked = self.lock(rt);
        match locked.state.try_push(&self.log, pass, message) {
            Ok(()) => {
                locked.unlock_and_drain();
                Ok(true)
            },
            Err(message) => self.offer_held(locked, pass, message, back),
        }
    }

    #[cold]
    #[tactic(auto, using(crate::proofs::Backs::offered, crate::proofs::Backs::sent_leaves, crate::proofs::Backs::refused_stays))]
    fn offer_held(
        &self,
        locked: Locked<'_, T, H>,
        pass: &mut H::Pass,
        message: T,
        back: &mut Option<T>,
    ) -> Result<bool, SendError>
        requires empty { back.old ≡ None }
        ensures sent { TriesToSend H.relations pass.old pass.new message result }
        ensures entered { result ≡ Ok true → back.new ≡ None }
        ensures kept { result ≢ Ok true → back.new ≡ Some message }
    {
        restored(self.call_held(locked, pass, Event::TrySend(message)), back)
    }

    /// Sends the option's message if it can enter at once, and empties the option exactly then. It waits
    /// for the lock alone.
    ///
    /// The caller knows that the option holds a message.
    ///
    /// # Errors
    /// As `try_send`. The option holds the same message then.
    pub fn try_send_option<R: Wait>(
        &self,
        rt: &R,
        pass: &mut H::Pass,
        option: &mut Option<T>,
    ) -> Result<bool, SendError>
        requires { IsSome option.old }
        ensures sends { IfSome option.old (λ m. TriesToSend H.relations pass.old pass.new m result) }
        ensures sent { result ≡ Ok true → option.new ≡ None }
        ensures kept { result ≢ Ok true → option.new ≡ option.old }
    {
        let message = taken(option);
        self.offer(rt, pass, message, option)
    }

    /// Sends the message if it can enter at once and the lock is free: it never waits. `Ok(false)` says
    /// that there is no place for it, or that the lock was held and no call was made; the message is dropped.
    ///
    /// # Errors
    /// As `try_send`.
    pub fn try_send_realtime(&self, pass: &mut H::Pass, message: T) -> Result<bool, SendError>
        ensures sent { TriesToSendNow H.relations pass.old pass.new message result }
    {
        let mut back = None;
        self.offer_now(pass, message, &mut back)
    }

    #[tactic(auto, using(crate::proofs::Backs::offered, crate::proofs::Backs::sent_leaves, crate::proofs::Backs::refused_stays))]
    fn offer_now(
        &self,
        pass: &mut H::Pass,
        message: T,
        back: &mut Option<T>,
    ) -> Result<bool, SendError>
        requires empty { back.old ≡ None }
        ensures sent { TriesToSendNow H.relations pass.old pass.new message result }
        ensures entered { result ≡ Ok true → back.new ≡ None }
        ensures kept { result ≢ Ok true → back.new ≡ Some message }
    {
        let Some((mut locked, pending)) = self.try_lock() else {
            *back = Some(message);
            return Ok(false);
        };
        let made = locked.state.call(&self.log, pass, Event::TrySend(message));
        restored(self.unlock_tried(locked, pending, pass, made), back)
    }

    /// Sends the option's message if it can enter at once and the lock is free, and empties the option exactly
    /// then: it never waits.
    ///
    /// The caller knows that the option holds a message.
    ///
    /// # Errors
    /// As `try_send`. The option holds the same message then.
    pub fn try_send_option_realtime(
        &self,
        pass: &mut H::Pass,
        option: &mut Option<T>,
    ) -> Result<bool, SendError>
        requires { IsSome option.old }
        ensures sends { IfSome option.old (λ m. TriesToSendNow H.relations pass.old pass.new m result) }
        ensures sent { result ≡ Ok true → option.new ≡ None }
        ensures kept { result ≢ Ok true → option.new ≡ option.old }
    {
        let message = taken(option);
        self.offer_now(pass, message, option)
    }

    /// Sends the message and those behind it while they go in at once: all under one lock, each by a send of its own.
    /// `Ok` says how many places are free then. It never waits.
    ///
    /// # Errors
    /// The first message that doesn't go in; the rest stays. Where the lock is held, or a notice is to be applied, that
    /// is the message.
    pub fn send_ready(
        &self,
        pass: &mut H::Pass,
        message: T,
        behind: &mut VecDeque<T>,
    ) -> Result<usize, T>
        ensures sent { SendsFront H.relations pass.old pass.new (message ∷ behind.old.items) (result_err result)
            behind.new.items }
    {
        let Some(mut locked) = self.try_lock_quiet() else {
            return Err(message);
        };
        let sent = push_each(&mut locked.state, &self.log, pass, message, behind);
        locked.unlock_and_drain();
        sent
    }

    /// Sends the message, and waits where there is no place for it, until the deadline, which is the clock's
    /// moment now and the duration together.
    ///
    /// `Ok(())` where it entered: at once, or it waited and was taken.
    ///
    /// # Errors
    /// As `send`, and `Timeout` where it waited, the deadline came, and the wait was taken back: that is a
    /// second call of the pass. `DeadlineOutOfRange` where the deadline is past the largest moment: the call is
    /// in no history then, and the pass is as it was. The message is dropped.
    pub fn send_timeout<R: Wait + time::Clock, C: Clock>(
        &self,
        rt: &R,
        pass: &mut H::Pass,
        message: T,
        duration: Duration,
        clock: &C,
    ) -> Result<(), SendErrorTimeout>
        ensures sent { SendsInTime H.relations pass.old pass.new (C.answers clock.now)
            (as_nanos duration) message result }
        ensures put { IfOk result (λ _. H.exchanges pass.old pass.new (message ∷ []) []) }
    {
        let mut back = None;
        self.send_before(rt, pass, message, &mut back, duration, clock)
    }

    /// Sends the option's message as `send_timeout`, and empties the option exactly where it was sent.
    ///
    /// The caller knows that the option holds a message.
    ///
    /// # Errors
    /// As `send_timeout`. The option holds the message then: by clause `kept` where no wait began, and by clause
    /// `back` whatever the refusal, the end of the wait or its withdrawal gave back.
    pub fn send_option_timeout<R: Wait + time::Clock, C: Clock>(
        &self,
        rt: &R,
        pass: &mut H::Pass,
        option: &mut Option<T>,
        duration: Duration,
        clock: &C,
    ) -> Result<(), SendErrorTimeout>
        requires { IsSome option.old }
        ensures sends { IfSome option.old (λ m. SendsInTime H.relations pass.old pass.new
            (C.answers clock.now) (as_nanos duration) m result) }
        ensures sent { result ≡ Ok tt → option.new ≡ None }
        ensures kept { IfErr result (λ e. StartedNoWait e → option.new ≡ option.old) }
        ensures back { result ≢ Err SendErrorTimeout.DeadlineOutOfRange → IfSome option.old (λ m.
            GivesBack H.relations pass.old pass.new (Event.Send m) option.new) }
    {
        let message = taken(option);
        self.send_before(rt, pass, message, option, duration, clock)
    }

    fn send_before<R: Wait + time::Clock, C: Clock>(
        &self,
        rt: &R,
        pass: &mut H::Pass,
        message: T,
        back: &mut Option<T>,
        duration: Duration,
        clock: &C,
    ) -> Result<(), SendErrorTimeout>
        requires empty { back.old ≡ None }
        ensures sent { SendsInTime H.relations pass.old pass.new (C.answers clock.now)
            (as_nanos duration) message result }
        ensures entered { result ≡ Ok tt → back.new ≡ None }
        ensures kept { IfErr result (λ e. StartedNoWait e → back.new ≡ Some message) }
        ensures back { result ≢ Err SendErrorTimeout.DeadlineOutOfRange
            → GivesBack H.relations pass.old pass.new (Event.Send message) back.new }
    {
        let moment = clock.now();
        let Some(deadline) = deadline_after(moment, duration) else {
            *back = Some(message);
            return Err(SendErrorTimeout::DeadlineOutOfRange);
        };
        let until = At { clock, deadline };
        sent_in_time(
            self.make_until::<R, T, OfSend, At<'_, C>>(rt, pass, message, &until),
            back,
        )
    }
}
