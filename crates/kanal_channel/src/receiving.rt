//! Receiving: the calls of a pass by which a message leaves the line.
//!
//! Each call here is one event, and its answer is what the reply reads as. `OfReceive` is all that tells a receive
//! from a send where it waits.
ghost use Rattle.std.specs.Prelude.{◌≡◌, ◌∷◌, [], Err, IfErr, IfOk, IsErrOf, OnErr, true};
ghost use Rattle.std.specs.Option.{option_to_list};
ghost use Rattle.std.specs.Duration.{as_nanos};
ghost use Rattle.std.specs.Vec.{vec_capacity, vec_len};
ghost use Rattle.kanal_state.specs.Handles.{Drains, Receives, ReceivesInTime, TriesToReceive, TriesToReceiveNow};
ghost use Rattle.kanal_core.specs.declared.error.ReceiveError.{ReceiveError};
ghost use Rattle.kanal_events.specs.declared.event.Event.TheVariants.{Recv};
ghost use Rattle.kanal_events.specs.StepResult.{may_wait};
ghost use Rattle.kanal_state.specs.Makes.{HasReplied, HasTooLittleRoom};
ghost use Rattle.kanal_state.specs.Results.{received_after, received_by};
ghost use Rattle.kanal_state.specs.Frames.{OnlyLineMoves};
ghost use Rattle.kanal_channel.specs.Batches.{ReceivesThese};

use crate::operation::Operation;
use crate::shared::{Locked, Shared};
use crate::timed::received_in_time;
use kanal_cell::{At, Clock, deadline_after};
use kanal_core::error::{ReceiveError, ReceiveErrorTimeout};
use kanal_core::internal::Outcome;
use kanal_events::event::{Event, Reply};
use kanal_state::answers::{asked_by, drained_by, received_after, received_by, timed_received_by};
use kanal_state::{History, State};
use std::collections::VecDeque;
use std::sync::Wait;
use std::time;
use std::time::Duration;

/// To receive a message.
pub struct OfReceive;

impl<T> Operation<T, ()> for OfReceive {
    type Answer = Result<T, ReceiveError>;

    ghost event = { λ _. Recv };

    ghost read = { received_by };

    ghost ended = { received_after };

    ghost finished = { Err ReceiveError.Finished };

    fn into_event(_asked: ()) -> Event<T>
        ensures asked { result ≡ Recv }
        ensures waits { may_wait result ≡ true }
    {
        Event::Recv
    }

    #[inline(always)]
    fn make_fast<H: History<T>>(
        locked: &mut Locked<'_, T, H>,
        log: &H::Log,
        pass: &mut H::Pass,
        _asked: (),
    ) -> Result<Reply<T>, ()>
    where
        T: Drop,
        ensures made { IfOk result (HasReplied H.relations pass.old pass.new Recv) }
        ensures refused { IfErr result (λ back. (back ≡ _asked) × (pass.new ≡ pass.old)) }
    {
        let Some(message) = locked.state.pop(log, pass) else {
            return Err(());
        };
        Ok(Reply::Got(message))
    }

    #[inline]
    fn is_short<H: History<T>>(locked: &Locked<'_, T, H>) -> bool
    where
        T: Drop,
    {
        locked.state.is_empty()
    }

    #[inline]
    fn by(reply: Reply<T>) -> Result<T, ReceiveError>
    where
        T: Drop,
        ensures { result ≡ received_by reply }
    {
        received_by(reply)
    }

    #[inline]
    fn after(outcome: Outcome<T>) -> Result<T, ReceiveError>
    where
        T: Drop,
        ensures { result ≡ received_after outcome }
    {
        received_after(outcome)
    }

    fn again() -> Result<T, ReceiveError>
        ensures { result ≡ Err ReceiveError.Finished }
    {
        Err(ReceiveError::Finished)
    }
}

/// How many messages a receiver takes at once: all where it is the only one, and otherwise at least one and no more
/// than half of what would be its share.
fn share<T: Drop, H: History<T>>(state: &State<T, H>) -> usize {
    let (_senders, receivers) = state.counts();
    if receivers < 2 {
        return state.len();
    }
    (state.len() / (2 * receivers as usize)).max(1)
}

#[tactic(auto, using(crate::proofs::Batching::folds_more, crate::proofs::Batching::receives_at_once))]
fn pop_each<T: Drop, H: History<T>>(
    state: &mut State<T, H>,
    log: &H::Log,
    pass: &mut H::Pass,
    into: &mut VecDeque<T>,
)
    requires empty { into.old.items ≡ [] }
    ensures received { ReceivesThese H.relations pass.old into.new.items pass.new }
    ensures rest { OnlyLineMoves state.old state.new }
{
    let most = into.capacity().min(share(state));
    while into.len() < most {
        let Some(message) = state.pop(log, pass) else {
            return;
        };
        into.push_back_reserved(message);
    }
}

impl<T: Drop, H: History<T>> Shared<T, H> {
    /// Receives a message, and waits where there is none.
    ///
    /// `Ok(message)` where it got the front of the line at once, or it waited and was given the message.
    ///
    /// # Errors
    /// `Closed` where no receiver is left or the channel was closed while it waited, `SendClosed` where there
    /// is no message and no sender is left, or the last was dropped while it waited, and `TooMany` where the
    /// tickets are used up. `NoMemory` where memory was refused: the call is in no history then, and the pass
    /// has seen that it had to wait.
    #[inline]
    #[tactic(auto, using(kanal_state::proofs::Exchanging::receives_got))]
    pub fn recv<R: Wait>(&self, rt: &R, pass: &mut H::Pass) -> Result<T, ReceiveError>
        ensures received { Receives H.relations pass.old pass.new result }
        ensures got { IfOk result (λ message. H.exchanges pass.old pass.new [] (message ∷ [])) }
    {
        self.make::<R, (), OfReceive>(rt, pass, ())
    }

    /// Receives the front message, if there is one; `Ok(None)` says that there is none. It waits for the lock alone.
    ///
    /// # Errors
    /// `Closed` where no receiver is left, and `SendClosed` where there is no message and no sender.
    #[inline]
    #[tactic(auto, using(kanal_state::proofs::Exchanging::tries_got))]
    pub fn try_recv<R: Wait>(&self, rt: &R, pass: &mut H::Pass) -> Result<Option<T>, ReceiveError>
        ensures received { TriesToReceive H.relations pass.old pass.new result }
        ensures got { IfOk result (λ came.
            H.exchanges pass.old pass.new [] (option_to_list came)) }
    {
        let mut locked = self.lock(rt);
        match locked.state.try_pop(&self.log, pass) {
            Some(message) => {
                locked.unlock_and_drain();
                Ok(Some(message))
            },
            None => self.try_recv_held(locked, pass),
        }
    }

    #[cold]
    #[tactic(auto, using(kanal_state::proofs::Settling::free_replied))]
    fn try_recv_held(
        &self,
        locked: Locked<'_, T, H>,
        pass: &mut H::Pass,
    ) -> Result<Option<T>, ReceiveError>
        ensures received { TriesToReceive H.relations pass.old pass.new result }
    {
        asked_by(self.call_held(locked, pass, Event::TryRecv))
    }

    /// Receives the front message, if there is one and the lock is free: it never waits. `Ok(None)` says
    /// that there is none, or that the lock was held and no call was made.
    ///
    /// # Errors
    /// As `try_recv`.
    #[tactic(auto, using(kanal_state::proofs::Settling::free_replied))]
    pub fn try_recv_realtime(&self, pass: &mut H::Pass) -> Result<Option<T>, ReceiveError>
        ensures received { TriesToReceiveNow H.relations pass.old pass.new result }
    {
        let Some((mut locked, pending)) = self.try_lock() else {
            return Ok(None);
        };
        let made = locked.state.call(&self.log, pass, Event::TryRecv);
        asked_by(self.unlock_tried(locked, pending, pass, made))
    }

    /// Receives a message, and waits where there is none, until the deadline, which is the clock's moment now and the
    /// duration together. Where the clock stands past it when it is read again, only what is there is received.
    ///
    /// `Ok(message)` where it got the front of the line at once, or it waited and was given the message.
    ///
    /// # Errors
    /// As `recv`, and `Timeout` where it waited, the deadline came, and the wait was taken back: that is a
    /// second call of the pass; or where the deadline had passed and no message was there, whoever sends.
    /// `DeadlineOutOfRange` where the deadline is past the largest moment: the call is in no history then, and
    /// the pass is as it was.
    #[tactic(auto, using(kanal_state::proofs::Settling::free_replied, kanal_state::proofs::Exchanging::receives_in_time_got))]
    pub fn recv_timeout<R: Wait + time::Clock, C: Clock>(
        &self,
        rt: &R,
        pass: &mut H::Pass,
        duration: Duration,
        clock: &C,
    ) -> Result<T, ReceiveErrorTimeout>
        ensures received { ReceivesInTime H.relations pass.old pass.new (C.answers clock.now)
            (as_nanos duration) result }
        ensures got { IfOk result (λ message. H.exchanges pass.old pass.new [] (message ∷ [])) }
    {
        let moment = clock.now();
        let Some(deadline) = deadline_after(moment, duration) else {
            return Err(ReceiveErrorTimeout::DeadlineOutOfRange);
        };
        let now = clock.now();
        if now > deadline {
            return timed_received_by(self.call(rt, pass, Event::RecvLate));
        }
        let until = At { clock, deadline };
        received_in_time(self.make_until::<R, (), OfReceive, At<'_, C>>(rt, pass, (), &until))
    }

    /// Receives what lies in the buffer, oldest first, while there is room for it: all under one lock, each by a
    /// receive of its own. It never waits: where the lock is held, or a notice is to be applied, it receives nothing.
    pub fn recv_ready(&self, pass: &mut H::Pass, into: &mut VecDeque<T>)
        requires empty { into.old.items ≡ [] }
        ensures received { ReceivesThese H.relations pass.old into.new.items pass.new }
    {
        if let Some(mut locked) = self.try_lock_quiet() {
            pop_each(&mut locked.state, &self.log, pass, into);
            locked.unlock_and_drain();
        }
    }

    /// Moves all messages to the vector's end, those of waiting senders too, and answers how many they
    /// were. What the vector had stays its beginning. It waits for the lock alone.
    ///
    /// # Errors
    /// `Closed` where no receiver is left. `NoMemory` where the vector had too little room and there was no
    /// memory for more: the call is in no history then, and the pass has seen that a line may refuse it so.
    /// The vector holds what it held, and has the room that it had.
    pub fn drain_into<R: Wait>(
        &self,
        rt: &R,
        pass: &mut H::Pass,
        into: &mut Vec<T>,
    ) -> Result<usize, ReceiveError>
        ensures drained { Drains H.relations pass.old pass.new into.old.items into.new.items result }
        ensures refused { IfErr result (λ _. into.new.items ≡ into.old.items) }
        ensures memory { IsErrOf result ReceiveError.NoMemory
            → HasTooLittleRoom H.relations pass.new (vec_len into.old) (vec_capacity into.old) }
        ensures no_growth { OnErr result (vec_capacity into.new ≡ vec_capacity into.old) }
    {
        let mut locked = self.lock(rt);
        let made = locked.state.drain(&self.log, pass, into);
        drained_by(self.unlock_and_wake(locked, pass, made))
    }
}
