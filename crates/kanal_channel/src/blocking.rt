//! What all calls on the line have in common: one step under the lock, and the wait of a call that must.
//!
//! A call takes the lock, makes one step on the state, and releases the lock. No other module starts a wait,
//! for threads and for tasks. A wait that was started is owed: what became of it counts it out.
ghost use Rattle.std.specs.Prelude.{◌≡◌, IfErr, IfOk, IfSome, IsSome, false, true};
ghost use Rattle.kanal_cell.specs.CellEnds.{wait_cell, wait_view};
ghost use Rattle.kanal_cell.specs.CellRule.{MaySleep};
ghost use Rattle.kanal_core.specs.Tickets.{number_of};
ghost use Rattle.kanal_events.specs.StepResult.{MustWait, is_plain, may_wait};
ghost use Rattle.kanal_state.specs.Counts.{counts_handle, ticket_of};
ghost use Rattle.kanal_state.specs.Makes.{HasReplied, IsAnswered, SeesWait};
ghost use Rattle.kanal_state.specs.Waits.{IsWaiting};
ghost use Rattle.kanal_channel.specs.Answers.{Answers};
ghost use Rattle.kanal_channel.specs.Locks.{line_under};
ghost use Rattle.kanal_channel.specs.Deadlines.{WithdrawPost};
ghost use Rattle.kanal_channel.specs.Starts.{BlockingPost};

use crate::operation::Operation;
use crate::shared::{Locked, Shared};
use kanal_cell::signal::WaitEnd;
use kanal_cell::{Deadline, Never, Waiting};
use kanal_core::internal::{Outcome, Waiter};
use kanal_events::event::{Event, Refusal, Reply};
use kanal_state::{CountedWait, History, WaitResult, WaitStart, WaiterHandle, ends};
use std::sync::Wait;
use std::thread;

/// What a call came to that waits where it must.
#[derive(Drop)]
pub(crate) enum WaitOutcome<T> {
    Replied(Reply<T>),
    Settled(Outcome<T>),
    /// It waited, the deadline came, and the wait was taken back, with its message if it had one.
    Withdrawn(Option<T>),
}

/// The wait of a call, with the end at which it is told. It is still to be counted out.
pub type StartedWait<T, H> = (CountedWait, WaitEnd<WaitResult<T, H>>);

impl<T: Drop, H: History<T>> Shared<T, H> {
    pub(crate) fn call<R: Wait>(&self, rt: &R, pass: &mut H::Pass, event: Event<T>) -> Reply<T>
        requires plain { is_plain event ≡ true }
        requires uncounted { counts_handle event ≡ false }
        ensures answered { IsAnswered H.relations pass.old pass.new event result }
    {
        self.call_held(self.lock(rt), pass, event)
    }

    pub(crate) fn call_held(
        &self,
        locked: Locked<'_, T, H>,
        pass: &mut H::Pass,
        event: Event<T>,
    ) -> Reply<T>
        requires plain { is_plain event ≡ true }
        requires uncounted { counts_handle event ≡ false }
        ensures answered { IsAnswered H.relations pass.old pass.new event result }
    {
        let mut locked = locked;
        let made = locked.state.call(&self.log, pass, event);
        self.unlock_and_wake(locked, pass, made)
    }

    /// Makes a call of a thread, which waits where it must. First comes the fast path, which moves the message by
    /// itself if nobody waits.
    #[inline]
    pub(crate) fn make<R: Wait, M: Drop, A: Operation<T, M>>(
        &self,
        rt: &R,
        pass: &mut H::Pass,
        asked: M,
    ) -> A::Answer
        ensures made { Answers H.relations (A.event asked) A.read A.ended pass.old pass.new result }
    {
        let mut locked = self.lock(rt);
        match A::make_fast(&mut locked, &self.log, pass, asked) {
            Ok(reply) => {
                locked.unlock_and_drain();
                A::by(reply)
            },
            Err(asked) => self.make_held::<R, M, A>(rt, locked, pass, asked),
        }
    }

    #[cold]
    #[tactic(auto, using(crate::proofs::Answering::answered_settled))]
    fn make_held<'a, R: Wait, M: Drop, A: Operation<T, M>>(
        &'a self,
        rt: &R,
        locked: Locked<'a, T, H>,
        pass: &mut H::Pass,
        asked: M,
    ) -> A::Answer
        ensures made { Answers H.relations (A.event asked) A.read A.ended pass.old pass.new result }
    {
        match self.make_waiting::<R, M, A, Never>(rt, locked, pass, asked, &Never) {
            WaitOutcome::Replied(reply) => A::by(reply),
            WaitOutcome::Settled(outcome) => A::after(outcome),
            WaitOutcome::Withdrawn(_back) => unreachable!(),
        }
    }

    /// As `make`, for a call that waits until the deadline.
    pub(crate) fn make_until<R: Wait, M: Drop, A: Operation<T, M>, D: Deadline>(
        &self,
        rt: &R,
        pass: &mut H::Pass,
        asked: M,
        deadline: &D,
    ) -> WaitOutcome<T>
        ensures come { BlockingPost H.relations (D.has_come deadline.now) pass.old pass.new
            (A.event asked) result }
    {
        let mut locked = self.lock(rt);
        match A::make_fast(&mut locked, &self.log, pass, asked) {
            Ok(reply) => {
                locked.unlock_and_drain();
                WaitOutcome::Replied(reply)
            },
            Err(asked) => self.make_waiting::<R, M, A, D>(rt, locked, pass, asked, deadline),
        }
    }

    /// The call where another may wait that it serves; otherwise it is refused, or waits until the deadline. Where the
    /// buffer is short it looks once more after a pause.
    #[inline(always)]
    fn make_waiting<'a, R: Wait, M: Drop, A: Operation<T, M>, D: Deadline>(
        &'a self,
        rt: &R,
        locked: Locked<'a, T, H>,
        pass: &mut H::Pass,
        asked: M,
        deadline: &D,
    ) -> WaitOutcome<T>
        ensures come { BlockingPost H.relations (D.has_come deadline.now) pass.old pass.new
            (A.event asked) result }
    {
        let mut locked = locked;
        let mut asked = asked;
        if self.has_buffer && A::is_short(&locked) {
            locked = self.pause_released(rt, locked);
            match A::make_fast(&mut locked, &self.log, pass, asked) {
                Ok(reply) => {
                    locked.unlock_and_drain();
                    return WaitOutcome::Replied(reply);
                },
                Err(back) => asked = back,
            }
        }
        self.blocking(rt, locked, pass, A::into_event(asked), deadline)
    }

    /// Makes a call that waits where it must, until the deadline, under the lock, and releases it. The caller has
    /// looked before, and paused.
    #[inline(always)]
    pub(crate) fn blocking<R: Wait, D: Deadline>(
        &self,
        rt: &R,
        locked: Locked<'_, T, H>,
        pass: &mut H::Pass,
        event: Event<T>,
        deadline: &D,
    ) -> WaitOutcome<T>
        requires waits { may_wait event ≡ true }
        ensures come { BlockingPost H.relations (D.has_come deadline.now) pass.old pass.new event result }
    {
        let (counted, end) = match self.begin(locked, pass, event) {
            Ok((counted, end)) => (counted, end),
            Err(reply) => return WaitOutcome::Replied(reply),
        };
        match Waiting::new(end).outcome(rt, &self.policy, deadline) {
            Ok(delivered) => WaitOutcome::Settled(self.learn(rt, pass, counted, delivered)),
            Err(waiting) => self.take_back(rt, pass, counted, waiting),
        }
    }

    /// Ends a wait whose deadline has come: by taking it back, or, where nobody waits under the ticket any
    /// more, by its outcome, which is on its way and is waited for.
    #[cold]
    fn take_back<R: Wait>(
        &self,
        rt: &R,
        pass: &mut H::Pass,
        counted: CountedWait,
        waiting: Waiting<WaitResult<T, H>>,
    ) -> WaitOutcome<T>
        ensures ended { WithdrawPost H.relations pass.old pass.new (number_of (ticket_of counted)) result }
    {
        let mut locked = self.lock(rt);
        let withdrawn = locked.state.withdraw(&self.log, pass, counted);
        let released = locked.unlock_and_drain();
        match withdrawn {
            Ok(waiter) => {
                let Waiter {
                    ticket: _,
                    message,
                    w,
                } = waiter.open(&released);
                drop(w);
                WaitOutcome::Withdrawn(message)
            },
            Err(counted) => match waiting.outcome(rt, &self.policy, &Never) {
                Ok(delivered) => WaitOutcome::Settled(self.learn(rt, pass, counted, delivered)),
                Err(_waiting) => unreachable!(),
            },
        }
    }

    /// Begins the wait of a call under the lock, and releases the lock; `Err` is the reply of a call that does
    /// not wait.
    #[inline(always)]
    pub(crate) fn begin(
        &self,
        locked: Locked<'_, T, H>,
        pass: &mut H::Pass,
        event: Event<T>,
    ) -> Result<StartedWait<T, H>, Reply<T>>
        requires waits { may_wait event ≡ true }
        ensures begun { IfOk result (λ begun. IsWaiting H.relations pass.old pass.new event begun.0) }
        ensures fresh { IfOk result (λ begun. MaySleep (wait_view begun.1)) }
        ensures replied { IfErr result (HasReplied H.relations pass.old pass.new event) }
    {
        let (locked, event) = self.start(locked, pass, event)?;
        self.wait(locked, pass, event, ends(self.alloc))
    }

    /// Releases the lock, and takes it anew after a pause: the other side is often about to make a place, or to
    /// bring a message.
    #[inline(always)]
    pub(crate) fn pause_released<'a, R: Wait>(
        &'a self,
        rt: &R,
        locked: Locked<'a, T, H>,
    ) -> Locked<'a, T, H> {
        locked.unlock_and_drain();
        self.policy.pause_once();
        self.lock(rt)
    }

    /// Makes a call under the lock that was got. One that must wait comes back with the lock, and the pass has
    /// seen that it must: its wait is started by `wait`, with memory that is asked for only then.
    ///
    /// # Errors
    /// The reply of a call that does not wait, with the lock released: it was made at once, or it was refused
    /// since the tickets are used up.
    #[inline(always)]
    pub fn start<'a>(
        &self,
        locked: Locked<'a, T, H>,
        pass: &mut H::Pass,
        event: Event<T>,
    ) -> Result<(Locked<'a, T, H>, Event<T>), Reply<T>>
        requires waits { may_wait event ≡ true }
        ensures replied { IfErr result (HasReplied H.relations pass.old pass.new event) }
        ensures must { IfOk result (λ back. MustWait (line_under back.0) event) }
        ensures sees { IfOk result (λ _. SeesWait H.relations pass.new event) }
        ensures back { IfOk result (λ back. back.1 ≡ event) }
        ensures extends { IfOk result (λ _. H.relations.extends pass.old pass.new) }
    {
        let mut locked = locked;
        let event = match locked.state.start(&self.log, pass, event) {
            Ok(answered) => return Err(self.unlock_answered(locked, pass, answered)),
            Err(event) => event,
        };
        if locked.state.has_ticket() {
            return Ok((locked, event));
        }
        let reply = locked.state.refuse(&self.log, pass, event);
        let released = locked.unlock_and_drain();
        Err(reply.open(&released))
    }

    /// Starts the wait of a call that the pass has seen must wait, with the ends of its cell, and releases the lock.
    ///
    /// # Errors
    /// The reply of a call that was refused: there was no memory for a cell, or for the wait. Nobody waits, and
    /// the ends are let go.
    #[inline(always)]
    pub fn wait(
        &self,
        locked: Locked<'_, T, H>,
        pass: &mut H::Pass,
        event: Event<T>,
        cell: Option<(WaitEnd<WaitResult<T, H>>, WaiterHandle<T, H>)>,
    ) -> Result<StartedWait<T, H>, Reply<T>>
        requires waits { may_wait event ≡ true }
        requires must { MustWait (line_under locked) event }
        requires sees { SeesWait H.relations pass.old event }
        requires fresh { IfSome cell (λ c. MaySleep (wait_view c.0)) }
        ensures waiting { IfOk result (λ begun. IsWaiting H.relations pass.old pass.new event begun.0) }
        ensures fresh { IfOk result (λ begun. MaySleep (wait_view begun.1)) }
        ensures cell { IfOk result (λ _. IsSome cell) }
        ensures own { IfOk result (λ begun. IfSome cell (λ c. wait_cell begun.1 ≡ wait_cell c.0)) }
        ensures replied { IfErr result (HasReplied H.relations pass.old pass.new event) }
    {
        let mut locked = locked;
        let Some((end, waiter)) = cell else {
            locked.unlock_and_drain();
            return Err(event.refused(Refusal::NoMemory));
        };
        let start = locked.state.wait(&self.log, pass, event, waiter);
        let released = locked.unlock_and_drain();
        match start {
            WaitStart::Waits(counted) => Ok((counted, end)),
            WaitStart::Refused(reply, waiter) => {
                drop(waiter.open(&released));
                Err(reply.open(&released))
            },
        }
    }

    /// Consumes the wait's token. If the result has another ticket (never seen), yields forever.
    pub(crate) fn learn<R: Wait>(
        &self,
        rt: &R,
        pass: &mut H::Pass,
        counted: CountedWait,
        delivered: WaitResult<T, H>,
    ) -> Outcome<T>
        ensures extends { H.relations.extends pass.old pass.new }
        ensures settled { H.relations.saw_settled pass.new (number_of (ticket_of counted), result) }
    {
        let _another = match counted.learn(&self.log, pass, delivered) {
            Ok(outcome) => return outcome,
            Err(another) => another,
        };
        for _ in rt.forever() {
            thread::yield_now();
        }
        unreachable!()
    }
}
