//! A call in a task by a pass: a future that carries the pass between its polls, and answers with it.
//!
//! First comes the fast path. `Sending` and `Receiving` are its two cases.
ghost use Rattle.std.specs.Prelude.{◌≡◌, ⊤, IfErr, IfNone, IfOk, IfSome, MatchOption, None, Option, Some, false, true};
ghost use Rattle.std.specs.Option.{is_none};
ghost use Rattle.futures.specs.Task.{Covers, Keeps};
ghost use Rattle.futures.specs.Poll.{IfReady, OnPending};
ghost use Rattle.kanal_futures.specs.Tasks.{RestMatches, begun_with, is_fresh, passes};
ghost use Rattle.kanal_futures.specs.Futures.{IsPoll, IsPolled, call_begun, call_kept, call_source, call_waits, suspended_begun, suspended_source};

use crate::answer::{GhostStart, TaskAnswer};
use crate::progress::{PollRest, Progress};
use crate::started::Started;
use crate::wakers::Wakers;
use futures::Future;
use futures::task::{Context, Poll};
use kanal_cell::PollBackoff;
use kanal_channel::{Locked, Operation, Shared};
use kanal_state::History;

/// A call in a task, by the pass that it carries. `Sending` and `Receiving` say what a poll and a drop do.
pub struct TaskCall<'a, T, H: History<T>, M, A: Operation<T, M>> {
    shared: &'a Shared<T, H>,
    state: Progress<T, H, M, A>,
    wakers: Wakers,
    pauses: PollBackoff,
}

/// A call between two of its polls, apart from its channel: `TaskCall::resume` goes on with it. It is not dropped, since
/// a wait that was started is owed to its channel.
pub struct SuspendedCall<T, H: History<T>, M, A: Operation<T, M>> {
    state: Progress<T, H, M, A>,
    wakers: Wakers,
    pauses: PollBackoff,
}

impl<T: Drop, H: History<T>, M: Drop, A: Operation<T, M>> SuspendedCall<T, H, M, A> {
    /// A call that was not polled yet, by this pass; or one that has answered.
    /// Example: `SuspendedCall::new(Some(((), 7)))` is a send of 7.
    pub fn new(begun: Option<(H::Pass, M)>) -> Self
        ensures begun { suspended_begun result ≡ begun }
    {
        let state = match begun {
            Some((pass, asked)) => Progress::Zero(pass, asked),
            None => Progress::Done(None),
        };
        SuspendedCall {
            state,
            wakers: Wakers::new(),
            pauses: PollBackoff::new(),
        }
    }
}

impl<T: Drop, H: History<T>, M: Drop, A: Operation<T, M>> Drop for TaskCall<'_, T, H, M, A> {
    fn drop(self) {
        let TaskCall {
            shared,
            state,
            wakers,
            pauses: _,
        } = self;
        if let Some(started) = state.into_wait() {
            started.leave(shared);
        }
        if let Some(spare) = wakers.into_spare() {
            drop(spare);
        }
    }
}

impl<'a, T: Drop, H: History<T>, M: Drop, A: Operation<T, M>> TaskCall<'a, T, H, M, A> {
    pub(crate) fn new(shared: &'a Shared<T, H>, pass: H::Pass, asked: M) -> Self
        ensures fresh { call_begun result ≡ Some (pass, asked) }
    {
        TaskCall {
            shared,
            state: Progress::Zero(pass, asked),
            wakers: Wakers::new(),
            pauses: PollBackoff::new(),
        }
    }

    /// The channel. It never waits.
    /// Example: `sending.shared().alloc()` is what the channel asks memory of.
    pub fn shared(&self) -> &'a Shared<T, H> {
        self.shared
    }

    /// The pass, and what is asked, of a call that was not made yet.
    #[inline]
    pub(crate) fn take_fresh(&mut self) -> Option<(H::Pass, M)>
        ensures fresh { IfSome result (λ begun. call_begun self.old ≡ Some begun) }
        ensures over { IfSome result (λ _. call_begun self.new ≡ None) }
        ensures same { IfNone result (call_begun self.new ≡ call_begun self.old) }
        ensures source { call_source self.new ≡ call_source self.old }
    {
        self.state.take()
    }

    pub(crate) fn is_waiting(&self) -> bool
        ensures { result ≡ call_waits self.now }
    {
        matches!(self.state, Progress::Waiting(_))
    }

    /// The pass, where no wait was started that was not polled to its end and it has not answered; a started
    /// wait is withdrawn. It never waits.
    /// Example: `recv_in_task(&shared, pass).into_pass()` answers `Some(pass)` without a poll.
    pub fn into_pass(self) -> Option<H::Pass>
        ensures pass { call_waits self.entry ≡ false → result ≡ passes (call_begun self.entry) }
    {
        let TaskCall {
            shared,
            state,
            wakers,
            pauses: _,
        } = self;
        drop(wakers);
        state.into_pass(shared)
    }

    #[inline]
    pub(crate) fn store_pass(&mut self, pass: H::Pass)
        requires over { call_begun self.old ≡ None }
        ensures kept { call_kept self.new ≡ Some pass }
        ensures over { call_begun self.new ≡ None }
        ensures source { call_source self.new ≡ call_source self.old }
    {
        self.state.store_pass(pass);
    }

    /// Goes on with a call of this channel. It never waits.
    /// Example: `Sending::resume(&shared, sending.suspend())` is `sending`.
    pub fn resume(shared: &'a Shared<T, H>, suspended: SuspendedCall<T, H, M, A>) -> Self
        ensures begun { call_begun result ≡ suspended_begun suspended }
        ensures source { call_source result ≡ suspended_source suspended }
    {
        let SuspendedCall {
            state,
            wakers,
            pauses,
        } = suspended;
        TaskCall {
            shared,
            state,
            wakers,
            pauses,
        }
    }

    /// The call apart from its channel, until its next poll. It never waits.
    /// Example: `sending.suspend()` is a send that `Sending::resume` goes on with.
    pub fn suspend(self) -> SuspendedCall<T, H, M, A>
        ensures begun { suspended_begun result ≡ call_begun self.entry }
        ensures source { suspended_source result ≡ call_source self.entry }
    {
        let TaskCall {
            shared: _,
            state,
            wakers,
            pauses,
        } = self;
        SuspendedCall {
            state,
            wakers,
            pauses,
        }
    }

    /// Asks this by this pass, of a call that was taken out. Its pauses go on as they were.
    #[inline]
    pub(crate) fn put_fresh(&mut self, pass: H::Pass, asked: M)
        requires over { call_begun self.old ≡ None }
        ensures fresh { call_begun self.new ≡ Some (pass, asked) }
        ensures source { call_source self.new ≡ call_source self.old }
    {
        self.state = Progress::Zero(pass, asked);
    }

    /// Asks this by this pass, of a future that has answered. The spare waker stays.
    /// Example: `sending.restart(pass, 8)` sends 8 by the pass that `into_parts` gave back.
    pub fn restart(&mut self, pass: H::Pass, asked: M)
        requires over { call_begun self.old ≡ None }
        ensures fresh { call_begun self.new ≡ Some (pass, asked) }
        ensures source { call_source self.new ≡ call_source self.old }
    {
        self.put_fresh(pass, asked);
        self.pauses = PollBackoff::new();
    }

    /// Makes the call where it goes by itself: it was not made yet, the lock is free, and there is no notice.
    #[inline]
    pub(crate) fn poll_fast(&mut self) -> Result<TaskAnswer<T, H, M, A>, PollRest<'a, T, H, M>>
        ensures begun { IfOk result (λ x. call_begun self.old ≡ Some (x.0, x.1)) }
        ensures ends { IfOk result (λ _. call_begun self.new ≡ None) }
        ensures rest { IfErr result (λ rest. begun_with rest self.new.state ≡ call_begun self.old) }
        ensures fits { IfErr result (λ rest. RestMatches rest self.new.state) }
        ensures idle { IfErr result (λ _. call_begun self.old ≡ None → self.new.state ≡ self.old.state) }
        ensures source { call_source self.new ≡ call_source self.old }
    {
        let Some((pass, asked)) = self.state.take() else {
            return Err(PollRest::Begun);
        };
        let Some(mut locked) = self.shared.try_lock_raw() else {
            return Err(PollRest::Refused(pass, asked));
        };
        if !self.shared.has_no_notices() {
            return Err(PollRest::Held(locked, pass, asked));
        }
        let opening = GhostStart::of(&pass, &asked);
        let mut pass = pass;
        match A::make_fast(&mut locked, self.shared.log(), &mut pass, asked) {
            Ok(reply) => {
                locked.unlock_and_drain();
                Ok(TaskAnswer::new(opening, pass, A::by(reply)))
            },
            Err(asked) => Err(PollRest::Held(locked, pass, asked)),
        }
    }

    fn retry(
        &mut self,
        pass: H::Pass,
        asked: M,
        cx: &mut Context<'_>,
    ) -> Poll<TaskAnswer<T, H, M, A>>
        requires over { call_begun self.old ≡ None }
        ensures pending { result ≡ Poll.Pending }
        ensures goes_on { call_begun self.new ≡ Some (pass, asked) }
        ensures registered { Covers cx.new (λ s. s ≡ call_source self.new) }
        ensures woken { cx.new.is_woken ≡ true }
        ensures kept { Keeps cx.old cx.new }
        ensures source { call_source self.new ≡ call_source self.old }
    {
        self.state = Progress::Zero(pass, asked);
        if self.shared.has_buffer() {
            self.pauses.pause();
        }
        cx.yield_now()
    }

    fn begin(
        &mut self,
        locked: Locked<'_, T, H>,
        pass: H::Pass,
        asked: M,
        cx: &mut Context<'_>,
    ) -> Poll<TaskAnswer<T, H, M, A>>
        requires over { call_begun self.old ≡ None }
        ensures polled { IsPolled (pass, asked) cx.old cx.new self.old self.new result }
    {
        if self.shared.has_no_notices() {
            return self.begin_held(locked, pass, asked, cx);
        }
        self.begin_noticed(locked, pass, asked, cx)
    }

    /// Goes on where there are notices: they are applied before the call. Where they took something out, that
    /// is told first, and where another has the lock then, another poll is asked for.
    #[cold]
    fn begin_noticed(
        &mut self,
        locked: Locked<'_, T, H>,
        pass: H::Pass,
        asked: M,
        cx: &mut Context<'_>,
    ) -> Poll<TaskAnswer<T, H, M, A>>
        requires over { call_begun self.old ≡ None }
        ensures polled { IsPolled (pass, asked) cx.old cx.new self.old self.new result }
    {
        match locked.apply_notices() {
            Some(locked) => self.begin_held(locked, pass, asked, cx),
            None => self.retry(pass, asked, cx),
        }
    }

    fn begin_held(
        &mut self,
        locked: Locked<'_, T, H>,
        pass: H::Pass,
        asked: M,
        cx: &mut Context<'_>,
    ) -> Poll<TaskAnswer<T, H, M, A>>
        requires over { call_begun self.old ≡ None }
        ensures polled { IsPolled (pass, asked) cx.old cx.new self.old self.new result }
    {
        let begun = self.wakers.begin(self.shared, locked, pass, asked, cx);
        match begun {
            Ok((opening, pass, reply)) => {
                Poll::Ready(TaskAnswer::new(opening, pass, A::by(reply)))
            },
            Err(started) => {
                self.state = Progress::Waiting(started);
                Poll::Pending
            },
        }
    }

    #[tactic(auto, using(kanal_channel::proofs::Answering::answered_settled))]
    fn wait(
        &mut self,
        started: Started<T, H, M, A>,
        cx: &mut Context<'_>,
    ) -> Poll<TaskAnswer<T, H, M, A>>
        requires over { call_begun self.old ≡ None }
        ensures polled { IsPolled started cx.old cx.new self.old self.new result }
    {
        match started.look(&mut self.wakers, self.shared, cx) {
            Ok((opening, pass, outcome)) => {
                Poll::Ready(TaskAnswer::new(opening, pass, A::after(outcome)))
            },
            Err(waiting) => {
                self.state = Progress::Waiting(waiting);
                Poll::Pending
            },
        }
    }

    #[cold]
    pub(crate) fn poll_slow(
        &mut self,
        rest: PollRest<'a, T, H, M>,
        cx: &mut Context<'_>,
    ) -> Poll<Option<TaskAnswer<T, H, M, A>>>
        requires fits { RestMatches rest self.old.state }
        ensures begun { IfReady result (λ r. IfSome r (λ x. begun_with rest.entry self.old.state
            ≡ Some (x.0, x.1))) }
        ensures answered { IfReady result (λ r. IfNone r (begun_with rest.entry self.old.state ≡ None)) }
        ensures ends { IfReady result (λ _. call_begun self.new ≡ None) }
        ensures goes_on { OnPending result (call_begun self.new
            ≡ begun_with rest.entry self.old.state) }
        ensures over { is_none (begun_with rest.entry self.old.state) ≡ true → (result ≡ Poll.Ready None)
            × (self.new.state ≡ self.old.state) }
        ensures frame { IsPoll cx.old cx.new self.old self.new result }
    {
        let answer = match rest {
            PollRest::Held(locked, pass, asked) => self.begin(locked, pass, asked, cx),
            PollRest::Refused(pass, asked) => self.retry(pass, asked, cx),
            PollRest::Begun => return self.look(cx),
        };
        match answer {
            Poll::Ready(answered) => Poll::Ready(Some(answered)),
            Poll::Pending => Poll::Pending,
        }
    }

    fn look(&mut self, cx: &mut Context<'_>) -> Poll<Option<TaskAnswer<T, H, M, A>>>
        requires made { is_fresh self.old.state ≡ false }
        ensures begun { IfReady result (λ r. IfSome r (λ x. call_begun self.old ≡ Some (x.0, x.1))) }
        ensures answered { IfReady result (λ r. IfNone r (call_begun self.old ≡ None)) }
        ensures ends { IfReady result (λ _. call_begun self.new ≡ None) }
        ensures goes_on { OnPending result (call_begun self.new ≡ call_begun self.old) }
        ensures over { is_none (call_begun self.old) ≡ true → (result ≡ Poll.Ready None)
            × (self.new.state ≡ self.old.state) }
        ensures frame { IsPoll cx.old cx.new self.old self.new result }
    {
        let Some(started) = self.state.take_wait() else {
            return Poll::Ready(None);
        };
        match self.wait(started, cx) {
            Poll::Ready(answered) => Poll::Ready(Some(answered)),
            Poll::Pending => Poll::Pending,
        }
    }
}

impl<T: Drop, H: History<T>, M: Drop, A: Operation<T, M>> Future for TaskCall<'_, T, H, M, A> {
    type Output = Option<TaskAnswer<T, H, M, A>>;

    ghost use Rattle.std.specs.Prelude.{MatchOption};

    ghost needs = { λ f s. s ≡ call_source f };

    ghost gives = { λ f r. MatchOption r (call_begun f ≡ None)
        (λ x. call_begun f ≡ Some (x.0, x.1)) };

    /// Polls the call. It answers once, and `None` after that. It never waits.
    ///
    /// # Examples
    /// ```text
    /// let mut sending = send_in_task(&shared, pass, 7);
    /// task.poll(&mut sending)   answers  Ready(Some(sent))   in a channel with a place
    /// task.poll(&mut sending)   answers  Ready(None)         after that
    /// ```
    fn poll(&mut self, cx: &mut Context<'_>) -> Poll<Option<TaskAnswer<T, H, M, A>>>
        ensures value { IfReady result (λ r. MatchOption r (call_begun self.old ≡ None)
            (λ x. call_begun self.old ≡ Some (x.0, x.1))) }
        ensures again { OnPending result ⊤ }
        ensures same { OnPending result ((x : Option (H.Pass × M × H.Pass × A.Answer))
            → MatchOption x (call_begun self.new ≡ None) (λ y. call_begun self.new ≡ Some (y.0, y.1))
            → MatchOption x (call_begun self.old ≡ None) (λ y. call_begun self.old ≡ Some (y.0, y.1))) }
        ensures registered { OnPending result (Covers cx.new (λ s. s ≡ call_source self.new)) }
        ensures kept { Keeps cx.old cx.new }
        ensures begun { IfReady result (λ r. IfSome r (λ x. call_begun self.old ≡ Some (x.0, x.1))) }
        ensures answered { IfReady result (λ r. IfNone r (call_begun self.old ≡ None)) }
        ensures ends { IfReady result (λ _. call_begun self.new ≡ None) }
        ensures goes_on { OnPending result (call_begun self.new ≡ call_begun self.old) }
        ensures over { is_none (call_begun self.old) ≡ true → result ≡ Poll.Ready None }
    {
        match self.poll_fast() {
            Ok(answered) => Poll::Ready(Some(answered)),
            Err(rest) => self.poll_slow(rest, cx),
        }
    }
}
