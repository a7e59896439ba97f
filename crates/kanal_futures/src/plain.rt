//! A call in a task, with an answer and no pass.
//!
//! The future keeps the pass when it has answered, so that each poll shows in it. `SendFuture` and `ReceiveFuture`
//! are its two cases.
ghost use Rattle.std.specs.Prelude.{◌≡◌, ⊤, true, false, IfSome, Some};
ghost use Rattle.std.specs.Option.{is_none};
ghost use Rattle.futures.specs.Task.{Covers, Keeps};
ghost use Rattle.futures.specs.Poll.{IfReady, OnPending};
ghost use Rattle.kanal_channel.specs.Answers.{Answers};
ghost use Rattle.kanal_futures.specs.Futures.{call_begun};
ghost use Rattle.kanal_futures.specs.Plain.{HasAnswered, asked_call, future_source, is_over, answered_pass};
ghost use Rattle.kanal_futures.specs.Tasks.{RestMatches, begun_with};

use crate::answer::TaskAnswer;
use crate::call::TaskCall;
use crate::progress::PollRest;
use futures::Future;
use futures::task::{Context, Poll};
use kanal_channel::{Operation, Shared};
use kanal_state::History;

/// A call in a task that answers without its pass. `SendFuture` and `ReceiveFuture` say what a poll and a drop do.
#[derive(Drop)]
pub struct PlainFuture<'a, T, H: History<T>, M, A: Operation<T, M>> {
    call: TaskCall<'a, T, H, M, A>,
}

impl<'a, T: Drop, H: History<T>, M: Drop, A: Operation<T, M>> PlainFuture<'a, T, H, M, A> {
    pub(crate) fn new(shared: &'a Shared<T, H>, pass: H::Pass, asked: M) -> Self
        ensures fresh { asked_call result ≡ Some (pass, asked) }
    {
        PlainFuture {
            call: TaskCall::new(shared, pass, asked),
        }
    }

    #[inline]
    fn store_pass(&mut self, answered: TaskAnswer<T, H, M, A>) -> A::Answer
        requires over { is_over self.old ≡ true }
        ensures made { Answers H.relations (A.event answered.1) A.read A.ended answered.0 answered.2 result }
        ensures pending { answered_pass self.new ≡ Some answered.2 }
        ensures ends { is_over self.new ≡ true }
        ensures source { future_source self.new ≡ future_source self.old }
    {
        let (pass, answer) = answered.apart();
        self.call.store_pass(pass);
        answer
    }

    #[cold]
    fn poll_slow(&mut self, rest: PollRest<'a, T, H, M>, cx: &mut Context<'_>) -> Poll<A::Answer>
        requires fits { RestMatches rest self.old.call.state }
        ensures made { IfReady result (λ r. IfSome (begun_with rest.entry self.old.call.state) (λ begun.
            HasAnswered (answered_pass self.new) (λ new.
            Answers H.relations (A.event begun.1) A.read A.ended begun.0 new r))) }
        ensures stays { OnPending result (asked_call self.new ≡ begun_with rest.entry self.old.call.state) }
        ensures over { is_none (begun_with rest.entry self.old.call.state) ≡ true
            → (result ≡ Poll.Ready A.finished)
            × (is_over self.new ≡ true) × (answered_pass self.new ≡ answered_pass self.old) }
        ensures ends { IfReady result (λ _. is_over self.new ≡ true) }
        ensures goes_on { OnPending result (is_over self.new ≡ false) }
        ensures registered { OnPending result (Covers cx.new (λ s. s ≡ future_source self.new)) }
        ensures kept { Keeps cx.old cx.new }
    {
        match self.call.poll_slow(rest, cx) {
            Poll::Ready(Some(answered)) => Poll::Ready(self.store_pass(answered)),
            Poll::Ready(None) => Poll::Ready(A::again()),
            Poll::Pending => Poll::Pending,
        }
    }
}

impl<T: Drop, H: History<T>, M: Drop, A: Operation<T, M>> Future for PlainFuture<'_, T, H, M, A> {
    type Output = A::Answer;

    ghost needs = { λ f s. s ≡ future_source f };

    /// Polls the call. It never waits.
    ///
    /// # Errors
    /// Those that `SendFuture` and `ReceiveFuture` list, and `Finished` after the first answer.
    ///
    /// # Examples
    /// ```text
    /// let mut sending = sender.send(7);
    /// task.poll(&mut sending)   answers  Ready(Ok(()))                     in a channel with a place
    /// task.poll(&mut sending)   answers  Ready(Err(SendError::Finished))   after that
    /// ```
    fn poll(&mut self, cx: &mut Context<'_>) -> Poll<A::Answer>
        ensures value { IfReady result (λ _. ⊤) }
        ensures again { OnPending result ⊤ }
        ensures same { OnPending result ((x : A.Answer) → ⊤ → ⊤) }
        ensures registered { OnPending result (Covers cx.new (λ s. s ≡ future_source self.new)) }
        ensures kept { Keeps cx.old cx.new }
        ensures made { IfReady result (λ r. IfSome (asked_call self.old) (λ call.
            HasAnswered (answered_pass self.new) (λ new.
            Answers H.relations (A.event call.1) A.read A.ended call.0 new r))) }
        ensures stays { OnPending result (asked_call self.new ≡ asked_call self.old) }
        ensures over { is_over self.old ≡ true → (result ≡ Poll.Ready A.finished)
            × (is_over self.new ≡ true) × (answered_pass self.new ≡ answered_pass self.old) }
        ensures ends { IfReady result (λ _. is_over self.new ≡ true) }
        ensures goes_on { OnPending result (is_over self.new ≡ false) }
    {
        match self.call.poll_fast() {
            Ok(answered) => Poll::Ready(self.store_pass(answered)),
            Err(rest) => self.poll_slow(rest, cx),
        }
    }
}
