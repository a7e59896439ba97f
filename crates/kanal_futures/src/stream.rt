//! The messages of a channel in a task, one after the other.
//!
//! Each item is a receive of its own, by the pass that the stream carries.
ghost use Rattle.std.specs.Prelude.{◌≡◌, [], ⊤, true, false, Some, None, Ok, Err, IfSome, IfNone, IsSome, OnSome, codes};
ghost use Rattle.std.specs.Option.{option_copied};
ghost use Rattle.futures.specs.Task.{Covers, Keeps};
ghost use Rattle.futures.specs.Poll.{IfReady, OnPending};
ghost use Rattle.futures.specs.Runs.{After, Within};
ghost use Rattle.kanal_state.specs.Handles.{AsksForTheEnd, Receives};
ghost use Rattle.kanal_futures.specs.Futures.{call_begun};
ghost use Rattle.kanal_futures.specs.Plain.{HasAnswered};
ghost use Rattle.kanal_futures.specs.Streams.{EndsSo, StreamRefused, HasNone, HasReceived, HaveReceived, WaitsAt, stream_fault, stream_is_over, stream_pass, stream_source, stream_waits};

use crate::receiving::{ReceiveAnswer, Receiving, recv_in_task};
use futures::task::{Context, Poll};
use futures::{Future, Stream};
use kanal_channel::Shared;
use kanal_core::error::ReceiveError;
use kanal_state::{CallContext, History, NoHistory};
use std::collections::VecDeque;
use std::fmt;

/// The messages of a receiver, as `AsyncReceiver::stream` answers them.
///
/// Each item is received with a wait of its own, by the pass that the stream carries. A poll never waits.
/// After the first refusal the stream answers `None` for good, and `fault` tells it.
#[derive(Drop)]
pub struct ReceiveStream<'a, T, H: History<T> = NoHistory> {
    receiving: Receiving<'a, T, H>,
    fault: Option<ReceiveError>,
}

/// The messages, one receive by this pass after the other, until one is refused. It never waits.
///
/// # Examples
/// ```text
/// let mut stream = receive_stream(&shared, pass);
/// block_on(&rt, stream.next())   gives  Some(7)   where 7 was sent
/// ```
pub fn receive_stream<T: Drop, H: History<T>>(
    shared: &Shared<T, H>,
    pass: H::Pass,
) -> ReceiveStream<'_, T, H>
    ensures fresh { stream_is_over result ≡ false }
    ensures pass { stream_pass result ≡ Some pass }
{
    ReceiveStream {
        receiving: recv_in_task(shared, pass),
        fault: None,
    }
}

impl<T: Drop, H: History<T>> ReceiveStream<'_, T, H> {
    /// The pass, where no wait was started that was not polled to its end; such a wait is withdrawn. It never waits.
    /// Example: `stream.into_pass()` answers `Some(pass)` once the stream has answered `None`.
    pub fn into_pass(self) -> Option<H::Pass>
        ensures pass { stream_waits self.entry ≡ false → result ≡ stream_pass self.entry }
    {
        let ReceiveStream {
            receiving,
            fault: _,
        } = self;
        receiving.into_pass()
    }

    /// The refusal that ended the stream; `None` while it has not ended. It never waits.
    /// Example: `stream.fault()` answers `Some(&ReceiveError::SendClosed)` once the last sender's drop ended it.
    pub fn fault(&self) -> Option<&ReceiveError>
        ensures fault { option_copied result ≡ stream_fault self.now }
    {
        self.fault.as_ref()
    }

    /// Receives what lies in the buffer, oldest first, while there is room for it in the queue: all under one lock, each
    /// by a receive of its own. Where other receivers are left it takes no more than half of its share.
    ///
    /// It never waits, and receives nothing where the stream has ended or waits, where the lock is held, or where
    /// another call waits.
    ///
    /// # Examples
    /// ```text
    /// stream.recv_ready(&mut queue)   puts   1, 2   into the queue, where 1 and 2 were sent
    /// ```
    #[inline]
    pub fn recv_ready(&mut self, into: &mut VecDeque<T>)
        requires empty { into.old.items ≡ [] }
        ensures received { HaveReceived H.relations (stream_pass self.old) into.new.items (stream_pass self.new) }
        ensures fault { stream_fault self.new ≡ stream_fault self.old }
        ensures ended { stream_is_over self.old ≡ true → into.new.items ≡ [] }
        ensures source { stream_source self.new ≡ stream_source self.old }
    {
        if self.fault.is_none() {
            self.receiving.recv_ready(into);
        }
    }

    #[inline]
    pub(crate) fn has_ended(&self) -> bool
        ensures { result ≡ stream_is_over self.now }
    {
        self.fault.is_some()
    }

    /// Its fault as a loop answers it: `Ok` where it ended since no sender is left, or has not ended. It never waits.
    /// Example: `stream.ending()` answers `Err(ReceiveError::Closed)` once a close ended it.
    pub fn ending(&self) -> Result<(), ReceiveError>
        ensures { IfSome (stream_fault self.now) (λ error. EndsSo error result) }
    {
        match self.fault {
            None | Some(ReceiveError::SendClosed) => Ok(()),
            Some(error) => Err(error),
        }
    }

    /// Polls for the next message; `None` where there is none yet, and where the stream has ended.
    #[inline]
    pub(crate) fn ask(&mut self, cx: &mut Context<'_>) -> Option<T>
        ensures received { IfSome result (λ m.
            HasReceived H.relations (stream_pass self.old) (stream_pass self.new) (Ok m)) }
        ensures further { IfSome result (λ _. stream_is_over self.new ≡ false) }
        ensures none { IfNone result (HasNone H.relations self.old self.new) }
        ensures registered { IfNone result (stream_is_over self.new ≡ false → Covers cx.new (WaitsAt self.new)) }
        ensures kept { Keeps cx.old cx.new }
    {
        match self.poll_next(cx) {
            Poll::Ready(item) => item,
            Poll::Pending => None,
        }
    }

    fn take(&mut self, received: ReceiveAnswer<T, H>) -> Option<T>
        requires over { call_begun self.old.receiving ≡ None }
        ensures received { IfSome result (λ m. Receives H.relations received.0 received.2 (Ok m)) }
        ensures refused { IfNone result (HasAnswered (stream_fault self.new) (λ error.
            Receives H.relations received.0 received.2 (Err error))) }
        ensures pass { stream_pass self.new ≡ Some received.2 }
        ensures ends { IfNone result (stream_is_over self.new ≡ true) }
        ensures goes_on { IfSome result (λ _. stream_fault self.new ≡ stream_fault self.old) }
        ensures source { stream_source self.new ≡ stream_source self.old }
    {
        let (pass, answer) = received.into_parts();
        self.receiving.restart(pass, ());
        match answer {
            Ok(message) => Some(message),
            Err(error) => {
                self.fault = Some(error);
                None
            },
        }
    }

    /// Whether the stream has ended, or will answer no message any more: true after `None`, false while a wait of its
    /// own was not polled to its end, and otherwise what the receiver answers. It may wait for the lock.
    /// Example: `stream.is_terminated(&rt)` answers `true` after `None`.
    pub fn is_terminated<R: CallContext<H::Pass>>(&self, rt: R) -> bool
        ensures ended { stream_is_over self.now ≡ true → (result ≡ true) × (R.after rt ≡ R.before rt) }
        ensures waiting { stream_is_over self.now ≡ false → stream_waits self.now ≡ true
            → (result ≡ false) × (R.after rt ≡ R.before rt) }
        ensures asked { stream_is_over self.now ≡ false → stream_waits self.now ≡ false
            → AsksForTheEnd H.relations (R.before rt) (R.after rt) result }
    {
        let (rt, mut pass, end) = rt.enter();
        let answer = if self.fault.is_some() {
            true
        } else if self.receiving.is_waiting() {
            false
        } else {
            self.receiving.shared().is_terminated(&rt, &mut pass)
        };
        R::exit(end, pass);
        answer
    }
}

impl<T: Drop, H: History<T>> Stream for ReceiveStream<'_, T, H> {
    type Item = T;

    ghost needs = { λ f s. s ≡ stream_source f };

    /// Polls for the next message; `None` where it was refused. It never waits.
    ///
    /// # Examples
    /// ```text
    /// let mut stream = receiver.stream();
    /// stream.poll_next(cx)   answers  Ready(Some(1))   where 1 was sent
    /// stream.poll_next(cx)   answers  Ready(None)      after the last sender's drop
    /// ```
    fn poll_next(&mut self, cx: &mut Context<'_>) -> Poll<Option<T>>
        ensures value { IfReady result (λ _. ⊤) }
        ensures rest { IfReady result (λ o. IfSome o (λ x. After (λ _ _. ⊤) x (λ _ _. ⊤))) }
        ensures goes { IfReady result (λ o. OnSome o ⊤) }
        ensures again { OnPending result ⊤ }
        ensures same { OnPending result (Within {A = T} (λ _ _. ⊤) (λ _ _. ⊤)) }
        ensures registered { OnPending result (Covers cx.new (λ s. s ≡ stream_source self.new)) }
        ensures kept { Keeps cx.old cx.new }
        ensures received { IfReady result (λ o. IfSome o (λ m.
            HasReceived H.relations (stream_pass self.old) (stream_pass self.new) (Ok m))) }
        ensures refused { IfReady result (λ o. IfNone o (IsSome (stream_pass self.old)
            → stream_is_over self.old ≡ false
            → StreamRefused H.relations (stream_pass self.old) (stream_pass self.new) (stream_fault self.new))) }
        ensures over { stream_is_over self.old ≡ true → (result ≡ Poll.Ready None)
            × (stream_fault self.new ≡ stream_fault self.old) × (stream_pass self.new ≡ stream_pass self.old) }
        ensures ends { IfReady result (λ o. IfNone o (stream_is_over self.new ≡ true)) }
        ensures goes_on { OnPending result (stream_is_over self.new ≡ false) }
        ensures further { IfReady result (λ o. IfSome o (λ _. stream_is_over self.new ≡ false)) }
        ensures stays { OnPending result (stream_pass self.new ≡ stream_pass self.old) }
    {
        if self.fault.is_some() {
            return Poll::Ready(None);
        }
        match self.receiving.poll(cx) {
            Poll::Pending => Poll::Pending,
            Poll::Ready(Some(received)) => Poll::Ready(self.take(received)),
            Poll::Ready(None) => {
                self.fault = Some(ReceiveError::Finished);
                Poll::Ready(None)
            },
        }
    }
}

impl<T: Drop, H: History<T>> fmt::Debug for ReceiveStream<'_, T, H> {
    ghost debug_output = { λ _. Some (codes "ReceiveStream { .. }") };

    fn fmt<W: fmt::Write>(&self, f: &mut fmt::Formatter<W>) -> fmt::Result {
        f.write_str("ReceiveStream { .. }")
    }
}
