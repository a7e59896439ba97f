//! The receiver of a channel for threads.
//!
//! It is the receiver for tasks, by `Deref`, and adds the calls that wait where that one's are a future and a
//! stream, the clones and the conversions. Nothing is done here but handing on.
ghost use Rattle.std.specs.Prelude.{◌≡◌, IsErrOf, Some, codes};
ghost use Rattle.std.specs.Duration.{as_nanos};
ghost use Rattle.kanal.specs.Handles.{Clones, receiver_for_tasks};
ghost use Rattle.kanal.specs.Messages.{ReceivesAll, ReceivesUntil};
ghost use Rattle.kanal_events.specs.declared.event.Side.{Side};
ghost use Rattle.kanal_state.specs.Handles.{Receives, ReceivesInTime};

use crate::async_receiver::AsyncReceiver;
use crate::messages::{Messages, for_each, try_for_each};
use kanal_channel::Clock;
use kanal_core::error::{ReceiveError, ReceiveErrorTimeout, TooMany};
use kanal_state::{CallContext, History, NoHistory};
use std::ops::Deref;
use std::sync::Wait;
use std::time::Duration;
use std::{fmt, time};

/// Receives messages of a channel.
///
/// It is an `AsyncReceiver` whose calls wait where that one's are futures and a stream. The other calls are those of
/// `AsyncReceiver`, by `Deref`: `try_recv` and its kin, `drain_into`, the questions, `seal` and `close`.
///
/// The channel's receive side is gone when the last receiver of either kind was dropped. A drop never waits.
#[derive(Drop)]
pub struct Receiver<T, H: History<T> = NoHistory> {
    inner: AsyncReceiver<T, H>,
}

impl<T: Drop, H: History<T>> Receiver<T, H> {
    pub(crate) fn new(inner: AsyncReceiver<T, H>) -> Self
        ensures same { receiver_for_tasks result ≡ inner }
    {
        Receiver { inner }
    }

    /// The same receiver for tasks: the counts stay. It never waits.
    ///
    /// # Examples
    /// ```text
    /// receiver.to_async().receiver_count(&rt)   answers  1   for a new channel
    /// ```
    pub fn to_async(self) -> AsyncReceiver<T, H>
        ensures same { result ≡ receiver_for_tasks self }
    {
        let Receiver { inner } = self;
        inner
    }

    /// This receiver as one for tasks: the counts stay. It never waits.
    ///
    /// # Examples
    /// ```text
    /// receiver.as_async().recv()   answers  a future that receives a message
    /// ```
    pub fn as_async(&self) -> &AsyncReceiver<T, H>
        ensures same { result.now ≡ receiver_for_tasks self.now }
    {
        &self.inner
    }

    /// Receives the front message. Where there is none it waits until a message is sent, or the
    /// channel ends; and it waits for the lock.
    ///
    /// # Errors
    /// `Closed` where the channel was closed or no receiver is left, `SendClosed` where there is no message and no
    /// sender is left, `NoMemory` where memory for a wait was refused, and `TooMany` where the tickets are used up.
    ///
    /// # Examples
    /// ```text
    /// receiver.recv(&rt)   answers  Ok(7)                            where 7 was sent
    /// receiver.recv(&rt)   answers  Err(ReceiveError::SendClosed)    after the last sender's drop
    /// ```
    pub fn recv<R: CallContext<H::Pass>>(&self, rt: R) -> Result<T, ReceiveError>
        ensures received { Receives H.relations (R.before rt) (R.after rt) result }
    {
        self.inner.as_sync().recv(rt)
    }

    /// Receives the front message. Where there is none it waits until a message is sent, the channel
    /// ends, or the clock reaches the deadline, which is its moment now and the duration together; and
    /// it waits for the lock. It reads the clock once more before it looks at the channel: a call that
    /// is late by then takes a message that is there, and is otherwise answered `Timeout`.
    ///
    /// # Errors
    /// As `recv`, and `Timeout` where the deadline came first, and `DeadlineOutOfRange` where no moment
    /// is so late; the channel was not looked at then.
    ///
    /// # Examples
    /// ```text
    /// receiver.recv_timeout(&rt, Duration::from_millis(50), &SystemClock::new(&rt))
    ///     answers  Err(ReceiveErrorTimeout::Timeout)   where nothing was sent within 50 ms
    /// ```
    pub fn recv_timeout<R: CallContext<H::Pass>, C: Clock>(
        &self,
        rt: R,
        duration: Duration,
        clock: &C,
    ) -> Result<T, ReceiveErrorTimeout>
    where
        R::Runtime: time::Clock,
        ensures received { ReceivesInTime H.relations (R.before rt) (R.after rt) (C.answers clock.now) (as_nanos duration)
            result }
    {
        self.inner.as_sync().recv_timeout(rt, duration, clock)
    }

    /// Hands each message that comes to the call, until no more come. Each receive waits as a `recv`
    /// does, and the call runs with the lock released.
    ///
    /// The answer is `Ok` exactly where it ended since no sender is left and nothing is in the line.
    ///
    /// # Errors
    /// As `recv`, but for `SendClosed`: `Closed` where the channel was closed, `NoMemory` where memory for a wait was
    /// refused, and `TooMany` where the tickets are used up. What was handed over before stays so.
    ///
    /// # Examples
    /// ```text
    /// receiver.for_each(&rt, |message| sum += message)   answers  Ok(())   after the last sender's drop
    /// ```
    pub fn for_each<R: CallContext<H::Pass>, F: FnMut(T)>(
        &self,
        rt: R,
        call: F,
    ) -> Result<(), ReceiveError>
        requires callable { F.IsAlwaysCallable call }
        ensures received { ReceivesAll H.relations F.FnMut (R.before rt) (R.after rt) call result }
        ensures ended { IsErrOf result ReceiveError.SendClosed → ⊥ }
    {
        for_each(rt, &self.inner, call)
    }

    /// Hands each message that comes to the call, until no more come or the call answers an error, which is
    /// handed on. Each receive waits as a `recv` does, and the call runs with the lock released.
    ///
    /// The answer is `Ok(Ok(()))` where it ended since no sender is left and nothing is in the line, and
    /// `Ok(Err(error))` where the call answered that error. The call owned its message then; what is still in
    /// the line stays there, and may be received.
    ///
    /// # Errors
    /// As `for_each`. What was handed over before stays so.
    ///
    /// # Examples
    /// ```text
    /// receiver.try_for_each(&rt, |line| parse(line))??   goes on until a line can't be parsed
    /// ```
    pub fn try_for_each<E: Drop, R: CallContext<H::Pass>, F: FnMut(T) -> Result<(), E>>(
        &self,
        rt: R,
        call: F,
    ) -> Result<Result<(), E>, ReceiveError>
        requires callable { F.IsAlwaysCallable call }
        ensures received { ReceivesUntil H.relations F.FnMut (R.before rt) (R.after rt) call result }
        ensures ended { IsErrOf result ReceiveError.SendClosed → ⊥ }
    {
        try_for_each(rt, &self.inner, call)
    }

    /// One more receiver of the channel. Where no receiver is left it stays so, and the answer is
    /// still a receiver. It waits for the lock.
    ///
    /// # Errors
    /// `TooMany` where there are `u32::MAX` receivers, or as many handles as may be.
    ///
    /// # Examples
    /// ```text
    /// let other = receiver.clone(&rt)?;
    /// receiver.receiver_count(&rt)   answers  2   where it answered 1 before
    /// ```
    pub fn clone<R: CallContext<H::Pass>>(&self, rt: R) -> Result<Self, TooMany>
        ensures counted { Clones H.relations (R.before rt) (R.after rt) Side.Rx result }
    {
        self.inner.clone_sync(rt)
    }

    /// One more receiver of the channel, for tasks. It counts as `clone`, and waits for the lock.
    ///
    /// # Errors
    /// As `clone`.
    ///
    /// # Examples
    /// ```text
    /// let other = receiver.clone_async(&rt)?;
    /// other.receiver_count(&rt)   answers  2   where it answered 1 before
    /// ```
    pub fn clone_async<R: CallContext<H::Pass>>(
        &self,
        rt: R,
    ) -> Result<AsyncReceiver<T, H>, TooMany>
        ensures counted { Clones H.relations (R.before rt) (R.after rt) Side.Rx result }
    {
        self.inner.clone(rt)
    }
}

impl<T: Drop, H: History<T, Pass = ()>> Receiver<T, H> {
    /// The messages, one `recv` after the other, until one is refused. It keeps the runtime value, and
    /// does nothing else; each item waits as a `recv` does.
    ///
    /// The items end where a `recv` is refused, whatever the reason; a `recv` after the end tells it.
    ///
    /// # Examples
    /// ```text
    /// for message in receiver.iter(&rt) {
    ///     sum += message;
    /// }
    /// ```
    pub fn iter<'m, R: Wait>(&'m mut self, rt: &'m R) -> Messages<'m, T, R, H> {
        Messages::new(rt, &self.inner, ())
    }
}

impl<T: Drop, H: History<T>> fmt::Debug for Receiver<T, H> {
    ghost debug_output = { λ _. Some (codes "Receiver { .. }") };

    fn fmt<W: fmt::Write>(&self, f: &mut fmt::Formatter<W>) -> fmt::Result {
        f.write_str("Receiver { .. }")
    }
}

/// The calls that it shares with the receiver for tasks.
impl<T: Drop, H: History<T>> Deref for Receiver<T, H> {
    type Target = AsyncReceiver<T, H>;

    ghost deref_gives = { λ handle tasks. tasks ≡ receiver_for_tasks handle };

    fn deref(&self) -> &AsyncReceiver<T, H> {
        &self.inner
    }
}
