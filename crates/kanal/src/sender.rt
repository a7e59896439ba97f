//! The sender of a channel for threads: the sender for tasks, by `Deref`, with the calls that wait.
//!
//! Nothing is done here but handing on. Where a call is refused its message is dropped, but for the call that is
//! lent an option.
ghost use Rattle.std.specs.Prelude.{◌≡◌, ◌≢◌, Err, IfErr, IfSome, IsSome, None, Ok, Some, codes};
ghost use Rattle.std.specs.Duration.{as_nanos};
ghost use Rattle.kanal.specs.Handles.{Clones, sender_for_tasks};
ghost use Rattle.kanal_events.specs.declared.event.Side.{Side};
ghost use Rattle.kanal_channel.specs.Deadlines.{GivesBack};
ghost use Rattle.kanal_core.specs.declared.error.SendErrorTimeout.{SendErrorTimeout};
ghost use Rattle.kanal_events.specs.declared.event.Event.{Event};
ghost use Rattle.kanal_state.specs.Handles.{Sends, SendsInTime};
ghost use Rattle.kanal_state.specs.Refusals.{StartedNoWait};

use crate::async_sender::AsyncSender;
use kanal_channel::Clock;
use kanal_core::error::{SendError, SendErrorTimeout, TooMany};
use kanal_state::{CallContext, History, NoHistory};
use std::ops::Deref;
use std::time::Duration;
use std::{fmt, time};

/// Sends messages to a channel.
///
/// It is an `AsyncSender` whose calls wait where that one's are futures. The other calls are those of
/// `AsyncSender`, by `Deref`: `try_send` and its kin, the questions, `seal` and `close`.
///
/// The channel's send side is gone when the last sender of either kind was dropped. A drop never waits.
#[derive(Drop)]
pub struct Sender<T, H: History<T> = NoHistory> {
    inner: AsyncSender<T, H>,
}

impl<T: Drop, H: History<T>> Sender<T, H> {
    pub(crate) fn new(inner: AsyncSender<T, H>) -> Self
        ensures same { sender_for_tasks result ≡ inner }
    {
        Sender { inner }
    }

    /// The same sender for tasks: the counts stay. It never waits.
    ///
    /// # Examples
    /// ```text
    /// sender.to_async().sender_count(&rt)   answers  1   for a new channel
    /// ```
    pub fn to_async(self) -> AsyncSender<T, H>
        ensures same { result ≡ sender_for_tasks self }
    {
        let Sender { inner } = self;
        inner
    }

    /// This sender as one for tasks: the counts stay. It never waits.
    ///
    /// # Examples
    /// ```text
    /// sender.as_async().send(7)   answers  a future that sends 7
    /// ```
    pub fn as_async(&self) -> &AsyncSender<T, H>
        ensures same { result.now ≡ sender_for_tasks self.now }
    {
        &self.inner
    }

    /// Sends the message. Where the buffer is full it waits until a receiver takes the message, or
    /// the channel ends; and it waits for the lock.
    ///
    /// # Errors
    /// `Closed` where the channel was closed, `ReceiveClosed` where the last receiver was dropped,
    /// `Sealed` after a `seal`, `NoMemory` where memory was refused, and `TooMany` where the tickets
    /// are used up. The message is dropped then.
    ///
    /// # Examples
    /// ```text
    /// sender.send(&rt, 7)   answers  Ok(())                      in a channel with a place
    /// sender.send(&rt, 7)   answers  Err(SendError::Closed)      after a close
    /// ```
    pub fn send<R: CallContext<H::Pass>>(&self, rt: R, message: T) -> Result<(), SendError>
        ensures sent { Sends H.relations (R.before rt) (R.after rt) message result }
    {
        self.inner.as_sync().send(rt, message)
    }

    /// Sends the message. Where the buffer is full it waits until a receiver takes the message, the channel ends, or
    /// the clock reaches the deadline, which is its moment now and the duration together; and it waits for the lock.
    ///
    /// # Errors
    /// As `send`, and `Timeout` where the deadline came first, and `DeadlineOutOfRange` where no moment
    /// is so late; the channel was not looked at then. The message is dropped then.
    ///
    /// # Examples
    /// ```text
    /// sender.send_timeout(&rt, 7, Duration::from_millis(50), &SystemClock::new(&rt))
    ///     answers  Err(SendErrorTimeout::Timeout)   where no place came within 50 ms
    /// ```
    pub fn send_timeout<R: CallContext<H::Pass>, C: Clock>(
        &self,
        rt: R,
        message: T,
        duration: Duration,
        clock: &C,
    ) -> Result<(), SendErrorTimeout>
    where
        R::Runtime: time::Clock,
        ensures sent { SendsInTime H.relations (R.before rt) (R.after rt) (C.answers clock.now) (as_nanos duration)
            message result }
    {
        self.inner
            .as_sync()
            .send_timeout(rt, message, duration, clock)
    }

    /// Sends the option's message as `send_timeout`, and empties the option exactly where it was sent.
    ///
    /// The caller knows that the option holds a message.
    ///
    /// # Errors
    /// As `send_timeout`. The option holds the message then: clause `back` says that it is what the refusal, the end of
    /// the wait or its withdrawal gave back.
    ///
    /// # Examples
    /// ```text
    /// let mut option = Some(7);
    /// sender.send_option_timeout(&rt, &mut option, Duration::from_nanos(1), &clock)
    ///     answers  Err(SendErrorTimeout::Timeout)   in a full channel
    /// option   is  Some(7)
    /// ```
    pub fn send_option_timeout<R: CallContext<H::Pass>, C: Clock>(
        &self,
        rt: R,
        option: &mut Option<T>,
        duration: Duration,
        clock: &C,
    ) -> Result<(), SendErrorTimeout>
    where
        R::Runtime: time::Clock,
        requires { IsSome option.old }
        ensures sends { IfSome option.old (λ m. SendsInTime H.relations (R.before rt) (R.after rt) (C.answers clock.now)
            (as_nanos duration) m result) }
        ensures sent { result ≡ Ok tt → option.new ≡ None }
        ensures kept { IfErr result (λ e. StartedNoWait e → option.new ≡ option.old) }
        ensures back { result ≢ Err SendErrorTimeout.DeadlineOutOfRange → IfSome option.old (λ m.
            GivesBack H.relations (R.before rt) (R.after rt) (Event.Send m) option.new) }
    {
        self.inner
            .as_sync()
            .send_option_timeout(rt, option, duration, clock)
    }

    /// One more sender of the channel. Where no sender is left it stays so, and the answer is still
    /// a sender. It waits for the lock.
    ///
    /// # Errors
    /// `TooMany` where there are `u32::MAX` senders, or as many handles as may be.
    ///
    /// # Examples
    /// ```text
    /// let other = sender.clone(&rt)?;
    /// sender.sender_count(&rt)   answers  2   where it answered 1 before
    /// ```
    pub fn clone<R: CallContext<H::Pass>>(&self, rt: R) -> Result<Self, TooMany>
        ensures counted { Clones H.relations (R.before rt) (R.after rt) Side.Tx result }
    {
        self.inner.clone_sync(rt)
    }

    /// One more sender of the channel, for tasks. It counts as `clone`, and waits for the lock.
    ///
    /// # Errors
    /// As `clone`.
    ///
    /// # Examples
    /// ```text
    /// let other = sender.clone_async(&rt)?;
    /// other.sender_count(&rt)   answers  2   where it answered 1 before
    /// ```
    pub fn clone_async<R: CallContext<H::Pass>>(&self, rt: R) -> Result<AsyncSender<T, H>, TooMany>
        ensures counted { Clones H.relations (R.before rt) (R.after rt) Side.Tx result }
    {
        self.inner.clone(rt)
    }
}

impl<T: Drop, H: History<T>> fmt::Debug for Sender<T, H> {
    ghost debug_output = { λ _. Some (codes "Sender { .. }") };

    fn fmt<W: fmt::Write>(&self, f: &mut fmt::Formatter<W>) -> fmt::Result {
        f.write_str("Sender { .. }")
    }
}

/// The calls that it shares with the sender for tasks.
impl<T: Drop, H: History<T>> Deref for Sender<T, H> {
    type Target = AsyncSender<T, H>;

    ghost deref_gives = { λ handle tasks. tasks ≡ sender_for_tasks handle };

    fn deref(&self) -> &AsyncSender<T, H> {
        &self.inner
    }
}
