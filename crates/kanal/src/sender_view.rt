//! What a thread does with a sender for tasks, without a handle of its own.
//!
//! A view is its sender, by `Deref`, and adds the calls that wait where that one's is a future: their bodies
//! stand here alone. A view is not counted, and has no drop of its own.
ghost use Rattle.std.specs.Prelude.{◌≡◌, ◌≢◌, Err, IfErr, IfSome, IsSome, None, Ok};
ghost use Rattle.std.specs.Duration.{as_nanos};
ghost use Rattle.kanal.specs.Handles.{viewed_sender};
ghost use Rattle.kanal_channel.specs.Deadlines.{GivesBack};
ghost use Rattle.kanal_core.specs.declared.error.SendErrorTimeout.{SendErrorTimeout};
ghost use Rattle.kanal_events.specs.declared.event.Event.{Event};
ghost use Rattle.kanal_state.specs.Handles.{Sends, SendsInTime};
ghost use Rattle.kanal_state.specs.Refusals.{StartedNoWait};

use crate::async_sender::AsyncSender;
use kanal_channel::Clock;
use kanal_core::error::{SendError, SendErrorTimeout};
use kanal_state::{CallContext, History, NoHistory};
use std::ops::Deref;
use std::time;
use std::time::Duration;

/// A sender for tasks, as a thread uses it.
///
/// Its calls wait where those of `AsyncSender` are futures. The other calls are those of its `AsyncSender`, by
/// `Deref`; so a clone through a view is one more sender for tasks.
#[derive(Drop)]
pub struct SenderView<'a, T, H: History<T> = NoHistory> {
    pub(crate) sender: &'a AsyncSender<T, H>,
}

impl<T: Drop, H: History<T>> SenderView<'_, T, H> {
    /// Sends the message. Where the buffer is full it waits until a receiver takes the message, or
    /// the channel ends; and it waits for the lock.
    ///
    /// # Errors
    /// `Closed` where the channel was closed, `ReceiveClosed` where the last receiver was dropped,
    /// `Sealed` after a `seal`, `NoMemory` where memory was refused, and `TooMany` where the tickets
    /// are used up. The message is dropped then.
    ///
    /// # Examples
    /// ```text
    /// view.send(&rt, 7)   answers  Ok(())                      in a channel with a place
    /// view.send(&rt, 7)   answers  Err(SendError::Closed)      after a close
    /// ```
    pub fn send<R: CallContext<H::Pass>>(&self, rt: R, message: T) -> Result<(), SendError>
        ensures sent { Sends H.relations (R.before rt) (R.after rt) message result }
    {
        let (rt, mut pass, end) = rt.enter();
        let answer = self.sender.channel().send(&rt, &mut pass, message);
        R::exit(end, pass);
        answer
    }

    /// Sends the message. Where the buffer is full it waits until a receiver takes the message, the channel ends, or
    /// the clock reaches the deadline, which is its moment now and the duration together; and it waits for the lock.
    ///
    /// # Errors
    /// As `send`, and `Timeout` where the deadline came first, and `DeadlineOutOfRange` where no moment
    /// is so late; the channel was not looked at then. The message is dropped then.
    ///
    /// # Examples
    /// ```text
    /// view.send_timeout(&rt, 7, Duration::from_millis(50), &SystemClock::new(&rt))
    ///     answers  Err(SendErrorTimeout::Timeout)   where no place came within 50 ms
    /// ```
    pub fn send_timeout<R: CallContext<H::Pass>, C: Clock>(
        &self,
        rt: R,
        message: T,
        duration: Duration,
        clock: &C,
    ) -> Result<(), SendErrorTimeout>
    where
        R::Runtime: time::Clock,
        ensures sent { SendsInTime H.relations (R.before rt) (R.after rt) (C.answers clock.now) (as_nanos duration)
            message result }
    {
        let (rt, mut pass, end) = rt.enter();
        let answer = self
            .sender
            .channel()
            .send_timeout(&rt, &mut pass, message, duration, clock);
        R::exit(end, pass);
        answer
    }

    /// Sends the option's message as `send_timeout`, and empties the option exactly where it was sent.
    ///
    /// The caller knows that the option holds a message.
    ///
    /// # Errors
    /// As `send_timeout`. The option holds the message then: clause `back` says that it is what the refusal, the end of
    /// the wait or its withdrawal gave back.
    ///
    /// # Examples
    /// ```text
    /// let mut option = Some(7);
    /// view.send_option_timeout(&rt, &mut option, Duration::from_nanos(1), &clock)
    ///     answers  Err(SendErrorTimeout::Timeout)   in a full channel
    /// option   is  Some(7)
    /// ```
    pub fn send_option_timeout<R: CallContext<H::Pass>, C: Clock>(
        &self,
        rt: R,
        option: &mut Option<T>,
        duration: Duration,
        clock: &C,
    ) -> Result<(), SendErrorTimeout>
    where
        R::Runtime: time::Clock,
        requires { IsSome option.old }
        ensures sends { IfSome option.old (λ m. SendsInTime H.relations (R.before rt) (R.after rt) (C.answers clock.now)
            (as_nanos duration) m result) }
        ensures sent { result ≡ Ok tt → option.new ≡ None }
        ensures kept { IfErr result (λ e. StartedNoWait e → option.new ≡ option.old) }
        ensures back { result ≢ Err SendErrorTimeout.DeadlineOutOfRange → IfSome option.old (λ m.
            GivesBack H.relations (R.before rt) (R.after rt) (Event.Send m) option.new) }
    {
        let (rt, mut pass, end) = rt.enter();
        let answer = self
            .sender
            .channel()
            .send_option_timeout(&rt, &mut pass, option, duration, clock);
        R::exit(end, pass);
        answer
    }
}

/// The calls that it shares with the sender for tasks.
impl<T: Drop, H: History<T>> Deref for SenderView<'_, T, H> {
    type Target = AsyncSender<T, H>;

    ghost deref_gives = { λ view handle. handle ≡ viewed_sender view };

    fn deref(&self) -> &AsyncSender<T, H> {
        self.sender
    }
}
