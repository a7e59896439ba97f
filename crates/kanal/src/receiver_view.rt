//! What a thread does with a receiver for tasks, without a handle of its own.
//!
//! A view is its receiver, by `Deref`, and adds the calls that wait where that one's are a future and a stream:
//! their bodies stand here alone. A view is not counted, and has no drop of its own.
ghost use Rattle.std.specs.Prelude.{◌≡◌, IsErrOf};
ghost use Rattle.std.specs.Duration.{as_nanos};
ghost use Rattle.kanal.specs.Handles.{viewed_receiver};
ghost use Rattle.kanal.specs.Messages.{ReceivesAll, ReceivesUntil};
ghost use Rattle.kanal_state.specs.Handles.{Receives, ReceivesInTime};

use crate::async_receiver::AsyncReceiver;
use crate::messages::{Messages, for_each, try_for_each};
use kanal_channel::Clock;
use kanal_core::error::{ReceiveError, ReceiveErrorTimeout};
use kanal_state::{CallContext, History, NoHistory};
use std::ops::Deref;
use std::sync::Wait;
use std::time;
use std::time::Duration;

/// A receiver for tasks, as a thread uses it.
///
/// Its calls wait where those of `AsyncReceiver` are futures and a stream. The other calls are those of its
/// `AsyncReceiver`, by `Deref`; so a clone through a view is one more receiver for tasks.
#[derive(Drop)]
pub struct ReceiverView<'a, T, H: History<T> = NoHistory> {
    pub(crate) receiver: &'a AsyncReceiver<T, H>,
}

impl<T: Drop, H: History<T>> ReceiverView<'_, T, H> {
    /// Receives the front message. Where there is none it waits until a message is sent, or the
    /// channel ends; and it waits for the lock.
    ///
    /// # Errors
    /// `Closed` where the channel was closed or no receiver is left, `SendClosed` where there is no message and no
    /// sender is left, `NoMemory` where memory for a wait was refused, and `TooMany` where the tickets are used up.
    ///
    /// # Examples
    /// ```text
    /// view.recv(&rt)   answers  Ok(7)                            where 7 was sent
    /// view.recv(&rt)   answers  Err(ReceiveError::SendClosed)    after the last sender's drop
    /// ```
    pub fn recv<R: CallContext<H::Pass>>(&self, rt: R) -> Result<T, ReceiveError>
        ensures received { Receives H.relations (R.before rt) (R.after rt) result }
    {
        let (rt, mut pass, end) = rt.enter();
        let answer = self.receiver.channel().recv(&rt, &mut pass);
        R::exit(end, pass);
        answer
    }

    /// Receives the front message. Where there is none it waits until a message is sent, the channel
    /// ends, or the clock reaches the deadline, which is its moment now and the duration together; and
    /// it waits for the lock. It reads the clock once more before it looks at the channel: a call that
    /// is late by then takes a message that is there, and is otherwise answered `Timeout`.
    ///
    /// # Errors
    /// As `recv`, and `Timeout` where the deadline came first, and `DeadlineOutOfRange` where no moment
    /// is so late; the channel was not looked at then.
    ///
    /// # Examples
    /// ```text
    /// view.recv_timeout(&rt, Duration::from_millis(50), &SystemClock::new(&rt))
    ///     answers  Err(ReceiveErrorTimeout::Timeout)   where nothing was sent within 50 ms
    /// ```
    pub fn recv_timeout<R: CallContext<H::Pass>, C: Clock>(
        &self,
        rt: R,
        duration: Duration,
        clock: &C,
    ) -> Result<T, ReceiveErrorTimeout>
    where
        R::Runtime: time::Clock,
        ensures received { ReceivesInTime H.relations (R.before rt) (R.after rt) (C.answers clock.now) (as_nanos duration)
            result }
    {
        let (rt, mut pass, end) = rt.enter();
        let answer = self
            .receiver
            .channel()
            .recv_timeout(&rt, &mut pass, duration, clock);
        R::exit(end, pass);
        answer
    }

    /// Hands each message that comes to the call, until no more come. Each receive waits as a `recv`
    /// does, and the call runs with the lock released.
    ///
    /// The answer is `Ok` exactly where it ended since no sender is left and nothing is in the line.
    ///
    /// # Errors
    /// As `recv`, but for `SendClosed`: `Closed` where the channel was closed, `NoMemory` where memory for a wait was
    /// refused, and `TooMany` where the tickets are used up. What was handed over before stays so.
    ///
    /// # Examples
    /// ```text
    /// view.for_each(&rt, |message| sum += message)   answers  Ok(())   after the last sender's drop
    /// ```
    pub fn for_each<R: CallContext<H::Pass>, F: FnMut(T)>(
        &self,
        rt: R,
        call: F,
    ) -> Result<(), ReceiveError>
        requires callable { F.IsAlwaysCallable call }
        ensures received { ReceivesAll H.relations F.FnMut (R.before rt) (R.after rt) call result }
        ensures ended { IsErrOf result ReceiveError.SendClosed → ⊥ }
    {
        for_each(rt, self.receiver, call)
    }

    /// Hands each message that comes to the call, until no more come or the call answers an error, which is
    /// handed on. Each receive waits as a `recv` does, and the call runs with the lock released.
    ///
    /// The answer is `Ok(Ok(()))` where it ended since no sender is left and nothing is in the line, and
    /// `Ok(Err(error))` where the call answered that error. The call owned its message then; what is still in
    /// the line stays there, and may be received.
    ///
    /// # Errors
    /// As `for_each`. What was handed over before stays so.
    ///
    /// # Examples
    /// ```text
    /// view.try_for_each(&rt, |line| parse(line))??   goes on until a line can't be parsed
    /// ```
    pub fn try_for_each<E: Drop, R: CallContext<H::Pass>, F: FnMut(T) -> Result<(), E>>(
        &self,
        rt: R,
        call: F,
    ) -> Result<Result<(), E>, ReceiveError>
        requires callable { F.IsAlwaysCallable call }
        ensures received { ReceivesUntil H.relations F.FnMut (R.before rt) (R.after rt) call result }
        ensures ended { IsErrOf result ReceiveError.SendClosed → ⊥ }
    {
        try_for_each(rt, self.receiver, call)
    }
}

impl<T: Drop, H: History<T, Pass = ()>> ReceiverView<'_, T, H> {
    /// The messages, one `recv` after the other, until one is refused. It keeps the runtime value, and
    /// does nothing else; each item waits as a `recv` does.
    ///
    /// The items end where a `recv` is refused, whatever the reason; a `recv` after the end tells it.
    ///
    /// # Examples
    /// ```text
    /// for message in view.iter(&rt) {
    ///     sum += message;
    /// }
    /// ```
    pub fn iter<'m, R: Wait>(&'m mut self, rt: &'m R) -> Messages<'m, T, R, H> {
        Messages::new(rt, self.receiver, ())
    }
}

/// The calls that it shares with the receiver for tasks.
impl<T: Drop, H: History<T>> Deref for ReceiverView<'_, T, H> {
    type Target = AsyncReceiver<T, H>;

    ghost deref_gives = { λ view handle. handle ≡ viewed_receiver view };

    fn deref(&self) -> &AsyncReceiver<T, H> {
        self.receiver
    }
}
