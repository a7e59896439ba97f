//! Sending in a task: the case of a call that is asked with a message.
ghost use Rattle.std.specs.Prelude.{◌≡◌, ◌∷◌, [], IfOk, Some, codes};
ghost use Rattle.kanal_state.specs.Handles.{Sends};
ghost use Rattle.kanal_futures.specs.Futures.{call_begun};
ghost use Rattle.kanal_futures.specs.Plain.{message_in};

use crate::answer::TaskAnswer;
use crate::call::{SuspendedCall, TaskCall};
use crate::plain::PlainFuture;
use kanal_channel::{OfSend, Shared};
use kanal_core::error::SendError;
use kanal_state::{History, NoHistory};
use std::fmt;

/// What a send in a task came to: the answer, and the pass. Contracts see what the pass was at first, the
/// message, the pass, and the answer.
pub type SendAnswer<T, H> = TaskAnswer<T, H, T, OfSend>;

impl<T: Drop, H: History<T>> SendAnswer<T, H> {
    /// The pass, and the answer.
    ///
    /// # Examples
    /// ```text
    /// let (pass, answer) = sent.into_parts();
    /// answer   is  Ok(())   in a channel with a place
    /// ```
    pub fn into_parts(self) -> (H::Pass, Result<(), SendError>)
        ensures sent { Sends H.relations self.0 result.0 self.1 result.1 }
        ensures put { IfOk result.1 (λ _. H.exchanges self.0 result.0 (self.1 ∷ []) []) }
        ensures pass { result.0 ≡ self.2 }
        ensures answer { result.1 ≡ self.3 }
    {
        self.apart()
    }
}

/// Sends a message in a task, by the pass that it carries. It is polled and dropped as a `SendFuture`; after a drop
/// the pass is gone.
pub type Sending<'a, T, H> = TaskCall<'a, T, H, T, OfSend>;

/// A send between two of its polls, apart from its channel.
pub type SuspendedSend<T, H> = SuspendedCall<T, H, T, OfSend>;

/// A future that sends the message by this pass. It does nothing before its first poll.
///
/// # Examples
/// ```text
/// let sent = block_on(&rt, send_in_task(&shared, pass, 7))?;
/// sent.into_parts()   answers  the pass and Ok(())   in a channel with a place
/// ```
pub fn send_in_task<T: Drop, H: History<T>>(
    shared: &Shared<T, H>,
    pass: H::Pass,
    message: T,
) -> Sending<'_, T, H>
    ensures fresh { call_begun result ≡ Some (pass, message) }
{
    TaskCall::new(shared, pass, message)
}

impl<T: Drop, H: History<T>> fmt::Debug for Sending<'_, T, H> {
    ghost debug_output = { λ _. Some (codes "Sending { .. }") };

    fn fmt<W: fmt::Write>(&self, f: &mut fmt::Formatter<W>) -> fmt::Result {
        f.write_str("Sending { .. }")
    }
}

/// Sends a message, as `AsyncSender::send` answers it.
///
/// A poll never waits. The first one that gets the lock offers the message; where there is no
/// place for it, the message waits in the line until a receiver takes it or the channel ends. Where
/// another holds the lock the poll makes no step and asks for another poll: at once where the channel
/// has no buffer, and else after a pause, which is longer with each such poll in a row.
///
/// A drop never waits, too: a message that waits is withdrawn and dropped. After its answer the
/// future answers `Err(SendError::Finished)`.
///
/// # Errors
/// `Closed` where the channel was closed, `ReceiveClosed` where the last receiver was dropped,
/// `Sealed` after a `seal`, `NoMemory` where memory was refused, `TooMany` where the tickets are
/// used up, and `Finished` after the first answer. The message is dropped then.
pub type SendFuture<'a, T, H = NoHistory> = PlainFuture<'a, T, H, T, OfSend>;

/// A future that sends the message. It does nothing before its first poll, and never waits.
/// Example: `block_on(&rt, send_future(&shared, 7))` gives `Ok(())` in a channel with a place.
pub fn send_future<T: Drop, H: History<T, Pass = ()>>(
    shared: &Shared<T, H>,
    message: T,
) -> SendFuture<'_, T, H>
    ensures fresh { message_in result ≡ Some message }
{
    PlainFuture::new(shared, (), message)
}

impl<T: Drop, H: History<T>> fmt::Debug for SendFuture<'_, T, H> {
    ghost debug_output = { λ _. Some (codes "SendFuture { .. }") };

    fn fmt<W: fmt::Write>(&self, f: &mut fmt::Formatter<W>) -> fmt::Result {
        f.write_str("SendFuture { .. }")
    }
}
