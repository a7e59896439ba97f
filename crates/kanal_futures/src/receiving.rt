//! Receiving in a task: the case of a call that is asked with nothing.
ghost use Rattle.std.specs.Prelude.{◌≡◌, ◌∷◌, [], IfOk, Some, codes, false};
ghost use Rattle.kanal_state.specs.Handles.{Receives};
ghost use Rattle.kanal_futures.specs.Futures.{call_begun, call_source};
ghost use Rattle.kanal_futures.specs.Plain.{is_over};
ghost use Rattle.kanal_futures.specs.Streams.{HaveReceived};
ghost use Rattle.kanal_futures.specs.Tasks.{passes};

use crate::answer::TaskAnswer;
use crate::call::TaskCall;
use crate::plain::PlainFuture;
use kanal_channel::{OfReceive, Shared};
use kanal_core::error::ReceiveError;
use kanal_state::{History, NoHistory};
use std::collections::VecDeque;
use std::fmt;

/// What a receive in a task came to: the answer, and the pass. Contracts see what the pass was at first, what
/// was asked, which is nothing, the pass, and the answer.
pub type ReceiveAnswer<T, H> = TaskAnswer<T, H, (), OfReceive>;

impl<T: Drop, H: History<T>> ReceiveAnswer<T, H> {
    /// The pass, and the answer.
    ///
    /// # Examples
    /// ```text
    /// let (pass, answer) = received.into_parts();
    /// answer   is  Ok(7)   where 7 was sent
    /// ```
    pub fn into_parts(self) -> (H::Pass, Result<T, ReceiveError>)
        ensures received { Receives H.relations self.0 result.0 result.1 }
        ensures got { IfOk result.1 (λ message. H.exchanges self.0 result.0 [] (message ∷ [])) }
        ensures pass { result.0 ≡ self.2 }
        ensures answer { result.1 ≡ self.3 }
    {
        self.apart()
    }
}

/// Receives a message in a task, by the pass that it carries. It is polled and dropped as a `ReceiveFuture`; after a
/// drop the pass is gone.
pub type Receiving<'a, T, H> = TaskCall<'a, T, H, (), OfReceive>;

impl<T: Drop, H: History<T>> Receiving<'_, T, H> {
    /// Receives what lies in the buffer, oldest first, while there is room for it, and where no wait was started.
    #[inline]
    pub(crate) fn recv_ready(&mut self, into: &mut VecDeque<T>)
        requires empty { into.old.items ≡ [] }
        ensures received { HaveReceived H.relations (passes (call_begun self.old)) into.new.items
            (passes (call_begun self.new)) }
        ensures source { call_source self.new ≡ call_source self.old }
    {
        let Some((pass, asked)) = self.take_fresh() else {
            return;
        };
        let mut pass = pass;
        self.shared().recv_ready(&mut pass, into);
        self.put_fresh(pass, asked);
    }
}

/// A future that receives a message by this pass. It does nothing before its first poll.
///
/// # Examples
/// ```text
/// let received = block_on(&rt, recv_in_task(&shared, pass))?;
/// received.into_parts()   answers  the pass and Ok(7)   where 7 was sent
/// ```
pub fn recv_in_task<T: Drop, H: History<T>>(
    shared: &Shared<T, H>,
    pass: H::Pass,
) -> Receiving<'_, T, H>
    ensures fresh { call_begun result ≡ Some (pass, tt) }
{
    TaskCall::new(shared, pass, ())
}

impl<T: Drop, H: History<T>> fmt::Debug for Receiving<'_, T, H> {
    ghost debug_output = { λ _. Some (codes "Receiving { .. }") };

    fn fmt<W: fmt::Write>(&self, f: &mut fmt::Formatter<W>) -> fmt::Result {
        f.write_str("Receiving { .. }")
    }
}

/// Receives a message, as `AsyncReceiver::recv` answers it.
///
/// A poll never waits. The first one that gets the lock takes the front message; where there is
/// none, the receiver waits until a message is sent or the channel ends. Where another holds the lock
/// the poll makes no step and asks for another poll: at once where the channel has no buffer, and else
/// after a pause, which is longer with each such poll in a row.
///
/// A drop never waits, too: a started wait is withdrawn, and a message that was handed over
/// before is dropped. After its answer the future answers `Err(ReceiveError::Finished)`.
///
/// # Errors
/// `Closed` where the channel was closed or no receiver is left, `SendClosed` where there is no
/// message and no sender is left, `NoMemory` where memory was refused, `TooMany` where the tickets
/// are used up, and `Finished` after the first answer.
pub type ReceiveFuture<'a, T, H = NoHistory> = PlainFuture<'a, T, H, (), OfReceive>;

/// A future that receives a message. It does nothing before its first poll, and never waits.
/// Example: `block_on(&rt, receive_future(&shared))` gives `Ok(7)` where 7 was sent.
pub fn receive_future<T: Drop, H: History<T, Pass = ()>>(
    shared: &Shared<T, H>,
) -> ReceiveFuture<'_, T, H>
    ensures fresh { is_over result ≡ false }
{
    PlainFuture::new(shared, (), ())
}

impl<T: Drop, H: History<T>> fmt::Debug for ReceiveFuture<'_, T, H> {
    ghost debug_output = { λ _. Some (codes "ReceiveFuture { .. }") };

    fn fmt<W: fmt::Write>(&self, f: &mut fmt::Formatter<W>) -> fmt::Result {
        f.write_str("ReceiveFuture { .. }")
    }
}
