//! The sender of a channel for tasks, over which the sender for threads and the view are made.
//!
//! Calls are generic in the caller's pass; a call that takes no caller is made by the pass of no content.
ghost use Rattle.std.specs.Prelude.{◌≡◌, ◌≢◌, [], IfSome, IsSome, None, Ok, Some, true, codes};
ghost use Rattle.kanal.specs.Handles.{Clones, handle_of_sender, sender_for_tasks, viewed_sender};
ghost use Rattle.kanal.specs.Sends.{all_begun, all_held, all_ready, all_stream};
ghost use Rattle.kanal_events.specs.declared.event.Side.{Side};
ghost use Rattle.kanal_futures.specs.Plain.{message_in};
ghost use Rattle.kanal_state.specs.Handles.{TriesToSend, TriesToSendNow};

use crate::handle::Handle;
use crate::send_all::{Ready, SendAll, SendStage};
use crate::sender::Sender;
use crate::sender_view::SenderView;
use futures::Stream;
use kanal_channel::Shared;
use kanal_core::error::{SendError, TooMany};
use kanal_futures::{SendFuture, send_future};
use kanal_state::{CallContext, CountedSender, History, NoHistory, SendSide};
use std::collections::VecDeque;
use std::fmt;
use std::ops::Deref;
use std::sync::{Arc, Wait};

/// Sends messages to a channel from a task.
///
/// The channel's send side is gone when the last sender of either kind was dropped. A drop never waits.
#[derive(Drop)]
pub struct AsyncSender<T, H: History<T> = NoHistory> {
    handle: Handle<T, H, SendSide>,
}

impl<T: Drop, H: History<T>> AsyncSender<T, H> {
    pub(crate) fn new(shared: Arc<Shared<T, H>>, counted: CountedSender) -> Self {
        AsyncSender {
            handle: Handle::new(shared, counted),
        }
    }

    /// One more sender of the channel, as a call of this pass. Where no sender is left it stays so, and the
    /// answer is still a sender. It waits for the lock.
    ///
    /// # Errors
    /// `TooMany` where there are `u32::MAX` senders, which the pass is told, or as many handles as may be, where no
    /// call is made. Nothing is counted then.
    ///
    /// # Examples
    /// ```text
    /// let other = sender.clone_by(&rt, &mut pass)?;
    /// ```
    pub fn clone_by<R: Wait>(&self, rt: &R, pass: &mut H::Pass) -> Result<Self, TooMany>
        ensures counted { Clones H.relations pass.old pass.new Side.Tx result }
    {
        Ok(AsyncSender {
            handle: self.handle.one_more(rt, pass)?,
        })
    }

    /// The same sender for threads: the counts stay. It never waits.
    ///
    /// # Examples
    /// ```text
    /// sender.to_sync().sender_count(&rt)   answers  1   for a new channel
    /// ```
    pub fn to_sync(self) -> Sender<T, H>
        ensures same { sender_for_tasks result ≡ self }
    {
        Sender::new(self)
    }

    /// What a thread does with this sender: the counts stay. It never waits.
    ///
    /// # Examples
    /// ```text
    /// sender.as_sync().send(&rt, 7)   answers  Ok(())   in a channel with a place
    /// ```
    pub fn as_sync(&self) -> SenderView<'_, T, H>
        ensures same { viewed_sender result ≡ self.now }
    {
        SenderView { sender: self }
    }

    /// Sends the message where there is a place for it. `Ok(false)` says that there is none, and the
    /// message was dropped. It waits for the lock.
    ///
    /// # Errors
    /// `Closed` where the channel was closed, `ReceiveClosed` where the last receiver was dropped,
    /// `Sealed` after a `seal`, and `NoMemory` where memory was refused. The message is dropped then.
    ///
    /// # Examples
    /// ```text
    /// sender.try_send(&rt, 1)   answers  Ok(true)    in a new bounded channel for one
    /// sender.try_send(&rt, 2)   answers  Ok(false)   after that
    /// ```
    pub fn try_send<R: CallContext<H::Pass>>(&self, rt: R, message: T) -> Result<bool, SendError>
        ensures sent { TriesToSend H.relations (R.before rt) (R.after rt) message result }
    {
        let (rt, mut pass, end) = rt.enter();
        let answer = self.channel().try_send(&rt, &mut pass, message);
        R::exit(end, pass);
        answer
    }

    /// Sends the option's message where there is a place for it, and empties the option exactly
    /// then. It waits for the lock.
    ///
    /// The caller knows that the option holds a message.
    ///
    /// # Errors
    /// As `try_send`. The option holds the same message then.
    ///
    /// # Examples
    /// ```text
    /// let mut option = Some(1);
    /// sender.try_send_option(&rt, &mut option)   answers  Ok(false)   at capacity 0
    /// option   is  Some(1)
    /// ```
    pub fn try_send_option<R: CallContext<H::Pass>>(
        &self,
        rt: R,
        option: &mut Option<T>,
    ) -> Result<bool, SendError>
        requires { IsSome option.old }
        ensures sends { IfSome option.old (λ m. TriesToSend H.relations (R.before rt) (R.after rt) m result) }
        ensures sent { result ≡ Ok true → option.new ≡ None }
        ensures kept { result ≢ Ok true → option.new ≡ option.old }
    {
        let (rt, mut pass, end) = rt.enter();
        let answer = self.channel().try_send_option(&rt, &mut pass, option);
        R::exit(end, pass);
        answer
    }

    /// One more sender of the channel. Where no sender is left it stays so, and the answer is still
    /// a sender. It waits for the lock.
    ///
    /// # Errors
    /// `TooMany` where there are `u32::MAX` senders, or as many handles as may be.
    ///
    /// # Examples
    /// ```text
    /// let other = sender.clone(&rt)?;
    /// sender.sender_count(&rt)   answers  2   where it answered 1 before
    /// ```
    pub fn clone<R: CallContext<H::Pass>>(&self, rt: R) -> Result<Self, TooMany>
        ensures counted { Clones H.relations (R.before rt) (R.after rt) Side.Tx result }
    {
        let (rt, mut pass, end) = rt.enter();
        let answer = self.clone_by(&rt, &mut pass);
        R::exit(end, pass);
        answer
    }

    /// One more sender of the channel, for threads. It counts as `clone`, and waits for the lock.
    ///
    /// # Errors
    /// As `clone`.
    ///
    /// # Examples
    /// ```text
    /// let other = sender.clone_sync(&rt)?;
    /// other.sender_count(&rt)   answers  2   where it answered 1 before
    /// ```
    pub fn clone_sync<R: CallContext<H::Pass>>(&self, rt: R) -> Result<Sender<T, H>, TooMany>
        ensures counted { Clones H.relations (R.before rt) (R.after rt) Side.Tx result }
    {
        let inner = self.clone(rt)?;
        Ok(inner.to_sync())
    }
}

impl<T: Drop, H: History<T, Pass = ()>> AsyncSender<T, H> {
    /// A future that sends the message. It holds the message and does nothing before its first poll; one
    /// that is dropped before that drops the message, which was never in the channel. Neither this call
    /// nor a poll waits for anybody.
    ///
    /// The future answers `Ok(())` once a receiver has the message or the buffer holds it.
    ///
    /// # Errors
    /// The future answers `Closed` where the channel was closed, `ReceiveClosed` where the last receiver
    /// was dropped, `Sealed` after a `seal`, `NoMemory` where memory was refused, and `TooMany` where the
    /// tickets of waits are used up. The message is dropped then. After its answer it answers `Finished`.
    ///
    /// # Examples
    /// ```text
    /// block_on(&rt, sender.send(7))   gives  Ok(())                   in a channel with a place
    /// block_on(&rt, sender.send(7))   gives  Err(SendError::Closed)   after a close
    /// ```
    pub fn send(&self, message: T) -> SendFuture<'_, T, H>
        ensures message { message_in result ≡ Some message }
    {
        send_future(self.channel(), message)
    }

    /// A future that owns this sender. It sends the stream's items in order, as many in one poll as come and go in, and
    /// at the stream's end drops the sender. In one taking of the lock it sends up to 32, which it takes from the stream
    /// before: no more than there were places for. Neither this call nor a poll waits for anybody. A list, or what any
    /// iterator gives, is a stream by `stream::iter`.
    ///
    /// The future answers `Ok(())` once the stream has ended and all is sent. One that is dropped before has sent a
    /// beginning of it.
    ///
    /// # Errors
    /// As `send`. The items before the refused one were sent; that and the stream are dropped, and what had come behind it.
    ///
    /// # Examples
    /// ```text
    /// block_on(&rt, sender.send_all(stream::iter(1..=9)))   gives  Ok(())   and no sender is left, where it was the last
    /// block_on(&rt, sender.send_all(numbers.stream()))      gives  Ok(())   once no sender of `numbers` is left
    /// ```
    pub fn send_all<S: Stream<Item = T>>(self, stream: S) -> SendAll<S, T, H>
        ensures held { all_held result ≡ true }
        ensures begun { all_begun result ≡ None }
        ensures stream { all_stream result ≡ Some stream }
        ensures none { all_ready result ≡ [] }
    {
        let ready = Ready {
            queue: VecDeque::new(self.channel().alloc()),
            places: 0,
        };
        SendAll {
            held: Some((self, SendStage::Idle(()))),
            stream: Some(stream),
            ready,
            ended: None,
        }
    }

    /// Sends the message where there is a place for it and the lock is free: it never waits.
    /// `Ok(false)` says that there is no place or the lock was held, and the message was dropped.
    ///
    /// # Errors
    /// As `try_send`. The message is dropped then.
    ///
    /// # Examples
    /// ```text
    /// sender.try_send_realtime(1)   answers  Ok(true)   in a new bounded channel for one
    /// ```
    pub fn try_send_realtime(&self, message: T) -> Result<bool, SendError>
        ensures sent { TriesToSendNow H.relations tt tt message result }
    {
        self.channel().try_send_realtime(&mut (), message)
    }

    /// Sends the option's message where there is a place for it and the lock is free, and empties
    /// the option exactly then: it never waits.
    ///
    /// The caller knows that the option holds a message.
    ///
    /// # Errors
    /// As `try_send`. The option holds the same message then.
    ///
    /// # Examples
    /// ```text
    /// let mut option = Some(1);
    /// sender.try_send_option_realtime(&mut option)   answers  Ok(true)   in a new bounded channel
    /// option   is  None
    /// ```
    pub fn try_send_option_realtime(&self, option: &mut Option<T>) -> Result<bool, SendError>
        requires { IsSome option.old }
        ensures sends { IfSome option.old (λ m. TriesToSendNow H.relations tt tt m result) }
        ensures sent { result ≡ Ok true → option.new ≡ None }
        ensures kept { result ≢ Ok true → option.new ≡ option.old }
    {
        self.channel().try_send_option_realtime(&mut (), option)
    }
}

impl<T: Drop, H: History<T>> fmt::Debug for AsyncSender<T, H> {
    ghost debug_output = { λ _. Some (codes "AsyncSender { .. }") };

    fn fmt<W: fmt::Write>(&self, f: &mut fmt::Formatter<W>) -> fmt::Result {
        f.write_str("AsyncSender { .. }")
    }
}

/// The calls that it shares with the receiver for tasks.
impl<T: Drop, H: History<T>> Deref for AsyncSender<T, H> {
    type Target = Handle<T, H, SendSide>;

    ghost deref_gives = { λ tasks handle. handle ≡ handle_of_sender tasks };

    fn deref(&self) -> &Handle<T, H, SendSide> {
        &self.handle
    }
}
