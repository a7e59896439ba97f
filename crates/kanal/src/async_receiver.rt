//! The receiver of a channel for tasks, over which the receiver for threads and the view are made.
//!
//! Calls are generic in the caller's pass; a call that takes no caller is made by the pass of no content.
ghost use Rattle.std.specs.Prelude.{◌≡◌, Some, IfErr, IsErrOf, OnErr, Ok, false, codes};
ghost use Rattle.std.specs.Vec.{vec_capacity, vec_len};
ghost use Rattle.kanal.specs.Handles.{Clones, each_call, each_stream, handle_of_receiver, receiver_for_tasks, try_each_call, try_each_stream, viewed_receiver};
ghost use Rattle.kanal_events.specs.declared.event.Side.{Side};
ghost use Rattle.kanal_futures.specs.Plain.{is_over};
ghost use Rattle.kanal_futures.specs.Streams.{stream_is_over, stream_pass};
ghost use Rattle.kanal_state.specs.Handles.{AsksForTheEnd, Drains, TriesToReceive, TriesToReceiveNow};
ghost use Rattle.kanal_state.specs.Makes.{HasTooLittleRoom};

use crate::each::{ForEach, Room, TryForEach};
use crate::handle::Handle;
use crate::receiver::Receiver;
use crate::receiver_view::ReceiverView;
use kanal_channel::Shared;
use kanal_core::error::{ReceiveError, TooMany};
use kanal_futures::{ReceiveFuture, ReceiveStream, receive_future, receive_stream};
use kanal_state::{CallContext, CountedReceiver, History, NoHistory, ReceiveSide};
use std::fmt;
use std::ops::Deref;
use std::sync::{Arc, Wait};

/// Receives messages of a channel in a task.
///
/// The channel's receive side is gone when the last receiver of either kind was dropped. A drop never waits.
#[derive(Drop)]
pub struct AsyncReceiver<T, H: History<T> = NoHistory> {
    handle: Handle<T, H, ReceiveSide>,
}

impl<T: Drop, H: History<T>> AsyncReceiver<T, H> {
    pub(crate) fn new(shared: Arc<Shared<T, H>>, counted: CountedReceiver) -> Self {
        AsyncReceiver {
            handle: Handle::new(shared, counted),
        }
    }

    /// One more receiver of the channel, as a call of this pass. Where no receiver is left it stays so, and
    /// the answer is still a receiver. It waits for the lock.
    ///
    /// # Errors
    /// `TooMany` where there are `u32::MAX` receivers, which the pass is told, or as many handles as may be, where no
    /// call is made. Nothing is counted then.
    ///
    /// # Examples
    /// ```text
    /// let other = receiver.clone_by(&rt, &mut pass)?;
    /// ```
    pub fn clone_by<R: Wait>(&self, rt: &R, pass: &mut H::Pass) -> Result<Self, TooMany>
        ensures counted { Clones H.relations pass.old pass.new Side.Rx result }
    {
        Ok(AsyncReceiver {
            handle: self.handle.one_more(rt, pass)?,
        })
    }

    /// The same receiver for threads: the counts stay. It never waits.
    ///
    /// # Examples
    /// ```text
    /// receiver.to_sync().receiver_count(&rt)   answers  1   for a new channel
    /// ```
    pub fn to_sync(self) -> Receiver<T, H>
        ensures same { receiver_for_tasks result ≡ self }
    {
        Receiver::new(self)
    }

    /// What a thread does with this receiver: the counts stay. It never waits.
    ///
    /// # Examples
    /// ```text
    /// receiver.as_sync().recv(&rt)   answers  Ok(7)   where 7 was sent
    /// ```
    pub fn as_sync(&self) -> ReceiverView<'_, T, H>
        ensures same { viewed_receiver result ≡ self.now }
    {
        ReceiverView { receiver: self }
    }

    /// Receives the front message, if there is one. `Ok(None)` says that there is none. It waits for the lock.
    ///
    /// # Errors
    /// `Closed` where the channel was closed or no receiver is left, and `SendClosed` where there is
    /// no message and no sender is left.
    ///
    /// # Examples
    /// ```text
    /// receiver.try_recv(&rt)   answers  Ok(None)   in a new channel
    /// ```
    pub fn try_recv<R: CallContext<H::Pass>>(&self, rt: R) -> Result<Option<T>, ReceiveError>
        ensures received { TriesToReceive H.relations (R.before rt) (R.after rt) result }
    {
        let (rt, mut pass, end) = rt.enter();
        let answer = self.channel().try_recv(&rt, &mut pass);
        R::exit(end, pass);
        answer
    }

    /// Moves all messages to the vector's end, those of waiting senders too, and answers how many
    /// they were. What the vector had stays its beginning. It waits for the lock.
    ///
    /// # Errors
    /// `Closed` where no receiver is left, and `NoMemory` where the vector had too little room and
    /// there was no memory for more. The vector holds what it held then.
    ///
    /// # Examples
    /// ```text
    /// receiver.drain_into(&rt, &mut messages)   answers  Ok(2)   where two messages were there
    /// ```
    pub fn drain_into<R: CallContext<H::Pass>>(
        &self,
        rt: R,
        into: &mut Vec<T>,
    ) -> Result<usize, ReceiveError>
        ensures drained { Drains H.relations (R.before rt) (R.after rt) into.old.items into.new.items result }
        ensures refused { IfErr result (λ _. into.new.items ≡ into.old.items) }
        ensures memory { IsErrOf result ReceiveError.NoMemory
            → HasTooLittleRoom H.relations (R.after rt) (vec_len into.old) (vec_capacity into.old) }
        ensures no_growth { OnErr result (vec_capacity into.new ≡ vec_capacity into.old) }
    {
        let (rt, mut pass, end) = rt.enter();
        let answer = self.channel().drain_into(&rt, &mut pass, into);
        R::exit(end, pass);
        answer
    }

    /// One more receiver of the channel. Where no receiver is left it stays so, and the answer is
    /// still a receiver. It waits for the lock.
    ///
    /// # Errors
    /// `TooMany` where there are `u32::MAX` receivers, or as many handles as may be.
    ///
    /// # Examples
    /// ```text
    /// let other = receiver.clone(&rt)?;
    /// receiver.receiver_count(&rt)   answers  2   where it answered 1 before
    /// ```
    pub fn clone<R: CallContext<H::Pass>>(&self, rt: R) -> Result<Self, TooMany>
        ensures counted { Clones H.relations (R.before rt) (R.after rt) Side.Rx result }
    {
        let (rt, mut pass, end) = rt.enter();
        let answer = self.clone_by(&rt, &mut pass);
        R::exit(end, pass);
        answer
    }

    /// One more receiver of the channel, for threads. It counts as `clone`, and waits for the lock.
    ///
    /// # Errors
    /// As `clone`.
    ///
    /// # Examples
    /// ```text
    /// let other = receiver.clone_sync(&rt)?;
    /// other.receiver_count(&rt)   answers  2   where it answered 1 before
    /// ```
    pub fn clone_sync<R: CallContext<H::Pass>>(&self, rt: R) -> Result<Receiver<T, H>, TooMany>
        ensures counted { Clones H.relations (R.before rt) (R.after rt) Side.Rx result }
    {
        let inner = self.clone(rt)?;
        Ok(inner.to_sync())
    }

    /// Whether no sender is left and nothing is in the line, waiting senders' messages included, so that
    /// no message will come. It waits for the lock.
    ///
    /// # Examples
    /// ```text
    /// receiver.is_terminated(&rt)   answers  false   while a message is in the buffer
    /// ```
    pub fn is_terminated<R: CallContext<H::Pass>>(&self, rt: R) -> bool
        ensures asked { AsksForTheEnd H.relations (R.before rt) (R.after rt) result }
    {
        let (rt, mut pass, end) = rt.enter();
        let answer = self.channel().is_terminated(&rt, &mut pass);
        R::exit(end, pass);
        answer
    }
}

impl<T: Drop, H: History<T, Pass = ()>> AsyncReceiver<T, H> {
    /// A future that receives a message. It does nothing before its first poll; one that is dropped
    /// before that has taken no message. One that is dropped later drops the message that it was given
    /// and hadn't answered yet. Neither this call nor a poll waits for anybody.
    ///
    /// # Errors
    /// The future answers `Closed` where the channel was closed, `SendClosed` where no message is there
    /// and the last sender was dropped, `NoMemory` where memory was refused, and `TooMany` where the
    /// tickets of waits are used up. After its answer it answers `Finished`.
    ///
    /// # Examples
    /// ```text
    /// block_on(&rt, receiver.recv())   gives  Ok(7)                            where 7 was sent
    /// block_on(&rt, receiver.recv())   gives  Err(ReceiveError::SendClosed)    after the last sender's drop
    /// ```
    pub fn recv(&self) -> ReceiveFuture<'_, T, H>
        ensures fresh { is_over result ≡ false }
    {
        receive_future(self.channel())
    }

    /// The messages, one receive after the other, until one is refused. It never waits.
    ///
    /// # Examples
    /// ```text
    /// let mut stream = receiver.stream();
    /// block_on(&rt, stream.next())   gives  Some(7)   where 7 was sent
    /// ```
    pub fn stream(&self) -> ReceiveStream<'_, T, H>
        ensures fresh { stream_is_over result ≡ false }
        ensures pass { stream_pass result ≡ Some tt }
    {
        receive_stream(self.channel(), ())
    }

    /// A future that hands each message that comes to the call, until no more come: as many in one poll as are
    /// there, up to 528. One taking of the lock brings up to 32 of the buffer, and where other receivers are left no more
    /// than half of this one's share. The call runs with no lock held. Neither this call nor a poll waits for anybody.
    ///
    /// The future answers `Ok` exactly where it ended since no sender is left and nothing is in the line.
    ///
    /// # Errors
    /// As `Receiver::for_each`. What was handed over before stays so.
    ///
    /// # Examples
    /// ```text
    /// block_on(&rt, receiver.for_each(|message| sum += message))   gives  Ok(())   after the last sender's drop
    /// ```
    pub fn for_each<F: FnMut(T)>(&self, call: F) -> ForEach<'_, T, F, H>
        ensures fresh { stream_is_over (each_stream result) ≡ false }
        ensures pass { stream_pass (each_stream result) ≡ Some tt }
        ensures call { each_call result ≡ call }
    {
        ForEach {
            stream: self.stream(),
            call,
            room: Room::new(self.channel().alloc()),
        }
    }

    /// A future that hands each message that comes to the call, until no more come or the call answers an error,
    /// which is handed on: as `for_each`, a message at a time.
    ///
    /// It answers `Ok(Ok(()))` where it ended since no sender is left and nothing is in the line, and
    /// `Ok(Err(error))` where the call answered that error. The rest is still in the line then, but for a message
    /// that was handed to this future's wait.
    ///
    /// # Errors
    /// As `for_each`.
    ///
    /// # Examples
    /// ```text
    /// block_on(&rt, receiver.try_for_each(|line| parse(line)))???   goes on until a line can't be parsed
    /// ```
    pub fn try_for_each<E: Drop, F: FnMut(T) -> Result<(), E>>(
        &self,
        call: F,
    ) -> TryForEach<'_, T, F, H>
        ensures fresh { stream_is_over (try_each_stream result) ≡ false }
        ensures pass { stream_pass (try_each_stream result) ≡ Some tt }
        ensures call { try_each_call result ≡ call }
    {
        TryForEach {
            stream: self.stream(),
            call,
        }
    }

    /// Receives the front message, if there is one and the lock is free: it never waits.
    /// `Ok(None)` says that there is none or the lock was held.
    ///
    /// # Errors
    /// As `try_recv`.
    ///
    /// # Examples
    /// ```text
    /// receiver.try_recv_realtime()   answers  Ok(Some(1))   where 1 was sent
    /// ```
    pub fn try_recv_realtime(&self) -> Result<Option<T>, ReceiveError>
        ensures received { TriesToReceiveNow H.relations tt tt result }
    {
        self.channel().try_recv_realtime(&mut ())
    }
}

impl<T: Drop, H: History<T>> fmt::Debug for AsyncReceiver<T, H> {
    ghost debug_output = { λ _. Some (codes "AsyncReceiver { .. }") };

    fn fmt<W: fmt::Write>(&self, f: &mut fmt::Formatter<W>) -> fmt::Result {
        f.write_str("AsyncReceiver { .. }")
    }
}

/// The calls that it shares with the sender for tasks.
impl<T: Drop, H: History<T>> Deref for AsyncReceiver<T, H> {
    type Target = Handle<T, H, ReceiveSide>;

    ghost deref_gives = { λ tasks handle. handle ≡ handle_of_receiver tasks };

    fn deref(&self) -> &Handle<T, H, ReceiveSide> {
        &self.handle
    }
}
