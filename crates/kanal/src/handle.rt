//! A handle of one side, which both kinds are: it holds the channel, and counts itself.
//!
//! What is asked of a channel through either side stands here once. It alone has a handle's drop.
ghost use Rattle.kanal.specs.Handles.{Clones};
ghost use Rattle.kanal_events.specs.declared.event.Ask.{Ask};
ghost use Rattle.kanal_state.specs.Handles.{Asks, Closes, Seals};
ghost use Rattle.kanal_state.specs.Results.{count_by, flag_by, number_by};

use kanal_channel::Shared;
use kanal_core::error::{CloseError, TooMany};
use kanal_events::event::Ask;
use kanal_state::{CallContext, CountedHandle, History, OfSide};
use std::sync::{Arc, Wait};

/// What the handles of a side share, for threads and for tasks: the questions, `seal` and `close`.
///
/// It counts as one handle of its side until it is dropped. A drop never waits.
pub struct Handle<T, H: History<T>, S: OfSide> {
    shared: Arc<Shared<T, H>>,
    counted: CountedHandle<S>,
}

impl<T: Drop, H: History<T>, S: OfSide> Drop for Handle<T, H, S> {
    fn drop(self) {
        let Handle { shared, counted } = self;
        shared.drop_handle(counted);
    }
}

impl<T: Drop, H: History<T>, S: OfSide> Handle<T, H, S> {
    pub(crate) fn new(shared: Arc<Shared<T, H>>, counted: CountedHandle<S>) -> Self {
        Handle { shared, counted }
    }

    pub(crate) fn one_more<R: Wait>(&self, rt: &R, pass: &mut H::Pass) -> Result<Self, TooMany>
        ensures counted { Clones H.relations pass.old pass.new S.side result }
    {
        let Ok(shared) = Arc::try_clone(&self.shared) else {
            return Err(TooMany);
        };
        let counted = self.shared.count(rt, pass)?;
        Ok(Handle { shared, counted })
    }

    fn ask_flag<R: CallContext<H::Pass>>(&self, rt: R, question: Ask) -> bool
        ensures asked { Asks H.relations (R.before rt) (R.after rt) S.side question flag_by result }
    {
        let (rt, mut pass, end) = rt.enter();
        let answer = self.shared.ask_flag(&rt, &mut pass, S::side(), question);
        R::exit(end, pass);
        answer
    }

    fn ask_number<R: CallContext<H::Pass>>(&self, rt: R, question: Ask) -> usize
        ensures asked { Asks H.relations (R.before rt) (R.after rt) S.side question number_by result }
    {
        let (rt, mut pass, end) = rt.enter();
        let answer = self.shared.ask_number(&rt, &mut pass, S::side(), question);
        R::exit(end, pass);
        answer
    }

    fn ask_count<R: CallContext<H::Pass>>(&self, rt: R, question: Ask) -> u32
        ensures asked { Asks H.relations (R.before rt) (R.after rt) S.side question count_by result }
    {
        let (rt, mut pass, end) = rt.enter();
        let answer = self.shared.ask_count(&rt, &mut pass, S::side(), question);
        R::exit(end, pass);
        answer
    }

    /// The channel, each call of which takes a pass. It is for channels with a history: whoever has none
    /// calls the handle.
    ///
    /// # Examples
    /// ```text
    /// sender.channel().send(&rt, &mut pass, 7)   answers  Ok(())   in a channel with a place
    /// ```
    pub fn channel(&self) -> &Shared<T, H> {
        &self.shared
    }

    /// Whether the other side has no handle left. It waits for the lock.
    ///
    /// # Examples
    /// ```text
    /// receiver.is_disconnected(&rt)   answers  true   after the last sender was dropped
    /// ```
    pub fn is_disconnected<R: CallContext<H::Pass>>(&self, rt: R) -> bool
        ensures asked { Asks H.relations (R.before rt) (R.after rt) S.side Ask.IsDisconnected flag_by result }
    {
        self.ask_flag(rt, Ask::IsDisconnected)
    }

    /// How many messages are in the buffer. It waits for the lock.
    ///
    /// # Examples
    /// ```text
    /// handle.len(&rt)   answers  1   after one message entered a bounded channel for two
    /// ```
    pub fn len<R: CallContext<H::Pass>>(&self, rt: R) -> usize
        ensures asked { Asks H.relations (R.before rt) (R.after rt) S.side Ask.Len number_by result }
    {
        self.ask_number(rt, Ask::Len)
    }

    /// Whether no message is in the buffer, whoever waits. It waits for the lock.
    ///
    /// # Examples
    /// ```text
    /// handle.is_empty(&rt)   answers  false   after one message entered
    /// ```
    pub fn is_empty<R: CallContext<H::Pass>>(&self, rt: R) -> bool
        ensures asked { Asks H.relations (R.before rt) (R.after rt) S.side Ask.IsEmpty flag_by result }
    {
        self.ask_flag(rt, Ask::IsEmpty)
    }

    /// Whether the buffer is at the capacity: always at capacity 0, and never without a limit. It waits for the lock.
    ///
    /// # Examples
    /// ```text
    /// handle.is_full(&rt)   answers  true   after one message entered a bounded channel for one
    /// ```
    pub fn is_full<R: CallContext<H::Pass>>(&self, rt: R) -> bool
        ensures asked { Asks H.relations (R.before rt) (R.after rt) S.side Ask.IsFull flag_by result }
    {
        self.ask_flag(rt, Ask::IsFull)
    }

    /// Whether the channel has a limit. It waits for the lock.
    ///
    /// # Examples
    /// ```text
    /// handle.is_bounded(&rt)   answers  true   for a channel that `bounded` made
    /// ```
    pub fn is_bounded<R: CallContext<H::Pass>>(&self, rt: R) -> bool
        ensures asked { Asks H.relations (R.before rt) (R.after rt) S.side Ask.IsBounded flag_by result }
    {
        self.ask_flag(rt, Ask::IsBounded)
    }

    /// How many messages the buffer may hold, which is `usize::MAX` without a limit. It waits for the lock.
    ///
    /// # Examples
    /// ```text
    /// handle.capacity(&rt)   answers  2   for a bounded channel for two
    /// ```
    pub fn capacity<R: CallContext<H::Pass>>(&self, rt: R) -> usize
        ensures asked { Asks H.relations (R.before rt) (R.after rt) S.side Ask.Capacity number_by result }
    {
        self.ask_number(rt, Ask::Capacity)
    }

    /// How many receivers there are. It waits for the lock.
    ///
    /// # Examples
    /// ```text
    /// handle.receiver_count(&rt)   answers  1   for a new channel
    /// ```
    pub fn receiver_count<R: CallContext<H::Pass>>(&self, rt: R) -> u32
        ensures asked { Asks H.relations (R.before rt) (R.after rt) S.side Ask.ReceiverCount count_by result }
    {
        self.ask_count(rt, Ask::ReceiverCount)
    }

    /// How many senders there are. It waits for the lock.
    ///
    /// # Examples
    /// ```text
    /// handle.sender_count(&rt)   answers  1   for a new channel
    /// ```
    pub fn sender_count<R: CallContext<H::Pass>>(&self, rt: R) -> u32
        ensures asked { Asks H.relations (R.before rt) (R.after rt) S.side Ask.SenderCount count_by result }
    {
        self.ask_count(rt, Ask::SenderCount)
    }

    /// Whether both sides are gone. It waits for the lock.
    ///
    /// # Examples
    /// ```text
    /// handle.is_closed(&rt)   answers  true   after a close
    /// ```
    pub fn is_closed<R: CallContext<H::Pass>>(&self, rt: R) -> bool
        ensures asked { Asks H.relations (R.before rt) (R.after rt) S.side Ask.IsClosed flag_by result }
    {
        self.ask_flag(rt, Ask::IsClosed)
    }

    /// Lets the senders be done: nothing more enters, and the receivers take what is left. A receive
    /// that waits ends with `SendClosed`, and so does each later one once nothing is left; a send that
    /// waits is still served. Each later send is refused as `Sealed`. It waits for the lock.
    ///
    /// `close` throws away what is in the channel, and the last sender's drop needs every clone gone.
    ///
    /// # Errors
    /// `CloseError` where the channel was sealed or closed already, or no sender is left.
    ///
    /// # Examples
    /// ```text
    /// handle.seal(&rt)   answers  Ok(())
    /// handle.seal(&rt)   answers  Err(CloseError())   after that
    /// ```
    pub fn seal<R: CallContext<H::Pass>>(&self, rt: R) -> Result<(), CloseError>
        ensures sealed { Seals H.relations (R.before rt) (R.after rt) result }
    {
        let (rt, mut pass, end) = rt.enter();
        let answer = self.shared.seal(&rt, &mut pass);
        R::exit(end, pass);
        answer
    }

    /// Closes the channel for both sides: all waits end with `Closed`, and the buffer's messages are
    /// dropped after the lock was released. It waits for the lock.
    ///
    /// # Errors
    /// `CloseError` where both sides were gone already.
    ///
    /// # Examples
    /// ```text
    /// handle.close(&rt)   answers  Ok(())
    /// handle.close(&rt)   answers  Err(CloseError())   after that
    /// ```
    pub fn close<R: CallContext<H::Pass>>(&self, rt: R) -> Result<(), CloseError>
        ensures closed { Closes H.relations (R.before rt) (R.after rt) result }
    {
        let (rt, mut pass, end) = rt.enter();
        let answer = self.shared.close(&rt, &mut pass);
        R::exit(end, pass);
        answer
    }
}
