//! The core: one channel as plain data, to be used by one caller at a time. Each call is one step of a line of
//! messages: those of the buffer, then those of waiting senders. Where it is empty, receivers may wait.
//!
//! Whoever shares a core settles or drops what a call hands out only after the lock was released.
ghost use Rattle.std.specs.Prelude.{◌≡◌, ◌≢◌, ◌⊎◌, ◌≤◌, ℕ, false, ◌↔◌, [], true, length, map, IfOk, IfErr, IfNone, IsErr, IsErrOf, IsOk, IsSome, Some, None};
ghost use Rattle.std.specs.Borrow.{sem};
ghost use Rattle.std.specs.Fn.{FnReturnsAt};
ghost use Rattle.std.specs.Option.{option_copied_mut, option_map};
ghost use Rattle.kanal_core.specs.Line.{IsWithin, bare, found, has, has_place, last_word, messages};
ghost use Rattle.kanal_core.specs.Moves.{wait_send, wait_recv};
ghost use Rattle.kanal_core.specs.Channel.{line_of, opening, starting};
ghost use Rattle.kanal_core.specs.Waiters.{behind, waiter_of, without, IsFirstWhere, IsPlaced, receiver_first, sender_first};
ghost use Rattle.kanal_core.specs.Calls.{WaitsLast, Offers, HasEntered, LacksMemory, Takes, Withdraws, OldestLeft, IsFull, IsEmpty, handed, let_in};
ghost use Rattle.kanal_core.specs.Handing.{HandsOver, TakesSender, LetsIn, HasOnePlace};
ghost use Rattle.kanal_core.specs.Sided.{Rises};
ghost use Rattle.kanal_core.specs.Visits.{RoseByAtMost};

use crate::error::{NewError, WaitError};
use std::alloc::Global;
use std::marker::Model;
use std::sync::ledger::Ledger;

mod buffer;
mod draining;
mod fast_path;
mod handles;
mod leaving;
mod links;
mod outcome;
mod queries;
mod slots;
mod steps;
mod wait_list;

use buffer::Buffer;
pub use leaving::{Cleared, Closing, Ended, Remaining};
pub use outcome::{Offer, Outcome, Reason, Settled, Take, Ticket, Waiter};
pub use steps::Steps;
use wait_list::WaitList;

#[cold]
fn hand_over<T, W>(waiters: &mut WaitList<T, W>, message: T) -> Settled<T, W>
    requires one { receiver_first waiters.old ≡ true }
    ensures { HandsOver waiters.old message result waiters.new }
{
    match waiters.pop_front() {
        None => unreachable!(),
        Some(waiter) => waiter.given(message),
    }
}

#[cold]
fn pop_sender<T, W>(waiters: &mut WaitList<T, W>) -> (T, Settled<T, W>)
    requires one { sender_first waiters.old ≡ true }
    ensures { TakesSender waiters.old result.0 result.1 waiters.new }
{
    match waiters.pop_front() {
        None => unreachable!(),
        Some(waiter) => waiter.taken(),
    }
}

#[inline(always)]
fn let_in<T, W>(buffer: &mut Buffer<T>, waiters: &mut WaitList<T, W>) -> Option<Settled<T, W>>
    requires { sender_first waiters.old ≡ true → HasOnePlace buffer.old }
    ensures { LetsIn buffer.old waiters.old result buffer.new waiters.new }
{
    if !waiters.sender_first() {
        return None;
    }
    let (message, settled) = pop_sender(waiters);
    match buffer.push_back(message) {
        Ok(()) => Some(settled),
        Err(_back) => unreachable!(),
    }
}

/// The core of a channel whose messages are `T`; whoever waits brings a `W`.
#[derive(Drop)]
pub struct ChannelInternal<T, W> {
    buffer: Buffer<T>,
    waiters: WaitList<T, W>,
    capacity: Option<usize>,
    senders: u32,
    receivers: u32,
    next: u64,
    alloc: Global,
}

impl<T, W> Model for ChannelInternal<T, W> {
    ghost use Rattle.kanal_core.specs.Channel.{ChannelView};

    ghost Value = { ChannelView T W };

    ghost use Rattle.kanal_core.specs.Inside.{channel_of, IsSound};

    ghost view = { channel_of };

    ghost invariant = { IsSound };
}

impl<T, W> ChannelInternal<T, W> {
    ghost use Rattle.kanal_core.specs.CoreLends.{core_lends_w};
    ghost use Rattle.kanal_core.specs.declared.internal.outcome.Waiter.{Waiter};

    /// An empty channel with this capacity, one sender and one receiver.
    ///
    /// The buffer's memory is asked for here, so that no later entering is refused for memory. A
    /// capacity of 0 asks for none.
    ///
    /// # Errors
    /// `TooLarge` exactly for `usize::MAX`, and `NoMemory` where there is no memory for the buffer.
    ///
    /// # Examples
    /// ```text
    /// let core: ChannelInternal<u64, ()> = ChannelInternal::new(alloc, 2)?;
    /// core.offer(7)   answers  Entered
    /// ```
    pub fn new(alloc: Global, capacity: usize) -> Result<Self, NewError>
        ensures new { IfOk result (λ c. c ≡ opening (Some capacity)) }
        ensures large { IsErrOf result NewError.TooLarge ↔ (capacity ≡ last_word) }
        ensures without_places { capacity ≡ 0 → IsOk result }
    {
        if capacity == usize::MAX {
            return Err(NewError::TooLarge);
        }
        let Ok(buffer) = Buffer::bounded(alloc, capacity) else {
            return Err(NewError::NoMemory);
        };
        Ok(ChannelInternal::empty(alloc, buffer, Some(capacity)))
    }

    /// An empty channel without limit, with one sender and one receiver.
    ///
    /// It asks for no memory; its buffer grows as messages enter.
    ///
    /// # Examples
    /// ```text
    /// let core: ChannelInternal<u64, ()> = ChannelInternal::unbounded(alloc);
    /// core.offer(7)   answers  Entered, or NoMemory(7)
    /// ```
    pub fn unbounded(alloc: Global) -> Self
        ensures { result ≡ opening None }
    {
        ChannelInternal::empty(alloc, Buffer::unbounded(alloc), None)
    }

    /// An empty channel with these numbers: a capacity or none, the first ticket's number, and the
    /// counts of both sides.
    ///
    /// It is there to try a channel at the edges of its numbers.
    ///
    /// # Errors
    /// As `new`, and none without a limit.
    ///
    /// # Examples
    /// ```text
    /// ChannelInternal::starting_at(alloc, Some(0), u64::MAX, 1, 1)?
    ///     a channel whose tickets are used up: the next wait is refused with TooMany
    /// ```
    pub fn starting_at(
        alloc: Global,
        capacity: Option<usize>,
        first_ticket: u64,
        senders: u32,
        receivers: u32,
    ) -> Result<Self, NewError>
        ensures new { IfOk result (λ c. c ≡ starting capacity first_ticket senders receivers) }
        ensures large { IsErrOf result NewError.TooLarge ↔ (capacity ≡ Some last_word) }
        ensures without_places { capacity ≡ Some 0 → IsOk result }
        ensures without_limit { capacity ≡ None → IsOk result }
    {
        let mut core = match capacity {
            None => ChannelInternal::unbounded(alloc),
            Some(limit) => ChannelInternal::new(alloc, limit)?,
        };
        core.next = first_ticket;
        core.senders = senders;
        core.receivers = receivers;
        Ok(core)
    }

    fn empty(alloc: Global, buffer: Buffer<T>, capacity: Option<usize>) -> Self
        requires { buffer ≡ record { messages = []; limit = capacity } }
        ensures { result ≡ opening capacity }
    {
        ChannelInternal {
            buffer,
            waiters: WaitList::new(alloc),
            capacity,
            senders: 1,
            receivers: 1,
            next: 0,
            alloc,
        }
    }

    /// Offers a message, which enters where the buffer has a place.
    ///
    /// `Full` is a bounded channel at its capacity; `ReceiveClosed` comes where no receiver is left,
    /// `Closed` where no sender is left either, and `Sealed` where only no sender is. `NoMemory` comes
    /// only without a limit. Each of these gives the message back and changes nothing.
    ///
    /// # Examples
    /// ```text
    /// let mut core = ChannelInternal::new(alloc, 1)?;
    /// core.offer(1)   answers  Entered
    /// core.offer(2)   answers  Full(2)
    /// ```
    #[inline(always)]
    pub fn offer(&mut self, message: T) -> Offer<T, W>
        ensures step { Offers (line_of self.old) message result (line_of self.new) }
        ensures entered { HasEntered result → (self.old.receivers ≢ 0) × (self.old.senders ≢ 0)
            × (has_place (line_of self.old) ≡ true) }
        ensures enters { self.old.receivers ≢ 0 → self.old.senders ≢ 0
            → has_place (line_of self.old) ≡ true → HasEntered result ⊎ LacksMemory result }
        ensures waiter { OldestLeft self.old.waiters (handed result) self.new.waiters }
        ensures ticket { self.new.next ≡ self.old.next }
    {
        if self.receivers == 0 {
            return if self.senders == 0 {
                Offer::Closed(message)
            } else {
                Offer::ReceiveClosed(message)
            };
        }
        if self.senders == 0 {
            return Offer::Sealed(message);
        }
        if self.waiters.receiver_first() {
            return Offer::Handed(hand_over(&mut self.waiters, message));
        }
        if !self.buffer.has_place() {
            return Offer::Full(message);
        }
        match self.buffer.push_back(message) {
            Ok(()) => Offer::Entered,
            Err(back) => Offer::NoMemory(back),
        }
    }

    /// Takes the front message.
    ///
    /// `Closed` comes where no receiver is left, `SendClosed` where there is no message and no
    /// sender is left, and `Empty` where there is only no message. None of them changes anything.
    ///
    /// # Examples
    /// ```text
    /// core.take()   answers  Got(1, None)   where 1 was in the buffer and nobody waits
    /// core.take()   answers  Empty          after that
    /// ```
    #[inline(always)]
    pub fn take(&mut self) -> Take<T, W>
        ensures step { Takes (line_of self.old) result (line_of self.new) }
        ensures waiter { OldestLeft self.old.waiters (let_in result) self.new.waiters }
        ensures ticket { self.new.next ≡ self.old.next }
    {
        if self.receivers == 0 {
            return Take::Closed;
        }
        match self.buffer.pop_front() {
            Some(message) => Take::Got(message, let_in(&mut self.buffer, &mut self.waiters)),
            None => self.take_waiting(),
        }
    }

    #[cold]
    fn take_waiting(&mut self) -> Take<T, W>
        requires open { self.old.receivers ≢ 0 }
        requires empty { self.old.buffer ≡ [] }
        ensures step { Takes (line_of self.old) result (line_of self.new) }
        ensures waiter { OldestLeft self.old.waiters (let_in result) self.new.waiters }
        ensures ticket { self.new.next ≡ self.old.next }
    {
        if self.waiters.sender_first() {
            let (message, settled) = pop_sender(&mut self.waiters);
            return Take::Got(message, Some(settled));
        }
        if self.senders == 0 {
            Take::SendClosed
        } else {
            Take::Empty
        }
    }

    /// Starts a wait of a sender, whose message joins the line's end under the next ticket.
    ///
    /// The caller knows that an offer would be answered `Full`.
    ///
    /// # Errors
    /// `TooMany` exactly where the tickets are used up, and otherwise `NoMemory` where there is no
    /// memory for the entry. Message and W come back, and nothing changes.
    ///
    /// # Examples
    /// ```text
    /// if let Offer::Full(back) = core.offer(message) {
    ///     let ticket = core.wait_send(back, w)?;   the message now waits behind the buffer
    /// }
    /// ```
    pub fn wait_send(&mut self, message: T, w: W) -> Result<Ticket, (WaitError, T, W)>
        requires full { IsFull (line_of self.old) }
        ensures step { IfOk result (λ _. line_of self.new ≡ wait_send (line_of self.old) message) }
        ensures waits { IfOk result (λ ticket.
            WaitsLast self.old.next (Some message) w ticket self.old.waiters self.new.waiters) }
        ensures refused { IfErr result (λ back. (back.1 ≡ message) × (back.2 ≡ w)
            × (self.new ≡ self.old)) }
        ensures reason { IfErr result (λ back. back.0 ≡ WaitError.TooMany
            ↔ (self.old.next ≡ last_word)) }
        ensures last { self.old.next ≡ last_word → IsErr result }
    {
        if self.next == u64::MAX {
            return Err((WaitError::TooMany, message, w));
        }
        match self.waiters.push_back(self.next, Some(message), w) {
            Ok(ticket) => {
                self.next += 1;
                Ok(ticket)
            },
            Err((message, w)) => match message {
                Some(message) => Err((WaitError::NoMemory, message, w)),
                None => unreachable!(),
            },
        }
    }

    /// Starts a wait of a receiver under the next ticket.
    ///
    /// The caller knows that a take would be answered `Empty`.
    ///
    /// # Errors
    /// `TooMany` exactly where the tickets are used up, and otherwise `NoMemory` where there is no
    /// memory for the entry. W comes back, and nothing changes.
    ///
    /// # Examples
    /// ```text
    /// if let Take::Empty = core.take() {
    ///     let ticket = core.wait_recv(w)?;   the next message offered is handed to it
    /// }
    /// ```
    pub fn wait_recv(&mut self, w: W) -> Result<Ticket, (WaitError, W)>
        requires empty { IsEmpty (line_of self.old) }
        ensures step { IfOk result (λ _. line_of self.new ≡ wait_recv (line_of self.old)) }
        ensures waits { IfOk result (λ ticket.
            WaitsLast self.old.next None w ticket self.old.waiters self.new.waiters) }
        ensures refused { IfErr result (λ back. (back.1 ≡ w) × (self.new ≡ self.old)) }
        ensures reason { IfErr result (λ back. back.0 ≡ WaitError.TooMany
            ↔ (self.old.next ≡ last_word)) }
        ensures last { self.old.next ≡ last_word → IsErr result }
    {
        if self.next == u64::MAX {
            return Err((WaitError::TooMany, w));
        }
        match self.waiters.push_back(self.next, None, w) {
            Ok(ticket) => {
                self.next += 1;
                Ok(ticket)
            },
            Err((message, w)) => match message {
                None => Err((WaitError::NoMemory, w)),
                Some(_message) => unreachable!(),
            },
        }
    }

    /// Takes the waiter with the ticket out of the list; `None` if it does not wait here.
    ///
    /// However many wait, it visits at most four of their slots, which the count tells. A ticket that
    /// another channel gave finds who waits here under an equal one, and nobody else.
    ///
    /// # Examples
    /// ```text
    /// let mut steps = Steps::<Brand>::idle();
    /// core.withdraw(ticket, &mut steps)   answers  Some(waiter)   with a sender's message
    /// core.withdraw(ticket, &mut steps)   answers  None           after that
    /// ```
    pub fn withdraw<L: Ledger>(
        &mut self,
        ticket: Ticket,
        steps: &mut Steps<L>,
    ) -> Option<Waiter<T, W>>
        ensures step { IsSome result ⊎ IsPlaced ticket self.old.waiters
            → Withdraws (line_of self.old) ticket
            (option_map (λ (w : Waiter T W). w.message) result) (line_of self.new) }
        ensures missing { IfNone result (self.new ≡ self.old) }
        ensures waiter { result ≡ waiter_of ticket self.old.waiters }
        ensures others { self.new.waiters ≡ without ticket self.old.waiters }
        ensures ticket { self.new.next ≡ self.old.next }
        ensures visits { RoseByAtMost 4 steps.old steps.new }
    {
        self.waiters.remove(ticket, steps)
    }

    /// Lends what the waiter with the ticket brought; `None` if it does not wait here.
    ///
    /// What is written through the loan is all that changes.
    ///
    /// # Examples
    /// ```text
    /// if let Some(w) = core.waiting(ticket) {
    ///     *w = another;
    /// }
    /// ```
    pub fn waiting(&mut self, ticket: Ticket) -> Option<&mut W>
        ensures* writes_back { sem 𝓛 (core_lends_w T.row W.row self.entry ticket result) }
        ensures value { option_copied_mut result
            ≡ option_map (λ (w : Waiter T W). w.w) (waiter_of ticket self.old.waiters) }
    {
        let waiters = &mut self.waiters;
        waiters.waiting(ticket)
    }

    /// The ticket of the oldest waiter whose W passes the test.
    /// Example: `core.first_waiter(|w| w.has_left())` answers the ticket of the oldest that has left, or None.
    pub fn first_waiter<F: Fn(&W) -> bool + Drop>(&self, test: F) -> Option<Ticket>
        requires { F.IsAlwaysCallable test }
        ensures { IsFirstWhere (FnReturnsAt F.Fn test) self.now.waiters result }
    {
        self.waiters.first_waiter(test)
    }

    /// The ticket of the oldest waiter behind the one with this ticket whose W passes the test;
    /// `None` too where the ticket doesn't wait.
    ///
    /// # Examples
    /// ```text
    /// let oldest = core.first_waiter(|w| w.has_left())?;
    /// core.next_waiter(oldest, |w| w.has_left())   answers  the ticket of the next that has left, or None
    /// ```
    pub fn next_waiter<F: Fn(&W) -> bool + Drop>(&self, ticket: Ticket, test: F) -> Option<Ticket>
        requires { F.IsAlwaysCallable test }
        ensures { IsFirstWhere (FnReturnsAt F.Fn test) (behind ticket self.now.waiters) result }
    {
        self.waiters.next_waiter(ticket, test)
    }

    /// What holds of every channel, for a caller's proof; it does nothing when it runs.
    ///
    /// Messages and demands are never there together, the buffer never holds more than the
    /// capacity, a sender waits only while the buffer is full, no ticket waits that was not given, and
    /// those that wait stand in the order of their tickets.
    pub fn holds(&self)
        ensures one_side { ((line_of self.now).line ≡ []) ⊎ ((line_of self.now).demands ≡ []) }
        ensures bound { IsWithin (length self.now.buffer) self.now.capacity }
        ensures full { ((line_of self.now).line ≡ map bare self.now.buffer)
            ⊎ (self.now.capacity ≡ Some (length self.now.buffer)) }
        ensures given { (t : ℕ) → self.now.next ≤ t → (found t (line_of self.now).line ≡ [])
            × (has t (line_of self.now).demands ≡ false) }
        ensures rising { Rises 0 self.now.waiters self.now.next }
    {
        let _ = &self.next;
    }

    /// Ends the channel's life and hands out what is still in its line: the buffer, front first, and
    /// then the waiting senders' messages.
    ///
    /// # Examples
    /// ```text
    /// let mut left = core.into_messages();
    /// left.next()   answers  the front of the line, and so on
    /// ```
    pub fn into_messages(self) -> Remaining<T, W>
    where
        T: Drop,
        W: Drop,
        ensures { result ≡ messages (line_of self).line }
    {
        Remaining::new(self.buffer, self.waiters)
    }
}
