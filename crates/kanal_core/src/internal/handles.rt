//! The handles of both sides: their counts, and what ends with the last handle or with a close.
//!
//! A count that is 0 stays 0, so a side that is gone never comes back.
ghost use Rattle.std.specs.Prelude.{◌≡◌, ◌↔◌, ◌==◌, cond, [], map, IfErr, IfOk, IsErr, OnOk};
ghost use Rattle.kanal_core.specs.Moves.{cleared, close, drop_receiver, drop_sender, last_count, raised, seal};
ghost use Rattle.kanal_core.specs.Channel.{closed, ended_by, line_of, receiver_dropped, sealed, sender_dropped, settlement};
ghost use Rattle.kanal_core.specs.Calls.{MovesTo, StaysGone};
ghost use Rattle.kanal_core.specs.Waiters.{receiver_first};

use super::ChannelInternal;
use super::leaving::{Cleared, Closing, Ended};
use super::outcome::Reason;
use crate::error::{CloseError, TooMany};

fn one_more(count: u32) -> Result<u32, TooMany>
    ensures more { IfOk result (λ n. n ≡ raised count) }
    ensures most { IsErr result ↔ (count ≡ last_count) }
{
    if count == 0 {
        return Ok(0);
    }
    if count == u32::MAX {
        return Err(TooMany);
    }
    Ok(count + 1)
}

impl<T, W> ChannelInternal<T, W> {
    /// Counts one more sender. Where no sender is left it stays so, and the answer is `Ok`.
    ///
    /// # Errors
    /// `TooMany` exactly where there are `u32::MAX` senders, and nothing changes.
    ///
    /// # Examples
    /// ```text
    /// core.add_sender()     answers  Ok(())
    /// core.sender_count()   answers  2   where it answered 1 before
    /// ```
    pub fn add_sender(&mut self) -> Result<(), TooMany>
        ensures raised { OnOk result (self.new
            ≡ record self.old { senders = raised self.old.senders }) }
        ensures refused { IfErr result (λ _. self.new ≡ self.old) }
        ensures most { IsErr result ↔ (self.old.senders ≡ last_count) }
        ensures gone { StaysGone self.old self.new }
    {
        self.senders = one_more(self.senders)?;
        Ok(())
    }

    /// Counts one more receiver. Where no receiver is left it stays so, and the answer is `Ok`.
    ///
    /// # Errors
    /// `TooMany` exactly where there are `u32::MAX` receivers, and nothing changes.
    ///
    /// # Examples
    /// ```text
    /// core.add_receiver()     answers  Ok(())
    /// core.receiver_count()   answers  2   where it answered 1 before
    /// ```
    pub fn add_receiver(&mut self) -> Result<(), TooMany>
        ensures raised { OnOk result (self.new
            ≡ record self.old { receivers = raised self.old.receivers }) }
        ensures refused { IfErr result (λ _. self.new ≡ self.old) }
        ensures most { IsErr result ↔ (self.old.receivers ≡ last_count) }
        ensures gone { StaysGone self.old self.new }
    {
        self.receivers = one_more(self.receivers)?;
        Ok(())
    }

    /// Counts one sender less. With the last one all that wait, of whichever side, leave with the
    /// reason `SendClosed`, each sender with its message; the buffer stays.
    ///
    /// Where no sender was left nothing changes and nobody ends.
    ///
    /// # Examples
    /// ```text
    /// let mut ended = core.drop_sender();   the last one, while a receiver waits
    /// ended.next()   answers  the oldest wait, as Ended(SendClosed, None), and so on
    /// core.take()    answers  SendClosed
    /// ```
    pub fn drop_sender(&mut self) -> Ended<T, W>
        ensures step { MovesTo (drop_sender (line_of self.old)) (map settlement result)
            (line_of self.new) }
        ensures after { self.new ≡ sender_dropped self.old }
        ensures ended { result ≡ cond (self.old.senders == 1)
            (map (ended_by Reason.SendClosed) self.old.waiters) [] }
        ensures gone { StaysGone self.old self.new }
    {
        if self.senders == 1 {
            self.senders = 0;
            return Ended::all(&mut self.waiters, Reason::SendClosed, self.alloc);
        }
        self.senders = self.senders.saturating_sub(1);
        Ended::nobody(self.alloc)
    }

    /// Counts one receiver less. With the last one all that wait, of whichever side, leave with the
    /// reason `ReceiveClosed`, each sender with its message; the buffer stays.
    ///
    /// Where no receiver was left nothing changes and nobody ends.
    ///
    /// # Examples
    /// ```text
    /// let mut ended = core.drop_receiver();   the last one, while a sender waits with the message 7
    /// ended.next()    answers  the oldest wait, as Ended(ReceiveClosed, Some(7)), and so on
    /// core.offer(8)   answers  ReceiveClosed(8)
    /// ```
    pub fn drop_receiver(&mut self) -> Ended<T, W>
        ensures step { MovesTo (drop_receiver (line_of self.old)) (map settlement result)
            (line_of self.new) }
        ensures after { self.new ≡ receiver_dropped self.old }
        ensures ended { result ≡ cond (self.old.receivers == 1)
            (map (ended_by Reason.ReceiveClosed) self.old.waiters) [] }
        ensures gone { StaysGone self.old self.new }
    {
        if self.receivers == 1 {
            self.receivers = 0;
            return Ended::all(&mut self.waiters, Reason::ReceiveClosed, self.alloc);
        }
        self.receivers = self.receivers.saturating_sub(1);
        Ended::nobody(self.alloc)
    }

    /// Seals the channel: the senders are done, and the receivers take what is left. The count of
    /// senders becomes 0, each waiting receiver ends with the reason `SendClosed`, and nothing more
    /// enters; the buffer, the senders that wait and the count of receivers stay. It takes no memory.
    ///
    /// # Errors
    /// `CloseError` where no sender was left already, and nothing changes.
    ///
    /// # Examples
    /// ```text
    /// let ended = core.seal()?;   while 1 is in the buffer
    /// core.offer(2)   answers  Sealed(2)
    /// core.take()     answers  Got(1, None)
    /// core.take()     answers  SendClosed
    /// ```
    pub fn seal(&mut self) -> Result<Ended<T, W>, CloseError>
        ensures step { IfOk result (λ ended. MovesTo (seal (line_of self.old)) (map settlement ended)
            (line_of self.new)) }
        ensures ended { IfOk result (λ ended. ended ≡ cond (receiver_first self.old.waiters)
            (map (ended_by Reason.SendClosed) self.old.waiters) []) }
        ensures after { IfOk result (λ _. self.new ≡ sealed self.old) }
        ensures refused { IfErr result (λ _. self.new ≡ self.old) }
        ensures sealed { IsErr result ↔ (self.old.senders ≡ 0) }
        ensures gone { StaysGone self.old self.new }
    {
        if self.senders == 0 {
            return Err(CloseError());
        }
        self.senders = 0;
        if self.waiters.receiver_first() {
            return Ok(Ended::all(&mut self.waiters, Reason::SendClosed, self.alloc));
        }
        Ok(Ended::nobody(self.alloc))
    }

    /// Closes the channel for both sides, and moves out the messages of its buffer and all waits.
    ///
    /// # Errors
    /// `CloseError` where both sides were gone already, and nothing changes.
    ///
    /// # Examples
    /// ```text
    /// let mut closing = core.close()?;
    /// closing.cleared.next()   answers  the buffer's front, and so on
    /// closing.ended.next()     answers  the oldest wait, as Ended(Closed, its message), and so on
    /// ```
    pub fn close(&mut self) -> Result<Closing<T, W>, CloseError>
        ensures step { IfOk result (λ c. MovesTo (close (line_of self.old)) (map settlement c.ended)
            (line_of self.new)) }
        ensures cleared { IfOk result (λ c. c.cleared ≡ cleared (line_of self.old)) }
        ensures ended { IfOk result (λ c. c.ended ≡ map (ended_by Reason.Closed) self.old.waiters) }
        ensures after { IfOk result (λ _. self.new ≡ closed self.old) }
        ensures refused { IfErr result (λ _. self.new ≡ self.old) }
        ensures shut { IsErr result ↔ ((self.old.senders ≡ 0) × (self.old.receivers ≡ 0)) }
        ensures gone { StaysGone self.old self.new }
    {
        if self.senders == 0 && self.receivers == 0 {
            return Err(CloseError());
        }
        self.senders = 0;
        self.receivers = 0;
        Ok(Closing {
            cleared: Cleared::new(self.buffer.take_all()),
            ended: Ended::all(&mut self.waiters, Reason::Closed, self.alloc),
        })
    }
}
