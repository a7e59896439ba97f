//! The common way of an offer and of a take: where nobody waits.
//!
//! `Offer` and `Take` are large values, since they may hold a waiter that was settled. The calls here return small
//! ones, so that the common way is cheap. Who gets nothing here makes the whole call.
ghost use Rattle.std.specs.Prelude.{◌≡◌, [], IfErr, IfNone, IfSome, OnOk};
ghost use Rattle.kanal_core.specs.Channel.{line_of};
ghost use Rattle.kanal_core.specs.Calls.{Enters, TakesFront};

use super::ChannelInternal;

impl<T, W> ChannelInternal<T, W> {
    /// Puts the message at the buffer's end, where a receiver and a sender are left, nobody waits and there
    /// is a place.
    ///
    /// Otherwise, and where a buffer without limit can't grow, it comes back, and nothing changes: `offer` says why.
    ///
    /// # Examples
    /// ```text
    /// let mut core = ChannelInternal::new(alloc, 1)?;
    /// core.push(1)   answers  Ok(())
    /// core.push(2)   answers  Err(2)
    /// ```
    #[inline(always)]
    pub fn push(&mut self, message: T) -> Result<(), T>
        ensures step { OnOk result (Enters (line_of self.old) message [] (line_of self.new)) }
        ensures refused { IfErr result (λ back. (back ≡ message) × (self.new ≡ self.old)) }
        ensures waiters { self.new.waiters ≡ self.old.waiters }
        ensures ticket { self.new.next ≡ self.old.next }
    {
        if self.receivers == 0 || self.senders == 0 {
            return Err(message);
        }
        if !self.waiters.is_empty() || !self.buffer.has_place() {
            return Err(message);
        }
        self.buffer.push_back(message)
    }

    /// Takes the front message out of the buffer, where a receiver is left and nobody waits.
    ///
    /// Otherwise, and where there is no message, the answer is `None`, and nothing changes: `take` says why.
    ///
    /// # Examples
    /// ```text
    /// core.pop()   answers  Some(1)   where 1 was in the buffer and nobody waits
    /// core.pop()   answers  None      after that
    /// ```
    #[inline(always)]
    pub fn pop(&mut self) -> Option<T>
        ensures step { IfSome result (λ m. TakesFront (line_of self.old) m [] (line_of self.new)) }
        ensures refused { IfNone result (self.new ≡ self.old) }
        ensures waiters { self.new.waiters ≡ self.old.waiters }
        ensures ticket { self.new.next ≡ self.old.next }
    {
        if self.receivers == 0 || !self.waiters.is_empty() {
            return None;
        }
        self.buffer.pop_front()
    }
}
