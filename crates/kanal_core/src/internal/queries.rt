//! What can be asked of a core without changing it.
//!
//! An answer holds until the next call that changes the core.
ghost use Rattle.std.specs.Prelude.{◌≡◌, ◌==◌, ◌&&◌, not, length};
ghost use Rattle.kanal_core.specs.Line.{buffered, capacity_word, is_at, is_bounded, last_word};
ghost use Rattle.kanal_core.specs.Channel.{line_of};

use super::ChannelInternal;

impl<T, W> ChannelInternal<T, W> {
    /// How many messages are in the buffer.
    /// Example: `core.len()` answers `1` after one message entered a bounded channel for two.
    pub fn len(&self) -> usize
        ensures { result ≡ buffered (line_of self.now) }
    {
        self.buffer.len()
    }

    /// Whether no message is in the buffer, whoever waits.
    /// Example: `core.is_empty()` answers `false` after one message entered.
    pub fn is_empty(&self) -> bool
        ensures { result ≡ buffered (line_of self.now) == 0 }
    {
        self.len() == 0
    }

    /// Whether the buffer is at the capacity: always at capacity 0, and never without a limit.
    /// Example: `core.is_full()` answers `true` after one message entered a bounded channel for one.
    pub fn is_full(&self) -> bool
        ensures { result ≡ is_at (buffered (line_of self.now)) self.now.capacity }
    {
        match self.capacity {
            None => false,
            Some(limit) => self.len() == limit,
        }
    }

    /// Whether the channel has a limit.
    /// Example: `core.is_bounded()` answers `true` for a channel that `new` made.
    pub fn is_bounded(&self) -> bool
        ensures { result ≡ is_bounded self.now.capacity }
    {
        self.capacity.is_some()
    }

    /// How many messages the buffer may hold, which is `usize::MAX` without a limit.
    ///
    /// # Examples
    /// ```text
    /// core.capacity()   answers  2            for a bounded channel for two
    /// core.capacity()   answers  usize::MAX   for a channel that `unbounded` made
    /// ```
    pub fn capacity(&self) -> usize
        ensures { result ≡ capacity_word self.now.capacity }
    {
        match self.capacity {
            None => usize::MAX,
            Some(limit) => limit,
        }
    }

    /// How many receivers there are.
    /// Example: `core.receiver_count()` answers `1` for a new channel.
    pub fn receiver_count(&self) -> u32
        ensures { result ≡ self.now.receivers }
    {
        self.receivers
    }

    /// How many senders there are.
    /// Example: `core.sender_count()` answers `1` for a new channel.
    pub fn sender_count(&self) -> u32
        ensures { result ≡ self.now.senders }
    {
        self.senders
    }

    /// Whether both sides are gone.
    /// Example: `core.is_closed()` answers `true` after a close.
    pub fn is_closed(&self) -> bool
        ensures { result ≡ (self.now.senders == 0) && (self.now.receivers == 0) }
    {
        self.send_side_gone() && self.receive_side_gone()
    }

    /// Whether no sender is left.
    /// Example: `core.send_side_gone()` answers `true` after the last sender was dropped.
    pub fn send_side_gone(&self) -> bool
        ensures { result ≡ self.now.senders == 0 }
    {
        self.sender_count() == 0
    }

    /// Whether no receiver is left.
    /// Example: `core.receive_side_gone()` answers `true` after the last receiver was dropped.
    pub fn receive_side_gone(&self) -> bool
        ensures { result ≡ self.now.receivers == 0 }
    {
        self.receiver_count() == 0
    }

    /// Whether no sender is left and no message is in the line, those of waiting senders included, so
    /// that no message will come.
    /// Example: `core.is_terminated()` answers `true` after the last sender was dropped and the buffer taken.
    pub fn is_terminated(&self) -> bool
        ensures { result ≡ (self.now.senders == 0) && (length (line_of self.now).line == 0) }
    {
        self.send_side_gone() && self.is_empty() && !self.waiters.sender_first()
    }

    /// Whether a further wait gets a ticket. Where it doesn't, the wait is refused as `TooMany`.
    /// Example: `core.has_ticket()` answers `true` in a new core.
    pub fn has_ticket(&self) -> bool
        ensures { result ≡ not (self.now.next == last_word) }
    {
        self.next != u64::MAX
    }
}
