//! The drain: the whole line moves to a vector's end.
//!
//! All room in the vector is there before the first message moves.
ghost use Rattle.std.specs.Prelude.{◌≡◌, ◌↔◌, ◌+◌, ◌<◌, ◌≤◌, ◌++◌, cond, [], length, map, IfErr, IfOk, IsErrOf, OnErr, OnOk};
ghost use Rattle.std.specs.Vec.{vec_capacity, vec_len};
ghost use Rattle.kanal_core.specs.Line.{messages};
ghost use Rattle.kanal_core.specs.Moves.{drain};
ghost use Rattle.kanal_core.specs.Channel.{after_drain, line_of, settlement, taken_by};
ghost use Rattle.kanal_core.specs.Waiters.{sender_first};
ghost use Rattle.kanal_core.specs.Calls.{MovesTo};

use super::ChannelInternal;
use super::leaving::Ended;
use crate::error::DrainError;

fn reserve<T>(into: &mut Vec<T>, count: usize) -> Result<(), DrainError>
    ensures items { into.new.items ≡ into.old.items }
    ensures len { vec_len into.new ≡ vec_len into.old }
    ensures room { OnOk result (vec_len into.old + count ≤ vec_capacity into.new) }
    ensures enough { vec_len into.old + count ≤ vec_capacity into.old
        → vec_capacity into.new ≡ vec_capacity into.old }
    ensures refused { IfErr result (λ e. (e ≡ DrainError.NoMemory)
        × (vec_capacity into.old < vec_len into.old + count)) }
    ensures no_growth { OnErr result (vec_capacity into.new ≡ vec_capacity into.old) }
{
    if count <= into.capacity() - into.len() {
        return Ok(());
    }
    match into.try_reserve(count) {
        Ok(()) => Ok(()),
        Err(_refused) => Err(DrainError::NoMemory),
    }
}

impl<T, W> ChannelInternal<T, W> {
    /// Moves the whole line to the vector's end: the buffer, front first, and then the messages of the senders that
    /// wait, who are settled as taken. The answer is how many messages that were, and those senders.
    ///
    /// What the vector had stays its beginning. Receivers that wait stay, too: there is no message
    /// then, and the answer is 0.
    ///
    /// # Errors
    /// `Closed` exactly where no receiver is left, and otherwise `NoMemory`, which comes only where
    /// the vector had too little room for the whole line. Neither changes the channel, nor what the
    /// vector holds and how much it has room for.
    ///
    /// # Examples
    /// ```text
    /// let (count, mut taken) = core.drain_into(&mut messages)?;
    /// taken.next()   answers  the oldest sender that waited, as Taken, and so on
    /// ```
    pub fn drain_into(&mut self, into: &mut Vec<T>) -> Result<(usize, Ended<T, W>), DrainError>
        ensures step { IfOk result (λ d. MovesTo (drain (line_of self.old)) (map settlement d.1)
            (line_of self.new)) }
        ensures receiver { IsErrOf result DrainError.Closed ↔ (self.old.receivers ≡ 0) }
        ensures moved { IfOk result (λ _. into.new.items
            ≡ into.old.items ++ messages (line_of self.old).line) }
        ensures count { IfOk result (λ d. d.0 ≡ length (line_of self.old).line) }
        ensures after { IfOk result (λ _. self.new ≡ after_drain self.old) }
        ensures taken { IfOk result (λ d. d.1
            ≡ cond (sender_first self.old.waiters) (map taken_by self.old.waiters) []) }
        ensures refused { IfErr result (λ _. (self.new ≡ self.old)
            × (into.new.items ≡ into.old.items)) }
        ensures room { vec_len into.old + length (line_of self.old).line ≤ vec_capacity into.old
            → vec_capacity into.new ≡ vec_capacity into.old }
        ensures memory { IsErrOf result DrainError.NoMemory
            → vec_capacity into.old < vec_len into.old + length (line_of self.old).line }
        ensures no_growth { OnErr result (vec_capacity into.new ≡ vec_capacity into.old) }
    {
        if self.receivers == 0 {
            return Err(DrainError::Closed);
        }
        let Some(count) = self.buffer.len().checked_add(self.waiters.senders_len()) else {
            return Err(DrainError::NoMemory);
        };
        reserve(into, count)?;
        self.buffer.move_into(into);
        Ok((count, Ended::taken(&mut self.waiters, into, self.alloc)))
    }
}
