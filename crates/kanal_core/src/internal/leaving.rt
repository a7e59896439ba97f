//! What moves out of the core: ended waits, cleared messages, and what is left at a channel's end.
//!
//! It moves as it stood and asks for no memory: waiters are settled and messages dropped after the lock was released.
ghost use Rattle.std.specs.Prelude.{◌≡◌, ◌+◌, ◌≤◌, [], ◌∷◌, ◌++◌, cond, length, map};
ghost use Rattle.std.specs.Vec.{vec_capacity, vec_len};
ghost use Rattle.kanal_core.specs.Calls.{TakesFirst};
ghost use Rattle.kanal_core.specs.Waiters.{brought, sender_first};
ghost use Rattle.kanal_core.specs.Channel.{ended_by, taken_by};
ghost use Rattle.kanal_core.specs.Endings.{HaveMovedOut, settled_by};

use super::buffer::Buffer;
use super::outcome::{Outcome, Reason, Settled, Waiter};
use super::wait_list::WaitList;
use std::alloc::Global;
use std::marker::Model;

#[derive(Clone, Copy)]
enum Ending {
    /// The senders' messages were taken, and have moved out already.
    Taken,
    For(Reason),
}

impl Ending {
    fn settle<T, W>(self, waiter: Waiter<T, W>) -> Settled<T, W>
        requires { HaveMovedOut self (waiter ∷ []) }
        ensures { result ≡ settled_by self waiter }
    {
        let Waiter { ticket, message, w } = waiter;
        let outcome = match self {
            Ending::For(reason) => Outcome::Ended(reason, message),
            Ending::Taken => match message {
                None => Outcome::Taken,
                Some(_message) => unreachable!(),
            },
        };
        Settled { ticket, w, outcome }
    }
}

/// The waits that a step ended, or the sends whose messages a drain took, oldest first.
#[derive(Drop)]
pub struct Ended<T, W> {
    ending: Ending,
    waiters: WaitList<T, W>,
}

impl<T, W> Model for Ended<T, W> {
    ghost use Rattle.std.specs.Prelude.{List, map};
    ghost use Rattle.kanal_core.specs.declared.internal.outcome.Settled.{Settled};

    ghost Value = { List (Settled T W) };

    ghost use Rattle.kanal_core.specs.Endings.{HaveMovedOut, settled_by};

    ghost view = { λ e. map (settled_by e.ending) e.waiters };

    ghost invariant = { λ e. HaveMovedOut e.ending e.waiters };
}

impl<T, W> Ended<T, W> {
    pub(crate) fn all(waiters: &mut WaitList<T, W>, reason: Reason, alloc: Global) -> Self
        ensures ended { result ≡ map (ended_by reason) waiters.old }
        ensures left { waiters.new ≡ [] }
    {
        Ended {
            ending: Ending::For(reason),
            waiters: waiters.take_all(alloc),
        }
    }

    pub(crate) fn taken(waiters: &mut WaitList<T, W>, into: &mut Vec<T>, alloc: Global) -> Self
        requires room { vec_len into.old + cond (sender_first waiters.old) (length waiters.old) 0
            ≤ vec_capacity into.old }
        ensures ended { result ≡ cond (sender_first waiters.old) (map taken_by waiters.old) [] }
        ensures left { waiters.new ≡ cond (sender_first waiters.old) [] waiters.old }
        ensures moved { into.new.items ≡ into.old.items
            ++ cond (sender_first waiters.old) (brought waiters.old) [] }
        ensures capacity { vec_capacity into.new ≡ vec_capacity into.old }
    {
        if !waiters.sender_first() {
            return Ended::nobody(alloc);
        }
        waiters.move_messages(into);
        Ended {
            ending: Ending::Taken,
            waiters: waiters.take_all(alloc),
        }
    }

    pub(crate) fn nobody(alloc: Global) -> Self
        ensures { result ≡ [] }
    {
        Ended {
            ending: Ending::Taken,
            waiters: WaitList::new(alloc),
        }
    }

    /// Hands out the oldest wait that is left. A sender whose wait ended has its message back; one
    /// whose message a drain took is told so.
    pub fn next(&mut self) -> Option<Settled<T, W>>
        ensures { TakesFirst result self.old self.new }
    {
        match self.waiters.pop_front() {
            None => None,
            Some(waiter) => Some(self.ending.settle(waiter)),
        }
    }
}

/// The messages that a close cleared, front first.
#[derive(Drop)]
pub struct Cleared<T> {
    buffer: Buffer<T>,
}

impl<T> Model for Cleared<T> {
    ghost use Rattle.std.specs.Prelude.{List};

    ghost Value = { List T };

    ghost view = { λ c. c.buffer.messages };
}

impl<T> Cleared<T> {
    pub(crate) fn new(buffer: Buffer<T>) -> Self
        ensures { result ≡ buffer.messages }
    {
        Cleared { buffer }
    }

    /// How many messages are left to hand out.
    pub fn len(&self) -> usize
        ensures { result ≡ length self.now }
    {
        self.buffer.len()
    }

    /// Hands out the front message of those that are left.
    pub fn next(&mut self) -> Option<T>
        ensures { TakesFirst result self.old self.new }
    {
        self.buffer.pop_front()
    }
}

/// The messages that were in a channel's line when its life ended: the buffer's, front first, and
/// then those of the senders that waited.
#[derive(Drop)]
pub struct Remaining<T, W> {
    buffer: Buffer<T>,
    waiters: WaitList<T, W>,
}

impl<T, W> Model for Remaining<T, W> {
    ghost use Rattle.std.specs.Prelude.{List, ◌++◌};
    ghost use Rattle.kanal_core.specs.Waiters.{brought};

    ghost Value = { List T };

    ghost view = { λ l. l.buffer.messages ++ brought l.waiters };
}

impl<T: Drop, W: Drop> Remaining<T, W> {
    pub(crate) fn new(buffer: Buffer<T>, waiters: WaitList<T, W>) -> Self
        ensures { result ≡ buffer.messages ++ brought waiters }
    {
        Remaining { buffer, waiters }
    }

    /// Hands out the front message of those that are left.
    pub fn next(&mut self) -> Option<T>
        ensures { TakesFirst result self.old self.new }
    {
        match self.buffer.pop_front() {
            Some(message) => Some(message),
            None => self.waiters.next_message(),
        }
    }
}

/// What a close moved out of the core.
#[derive(Drop)]
pub struct Closing<T, W> {
    /// The messages that were in the buffer.
    pub cleared: Cleared<T>,
    /// The waits that it ended.
    pub ended: Ended<T, W>,
}
