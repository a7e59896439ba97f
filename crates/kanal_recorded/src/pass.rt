//! The passes by which threads call a recorded channel.
//!
//! A call gets the lock, makes room in the pass's own list, lends the state to one step, and notes what that
//! answered.
ghost use Rattle.std.specs.Prelude.{◌≡◌};
ghost use Rattle.kanal_recorded.specs.Passes.{Notes, NotesAt, heard, newcomer, seen_length};
ghost use Rattle.kanal_journal.specs.Replays.{Records};

use crate::recorded::Recorded;
use kanal_core::internal::Outcome;
use kanal_journal::journal::{Ask, Event, RecordedState, Refusal, Reply, Side};
use std::alloc::Global;
use std::marker::Model;
use std::sync::Wait;

/// One call of a pass: what it asked and was replied, the place of its entry in the journal, and how
/// much of the journal the pass had seen before.
#[derive(Clone, Copy, Debug, PartialEq, Eq, Drop)]
pub struct Note<T> {
    /// What was asked.
    pub event: Event<T>,
    /// What was answered.
    pub reply: Reply<T>,
    /// The place of the entry in the journal, from 0.
    pub place: usize,
    /// How many of the journal's entries the pass had seen before.
    pub seen: usize,
}

/// How much of a journal a pass has seen: a length, to be told to other passes.
#[derive(Clone, Copy, Debug, PartialEq, Eq)]
pub struct Seen {
    length: usize,
}

/// One party's way to a recorded channel: it makes calls, and keeps a list of them.
///
/// A pass may call any recorded channel; which channel its list belongs to is not checked by a call.
/// A call that starts a wait answers its ticket and doesn't block; each call waits for the lock.
#[derive(Drop)]
pub struct Pass<T: Copy> {
    party: u32,
    notes: Vec<Note<T>>,
    seen: usize,
}

impl<T: Copy> Model for Pass<T> {
    ghost use Rattle.kanal_recorded.specs.Passes.{Calls};

    ghost Value = { Calls T };

    ghost view = { λ p. record { party = p.party; notes = p.notes.items; seen = p.seen } };
}

impl<T: Copy> Pass<T> {
    pub(crate) fn new(alloc: Global, party: u32) -> Self
        ensures { result ≡ newcomer party }
    {
        Pass {
            party,
            notes: Vec::new(alloc),
            seen: 0,
        }
    }

    /// The party's number. It never waits.
    /// Example: `channel.pass(rt)?.party()` answers `0` for the first pass that is drawn.
    pub fn party(&self) -> u32
        ensures { result ≡ self.now.party }
    {
        self.party
    }

    /// The calls that were made, oldest first, but for those that found no memory. It never waits.
    /// Example: `pass.notes()[0]` is `Note { event: TrySend(7), reply: Yes, place: 0, seen: 0 }`.
    pub fn notes(&self) -> &[Note<T>]
        ensures { result.now ≡ self.now.notes }
    {
        self.notes.as_slice()
    }

    /// Sends the message, and starts a wait where there is no place for it. It waits for the lock alone.
    ///
    /// `Sent` where it entered, `Waits` with the ticket where it waits. `Refused` gives the message back: `NoHandle`
    /// where no live sender is left, `Closed` where both counts are 0, `ReceiveClosed` where the receivers' alone is,
    /// `Sealed` where the senders' alone is, `TooMany` where the tickets are used up, `NoMemory` where memory was
    /// refused.
    /// Example: `pass.send(rt, &channel, 7)` answers `Sent`.
    pub fn send<R: Wait>(&mut self, rt: &R, channel: &Recorded<T>, message: T) -> Reply<T>
        ensures { Notes self.old (Event.Send message) result self.new }
    {
        self.call(rt, channel, Event::Send(message))
    }

    /// Sends the message if it can enter at once. It waits for the lock alone.
    ///
    /// `Yes` where it entered, `No` with the message where there is no place. `Refused` gives the message
    /// back: `NoHandle` where no live sender is left, `Closed` where both counts are 0, `ReceiveClosed`
    /// where the receivers' alone is, `Sealed` where the senders' alone is, `NoMemory` where memory was refused.
    /// Example: `pass.try_send(rt, &channel, 7)` answers `Yes`.
    pub fn try_send<R: Wait>(&mut self, rt: &R, channel: &Recorded<T>, message: T) -> Reply<T>
        ensures { Notes self.old (Event.TrySend message) result self.new }
    {
        self.call(rt, channel, Event::TrySend(message))
    }

    /// Receives a message, and starts a wait where none is there. It waits for the lock alone.
    ///
    /// `Got` with the front of the line, or `Waits` with the ticket. `Refused` otherwise: `NoHandle` where no live
    /// receiver is left, `Closed` where the receivers' count is 0, `SendClosed` where nothing is there and the
    /// senders' count is 0, `TooMany` where the tickets are used up, `NoMemory` where memory was refused.
    /// Example: `pass.recv(rt, &channel)` answers `Waits(0)` on an empty channel.
    pub fn recv<R: Wait>(&mut self, rt: &R, channel: &Recorded<T>) -> Reply<T>
        ensures { Notes self.old Event.Recv result self.new }
    {
        self.call(rt, channel, Event::Recv)
    }

    /// Receives a message as a timed call does whose deadline has passed. It waits for the lock alone.
    ///
    /// `Got` with the front of the line. `Refused` otherwise: `NoHandle` where no live receiver is left, `Closed`
    /// where the receivers' count is 0, `Timeout` where nothing is there, `NoMemory` where memory was refused.
    /// Example: `pass.recv_late(rt, &channel)` answers `Refused(Timeout, None)` on an empty channel.
    pub fn recv_late<R: Wait>(&mut self, rt: &R, channel: &Recorded<T>) -> Reply<T>
        ensures { Notes self.old Event.RecvLate result self.new }
    {
        self.call(rt, channel, Event::RecvLate)
    }

    /// Receives a message if one is there. It waits for the lock alone.
    ///
    /// `Got` with the front of the line, `Nothing` where none is there. `Refused` otherwise: `NoHandle`
    /// where no live receiver is left, `Closed` where the receivers' count is 0, `SendClosed` where nothing
    /// is there and the senders' count is 0, `NoMemory` where memory was refused.
    /// Example: `pass.try_recv(rt, &channel)` answers `Got(7)` after 7 was sent.
    pub fn try_recv<R: Wait>(&mut self, rt: &R, channel: &Recorded<T>) -> Reply<T>
        ensures { Notes self.old Event.TryRecv result self.new }
    {
        self.call(rt, channel, Event::TryRecv)
    }

    /// Takes all messages, those of waiting senders too; the recorded channel keeps them. It waits for the
    /// lock alone.
    ///
    /// `Drained` with their number. `Refused` otherwise, and nothing is taken: `NoHandle` where no live
    /// receiver is left, `Closed` where the receivers' count is 0, `NoMemory` where memory was refused.
    /// Example: `pass.drain(rt, &channel)` answers `Drained(1)` after 7 was sent.
    pub fn drain<R: Wait>(&mut self, rt: &R, channel: &Recorded<T>) -> Reply<T>
        ensures { Notes self.old Event.Drain result self.new }
    {
        self.call(rt, channel, Event::Drain)
    }

    /// Takes back the wait with this ticket's number. It waits for the lock alone.
    ///
    /// `Withdrawn`, with the message of a send. `Refused` otherwise, and the wait stays: `NotWaiting` where
    /// the ticket doesn't wait, `NoMemory` where memory was refused.
    /// Example: `pass.withdraw(rt, &channel, 0)` answers `Withdrawn(None)` where ticket 0 is a waiting receive's.
    pub fn withdraw<R: Wait>(&mut self, rt: &R, channel: &Recorded<T>, ticket: u64) -> Reply<T>
        ensures { Notes self.old (Event.Withdraw ticket) result self.new }
    {
        self.call(rt, channel, Event::Withdraw(ticket))
    }

    /// Adds a live handle of the senders' side. It waits for the lock alone.
    ///
    /// `Done`; a count that is 0 stays 0. `Refused` otherwise, and no handle is added: `NoHandle` where no
    /// live sender is left, `TooMany` where the count is u32::MAX, `NoMemory` where memory was refused.
    /// Example: `pass.clone_tx(rt, &channel)` answers `Done`.
    pub fn clone_tx<R: Wait>(&mut self, rt: &R, channel: &Recorded<T>) -> Reply<T>
        ensures { Notes self.old Event.CloneTx result self.new }
    {
        self.call(rt, channel, Event::CloneTx)
    }

    /// Adds a live handle of the receivers' side. It waits for the lock alone.
    ///
    /// `Done`; a count that is 0 stays 0. `Refused` otherwise, and no handle is added: `NoHandle` where no
    /// live receiver is left, `TooMany` where the count is u32::MAX, `NoMemory` where memory was refused.
    /// Example: `pass.clone_rx(rt, &channel)` answers `Done`.
    pub fn clone_rx<R: Wait>(&mut self, rt: &R, channel: &Recorded<T>) -> Reply<T>
        ensures { Notes self.old Event.CloneRx result self.new }
    {
        self.call(rt, channel, Event::CloneRx)
    }

    /// Drops a live handle of the senders' side; the last ends all waits. It waits for the lock alone.
    ///
    /// `Done`. `Refused` otherwise, and no handle is dropped: `NoHandle` where no live sender is left, `NoMemory`
    /// where memory was refused.
    /// Example: `pass.drop_tx(rt, &channel)` answers `Done`.
    pub fn drop_tx<R: Wait>(&mut self, rt: &R, channel: &Recorded<T>) -> Reply<T>
        ensures { Notes self.old Event.DropTx result self.new }
    {
        self.call(rt, channel, Event::DropTx)
    }

    /// Drops a live handle of the receivers' side; the last ends all waits. It waits for the lock alone.
    ///
    /// `Done`. `Refused` otherwise, and no handle is dropped: `NoHandle` where no live receiver is left, `NoMemory`
    /// where memory was refused.
    /// Example: `pass.drop_rx(rt, &channel)` answers `Done`.
    pub fn drop_rx<R: Wait>(&mut self, rt: &R, channel: &Recorded<T>) -> Reply<T>
        ensures { Notes self.old Event.DropRx result self.new }
    {
        self.call(rt, channel, Event::DropRx)
    }

    /// Lets the senders be done: the receives that wait end, and what is there is still received. It waits
    /// for the lock alone.
    ///
    /// `Done`. `Refused` otherwise, and nothing is sealed: `NoHandle` where neither side has a live handle,
    /// `CloseError` where the senders' count is 0, `NoMemory` where memory was refused.
    /// Example: `pass.seal(rt, &channel)` answers `Done`.
    pub fn seal<R: Wait>(&mut self, rt: &R, channel: &Recorded<T>) -> Reply<T>
        ensures { Notes self.old Event.Seal result self.new }
    {
        self.call(rt, channel, Event::Seal)
    }

    /// Closes both sides, ends all waits and clears the buffer; the recorded channel keeps the messages. It
    /// waits for the lock alone.
    ///
    /// `Cleared` with the number of messages. `Refused` otherwise, and nothing is closed: `NoHandle` where neither
    /// side has a live handle, `CloseError` where both counts are 0, `NoMemory` where memory was refused.
    /// Example: `pass.close(rt, &channel)` answers `Cleared(1)` after 7 was sent.
    pub fn close<R: Wait>(&mut self, rt: &R, channel: &Recorded<T>) -> Reply<T>
        ensures { Notes self.old Event.Close result self.new }
    {
        self.call(rt, channel, Event::Close)
    }

    /// Asks a question through this side. It waits for the lock alone.
    ///
    /// `Number` or `Flag`. `Refused` otherwise: `NoHandle` where that side has no live handle, `NoMemory`
    /// where memory was refused.
    /// Example: `pass.ask(rt, &channel, Side::Tx, Ask::Len)` answers `Number(1)` after 7 was sent.
    pub fn ask<R: Wait>(
        &mut self,
        rt: &R,
        channel: &Recorded<T>,
        side: Side,
        question: Ask,
    ) -> Reply<T>
        ensures { Notes self.old (Event.Ask side question) result self.new }
    {
        self.call(rt, channel, Event::Ask(side, question))
    }

    /// Asks whether no sender is left and the line is empty. It waits for the lock alone.
    ///
    /// `Flag`. `Refused` otherwise: `NoHandle` where no live receiver is left, `NoMemory` where memory was refused.
    /// Example: `pass.terminated(rt, &channel)` answers `Flag(false)` while a sender is left.
    pub fn terminated<R: Wait>(&mut self, rt: &R, channel: &Recorded<T>) -> Reply<T>
        ensures { Notes self.old Event.Terminated result self.new }
    {
        self.call(rt, channel, Event::Terminated)
    }

    /// What became of the wait with this ticket's number so far, by the channel's journal: `None` where it waits, was
    /// withdrawn or was never given. The pass keeps nothing of this question. It waits for the lock, and has no
    /// error.
    /// Example: `pass.outcome(rt, &channel, 0)` answers `Some(Given(7))` once ticket 0 was given 7.
    pub fn outcome<R: Wait>(
        &mut self,
        rt: &R,
        channel: &Recorded<T>,
        ticket: u64,
    ) -> Option<Outcome<T>>
        ensures { self.new ≡ self.old }
    {
        channel.inner.lock(rt).outcome(ticket)
    }

    /// How much of the journal this pass has seen, for another pass to hear. It never waits.
    ///
    /// # Examples
    /// ```text
    /// let seen = a.tell();
    /// b.hear(seen);   b's next call now stands behind all that a has seen
    /// ```
    pub fn tell(&self) -> Seen
        ensures { seen_length result ≡ self.now.seen }
    {
        Seen { length: self.seen }
    }

    /// Takes note of what another pass has seen. It never waits.
    ///
    /// What is told of another channel is heard as well; the passes' lists then don't agree with either journal.
    ///
    /// # Examples
    /// ```text
    /// b.hear(a.tell());
    /// ```
    pub fn hear(&mut self, seen: Seen)
        ensures { self.new ≡ heard self.old (seen_length seen) }
    {
        self.seen = self.seen.max(seen.length);
    }

    fn call<R: Wait>(&mut self, rt: &R, channel: &Recorded<T>, event: Event<T>) -> Reply<T>
        ensures { Notes self.old event result self.new }
    {
        let mut inner = channel.inner.lock(rt);
        self.call_on(&mut inner.state, event)
    }

    fn call_on(&mut self, state: &mut RecordedState<T>, event: Event<T>) -> Reply<T>
        ensures state { Records state.old self.old.party event result state.new }
        ensures notes { NotesAt state.old self.old event result self.new }
    {
        if self.notes.try_reserve(1).is_err() {
            return event.refused(Refusal::NoMemory);
        }
        let place = state.len();
        let reply = state.step(self.party, event);
        if reply.is_no_memory() {
            return reply;
        }
        let seen = self.seen;
        self.notes.push_reserved(Note {
            event,
            reply,
            place,
            seen,
        });
        self.seen = seen.max(state.len());
        reply
    }
}
