//! The recorded channel's state: a channel that keeps a journal of every call made on it.
//!
//! That the journal explains what is there is a fact of the type, so it holds each time that the state is got, from
//! under a lock too. Room for all that a step may add is made before the step.
ghost use Rattle.std.specs.Prelude.{◌≡◌, ◌↔◌, ℕ, ◌+◌, ◌<◌, [], ◌∷◌, ◌++◌, IfOk, IsErrOf, Some, length, vec_len, vec_capacity};
ghost use Rattle.kanal_core.specs.Line.{last_word, messages};
ghost use Rattle.kanal_journal.specs.Paired.{Paired, until, rest};
ghost use Rattle.kanal_journal.specs.Replays.{Records, Replays, opened_recording, outcome_of, recorded_history, events_of};
ghost use Rattle.kanal_journal.specs.RecordedInside.{JournalIsSound, journal_of};
ghost use Rattle.kanal_journal.specs.Running.{IsSame, HasRoom};
ghost use Rattle.kanal_journal.specs.Runs.{Leads, opening_account};

use super::report::Settlement;
use super::running::{Running, make_room};
use kanal_core::error::NewError;
use kanal_core::internal::Outcome;
use kanal_events::event::{Event, Refusal, Reply};
use std::alloc::{AllocError, Global};
use std::marker::Model;

/// One call of a journal: the party that made it, its event, and what it was replied.
#[derive(Clone, Copy, Debug, PartialEq, Eq, Drop)]
pub struct Entry<T> {
    /// Who made the call.
    pub party: u32,
    /// What was asked.
    pub event: Event<T>,
    /// What was answered.
    pub reply: Reply<T>,
}

/// A journal at its end, with all that was told along it.
#[derive(Drop)]
pub struct Journal<T> {
    /// The capacity of the channel, `None` being no limit.
    pub capacity: Option<usize>,
    /// The calls, in the order in which they were made.
    pub entries: Vec<Entry<T>>,
    /// Every wait that was settled, in order; a step's number is the place of its entry.
    pub settled: Vec<Settlement<T>>,
    /// The messages of all drains, in order.
    pub drained: Vec<T>,
    /// The messages that a close cleared, in order.
    pub cleared: Vec<T>,
}

/// Puts the call at the journal's end, which has room for it.
fn enter<T: Copy>(entries: &mut Vec<Entry<T>>, party: u32, event: Event<T>, reply: Reply<T>)
    requires { vec_len entries.old < vec_capacity entries.old }
    ensures { entries.new.items ≡ entries.old.items
        ++ record { party = party; event = event; reply = reply } ∷ [] }
{
    let entry = Entry {
        party,
        event,
        reply,
    };
    entries.push_reserved(entry);
}

/// Makes room in each list for one item more than there are entries, which is all that a step may
/// need.
fn reserve<T: Copy>(running: &mut Running<T>, entries: &mut Vec<Entry<T>>) -> Result<(), AllocError>
    ensures same { IsSame running.old running.new }
    ensures entries { entries.new.items ≡ entries.old.items }
    ensures room { IfOk result (λ _. HasRoom (vec_len entries.new + 1) running.new) }
    ensures entry { IfOk result (λ _. vec_len entries.new < vec_capacity entries.new) }
{
    let total = entries.len() + 1;
    make_room(entries, total)?;
    running.reserve(total)
}

/// A channel with its journal: one entry for each call, in the order in which the calls were made.
///
/// Contracts see the capacity, the entries and all that was told along them. The line of a new channel, put through
/// the events of the entries, gives each entry's reply and ends in what is there.
#[derive(Drop)]
pub struct RecordedState<T: Copy> {
    running: Running<T>,
    entries: Vec<Entry<T>>,
    capacity: Option<usize>,
}

impl<T: Copy> Model for RecordedState<T> {
    ghost use Rattle.kanal_journal.specs.Replays.{Recording};

    ghost Value = { Recording T };

    ghost use Rattle.kanal_journal.specs.RecordedInside.{seen_of, IsExplained};

    ghost view = { seen_of };

    ghost invariant = { IsExplained };
}

impl<T: Copy> RecordedState<T> {
    /// A new channel of this capacity, `None` being no limit, with one handle of each side and an empty journal.
    ///
    /// # Errors
    /// `TooLarge` exactly for `Some(usize::MAX)`; `NoMemory` where there is no memory for the channel.
    ///
    /// # Examples
    /// ```text
    /// let mut state: RecordedState<u64> = RecordedState::new(alloc, Some(1))?;
    /// state.step(0, Event::TrySend(7))   answers  Yes
    /// ```
    pub fn new(alloc: Global, capacity: Option<usize>) -> Result<Self, NewError>
        ensures opened { IfOk result (λ s. s ≡ opened_recording capacity) }
        ensures large { IsErrOf result NewError.TooLarge ↔ (capacity ≡ Some last_word) }
    {
        let running = Running::new(alloc, capacity)?;
        Ok(RecordedState {
            running,
            entries: Vec::new(alloc),
            capacity,
        })
    }

    /// Makes the event for the party, and puts its entry at the journal's end; or finds no memory and
    /// changes nothing.
    fn record(
        running: &mut Running<T>,
        entries: &mut Vec<Entry<T>>,
        party: u32,
        event: Event<T>,
    ) -> Reply<T>
        requires { JournalIsSound entries.old.items running.old }
        ensures sound { JournalIsSound entries.new.items running.new }
        ensures records { Records (journal_of entries.old.items running.old) party event result
            (journal_of entries.new.items running.new) }
    {
        if reserve(running, entries).is_err() {
            return event.refused(Refusal::NoMemory);
        }
        let reply = running.answer(entries.len(), event);
        if !reply.is_no_memory() {
            enter(entries, party, event, reply);
        }
        reply
    }

    /// Makes one event for the party, and puts one entry at the journal's end: the party, the event,
    /// and the reply that this call answers.
    ///
    /// `Refused(NoMemory, ..)` with the event's message back is answered where memory was refused, for the entry or
    /// for the event itself; then there is no entry, and nothing has changed. Every other reply is the one that the
    /// line of messages gives. A send or a receive that has to wait answers its ticket and doesn't block.
    ///
    /// # Examples
    /// ```text
    /// let mut state = RecordedState::new(alloc, Some(1))?;
    /// state.step(0, Event::Send(7))   answers  Sent
    /// state.step(0, Event::Send(8))   answers  Waits(0)
    /// state.step(1, Event::TryRecv)   answers  Got(7)
    /// state.len()                     answers  3
    /// ```
    pub fn step(&mut self, party: u32, event: Event<T>) -> Reply<T>
        ensures { Records self.old party event result self.new }
    {
        Self::record(&mut self.running, &mut self.entries, party, event)
    }

    /// What the journal says, for a caller's proof; it does nothing when it runs.
    ///
    /// The journal replays to what is there, and its events lead there from a new channel, so that each of the `laws`
    /// holds of it. Of the messages that entered and the receives that were made, leaving out those that were
    /// withdrawn, ended or cleared, the i-th message went to the i-th receive as soon as both were there, after every
    /// number of entries; and the line holds the messages that went to none.
    pub fn replays(&self)
        ensures replays { Replays self.now.capacity self.now.entries self.now.account }
        ensures leads { Leads (opening_account self.now.capacity) (events_of self.now.entries)
            self.now.account }
        ensures paired { (n : ℕ) → Paired (until n (recorded_history self.now)) }
        ensures left { messages self.now.account.line.line ≡ rest (recorded_history self.now) }
    {
        let _ = &self.running;
    }

    /// The capacity that `new` was given.
    /// Example: `RecordedState::new(alloc, Some(1))?.capacity()` answers `Some(1)`.
    pub fn capacity(&self) -> Option<usize>
        ensures { result ≡ self.now.capacity }
    {
        self.capacity
    }

    /// The journal, oldest entry first.
    /// Example: `state.entries()[0]` is `Entry { party: 0, event: TrySend(7), reply: Yes }`.
    pub fn entries(&self) -> &[Entry<T>]
        ensures { result.now ≡ self.now.entries }
    {
        self.entries.as_slice()
    }

    /// How many entries the journal has.
    /// Example: `state.len()` answers `1` after one call that found memory.
    pub fn len(&self) -> usize
        ensures { result ≡ length self.now.entries }
    {
        self.entries.len()
    }

    /// What became of the wait with this ticket's number so far: `None` where it waits, was withdrawn
    /// or was never given.
    ///
    /// # Examples
    /// ```text
    /// state.step(0, Event::Recv)         answers  Waits(0)
    /// state.step(1, Event::TrySend(7))   answers  Yes
    /// state.outcome(0)                   answers  Some(Given(7))
    /// ```
    pub fn outcome(&self, ticket: u64) -> Option<Outcome<T>>
        ensures { result ≡ outcome_of ticket self.now.account.settled }
    {
        for settlement in self.running.settled.as_slice() {
            if settlement.ticket == ticket {
                return Some(settlement.outcome);
            }
        }
        None
    }

    /// The journal, moved out with all that was told along it. Its events lead from a new channel to
    /// what was told, so that each of the `laws` holds of it.
    /// Example: `state.into_journal()` is `Journal { capacity, entries, settled, drained, cleared }`.
    pub fn into_journal(self) -> Journal<T>
        ensures journal { (result.capacity ≡ self.capacity)
            × (result.entries.items ≡ self.entries) }
        ensures told { (result.settled.items ≡ self.account.settled)
            × (result.drained.items ≡ self.account.drained)
            × (result.cleared.items ≡ self.account.cleared) }
        ensures replays { Replays self.capacity self.entries self.account }
        ensures leads { Leads (opening_account self.capacity) (events_of self.entries) self.account }
        ensures paired { (n : ℕ) → Paired (until n (recorded_history self)) }
    {
        let RecordedState {
            running,
            entries,
            capacity,
        } = self;
        Journal {
            capacity,
            entries,
            settled: running.settled,
            drained: running.drained,
            cleared: running.cleared,
        }
    }
}
