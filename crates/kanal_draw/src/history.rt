//! Makes the calls on `kanal_journal`'s recorded channel, and follows each message and each wait as its journal tells it.
use crate::fault::Failure;
use crate::reading::{CallLine, Reading};
use crate::ways::{Arrow, Sent, Spot, Ways};
use kanal_core::internal::Outcome;
use kanal_journal::journal::{Entry, Event, Journal, RecordedState, Reply, Settlement};
use kanal_script::printer::print_reply;
use std::alloc::{AllocError, Global};
use std::str;

/// What an entry is beside its words: answered as asked, refused or with nothing there for it, a seal, or a close.
#[derive(Clone, Copy)]
pub enum Mark {
    Plain,
    Refused,
    Seal,
    Close,
}

/// One entry, with the words of its call and its answer, and the line after it.
#[derive(Drop)]
pub struct DrawnRow<'a> {
    pub party: u32,
    pub call: &'a str,
    pub answer: String,
    pub mark: Mark,
    pub line: String,
}

/// A history, as it is drawn. Rows are counted from 0.
#[derive(Drop)]
pub struct DrawnHistory<'a> {
    pub rows: Vec<DrawnRow<'a>>,
    pub ways: Ways,
}

impl<'a> DrawnHistory<'a> {
    /// Makes the calls that were read, and follows what was told.
    pub fn of(alloc: Global, reading: Reading<'a>) -> Result<DrawnHistory<'a>, Failure> {
        let calls = reading.calls;
        let journal = play(alloc, reading.capacity, calls.as_slice(), reading.events)?;
        let ways = Ways {
            capacity: journal.capacity,
            line: Vec::new(alloc),
            arrows: Vec::new(alloc),
            waits: Vec::new(alloc),
        };
        let mut follower = Follower {
            alloc,
            ways,
            settled: journal.settled.as_slice(),
            drained: journal.drained.as_slice(),
            cleared: journal.cleared.as_slice(),
        };
        let mut rows = Vec::new(alloc);
        for (row, (call, entry)) in calls.iter().zip(journal.entries.iter()).enumerate() {
            rows.push(follower.row(row, call, entry)?)?;
        }
        let ways = follower.ways;
        Ok(DrawnHistory { rows, ways })
    }
}

/// Makes the calls on a new channel.
fn play(
    alloc: Global,
    capacity: Option<usize>,
    calls: &[CallLine<'_>],
    events: Vec<Event<u64>>,
) -> Result<Journal<u64>, Failure> {
    let mut state = RecordedState::new(alloc, capacity)?;
    for (call, event) in calls.iter().zip(events) {
        if state.step(call.party, event).is_no_memory() {
            return Err(Failure::NoMemory);
        }
    }
    Ok(state.into_journal())
}

/// The messages and waits between two entries, and what the journal tells of those that come.
#[derive(Drop)]
struct Follower<'j> {
    alloc: Global,
    ways: Ways,
    settled: &'j [Settlement<u64>],
    drained: &'j [u64],
    cleared: &'j [u64],
}

/// The first of these, so many, which are taken away from them.
fn taken<'j, T>(from: &mut &'j [T], count: usize) -> &'j [T] {
    let (own, later) = from.split_at(count.min(from.len()));
    *from = later;
    own
}

impl<'j> Follower<'j> {
    /// Follows one entry, and answers its row.
    fn row<'a>(
        &mut self,
        row: usize,
        call: &CallLine<'a>,
        entry: &Entry<u64>,
    ) -> Result<DrawnRow<'a>, Failure> {
        let (party, slot) = (entry.party, 0);
        let own = Spot { row, party, slot };
        let is_handed = self.settle(own)?;
        self.step(own, entry, is_handed)?;
        let mark = match (entry.event, entry.reply) {
            (_, Reply::Refused(_, _) | Reply::No(_) | Reply::Nothing) => Mark::Refused,
            (Event::Seal, _) => Mark::Seal,
            (Event::Close, _) => Mark::Close,
            _ => Mark::Plain,
        };
        Ok(DrawnRow {
            party,
            call: call.words,
            answer: self.answer(&entry.reply)?,
            mark,
            line: self.ways.words(self.alloc)?,
        })
    }

    /// Ends the waits that the entry settled, and answers whether one was given its message.
    fn settle(&mut self, from: Spot) -> Result<bool, AllocError> {
        let own = |settlement: &&Settlement<u64>| settlement.step == from.row;
        let count = self.settled.iter().take_while(own).count();
        let mut is_handed = false;
        for settlement in taken(&mut self.settled, count) {
            let is_lost = matches!(&settlement.outcome, Outcome::Ended(_, _));
            let wait = self.ways.settle(settlement.ticket, from.row, is_lost);
            if let (Outcome::Given(_), Some(to)) = (&settlement.outcome, wait) {
                self.ways.arrows.push(Arrow { from, to })?;
                is_handed = true;
            }
        }
        Ok(is_handed)
    }

    /// Moves what the entry itself moved.
    fn step(&mut self, from: Spot, entry: &Entry<u64>, is_handed: bool) -> Result<(), Failure> {
        match entry.reply {
            Reply::Sent | Reply::Yes => {
                if !is_handed {
                    self.enter(from, entry.event, None)?;
                }
            },
            Reply::Waits(ticket) => {
                self.ways.begin(ticket, from)?;
                self.enter(from, entry.event, Some(ticket))?;
            },
            Reply::Got(_message) => self.ways.take(1, from)?,
            Reply::Drained(count) => self.ways.take(count, from)?,
            Reply::Withdrawn(_message) => self.enter(from, entry.event, None)?,
            Reply::Cleared(_count) => self.ways.line.clear(),
            _ => {},
        }
        Ok(())
    }

    /// The event's message enters the line, if it has one; the wait that it withdraws is over.
    fn enter(&mut self, from: Spot, event: Event<u64>, ticket: Option<u64>) -> Result<(), Failure> {
        match event {
            Event::Send(message) | Event::TrySend(message) => {
                self.ways.line.push(Sent {
                    from,
                    message,
                    ticket,
                })?;
            },
            Event::Withdraw(ticket) => drop(self.ways.settle(ticket, from.row, true)),
            _ => {},
        }
        Ok(())
    }

    /// The words of a reply, with the messages that it counts.
    fn answer(&mut self, reply: &Reply<u64>) -> Result<String, Failure> {
        let messages = match reply {
            Reply::Drained(count) => taken(&mut self.drained, *count),
            Reply::Cleared(count) => taken(&mut self.cleared, *count),
            _ => &[],
        };
        let mut bytes = Vec::new(self.alloc);
        if print_reply(&mut bytes, reply, messages).is_err() {
            return Err(Failure::NoMemory);
        }
        let line = str::from_utf8(&bytes).unwrap_or("");
        Ok(String::from_str(self.alloc, line.trim_end())?)
    }
}
