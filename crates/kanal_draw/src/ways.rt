//! The line with who sent each message, the arrows of those that were received, and the waits with their slots.
use std::alloc::{AllocError, AllocFailed, Global};

/// How many messages of a line are written one by one.
const SHOWN: usize = 8;

/// A place in the picture: a row in a party's lane, and the slot of a wait there. An entry has slot 0.
#[derive(Clone, Copy)]
pub struct Spot {
    pub row: usize,
    pub party: u32,
    pub slot: usize,
}

/// The way of a message, from the entry that sent it to its receive.
#[derive(Clone, Copy, Drop)]
pub struct Arrow {
    pub from: Spot,
    pub to: Spot,
}

/// One wait: where it began, and the row in which it ended, with whether no message was taken or given.
#[derive(Clone, Copy, Drop)]
pub struct Wait {
    ticket: u64,
    pub from: Spot,
    pub end: Option<(usize, bool)>,
}

/// A message in the line, with the ticket under which its sender began to wait.
#[derive(Clone, Copy, Drop)]
pub struct Sent {
    pub from: Spot,
    pub message: u64,
    pub ticket: Option<u64>,
}

/// The messages in the line, oldest first; the arrows of those that left it; and all waits.
#[derive(Drop)]
pub struct Ways {
    pub capacity: Option<usize>,
    pub line: Vec<Sent>,
    pub arrows: Vec<Arrow>,
    pub waits: Vec<Wait>,
}

impl Ways {
    /// So many messages go to this receive or drain.
    pub fn take(&mut self, count: usize, to: Spot) -> Result<(), AllocFailed<Arrow>> {
        for _ in 0..count {
            if self.line.is_empty() {
                break;
            }
            let from = self.line.remove(0).from;
            self.arrows.push(Arrow { from, to })?;
        }
        Ok(())
    }

    /// A wait begins at this entry, in a slot behind all that the party's waits have which go on.
    pub fn begin(&mut self, ticket: u64, entry: Spot) -> Result<(), AllocFailed<Wait>> {
        let mut from = entry;
        for wait in &self.waits {
            if wait.from.party == entry.party && wait.end.is_none() {
                from.slot = from.slot.max(wait.from.slot.saturating_add(1));
            }
        }
        let end = None;
        self.waits.push(Wait { ticket, from, end })
    }

    /// The wait with this ticket ends in this row; it answers where. The message of one that is lost leaves.
    pub fn settle(&mut self, ticket: u64, row: usize, is_lost: bool) -> Option<Spot> {
        if is_lost {
            self.line.retain(|sent| sent.ticket != Some(ticket));
        }
        for wait in self.waits.iter_mut() {
            if wait.ticket == ticket && wait.end.is_none() {
                wait.end = Some((row, is_lost));
                return Some(Spot { row, ..wait.from });
            }
        }
        None
    }

    /// The messages in words, with a bar in front of those whose senders wait; or how many there are,
    /// if they are many.
    pub fn words(&self, alloc: Global) -> Result<String, AllocError> {
        let mut words = String::new(alloc);
        let count = self.line.len();
        if count > SHOWN {
            write!(words, "{count} messages")?;
            return Ok(words);
        }
        for (place, sent) in self.line.iter().enumerate() {
            let space = if place > 0 { " " } else { "" };
            let is_behind = self.capacity == Some(place);
            let bar = if is_behind { "| " } else { "" };
            let message = sent.message;
            write!(words, "{space}{bar}{message}")?;
        }
        Ok(words)
    }
}
