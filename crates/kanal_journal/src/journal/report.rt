//! What is told along a list of events: every wait that was settled, and the report of all.
use kanal_core::internal::Outcome;
use kanal_events::event::Reply;

/// A wait that was settled at a step: its ticket's number, and what became of it.
#[derive(Clone, Copy, Debug, PartialEq, Eq, Drop)]
pub struct Settlement<T> {
    pub step: usize,
    pub ticket: u64,
    pub outcome: Outcome<T>,
}

/// All that was told along a list of events.
#[derive(Drop)]
pub struct Report<T> {
    /// One reply for each event.
    pub replies: Vec<Reply<T>>,
    /// Every wait that was settled, in order.
    pub settled: Vec<Settlement<T>>,
    /// The messages of all drains, in order.
    pub drained: Vec<T>,
    /// The messages that a close cleared, in order.
    pub cleared: Vec<T>,
    /// The messages still in the line at the end, the buffer's first.
    pub left: Vec<T>,
}
