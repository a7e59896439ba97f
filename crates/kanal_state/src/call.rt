//! A call, as a history has it.
use kanal_core::internal::Outcome;
use kanal_events::event::{Event, Reply};
use kanal_log::LogEntry;
use std::collections::LinkedList;

/// A call that was made, and all that was told of it. No value of it is made: it stands in proofs alone.
pub struct Call<T> {
    pub event: Event<T>,
    pub reply: Reply<T>,
    /// The waits that it settled, by the numbers of their tickets.
    pub settled: LinkedList<(u64, Outcome<T>)>,
    pub drained: LinkedList<T>,
    pub cleared: LinkedList<T>,
}

impl<T> LogEntry for Call<T> {
    ghost use Rattle.kanal_state.specs.Calls.{MovesNoMessage};

    ghost unowned = { λ call. MovesNoMessage call.event };
}
