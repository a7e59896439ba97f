//! A script: what a channel is made with, and what happens on it.
use kanal_journal::journal::Event;

/// The capacity of a channel, and the events on it in their order. The messages are numbers.
///
/// A capacity of `None` is a channel without limit.
#[derive(Drop)]
pub struct Script {
    pub capacity: Option<usize>,
    pub events: Vec<Event<u64>>,
}
