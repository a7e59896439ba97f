//! A history that exists in proofs alone: one writer adds to it, and readers have seen its beginnings.
//!
//! A log is a table of one word. Each of its seats carries a view: what its holder has seen, which entries are its
//! own, and its share of the right to add entries. Who has all of the right knows that each entry is its own or
//! unowned. No other crate steps a seat of a log.
#![tactic(auto)]

mod entry;
mod log;
mod reader;
mod rule;

pub use entry::{EntryOf, LogEntry};
pub use log::{GhostLog, NewLog, Writer};
pub use reader::Reader;
pub use rule::{Law, LogId, LogView, Share};
