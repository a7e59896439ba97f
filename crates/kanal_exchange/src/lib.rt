//! Exchanges of lists by threads, whose contracts say that what came out is what went in.
//!
//! Each thread calls by a pass of its own, and when all have ended, the passes have all of the right to make calls
//! between them: so nobody else put a message or took one. Nothing is recorded when it runs.
#![tactic(auto)]

mod endpoint;
mod error;
mod exchange;
mod gathering;
mod pipeline;
mod tasks;
mod threads;

pub use error::ExchangeError;
pub use exchange::exchanged;
pub use gathering::gathered;
pub use kanal_core::error::{NewError, ReceiveError, SendError};
pub use kanal_one_history::{Call, LogId, NewLog};
pub use pipeline::{Stage, mapped, mapped_by_two};
pub use tasks::{exchanged_from_task, exchanged_to_task};
