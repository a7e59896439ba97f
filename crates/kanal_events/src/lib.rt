//! What can be asked of a channel, what it replies, and the one set of steps by which the core is asked.
//!
//! No other crate defines an event, a reply, or what an event does to a line. Nothing here waits or takes a lock.
#![tactic(auto)]

pub mod event;
pub mod step_result;
pub mod steps;
