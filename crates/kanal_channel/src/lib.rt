//! A channel as its handles share it: the lock round the core and its history, and the calls over it.
//!
//! A call takes the lock, has the state make one step and keep the call, releases the lock, and only then wakes
//! those whose waits it settled, and drops what left the core. Of the other libraries only `kanal_futures`
//! takes the lock: a poll tries it, and steps the state under it.
#![tactic(auto)]

mod admin;
mod blocking;
mod operation;
mod receiving;
mod sending;
mod shared;
mod timed;

pub use blocking::StartedWait;
pub use kanal_cell::{Clock, SystemClock, TestClock};
pub use operation::Operation;
pub use receiving::OfReceive;
pub use sending::OfSend;
pub use shared::{Locked, Pending, Shared};
