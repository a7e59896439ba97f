//! A pool of workers whose answers are the jobs' answers, in the jobs' order.
//!
//! `map_jobs` answers with each job's value (`Job`), for every number of workers; `map_in_turn` does so on one
//! thread.
#![tactic(auto)]

mod error;
mod job;
mod places;
mod pool;

pub use error::PoolError;
pub use job::{Gate, Job, NoGate};
pub use kanal::error::NoMemory;
pub use pool::{map_both_ways, map_in_turn, map_jobs};
