//! The recorded channel: threads call it through passes, and at its end its whole history is checked.
//!
//! Each call of a pass waits for the lock; nothing here starts a thread.
#![tactic(auto)]

mod finish;
mod inner;
mod pass;
mod recorded;

pub use pass::{Note, Pass, Seen};
pub use recorded::{Mismatch, Recorded};
