//! Sending and receiving in a task, for every history of a channel.
//!
//! A future tries the lock and never waits for it; no waker is woken or dropped under the lock. `Receiving`,
//! `Sending` and `ReceiveStream` carry a pass between their polls; `ReceiveFuture` and `SendFuture` answer without
//! it.
#![tactic(auto)]

mod answer;
mod call;
mod ghost_value;
mod plain;
mod prefer;
mod progress;
mod receiving;
mod sending;
mod started;
mod stream;
mod wakers;

pub use prefer::{Prefer, prefer_streams};
pub use receiving::{ReceiveAnswer, ReceiveFuture, Receiving, receive_future, recv_in_task};
pub use sending::{SendAnswer, SendFuture, Sending, SuspendedSend, send_future, send_in_task};
pub use stream::{ReceiveStream, receive_stream};
