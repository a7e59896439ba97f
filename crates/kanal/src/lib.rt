//! kanal: one channel for many producers and many consumers, in threads and in tasks.
//!
//! A handle counts itself and hands on each call to its channel; no lock is taken here. A call's contract says
//! which step of a line of messages it was, in the words of every history.
#![tactic(auto)]

pub use kanal_cell::signal;
pub use kanal_core::internal;

/// The errors of a channel, and the one of a cell.
pub mod error {
    pub use kanal_cell::error::NoMemory;
    pub use kanal_core::error::{
        CloseError, DrainError, NewError, ReceiveError, ReceiveErrorTimeout, SendError,
        SendErrorTimeout, TooMany, WaitError,
    };
}

mod async_receiver;
mod async_sender;
mod channel;
mod each;
mod handle;
mod messages;
mod receiver;
mod receiver_view;
mod send_all;
mod sender;
mod sender_view;
mod two_receivers;

pub use async_receiver::AsyncReceiver;
pub use async_sender::AsyncSender;
pub use channel::{bounded, bounded_async, over, unbounded, unbounded_async};
pub use each::{ForEach, TryForEach};
pub use error::{
    CloseError, DrainError, NewError, NoMemory, ReceiveError, ReceiveErrorTimeout, SendError,
    SendErrorTimeout, TooMany, WaitError,
};
pub use handle::Handle;
pub use kanal_channel::{Clock, Shared, SystemClock, TestClock};
pub use kanal_futures::{Prefer, ReceiveFuture, ReceiveStream, SendFuture};
pub use kanal_state::{CallContext, History, NoHistory};
pub use messages::Messages;
pub use receiver::Receiver;
pub use receiver_view::ReceiverView;
pub use send_all::SendAll;
pub use sender::Sender;
pub use sender_view::SenderView;
pub use two_receivers::prefer;
