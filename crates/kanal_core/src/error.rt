//! The errors of a channel, each with its exact text.
ghost use Rattle.std.specs.Prelude.{Some};
ghost use Rattle.kanal_core.specs.Texts.{close_error_text, new_error_text, receive_error_text, receive_error_timeout_text, send_error_text, send_error_timeout_text, too_many_text};

use std::error::Error;
use std::fmt;

/// A channel could not be made.
#[derive(Clone, Copy, Debug, PartialEq, Eq)]
pub enum NewError {
    /// The capacity was `usize::MAX`, which no bounded channel may have.
    TooLarge,
    /// There was no memory for the channel.
    NoMemory,
}

impl fmt::Display for NewError {
    ghost output = { λ e. Some (new_error_text e) };

    fn fmt<W: fmt::Write>(&self, f: &mut fmt::Formatter<W>) -> fmt::Result {
        match self {
            NewError::TooLarge => write!(f, "capacity too large"),
            NewError::NoMemory => write!(f, "no memory"),
        }
    }
}

impl Error for NewError {}

/// The channel was closed before.
#[derive(Clone, Copy, Debug, PartialEq, Eq)]
pub struct CloseError();

impl fmt::Display for CloseError {
    ghost output = { λ e. Some (close_error_text e) };

    fn fmt<W: fmt::Write>(&self, f: &mut fmt::Formatter<W>) -> fmt::Result {
        write!(f, "channel is already closed")
    }
}

impl Error for CloseError {}

/// A number has no place for one more: a side's count of handles, or the tickets of a channel.
#[derive(Clone, Copy, Debug, PartialEq, Eq)]
pub struct TooMany;

impl fmt::Display for TooMany {
    ghost output = { λ e. Some (too_many_text e) };

    fn fmt<W: fmt::Write>(&self, f: &mut fmt::Formatter<W>) -> fmt::Result {
        write!(f, "too many")
    }
}

impl Error for TooMany {}

/// A wait could not be started.
#[derive(Clone, Copy, Debug, PartialEq, Eq)]
pub enum WaitError {
    /// There was no memory for the entry in the list of waiters.
    NoMemory,
    /// The channel's tickets are used up.
    TooMany,
}

/// A drain was refused.
#[derive(Clone, Copy, Debug, PartialEq, Eq)]
pub enum DrainError {
    /// No receiver is left.
    Closed,
    /// The vector had too little room for the whole line, and there was no memory for more.
    NoMemory,
}

/// A message could not be sent.
#[derive(Clone, Copy, Debug, PartialEq, Eq)]
pub enum SendError {
    /// Both sides are gone.
    Closed,
    /// No receiver is left.
    ReceiveClosed,
    /// The channel was sealed: what is in it is received, and nothing more enters.
    Sealed,
    /// A growth was refused: of a buffer without limit, or for a wait.
    NoMemory,
    /// The channel's tickets are used up.
    TooMany,
    /// A future that had ended was polled again.
    Finished,
}

impl fmt::Display for SendError {
    ghost output = { λ e. Some (send_error_text e) };

    fn fmt<W: fmt::Write>(&self, f: &mut fmt::Formatter<W>) -> fmt::Result {
        match self {
            SendError::Closed => write!(f, "send to a closed channel"),
            SendError::ReceiveClosed => write!(f, "send to a half closed channel"),
            SendError::Sealed => write!(f, "send to a sealed channel"),
            SendError::NoMemory => write!(f, "no memory"),
            SendError::TooMany => write!(f, "too many"),
            SendError::Finished => write!(f, "already finished"),
        }
    }
}

impl Error for SendError {}

/// A message could not be sent by a deadline.
#[derive(Clone, Copy, Debug, PartialEq, Eq)]
pub enum SendErrorTimeout {
    /// Both sides are gone.
    Closed,
    /// No receiver is left.
    ReceiveClosed,
    /// The channel was sealed: what is in it is received, and nothing more enters.
    Sealed,
    /// The deadline passed.
    Timeout,
    /// A growth was refused: of a buffer without limit, or for a wait.
    NoMemory,
    /// The channel's tickets are used up.
    TooMany,
    /// The deadline is past the largest moment.
    DeadlineOutOfRange,
}

impl fmt::Display for SendErrorTimeout {
    ghost output = { λ e. Some (send_error_timeout_text e) };

    fn fmt<W: fmt::Write>(&self, f: &mut fmt::Formatter<W>) -> fmt::Result {
        match self {
            SendErrorTimeout::Closed => write!(f, "send to a closed channel"),
            SendErrorTimeout::ReceiveClosed => write!(f, "send to a half closed channel"),
            SendErrorTimeout::Sealed => write!(f, "send to a sealed channel"),
            SendErrorTimeout::Timeout => write!(f, "send timeout"),
            SendErrorTimeout::NoMemory => write!(f, "no memory"),
            SendErrorTimeout::TooMany => write!(f, "too many"),
            SendErrorTimeout::DeadlineOutOfRange => write!(f, "deadline out of range"),
        }
    }
}

impl Error for SendErrorTimeout {}

/// A message could not be received.
#[derive(Clone, Copy, Debug, PartialEq, Eq)]
pub enum ReceiveError {
    /// No receiver is left.
    Closed,
    /// Nothing is there, and no sender is left.
    SendClosed,
    /// A growth was refused, for a wait.
    NoMemory,
    /// The channel's tickets are used up.
    TooMany,
    /// A future that had ended was polled again.
    Finished,
}

impl fmt::Display for ReceiveError {
    ghost output = { λ e. Some (receive_error_text e) };

    fn fmt<W: fmt::Write>(&self, f: &mut fmt::Formatter<W>) -> fmt::Result {
        match self {
            ReceiveError::Closed => write!(f, "receive from a closed channel"),
            ReceiveError::SendClosed => write!(f, "receive from a half closed channel"),
            ReceiveError::NoMemory => write!(f, "no memory"),
            ReceiveError::TooMany => write!(f, "too many"),
            ReceiveError::Finished => write!(f, "already finished"),
        }
    }
}

impl Error for ReceiveError {}

/// A message could not be received by a deadline.
#[derive(Clone, Copy, Debug, PartialEq, Eq)]
pub enum ReceiveErrorTimeout {
    /// No receiver is left.
    Closed,
    /// Nothing is there, and no sender is left.
    SendClosed,
    /// The deadline passed.
    Timeout,
    /// A growth was refused, for a wait.
    NoMemory,
    /// The channel's tickets are used up.
    TooMany,
    /// The deadline is past the largest moment.
    DeadlineOutOfRange,
}

impl fmt::Display for ReceiveErrorTimeout {
    ghost output = { λ e. Some (receive_error_timeout_text e) };

    fn fmt<W: fmt::Write>(&self, f: &mut fmt::Formatter<W>) -> fmt::Result {
        match self {
            ReceiveErrorTimeout::Closed => write!(f, "receive from a closed channel"),
            ReceiveErrorTimeout::SendClosed => write!(f, "receive from a half closed channel"),
            ReceiveErrorTimeout::Timeout => write!(f, "receive timeout"),
            ReceiveErrorTimeout::NoMemory => write!(f, "no memory"),
            ReceiveErrorTimeout::TooMany => write!(f, "too many"),
            ReceiveErrorTimeout::DeadlineOutOfRange => write!(f, "deadline out of range"),
        }
    }
}

impl Error for ReceiveErrorTimeout {}
