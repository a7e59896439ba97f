//! What a call of the core, of a handle or of a future answers, in one form for all.
use crate::given::Message;
use kanal::error::{CloseError, ReceiveError, ReceiveErrorTimeout, SendError, SendErrorTimeout};

/// An answer.
#[derive(Clone, Copy, Debug, PartialEq, Eq)]
pub enum AnyAnswer {
    /// It is done: a message was sent, or a side ended.
    Done,
    /// The message of a try entered.
    Yes,
    /// The message of a try found no place.
    No,
    /// The message went to a receive that waits.
    Handed,
    /// This message was received, or withdrawn.
    Got(u64),
    /// There is no message.
    Nothing,
    /// So many messages were drained; their numbers are the digits.
    Drained(usize, u64),
    /// A number.
    Number(u64),
    /// Yes or no, as it was asked.
    Flag(bool),
    /// It waits.
    Waits,
    /// It waits, and asks for another poll.
    Woken,
    /// The deadline has passed.
    Timeout,
    /// The channel is sealed.
    Sealed,
    /// No sender is left.
    SendClosed,
    /// The end had come before.
    Ended,
    /// A future had answered before.
    Finished,
    /// No memory was found.
    NoMemory,
    /// None of these, or something else is wrong.
    Other,
}

/// Of a send.
pub fn sent(answer: Result<(), SendError>) -> AnyAnswer {
    match answer {
        Ok(()) => AnyAnswer::Done,
        Err(SendError::Sealed) => AnyAnswer::Sealed,
        Err(SendError::NoMemory) => AnyAnswer::NoMemory,
        Err(SendError::Finished) => AnyAnswer::Finished,
        Err(_other) => AnyAnswer::Other,
    }
}

/// Of a send that doesn't wait.
pub fn tried(answer: Result<bool, SendError>) -> AnyAnswer {
    match answer {
        Ok(true) => AnyAnswer::Yes,
        Ok(false) => AnyAnswer::No,
        Err(error) => sent(Err(error)),
    }
}

/// Of a send with a deadline.
pub fn sent_in_time(answer: Result<(), SendErrorTimeout>) -> AnyAnswer {
    match answer {
        Ok(()) => AnyAnswer::Done,
        Err(SendErrorTimeout::Timeout) => AnyAnswer::Timeout,
        Err(SendErrorTimeout::NoMemory) => AnyAnswer::NoMemory,
        Err(_other) => AnyAnswer::Other,
    }
}

/// Of a receive; the message is dropped.
pub fn received(answer: Result<Message, ReceiveError>) -> AnyAnswer {
    match answer {
        Ok(message) => AnyAnswer::Got(message.number),
        Err(ReceiveError::SendClosed) => AnyAnswer::SendClosed,
        Err(ReceiveError::NoMemory) => AnyAnswer::NoMemory,
        Err(ReceiveError::Finished) => AnyAnswer::Finished,
        Err(_other) => AnyAnswer::Other,
    }
}

/// Of a receive that doesn't wait.
pub fn found(answer: Result<Option<Message>, ReceiveError>) -> AnyAnswer {
    match answer {
        Ok(Some(message)) => AnyAnswer::Got(message.number),
        Ok(None) => AnyAnswer::Nothing,
        Err(error) => received(Err(error)),
    }
}

/// Of a receive with a deadline.
pub fn received_in_time(answer: Result<Message, ReceiveErrorTimeout>) -> AnyAnswer {
    match answer {
        Ok(message) => AnyAnswer::Got(message.number),
        Err(ReceiveErrorTimeout::Timeout) => AnyAnswer::Timeout,
        Err(ReceiveErrorTimeout::NoMemory) => AnyAnswer::NoMemory,
        Err(_other) => AnyAnswer::Other,
    }
}

/// Of a seal or a close.
pub fn ended(answer: Result<(), CloseError>) -> AnyAnswer {
    match answer {
        Ok(()) => AnyAnswer::Done,
        Err(_ended) => AnyAnswer::Ended,
    }
}
