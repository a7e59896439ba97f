//! A channel as docs/RULES.md tells it: one line of messages, the receivers that wait, and two counts.
//!
//! It has nothing of the core. Messages, and receivers that wait, are numbers.
use kanal::error::{CloseError, ReceiveError, SendError};
use std::alloc::{AllocGlobal, Global};
use std::collections::VecDeque;
use std::process::Abort;

/// What the offer of a message comes to.
pub enum ModelOffer {
    /// The message is in the buffer.
    Entered,
    /// The receiver with this number has it.
    Handed(usize),
    /// There is no place for it.
    Full,
    /// It is refused.
    Refused(SendError),
}

/// What a take comes to.
pub enum ModelTake {
    /// This message; and the send with that number, which waited, is done.
    Taken(usize, Option<usize>),
    /// There is none.
    Empty,
    /// It is refused.
    Refused(ReceiveError),
}

/// What the handles tell of a channel: the messages in its buffer and the handles of each side.
#[derive(Debug, PartialEq, Eq, Drop)]
pub struct Told {
    pub len: usize,
    pub senders: u32,
    pub receivers: u32,
}

/// A channel. `None` is no limit.
#[derive(Drop)]
pub struct ModelLine {
    capacity: Option<usize>,
    messages: VecDeque<usize, Global>,
    demands: VecDeque<usize, Global>,
    senders: u32,
    receivers: u32,
}

/// Puts the number at the end.
pub fn add(rt: &impl Abort, numbers: &mut VecDeque<usize, Global>, number: usize) {
    let added = numbers.push_back(number).is_ok();
    assert!(rt; added);
}

impl ModelLine {
    /// An empty channel with so many handles of each side.
    pub fn new(rt: &impl AllocGlobal, capacity: Option<usize>, handles: u32) -> Self {
        ModelLine {
            capacity,
            messages: VecDeque::new(rt.alloc()),
            demands: VecDeque::new(rt.alloc()),
            senders: handles,
            receivers: handles,
        }
    }

    /// What its handles tell.
    pub fn told(&self) -> Told {
        let length = self.messages.len();
        Told {
            len: self
                .capacity
                .map_or(length, |capacity| length.min(capacity)),
            senders: self.senders,
            receivers: self.receivers,
        }
    }

    /// Offers a message: to the receiver that waits longest, or to the buffer.
    pub fn offer(&mut self, rt: &impl Abort, message: usize) -> ModelOffer {
        match (self.senders, self.receivers) {
            (0, 0) => return ModelOffer::Refused(SendError::Closed),
            (_, 0) => return ModelOffer::Refused(SendError::ReceiveClosed),
            (0, _) => return ModelOffer::Refused(SendError::Sealed),
            _ => {},
        }
        if let Some(receiver) = self.demands.pop_front() {
            return ModelOffer::Handed(receiver);
        }
        if self
            .capacity
            .is_some_and(|capacity| self.messages.len() >= capacity)
        {
            return ModelOffer::Full;
        }
        add(rt, &mut self.messages, message);
        ModelOffer::Entered
    }

    /// Takes the front of the line. The send that waits longest, whose message is the first one behind the
    /// buffer, is done then: its message has moved up into the buffer, or was the one taken.
    pub fn take(&mut self) -> ModelTake {
        if self.receivers == 0 {
            return ModelTake::Refused(ReceiveError::Closed);
        }
        let served = match self.capacity {
            Some(capacity) => self.messages.get(capacity).copied(),
            None => None,
        };
        match self.messages.pop_front() {
            Some(message) => ModelTake::Taken(message, served),
            None if self.senders == 0 => ModelTake::Refused(ReceiveError::SendClosed),
            None => ModelTake::Empty,
        }
    }

    /// Lets a message that found no place wait with its send.
    pub fn wait_send(&mut self, rt: &impl Abort, message: usize) {
        add(rt, &mut self.messages, message);
    }

    /// Lets a receiver wait.
    pub fn wait_receive(&mut self, rt: &impl Abort, receiver: usize) {
        add(rt, &mut self.demands, receiver);
    }

    /// Takes back the message of a send that waits.
    pub fn leave_send(&mut self, message: usize) {
        self.messages.retain(|number| *number != message);
    }

    /// Lets a receiver that waits go.
    pub fn leave_receive(&mut self, receiver: usize) {
        self.demands.retain(|number| *number != receiver);
    }

    /// Moves the whole line, in which no send waits, to the end of these messages.
    pub fn drain(
        &mut self,
        rt: &impl Abort,
        into: &mut VecDeque<usize, Global>,
    ) -> Result<usize, ReceiveError> {
        if self.receivers == 0 {
            return Err(ReceiveError::Closed);
        }
        let count = self.messages.len();
        for _ in 0..count {
            if let Some(message) = self.messages.pop_front() {
                add(rt, into, message);
            }
        }
        Ok(count)
    }

    /// Drops the last sender, while nobody waits.
    pub fn drop_sender(&mut self) {
        self.senders = 0;
    }

    /// Lets the senders be done. The receivers that wait are let go.
    pub fn seal(&mut self) -> Result<(), CloseError> {
        if self.senders == 0 {
            return Err(CloseError());
        }
        self.senders = 0;
        self.demands.clear();
        Ok(())
    }

    /// Closes both sides. All messages and whoever waits are let go.
    pub fn close(&mut self) -> Result<(), CloseError> {
        if self.senders == 0 && self.receivers == 0 {
            return Err(CloseError());
        }
        self.senders = 0;
        self.receivers = 0;
        self.messages.clear();
        self.demands.clear();
        Ok(())
    }
}
