//! Calls of the channel's core.
mod rows;

use crate::answer::AnyAnswer;
use crate::driver::{Score, Subject, make_row};
use kanal_core::error::{DrainError, NewError, WaitError};
use kanal_core::internal::{ChannelInternal, Closing, Offer, Steps, Take, Ticket};
use rows::ROWS;
use std::alloc::Global;
use std::marker::Brand;

type NumberCore = ChannelInternal<u64, u8>;

/// A call of the core.
#[derive(Clone, Copy)]
pub enum CoreCall {
    /// Offers this message.
    Offer(u64),
    /// Lets a send of this message wait, which finds no place.
    WaitSend(u64, u8),
    /// Takes a message.
    Take,
    /// Lets a receive wait, which finds no message.
    WaitRecv(u8),
    /// Withdraws the first wait that was started, which brought this.
    Withdraw(u8),
    /// Makes room in the vector for so many messages.
    Room(usize),
    /// Drains the line into the vector.
    Drain,
    AddSender,
    AddReceiver,
    DropSender,
    DropReceiver,
    Seal,
    Close,
    /// Asks each question of an empty core of capacity 3.
    Questions,
}

/// What a refused call leaves as it was.
#[derive(Clone, Copy, Debug, PartialEq, Eq)]
pub struct CoreState {
    len: usize,
    drained: usize,
    senders: u32,
    receivers: u32,
}

/// A core with the ticket of its first wait, and a vector to drain into.
#[derive(Drop)]
struct Called {
    core: NumberCore,
    first: Option<Ticket>,
    into: Vec<u64>,
}

impl Subject for Called {
    type Call = CoreCall;

    type Answer = AnyAnswer;

    type State = CoreState;

    fn state(&self) -> CoreState {
        CoreState {
            len: self.core.len(),
            drained: self.into.len(),
            senders: self.core.sender_count(),
            receivers: self.core.receiver_count(),
        }
    }

    fn make(&mut self, call: CoreCall) -> AnyAnswer {
        match call {
            CoreCall::Offer(message) => self.offer(message),
            CoreCall::WaitSend(message, w) => self.wait_send(message, w),
            CoreCall::Take => self.take(),
            CoreCall::WaitRecv(w) => self.wait_recv(w),
            CoreCall::Withdraw(w) => self.withdraw(w),
            CoreCall::Room(count) if self.into.try_reserve(count).is_err() => AnyAnswer::NoMemory,
            CoreCall::Room(_) => AnyAnswer::Done,
            CoreCall::Drain => self.drain(),
            CoreCall::AddSender => done(self.core.add_sender().is_ok()),
            CoreCall::AddReceiver => done(self.core.add_receiver().is_ok()),
            CoreCall::DropSender => AnyAnswer::Flag(self.core.drop_sender().next().is_some()),
            CoreCall::DropReceiver => AnyAnswer::Flag(self.core.drop_receiver().next().is_some()),
            CoreCall::Seal => done(self.core.seal().is_ok()),
            CoreCall::Close => self.close(),
            CoreCall::Questions => AnyAnswer::Flag(self.is_as_it_began()),
        }
    }

    fn refused(_call: CoreCall) -> AnyAnswer {
        AnyAnswer::NoMemory
    }
}

/// Whether an end or a clone was made.
fn done(is_made: bool) -> AnyAnswer {
    if is_made {
        AnyAnswer::Done
    } else {
        AnyAnswer::Ended
    }
}

impl Called {
    fn offer(&mut self, message: u64) -> AnyAnswer {
        match self.core.offer(message) {
            Offer::Entered => AnyAnswer::Done,
            Offer::Handed(_settled) => AnyAnswer::Handed,
            Offer::Full(back) if back == message => AnyAnswer::No,
            Offer::Sealed(back) if back == message => AnyAnswer::Sealed,
            Offer::NoMemory(back) if back == message => AnyAnswer::NoMemory,
            _ => AnyAnswer::Other,
        }
    }

    fn wait_send(&mut self, message: u64, w: u8) -> AnyAnswer {
        let Offer::Full(offered) = self.core.offer(message) else {
            return AnyAnswer::Other;
        };
        match self.core.wait_send(offered, w) {
            Ok(ticket) => {
                self.first = self.first.or(Some(ticket));
                AnyAnswer::Waits
            },
            Err((WaitError::NoMemory, back, same)) if back == message && same == w => {
                AnyAnswer::NoMemory
            },
            Err(_other) => AnyAnswer::Other,
        }
    }

    fn take(&mut self) -> AnyAnswer {
        match self.core.take() {
            Take::Got(message, None) => AnyAnswer::Got(message),
            Take::Empty => AnyAnswer::Nothing,
            Take::SendClosed => AnyAnswer::SendClosed,
            _ => AnyAnswer::Other,
        }
    }

    fn wait_recv(&mut self, w: u8) -> AnyAnswer {
        let Take::Empty = self.core.take() else {
            return AnyAnswer::Other;
        };
        match self.core.wait_recv(w) {
            Ok(ticket) => {
                self.first = self.first.or(Some(ticket));
                AnyAnswer::Waits
            },
            Err((WaitError::NoMemory, same)) if same == w => AnyAnswer::NoMemory,
            Err(_other) => AnyAnswer::Other,
        }
    }

    fn withdraw(&mut self, w: u8) -> AnyAnswer {
        let Some(first) = self.first else {
            return AnyAnswer::Other;
        };
        let Some(out) = self.core.withdraw(first, &mut Steps::<Brand>::idle()) else {
            return AnyAnswer::Nothing;
        };
        match out.message {
            Some(message) if out.w == w => AnyAnswer::Got(message),
            _ => AnyAnswer::Other,
        }
    }

    /// Drains into the vector, and answers all that is in it as digits.
    fn drain(&mut self) -> AnyAnswer {
        let answer = self.core.drain_into(&mut self.into);
        let mut digits: u64 = 0;
        for digit in &self.into {
            digits = digits.wrapping_mul(10).wrapping_add(*digit);
        }
        match answer {
            Ok((count, _taken)) => AnyAnswer::Drained(count, digits),
            Err(DrainError::NoMemory) => AnyAnswer::NoMemory,
            Err(_other) => AnyAnswer::Other,
        }
    }

    /// Answers the first message that was cleared, where no more than one wait ended.
    fn close(&mut self) -> AnyAnswer {
        match self.core.close() {
            Ok(Closing { cleared, ended }) => {
                let (mut cleared, mut ended) = (cleared, ended);
                let first = cleared.next();
                let are_right = ended.next().is_some() == first.is_some() && ended.next().is_none();
                match first {
                    Some(message) if are_right => AnyAnswer::Got(message),
                    None if are_right => AnyAnswer::Done,
                    _ => AnyAnswer::Other,
                }
            },
            Err(_refused) => AnyAnswer::Ended,
        }
    }

    /// Whether the core has room for three messages and has none, one handle a side, and nothing has ended.
    fn is_as_it_began(&self) -> bool {
        let core = &self.core;
        let is_empty = core.len() == 0 && core.is_empty() && !core.is_full();
        let is_bounded = core.is_bounded() && core.capacity() == 3;
        let is_one_each = core.sender_count() == 1 && core.receiver_count() == 1;
        let is_gone = core.is_closed() || core.send_side_gone() || core.receive_side_gone();
        is_empty && is_bounded && is_one_each && !is_gone && !core.is_terminated()
    }
}

/// A core for so many messages, or without limit.
fn opened(alloc: Global, tally: &mut Score, capacity: Option<usize>) -> Option<NumberCore> {
    let Some(capacity) = capacity else {
        return Some(NumberCore::unbounded(alloc));
    };
    match NumberCore::new(alloc, capacity) {
        Err(NewError::NoMemory) => {
            tally.add()?;
            NumberCore::new(alloc, capacity).ok()
        },
        made => made.ok(),
    }
}

/// Makes the calls of each row.
pub fn call_all(alloc: Global, tally: &mut Score) -> Option<()> {
    for row in ROWS {
        let mut called = Called {
            core: opened(alloc, tally, row.made)?,
            first: None,
            into: Vec::new(alloc),
        };
        make_row(&mut called, tally, row)?;
    }
    Some(())
}
