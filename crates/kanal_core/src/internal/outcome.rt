//! The values that go in and out of the core: tickets, waiters and what became of them, and the
//! answers of an offer and of a take.
//!
//! A `Ticket` is made by the list of waiters alone.
ghost use Rattle.std.specs.Prelude.{◌≡◌, IsSome, Some, None};
ghost use Rattle.kanal_core.specs.Tickets.{number_of};

/// What a started wait is known by: its number, and the place where it waits.
///
/// Tickets are numbered from 0, sends and receives together, and no number is given twice. A place
/// is given again once who waited there has left. Two tickets are equal if both parts are.
#[derive(Clone, Copy, Debug, PartialEq, Eq)]
pub struct Ticket {
    pub(crate) number: u64,
    pub(crate) place: usize,
}

impl Ticket {
    /// The ticket's number.
    pub fn number(&self) -> u64
        ensures { result ≡ number_of self.now }
    {
        self.number
    }
}

/// A started wait: a sender with its message, or a receiver with none, and what the waiter brought.
#[derive(Drop)]
pub struct Waiter<T, W> {
    pub ticket: Ticket,
    pub message: Option<T>,
    pub w: W,
}

impl<T, W> Waiter<T, W> {
    pub(crate) fn given(self, message: T) -> Settled<T, W>
        requires { self.message ≡ None }
        ensures { result
            ≡ record { ticket = self.ticket; w = self.w; outcome = Outcome.Given message } }
    {
        let Waiter {
            ticket,
            message: own,
            w,
        } = self;
        match own {
            None => Settled {
                ticket,
                w,
                outcome: Outcome::Given(message),
            },
            Some(_own) => unreachable!(),
        }
    }

    pub(crate) fn taken(self) -> (T, Settled<T, W>)
        requires { IsSome self.message }
        ensures message { self.message ≡ Some result.0 }
        ensures settled { result.1
            ≡ record { ticket = self.ticket; w = self.w; outcome = Outcome.Taken } }
    {
        let Waiter { ticket, message, w } = self;
        match message {
            None => unreachable!(),
            Some(message) => {
                let outcome = Outcome::Taken;
                (message, Settled { ticket, w, outcome })
            },
        }
    }
}

/// Why a wait ended without a message having moved.
#[derive(Clone, Copy, Debug, PartialEq, Eq)]
pub enum Reason {
    /// The channel was closed.
    Closed,
    /// The last sender was dropped.
    SendClosed,
    /// The last receiver was dropped.
    ReceiveClosed,
}

/// What became of a wait.
#[derive(Clone, Copy, Debug, PartialEq, Eq, Drop)]
pub enum Outcome<T> {
    /// The waiting sender's message was taken.
    Taken,
    /// The waiting receiver is given this message.
    Given(T),
    /// The wait ended, and a waiting sender has its message back.
    Ended(Reason, Option<T>),
}

/// A waiter that has left the list, with what it brought and what became of it.
#[derive(Drop)]
pub struct Settled<T, W> {
    pub ticket: Ticket,
    pub w: W,
    pub outcome: Outcome<T>,
}

/// The answer of an offer.
#[derive(Drop)]
pub enum Offer<T, W> {
    /// The message went into the buffer.
    Entered,
    /// The oldest waiting receiver was given the message.
    Handed(Settled<T, W>),
    /// The buffer is full; the message comes back.
    Full(T),
    /// Both sides are gone; the message comes back.
    Closed(T),
    /// No receiver is left; the message comes back.
    ReceiveClosed(T),
    /// No sender is left, as after a seal; the message comes back.
    Sealed(T),
    /// An unlimited buffer found no memory to grow; the message comes back.
    NoMemory(T),
}

/// The answer of a take.
#[derive(Drop)]
pub enum Take<T, W> {
    /// The front of the line, and the waiting sender whose message it was or whose message now has
    /// a place in the buffer.
    Got(T, Option<Settled<T, W>>),
    /// No receiver is left.
    Closed,
    /// There is no message and no sender is left.
    SendClosed,
    /// There is no message.
    Empty,
}
