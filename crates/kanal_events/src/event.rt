//! The events that a channel can be put through, and what it replies to each.
//!
//! What an event does to a channel, and what it tells, is said by `step` and `Tells` of `specs/Steps.antt`.
ghost use Rattle.std.specs.Prelude.{◌≡◌};
ghost use Rattle.kanal_events.specs.Steps.{is_done as tells_done, is_no_memory as tells_no_memory, message_of};

/// A side of the channel: the senders' or the receivers'.
#[derive(Clone, Copy, Debug, PartialEq, Eq)]
pub enum Side {
    /// The senders' side.
    Tx,
    /// The receivers' side.
    Rx,
}

/// A question that either side may ask.
#[derive(Clone, Copy, Debug, PartialEq, Eq)]
pub enum Ask {
    /// Whether there is a limit to the buffer.
    IsBounded,
    /// How many messages are in the buffer.
    Len,
    /// Whether there is no message in the buffer.
    IsEmpty,
    /// Whether the buffer holds all that its capacity allows.
    IsFull,
    /// The capacity, or the largest word where there is no limit.
    Capacity,
    /// How many receivers there are.
    ReceiverCount,
    /// How many senders there are.
    SenderCount,
    /// Whether both sides are gone.
    IsClosed,
    /// Whether the other side is gone.
    IsDisconnected,
}

/// One call on a channel.
///
/// A call is made through a live handle of its side; a withdrawal needs none, and a seal or a close
/// one of either side.
#[derive(Clone, Copy, Debug, PartialEq, Eq, Drop)]
pub enum Event<T> {
    /// Send this message, and wait if it can't enter at once.
    Send(T),
    /// Send this message if it can enter at once.
    TrySend(T),
    /// Receive a message, and wait if none is there.
    Recv,
    /// Receive a message through a timed call whose deadline has passed.
    RecvLate,
    /// Receive a message if one is there.
    TryRecv,
    /// Take all messages, those of waiting senders too.
    Drain,
    /// Take back the wait with this ticket.
    Withdraw(u64),
    /// Clone a sender.
    CloneTx,
    /// Clone a receiver.
    CloneRx,
    /// Drop a sender.
    DropTx,
    /// Drop a receiver.
    DropRx,
    /// Let the senders be done, and the receivers take what is left.
    Seal,
    /// Close both sides.
    Close,
    /// Ask a question through this side.
    Ask(Side, Ask),
    /// Ask whether no sender is left and no message is there, those of waiting senders included.
    Terminated,
}

/// Why an event changed nothing.
#[derive(Clone, Copy, Debug, PartialEq, Eq)]
pub enum Refusal {
    /// The channel is closed.
    Closed,
    /// A send, and no receiver is left.
    ReceiveClosed,
    /// A send, and no sender is left, as after a seal.
    Sealed,
    /// A receive, nothing is there, and no sender is left.
    SendClosed,
    /// The deadline has passed, and nothing is there.
    Timeout,
    /// A growth was refused for memory.
    NoMemory,
    /// The tickets are used up, or a side's count.
    TooMany,
    /// A close of a channel whose sides are both gone, or a seal of one without senders.
    CloseError,
    /// The event's side has no live handle.
    NoHandle,
    /// A withdrawal of a ticket that does not wait.
    NotWaiting,
}

/// What an event is answered.
#[derive(Clone, Copy, Debug, PartialEq, Eq, Drop)]
pub enum Reply<T> {
    /// The message of a `Send` entered.
    Sent,
    /// The call waits, under the ticket with this number.
    Waits(u64),
    /// The message of a `TrySend` entered.
    Yes,
    /// The message of a `TrySend` comes back: there is no place for it.
    No(T),
    /// The message that was received.
    Got(T),
    /// There is no message.
    Nothing,
    /// So many messages were drained.
    Drained(usize),
    /// The wait was taken back, with the message of a send.
    Withdrawn(Option<T>),
    /// The handle was cloned or dropped, or the channel was sealed.
    Done,
    /// The channel was closed, and so many messages were cleared.
    Cleared(usize),
    /// A number that was asked for.
    Number(u64),
    /// Yes or no, as it was asked.
    Flag(bool),
    /// Nothing changed, and the event's message, if it had one, comes back.
    Refused(Refusal, Option<T>),
}

impl<T: Drop> Event<T> {
    /// The refusal of this event, which gives its message back where it has one.
    pub fn refused(self, reason: Refusal) -> Reply<T>
        ensures { result ≡ Reply.Refused reason (message_of self) }
    {
        match self {
            Event::Send(message) | Event::TrySend(message) => Reply::Refused(reason, Some(message)),
            _ => Reply::Refused(reason, None),
        }
    }
}

impl<T> Reply<T> {
    /// Whether the reply says that there was no memory.
    pub fn is_no_memory(&self) -> bool
        ensures { result ≡ tells_no_memory self.now }
    {
        matches!(self, Reply::Refused(Refusal::NoMemory, _))
    }

    /// Whether the reply says that what was asked was done: a clone, a drop or a seal.
    pub fn is_done(&self) -> bool
        ensures { result ≡ tells_done self.now }
    {
        matches!(self, Reply::Done)
    }
}
