//! Laws that users of a channel lean on, as contracts.
//!
//! The functions here do nothing: each is called for what its contract says of every list of events.
ghost use Rattle.std.specs.Prelude.{◌≡◌, length};
ghost use Rattle.kanal_core.specs.Line.{IsWithin, tickets};
ghost use Rattle.kanal_journal.specs.Laws.{EachAccount, EachLine, AreRising, EndsOnce, EachStepRises, EntersByPlace, HasOneSide, IsBalanced, KeepsWhereRefused, StaysOver, StaysZero, WaitByPlace, WaitsWhenFull, told_history, without_ticket};

use crate::journal::Event;

/// No receive waits while a message is there: after every list of events the line is empty, or the demands are.
pub fn one_side_is_empty<T>(capacity: Option<usize>, events: &[Event<T>])
    ensures law { EachLine capacity events.now HasOneSide }
{
    let _ = capacity;
    let _ = events;
}

/// After every list of events the line's length and the number of the kept demands are together the
/// number of the kept messages and of the demands that wait.
pub fn lengths_agree<T>(capacity: Option<usize>, events: &[Event<T>])
    ensures law { EachAccount capacity events.now
        (λ a. IsBalanced (told_history events.now a) a.line) }
{
    let _ = capacity;
    let _ = events;
}

/// The entries without a ticket, which are the buffer, are never more than the capacity, and a sender
/// waits only while it is full.
pub fn buffer_is_bounded<T>(capacity: Option<usize>, events: &[Event<T>])
    ensures bound { EachLine capacity events.now
        (λ l. IsWithin (length (without_ticket l.line)) l.capacity) }
    ensures full { EachLine capacity events.now WaitsWhenFull }
    ensures same { EachLine capacity events.now (λ l. l.capacity ≡ capacity) }
{
    let _ = capacity;
    let _ = events;
}

/// A send waits exactly while its place in the line, counted from 0, is at or above the capacity; the
/// tickets of the line and those of the demands rise, and all were given; and the settlements of each
/// step stand in the order of their tickets.
pub fn tickets_follow_places<T>(capacity: Option<usize>, events: &[Event<T>])
    ensures places { EachLine capacity events.now (λ l. WaitByPlace l.capacity 0 l.line) }
    ensures line { EachLine capacity events.now (λ l. AreRising 0 (tickets l.line) l.next) }
    ensures demands { EachLine capacity events.now (λ l. AreRising 0 l.demands l.next) }
    ensures settled { EachAccount capacity events.now (λ a. EachStepRises a.settled a.line.next) }
{
    let _ = capacity;
    let _ = events;
}

/// A `TrySend` through a live handle, with a sender and a receiver left, enters exactly if a demand
/// waits or the line is shorter than the capacity, unless it is refused for memory.
pub fn try_send_enters<T>(capacity: Option<usize>, events: &[Event<T>])
    ensures law { EachAccount capacity events.now (λ a. EntersByPlace a.handles a.line) }
{
    let _ = capacity;
    let _ = events;
}

/// A ticket's settlements and withdrawals, counted together, are at most one.
pub fn ticket_ends_once<T>(capacity: Option<usize>, events: &[Event<T>])
    ensures law { EachAccount capacity events.now (λ a. EndsOnce events.now a.replies a.settled) }
{
    let _ = capacity;
    let _ = events;
}

/// Once a `Recv` or a `TryRecv` was told that the channel is closed, or that no sender is left, each
/// later one is told one of these, or that its side has no live handle.
pub fn end_is_final<T>(capacity: Option<usize>, events: &[Event<T>])
    ensures law { EachAccount capacity events.now (λ a. StaysOver events.now a.replies) }
{
    let _ = capacity;
    let _ = events;
}

/// A count that reached 0 never rises, and a refused close changes nothing.
pub fn zero_is_final<T>(capacity: Option<usize>, events: &[Event<T>])
    ensures senders { StaysZero capacity events.now (λ l. l.senders) }
    ensures receivers { StaysZero capacity events.now (λ l. l.receivers) }
    ensures refused { EachAccount capacity events.now (λ a. KeepsWhereRefused a.handles a.line) }
{
    let _ = capacity;
    let _ = events;
}
