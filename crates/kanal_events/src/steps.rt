//! The steps of a channel, each a function that is lent the core and says what it told.
//!
//! Nothing is settled or dropped here, since whoever shares a core has its lock. `W` is what a waiter brings: the
//! steps don't look into it.
ghost use Rattle.std.specs.Prelude.{◌≡◌, ◌==◌, ◌+◌, ◌<◌, ◌≤◌, ◌&&◌, ◌++◌, length, true, false, Some, None, IfErr, IfNone, IfOk, IfSome, OnOk};
ghost use Rattle.std.specs.Vec.{vec_capacity, vec_len};
ghost use Rattle.kanal_core.specs.Channel.{line_of};
ghost use Rattle.kanal_core.specs.Tickets.{number_of};
ghost use Rattle.kanal_core.specs.Waiters.{IsPlaced, waiter_of, without};
ghost use Rattle.kanal_core.specs.Calls.{IsFull, IsEmpty};
ghost use Rattle.kanal_events.specs.Steps.{Tells, answer as answer_of, is_no_memory, only};
ghost use Rattle.kanal_events.specs.Given.{Gives, GivesNone};
ghost use Rattle.kanal_events.specs.Leaving.{IsStep, WaitPost, Leave, LeaveTried, gone_of};
ghost use Rattle.kanal_events.specs.StepResult.{Keeps, MustWait, Tries, drained_of, entered, got, is_drained, is_plain, may_wait, not_waiting, reply_of, told_of, withdrawn};

use crate::event::{Ask, Event, Refusal, Reply, Side};
use crate::step_result::{DrainSnapshot, FastResult, Placement, StepResult};
use kanal_core::error::{DrainError, WaitError};
use kanal_core::internal::{ChannelInternal, Offer, Settled, Steps, Take, Ticket, Waiter};
use std::marker::Brand;
use std::snapshot::Snapshot;

/// Puts a send's message into the buffer, where nobody waits and there is a place; it comes back, and
/// nothing changes, otherwise.
#[inline(always)]
pub fn push<T: Drop, W: Drop>(core: &mut ChannelInternal<T, W>, message: T) -> Result<(), T>
    ensures told { OnOk result (Tells (line_of core.old) (Event.Send message)
        (entered (line_of core.new))) }
    ensures refused { IfErr result (λ back. (back ≡ message) × (core.new ≡ core.old)) }
    ensures waiters { core.new.waiters ≡ core.old.waiters }
{
    core.push(message)
}

/// Takes a receive's message out of the buffer, where nobody waits and there is one; nothing changes otherwise.
#[inline(always)]
pub fn pop<T: Drop, W: Drop>(core: &mut ChannelInternal<T, W>) -> Option<T>
    ensures told { IfSome result (λ m. Tells (line_of core.old) Event.Recv
        (got m (line_of core.new))) }
    ensures refused { IfNone result (core.new ≡ core.old) }
    ensures waiters { core.new.waiters ≡ core.old.waiters }
{
    core.pop()
}

#[tactic(auto, using(crate::proofs::Leaving::oldest_leaves))]
fn try_send<T: Drop, W: Drop>(core: &mut ChannelInternal<T, W>, message: T) -> StepResult<T, W>
    ensures { IsStep core.old (Event.TrySend message) result core.new }
{
    match core.offer(message) {
        Offer::Entered => StepResult::replied(Reply::Yes),
        Offer::Handed(settled) => StepResult::one(Reply::Yes, Some(settled)),
        Offer::Full(back) => StepResult::replied(Reply::No(back)),
        Offer::Closed(back) => StepResult::replied(Reply::Refused(Refusal::Closed, Some(back))),
        Offer::ReceiveClosed(back) => StepResult::replied(Reply::Refused(
            Refusal::ReceiveClosed,
            Some(back),
        )),
        Offer::Sealed(back) => StepResult::replied(Reply::Refused(Refusal::Sealed, Some(back))),
        Offer::NoMemory(back) => StepResult::replied(Reply::Refused(Refusal::NoMemory, Some(back))),
    }
}

#[tactic(auto, using(crate::proofs::Leaving::oldest_leaves))]
fn try_recv<T: Drop, W: Drop>(core: &mut ChannelInternal<T, W>) -> StepResult<T, W>
    ensures { IsStep core.old Event.TryRecv result core.new }
{
    match core.take() {
        Take::Got(message, settled) => StepResult::one(Reply::Got(message), settled),
        Take::Closed => StepResult::replied(Reply::Refused(Refusal::Closed, None)),
        Take::SendClosed => StepResult::replied(Reply::Refused(Refusal::SendClosed, None)),
        Take::Empty => StepResult::replied(Reply::Nothing),
    }
}

#[tactic(auto, using(crate::proofs::Leaving::oldest_leaves))]
fn recv_late<T: Drop, W: Drop>(core: &mut ChannelInternal<T, W>) -> StepResult<T, W>
    ensures { IsStep core.old Event.RecvLate result core.new }
{
    match core.take() {
        Take::Got(message, settled) => StepResult::one(Reply::Got(message), settled),
        Take::Closed => StepResult::replied(Reply::Refused(Refusal::Closed, None)),
        Take::SendClosed => StepResult::replied(Reply::Refused(Refusal::Timeout, None)),
        Take::Empty => StepResult::replied(Reply::Refused(Refusal::Timeout, None)),
    }
}

#[inline(always)]
fn answered<T: Drop, W: Drop>(
    reply: Reply<T>,
    settled: Option<Settled<T, W>>,
) -> Result<FastResult<T, W>, Event<T>>
    ensures { result ≡ Ok (record { reply = reply; settled = settled }) }
{
    Ok(FastResult::new(reply, settled))
}

#[inline(always)]
#[tactic(auto, using(crate::proofs::Leaving::oldest_leaves))]
fn offer<T: Drop, W: Drop>(
    core: &mut ChannelInternal<T, W>,
    message: T,
) -> Result<FastResult<T, W>, Event<T>>
    ensures step { Tries (line_of core.old) (Event.Send message) result (line_of core.new) }
    ensures tickets { GivesNone core.old core.new }
    ensures leave { LeaveTried core.old.waiters result core.new.waiters }
{
    let refused = match core.offer(message) {
        Offer::Entered => return answered(Reply::Sent, None),
        Offer::Handed(settled) => return answered(Reply::Sent, Some(settled)),
        Offer::Full(back) => return Err(Event::Send(back)),
        Offer::Closed(back) => Reply::Refused(Refusal::Closed, Some(back)),
        Offer::ReceiveClosed(back) => Reply::Refused(Refusal::ReceiveClosed, Some(back)),
        Offer::Sealed(back) => Reply::Refused(Refusal::Sealed, Some(back)),
        Offer::NoMemory(back) => Reply::Refused(Refusal::NoMemory, Some(back)),
    };
    answered(refused, None)
}

#[inline(always)]
#[tactic(auto, using(crate::proofs::Leaving::oldest_leaves))]
fn take<T: Drop, W: Drop>(core: &mut ChannelInternal<T, W>) -> Result<FastResult<T, W>, Event<T>>
    ensures step { Tries (line_of core.old) Event.Recv result (line_of core.new) }
    ensures tickets { GivesNone core.old core.new }
    ensures leave { LeaveTried core.old.waiters result core.new.waiters }
{
    let refused = match core.take() {
        Take::Got(message, settled) => return answered(Reply::Got(message), settled),
        Take::Closed => Reply::Refused(Refusal::Closed, None),
        Take::SendClosed => Reply::Refused(Refusal::SendClosed, None),
        Take::Empty => return Err(Event::Recv),
    };
    answered(refused, None)
}

/// Makes a send or a receive.
///
/// # Errors
/// The call, where it must wait: nothing changed.
#[inline(always)]
pub fn start<T: Drop, W: Drop>(
    core: &mut ChannelInternal<T, W>,
    event: Event<T>,
) -> Result<FastResult<T, W>, Event<T>>
    requires waits { may_wait event ≡ true }
    ensures step { Tries (line_of core.old) event result (line_of core.new) }
    ensures tickets { GivesNone core.old core.new }
    ensures leave { LeaveTried core.old.waiters result core.new.waiters }
{
    match event {
        Event::Send(message) => offer(core, message),
        Event::Recv => take(core),
        _ => unreachable!(),
    }
}

#[inline(always)]
fn wait_send<T: Drop, W: Drop>(
    core: &mut ChannelInternal<T, W>,
    message: T,
    w: W,
) -> (Reply<T>, Placement<W>)
    requires full { IsFull (line_of core.old) }
    ensures told { Tells (line_of core.old) (Event.Send message)
        (only (line_of core.new) result.0) }
    ensures kept { Keeps result.0 result.1 }
    ensures tickets { Gives result.1 core.old core.new }
    ensures comes { WaitPost core.old.waiters (Event.Send message) w result.1 core.new.waiters }
{
    match core.wait_send(message, w) {
        Ok(ticket) => (Reply::Waits(ticket.number()), Placement::Ticket(ticket)),
        Err((WaitError::TooMany, back, w)) => {
            (
                Reply::Refused(Refusal::TooMany, Some(back)),
                Placement::Back(w),
            )
        },
        Err((WaitError::NoMemory, back, w)) => {
            (
                Reply::Refused(Refusal::NoMemory, Some(back)),
                Placement::Back(w),
            )
        },
    }
}

#[inline(always)]
fn wait_recv<T: Drop, W: Drop>(core: &mut ChannelInternal<T, W>, w: W) -> (Reply<T>, Placement<W>)
    requires empty { IsEmpty (line_of core.old) }
    ensures told { Tells (line_of core.old) Event.Recv (only (line_of core.new) result.0) }
    ensures kept { Keeps result.0 result.1 }
    ensures tickets { Gives result.1 core.old core.new }
    ensures comes { WaitPost core.old.waiters Event.Recv w result.1 core.new.waiters }
{
    match core.wait_recv(w) {
        Ok(ticket) => (Reply::Waits(ticket.number()), Placement::Ticket(ticket)),
        Err((WaitError::TooMany, w)) => {
            (Reply::Refused(Refusal::TooMany, None), Placement::Back(w))
        },
        Err((WaitError::NoMemory, w)) => {
            (Reply::Refused(Refusal::NoMemory, None), Placement::Back(w))
        },
    }
}

/// Starts the wait of a call that must. It settles nobody's wait.
#[inline(always)]
pub fn wait<T: Drop, W: Drop>(
    core: &mut ChannelInternal<T, W>,
    event: Event<T>,
    w: W,
) -> (Reply<T>, Placement<W>)
    requires waits { may_wait event ≡ true }
    requires must { MustWait (line_of core.old) event }
    ensures told { Tells (line_of core.old) event (only (line_of core.new) result.0) }
    ensures kept { Keeps result.0 result.1 }
    ensures tickets { Gives result.1 core.old core.new }
    ensures comes { WaitPost core.old.waiters event w result.1 core.new.waiters }
{
    match event {
        Event::Send(message) => wait_send(core, message, w),
        Event::Recv => wait_recv(core, w),
        _ => unreachable!(),
    }
}

/// Makes a send or a receive, and starts its wait with `w` where it must; `w` comes back otherwise.
pub fn make_waiting<T: Drop, W: Drop>(
    core: &mut ChannelInternal<T, W>,
    event: Event<T>,
    w: W,
) -> (StepResult<T, W>, Placement<W>)
    requires waits { may_wait event ≡ true }
    ensures told { Tells (line_of core.old) event (told_of (line_of core.new) result.0) }
    ensures kept { Keeps (reply_of result.0) result.1 }
    ensures tickets { Gives result.1 core.old core.new }
{
    match start(core, event) {
        Ok(answered) => (answered.into_made(), Placement::Back(w)),
        Err(event) => {
            let (reply, kept) = wait(core, event, w);
            (StepResult::replied(reply), kept)
        },
    }
}

/// Takes the wait with this ticket back, if it waits.
pub fn withdraw<T: Drop, W: Drop>(
    core: &mut ChannelInternal<T, W>,
    ticket: Ticket,
) -> Option<Waiter<T, W>>
    ensures told { IfSome result (λ w. Tells (line_of core.old) (Event.Withdraw (number_of ticket))
        (withdrawn (line_of core.new) w.message)) }
    ensures missing { IfNone result (core.new ≡ core.old) }
    ensures nobody { IfNone result (IsPlaced ticket core.old.waiters
        → Tells (line_of core.old) (Event.Withdraw (number_of ticket))
        (not_waiting (line_of core.new))) }
    ensures tickets { GivesNone core.old core.new }
    ensures waiter { result ≡ waiter_of ticket core.old.waiters }
    ensures others { core.new.waiters ≡ without ticket core.old.waiters }
{
    let mut steps = Steps::<Brand>::idle();
    core.withdraw(ticket, &mut steps)
}

/// Moves the whole line to the vector's end. It is refused for memory only where the vector has too
/// little room and can't grow.
#[tactic(auto, using(crate::proofs::Leaving::drained_leaves))]
pub fn drain<T: Drop, W: Drop>(
    core: &mut ChannelInternal<T, W>,
    into: &mut Vec<T>,
) -> StepResult<T, W>
    ensures told { Tells (line_of core.old) Event.Drain (told_of (line_of core.new) result) }
    ensures moved { into.new.items ≡ into.old.items ++ drained_of result }
    ensures memory { is_no_memory (reply_of result) ≡ true
        → vec_capacity into.old < vec_len into.old + length (line_of core.old).line }
    ensures room { vec_len into.old + length (line_of core.old).line ≤ vec_capacity into.old
        → vec_capacity into.new ≡ vec_capacity into.old }
    ensures no_growth { is_drained result ≡ false → vec_capacity into.new ≡ vec_capacity into.old }
    ensures tickets { GivesNone core.old core.new }
    ensures leave { Leave core.old.waiters (gone_of result) core.new.waiters }
{
    let before = Snapshot::of(&*into);
    match core.drain_into(into) {
        Ok((count, ended)) => {
            let after = Snapshot::of(&*into);
            StepResult::drained(count, ended, DrainSnapshot { before, after })
        },
        Err(DrainError::Closed) => StepResult::replied(Reply::Refused(Refusal::Closed, None)),
        Err(DrainError::NoMemory) => StepResult::replied(Reply::Refused(Refusal::NoMemory, None)),
    }
}

fn seal<T: Drop, W: Drop>(core: &mut ChannelInternal<T, W>) -> StepResult<T, W>
    ensures { IsStep core.old Event.Seal result core.new }
{
    match core.seal() {
        Ok(ended) => StepResult::all(Reply::Done, ended),
        Err(_) => StepResult::replied(Reply::Refused(Refusal::CloseError, None)),
    }
}

#[tactic(auto, using(crate::proofs::Leaving::closed_leaves))]
fn close<T: Drop, W: Drop>(core: &mut ChannelInternal<T, W>) -> StepResult<T, W>
    ensures { IsStep core.old Event.Close result core.new }
{
    match core.close() {
        Ok(closing) => StepResult::shut(closing),
        Err(_) => StepResult::replied(Reply::Refused(Refusal::CloseError, None)),
    }
}

fn add_sender<T: Drop, W: Drop>(core: &mut ChannelInternal<T, W>) -> StepResult<T, W>
    ensures { IsStep core.old Event.CloneTx result core.new }
{
    match core.add_sender() {
        Ok(()) => StepResult::replied(Reply::Done),
        Err(_) => StepResult::replied(Reply::Refused(Refusal::TooMany, None)),
    }
}

fn add_receiver<T: Drop, W: Drop>(core: &mut ChannelInternal<T, W>) -> StepResult<T, W>
    ensures { IsStep core.old Event.CloneRx result core.new }
{
    match core.add_receiver() {
        Ok(()) => StepResult::replied(Reply::Done),
        Err(_) => StepResult::replied(Reply::Refused(Refusal::TooMany, None)),
    }
}

#[tactic(auto, using(crate::proofs::Leaving::sender_leaves))]
fn drop_sender<T: Drop, W: Drop>(core: &mut ChannelInternal<T, W>) -> StepResult<T, W>
    ensures { IsStep core.old Event.DropTx result core.new }
{
    StepResult::all(Reply::Done, core.drop_sender())
}

#[tactic(auto, using(crate::proofs::Leaving::receiver_leaves))]
fn drop_receiver<T: Drop, W: Drop>(core: &mut ChannelInternal<T, W>) -> StepResult<T, W>
    ensures { IsStep core.old Event.DropRx result core.new }
{
    StepResult::all(Reply::Done, core.drop_receiver())
}

fn ask<T: Drop, W: Drop>(core: &ChannelInternal<T, W>, side: Side, question: Ask) -> Reply<T>
    ensures { result ≡ answer_of (line_of core.now) side question }
{
    match question {
        Ask::IsBounded => Reply::Flag(core.is_bounded()),
        Ask::Len => Reply::Number(core.len() as u64),
        Ask::IsEmpty => Reply::Flag(core.is_empty()),
        Ask::IsFull => Reply::Flag(core.is_full()),
        Ask::Capacity => Reply::Number(core.capacity() as u64),
        Ask::ReceiverCount => Reply::Number(core.receiver_count() as u64),
        Ask::SenderCount => Reply::Number(core.sender_count() as u64),
        Ask::IsClosed => Reply::Flag(core.is_closed()),
        Ask::IsDisconnected => match side {
            Side::Tx => Reply::Flag(core.receive_side_gone()),
            Side::Rx => Reply::Flag(core.send_side_gone()),
        },
    }
}

fn terminated<T: Drop, W: Drop>(core: &ChannelInternal<T, W>) -> Reply<T>
    ensures { result ≡ Reply.Flag
        (((line_of core.now).senders == 0) && (length (line_of core.now).line == 0)) }
{
    Reply::Flag(core.is_terminated())
}

/// Makes a call that never waits, and needs nothing but the core.
pub fn make<T: Drop, W: Drop>(core: &mut ChannelInternal<T, W>, event: Event<T>) -> StepResult<T, W>
    requires plain { is_plain event ≡ true }
    ensures told { Tells (line_of core.old) event (told_of (line_of core.new) result) }
    ensures tickets { GivesNone core.old core.new }
    ensures leave { Leave core.old.waiters (gone_of result) core.new.waiters }
{
    match event {
        Event::TrySend(message) => try_send(core, message),
        Event::TryRecv => try_recv(core),
        Event::RecvLate => recv_late(core),
        Event::CloneTx => add_sender(core),
        Event::CloneRx => add_receiver(core),
        Event::DropTx => drop_sender(core),
        Event::DropRx => drop_receiver(core),
        Event::Seal => seal(core),
        Event::Close => close(core),
        Event::Ask(side, question) => StepResult::replied(ask(core, side, question)),
        Event::Terminated => StepResult::replied(terminated(core)),
        Event::Send(_message) => unreachable!(),
        Event::Recv | Event::Drain | Event::Withdraw(_) => unreachable!(),
    }
}
