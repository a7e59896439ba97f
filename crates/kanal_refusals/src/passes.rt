//! Calls of passes on a recorded channel, and the check of their history.
use crate::driver::{Run, Score, Subject, holds, make_each};
use kanal_core::error::NewError;
use kanal_journal::journal::{Ask, Event, Refusal, Reply, Side};
use kanal_recorded::{Pass, Recorded, Seen};
use std::alloc::Global;
use std::sync::Wait;

/// Who makes a call.
#[derive(Clone, Copy)]
enum Party {
    A,
    B,
}

use Party::{A, B};

/// The calls, in order, on a channel of capacity 1. Each asks for its entry in the journal.
const CALLS: &[((Party, Event<u64>), Reply<u64>)] = &[
    ((A, Event::TrySend(7)), Reply::Yes),
    ((B, Event::Recv), Reply::Got(7)),
    ((B, Event::Recv), Reply::Waits(0)),
    ((A, Event::Send(8)), Reply::Sent),
    ((A, Event::Send(9)), Reply::Sent),
    ((A, Event::Send(10)), Reply::Waits(1)),
    ((B, Event::Drain), Reply::Drained(2)),
    ((A, Event::CloneTx), Reply::Done),
    ((A, Event::CloneRx), Reply::Done),
    (
        (A, Event::Ask(Side::Tx, Ask::SenderCount)),
        Reply::Number(2),
    ),
    ((B, Event::RecvLate), Reply::Refused(Refusal::Timeout, None)),
    (
        (A, Event::Withdraw(1)),
        Reply::Refused(Refusal::NotWaiting, None),
    ),
    ((A, Event::DropTx), Reply::Done),
    ((B, Event::DropRx), Reply::Done),
    ((B, Event::Seal), Reply::Done),
    (
        (A, Event::TrySend(11)),
        Reply::Refused(Refusal::Sealed, Some(11)),
    ),
    (
        (B, Event::TryRecv),
        Reply::Refused(Refusal::SendClosed, None),
    ),
    ((B, Event::Terminated), Reply::Flag(true)),
    ((A, Event::Close), Reply::Cleared(0)),
];

/// How many calls a pass has noted, and what it has seen.
type Noted = (usize, Seen);

/// Two passes on one channel.
#[derive(Drop)]
struct Passes<'a, R> {
    rt: &'a R,
    channel: &'a Recorded<u64>,
    a: Pass<u64>,
    b: Pass<u64>,
}

impl<R: Wait> Subject for Passes<'_, R> {
    type Call = (Party, Event<u64>);

    type Answer = Reply<u64>;

    type State = (Noted, Noted);

    fn state(&self) -> (Noted, Noted) {
        let (a, b) = (&self.a, &self.b);
        ((a.notes().len(), a.tell()), (b.notes().len(), b.tell()))
    }

    fn make(&mut self, call: (Party, Event<u64>)) -> Reply<u64> {
        match call.0 {
            Party::A => reply_of(self.rt, self.channel, &mut self.a, call.1),
            Party::B => reply_of(self.rt, self.channel, &mut self.b, call.1),
        }
    }

    fn refused(call: (Party, Event<u64>)) -> Reply<u64> {
        call.1.refused(Refusal::NoMemory)
    }
}

/// Makes the event by the pass.
fn reply_of<R: Wait>(
    rt: &R,
    channel: &Recorded<u64>,
    pass: &mut Pass<u64>,
    event: Event<u64>,
) -> Reply<u64> {
    match event {
        Event::Send(message) => pass.send(rt, channel, message),
        Event::TrySend(message) => pass.try_send(rt, channel, message),
        Event::Recv => pass.recv(rt, channel),
        Event::RecvLate => pass.recv_late(rt, channel),
        Event::TryRecv => pass.try_recv(rt, channel),
        Event::Drain => pass.drain(rt, channel),
        Event::Withdraw(ticket) => pass.withdraw(rt, channel, ticket),
        Event::CloneTx => pass.clone_tx(rt, channel),
        Event::CloneRx => pass.clone_rx(rt, channel),
        Event::DropTx => pass.drop_tx(rt, channel),
        Event::DropRx => pass.drop_rx(rt, channel),
        Event::Seal => pass.seal(rt, channel),
        Event::Close => pass.close(rt, channel),
        Event::Ask(side, question) => pass.ask(rt, channel, side, question),
        Event::Terminated => pass.terminated(rt, channel),
    }
}

/// A recorded channel for one message.
fn recorded(alloc: Global, tally: &mut Score) -> Option<Recorded<u64>> {
    match Recorded::new(alloc, Some(1)) {
        Err(NewError::NoMemory) => {
            tally.add()?;
            Recorded::new(alloc, Some(1)).ok()
        },
        made => made.ok(),
    }
}

/// Makes the calls. What takes no memory: a pass hears another, a third one is drawn, and the history is
/// checked.
pub fn call_all<R: Wait>(rt: &R, alloc: Global, tally: &mut Score) -> Option<()> {
    let mut list = match Vec::with_capacity(alloc, 3) {
        Err(_refused) => Vec::with_capacity(alloc, 3).ok()?,
        Ok(list) => list,
    };
    let channel = recorded(alloc, tally)?;
    let (mut a, b) = called(rt, &channel, tally)?;
    if tally.run == Run::Setup {
        return Some(());
    }
    a.hear(b.tell());
    list.push(a).ok()?;
    list.push(b).ok()?;
    list.push(channel.pass(rt).ok()?).ok()?;
    let journal = channel.finish(list).ok()?;
    holds(journal.entries.len() == CALLS.len())
}

/// Both passes, by which all calls were made.
fn called<R: Wait>(
    rt: &R,
    channel: &Recorded<u64>,
    tally: &mut Score,
) -> Option<(Pass<u64>, Pass<u64>)> {
    let (a, b) = (channel.pass(rt).ok()?, channel.pass(rt).ok()?);
    let mut passes = Passes { rt, channel, a, b };
    make_each(&mut passes, tally, CALLS)?;
    let Passes { a, b, .. } = passes;
    Some((a, b))
}
