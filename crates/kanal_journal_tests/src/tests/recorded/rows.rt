//! Calls of two passes as data, each with its answer, and the one driver that makes them.
use crate::tests::given::equal;
use crate::tests::recorded::parties::{Parties, end, recorded};
use kanal_journal::journal::{Event, Reply};
use kanal_recorded::{Pass, Recorded};
use std::alloc::AllocGlobal;
use std::process::Abort;
use std::sync::Wait;

/// A call of party 0 or 1, with its answer.
pub type CallRow = (u32, Event<u64>, Reply<u64>);

/// Makes the pass's call of this event.
fn call<R: Wait>(
    rt: &R,
    channel: &Recorded<u64>,
    pass: &mut Pass<u64>,
    event: Event<u64>,
) -> Reply<u64> {
    match event {
        Event::Send(message) => pass.send(rt, channel, message),
        Event::TrySend(message) => pass.try_send(rt, channel, message),
        Event::Recv => pass.recv(rt, channel),
        Event::RecvLate => pass.recv_late(rt, channel),
        Event::TryRecv => pass.try_recv(rt, channel),
        Event::Drain => pass.drain(rt, channel),
        Event::Withdraw(ticket) => pass.withdraw(rt, channel, ticket),
        Event::CloneTx => pass.clone_tx(rt, channel),
        Event::CloneRx => pass.clone_rx(rt, channel),
        Event::DropTx => pass.drop_tx(rt, channel),
        Event::DropRx => pass.drop_rx(rt, channel),
        Event::Seal => pass.seal(rt, channel),
        Event::Close => pass.close(rt, channel),
        Event::Ask(side, question) => pass.ask(rt, channel, side, question),
        Event::Terminated => pass.terminated(rt, channel),
    }
}

/// A recorded channel of this capacity with its two passes, after these calls, each of which is answered so.
pub fn played<R: Abort + Wait + AllocGlobal>(
    rt: &R,
    capacity: Option<usize>,
    rows: &[CallRow],
) -> Parties {
    let Parties {
        channel,
        mut a,
        mut b,
    } = recorded(rt, capacity);
    for (party, event, reply) in rows {
        let answer = match party {
            0 => call(rt, &channel, &mut a, *event),
            _ => call(rt, &channel, &mut b, *event),
        };
        equal(rt, answer, *reply);
    }
    Parties { channel, a, b }
}

/// Plays the calls; their passes agree with the journal, which has them in their order, and the capacity.
pub fn ends_with<R: Abort + Wait + AllocGlobal>(rt: &R, capacity: Option<usize>, rows: &[CallRow]) {
    let journal = end(rt, played(rt, capacity, rows));
    equal(rt, journal.capacity, capacity);
    equal(rt, journal.entries.len(), rows.len());
    for (entry, row) in journal.entries.iter().zip(rows.iter()) {
        equal(rt, (entry.party, entry.event, entry.reply), *row);
    }
}
