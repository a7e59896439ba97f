//! Each call of a pass with ample memory, what a pass keeps of its calls, and how passes are numbered.
use crate::tests::given::{equal, holds};
use crate::tests::recorded::parties::{channel, pass};
use crate::tests::recorded::rows::{CallRow, ends_with, played};
use kanal_journal::journal::Event::*;
use kanal_journal::journal::{Ask, Refusal, Reply, Side};

#[test]
fn nine_parties(rt: HostRuntime) {
    let channel = channel(&rt, Some(1));
    for number in 0..9 {
        equal(&rt, pass(&rt, &channel).party(), number);
    }
    drop(channel);
}

/// A message that the second party finds at its second try.
const FOUND: &[CallRow] = &[
    (1, TryRecv, Reply::Nothing),
    (0, TrySend(7), Reply::Yes),
    (1, TryRecv, Reply::Got(7)),
];

#[test]
fn what_a_pass_keeps(rt: HostRuntime) {
    let parties = played(&rt, Some(1), FOUND);
    let are_first_and_third = match parties.b.notes() {
        [first, third] => (first.place, first.seen, third.place, third.seen) == (0, 0, 2, 1),
        _ => false,
    };
    holds(&rt, are_first_and_third);
    drop(parties);
}

/// Lists of calls, each with the capacity of its channel.
const LISTS: &[(Option<usize>, &[CallRow])] = &[
    (Some(1), FOUND),
    // A message of another party.
    (
        Some(1),
        &[
            (0, TrySend(7), Reply::Yes),
            (0, Ask(Side::Tx, Ask::Len), Reply::Number(1)),
            (1, TryRecv, Reply::Got(7)),
        ],
    ),
    // A send that waits can be taken back, and a drain takes the other's message.
    (
        Some(1),
        &[
            (0, Send(1), Reply::Sent),
            (0, Send(2), Reply::Waits(0)),
            (0, Withdraw(0), Reply::Withdrawn(Some(2))),
            (0, Drain, Reply::Drained(1)),
        ],
    ),
    // One of two messages finds the receive that waits.
    (
        Some(0),
        &[
            (0, RecvLate, Reply::Refused(Refusal::Timeout, None)),
            (0, Recv, Reply::Waits(0)),
            (0, TrySend(7), Reply::Yes),
            (0, TrySend(8), Reply::No(8)),
        ],
    ),
    // Handles are added and dropped.
    (
        None,
        &[
            (0, CloneTx, Reply::Done),
            (0, CloneRx, Reply::Done),
            (0, Ask(Side::Rx, Ask::SenderCount), Reply::Number(2)),
            (0, DropTx, Reply::Done),
            (0, DropRx, Reply::Done),
            (0, Terminated, Reply::Flag(false)),
        ],
    ),
    // What is there is received after a seal.
    (
        Some(1),
        &[
            (0, TrySend(1), Reply::Yes),
            (0, Seal, Reply::Done),
            (0, TrySend(2), Reply::Refused(Refusal::Sealed, Some(2))),
            (1, Recv, Reply::Got(1)),
        ],
    ),
    // A close clears the message, and a second one is refused.
    (
        Some(2),
        &[
            (0, TrySend(1), Reply::Yes),
            (0, Close, Reply::Cleared(1)),
            (0, Close, Reply::Refused(Refusal::CloseError, None)),
        ],
    ),
    // Two of three messages enter, for the capacity is two.
    (
        Some(2),
        &[
            (0, TrySend(1), Reply::Yes),
            (0, TrySend(2), Reply::Yes),
            (0, TrySend(3), Reply::No(3)),
        ],
    ),
    // Thirteen calls of one pass.
    (
        Some(1),
        &[
            (0, Send(1), Reply::Sent),
            (0, Send(2), Reply::Waits(0)),
            (0, Withdraw(0), Reply::Withdrawn(Some(2))),
            (0, CloneTx, Reply::Done),
            (0, CloneRx, Reply::Done),
            (0, DropTx, Reply::Done),
            (0, DropRx, Reply::Done),
            (0, RecvLate, Reply::Got(1)),
            (0, Recv, Reply::Waits(1)),
            (0, Withdraw(1), Reply::Withdrawn(None)),
            (0, Drain, Reply::Drained(0)),
            (0, Terminated, Reply::Flag(false)),
            (0, Close, Reply::Cleared(0)),
        ],
    ),
];

#[test]
fn each_call_is_answered_and_kept(rt: HostRuntime) {
    for (capacity, rows) in LISTS {
        ends_with(&rt, *capacity, rows);
    }
}
