//! The lists of events, each with what the rules make of it: with ample memory first, and then with each step
//! refused that may ask for memory (docs/RULES.md, rules 4 to 18 and 29 to 31).
use kanal_journal::journal::Event::{
    self, Ask, CloneTx, Close, Drain, DropRx, DropTx, Recv, RecvLate, Send, Terminated, TryRecv,
    TrySend, Withdraw,
};
use kanal_journal::journal::{Ask as Asked, Side};

/// A list of events on a channel of its own, and the reports that it may have: the replies; each settlement by
/// its step, its ticket and the outcome; the messages that were drained, those that were cleared, and those that
/// are left. None, where the channel is too large.
pub struct ReportRow {
    /// The channel's capacity.
    pub capacity: Option<usize>,
    /// The events.
    pub events: &'static [Event<u64>],
    /// Its reports.
    pub told: &'static [&'static str],
}

/// Each list.
pub const ROWS: &[ReportRow] = &[
    // A send that waits has its place by a receive.
    ReportRow {
        capacity: Some(1),
        events: &[Send(1), Send(2), TryRecv, Ask(Side::Rx, Asked::Len)],
        told: &[
            "[Sent, Waits(0), Got(1), Number(1)] 2:0 Taken [] [] [2]",
            "[Sent, Refused(NoMemory, Some(2)), Got(1), Number(0)] [] [] []",
        ],
    },
    // Sends that wait, of which one is withdrawn and one is taken.
    ReportRow {
        capacity: Some(0),
        events: &[Send(1), Send(2), Withdraw(0), TryRecv, TryRecv],
        told: &[
            "[Waits(0), Waits(1), Withdrawn(Some(1)), Got(2), Nothing] 3:1 Taken [] [] []",
            "[Refused(NoMemory, Some(1)), Waits(0), Withdrawn(Some(2)), Nothing, Nothing] [] [] []",
            "[Waits(0), Refused(NoMemory, Some(2)), Withdrawn(Some(1)), Nothing, Nothing] [] [] []",
        ],
    },
    // A drain of the buffer and of a send that waits.
    ReportRow {
        capacity: Some(2),
        events: &[
            Send(1),
            Send(2),
            Send(3),
            Send(4),
            Withdraw(0),
            Drain,
            Ask(Side::Rx, Asked::Len),
        ],
        told: &[
            "[Sent, Sent, Waits(0), Waits(1), Withdrawn(Some(3)), Drained(3), Number(0)] 5:1 Taken [1, 2, 4] [] []",
            "[Sent, Sent, Refused(NoMemory, Some(3)), Waits(0), Withdrawn(Some(4)), Drained(2), Number(0)] [1, 2] [] []",
            "[Sent, Sent, Waits(0), Refused(NoMemory, Some(4)), Withdrawn(Some(3)), Drained(2), Number(0)] [1, 2] [] []",
            "[Sent, Sent, Waits(0), Waits(1), Withdrawn(Some(3)), Refused(NoMemory, None), Number(2)] [] [] [1, 2, 4]",
        ],
    },
    // Receives that wait, of which one is given a message and one is withdrawn.
    ReportRow {
        capacity: Some(0),
        events: &[Recv, Recv, TrySend(7), Withdraw(0), Withdraw(1), TrySend(8)],
        told: &[
            "[Waits(0), Waits(1), Yes, Refused(NotWaiting, None), Withdrawn(None), No(8)] 2:0 Given(7) [] [] []",
            "[Refused(NoMemory, None), Waits(0), Yes, Refused(NotWaiting, None), Refused(NotWaiting, None), No(8)] 2:0 Given(7) [] [] []",
            "[Waits(0), Refused(NoMemory, None), Yes, Refused(NotWaiting, None), Refused(NotWaiting, None), No(8)] 2:0 Given(7) [] [] []",
        ],
    },
    // What is told after the last sender.
    ReportRow {
        capacity: Some(1),
        events: &[Send(1), DropTx, Recv, Recv, Drain, RecvLate, Terminated],
        told: &[
            "[Sent, Done, Got(1), Refused(SendClosed, None), Drained(0), Refused(Timeout, None), Flag(true)] [] [] []",
        ],
    },
    // What is told after a close.
    ReportRow {
        capacity: Some(1),
        events: &[TrySend(1), Close, Close, Recv, Drain],
        told: &[
            "[Yes, Cleared(1), Refused(CloseError, None), Refused(Closed, None), Refused(Closed, None)] [] [1] []",
        ],
    },
    ReportRow {
        capacity: Some(1),
        events: &[
            TrySend(1),
            Close,
            Send(2),
            CloneTx,
            Ask(Side::Tx, Asked::SenderCount),
        ],
        told: &["[Yes, Cleared(1), Refused(Closed, Some(2)), Done, Number(0)] [] [1] []"],
    },
    // The last sender ends a receive that waits, and a send that waits.
    ReportRow {
        capacity: Some(1),
        events: &[Recv, DropTx],
        told: &[
            "[Waits(0), Done] 1:0 Ended(SendClosed, None) [] [] []",
            "[Refused(NoMemory, None), Done] [] [] []",
        ],
    },
    ReportRow {
        capacity: Some(0),
        events: &[Send(1), DropTx, TryRecv],
        told: &[
            "[Waits(0), Done, Refused(SendClosed, None)] 1:0 Ended(SendClosed, Some(1)) [] [] []",
            "[Refused(NoMemory, Some(1)), Done, Refused(SendClosed, None)] [] [] []",
        ],
    },
    // The last receiver ends a send that waits.
    ReportRow {
        capacity: Some(0),
        events: &[Send(1), DropRx, Send(2), Recv],
        told: &[
            "[Waits(0), Done, Refused(ReceiveClosed, Some(2)), Refused(NoHandle, None)] 1:0 Ended(ReceiveClosed, Some(1)) [] [] []",
            "[Refused(NoMemory, Some(1)), Done, Refused(ReceiveClosed, Some(2)), Refused(NoHandle, None)] [] [] []",
        ],
    },
    // Questions of a channel without places, and of one without limit.
    ReportRow {
        capacity: Some(0),
        events: &[Ask(Side::Rx, Asked::IsFull), Ask(Side::Rx, Asked::IsEmpty)],
        told: &["[Flag(true), Flag(true)] [] [] []"],
    },
    ReportRow {
        capacity: None,
        events: &[
            Ask(Side::Tx, Asked::IsFull),
            Ask(Side::Tx, Asked::IsBounded),
            Ask(Side::Tx, Asked::Capacity),
        ],
        told: &["[Flag(false), Flag(false), Number(18446744073709551615)] [] [] []"],
    },
    // A channel that is too large, and an empty list.
    ReportRow {
        capacity: Some(usize::MAX),
        events: &[],
        told: &[],
    },
    ReportRow {
        capacity: Some(3),
        events: &[],
        told: &["[] [] [] []"],
    },
    // The buffer after the last receiver and after a close.
    ReportRow {
        capacity: Some(1),
        events: &[
            TrySend(1),
            DropRx,
            Ask(Side::Tx, Asked::Len),
            Close,
            Ask(Side::Tx, Asked::Len),
        ],
        told: &["[Yes, Done, Number(1), Cleared(1), Number(0)] [] [1] []"],
    },
    // A buffer without limit.
    ReportRow {
        capacity: None,
        events: &[
            Send(1),
            TrySend(2),
            Send(3),
            TrySend(4),
            Send(5),
            Drain,
            TryRecv,
        ],
        told: &[
            "[Sent, Yes, Sent, Yes, Sent, Drained(5), Nothing] [1, 2, 3, 4, 5] [] []",
            "[Refused(NoMemory, Some(1)), Yes, Sent, Yes, Sent, Drained(4), Nothing] [2, 3, 4, 5] [] []",
            "[Sent, Refused(NoMemory, Some(2)), Sent, Yes, Sent, Drained(4), Nothing] [1, 3, 4, 5] [] []",
            "[Sent, Yes, Refused(NoMemory, Some(3)), Yes, Sent, Drained(4), Nothing] [1, 2, 4, 5] [] []",
            "[Sent, Yes, Sent, Refused(NoMemory, Some(4)), Sent, Drained(4), Nothing] [1, 2, 3, 5] [] []",
            "[Sent, Yes, Sent, Yes, Refused(NoMemory, Some(5)), Drained(4), Nothing] [1, 2, 3, 4] [] []",
            "[Sent, Yes, Sent, Yes, Sent, Refused(NoMemory, None), Got(1)] [] [] [2, 3, 4, 5]",
        ],
    },
];
