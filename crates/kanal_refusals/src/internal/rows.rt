//! The rows of the core.
use super::CoreCall::{
    self, AddReceiver, AddSender, Close, Drain, DropReceiver, DropSender, Offer, Questions, Room,
    Seal, Take, WaitRecv, WaitSend, Withdraw,
};
use crate::answer::AnyAnswer::{
    self, Done, Drained, Ended, Flag, Got, Handed, No, Nothing, Sealed, SendClosed, Waits,
};
use crate::driver::Row;

/// Each row, made with this capacity.
pub const ROWS: &[Row<Option<usize>, CoreCall, AnyAnswer>] = &[
    // A message goes to a receive that waits, one enters, and one waits with its sender; a drain takes both.
    Row {
        made: Some(1),
        ready: &[
            (WaitRecv(7), Waits),
            (Offer(1), Handed),
            (Offer(2), Done),
            (WaitSend(3, 8), Waits),
            (Drain, Drained(2, 23)),
        ],
        calls: &[],
    },
    // A buffer without limit grows, and is drained.
    Row {
        made: None,
        ready: &[
            (Offer(1), Done),
            (Offer(1), Done),
            (Offer(1), Done),
            (Offer(1), Done),
            (Offer(1), Done),
            (Offer(1), Done),
            (Offer(1), Done),
            (Offer(1), Done),
            (Offer(1), Done),
            (Offer(1), Done),
            (Offer(1), Done),
            (Offer(1), Done),
            (Offer(1), Done),
            (Offer(1), Done),
            (Offer(1), Done),
            (Offer(1), Done),
            (Offer(1), Done),
            (Offer(1), Done),
            (Offer(1), Done),
            (Offer(1), Done),
            (Drain, Drained(20, 11_111_111_111_111_111_111)),
        ],
        calls: &[],
    },
    // A seal ends a receive that waits, and nothing enters after it.
    Row {
        made: Some(1),
        ready: &[(WaitRecv(7), Waits)],
        calls: &[
            (Seal, Done),
            (Seal, Ended),
            (Offer(1), Sealed),
            (Take, SendClosed),
        ],
    },
    // Offers that are handed over, that enter or that find no place, and takes.
    Row {
        made: Some(2),
        ready: &[(WaitRecv(7), Waits)],
        calls: &[
            (Offer(1), Handed),
            (Offer(2), Done),
            (Offer(3), Done),
            (Offer(4), No),
            (Take, Got(2)),
            (Take, Got(3)),
            (Take, Nothing),
        ],
    },
    // A wait leaves with its message, and can't leave again.
    Row {
        made: Some(0),
        ready: &[(WaitSend(1, 7), Waits), (WaitSend(2, 8), Waits)],
        calls: &[(Withdraw(7), Got(1)), (Withdraw(7), Nothing)],
    },
    // A handle of each side comes and goes; a seal and a close, each of which can't come twice.
    Row {
        made: Some(0),
        ready: &[(WaitRecv(7), Waits)],
        calls: &[
            (AddSender, Done),
            (AddReceiver, Done),
            (DropSender, Flag(false)),
            (DropReceiver, Flag(false)),
            (Seal, Done),
            (Seal, Ended),
            (Close, Done),
            (Close, Ended),
        ],
    },
    // The last sender's drop ends a receive that waits.
    Row {
        made: Some(1),
        ready: &[(WaitRecv(7), Waits)],
        calls: &[(DropSender, Flag(true))],
    },
    Row {
        made: Some(3),
        ready: &[],
        calls: &[(Questions, Flag(true))],
    },
    // A drain into a vector with room, of the buffer and of a sender that waits.
    Row {
        made: Some(1),
        ready: &[(Offer(1), Done), (WaitSend(2, 7), Waits), (Room(2), Done)],
        calls: &[(Drain, Drained(2, 12))],
    },
    // A close clears the buffer, and ends the wait.
    Row {
        made: Some(1),
        ready: &[(Offer(1), Done), (WaitSend(2, 7), Waits)],
        calls: &[(Close, Got(1))],
    },
];
