//! The rows of the handles.
use super::HandleCall::{
    self, Alive, BeginReceive, BeginSend, BeginStream, BothBeside, CloseByReceiver, CloseBySender,
    Convert, Drain, EachBeside, FirstPollsReceive, FirstPollsSend, FirstPollsStream, LeaveSend,
    Len, ListBeside, Questions, Receive, ReceiveAsleep, ReceiveBeside, Room, SealByReceiver,
    SealBySender, SecondIsWoken, SecondPollsReceive, SecondPollsSend, Send, SendAsleep, SendBeside,
    StreamBeside,
};
use super::MadeBy::{self, Bounded, BoundedAsync, Unbounded, UnboundedAsync};
use super::{ReceiveKind, SendKind, ServedBy};
use crate::answer::AnyAnswer::{
    self, Done, Drained, Ended, Flag, Got, No, Nothing, Number, Sealed, SendClosed, Timeout, Waits,
    Yes,
};
use crate::driver::Row;

/// A drain by each receiver.
const BY_THREAD: HandleCall = Drain { by_task: false };

const BY_TASK: HandleCall = Drain { by_task: true };

/// Ten messages are in the buffer, and none was dropped but by a refusal.
const TEN_ARE_IN: &[(HandleCall, AnyAnswer)] = &[(Len, Number(10)), (Alive, Number(10))];

/// Each row, on a channel that is made so.
pub const ROWS: &[Row<MadeBy, HandleCall, AnyAnswer>] = &[
    // A buffer without limit grows by each form of a send.
    Row {
        made: Unbounded,
        ready: &[(Send(SendKind::Plain, 1), Done); 10],
        calls: TEN_ARE_IN,
    },
    Row {
        made: Unbounded,
        ready: &[(Send(SendKind::Try, 1), Yes); 10],
        calls: TEN_ARE_IN,
    },
    Row {
        made: Unbounded,
        ready: &[(Send(SendKind::TryRealtime, 1), Yes); 10],
        calls: TEN_ARE_IN,
    },
    Row {
        made: Unbounded,
        ready: &[(Send(SendKind::Late, 1), Done); 10],
        calls: TEN_ARE_IN,
    },
    Row {
        made: Unbounded,
        ready: &[(Send(SendKind::TryOption, 1), Yes); 10],
        calls: TEN_ARE_IN,
    },
    Row {
        made: Unbounded,
        ready: &[(Send(SendKind::TryOptionRealtime, 1), Yes); 10],
        calls: TEN_ARE_IN,
    },
    Row {
        made: Unbounded,
        ready: &[(Send(SendKind::LateOption, 1), Done); 10],
        calls: TEN_ARE_IN,
    },
    // Drains ask for the room of all messages before they move one.
    Row {
        made: Bounded(2),
        ready: &[
            (Send(SendKind::Plain, 1), Done),
            (Send(SendKind::Plain, 2), Done),
            (BY_THREAD, Drained(2, 12)),
        ],
        calls: &[],
    },
    Row {
        made: BoundedAsync(2),
        ready: &[
            (Send(SendKind::TryByTask, 1), Yes),
            (Send(SendKind::TryByTask, 2), Yes),
            (BY_TASK, Drained(2, 12)),
        ],
        calls: &[],
    },
    Row {
        made: UnboundedAsync,
        ready: &[],
        calls: &[(BY_TASK, Drained(0, 0))],
    },
    // A drain into a vector with room.
    Row {
        made: Bounded(2),
        ready: &[(Send(SendKind::Plain, 1), Done), (Room(1), Done)],
        calls: &[(BY_THREAD, Drained(1, 1))],
    },
    // Sends and receives that never wait; messages that find no place stay in their options.
    Row {
        made: Bounded(2),
        ready: &[],
        calls: &[
            (Send(SendKind::Plain, 1), Done),
            (Send(SendKind::TryRealtime, 2), Yes),
            (Send(SendKind::Try, 3), No),
            (Send(SendKind::TryOption, 3), No),
            (Send(SendKind::TryOptionRealtime, 4), No),
            (Alive, Number(2)),
            (Receive(ReceiveKind::Plain), Got(1)),
            (Receive(ReceiveKind::Try), Got(2)),
            (Receive(ReceiveKind::TryRealtime), Nothing),
        ],
    },
    // Clones, conversions and drops.
    Row {
        made: Unbounded,
        ready: &[],
        calls: &[(Convert, Flag(true))],
    },
    // Questions, and a seal after which what is there is received.
    Row {
        made: Bounded(2),
        ready: &[],
        calls: &[
            (Questions, Flag(true)),
            (Send(SendKind::Plain, 1), Done),
            (SealByReceiver, Done),
            (SealBySender, Ended),
            (Send(SendKind::Try, 2), Sealed),
            (Receive(ReceiveKind::Try), Got(1)),
            (Receive(ReceiveKind::Try), SendClosed),
            (CloseByReceiver, Done),
            (CloseBySender, Ended),
        ],
    },
    // A seal by the other side.
    Row {
        made: Bounded(2),
        ready: &[],
        calls: &[
            (SealBySender, Done),
            (Send(SendKind::Try, 1), Sealed),
            (Receive(ReceiveKind::Try), SendClosed),
        ],
    },
    // Waits whose deadline is now: all of a wait is made, and withdrawn.
    Row {
        made: Bounded(1),
        ready: &[
            (Send(SendKind::Plain, 1), Done),
            (Send(SendKind::LateOption, 7), Timeout),
            (Receive(ReceiveKind::Try), Got(1)),
            (Receive(ReceiveKind::Try), Nothing),
        ],
        calls: &[],
    },
    Row {
        made: Bounded(0),
        ready: &[
            (Send(SendKind::Late, 7), Timeout),
            (Alive, Number(0)),
            (Receive(ReceiveKind::Try), Nothing),
        ],
        calls: &[],
    },
    Row {
        made: Bounded(1),
        ready: &[
            (Receive(ReceiveKind::Late), Timeout),
            (Send(SendKind::Plain, 5), Done),
            (Receive(ReceiveKind::Late), Got(5)),
        ],
        calls: &[],
    },
    // Timed calls that are served while they sleep.
    Row {
        made: Bounded(0),
        ready: &[(ReceiveAsleep(7), Got(7))],
        calls: &[],
    },
    Row {
        made: Bounded(0),
        ready: &[(SendAsleep(9), Got(9))],
        calls: &[],
    },
    // Calls that wait beside a send that waits, and a drain, which takes its message.
    Row {
        made: BoundedAsync(0),
        ready: &[
            (BeginSend(3), Waits),
            (Send(SendKind::LateByView, 4), Timeout),
            (SendBeside(5), Waits),
            (ListBeside(6), Waits),
            (BY_TASK, Drained(1, 3)),
            (FirstPollsSend, Done),
            (Receive(ReceiveKind::TryByTask), Nothing),
        ],
        calls: &[],
    },
    Row {
        made: BoundedAsync(0),
        ready: &[
            (BeginSend(3), Waits),
            (Send(SendKind::LateOptionByView, 4), Timeout),
            (Receive(ReceiveKind::TryByTask), Got(3)),
            (FirstPollsSend, Done),
            (Receive(ReceiveKind::TryByTask), Nothing),
        ],
        calls: &[],
    },
    // Calls that wait beside a receive that waits.
    Row {
        made: BoundedAsync(0),
        ready: &[
            (BeginReceive, Waits),
            (Receive(ReceiveKind::LateByView), Timeout),
            (ReceiveBeside, Waits),
            (StreamBeside, Waits),
            (BothBeside, Waits),
            (EachBeside, Waits),
            (Send(SendKind::TryByTask, 7), Yes),
            (FirstPollsReceive, Got(7)),
            (Send(SendKind::TryByTask, 8), No),
        ],
        calls: &[],
    },
    // A send and a receive whose first poll answers.
    Row {
        made: BoundedAsync(1),
        ready: &[],
        calls: &[(BeginSend(3), Done), (BeginReceive, Got(3))],
    },
    // A send that waits is taken; another is dropped, and its entry leaves.
    Row {
        made: BoundedAsync(0),
        ready: &[(BeginSend(3), Waits)],
        calls: &[
            (Receive(ReceiveKind::TryByTask), Got(3)),
            (FirstPollsSend, Done),
        ],
    },
    Row {
        made: BoundedAsync(0),
        ready: &[(BeginSend(3), Waits)],
        calls: &[
            (LeaveSend, Done),
            (Receive(ReceiveKind::TryByTask), Nothing),
            (Alive, Number(0)),
        ],
    },
    // A receive and a stream that wait are given their messages; the task stays the same.
    Row {
        made: BoundedAsync(0),
        ready: &[(BeginReceive, Waits)],
        calls: &[
            (FirstPollsReceive, Waits),
            (Send(SendKind::TryByTask, 3), Yes),
            (FirstPollsReceive, Got(3)),
            (Send(SendKind::TryByTask, 1), No),
        ],
    },
    Row {
        made: BoundedAsync(0),
        ready: &[(BeginStream, Waits)],
        calls: &[
            (Send(SendKind::TryByTask, 3), Yes),
            (FirstPollsStream, Got(3)),
        ],
    },
    // Polls by another task, which is then the one that is woken.
    Row {
        made: BoundedAsync(0),
        ready: &[
            (BeginSend(3), Waits),
            (SecondPollsSend, Waits),
            (Receive(ReceiveKind::TryByTask), Got(3)),
            (SecondIsWoken, Flag(true)),
            (SecondPollsSend, Done),
        ],
        calls: &[],
    },
    Row {
        made: BoundedAsync(0),
        ready: &[
            (BeginReceive, Waits),
            (SecondPollsReceive, Waits),
            (Send(SendKind::TryByTask, 3), Yes),
            (SecondIsWoken, Flag(true)),
            (SecondPollsReceive, Got(3)),
        ],
        calls: &[],
    },
];

/// Calls that block beside a task that waits, until a thread serves both in these ways. It begins behind the first
/// calls of a row.
pub const SERVED: &[Row<(ServedBy, ServedBy), HandleCall, AnyAnswer>] = &[
    Row {
        made: (ServedBy::Take, ServedBy::Take),
        ready: &[(BeginSend(3), Waits)],
        calls: &[(Send(SendKind::ByView, 4), Done), (FirstPollsSend, Done)],
    },
    Row {
        made: (ServedBy::Give(7), ServedBy::Give(8)),
        ready: &[(BeginReceive, Waits)],
        calls: &[
            (Receive(ReceiveKind::ByView), Got(8)),
            (FirstPollsReceive, Got(7)),
        ],
    },
];
