//! The texts of the errors that the calls answer, and of handles, futures and streams.
use crate::tests::given::{ends, equal};
use kanal::error::{CloseError, NewError, ReceiveError, SendError, TooMany};
use std::alloc::AllocGlobal;
use std::error::Error;
use std::fmt::Debug;
use std::process::Abort;

/// Ends the test unless the value is named so.
fn shows<D: Debug>(rt: &(impl Abort + AllocGlobal), value: &D, expected: &str) {
    let text = format!(in rt.alloc(); "{value:?}").expect(rt, "memory for a text");
    equal(rt, text.as_str(), expected);
}

/// Ends the test unless each error in the table is shown so.
fn prints<E: Error>(rt: &(impl Abort + AllocGlobal), table: &[(E, &str)]) {
    for (error, expected) in table {
        let text = format!(in rt.alloc(); "{error}").expect(rt, "memory for a text");
        equal(rt, text.as_str(), expected);
    }
}

#[test]
fn handles_futures_and_streams_show_their_kind(rt: HostRuntime) {
    let (sender, receiver) = ends::<u64>(&rt, 1);
    shows(&rt, &sender, "Sender { .. }");
    shows(&rt, &receiver, "Receiver { .. }");
    let (sender, receiver) = (sender.to_async(), receiver.to_async());
    shows(&rt, &sender, "AsyncSender { .. }");
    shows(&rt, &receiver, "AsyncReceiver { .. }");
    shows(&rt, &sender.send(1), "SendFuture { .. }");
    shows(&rt, &receiver.recv(), "ReceiveFuture { .. }");
    shows(&rt, &receiver.stream(), "ReceiveStream { .. }");
}

const SEND_ERRORS: &[(SendError, &str)] = &[
    (SendError::Closed, "send to a closed channel"),
    (SendError::ReceiveClosed, "send to a half closed channel"),
    (SendError::Sealed, "send to a sealed channel"),
    (SendError::NoMemory, "no memory"),
    (SendError::TooMany, "too many"),
    (SendError::Finished, "already finished"),
];

const RECEIVE_ERRORS: &[(ReceiveError, &str)] = &[
    (ReceiveError::Closed, "receive from a closed channel"),
    (
        ReceiveError::SendClosed,
        "receive from a half closed channel",
    ),
    (ReceiveError::NoMemory, "no memory"),
    (ReceiveError::TooMany, "too many"),
    (ReceiveError::Finished, "already finished"),
];

const NEW_ERRORS: &[(NewError, &str)] = &[
    (NewError::TooLarge, "capacity too large"),
    (NewError::NoMemory, "no memory"),
];

#[test]
fn errors_print_their_texts(rt: HostRuntime) {
    prints(&rt, SEND_ERRORS);
    prints(&rt, RECEIVE_ERRORS);
    prints(&rt, NEW_ERRORS);
    prints(&rt, &[(CloseError(), "channel is already closed")]);
    prints(&rt, &[(TooMany, "too many")]);
}
