//! The worked rows that need no second thread, by one pass.
ghost use Rattle.std.specs.Prelude.{◌≡◌};
ghost use Rattle.kanal_log.specs.Logs.{table_of};

use crate::tests::given::equal;
use crate::tests::history::given::{HistoryHandles, new_handles, new_log};
use kanal_core::error::{CloseError, NewError, ReceiveError, SendError};
use kanal_journal::journal::{Ask, Reply, Side};
use kanal_one_history::{Call, LogId, NewLog};
use std::alloc::Global;
use std::marker::Brand;
use std::process::Abort;
use std::sync::Wait;

/// The last sender is dropped: what is there is received, and then nothing comes.
fn dropped_sender<J: LogId, R: Wait + Abort>(rt: &R, handles: HistoryHandles<J>) {
    let (sender, receiver, mut pass) = handles;
    let (channel, pass) = (receiver.channel(), &mut pass);
    equal(rt, channel.send(rt, pass, 1), Ok(()));
    drop(sender);
    equal(rt, channel.is_terminated(rt, pass), false);
    equal(rt, channel.recv(rt, pass), Ok(1));
    equal(rt, channel.recv(rt, pass), Err(ReceiveError::SendClosed));
    equal(rt, channel.is_terminated(rt, pass), true);
}

/// A close clears the buffer, and is refused after that; so are sends and receives.
fn closed<J: LogId, R: Wait + Abort>(rt: &R, handles: HistoryHandles<J>) {
    let (sender, receiver, mut pass) = handles;
    let (channel, pass) = (receiver.channel(), &mut pass);
    equal(rt, channel.try_send(rt, pass, 1), Ok(true));
    equal(rt, channel.close(rt, pass), Ok(()));
    equal(rt, channel.close(rt, pass), Err(CloseError()));
    equal(rt, channel.recv(rt, pass), Err(ReceiveError::Closed));
    equal(rt, channel.send(rt, pass, 2), Err(SendError::Closed));
    let second = sender.clone_by(rt, pass);
    equal(rt, second.is_ok(), true);
    let senders = channel.ask(rt, pass, Side::Tx, Ask::SenderCount);
    equal(rt, senders, Reply::Number(0));
}

/// The last receiver is dropped: the buffer stays until the close.
fn dropped_receiver<J: LogId, R: Wait + Abort>(rt: &R, handles: HistoryHandles<J>) {
    let (sender, receiver, mut pass) = handles;
    let (channel, pass) = (sender.channel(), &mut pass);
    equal(rt, channel.try_send(rt, pass, 1), Ok(true));
    let second = receiver.clone_by(rt, pass);
    equal(rt, second.is_ok(), true);
    drop(second);
    let receivers = channel.ask(rt, pass, Side::Rx, Ask::ReceiverCount);
    equal(rt, receivers, Reply::Number(1));
    drop(receiver);
    equal(rt, channel.send(rt, pass, 2), Err(SendError::ReceiveClosed));
    let kept = channel.ask(rt, pass, Side::Tx, Ask::Len);
    equal(rt, kept, Reply::Number(1));
    equal(rt, channel.close(rt, pass), Ok(()));
    let kept = channel.ask(rt, pass, Side::Tx, Ask::Len);
    equal(rt, kept, Reply::Number(0));
}

/// A seal: what is there is received, and nothing more enters.
fn sealed<J: LogId, R: Wait + Abort>(rt: &R, handles: HistoryHandles<J>) {
    let (sender, _receiver, mut pass) = handles;
    let (channel, pass) = (sender.channel(), &mut pass);
    equal(rt, channel.try_send(rt, pass, 1), Ok(true));
    equal(rt, channel.seal(rt, pass), Ok(()));
    equal(rt, channel.seal(rt, pass), Err(CloseError()));
    equal(rt, channel.send(rt, pass, 2), Err(SendError::Sealed));
    equal(rt, channel.try_recv(rt, pass), Ok(Some(1)));
    let ended = channel.try_recv(rt, pass);
    equal(rt, ended, Err(ReceiveError::SendClosed));
}

/// What is asked of a channel without limit.
fn unlimited<J: LogId, R: Wait + Abort>(rt: &R, handles: HistoryHandles<J>) {
    let (sender, receiver, mut pass) = handles;
    let (channel, pass) = (receiver.channel(), &mut pass);
    let flag = channel.ask(rt, pass, Side::Tx, Ask::IsFull);
    equal(rt, flag, Reply::Flag(false));
    let flag = channel.ask(rt, pass, Side::Tx, Ask::IsBounded);
    equal(rt, flag, Reply::Flag(false));
    let capacity = channel.ask(rt, pass, Side::Tx, Ask::Capacity);
    equal(rt, capacity, Reply::Number(u64::MAX));
    equal(rt, channel.send(rt, pass, 1), Ok(()));
    drop(sender);
    let flag = channel.ask(rt, pass, Side::Rx, Ask::IsDisconnected);
    equal(rt, flag, Reply::Flag(true));
    equal(rt, channel.recv(rt, pass), Ok(1));
    equal(rt, channel.is_terminated(rt, pass), true);
}

/// At capacity 0 there is no place: an option keeps its message, also after a close.
fn kept<J: LogId, R: Wait + Abort>(rt: &R, handles: HistoryHandles<J>) {
    let (sender, _receiver, mut pass) = handles;
    let (channel, pass) = (sender.channel(), &mut pass);
    let flag = channel.ask(rt, pass, Side::Rx, Ask::IsFull);
    equal(rt, flag, Reply::Flag(true));
    let flag = channel.ask(rt, pass, Side::Rx, Ask::IsEmpty);
    equal(rt, flag, Reply::Flag(true));
    let mut option = Some(1);
    let sent = channel.try_send_option(rt, pass, &mut option);
    equal(rt, sent, Ok(false));
    equal(rt, channel.close(rt, pass), Ok(()));
    let mut other = Some(2);
    let sent = channel.try_send_option(rt, pass, &mut other);
    equal(rt, sent, Err(SendError::Closed));
    equal(rt, option, Some(1));
    equal(rt, other, Some(2));
}

/// Makes the calls of one row on a new channel for so many messages, or without limit.
fn row<J: LogId, R: Wait + Abort>(
    rt: &R,
    alloc: Global,
    capacity: Option<usize>,
    row: u8,
    opened: NewLog<Call<u64>>,
) -> Result<(), NewError>
    requires name { table_of opened ≡ J.table }
    requires capacity { J.capacity ≡ capacity }
{
    let handles = new_handles::<J>(alloc, capacity, opened)?;
    match row {
        0 => kept(rt, handles),
        1 => dropped_sender(rt, handles),
        2 => closed(rt, handles),
        3 => dropped_receiver(rt, handles),
        4 => sealed(rt, handles),
        _ => unlimited(rt, handles),
    }
    Ok(())
}

/// Each row's capacity, and what becomes of it.
const ROWS: &[(Option<usize>, u8, Result<(), NewError>)] = &[
    (Some(0), 0, Ok(())),
    (Some(1), 1, Ok(())),
    (Some(1), 2, Ok(())),
    (Some(1), 3, Ok(())),
    (Some(1), 4, Ok(())),
    (None, 5, Ok(())),
    (Some(usize::MAX), 1, Err(NewError::TooLarge)),
];

#[test]
fn rows_of_each_capacity(rt: HostRuntime) {
    for (capacity, number, expected) in ROWS {
        let opened = new_log(&rt, rt.alloc());
        let made = row::<Brand, _>(&rt, rt.alloc(), *capacity, *number, opened);
        equal(&rt, made, *expected);
    }
}
