//! Handles, futures and a stream of a channel with a history.
ghost use Rattle.std.specs.Prelude.{◌≡◌};
ghost use Rattle.kanal_log.specs.Logs.{table_of};

use crate::tests::given::{equal, new_task};
use crate::tests::history::given::{HistoryHandles, new_handles, new_log};
use futures::stream::StreamExt;
use futures::task::Poll;
use futures::test::MockTask;
use kanal_core::error::{NewError, ReceiveError};
use kanal_events::event::{Ask, Side};
use kanal_futures::{receive_stream, recv_in_task, send_in_task};
use kanal_one_history::{Call, Channel, GhostPass, LogId, NewLog};
use std::alloc::Global;
use std::marker::Brand;
use std::process::Abort;
use std::sync::Wait;

/// A receive in a task waits for a send by another pass, and its pass comes back with the message.
fn receive_waits<J: LogId, R: Wait + Abort>(
    rt: &R,
    task: &MockTask,
    channel: &Channel<u64, J>,
    pass: &mut GhostPass<u64, J>,
) {
    let mut receiving = recv_in_task(channel, pass.again(channel.log()));
    equal(rt, task.poll(&mut receiving).is_pending(), true);
    equal(rt, channel.send(rt, pass, 8), Ok(()));
    let Poll::Ready(Some(received)) = task.poll(&mut receiving) else {
        return equal(rt, "no answer", "an answer");
    };
    let (other, answer) = received.into_parts();
    equal(rt, answer, Ok(8));
    pass.learn(channel.log(), other);
    pass.holds();
}

/// A send in a task waits for a place, and its pass comes back.
fn send_waits<J: LogId, R: Wait + Abort>(
    rt: &R,
    task: &MockTask,
    channel: &Channel<u64, J>,
    pass: &mut GhostPass<u64, J>,
) {
    equal(rt, channel.send(rt, pass, 1), Ok(()));
    let mut sending = send_in_task(channel, pass.again(channel.log()), 2);
    equal(rt, task.poll(&mut sending).is_pending(), true);
    equal(rt, channel.recv(rt, pass), Ok(1));
    let Poll::Ready(Some(sent)) = task.poll(&mut sending) else {
        return equal(rt, "no answer", "an answer");
    };
    let (other, answer) = sent.into_parts();
    equal(rt, answer, Ok(()));
    pass.learn(channel.log(), other);
    pass.holds();
}

/// A stream answers what is there and the end, and gives its pass back.
fn streamed<J: LogId, R: Abort>(rt: &R, task: &MockTask, handles: HistoryHandles<J>) {
    let (sender, receiver, pass) = handles;
    let mut stream = receive_stream(receiver.channel(), pass);
    equal(rt, task.poll(&mut stream.next()), Poll::Ready(Some(2)));
    equal(rt, task.poll(&mut stream.next()), Poll::Pending);
    drop(sender);
    equal(rt, task.poll(&mut stream.next()), Poll::Ready(None));
    equal(rt, stream.fault(), Some(&ReceiveError::SendClosed));
    equal(rt, stream.into_pass().is_some(), true);
}

/// All of these on one channel with one place, after a clone, and an option's message that goes through it by
/// calls that never wait. How many senders there are, with the clone and after its drop.
fn rows<J: LogId, R: Wait + Abort>(
    rt: &R,
    alloc: Global,
    capacity: Option<usize>,
    opened: NewLog<Call<u64>>,
    task: &MockTask,
) -> Result<(u32, u32), NewError>
    requires name { table_of opened ≡ J.table }
    requires capacity { J.capacity ≡ capacity }
{
    let (sender, receiver, mut pass) = new_handles::<J>(alloc, capacity, opened)?;
    let channel = receiver.channel();
    let clone = sender.clone_by(rt, &mut pass);
    let both = channel.ask_count(rt, &mut pass, Side::Tx, Ask::SenderCount);
    drop(clone);
    let one = channel.ask_count(rt, &mut pass, Side::Tx, Ask::SenderCount);
    let mut option = Some(7);
    let sent = channel.try_send_option(rt, &mut pass, &mut option);
    equal(rt, (sent, option), (Ok(true), None));
    equal(rt, channel.try_recv_realtime(&mut pass), Ok(Some(7)));
    receive_waits(rt, task, channel, &mut pass);
    send_waits(rt, task, channel, &mut pass);
    streamed(rt, task, (sender, receiver, pass));
    Ok((both, one))
}

#[test]
fn handles_futures_and_a_stream_by_passes(rt: HostRuntime) {
    let opened = new_log(&rt, rt.alloc());
    let task = new_task(&rt);
    let counts = rows::<Brand, _>(&rt, rt.alloc(), Some(1), opened, &task);
    equal(&rt, counts, Ok((2, 1)));
}
