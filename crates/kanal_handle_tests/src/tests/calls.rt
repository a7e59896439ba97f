//! Each call of each handle and of each view, once, with ample memory, at a concrete message type.
//!
//! What else a call answers is its clause, and the lists of `kanal_interleaving_tests` compare it.
use crate::tests::given::{ends, equal};
use crate::tests::tasks::given::{ends as task_ends, receive_in_task, send_in_task};
use futures::StreamExt;
use futures::executor::block_on;
use kanal::error::CloseError;
use kanal::{Receiver, Sender, TestClock, unbounded, unbounded_async};
use std::alloc::AllocGlobal;
use std::ops::Range;
use std::process::Abort;
use std::sync::Wait;
use std::time::Duration;

/// Sends 1 to 4 by the calls that don't wait, which each sending handle has.
macro_rules! tries {
    ($rt:expr, $sender:expr) => {{
        let (mut second, mut fourth) = (Some(2), Some(4));
        let answers = [
            $sender.try_send($rt, 1),
            $sender.try_send_option($rt, &mut second),
            $sender.try_send_realtime(3),
            $sender.try_send_option_realtime(&mut fourth),
        ];
        equal($rt, answers, [Ok(true), Ok(true), Ok(true), Ok(true)]);
        equal($rt, [second, fourth], [None, None]);
    }};
}

/// Sends 5 to 7 by the calls that wait, which handles for threads and views have.
macro_rules! sends {
    ($rt:expr, $sender:expr) => {{
        let (time, clock) = (Duration::from_nanos(1), TestClock::still(0));
        let mut seventh = Some(7);
        equal($rt, $sender.send($rt, 5), Ok(()));
        let answers = [
            $sender.send_timeout($rt, 6, time, &clock),
            $sender.send_option_timeout($rt, &mut seventh, time, &clock),
        ];
        equal($rt, answers, [Ok(()), Ok(())]);
        equal($rt, seventh, None);
    }};
}

/// Receives 1 and 2 by the calls that don't wait, and drains 3 and 4 behind what was there, as each
/// receiving handle can.
macro_rules! takes {
    ($rt:expr, $receiver:expr) => {{
        let answers = [$receiver.try_recv($rt), $receiver.try_recv_realtime()];
        equal($rt, answers, [Ok(Some(1)), Ok(Some(2))]);
        let mut messages = Vec::new($rt.alloc());
        messages.push(9).expect($rt, "memory for a message");
        equal($rt, $receiver.drain_into($rt, &mut messages), Ok(2));
        equal($rt, messages.as_slice(), [9, 3, 4].as_slice());
    }};
}

/// Receives 5 to 11, and then the end of a sealed channel, by the calls of handles for threads and views.
macro_rules! receives {
    ($rt:expr, $receiver:expr) => {{
        let (time, clock) = (Duration::from_nanos(1), TestClock::still(0));
        let mut sum = 0u64;
        equal($rt, $receiver.recv($rt), Ok(5));
        equal($rt, $receiver.recv_timeout($rt, time, &clock), Ok(6));
        for message in $receiver.iter($rt).take(2) {
            sum = sum.wrapping_add(message);
        }
        equal($rt, sum, 15);
        let failed = $receiver.try_for_each($rt, |message| Err::<(), u64>(message));
        equal($rt, failed, Ok(Err(9)));
        let ended = $receiver.for_each($rt, |message| sum = sum.wrapping_add(message));
        equal($rt, (sum, ended), (36, Ok(())));
    }};
}

/// Closes, and closes once more.
macro_rules! closes {
    ($rt:expr, $handle:expr) => {
        equal(
            $rt,
            [$handle.close($rt), $handle.close($rt)],
            [Ok(()), Err(CloseError())],
        )
    };
}

/// Sends these numbers.
fn fill<R: Abort + Wait>(rt: &R, sender: &Sender<u64>, numbers: Range<u64>) {
    for number in numbers {
        equal(rt, sender.send(rt, number), Ok(()));
    }
}

/// Ends the test unless these messages are in the channel.
fn arrived<R: Abort + Wait + AllocGlobal>(rt: &R, receiver: &Receiver<u64>, expected: &[u64]) {
    let mut messages = Vec::new(rt.alloc());
    equal(
        rt,
        receiver.drain_into(rt, &mut messages),
        Ok(expected.len()),
    );
    equal(rt, messages.as_slice(), expected);
}

#[test]
fn a_sender_and_a_view_of_one(rt: HostRuntime) {
    let (sender, receiver) = ends::<u64>(&rt, 7);
    tries!(&rt, sender);
    sends!(&rt, sender);
    arrived(&rt, &receiver, &[1, 2, 3, 4, 5, 6, 7]);
    equal(&rt, sender.seal(&rt), Ok(()));
    closes!(&rt, sender);
    let (sender, receiver) = ends::<u64>(&rt, 7);
    let view = sender.as_async().as_sync();
    tries!(&rt, view);
    sends!(&rt, view);
    arrived(&rt, &receiver, &[1, 2, 3, 4, 5, 6, 7]);
    equal(&rt, view.seal(&rt), Ok(()));
    closes!(&rt, view);
}

#[test]
fn a_sender_for_tasks(rt: HostRuntime) {
    let (sender, receiver) = unbounded_async::<u64>(rt.alloc()).expect(&rt, "a channel");
    tries!(&rt, sender);
    equal(&rt, send_in_task(&rt, &sender, 5), Ok(()));
    let receiver = receiver.to_sync();
    arrived(&rt, &receiver, &[1, 2, 3, 4, 5]);
    equal(&rt, sender.seal(&rt), Ok(()));
    closes!(&rt, sender);
}

#[test]
fn a_receiver(rt: HostRuntime) {
    let (sender, mut receiver) = ends::<u64>(&rt, 7);
    fill(&rt, &sender, 1..5);
    takes!(&rt, receiver);
    fill(&rt, &sender, 5..12);
    equal(&rt, receiver.seal(&rt), Ok(()));
    receives!(&rt, receiver);
    closes!(&rt, receiver);
}

#[test]
fn a_view_of_a_receiver(rt: HostRuntime) {
    let (sender, receiver) = unbounded::<u64>(rt.alloc()).expect(&rt, "a channel");
    let mut view = receiver.as_async().as_sync();
    fill(&rt, &sender, 1..5);
    takes!(&rt, view);
    fill(&rt, &sender, 5..12);
    equal(&rt, view.seal(&rt), Ok(()));
    receives!(&rt, view);
    closes!(&rt, view);
}

#[test]
fn a_receiver_for_tasks(rt: HostRuntime) {
    let (sender, receiver) = task_ends::<u64>(&rt, 4);
    let sender = sender.to_sync();
    fill(&rt, &sender, 1..5);
    takes!(&rt, receiver);
    fill(&rt, &sender, 5..7);
    equal(&rt, receive_in_task(&rt, &receiver), Ok(5));
    let next = block_on(&rt, receiver.stream().next()).expect(&rt, "a task");
    equal(&rt, next, Some(6));
    equal(&rt, receiver.seal(&rt), Ok(()));
    closes!(&rt, receiver);
}
