//! Who is woken, and by what.
//!
//! The test task tells whether it was woken since its last poll began, and not how often.
use super::given::{ends, ends_and_task, new_task, poll_next, waiting_receive, waiting_send};
use crate::tests::given::{equal, holds};
use futures::task::Poll;
use futures::test::MockTask;
use kanal::ReceiveStream;
use kanal::error::ReceiveError;
use std::process::Abort;

/// Whether the task was woken, and after it forgot that, was not woken again.
fn was_woken_once(task: &MockTask) -> bool {
    let was_woken = task.is_woken();
    task.enter(|_| ());
    was_woken && !task.is_woken()
}

/// So is that of the second, where there is no third.
#[test]
fn the_waker_of_the_third_poll_is_woken(rt: HostRuntime) {
    let (sender, receiver, first) = ends_and_task::<u64>(&rt, 0);
    let (second, third) = (new_task(&rt), new_task(&rt));
    let mut receiving = waiting_receive(&rt, &first, &receiver);
    equal(&rt, second.poll(&mut receiving), Poll::Pending);
    equal(&rt, sender.try_send(&rt, 3), Ok(true));
    holds(&rt, was_woken_once(&second));
    holds(&rt, !first.is_woken());
    equal(&rt, second.poll(&mut receiving), Poll::Ready(Ok(3)));
    let mut receiving = waiting_receive(&rt, &first, &receiver);
    equal(&rt, second.poll(&mut receiving), Poll::Pending);
    equal(&rt, third.poll(&mut receiving), Poll::Pending);
    equal(&rt, sender.try_send(&rt, 3), Ok(true));
    holds(&rt, was_woken_once(&third));
    holds(&rt, !second.is_woken());
    equal(&rt, third.poll(&mut receiving), Poll::Ready(Ok(3)));
}

#[test]
fn a_send_wakes_by_its_last_waker(rt: HostRuntime) {
    let (sender, receiver, first) = ends_and_task::<u64>(&rt, 0);
    let second = new_task(&rt);
    let mut sending = waiting_send(&rt, &first, &sender, 3);
    equal(&rt, second.poll(&mut sending), Poll::Pending);
    equal(&rt, receiver.try_recv(&rt), Ok(Some(3)));
    holds(&rt, was_woken_once(&second));
    holds(&rt, !first.is_woken());
    equal(&rt, second.poll(&mut sending), Poll::Ready(Ok(())));
}

#[test]
fn a_pending_future_does_not_wake_its_task(rt: HostRuntime) {
    let (_sender, receiver, task) = ends_and_task::<u64>(&rt, 0);
    let (sender, _receiver) = ends::<u64>(&rt, 0);
    let (mut receiving, mut sending) = (receiver.recv(), sender.send(7));
    for _ in 0..3 {
        equal(&rt, task.poll(&mut receiving), Poll::Pending);
        holds(&rt, !task.is_woken());
        equal(&rt, task.poll(&mut sending), Poll::Pending);
        holds(&rt, !task.is_woken());
    }
}

/// Polls three times for the stream's next message: each poll is pending, and wakes nobody.
fn wait_for_next(rt: &impl Abort, task: &MockTask, stream: &mut ReceiveStream<'_, u64>) {
    for _ in 0..3 {
        equal(rt, poll_next(task, stream), Poll::Pending);
        holds(rt, !task.is_woken());
    }
}

#[test]
fn a_pending_stream_does_not_wake_its_task(rt: HostRuntime) {
    let (sender, receiver, task) = ends_and_task::<u64>(&rt, 0);
    let mut stream = receiver.stream();
    for message in 0..3 {
        wait_for_next(&rt, &task, &mut stream);
        equal(&rt, sender.try_send(&rt, message), Ok(true));
        holds(&rt, was_woken_once(&task));
        equal(
            &rt,
            poll_next(&task, &mut stream),
            Poll::Ready(Some(message)),
        );
        holds(&rt, !task.is_woken());
    }
}

#[test]
fn a_close_wakes_a_waiting_receive(rt: HostRuntime) {
    let (sender, receiver, task) = ends_and_task::<u64>(&rt, 0);
    let mut receiving = waiting_receive(&rt, &task, &receiver);
    equal(&rt, sender.close(&rt), Ok(()));
    holds(&rt, was_woken_once(&task));
    let ended = task.poll(&mut receiving);
    equal(&rt, ended, Poll::Ready(Err(ReceiveError::Closed)));
}
