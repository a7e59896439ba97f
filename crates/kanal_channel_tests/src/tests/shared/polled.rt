//! Polls while the lock is held by the test: each makes no step and asks for another poll, once.
//!
//! A wake is used up before the next one is looked for.
use crate::tests::given::{channel, equal, holds, new_task};
use futures::task::Poll;
use futures::test::MockTask;
use kanal_events::event::{Ask, Side};
use kanal_futures::{receive_future, send_future};
use std::process::Abort;

/// Ends the test unless the task was woken, once: after a poll that does nothing no wake is left.
fn woken_once(rt: &impl Abort, task: &MockTask) {
    holds(rt, task.is_woken());
    task.enter(|_cx| {});
    holds(rt, !task.is_woken());
}

#[test]
fn a_send_and_a_receive_are_polled_while_the_lock_is_held(rt: HostRuntime) {
    let shared = channel::<u64>(&rt, 1);
    let task = new_task(&rt);
    let mut sending = send_future(&shared, 7);
    let locked = shared.lock(&rt);
    let polled = task.poll(&mut sending);
    locked.unlock_and_drain();
    let len = shared.ask_number(&rt, &mut (), Side::Tx, Ask::Len);
    equal(&rt, (polled, len), (Poll::Pending, 0));
    woken_once(&rt, &task);
    equal(&rt, task.poll(&mut sending), Poll::Ready(Ok(())));
    holds(&rt, !task.is_woken());
    let shared = channel::<u64>(&rt, 1);
    let task = new_task(&rt);
    equal(&rt, shared.send(&rt, &mut (), 7), Ok(()));
    let mut receiving = receive_future(&shared);
    let locked = shared.lock(&rt);
    let polled = task.poll(&mut receiving);
    locked.unlock_and_drain();
    let len = shared.ask_number(&rt, &mut (), Side::Rx, Ask::Len);
    equal(&rt, (polled, len), (Poll::Pending, 1));
    woken_once(&rt, &task);
    equal(&rt, task.poll(&mut receiving), Poll::Ready(Ok(7)));
    holds(&rt, !task.is_woken());
}

/// A wait that was started goes on, and its waker is the same: the message wakes the task once more.
#[test]
fn a_wait_is_polled_while_the_lock_is_held(rt: HostRuntime) {
    let shared = channel::<u64>(&rt, 0);
    let task = new_task(&rt);
    let mut receiving = receive_future(&shared);
    equal(&rt, task.poll(&mut receiving), Poll::Pending);
    holds(&rt, !task.is_woken());
    let locked = shared.lock(&rt);
    let polled = task.poll(&mut receiving);
    locked.unlock_and_drain();
    equal(&rt, polled, Poll::Pending);
    woken_once(&rt, &task);
    equal(&rt, shared.send(&rt, &mut (), 7), Ok(()));
    woken_once(&rt, &task);
    equal(&rt, task.poll(&mut receiving), Poll::Ready(Ok(7)));
    holds(&rt, !task.is_woken());
}
