//! Calls and drops while the lock is held by the test.
use crate::tests::given::{channel, counts, equal, handles, holds, new_task, with_tokens};
use futures::task::Poll;
use futures::test::MockTask;
use kanal_channel::Shared;
use kanal_core::error::{ReceiveError, SendError};
use kanal_futures::{ReceiveFuture, receive_future};
use kanal_given::{Counted, Drops};
use kanal_state::NoHistory;
use std::alloc::AllocGlobal;
use std::process::Abort;
use std::sync::Wait;

/// Drops handles and futures while the lock is held. Answers how many senders, receivers and waits that were
/// left there were at its release.
fn drop_held<R: Wait, T: Drop, D: Drop, F: Drop>(
    rt: &R,
    shared: &Shared<T, NoHistory>,
    handles: D,
    futures: F,
) -> (u32, u32, u64) {
    let locked = shared.lock(rt);
    drop(handles);
    drop(futures);
    let (senders, receivers) = locked.state.counts();
    let held = (senders, receivers, shared.left_waits());
    locked.unlock_and_drain();
    held
}

#[test]
fn handles_of_each_side_are_dropped_while_the_lock_is_held(rt: HostRuntime) {
    let (sender, receiver) = handles::<u64>(&rt, 1);
    let second = sender.clone(&rt).expect(&rt, "one more");
    let third = sender.clone(&rt).expect(&rt, "one more");
    let fourth = sender.clone(&rt).expect(&rt, "one more");
    let all = ((sender, second), (third, fourth));
    let shared = receiver.channel();
    equal(&rt, drop_held(&rt, shared, all, ()), (4, 1, 0));
    equal(&rt, counts(&rt, shared), (0, 1));
    holds(&rt, receiver.is_terminated(&rt));
    let (sender, receiver) = handles::<u64>(&rt, 1);
    let second = receiver.clone(&rt).expect(&rt, "one more");
    let shared = sender.channel();
    let held = drop_held(&rt, shared, (receiver, second), ());
    equal(&rt, held, (1, 2, 0));
    equal(&rt, counts(&rt, shared), (1, 0));
    let sent = shared.send(&rt, &mut (), 7);
    equal(&rt, sent, Err(SendError::ReceiveClosed));
}

/// Three of four senders and a send that waits: the one that is left has nobody before it.
#[test]
fn senders_and_a_send_that_waits_are_dropped_while_the_lock_is_held(rt: HostRuntime) {
    let drops = Drops::new(rt.alloc()).expect(&rt, "a counter");
    let (sender, receiver) = handles::<Counted>(&rt, 0);
    let task = new_task(&rt);
    let second = sender.clone(&rt).expect(&rt, "one more");
    let third = sender.clone(&rt).expect(&rt, "one more");
    let fourth = sender.clone(&rt).expect(&rt, "one more");
    let mut sending = sender.send(drops.message().expect(&rt, "one more"));
    equal(&rt, task.poll(&mut sending), Poll::Pending);
    let three = (second, (third, fourth));
    let shared = receiver.channel();
    equal(&rt, drop_held(&rt, shared, three, sending), (4, 1, 1));
    equal(&rt, counts(&rt, shared), (1, 1));
    equal(&rt, shared.left_waits(), 0);
    holds(&rt, matches!(receiver.try_recv(&rt), Ok(None)));
    equal(&rt, drops.count(), 1);
}

/// Waits that were left go first, then the senders, whose last one ends a receive that still waits, and
/// then the receivers.
#[test]
fn notices_of_all_kinds_are_applied_in_their_order(rt: HostRuntime) {
    let (shared, sender, receiver) = with_tokens::<u64>(&rt, 0);
    let task = new_task(&rt);
    let (mut leaves, mut stays) = (receive_future(&shared), receive_future(&shared));
    equal(&rt, task.poll(&mut leaves), Poll::Pending);
    equal(&rt, task.poll(&mut stays), Poll::Pending);
    let locked = shared.lock(&rt);
    shared.drop_handle(receiver);
    shared.drop_handle(sender);
    drop(leaves);
    let held = (locked.state.counts(), shared.left_waits());
    locked.unlock_and_drain();
    equal(&rt, held, ((1, 1), 1));
    equal(&rt, shared.left_waits(), 0);
    equal(&rt, counts(&rt, &shared), (0, 0));
    let ended = task.poll(&mut stays);
    equal(&rt, ended, Poll::Ready(Err(ReceiveError::SendClosed)));
}

#[test]
fn realtime_forms_while_the_lock_is_held(rt: HostRuntime) {
    let shared = channel::<u64>(&rt, 1);
    equal(&rt, shared.close(&rt, &mut ()), Ok(()));
    let locked = shared.lock(&rt);
    let sent = shared.try_send_realtime(&mut (), 1);
    let got = shared.try_recv_realtime(&mut ());
    locked.unlock_and_drain();
    equal(&rt, sent, Ok(false));
    equal(&rt, got, Ok(None));
}

/// How many futures wait, and are dropped.
const FUTURES: u64 = 10_000;

/// So many receives that wait; fewer where one did not.
fn waiting<'a>(
    rt: &(impl Abort + AllocGlobal),
    task: &MockTask,
    shared: &'a Shared<u64, NoHistory>,
) -> Vec<ReceiveFuture<'a, u64>> {
    let mut futures = Vec::new(rt.alloc());
    for _ in 0..FUTURES {
        let mut future = receive_future(shared);
        if task.poll(&mut future) == Poll::Pending {
            futures.push(future).expect(rt, "memory for a future");
        }
    }
    futures
}

#[test]
fn futures_are_dropped_while_the_lock_is_held(rt: HostRuntime) {
    let shared = channel::<u64>(&rt, 0);
    let task = new_task(&rt);
    let futures = waiting(&rt, &task, &shared);
    equal(&rt, drop_held(&rt, &shared, (), futures), (1, 1, FUTURES));
    equal(&rt, shared.left_waits(), 0);
    holds(&rt, shared.try_send(&rt, &mut (), 1) == Ok(false));
}
