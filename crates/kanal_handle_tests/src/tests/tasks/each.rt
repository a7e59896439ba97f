//! What the loops of tasks hand over: poll after poll, in order, and how they end.
use super::given::{ends_and_task, send_in_task};
use crate::tests::given::{equal, holds};
use futures::executor::block_on;
use futures::task::Poll;
use kanal::error::ReceiveError;
use kanal::unbounded_async;
use std::collections::VecDeque;

/// It hands over what is there, waits, goes on with what it is given, and ends with the last sender.
#[test]
fn a_loop_goes_on_over_its_polls(rt: HostRuntime) {
    let (sender, receiver, task) = ends_and_task::<u64>(&rt, 2);
    let mut sum = 0u64;
    let mut each = receiver.for_each(|number| sum = sum.wrapping_mul(10).wrapping_add(number));
    equal(&rt, sender.try_send(&rt, 1), Ok(true));
    equal(&rt, sender.try_send(&rt, 2), Ok(true));
    equal(&rt, task.poll(&mut each), Poll::Pending);
    holds(&rt, !task.is_woken());
    equal(&rt, sender.try_send(&rt, 3), Ok(true));
    holds(&rt, task.is_woken());
    drop(sender);
    equal(&rt, task.poll(&mut each), Poll::Ready(Ok(())));
    equal(&rt, task.poll(&mut each), Poll::Ready(Ok(())));
    drop(each);
    equal(&rt, sum, 123);
}

/// A poll takes up to 528 messages, and then asks for another.
#[test]
fn a_poll_has_a_limit(rt: HostRuntime) {
    let (sender, receiver) = unbounded_async::<u64>(rt.alloc()).expect(&rt, "a channel");
    for number in 0..600 {
        equal(&rt, send_in_task(&rt, &sender, number), Ok(()));
    }
    let (_other, _ends, task) = ends_and_task::<u64>(&rt, 1);
    let mut count = 0usize;
    let mut each = receiver.for_each(|_number| count = count.wrapping_add(1));
    equal(&rt, task.poll(&mut each), Poll::Pending);
    holds(&rt, task.is_woken());
    let left = sender.len(&rt);
    holds(&rt, left >= 72);
    equal(&rt, sender.close(&rt), Ok(()));
    equal(
        &rt,
        task.poll(&mut each),
        Poll::Ready(Err(ReceiveError::Closed)),
    );
    drop(each);
    equal(&rt, count.wrapping_add(left), 600);
}

/// One taking of the lock brings all that there is room for, beside another receiver no more than half of a share.
#[test]
fn a_receiver_leaves_another_its_share(rt: HostRuntime) {
    let (sender, receiver) = unbounded_async::<u64>(rt.alloc()).expect(&rt, "a channel");
    for number in 0..12 {
        equal(&rt, send_in_task(&rt, &sender, number), Ok(()));
    }
    let other = receiver.clone(&rt).expect(&rt, "a clone");
    let mut queue = VecDeque::with_capacity(rt.alloc(), 8).expect(&rt, "room");
    receiver.stream().recv_ready(&mut queue);
    equal(&rt, queue.pop_front(), Some(0));
    equal(&rt, queue.len(), 2);
    equal(&rt, other.try_recv(&rt), Ok(Some(3)));
    drop(other);
    let mut queue = VecDeque::with_capacity(rt.alloc(), 7).expect(&rt, "room");
    receiver.stream().recv_ready(&mut queue);
    equal(&rt, queue.pop_front(), Some(4));
    equal(&rt, queue.len(), 6);
    equal(&rt, receiver.try_recv(&rt), Ok(Some(11)));
}

/// The call's error ends the loop: what comes later stays in the line.
#[test]
fn a_call_that_fails_ends_its_loop(rt: HostRuntime) {
    let (sender, receiver, task) = ends_and_task::<u64>(&rt, 3);
    for number in 1..=3 {
        equal(&rt, send_in_task(&rt, &sender, number), Ok(()));
    }
    let mut each = receiver.try_for_each(|number| if number == 2 { Err(number) } else { Ok(()) });
    equal(&rt, task.poll(&mut each), Poll::Ready(Ok(Err(2))));
    drop(each);
    equal(&rt, receiver.try_recv(&rt), Ok(Some(3)));
    drop(sender);
    let ended = block_on(&rt, receiver.try_for_each(|_number| Err(0u8)));
    equal(&rt, ended.expect(&rt, "a task"), Ok(Ok(())));
}
