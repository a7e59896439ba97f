//! What a task sends of a stream: in order, up to a refusal, its end or its drop; and its sender goes.
use super::given::ends_and_task;
use crate::tests::given::{equal, holds};
use futures::executor::block_on;
use futures::stream;
use futures::task::Poll;
use kanal::error::{ReceiveError, SendError};
use kanal::unbounded_async;

/// It waits for a place, sends on, and is the last sender.
#[test]
fn a_list_is_sent_over_its_polls(rt: HostRuntime) {
    let (sender, receiver, task) = ends_and_task::<u64>(&rt, 2);
    let mut all = sender.send_all(stream::iter(1..=3));
    equal(&rt, task.poll(&mut all), Poll::Pending);
    holds(&rt, !task.is_woken());
    equal(&rt, receiver.try_recv(&rt), Ok(Some(1)));
    holds(&rt, task.is_woken());
    equal(&rt, task.poll(&mut all), Poll::Ready(Ok(())));
    equal(&rt, receiver.sender_count(&rt), 0);
    equal(
        &rt,
        task.poll(&mut all),
        Poll::Ready(Err(SendError::Finished)),
    );
    equal(&rt, receiver.try_recv(&rt), Ok(Some(2)));
    equal(&rt, receiver.try_recv(&rt), Ok(Some(3)));
    equal(&rt, receiver.try_recv(&rt), Err(ReceiveError::SendClosed));
}

/// Its drop takes back the message that waits, and the sender goes.
#[test]
fn a_dropped_list_has_sent_a_beginning(rt: HostRuntime) {
    let (sender, receiver, task) = ends_and_task::<u64>(&rt, 1);
    let mut all = sender.send_all(stream::iter(1..=3));
    equal(&rt, task.poll(&mut all), Poll::Pending);
    drop(all);
    equal(&rt, receiver.try_recv(&rt), Ok(Some(1)));
    equal(&rt, receiver.try_recv(&rt), Err(ReceiveError::SendClosed));
}

/// A poll sends up to 1,024 messages, and then asks for another; an empty list ends at once.
#[test]
fn a_poll_sends_up_to_a_limit(rt: HostRuntime) {
    let (sender, receiver) = unbounded_async::<u64>(rt.alloc()).expect(&rt, "a channel");
    let (other, _other_end, task) = ends_and_task::<u64>(&rt, 0);
    let mut all = sender.send_all(stream::iter(1..=1_100));
    equal(&rt, task.poll(&mut all), Poll::Pending);
    holds(&rt, task.is_woken());
    holds(&rt, receiver.len(&rt) <= 1_024);
    equal(&rt, task.poll(&mut all), Poll::Ready(Ok(())));
    equal(&rt, receiver.len(&rt), 1_100);
    let none = block_on(&rt, other.send_all(stream::empty()));
    equal(&rt, none.expect(&rt, "a task"), Ok(()));
}

/// No item is taken for which there was no place, unless another sender took it: the rest stays where it is.
#[test]
fn a_stream_is_not_asked_ahead_of_the_places(rt: HostRuntime) {
    let (source, numbers) = unbounded_async::<u64>(rt.alloc()).expect(&rt, "a channel");
    let (sender, receiver, task) = ends_and_task::<u64>(&rt, 8);
    for number in 1..=20 {
        equal(&rt, source.try_send(&rt, number), Ok(true));
    }
    let mut all = sender.send_all(numbers.stream());
    equal(&rt, task.poll(&mut all), Poll::Pending);
    equal(&rt, numbers.len(&rt), 11);
    for number in 1..=9 {
        equal(&rt, receiver.try_recv(&rt), Ok(Some(number)));
    }
    equal(&rt, task.poll(&mut all), Poll::Pending);
    drop(all);
    equal(&rt, receiver.try_recv(&rt), Ok(Some(10)));
    equal(&rt, numbers.len(&rt).wrapping_add(receiver.len(&rt)), 9);
}

/// A stream is sent as it comes: it waits for an item, then for a place, and its end is the sender's.
#[test]
fn a_stream_is_sent_over_its_polls(rt: HostRuntime) {
    let (source, numbers, task) = ends_and_task::<u64>(&rt, 4);
    let (sender, receiver, _task) = ends_and_task::<u64>(&rt, 1);
    let mut all = sender.send_all(numbers.stream());
    equal(&rt, task.poll(&mut all), Poll::Pending);
    holds(&rt, !task.is_woken());
    for number in 1..=2 {
        equal(&rt, source.try_send(&rt, number), Ok(true));
    }
    holds(&rt, task.is_woken());
    equal(&rt, task.poll(&mut all), Poll::Pending);
    drop(source);
    equal(&rt, receiver.try_recv(&rt), Ok(Some(1)));
    equal(&rt, task.poll(&mut all), Poll::Ready(Ok(())));
    equal(&rt, receiver.sender_count(&rt), 0);
    equal(&rt, receiver.try_recv(&rt), Ok(Some(2)));
    equal(&rt, receiver.try_recv(&rt), Err(ReceiveError::SendClosed));
}

/// A close refuses the message that waits; the rest stays with the stream's channel.
#[test]
fn a_close_ends_a_stream(rt: HostRuntime) {
    let (source, numbers, task) = ends_and_task::<u64>(&rt, 4);
    let (sender, receiver, _task) = ends_and_task::<u64>(&rt, 1);
    let mut all = sender.send_all(numbers.stream());
    for number in 1..=3 {
        equal(&rt, source.try_send(&rt, number), Ok(true));
    }
    equal(&rt, task.poll(&mut all), Poll::Pending);
    equal(&rt, receiver.close(&rt), Ok(()));
    equal(
        &rt,
        task.poll(&mut all),
        Poll::Ready(Err(SendError::Closed)),
    );
    equal(&rt, numbers.len(&rt), 1);
}
