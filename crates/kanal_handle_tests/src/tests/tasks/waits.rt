//! What questions answer while a future waits.
use super::given::{ends_and_task, waiting_receive, waiting_send};
use crate::tests::given::{equal, holds};
use futures::task::Poll;

#[test]
fn full_and_empty_at_capacity_0_while_a_future_waits(rt: HostRuntime) {
    let (sender, receiver, task) = ends_and_task::<u64>(&rt, 0);
    let receiving = waiting_receive(&rt, &task, &receiver);
    holds(&rt, sender.is_full(&rt) && receiver.is_full(&rt));
    holds(&rt, sender.is_empty(&rt));
    drop(receiving);
    let _sending = waiting_send(&rt, &task, &sender, 7);
    holds(&rt, sender.is_full(&rt) && receiver.is_full(&rt));
    equal(&rt, (sender.len(&rt), receiver.is_empty(&rt)), (0, true));
}

#[test]
fn a_sealed_channel_with_a_waiting_send_is_not_terminated(rt: HostRuntime) {
    let (sender, receiver, task) = ends_and_task::<u64>(&rt, 0);
    let mut sending = waiting_send(&rt, &task, &sender, 7);
    equal(&rt, receiver.seal(&rt), Ok(()));
    holds(&rt, !receiver.is_terminated(&rt));
    equal(&rt, receiver.try_recv(&rt), Ok(Some(7)));
    holds(&rt, receiver.is_terminated(&rt));
    equal(&rt, task.poll(&mut sending), Poll::Ready(Ok(())));
}
