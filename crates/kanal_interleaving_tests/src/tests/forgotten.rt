//! A receive that is forgotten while it waits: its entry stays in the line.
use crate::tests::given::{equal, new_task};
use futures::task::Poll;
use kanal::bounded_async;
use std::mem;

#[test]
fn a_forgotten_receive_takes_the_next_message(rt: HostRuntime) {
    let (sender, receiver) = bounded_async::<u64>(rt.alloc(), 0).expect(&rt, "a channel");
    let mut receiving = receiver.recv();
    equal(&rt, new_task(&rt).poll(&mut receiving), Poll::Pending);
    mem::forget(receiving);
    equal(&rt, sender.try_send(&rt, 7), Ok(true));
    equal(&rt, sender.try_send(&rt, 8), Ok(false));
    equal(&rt, receiver.try_recv(&rt), Ok(None));
}
