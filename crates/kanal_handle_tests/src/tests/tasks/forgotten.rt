//! A send that is forgotten while it waits: its message stays in the line.
use super::given::{ends_and_task, waiting_send};
use crate::tests::given::equal;
use futures::task::Poll;
use kanal::error::ReceiveError;
use std::mem;

#[test]
fn a_forgotten_send_leaves_its_message(rt: HostRuntime) {
    let (sender, receiver, task) = ends_and_task::<u64>(&rt, 0);
    mem::forget(waiting_send(&rt, &task, &sender, 5));
    equal(&rt, receiver.try_recv(&rt), Ok(Some(5)));
    mem::forget(waiting_send(&rt, &task, &sender, 6));
    drop(sender);
    // The message of a send that waits goes with the last sender.
    let mut receiving = receiver.recv();
    let ended = task.poll(&mut receiving);
    equal(&rt, ended, Poll::Ready(Err(ReceiveError::SendClosed)));
}
