//! Messages that count their drops, read while handles and futures live.
use crate::tests::counted::{counted_ends, message};
use crate::tests::given::{equal, holds};
use futures::task::Poll;
use futures::test::MockTask;
use kanal::Sender;
use kanal_given::{Counted, Drops};
use std::process::Abort;
use std::sync::Wait;

/// Sends so many messages.
fn send<R: Abort + Wait>(rt: &R, sender: &Sender<Counted>, drops: &Drops, count: u32) {
    for _ in 0..count {
        equal(rt, sender.send(rt, message(rt, drops)), Ok(()));
    }
}

/// A close drops the messages of a buffer that went round, and the last handle those of another.
#[test]
fn an_end_drops_the_buffer(rt: HostRuntime) {
    let (sender, receiver, drops) = counted_ends(&rt, 10);
    send(&rt, &sender, &drops, 7);
    for _ in 0..7u32 {
        holds(&rt, receiver.recv(&rt).is_ok());
    }
    equal(&rt, drops.count(), 7);
    send(&rt, &sender, &drops, 10);
    equal(&rt, drops.count(), 7);
    equal(&rt, receiver.close(&rt), Ok(()));
    equal(&rt, drops.count(), 17);
    let (sender, receiver, drops) = counted_ends(&rt, 10);
    send(&rt, &sender, &drops, 10);
    drop(receiver);
    equal(&rt, drops.count(), 0);
    drop(sender);
    equal(&rt, drops.count(), 10);
}

#[test]
fn a_full_buffer_drops_what_has_no_place(rt: HostRuntime) {
    let (sender, _receiver, drops) = counted_ends(&rt, 0);
    equal(&rt, sender.try_send(&rt, message(&rt, &drops)), Ok(false));
    equal(&rt, drops.count(), 1);
    let sent = sender.try_send_realtime(message(&rt, &drops));
    equal(&rt, (sent, drops.count()), (Ok(false), 2));
}

/// A message that a receive holds is dropped with its future, once.
#[test]
fn a_receive_that_was_served_drops_its_message(rt: HostRuntime) {
    let (sender, receiver, drops) = counted_ends(&rt, 0);
    let task = MockTask::new(&rt).expect(&rt, "a task");
    let mut receiving = receiver.as_async().recv();
    holds(&rt, matches!(task.poll(&mut receiving), Poll::Pending));
    equal(&rt, sender.try_send(&rt, message(&rt, &drops)), Ok(true));
    equal(&rt, drops.count(), 0);
    drop(receiving);
    equal(&rt, drops.count(), 1);
}
