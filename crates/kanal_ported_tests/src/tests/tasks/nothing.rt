//! Messages of size 0 between tasks, through a waiting sender's slot, and through a cell.
use super::given::new;
use super::integrity::pass_both;
use crate::tests::given::{MESSAGES, equal, holds};
use crate::tests::messages::NoBytes;
use futures::task::Poll;
use futures::test::MockTask;

#[test]
fn spsc_overaligned_zst(rt: HostRuntime) {
    pass_both::<NoBytes, _>(&rt, ([], []), MESSAGES / 2);
}

/// A send waits with its message, and a receive takes it from there.
#[test]
fn nothing_through_a_waiting_senders_slot(rt: HostRuntime) {
    let (tx, rx) = new::<NoBytes>(&rt, Some(0));
    let task = MockTask::new(&rt).expect(&rt, "a task");
    let mut sending = tx.send([]);
    holds(&rt, task.poll(&mut sending).is_pending());
    holds(&rt, rx.try_recv(&rt).is_ok_and(|came| came.is_some()));
    equal(&rt, task.poll(&mut sending), Poll::Ready(Ok(())));
}

/// A receive waits, and is handed the message through its cell.
#[test]
fn nothing_through_a_cell(rt: HostRuntime) {
    let (tx, rx) = new::<NoBytes>(&rt, Some(0));
    let task = MockTask::new(&rt).expect(&rt, "a task");
    let mut receiving = rx.recv();
    holds(&rt, task.poll(&mut receiving).is_pending());
    equal(&rt, tx.try_send(&rt, []), Ok(true));
    holds(&rt, matches!(task.poll(&mut receiving), Poll::Ready(Ok(_))));
}
