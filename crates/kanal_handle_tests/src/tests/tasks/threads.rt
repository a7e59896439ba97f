//! One channel between threads that block and tasks that are run in threads.
use super::given::{ends, receive_in_task, send_in_task};
use crate::tests::given::{ends as sync_ends, equal, holds};
use crate::tests::threads::starts::{SendResult, start_numbers};
use kanal::{AsyncReceiver, AsyncSender};
use std::alloc::AllocGlobal;
use std::process::Abort;
use std::random::RandomSource;
use std::sync::Wait;
use std::thread;

/// Sends the numbers below the end, each in a task, or until a send is refused.
fn send_in_tasks<R: Wait + Abort + RandomSource + AllocGlobal>(
    rt: &R,
    sender: &AsyncSender<u64>,
    end: u64,
) -> SendResult {
    for number in 0..end {
        send_in_task(rt, sender, number)?;
    }
    Ok(())
}

/// Receives the numbers below the end, each in a task, or blocks; whether they came in order.
fn receives<R: Wait + Abort + RandomSource + AllocGlobal>(
    rt: &R,
    receiver: &AsyncReceiver<u64>,
    end: u64,
    is_blocking: bool,
) -> bool {
    for number in 0..end {
        let answer = if is_blocking {
            receiver.as_sync().recv(rt)
        } else {
            receive_in_task(rt, receiver)
        };
        if answer != Ok(number) {
            return false;
        }
    }
    true
}

#[test]
fn a_thread_sends_to_a_task(rt: HostRuntime) {
    for size in 0..3 {
        let (sender, receiver) = sync_ends::<u64>(&rt, size);
        let thread = start_numbers(rt, sender, 0, 100);
        holds(&rt, receives(&rt, receiver.as_async(), 100, false));
        equal(&rt, thread.join(&rt), Ok(()));
    }
}

#[test]
fn a_task_sends_to_a_thread(rt: HostRuntime) {
    for size in 0..3 {
        let (sender, receiver) = ends::<u64>(&rt, size);
        let thread = thread::spawn(&rt, move || send_in_tasks(&rt, &sender, 100));
        let thread = thread.expect(&rt, "a thread");
        holds(&rt, receives(&rt, &receiver, 100, true));
        equal(&rt, thread.join(&rt), Ok(()));
    }
}
