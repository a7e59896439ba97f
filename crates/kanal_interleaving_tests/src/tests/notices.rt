//! Races of notices: one thread drops handles while another has the lock for a call that doesn't wait.
//!
//! Whoever had the lock, or left the notice, applies it: a receive that the last drop ends is told before any
//! further call. Whether a drop finds the lock held is left to the schedule.
use crate::tests::given::{equal, holds, new_task};
use crate::tests::meeting::{Meeting, shared};
use crate::tests::watch::Watchdog;
use futures::task::Poll;
use kanal::error::ReceiveError;
use kanal::{AsyncReceiver, AsyncSender, bounded_async};
use std::alloc::{AllocGlobal, Global};
use std::process::Abort;
use std::random::RandomSource;
use std::sync::{Arc, Wait};
use std::thread::Threads;
use std::{thread, time};

/// How many rounds there are.
const ROUNDS: u32 = 5_000;

/// The senders of a channel are dropped in as many threads, which put that off a little, while this one makes
/// a call that tries the lock once, or in every second round waits for it.
fn drop_beside_a_try<R>(
    rt: R,
    senders: Vec<AsyncSender<u64>>,
    receiver: &AsyncReceiver<u64>,
    meeting: &Arc<Meeting, Global>,
    round: u32,
)
where
    R: Threads + Wait + Abort + AllocGlobal + Copy + Send + 'static,
{
    let mut dropping = Vec::new(rt.alloc());
    for sender in senders {
        let theirs = shared(&rt, meeting);
        let thread = thread::spawn(&rt, move || {
            theirs.attend(&rt, round % 40);
            drop(sender);
        });
        let thread = thread.expect(&rt, "a thread");
        dropping.push(thread).expect(&rt, "memory for a thread");
    }
    meeting.attend(&rt, 0);
    let answer = if round % 2 == 0 {
        receiver.try_recv_realtime()
    } else {
        receiver.try_recv(&rt)
    };
    for thread in dropping {
        thread.join(&rt);
    }
    holds(
        &rt,
        matches!(answer, Ok(None) | Err(ReceiveError::SendClosed)),
    );
}

/// A receive waits, and the drops of so many senders end it.
fn end_a_receive<R>(rt: R, senders: u32, round: u32)
where
    R: Threads + Wait + Abort + RandomSource + AllocGlobal + Copy + Send + 'static,
{
    let (sender, receiver) = bounded_async::<u64>(rt.alloc(), 0).expect(&rt, "a channel");
    let mut all = Vec::new(rt.alloc());
    for _ in 1..senders {
        let clone = sender.clone(&rt).expect(&rt, "a clone");
        all.push(clone).expect(&rt, "memory for a clone");
    }
    all.push(sender).expect(&rt, "memory for a sender");
    let task = new_task(&rt);
    let mut receiving = receiver.recv();
    equal(&rt, task.poll(&mut receiving), Poll::Pending);
    let meeting = Meeting::new(&rt, senders.wrapping_add(1));
    drop_beside_a_try(rt, all, &receiver, &meeting, round);
    holds(&rt, task.is_woken());
    let ended = task.poll(&mut receiving);
    equal(&rt, ended, Poll::Ready(Err(ReceiveError::SendClosed)));
}

/// Runs all rounds with so many senders. How many they were.
fn end_receives<R>(rt: R, senders: u32) -> u32
where
    R: Threads + Wait + time::Clock + Abort + RandomSource + AllocGlobal + Copy + Send + 'static,
{
    let watch = Watchdog::start(rt);
    for round in 0..ROUNDS {
        end_a_receive(rt, senders, round);
        watch.count();
    }
    watch.stop(&rt)
}

#[test]
fn the_last_drop_beside_a_try_ends_a_receive(rt: HostRuntime) {
    equal(&rt, end_receives(rt, 1), 5_000);
}

#[test]
fn two_drops_beside_a_try_end_a_receive(rt: HostRuntime) {
    equal(&rt, end_receives(rt, 2), 5_000);
}
