//! Handles of one kind made of the other: conversions keep the counts, clones raise them, their drops lower
//! them.
use crate::tests::given::{ends as sync_ends, equal};
use crate::tests::tasks::given::{ends, receive_in_task, send_in_task};
use std::alloc::AllocGlobal;
use std::process::Abort;
use std::sync::Wait;

/// Clones a handle as one of the other kind and as one of its own, converts it, and drops both clones; what is
/// counted after each step, and last by the view of what the handle has become.
macro_rules! counts {
    ($rt:expr, $handle:ident, $count:ident, $clone:ident, $convert:ident, $view:ident) => {{
        let other = $handle.$clone($rt).expect($rt, "a clone");
        let cloned = other.$count($rt);
        let another = $handle.clone($rt).expect($rt, "a clone");
        let cloned_again = another.$count($rt);
        let converted = $handle.$convert();
        let kept = converted.$count($rt);
        drop(other);
        drop(another);
        [cloned, cloned_again, kept, converted.$view().$count($rt)]
    }};
}

/// What is counted of each of the four handles, of a channel that is open or closed.
fn counts_of(rt: &(impl Abort + AllocGlobal + Wait), closed: bool) -> [[u32; 4]; 4] {
    let (sender, receiver) = sync_ends::<u64>(rt, 0);
    let (async_sender, async_receiver) = ends::<u64>(rt, 0);
    if closed {
        equal(
            rt,
            (sender.close(rt), async_sender.close(rt)),
            (Ok(()), Ok(())),
        );
    }
    [
        counts!(rt, sender, sender_count, clone_async, to_async, as_sync),
        counts!(rt, receiver, receiver_count, clone_async, to_async, as_sync),
        counts!(
            rt,
            async_sender,
            sender_count,
            clone_sync,
            to_sync,
            as_async
        ),
        counts!(
            rt,
            async_receiver,
            receiver_count,
            clone_sync,
            to_sync,
            as_async
        ),
    ]
}

#[test]
fn handles_are_converted_and_cloned(rt: HostRuntime) {
    equal(&rt, counts_of(&rt, false), [[2, 3, 3, 1]; 4]);
}

#[test]
fn clones_of_a_closed_channel_are_not_counted(rt: HostRuntime) {
    equal(&rt, counts_of(&rt, true), [[0; 4]; 4]);
}

#[test]
fn a_thread_and_a_task_use_one_channel(rt: HostRuntime) {
    let (sender, receiver) = sync_ends::<u64>(&rt, 2);
    equal(&rt, sender.send(&rt, 1), Ok(()));
    equal(&rt, send_in_task(&rt, sender.as_async(), 2), Ok(()));
    equal(&rt, receive_in_task(&rt, receiver.as_async()), Ok(1));
    equal(&rt, receiver.recv(&rt), Ok(2));
}
