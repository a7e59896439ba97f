//! Handles for threads that become handles for tasks, or are lent as such.
use crate::tests::given::equal;
use crate::tests::sync::given::{new, receive_one, send_one};
use crate::tests::tasks::given::{receive_one as receive_in_task, send_one as send_in_task};
use std::thread;

#[test]
fn clones_for_tasks(rt: HostRuntime) {
    let (s, r) = new::<u64>(&rt, Some(0));
    let _async_sender = s.clone_async(&rt).expect(&rt, "a clone");
    let _async_receiver = r.clone_async(&rt).expect(&rt, "a clone");
    equal(&rt, (r.sender_count(&rt), s.receiver_count(&rt)), (2, 2));
}

/// How a handle for threads serves a task.
#[derive(Clone, Copy)]
enum Served {
    /// It becomes one for tasks.
    Converted,
    /// It is lent as one for tasks.
    Lent,
}

/// A task sends the word through a sender that serves it in each way, and a thread receives it; and the other way
/// round.
#[test]
fn handles_that_serve_a_task(rt: HostRuntime) {
    for how in [Served::Converted, Served::Lent] {
        let (s, r) = new::<&'static str>(&rt, Some(0));
        thread::join(
            &rt,
            move || match how {
                Served::Converted => send_in_task(&rt, &s.to_async(), "World"),
                Served::Lent => send_in_task(&rt, s.as_async(), "World"),
            },
            || receive_one(&rt, &r, "World"),
        );
        let (s, r) = new::<&'static str>(&rt, Some(0));
        thread::join(
            &rt,
            move || match how {
                Served::Converted => receive_in_task(&rt, &r.to_async(), "World"),
                Served::Lent => receive_in_task(&rt, r.as_async(), "World"),
            },
            || send_one(&rt, &s, "World"),
        );
    }
}
