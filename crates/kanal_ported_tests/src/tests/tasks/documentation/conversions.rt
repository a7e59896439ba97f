//! Handles for tasks that become handles for threads, or are lent as such.
use crate::tests::given::equal;
use crate::tests::sync::given::{receive_one as receive_blocking, send_one as send_blocking};
use crate::tests::tasks::given::{new, receive_one, send_one};
use std::thread;

#[test]
fn clones_for_threads(rt: HostRuntime) {
    let (s, r) = new::<u64>(&rt, None);
    let sync_sender = s.clone_sync(&rt).expect(&rt, "a clone");
    equal(&rt, r.sender_count(&rt), 2);
    let sync_receiver = r.clone_sync(&rt).expect(&rt, "a clone");
    equal(&rt, s.receiver_count(&rt), 2);
    send_blocking(&rt, &sync_sender, 1);
    receive_one(&rt, &r, 1);
    send_one(&rt, &s, 1);
    receive_blocking(&rt, &sync_receiver, 1);
}

/// How a handle for tasks serves a thread.
#[derive(Clone, Copy)]
enum ServedThread {
    /// It becomes one for threads.
    Converted,
    /// It is lent as a view for threads.
    Lent,
}

/// A thread sends the word through a sender that serves it in each way, and a task receives it; and the other way
/// round.
#[test]
fn handles_that_serve_a_thread(rt: HostRuntime) {
    for how in [ServedThread::Converted, ServedThread::Lent] {
        let (s, r) = new::<&'static str>(&rt, Some(0));
        thread::join(
            &rt,
            move || match how {
                ServedThread::Converted => send_blocking(&rt, &s.to_sync(), "World"),
                ServedThread::Lent => equal(&rt, s.as_sync().send(&rt, "World"), Ok(())),
            },
            || receive_one(&rt, &r, "World"),
        );
        let (s, r) = new::<&'static str>(&rt, Some(0));
        thread::join(
            &rt,
            move || match how {
                ServedThread::Converted => receive_blocking(&rt, &r.to_sync(), "World"),
                ServedThread::Lent => equal(&rt, r.as_sync().recv(&rt), Ok("World")),
            },
            || send_one(&rt, &s, "World"),
        );
    }
}
