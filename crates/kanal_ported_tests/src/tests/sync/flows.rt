//! Boxes from one thread or many to one or many, and on one thread, at each capacity.
use super::given::{new, receive_ones, send_ones};
use crate::tests::given::{MESSAGES, PLACES, THREADS};
use std::alloc::AllocGlobal;
use std::process::Abort;
use std::sync::Wait;
use std::thread;
use std::thread::Threads;

/// All are sent, and then received, on this thread.
fn seq<R: Wait + Abort + AllocGlobal>(rt: &R, capacity: Option<usize>) {
    let (tx, rx) = new(rt, capacity);
    send_ones(rt, &tx, MESSAGES);
    receive_ones(rt, &rx, MESSAGES);
}

/// One thread sends to this one.
fn spsc<R: Threads + Wait + Abort + AllocGlobal + Sync>(rt: &R, capacity: Option<usize>) {
    let (tx, rx) = new(rt, capacity);
    thread::join(
        rt,
        || send_ones(rt, &tx, MESSAGES),
        || receive_ones(rt, &rx, MESSAGES),
    );
}

/// Several threads send, to as many or to this one.
fn from_several<R>(rt: &R, capacity: Option<usize>, to_several: bool)
where
    R: Threads + Wait + Abort + AllocGlobal + Sync,
{
    let (sender, receiver) = new(rt, capacity);
    let (tx, rx) = (&sender, &receiver);
    thread::scope(thread::scope_env(), rt, |scope| {
        for _ in 0..THREADS {
            let each = MESSAGES / THREADS;
            scope
                .spawn(move || send_ones(rt, tx, each))
                .expect(rt, "a thread");
            if to_several {
                scope
                    .spawn(move || receive_ones(rt, rx, each))
                    .expect(rt, "a thread");
            }
        }
        if !to_several {
            receive_ones(rt, rx, MESSAGES);
        }
    });
}

#[test]
fn seq_n(rt: HostRuntime) {
    seq(&rt, Some(PLACES));
}

#[test]
fn seq_u(rt: HostRuntime) {
    seq(&rt, None);
}

#[test]
fn spsc_1(rt: HostRuntime) {
    spsc(&rt, Some(1));
}

#[test]
fn spsc_0(rt: HostRuntime) {
    spsc(&rt, Some(0));
}

#[test]
fn spsc_n(rt: HostRuntime) {
    spsc(&rt, Some(PLACES));
}

#[test]
fn spsc_u(rt: HostRuntime) {
    spsc(&rt, None);
}

#[test]
fn mpsc_1(rt: HostRuntime) {
    from_several(&rt, Some(1), false);
}

#[test]
fn mpsc_0(rt: HostRuntime) {
    from_several(&rt, Some(0), false);
}

#[test]
fn mpsc_n(rt: HostRuntime) {
    from_several(&rt, Some(PLACES), false);
}

#[test]
fn mpsc_u(rt: HostRuntime) {
    from_several(&rt, None, false);
}

#[test]
fn mpmc_1(rt: HostRuntime) {
    from_several(&rt, Some(1), true);
}

#[test]
fn mpmc_0(rt: HostRuntime) {
    from_several(&rt, Some(0), true);
}

#[test]
fn mpmc_n(rt: HostRuntime) {
    from_several(&rt, Some(PLACES), true);
}

#[test]
fn mpmc_u(rt: HostRuntime) {
    from_several(&rt, None, true);
}
