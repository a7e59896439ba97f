//! One side comes late: it waits until the other's call has begun.
use super::given::{new, receive_ones, send_ones};
use crate::tests::given::{counter, wait_until};
use kanal::{Receiver, Sender};
use std::alloc::AllocGlobal;
use std::process::Abort;
use std::sync::Wait;
use std::sync::atomic::AtomicU64;
use std::sync::atomic::Ordering::SeqCst;
use std::thread;

/// How many messages there are.
const FEW: u64 = 10;

/// Sends boxes, each once its receive has begun, or counts each send as it begins.
fn send_boxes<R: Wait + Abort + AllocGlobal>(
    rt: &R,
    tx: &Sender<Box<u64>>,
    begun: &AtomicU64,
    is_late: bool,
) {
    for number in 0..FEW {
        if is_late {
            wait_until(rt, begun, number + 1);
        } else {
            begun.fetch_add(1, SeqCst);
        }
        send_ones(rt, tx, 1);
    }
}

/// Receives boxes, each once its send has begun, or counts each receive as it begins.
fn receive_boxes<R: Wait + Abort>(
    rt: &R,
    rx: &Receiver<Box<u64>>,
    begun: &AtomicU64,
    is_late: bool,
) {
    for number in 0..FEW {
        if is_late {
            wait_until(rt, begun, number + 1);
        } else {
            begun.fetch_add(1, SeqCst);
        }
        receive_ones(rt, rx, 1);
    }
}

#[test]
fn spsc_delayed_receive(rt: HostRuntime) {
    let (tx, rx) = new(&rt, Some(0));
    let begun = counter(&rt);
    thread::join(
        &rt,
        || send_boxes(&rt, &tx, &begun, false),
        || receive_boxes(&rt, &rx, &begun, true),
    );
}

#[test]
fn spsc_delayed_send(rt: HostRuntime) {
    let (tx, rx) = new(&rt, Some(0));
    let begun = counter(&rt);
    thread::join(
        &rt,
        || send_boxes(&rt, &tx, &begun, true),
        || receive_boxes(&rt, &rx, &begun, false),
    );
}
