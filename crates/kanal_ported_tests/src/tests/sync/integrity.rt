//! Two values come in turns and in order: all bits 0 and all bits 1, of several types.
use super::given::new;
use crate::tests::given::{MESSAGES, equal};
use crate::tests::messages::{Padded, PaddedReprC, boxed};
use kanal::{Receiver, Sender};
use std::alloc::AllocGlobal;
use std::fmt::Debug;
use std::process::Abort;
use std::sync::Wait;
use std::thread;
use std::thread::Threads;

/// Sends both, so many times.
fn send_both<T: Drop + Copy, R: Wait + Abort>(rt: &R, tx: &Sender<T>, zero: T, ones: T) {
    for _ in 0..MESSAGES {
        equal(rt, tx.send(rt, zero), Ok(()));
        equal(rt, tx.send(rt, ones), Ok(()));
    }
}

/// Receives both, so many times.
fn receive_both<T: Drop + Copy + PartialEq + Debug, R: Wait + Abort>(
    rt: &R,
    rx: &Receiver<T>,
    zero: T,
    ones: T,
) {
    for _ in 0..MESSAGES {
        equal(rt, rx.recv(rt), Ok(zero));
        equal(rt, rx.recv(rt), Ok(ones));
    }
}

/// Both go from one thread to another, with no place between.
fn integrity_test<T, R>(rt: &R, zero: T, ones: T)
where
    T: Drop + Copy + PartialEq + Debug + Send + Sync,
    R: Threads + Wait + Abort + AllocGlobal + Sync,
{
    let (tx, rx) = new::<T>(rt, Some(0));
    thread::join(
        rt,
        || send_both(rt, &tx, zero, ones),
        || receive_both(rt, &rx, zero, ones),
    );
}

#[test]
fn integrity_u8(rt: HostRuntime) {
    integrity_test(&rt, 0u8, !0u8);
}

#[test]
fn integrity_u16(rt: HostRuntime) {
    integrity_test(&rt, 0u16, !0u16);
}

#[test]
fn integrity_u32(rt: HostRuntime) {
    integrity_test(&rt, 0u32, !0u32);
}

#[test]
fn integrity_u64(rt: HostRuntime) {
    integrity_test(&rt, 0u64, !0u64);
}

/// Sends both in boxes, so many times.
fn send_boxes<R: Wait + Abort + AllocGlobal>(rt: &R, tx: &Sender<Box<u64>>) {
    for _ in 0..MESSAGES {
        equal(rt, tx.send(rt, boxed(rt, 0)), Ok(()));
        equal(rt, tx.send(rt, boxed(rt, !0)), Ok(()));
    }
}

/// Receives both in boxes, so many times.
fn receive_boxes<R: Wait + Abort>(rt: &R, rx: &Receiver<Box<u64>>) {
    for _ in 0..MESSAGES {
        let (zero, ones) = (rx.recv(rt), rx.recv(rt));
        equal(rt, *zero.expect(rt, "a message"), 0);
        equal(rt, *ones.expect(rt, "a message"), !0);
    }
}

#[test]
fn integrity_box_u64(rt: HostRuntime) {
    let (tx, rx) = new(&rt, Some(0));
    thread::join(&rt, || send_boxes(&rt, &tx), || receive_boxes(&rt, &rx));
}

#[test]
fn integrity_big(rt: HostRuntime) {
    let ones = (!0u64, !0u64, !0u64, !0u64);
    integrity_test(&rt, (0u64, 0u64, 0u64, 0u64), ones);
}

#[test]
fn integrity_string(rt: HostRuntime) {
    integrity_test(&rt, "", "not empty");
}

#[test]
fn integrity_big_tail(rt: HostRuntime) {
    let ones = (!0u64, !0u64, !0u64, !0u8);
    integrity_test(&rt, (0u64, 0u64, 0u64, 0u8), ones);
}

#[test]
fn integrity_padded_rust(rt: HostRuntime) {
    let zero = Padded {
        a: false,
        b: 0,
        c: 0,
    };
    let ones = Padded {
        a: true,
        b: 0xFF,
        c: 0xFFFF_FFFF,
    };
    integrity_test(&rt, zero, ones);
}

#[test]
fn integrity_padded_c(rt: HostRuntime) {
    let zero = PaddedReprC {
        a: false,
        b: 0,
        c: 0,
    };
    let ones = PaddedReprC {
        a: true,
        b: 0xFF,
        c: 0xFFFF_FFFF,
    };
    integrity_test(&rt, zero, ones);
}
