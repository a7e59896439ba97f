//! Two values come in turns and in order: all bits 0 and all bits 1, of several types.
use super::given::{new, recv, send};
use crate::tests::given::{MESSAGES, equal};
use crate::tests::messages::{Padded, PaddedReprC};
use kanal::{AsyncReceiver, AsyncSender};
use std::alloc::AllocGlobal;
use std::fmt::Debug;
use std::process::Abort;
use std::random::RandomSource;
use std::sync::Wait;
use std::thread;
use std::thread::Threads;

/// Sends both, so many times.
fn send_both<T: Drop + Copy, R: Wait + Abort + RandomSource + AllocGlobal>(
    rt: &R,
    tx: &AsyncSender<T>,
    (zero, ones): (T, T),
    times: u64,
) {
    for _ in 0..times {
        equal(rt, send(rt, tx, zero), Ok(()));
        equal(rt, send(rt, tx, ones), Ok(()));
    }
}

/// Receives both, so many times.
fn receive_both<T, R>(rt: &R, rx: &AsyncReceiver<T>, (zero, ones): (T, T), times: u64)
where
    T: Drop + Copy + PartialEq + Debug,
    R: Wait + Abort + RandomSource + AllocGlobal,
{
    for _ in 0..times {
        equal(rt, recv(rt, rx), Ok(zero));
        equal(rt, recv(rt, rx), Ok(ones));
    }
}

/// Both go so many times from one thread, which has the sole sender, to another, with no place between.
pub fn pass_both<T, R>(rt: &R, both: (T, T), times: u64)
where
    T: Drop + Copy + PartialEq + Debug + Send + Sync,
    R: Threads + Wait + Abort + RandomSource + AllocGlobal + Sync,
{
    let (tx, rx) = new::<T>(rt, Some(0));
    thread::join(
        rt,
        move || send_both(rt, &tx, both, times),
        || receive_both(rt, &rx, both, times),
    );
}

#[test]
fn integrity_u8(rt: HostRuntime) {
    pass_both(&rt, (0u8, !0u8), MESSAGES);
}

#[test]
fn integrity_u16(rt: HostRuntime) {
    pass_both(&rt, (0u16, !0u16), MESSAGES);
}

#[test]
fn integrity_u32(rt: HostRuntime) {
    pass_both(&rt, (0u32, !0u32), MESSAGES);
}

#[test]
fn integrity_usize(rt: HostRuntime) {
    pass_both(&rt, (0u64, !0u64), MESSAGES);
}

#[test]
fn integrity_big(rt: HostRuntime) {
    let ones = (!0u64, !0u64, !0u64, !0u64);
    pass_both(&rt, ((0u64, 0u64, 0u64, 0u64), ones), MESSAGES);
}

#[test]
fn integrity_string(rt: HostRuntime) {
    pass_both(&rt, ("", "not empty"), MESSAGES);
}

#[test]
fn integrity_padded_rust(rt: HostRuntime) {
    let zero = Padded {
        a: false,
        b: 0,
        c: 0,
    };
    let ones = Padded {
        a: true,
        b: 0xFF,
        c: 0xFFFF_FFFF,
    };
    pass_both(&rt, (zero, ones), MESSAGES);
}

#[test]
fn integrity_padded_c(rt: HostRuntime) {
    let zero = PaddedReprC {
        a: false,
        b: 0,
        c: 0,
    };
    let ones = PaddedReprC {
        a: true,
        b: 0xFF,
        c: 0xFFFF_FFFF,
    };
    pass_both(&rt, (zero, ones), MESSAGES);
}
