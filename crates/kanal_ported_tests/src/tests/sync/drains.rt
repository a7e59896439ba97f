//! A drain takes all that is there.
use super::given::new;
use crate::tests::given::{equal, holds};
use crate::tests::messages::boxed;
use std::alloc::AllocGlobal;
use std::thread;

/// How many boxes are drained.
const BOXES: usize = 1000;

#[test]
fn drain_into_test(rt: HostRuntime) {
    let (tx, rx) = new::<Box<u64>>(&rt, Some(BOXES));
    for number in 0..1000 {
        equal(&rt, tx.send(&rt, boxed(&rt, number)), Ok(()));
    }
    let mut drained = Vec::new(rt.alloc());
    equal(&rt, rx.drain_into(&rt, &mut drained), Ok(BOXES));
    equal(&rt, drained.len(), BOXES);
    for (number, message) in (0u64..).zip(drained.iter()) {
        equal(&rt, **message, number);
    }
}

/// How many threads send a number each.
const SENDERS: usize = 100;

/// Each of so many threads sends a number through a clone of its own, and is joined.
#[test]
fn drain_into_test_zero_sized(rt: HostRuntime) {
    let (tx, rx) = new::<u64>(&rt, None);
    let rt = &rt;
    thread::scope(thread::scope_env(), rt, |scope| {
        for _ in 0..SENDERS {
            let theirs = tx.clone(rt).expect(rt, "a clone");
            scope
                .spawn(move || equal(rt, theirs.send(rt, 0xFF), Ok(())))
                .expect(rt, "a thread");
        }
    });
    let mut drained = Vec::new(rt.alloc());
    equal(rt, rx.drain_into(rt, &mut drained), Ok(SENDERS));
    equal(rt, drained.len(), SENDERS);
    holds(rt, drained.iter().all(|number| *number == 0xFF));
}
