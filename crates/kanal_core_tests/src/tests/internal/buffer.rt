//! The core's buffer with ample memory: many messages, capacities of each kind, and a ring that has gone
//! round.
use crate::tests::given::{core_of, equal, holds};
use crate::tests::waits::enter;
use kanal_core::internal::{ChannelInternal, Offer, Take};
use std::alloc::AllocGlobal;
use std::ops::Range;
use std::process::Abort;

type NumberCore = ChannelInternal<u64, u8>;

/// The numbers enter, in order.
fn enter_numbers(rt: &impl Abort, core: &mut NumberCore, numbers: Range<u64>) {
    for number in numbers {
        enter(rt, core, number);
    }
}

/// The numbers are taken, in order, and nobody is let in; then none is left.
fn take_numbers(rt: &impl Abort, core: &mut NumberCore, numbers: Range<u64>) {
    for number in numbers {
        holds(
            rt,
            matches!(core.take(), Take::Got(got, None) if got == number),
        );
    }
    holds(rt, core.is_empty());
}

#[test]
fn hundreds_of_messages_and_a_large_capacity(rt: HostRuntime) {
    let mut core = NumberCore::unbounded(rt.alloc());
    enter_numbers(&rt, &mut core, 0..700);
    take_numbers(&rt, &mut core, 0..700);
    let mut core: NumberCore = core_of(&rt, 100_000);
    enter_numbers(&rt, &mut core, 0..100_000);
    holds(&rt, matches!(core.offer(7), Offer::Full(7)));
    take_numbers(&rt, &mut core, 0..100_000);
}

/// The numbers from 5 to 11 fill a core with 7 places.
#[test]
fn a_ring_that_has_gone_round(rt: HostRuntime) {
    let mut core: NumberCore = core_of(&rt, 7);
    enter_numbers(&rt, &mut core, 0..5);
    take_numbers(&rt, &mut core, 0..5);
    enter_numbers(&rt, &mut core, 5..12);
    holds(&rt, matches!(core.offer(12), Offer::Full(12)));
    let mut messages = Vec::new(rt.alloc());
    let drained = core.drain_into(&mut messages).expect(&rt, "a drain");
    equal(&rt, drained.0, 7);
    equal(&rt, messages.as_slice(), [5, 6, 7, 8, 9, 10, 11].as_slice());
    enter_numbers(&rt, &mut core, 0..7);
    let mut left = core.into_messages();
    for number in 0..7 {
        equal(&rt, left.next(), Some(number));
    }
    equal(&rt, left.next(), None);
}

/// A capacity that only messages of size 0 may have.
#[test]
fn messages_of_size_0(rt: HostRuntime) {
    let mut core: ChannelInternal<(), u8> = core_of(&rt, usize::MAX / 2);
    equal(&rt, core.capacity(), usize::MAX / 2);
    for _ in 0..3 {
        enter(&rt, &mut core, ());
    }
    let mut messages = Vec::new(rt.alloc());
    holds(&rt, matches!(core.take(), Take::Got((), None)));
    let drained = core.drain_into(&mut messages).expect(&rt, "a drain");
    equal(&rt, (drained.0, messages.len()), (2, 2));
}
