//! The largest capacities, where messages have a size and where they have none; and that a channel has the capacity
//! that was asked for, which no clause says.
use crate::tests::given::equal;
use kanal::error::NewError;
use kanal::{bounded, bounded_async, unbounded};
use std::alloc::AllocGlobal;
use std::process::Abort;
use std::sync::Wait;

/// How the making of a channel with so many places ends.
fn refusal_of<T: Drop>(rt: &impl AllocGlobal, capacity: usize) -> Option<NewError> {
    bounded::<T>(rt.alloc(), capacity).err()
}

/// The largest number of places that a ring of messages of size 0 has.
const LARGEST_RING: usize = isize::MAX as usize;

#[test]
fn the_largest_capacities(rt: HostRuntime) {
    let refused = [
        refusal_of::<u64>(&rt, usize::MAX),
        bounded_async::<u64>(rt.alloc(), usize::MAX).err(),
        refusal_of::<u64>(&rt, usize::MAX - 1),
        refusal_of::<()>(&rt, usize::MAX),
        refusal_of::<()>(&rt, LARGEST_RING + 1),
        refusal_of::<()>(&rt, LARGEST_RING),
    ];
    let expected = [
        Some(NewError::TooLarge),
        Some(NewError::TooLarge),
        Some(NewError::NoMemory),
        Some(NewError::TooLarge),
        Some(NewError::NoMemory),
        None,
    ];
    equal(&rt, refused, expected);
}

/// What a new channel with so many places says of its capacity, and how many messages of one more enter.
fn places_of<R: Wait + Abort + AllocGlobal>(
    rt: &R,
    capacity: usize,
    offered: usize,
) -> (usize, usize, bool, usize) {
    let (sender, receiver) = bounded::<u8>(rt.alloc(), capacity).expect(rt, "a channel");
    let mut entered: usize = 0;
    for _ in 0..offered {
        if sender.try_send(rt, 0) == Ok(true) {
            entered = entered.saturating_add(1);
        }
    }
    let is_bounded = sender.is_bounded(rt) && receiver.is_bounded(rt);
    (
        sender.capacity(rt),
        receiver.capacity(rt),
        is_bounded,
        entered,
    )
}

#[test]
fn a_channel_has_the_capacity_that_was_asked_for(rt: HostRuntime) {
    for capacity in [0, 1, 2, 1_000] {
        let found = places_of(&rt, capacity, 1_001);
        equal(&rt, found, (capacity, capacity, true, capacity));
    }
    let large = places_of(&rt, 2_000_000, 1);
    equal(&rt, large, (2_000_000, 2_000_000, true, 1));
    let (sender, receiver) = unbounded::<u8>(rt.alloc()).expect(&rt, "a channel");
    equal(&rt, sender.capacity(&rt), usize::MAX);
    equal(&rt, receiver.is_bounded(&rt), false);
}
