//! The state alone, without a lock.
use crate::tests::given::{equal, holds};
use kanal_core::error::NewError;
use kanal_journal::journal::{Event, RecordedState, Reply};
use std::alloc::AllocGlobal;

#[test]
fn an_entry_for_each_step(rt: HostRuntime) {
    let mut state = RecordedState::new(rt.alloc(), Some(1)).expect(&rt, "a state");
    equal(&rt, state.step(0, Event::Send(7)), Reply::Sent);
    equal(&rt, state.step(1, Event::TryRecv), Reply::Got(7));
    equal(&rt, state.len(), 2);
    equal(&rt, state.capacity(), Some(1));
    let is_of_the_other = match state.entries() {
        [_, second] => second.party == 1 && second.reply == Reply::Got(7),
        _ => false,
    };
    holds(&rt, is_of_the_other);
    drop(state);
}

#[test]
fn the_largest_capacity(rt: HostRuntime) {
    let refused = RecordedState::<u64>::new(rt.alloc(), Some(usize::MAX));
    equal(&rt, refused.err(), Some(NewError::TooLarge));
}
