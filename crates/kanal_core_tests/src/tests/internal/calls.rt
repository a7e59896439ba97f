//! Calls of the core on one core after the other, the capacities that are refused, the largest counts, and
//! the texts of the errors.
use crate::tests::given::{boxed, core_of, equal, holds};
use crate::tests::waits::{enter, send};
use kanal_cell::error::NoMemory;
use kanal_core::error::{CloseError, NewError, TooMany};
use kanal_core::internal::ChannelInternal;
use std::alloc::AllocGlobal;
use std::fmt::{Debug, Display};
use std::process::Abort;

/// A core of texts, which are neither `Copy` nor `Clone`.
type Texts = ChannelInternal<String, Box<u32>>;

type NumberCore = ChannelInternal<u64, u8>;

/// The text as a message.
fn text_of(rt: &(impl Abort + AllocGlobal), text: &str) -> String {
    String::from_str(rt.alloc(), text).expect(rt, "memory for a text")
}

#[test]
fn what_is_left(rt: HostRuntime) {
    let mut core: Texts = core_of(&rt, 1);
    enter(&rt, &mut core, text_of(&rt, "a"));
    send(&rt, &mut core, text_of(&rt, "b"), boxed(&rt, 7));
    send(&rt, &mut core, text_of(&rt, "c"), boxed(&rt, 8));
    core.holds();
    let mut left = core.into_messages();
    for text in ["a", "b", "c"] {
        let next = left.next().expect(&rt, "a message");
        equal(&rt, next.as_str(), text);
    }
    holds(&rt, left.next().is_none());
}

#[test]
fn capacities_that_are_refused(rt: HostRuntime) {
    let refused = [
        Texts::new(rt.alloc(), usize::MAX).err(),
        Texts::starting_at(rt.alloc(), Some(usize::MAX), 0, 1, 1).err(),
        Texts::new(rt.alloc(), usize::MAX - 1).err(),
        Texts::starting_at(rt.alloc(), Some(usize::MAX - 1), 0, 1, 1).err(),
    ];
    let (large, memory) = (Some(NewError::TooLarge), Some(NewError::NoMemory));
    equal(&rt, refused, [large, large, memory, memory]);
}

#[test]
fn a_push_and_a_pop(rt: HostRuntime) {
    let mut core: NumberCore = core_of(&rt, 1);
    equal(&rt, core.pop(), None);
    equal(&rt, [core.push(1), core.push(2)], [Ok(()), Err(2)]);
    equal(&rt, (core.len(), core.is_full()), (1, true));
    equal(&rt, [core.pop(), core.pop()], [Some(1), None]);
    let kept = (core.is_bounded(), core.capacity(), core.has_ticket());
    equal(&rt, kept, (true, 1, true));
}

#[test]
fn counts_and_the_largest(rt: HostRuntime) {
    let mut core: NumberCore = core_of(&rt, 1);
    equal(
        &rt,
        (core.add_sender(), core.add_receiver()),
        (Ok(()), Ok(())),
    );
    equal(&rt, (core.sender_count(), core.receiver_count()), (2, 2));
    let gone = (core.send_side_gone(), core.receive_side_gone());
    equal(&rt, gone, (false, false));
    let most = u32::MAX;
    let core = NumberCore::starting_at(rt.alloc(), Some(1), 0, most, most);
    let mut core = core.expect(&rt, "a core");
    let added = (core.add_sender(), core.add_receiver());
    equal(&rt, added, (Err(TooMany), Err(TooMany)));
    equal(
        &rt,
        (core.sender_count(), core.receiver_count()),
        (most, most),
    );
}

/// The error is shown and named so.
fn expect_texts<E: Display + Debug>(
    rt: &(impl Abort + AllocGlobal),
    error: &E,
    text: &str,
    name: &str,
) {
    let shown = format!(in rt.alloc(); "{error}").expect(rt, "memory for a text");
    equal(rt, shown.as_str(), text);
    let named = format!(in rt.alloc(); "{error:?}").expect(rt, "memory for a name");
    equal(rt, named.as_str(), name);
}

#[test]
fn errors(rt: HostRuntime) {
    let large = "capacity too large";
    expect_texts(&rt, &NewError::TooLarge, large, "TooLarge");
    expect_texts(&rt, &NewError::NoMemory, "no memory", "NoMemory");
    let closed = "channel is already closed";
    expect_texts(&rt, &CloseError(), closed, "CloseError");
    expect_texts(&rt, &TooMany, "too many", "TooMany");
    expect_texts(&rt, &NoMemory, "no memory", "NoMemory");
}
