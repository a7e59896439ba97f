//! Channels of messages that count their drops.
use crate::tests::given::ends;
use kanal::{Receiver, Sender};
use kanal_given::{Counted, Drops};
use std::alloc::AllocGlobal;
use std::process::Abort;

/// The same counter once more.
pub(crate) fn shared(rt: &impl Abort, drops: &Drops) -> Drops {
    drops.try_clone().expect(rt, "a count of the counter")
}

/// A message for this counter.
pub(crate) fn message(rt: &impl Abort, drops: &Drops) -> Counted {
    drops.message().expect(rt, "a count of the counter")
}

/// The ends of a channel with so many places, and a counter for its messages, at 0.
pub(crate) fn counted_ends(
    rt: &(impl Abort + AllocGlobal),
    capacity: usize,
) -> (Sender<Counted>, Receiver<Counted>, Drops) {
    let (sender, receiver) = ends(rt, capacity);
    (
        sender,
        receiver,
        Drops::new(rt.alloc()).expect(rt, "memory for a counter"),
    )
}
