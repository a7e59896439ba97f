//! Messages that count their drops, read while the channel lives.
use crate::tests::given::{core_of, equal, holds};
use crate::tests::waits::enter;
use kanal_core::internal::{ChannelInternal, Closing, Take};
use kanal_given::{Counted, Drops};
use std::alloc::AllocGlobal;
use std::process::Abort;

type CountedCore = ChannelInternal<Counted, u8>;

/// A core with ten messages, whose ring went round: seven more had entered and were taken, and were dropped then.
fn gone_round(rt: &(impl Abort + AllocGlobal), drops: &Drops) -> CountedCore {
    let mut core: CountedCore = core_of(rt, 10);
    for number in 0..17u32 {
        enter(rt, &mut core, drops.message().expect(rt, "a message"));
        if number < 7 {
            holds(rt, matches!(core.take(), Take::Got(_, None)));
        }
    }
    equal(rt, drops.count(), 7);
    core
}

/// A close hands the messages out, and the drop of a core drops them.
#[test]
fn the_end_of_a_ring_that_has_gone_round(rt: HostRuntime) {
    let drops = Drops::new(rt.alloc()).expect(&rt, "memory for a counter");
    let mut core = gone_round(&rt, &drops);
    let Closing { cleared, ended: _ } = core.close().expect(&rt, "a close");
    equal(&rt, (cleared.len(), drops.count()), (10, 7));
    drop(cleared);
    equal(&rt, (drops.count(), core.is_closed()), (17, true));
    let drops = Drops::new(rt.alloc()).expect(&rt, "memory for a counter");
    drop(gone_round(&rt, &drops));
    equal(&rt, drops.count(), 17);
}
