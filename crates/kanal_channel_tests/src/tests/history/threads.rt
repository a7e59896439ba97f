//! Two threads on one channel: 20,000 messages come in order, at each kind of capacity.
use crate::tests::given::equal;
use crate::tests::history::exchange::{MESSAGES, Mode};
use crate::tests::history::given::new_log;
use std::marker::Brand;

#[test]
fn at_each_capacity(rt: HostRuntime) {
    for capacity in [0, 1, 64] {
        let opened = new_log(&rt, rt.alloc());
        let counts = Mode::Waiting.exchange_bounded::<Brand, _>(&rt, rt.alloc(), capacity, opened);
        equal(&rt, counts, Ok((MESSAGES, MESSAGES)));
    }
    let opened = new_log(&rt, rt.alloc());
    let counts = Mode::Waiting.exchange_unbounded::<Brand, _>(&rt, rt.alloc(), opened);
    equal(&rt, counts, (MESSAGES, MESSAGES));
}
