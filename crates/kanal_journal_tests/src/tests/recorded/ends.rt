//! Histories that agree: what is heard, the outcomes of waits, and more passes or entries than two passes make in a row.
use crate::tests::given::{equal, holds};
use crate::tests::recorded::parties::{add, channel, end, finish_with, pass, recorded};
use kanal_core::internal::{Outcome, Reason};
use kanal_journal::journal::{Ask, Reply, Side};
use std::alloc::AllocGlobal;

/// b finds nothing, hears what a sent, and receives it.
#[test]
fn told_calls_come_later(rt: HostRuntime) {
    let mut parties = recorded(&rt, Some(1));
    let (a, b, channel) = (&mut parties.a, &mut parties.b, &parties.channel);
    equal(&rt, b.try_recv(&rt, channel), Reply::Nothing);
    equal(&rt, a.try_send(&rt, channel, 7), Reply::Yes);
    b.hear(a.tell());
    equal(&rt, b.try_recv(&rt, channel), Reply::Got(7));
    let journal = end(&rt, parties);
    let are_of_both = match journal.entries.as_slice() {
        [first, second, third] => first.party == 1 && second.party == 0 && third.party == 1,
        _ => false,
    };
    holds(&rt, are_of_both);
    drop(journal);
}

/// Of the two waits of b the first is given what a sends, and the other ends with the channel.
#[test]
fn the_outcomes_of_two_waits(rt: HostRuntime) {
    let mut parties = recorded(&rt, Some(1));
    let (a, b, channel) = (&mut parties.a, &mut parties.b, &parties.channel);
    equal(&rt, b.recv(&rt, channel), Reply::Waits(0));
    equal(&rt, b.recv(&rt, channel), Reply::Waits(1));
    equal(&rt, b.outcome(&rt, channel, 0), None);
    equal(&rt, a.try_send(&rt, channel, 7), Reply::Yes);
    equal(&rt, b.outcome(&rt, channel, 0), Some(Outcome::Given(7)));
    equal(&rt, b.outcome(&rt, channel, 1), None);
    equal(&rt, a.close(&rt, channel), Reply::Cleared(0));
    let ended = Outcome::Ended(Reason::Closed, None);
    equal(&rt, b.outcome(&rt, channel, 1), Some(ended));
    equal(&rt, b.outcome(&rt, channel, 0), Some(Outcome::Given(7)));
    equal(&rt, b.notes().len(), 2);
    drop(parties);
}

#[test]
fn no_calls(rt: HostRuntime) {
    finish_with(&rt, channel(&rt, Some(1)), Vec::new(rt.alloc()), 0);
}

/// Into a channel without limit a sends a hundred messages.
#[test]
fn without_limit(rt: HostRuntime) {
    let mut parties = recorded(&rt, None);
    let (a, channel) = (&mut parties.a, &parties.channel);
    let bounded = a.ask(&rt, channel, Side::Tx, Ask::IsBounded);
    equal(&rt, bounded, Reply::Flag(false));
    for message in 0..100 {
        equal(&rt, a.try_send(&rt, channel, message), Reply::Yes);
    }
    let journal = end(&rt, parties);
    equal(&rt, journal.capacity, None);
    equal(&rt, journal.entries.len(), 101);
    drop(journal);
}

#[test]
fn six_passes(rt: HostRuntime) {
    let channel = channel(&rt, Some(6));
    let mut passes = Vec::new(rt.alloc());
    for message in 0..6 {
        let mut pass = pass(&rt, &channel);
        equal(&rt, pass.try_send(&rt, &channel, message), Reply::Yes);
        add(&rt, &mut passes, pass);
    }
    finish_with(&rt, channel, passes, 6);
}
