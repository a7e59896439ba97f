//! Lists that don't agree with the journal.
use crate::tests::given::{equal, holds};
use crate::tests::recorded::parties::{Parties, add, both, channel, finish, pass};
use crate::tests::recorded::rows::{CallRow, played};
use kanal_journal::journal::{Ask, Event, Reply, Side};
use kanal_recorded::{Mismatch, Pass, Recorded};
use std::alloc::AllocGlobal;
use std::process::Abort;
use std::sync::Wait;

/// The pass alone in a list.
fn alone(rt: &(impl Abort + AllocGlobal), pass: Pass<u64>) -> Vec<Pass<u64>> {
    let mut passes = Vec::new(rt.alloc());
    add(rt, &mut passes, pass);
    passes
}

/// What is told of a channel that doesn't end with these passes.
fn told_of(rt: &impl Abort, channel: Recorded<u64>, passes: Vec<Pass<u64>>) -> Mismatch {
    let (told, _, _) = channel.finish(passes).err().expect(rt, "one is missing");
    told
}

/// The first party sends, and the second receives.
const HAND_OVER: &[CallRow] = &[
    (0, Event::TrySend(7), Reply::Yes),
    (1, Event::TryRecv, Reply::Got(7)),
];

/// The channel and its pass, back from an end at which the other pass is missing.
fn come_back(
    rt: &(impl Abort + AllocGlobal),
    channel: Recorded<u64>,
    pass: Pass<u64>,
) -> (Recorded<u64>, Vec<Pass<u64>>) {
    let refused = channel.finish(alone(rt, pass)).err();
    let (told, channel, back) = refused.expect(rt, "one is missing");
    equal(rt, told, Mismatch);
    equal(rt, back.len(), 1);
    (channel, back)
}

/// The other pass comes later, before the one that was alone.
#[test]
fn a_missing_pass(rt: HostRuntime) {
    let Parties { channel, a, b } = played(&rt, Some(1), HAND_OVER);
    let (channel, mut passes) = come_back(&rt, channel, a);
    passes.insert(0, b).expect(&rt, "memory for a pass");
    let journal = finish(&rt, channel, passes);
    let are_of_both = match journal.entries.as_slice() {
        [first, second] => first.party == 0 && second.party == 1,
        _ => false,
    };
    holds(&rt, are_of_both);
    drop(journal);
}

/// No passes after calls; and a pass that is drawn after a mismatch.
#[test]
fn missing_passes(rt: HostRuntime) {
    let Parties { channel, a, b } = played(&rt, Some(1), HAND_OVER);
    equal(&rt, told_of(&rt, channel, Vec::new(rt.alloc())), Mismatch);
    drop((a, b));
    let Parties { channel, a, b } = played(&rt, Some(1), HAND_OVER);
    let (channel, back) = come_back(&rt, channel, a);
    equal(&rt, pass(&rt, &channel).party(), 2);
    drop((channel, back, b));
}

/// Asks how many messages are there, which is none.
fn ask_of_none<R: Abort + Wait>(rt: &R, channel: &Recorded<u64>, pass: &mut Pass<u64>) {
    let messages = pass.ask(rt, channel, Side::Tx, Ask::Len);
    equal(rt, messages, Reply::Number(0));
}

#[test]
fn told_of_another_channel(rt: HostRuntime) {
    let first = channel(&rt, Some(1));
    let second = channel(&rt, Some(1));
    let mut a = pass(&rt, &first);
    let mut b = pass(&rt, &second);
    ask_of_none(&rt, &first, &mut a);
    b.hear(a.tell());
    ask_of_none(&rt, &second, &mut b);
    equal(&rt, told_of(&rt, second, alone(&rt, b)), Mismatch);
    drop(first);
}

#[test]
fn two_passes_of_one_party(rt: HostRuntime) {
    let first = channel(&rt, Some(1));
    let second = channel(&rt, Some(1));
    let pass_of_first = pass(&rt, &first);
    let passes = both(&rt, pass(&rt, &second), pass_of_first);
    equal(&rt, told_of(&rt, first, passes), Mismatch);
    drop(second);
}
