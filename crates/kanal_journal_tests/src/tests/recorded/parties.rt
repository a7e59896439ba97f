//! Recorded channels with their passes. Each call ends the test by itself where something is missing.
use crate::tests::given::equal;
use kanal_journal::journal::Journal;
use kanal_recorded::{Pass, Recorded};
use std::alloc::AllocGlobal;
use std::process::Abort;
use std::sync::Wait;

/// A recorded channel, and passes 0 and 1.
#[derive(Drop)]
pub struct Parties {
    pub channel: Recorded<u64>,
    pub a: Pass<u64>,
    pub b: Pass<u64>,
}

/// A recorded channel of this capacity.
pub fn channel(rt: &(impl Abort + AllocGlobal), capacity: Option<usize>) -> Recorded<u64> {
    Recorded::new(rt.alloc(), capacity).expect(rt, "a channel")
}

/// The channel's next pass.
pub fn pass<R: Abort + Wait>(rt: &R, channel: &Recorded<u64>) -> Pass<u64> {
    channel.pass(rt).expect(rt, "a pass")
}

/// A recorded channel of this capacity with its first two passes.
pub fn recorded<R: Abort + Wait + AllocGlobal>(rt: &R, capacity: Option<usize>) -> Parties {
    let channel = channel(rt, capacity);
    let a = pass(rt, &channel);
    let b = pass(rt, &channel);
    Parties { channel, a, b }
}

/// Puts the pass at the list's end.
pub fn add(rt: &impl Abort, passes: &mut Vec<Pass<u64>>, pass: Pass<u64>) {
    passes.push(pass).expect(rt, "memory for a pass");
}

/// The two passes in a list.
pub fn both(rt: &(impl Abort + AllocGlobal), a: Pass<u64>, b: Pass<u64>) -> Vec<Pass<u64>> {
    let mut passes = Vec::new(rt.alloc());
    add(rt, &mut passes, a);
    add(rt, &mut passes, b);
    passes
}

/// The journal, where these passes agree with it.
pub fn finish(rt: &impl Abort, channel: Recorded<u64>, passes: Vec<Pass<u64>>) -> Journal<u64> {
    channel.finish(passes).ok().expect(rt, "the lists agree")
}

/// Ends the test unless these passes agree with the journal, and it has so many entries.
pub fn finish_with(
    rt: &impl Abort,
    channel: Recorded<u64>,
    passes: Vec<Pass<u64>>,
    entries: usize,
) {
    equal(rt, finish(rt, channel, passes).entries.len(), entries);
}

/// The journal of the channel, where its two passes agree with it.
pub fn end(rt: &(impl Abort + AllocGlobal), parties: Parties) -> Journal<u64> {
    let Parties { channel, a, b } = parties;
    finish(rt, channel, both(rt, a, b))
}
