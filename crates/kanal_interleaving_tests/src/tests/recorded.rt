//! Four threads that make random calls on one recorded channel, and tell each other what they have seen.
//!
//! The passes agree with the journal each time, and its events, run on a new channel, get its replies. The
//! threads meet before their first calls: a round in which they don't fails the test.
use crate::tests::given::equal;
use crate::tests::meeting::Meeting;
use crate::tests::watch::Watchdog;
use kanal_core::mutex::Mutex;
use kanal_journal::journal::{Ask, Event, Journal, Reply, Side, run};
use kanal_recorded::{Pass, Recorded, Seen};
use std::alloc::{AllocGlobal, Global};
use std::process::Abort;
use std::sync::{Arc, Wait};
use std::thread;
use std::thread::Threads;

/// Random numbers, which are the same in each run.
#[derive(Clone, Copy, Drop)]
struct Generator {
    state: u64,
}

impl Generator {
    /// A number below the limit, by the next state of a linear congruence.
    fn below(&mut self, limit: u64) -> u64 {
        let state = self.state.wrapping_mul(6_364_136_223_846_793_005);
        self.state = state.wrapping_add(1_442_695_040_888_963_407);
        (self.state >> 33) % limit.max(1)
    }
}

/// What the threads share: the channel, how much of its journal one of them has told, and where they meet.
#[derive(Drop)]
struct Common {
    channel: Recorded<u64>,
    told: Mutex<Seen>,
    meeting: Arc<Meeting, Global>,
}

/// Ends the channel, seldom.
fn end<R: Wait>(rt: &R, channel: &Recorded<u64>, pass: &mut Pass<u64>, draw: u64) -> Reply<u64> {
    match draw {
        0 => pass.close(rt, channel),
        1 => pass.seal(rt, channel),
        2 => pass.drop_rx(rt, channel),
        3 => pass.drop_tx(rt, channel),
        _ => pass.terminated(rt, channel),
    }
}

/// Makes one random call.
fn call<R: Wait>(
    rt: &R,
    channel: &Recorded<u64>,
    pass: &mut Pass<u64>,
    draws: &mut Generator,
) -> Reply<u64> {
    let message = draws.below(1000);
    match draws.below(16) {
        0 | 1 => pass.try_send(rt, channel, message),
        2 | 3 => pass.send(rt, channel, message),
        4 | 5 => pass.try_recv(rt, channel),
        6 | 7 => pass.recv(rt, channel),
        8 => pass.recv_late(rt, channel),
        9 => pass.drain(rt, channel),
        10 | 11 => pass.withdraw(rt, channel, draws.below(24)),
        12 => pass.clone_tx(rt, channel),
        13 => pass.clone_rx(rt, channel),
        14 => pass.ask(rt, channel, Side::Rx, Ask::Len),
        _ => end(rt, channel, pass, draws.below(8)),
    }
}

/// Tells what the pass has seen, or hears what was told, or neither.
fn tell_or_hear<R: Wait>(rt: &R, told: &Mutex<Seen>, pass: &mut Pass<u64>, draw: u64) {
    match draw {
        0 => *told.lock(rt) = pass.tell(),
        1 => pass.hear(*told.lock(rt)),
        _ => {},
    }
}

/// How many calls a thread makes in a round.
const CALLS: usize = 25;

/// Makes all calls of one thread, once it has met the others.
fn calls<R: Wait + Abort>(rt: &R, common: &Common, mut pass: Pass<u64>, seed: u64) -> Pass<u64> {
    let mut draws = Generator { state: seed };
    common.meeting.attend(rt, 0);
    for _ in 0..CALLS {
        let _reply = call(rt, &common.channel, &mut pass, &mut draws);
        tell_or_hear(rt, &common.told, &mut pass, draws.below(4));
    }
    pass
}

/// Two passes.
type Two = (Pass<u64>, Pass<u64>);

/// The calls of two threads.
fn in_two<R: Threads + Wait + Abort + Sync>(
    rt: &R,
    common: &Common,
    passes: Two,
    seed: u64,
) -> Two {
    let (first, second) = passes;
    thread::join(
        rt,
        || calls(rt, common, first, seed),
        || calls(rt, common, second, seed.wrapping_add(1)),
    )
}

/// The channel's next two passes.
fn two<R: Wait + Abort>(rt: &R, channel: &Recorded<u64>) -> Two {
    let first = channel.pass(rt).expect(rt, "a pass");
    (first, channel.pass(rt).expect(rt, "a pass"))
}

/// The four passes in a list.
fn listed(rt: &(impl Abort + AllocGlobal), passes: Two, others: Two) -> Vec<Pass<u64>> {
    let mut list = Vec::new(rt.alloc());
    for pass in [passes.0, passes.1, others.0, others.1] {
        list.push(pass).expect(rt, "memory for a pass");
    }
    list
}

/// The journal of a round, with which its passes agree.
fn journal<R: Threads + Wait + Abort + AllocGlobal + Sync>(rt: &R, round: u64) -> Journal<u64> {
    let channel = Recorded::new(rt.alloc(), Some(2)).expect(rt, "a channel");
    let (passes, others) = (two(rt, &channel), two(rt, &channel));
    let told = Mutex::new(passes.0.tell());
    let common = Common {
        channel,
        told,
        meeting: Meeting::new(rt, 4),
    };
    let seed = round.wrapping_mul(4);
    let (passes, others) = thread::join(
        rt,
        || in_two(rt, &common, passes, seed),
        || in_two(rt, &common, others, seed.wrapping_add(2)),
    );
    let Common {
        channel,
        told: _,
        meeting: _,
    } = common;
    let finished = channel.finish(listed(rt, passes, others));
    finished
        .ok()
        .expect(rt, "the passes agree with the journal")
}

/// The events of a journal, in order.
fn events_of(rt: &(impl Abort + AllocGlobal), journal: &Journal<u64>) -> Vec<Event<u64>> {
    let mut events = Vec::new(rt.alloc());
    for entry in &journal.entries {
        events.push(entry.event).expect(rt, "memory for an event");
    }
    events
}

/// Ends the test unless the journal's events, run on a new channel, get its replies. How many they were.
fn run_again(rt: &(impl Abort + AllocGlobal), journal: &Journal<u64>) -> usize {
    let events = events_of(rt, journal);
    let report = run(rt.alloc(), journal.capacity, events).expect(rt, "a report");
    equal(rt, report.replies.len(), journal.entries.len());
    for (entry, reply) in journal.entries.iter().zip(report.replies.iter()) {
        equal(rt, entry.reply, *reply);
    }
    report.replies.len()
}

#[test]
fn random_calls_of_four_threads(rt: HostRuntime) {
    let mut replies = 0usize;
    let watch = Watchdog::start(rt);
    for round in 0..200u64 {
        let journal = journal(&rt, round);
        replies = replies.wrapping_add(run_again(&rt, &journal));
        watch.count();
    }
    equal(&rt, watch.stop(&rt), 200);
    // 200 rounds of 25 calls by each of four threads.
    equal(&rt, replies, 20_000);
}
