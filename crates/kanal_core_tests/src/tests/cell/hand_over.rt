//! Outcomes that count their drops, handed over between two threads.
ghost use Rattle.std.specs.Prelude.{◌≡◌};
ghost use Rattle.kanal_cell.specs.CellRule.{HasNotLeft, HasNotSettled, MaySleep};
ghost use Rattle.kanal_cell.specs.CellEnds.{wait_view, settle_view};

use crate::tests::given::{cell, equal, holds, new_parker, unparker_of};
use crossbeam_utils::sync::Parker;
use kanal_cell::signal::{SettleEnd, WaitEnd};
use kanal_given::{Counted, Drops};
use std::alloc::AllocGlobal;
use std::process::Abort;
use std::sync::Wait;
use std::thread;

const MESSAGES: u64 = 10_000;

/// How a waiter waits.
#[derive(Drop, Clone, Copy)]
enum Way {
    Polls,
    Sleeps,
    Leaves,
    SleepsAndLeaves,
    NeverLooks,
}

#[derive(Drop)]
struct Fresh {
    end: WaitEnd<Counted>,
    way: Way,
    ghost unspent: { MaySleep (wait_view end) },
}

#[derive(Drop)]
struct WaitingItem {
    end: WaitEnd<Counted>,
    ghost unspent: { HasNotLeft (wait_view end) },
}

#[derive(Drop)]
struct Settling {
    end: SettleEnd<Counted>,
    item: Counted,
    ghost unspent: { HasNotSettled (settle_view end) },
}

impl WaitingItem {
    fn poll(&mut self) -> bool {
        self.end.poll().is_some()
    }

    /// Parks until the outcome is there. A token may be left from a waiter that slept and left.
    fn park<R: Wait>(mut self, rt: &R, parker: &Parker) -> bool {
        for _ in 0..MESSAGES {
            parker.park(rt);
            if self.poll() {
                return true;
            }
        }
        false
    }
}

/// Whether the waiter got its outcome.
fn wait_one<R: Wait + Abort>(rt: &R, parker: &Parker, fresh: Fresh) -> bool {
    let Fresh { mut end, way } = fresh;
    match way {
        Way::Polls => {
            let (first, second) = (end.poll(), end.poll());
            end.leave().is_some() || first.is_some() || second.is_some()
        }
        Way::Sleeps => {
            let had = end.sleep(unparker_of(rt, parker)).is_some();
            had || WaitingItem { end }.park(rt, parker)
        }
        Way::Leaves => end.leave().is_some(),
        Way::SleepsAndLeaves => {
            let had = end.sleep(unparker_of(rt, parker)).is_some();
            end.leave().is_some() || had
        }
        Way::NeverLooks => false,
    }
}

/// How many waiters got their outcome.
fn wait_all<R: Wait + Abort>(rt: &R, parker: Parker, ends: Vec<Fresh>) -> u64 {
    let mut got = 0u64;
    for fresh in ends {
        if wait_one(rt, &parker, fresh) {
            got = got.wrapping_add(1);
        }
    }
    got
}

/// How many outcomes came back.
fn settle_all(ends: Vec<Settling>) -> u64 {
    let mut back = 0u64;
    for settling in ends {
        let Settling { mut end, item } = settling;
        if end.settle(item).is_some() {
            back = back.wrapping_add(1);
        }
    }
    back
}

/// Fresh cells, each with an item that counts its drop. The ways take turns.
fn cells(rt: &(impl Abort + AllocGlobal), drops: &Drops) -> (Vec<Fresh>, Vec<Settling>) {
    let mut waits = Vec::new(rt.alloc());
    let mut settles = Vec::new(rt.alloc());
    for number in 0..MESSAGES {
        let (wait, settle) = cell(rt);
        let way = match number % 5 {
            0 => Way::Polls,
            1 => Way::Sleeps,
            2 => Way::Leaves,
            3 => Way::SleepsAndLeaves,
            _ => Way::NeverLooks,
        };
        let item = drops.message().expect(rt, "a message");
        waits
            .push(Fresh { end: wait, way })
            .expect(rt, "memory for one more");
        settles
            .push(Settling { end: settle, item })
            .expect(rt, "memory for one more");
    }
    (waits, settles)
}

#[test]
fn each_outcome_is_dropped_once(rt: HostRuntime) {
    for _ in 0..4u32 {
        let drops = Drops::new(rt.alloc()).expect(&rt, "memory for a counter");
        let (waits, settles) = cells(&rt, &drops);
        let parker = new_parker(&rt);
        let (back, got) = thread::join(
            &rt,
            move || settle_all(settles),
            || wait_all(&rt, parker, waits),
        );
        // One of five is never looked for. Of the others each went to one side.
        equal(&rt, back.wrapping_add(got), MESSAGES / 5 * 4);
        equal(&rt, drops.count(), MESSAGES);
    }
}

#[test]
fn an_outcome_that_nobody_reads_is_dropped_once(rt: HostRuntime) {
    let drops = Drops::new(rt.alloc()).expect(&rt, "memory for a counter");
    let (wait, mut settle) = cell(&rt);
    let item = drops.message().expect(&rt, "a message");
    holds(&rt, settle.settle(item).is_none());
    drop(settle);
    equal(&rt, drops.count(), 0);
    drop(wait);
    equal(&rt, drops.count(), 1);
}
