//! The table of steps on the plain cell, and its rows on a running cell.
use crate::tests::given::{cell, equal, holds, new_parker, park_woken, unparker_of};
use kanal_cell::signal::CellReply::{Flag, Left, Outcome, Pending, Settled, Slept, Spent};
use kanal_cell::signal::CellStep::{IsLeft, Leave, Poll, Settle, Sleep};
use kanal_cell::signal::{CellReply, CellStep, Owner, cell_run};
use std::time::Duration;

const QUIET: CellReply = Settled {
    woke: false,
    back: None,
};

const WOKE: CellReply = Settled {
    woke: true,
    back: None,
};

const BACK: CellReply = Settled {
    woke: false,
    back: Some(5),
};

const WOKE_AND_BACK: CellReply = Settled {
    woke: true,
    back: Some(5),
};

/// Steps with their replies, the word after them, and the owner of the outcome.
const ROWS: &[(&[CellStep], &[CellReply], u8, Owner)] = &[
    (&[], &[], 0, Owner::Nowhere),
    (
        &[Sleep, Settle(5), Poll],
        &[Slept, WOKE, Outcome(5)],
        3,
        Owner::Waiter,
    ),
    (&[Settle(5), Sleep], &[QUIET, Outcome(5)], 3, Owner::Waiter),
    (&[Leave, Settle(5)], &[Left(None), BACK], 6, Owner::Settler),
    (
        &[Settle(5), Leave],
        &[QUIET, Left(Some(5))],
        6,
        Owner::Waiter,
    ),
    (
        &[Settle(5), Poll, Poll, Leave],
        &[QUIET, Outcome(5), Pending, Left(None)],
        6,
        Owner::Waiter,
    ),
    (
        &[Sleep, Leave, Settle(5)],
        &[Slept, Left(None), WOKE_AND_BACK],
        7,
        Owner::Settler,
    ),
    (
        &[Settle(5), Settle(6), IsLeft],
        &[QUIET, Spent, Spent],
        2,
        Owner::Home,
    ),
    (
        &[Poll, IsLeft, Leave, IsLeft, Poll],
        &[Pending, Flag(false), Left(None), Flag(true), Spent],
        4,
        Owner::Nowhere,
    ),
];

#[test]
fn the_table_of_steps(rt: HostRuntime) {
    for (steps, replies, word, owner) in ROWS {
        let report = cell_run(rt.alloc(), steps).expect(&rt, "a report");
        let answer = (report.replies.as_slice(), report.word, report.owner);
        equal(&rt, answer, (*replies, *word, *owner));
    }
}

/// A settle wakes the thread that sleeps, also where the waiter has left since.
#[test]
fn a_sleep_then_a_settle(rt: HostRuntime) {
    let parker = new_parker(&rt);
    let (mut wait, mut settle) = cell::<u64>(&rt);
    equal(&rt, wait.sleep(unparker_of(&rt, &parker)), None);
    equal(&rt, settle.settle(5), None);
    equal(&rt, [wait.poll(), wait.poll()], [Some(5), None]);
    park_woken(&rt, &parker);
    let (mut wait, mut settle) = cell::<u64>(&rt);
    equal(&rt, wait.sleep(unparker_of(&rt, &parker)), None);
    equal(&rt, wait.leave(), None);
    equal(&rt, settle.settle(5), Some(5));
    park_woken(&rt, &parker);
}

#[test]
fn sleeps_on_the_word(rt: HostRuntime) {
    let (mut wait, mut settle) = cell::<u64>(&rt);
    equal(&rt, wait.sleep_here(), None);
    wait.park_timeout(&rt, Duration::from_millis(1));
    equal(&rt, (wait.poll(), wait.is_settled()), (None, false));
    equal(&rt, settle.settle(5), None);
    wait.park(&rt);
    equal(&rt, [wait.poll(), wait.poll()], [Some(5), None]);
    let (mut wait, mut settle) = cell::<u64>(&rt);
    equal(&rt, settle.settle(6), None);
    holds(&rt, wait.is_settled());
    equal(&rt, wait.sleep_here(), Some(6));
    wait.park(&rt);
    equal(&rt, wait.leave(), None);
}

#[test]
fn leaves(rt: HostRuntime) {
    let (mut wait, mut settle) = cell::<u64>(&rt);
    holds(&rt, !settle.is_left());
    equal(&rt, wait.leave(), None);
    holds(&rt, settle.is_left());
    equal(&rt, settle.settle(5), Some(5));
    let (mut wait, mut settle) = cell::<u64>(&rt);
    equal(&rt, wait.poll(), None);
    equal(&rt, settle.settle(6), None);
    equal(&rt, wait.leave(), Some(6));
}
