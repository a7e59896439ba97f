//! A settle wakes the parked thread and the waiting task, once.
ghost use Rattle.std.specs.Prelude.{◌≡◌};
ghost use Rattle.kanal_cell.specs.CellRule.{HasNotLeft, HasNotSettled};
ghost use Rattle.kanal_cell.specs.CellEnds.{wait_view, settle_view};

use crate::tests::given::{
    PASSED, cell, counter, equal, goes_on, holds, new_parker, shared, unparker_of,
};
use crossbeam_utils::sync::Unparker;
use futures::Future;
use futures::executor::block_on;
use futures::spin::lock;
use futures::task::{Context, Poll, Source, Waker};
use futures::test::MockTask;
use kanal_cell::signal::{SettleEnd, WaitEnd};
use std::alloc::AllocGlobal;
use std::process::Abort;
use std::sync::atomic::{AtomicU64, Ordering};
use std::sync::{Arc, Mutex, Wait};
use std::thread;
use std::thread::Threads;
use std::time::Duration;

/// Settles, and sees the thread that waits go on.
fn settle_and_see(entry: SettleEntry, stage: &AtomicU64, waking: &Unparker) -> bool {
    let SettleEntry { mut end } = entry;
    let back = end.settle(7);
    drop(end);
    goes_on(stage, waking) && back.is_none()
}

/// A settle in another thread wakes this one, should it park before.
#[test]
fn a_settle_wakes_the_parked_thread(rt: HostRuntime) {
    for _ in 0..200u32 {
        let parker = new_parker(&rt);
        let (sleeper, waking) = (unparker_of(&rt, &parker), unparker_of(&rt, &parker));
        let (mut wait, settle) = cell::<u64>(&rt);
        let entry = SettleEntry { end: settle };
        let stage = counter(&rt);
        let theirs = shared(&rt, &stage);
        let other = thread::spawn(&rt, move || settle_and_see(entry, &theirs, &waking));
        let other = other.expect(&rt, "a thread");
        let mut got = wait.sleep(sleeper);
        if got.is_none() {
            parker.park(&rt);
            got = wait.poll();
        }
        stage.store(PASSED, Ordering::SeqCst);
        equal(&rt, got, Some(7));
        holds(&rt, other.join(&rt));
    }
}

/// How often the settling thread looks whether the one that it woke goes on.
const TURNS: u32 = 100_000_000;

/// Settles, and sees the thread that sleeps on the word go on.
fn settle_the_sleeper(entry: SettleEntry, stage: &AtomicU64) -> bool {
    let SettleEntry { mut end } = entry;
    let back = end.settle(7);
    drop(end);
    for _ in 0..TURNS {
        if stage.load(Ordering::SeqCst) == PASSED {
            return back.is_none();
        }
        thread::yield_now();
    }
    false
}

/// How long a thread that nobody wakes sleeps before the test fails, in seconds.
const LIMIT: u64 = 600;

/// How often a thread parks, since it may be woken for no reason. Once the cell is settled a park returns
/// at once.
const PARKS_IN_A_ROW: u32 = 100;

/// A settle in another thread wakes this one, should it sleep on the word before.
fn wake_from_the_word<R: Threads + Wait + Abort + AllocGlobal>(rt: &R) {
    let (mut wait, settle) = cell::<u64>(rt);
    let entry = SettleEntry { end: settle };
    let stage = counter(rt);
    let theirs = shared(rt, &stage);
    let other = thread::spawn(rt, move || settle_the_sleeper(entry, &theirs));
    let other = other.expect(rt, "a thread");
    let mut got = wait.sleep_here();
    if got.is_none() {
        for _ in 0..PARKS_IN_A_ROW {
            wait.park_timeout(rt, Duration::from_secs(LIMIT));
        }
        got = wait.poll();
    }
    stage.store(PASSED, Ordering::SeqCst);
    equal(rt, got, Some(7));
    holds(rt, other.join(rt));
}

#[test]
fn a_settle_wakes_the_thread_that_sleeps_on_the_word(rt: HostRuntime) {
    for _ in 0..200u32 {
        wake_from_the_word(&rt);
    }
}

/// The thread that may park is about to.
const PARKS: u64 = 1;

/// Sees the thread about to park, gives it many turns in which it must not go on, and then wakes it.
fn stays_parked(stage: &AtomicU64, waking: &Unparker) -> bool {
    for _ in 0..1_000_000u32 {
        if stage.load(Ordering::SeqCst) != 0 {
            break;
        }
        thread::yield_now();
    }
    let mut stayed = true;
    for _ in 0..1_000u32 {
        stayed = stayed && stage.load(Ordering::SeqCst) != PASSED;
        thread::yield_now();
    }
    waking.unpark();
    stayed
}

/// A sleep that comes after the settle has the outcome at once, and its sleeper is not woken: a park
/// after it lasts until somebody else ends it.
#[test]
fn a_sleep_after_the_settle_is_not_woken(rt: HostRuntime) {
    let parker = new_parker(&rt);
    let (mut wait, mut settle) = cell::<u64>(&rt);
    equal(&rt, settle.settle(5), None);
    equal(&rt, wait.sleep(unparker_of(&rt, &parker)), Some(5));
    let stage = counter(&rt);
    let (theirs, waking) = (shared(&rt, &stage), unparker_of(&rt, &parker));
    let other = thread::spawn(&rt, move || stays_parked(&theirs, &waking));
    let other = other.expect(&rt, "a thread");
    stage.store(PARKS, Ordering::SeqCst);
    parker.park(&rt);
    stage.store(PASSED, Ordering::SeqCst);
    holds(&rt, other.join(&rt));
}

/// What wakes the task.
fn waker_of(rt: &impl Abort, task: &MockTask) -> Waker {
    let source = Source::new();
    let mut slot = None;
    task.enter(|cx| {
        let _: Poll<()> = cx.register(&source, &mut slot);
    });
    slot.expect(rt, "a waker")
}

/// A cell that kept the waker of the first task and then that of the second: its settle wakes the second
/// alone.
#[test]
fn a_settle_wakes_the_kept_waker_once(rt: HostRuntime) {
    let first = MockTask::new(&rt).expect(&rt, "a task");
    let second = MockTask::new(&rt).expect(&rt, "a task");
    let (wait, mut settle) = cell::<u64>(&rt);
    holds(&rt, settle.set_waker(waker_of(&rt, &first)).is_none());
    let displaced = settle.set_waker(waker_of(&rt, &second));
    holds(&rt, displaced.is_some());
    equal(&rt, (first.is_woken(), second.is_woken()), (false, false));
    equal(&rt, settle.settle(7), None);
    equal(&rt, (first.is_woken(), second.is_woken()), (false, true));
    // Another poll begins, and nothing wakes it: the settle kept no waker.
    second.enter(|_| ());
    drop(settle);
    drop(wait);
    holds(&rt, !second.is_woken());
}

/// A waiter left before the settle, which wakes the task all the same.
#[test]
fn a_settle_wakes_the_task_of_a_waiter_that_left(rt: HostRuntime) {
    let task = MockTask::new(&rt).expect(&rt, "a task");
    let (mut wait, mut settle) = cell::<u64>(&rt);
    holds(&rt, settle.set_waker(waker_of(&rt, &task)).is_none());
    equal(&rt, wait.leave(), None);
    holds(&rt, !task.is_woken());
    equal(&rt, settle.settle(7), Some(7));
    holds(&rt, task.is_woken());
}

#[derive(Drop)]
struct SettleEntry {
    end: SettleEnd<u64>,
    ghost unspent: { HasNotSettled (settle_view end) },
}

#[derive(Drop)]
struct SourceLine {
    source: Source,
    entry: Mutex<Option<SettleEntry>>,
}

/// A task that waits at a cell, whose other end lies under a lock until it is taken out.
#[derive(Drop)]
struct Receive {
    line: Arc<SourceLine>,
    spare: Option<Waker>,
    end: WaitEnd<u64>,
    ghost unspent: { HasNotLeft (wait_view end) },
}

impl Future for Receive {
    type Output = u64;

    ghost use Rattle.std.specs.Arc.{arc_value};

    ghost needs = { λ r s. s ≡ (arc_value r.line).source.id };

    fn poll(&mut self, cx: &mut Context<'_>) -> Poll<u64> {
        if let Some(x) = self.end.poll() {
            return Poll::Ready(x);
        }
        let polled = cx.register(&self.line.source, &mut self.spare);
        let Some(mut guard) = lock(&self.line.entry) else {
            return cx.yield_now();
        };
        let Some(entry) = &mut *guard else {
            return cx.yield_now();
        };
        if let Some(waker) = self.spare.take() {
            self.spare = entry.end.set_waker(waker);
        }
        polled
    }
}

fn settle_later(line: &SourceLine, x: u64) -> bool {
    let taken = match lock(&line.entry) {
        Some(mut guard) => (*guard).take(),
        None => None,
    };
    match taken {
        Some(entry) => {
            let SettleEntry { mut end } = entry;
            end.settle(x).is_none()
        }
        None => false,
    }
}

/// A settle in another thread wakes the task that waits for its outcome.
#[test]
fn a_settle_wakes_the_task(rt: HostRuntime) {
    for outcome in 0..100u64 {
        let (wait, settle) = cell(&rt);
        let line = SourceLine {
            source: Source::new(),
            entry: Mutex::new(Some(SettleEntry { end: settle })),
        };
        let line = Arc::new(rt.alloc(), line).expect(&rt, "memory for a line");
        let theirs = Arc::try_clone(&line).expect(&rt, "a count of the line");
        let other = thread::spawn(&rt, move || settle_later(&theirs, outcome));
        let other = other.expect(&rt, "a thread");
        let receive = Receive {
            line,
            spare: None,
            end: wait,
        };
        equal(&rt, block_on(&rt, receive).expect(&rt, "a task"), outcome);
        holds(&rt, other.join(&rt));
    }
}
