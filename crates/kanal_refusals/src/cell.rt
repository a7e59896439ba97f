//! Every step of a cell, once it is made.
use crate::driver::{Run, Score, holds};
use crossbeam_utils::sync::Parker;
use futures::task::{Poll, Source, Waker};
use futures::test::MockTask;
use kanal_cell::signal;
use std::alloc::{AllocGlobal, Global};
use std::random::RandomSource;

/// Makes the steps of each cell.
pub fn call_all<R: RandomSource + AllocGlobal>(rt: &R, alloc: Global, tally: Score) -> Option<()> {
    let makes_calls = tally.run != Run::Setup;
    settled_or_left(alloc, makes_calls)?;
    slept(alloc, makes_calls)?;
    wakers(rt, alloc, makes_calls)
}

/// A settle that is looked for before and after it, and a leave before a settle, which has its outcome back.
fn settled_or_left(alloc: Global, makes_calls: bool) -> Option<()> {
    let (mut wait, mut settle) = signal::new::<u64>(alloc).ok()?;
    let (mut leaving, mut late) = signal::new::<u64>(alloc).ok()?;
    if !makes_calls {
        return Some(());
    }
    holds(wait.poll().is_none() && !settle.is_left())?;
    holds(settle.settle(5).is_none() && wait.poll() == Some(5) && wait.poll().is_none())?;
    holds(leaving.leave().is_none() && late.is_left() && late.settle(5) == Some(5))
}

/// A settle that wakes a sleeper.
fn slept(alloc: Global, makes_calls: bool) -> Option<()> {
    let parker = Parker::new(alloc).ok()?;
    let sleeper = parker.unparker().clone().ok()?;
    let (mut wait, mut settle) = signal::new::<u64>(alloc).ok()?;
    if !makes_calls {
        return Some(());
    }
    holds(wait.sleep(sleeper).is_none() && settle.settle(5).is_none() && wait.poll() == Some(5))
}

/// What the task registers.
fn waker_of(task: &MockTask) -> Option<Waker> {
    let source = Source::new();
    let mut slot = None;
    task.enter(|cx| {
        let _: Poll<()> = cx.register(&source, &mut slot);
    });
    slot
}

/// A settling end that keeps a waker, and then another in its place.
fn wakers<R: RandomSource + AllocGlobal>(rt: &R, alloc: Global, makes_calls: bool) -> Option<()> {
    let task = MockTask::new(rt).ok()?;
    let (first, second) = (waker_of(&task)?, waker_of(&task)?);
    let (_wait, mut settle) = signal::new::<u64>(alloc).ok()?;
    if !makes_calls {
        return Some(());
    }
    holds(settle.set_waker(first).is_none() && settle.set_waker(second).is_some())
}
