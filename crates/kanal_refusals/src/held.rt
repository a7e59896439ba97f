//! What is left while the lock is held: a future that waits and is dropped then.
use crate::driver::{Run, Score, holds};
use futures::task::Poll;
use futures::test::MockTask;
use kanal_channel::Shared;
use kanal_core::internal::ChannelInternal;
use kanal_futures::send_future;
use kanal_state::NoHistory;
use std::alloc::{AllocGlobal, Global};
use std::random::RandomSource;
use std::sync::Wait;

/// A send that waits, and is taken out by notice.
pub fn leaves<R: Wait + RandomSource + AllocGlobal>(
    rt: &R,
    alloc: Global,
    tally: Score,
) -> Option<()> {
    let task = MockTask::new(rt).ok()?;
    let core = ChannelInternal::new(alloc, 0).ok()?;
    let shared = Shared::new(core, NoHistory, (), (), alloc);
    leaves_by_notice(rt, &task, &shared, tally)
}

/// The send waits, and with the calls it is dropped while the lock is held; a receive finds nothing.
fn leaves_by_notice<R: Wait>(
    rt: &R,
    task: &MockTask,
    shared: &Shared<u64, NoHistory>,
    tally: Score,
) -> Option<()> {
    let mut sending = send_future(shared, 3);
    holds(task.poll(&mut sending) == Poll::Pending)?;
    if tally.run == Run::Setup {
        return Some(());
    }
    let locked = shared.lock(rt);
    drop(sending);
    let left = shared.left_waits();
    locked.unlock_and_drain();
    holds(left == 1 && shared.left_waits() == 0 && shared.try_recv(rt, &mut ()) == Ok(None))
}
