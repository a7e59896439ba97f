//! One caller of each crate that has a page for callers, with a contract of its own where one can be had.
ghost use Rattle.std.specs.Prelude.{◌≡◌, ◌≢◌, ◌*◌, ℕ, Ok, Some, None, true, IfOk, IfSome};
ghost use Rattle.kanal_pool.specs.Equality.{equal_fields};
ghost use Rattle.kanal_journal.specs.Paired.{Paired, until};
ghost use Rattle.kanal_pool.specs.Answers.{answers};
ghost use Rattle.kanal_recorded.specs.Merges.{journal_history};

use kanal::Sender;
use kanal::error::SendError;
use kanal_cell::signal;
use kanal_core::error::NewError;
use kanal_core::internal::{ChannelInternal, Offer, Take};
use kanal_journal::journal::Journal;
use kanal_pool::{Job, NoGate, NoMemory, PoolError, map_jobs};
use kanal_recorded::{Pass, Recorded};
use std::alloc::Global;
use std::sync::Wait;
use std::thread::Threads;

/// Sends one word if there is a place, and answers what is left of it.
pub fn offer<R: Wait>(
    rt: &R,
    sender: &Sender<u64>,
    word: u64,
) -> (Result<bool, SendError>, Option<u64>)
    ensures sent { result.0 ≡ Ok true → result.1 ≡ None }
    ensures kept { result.0 ≢ Ok true → result.1 ≡ Some word }
{
    let mut option = Some(word);
    let answer = sender.try_send_option(rt, &mut option);
    (answer, option)
}

/// Puts two messages into a core of two places, and takes one: it is the first, and one is left.
pub fn first_of_two(
    alloc: Global,
    first: u64,
    second: u64,
) -> Result<(Option<u64>, usize), NewError>
    ensures { IfOk result (λ answer. answer ≡ (Some first, 1)) }
{
    let mut core = ChannelInternal::<u64, u8>::new(alloc, 2)?;
    let Offer::Entered = core.offer(first) else {
        return Ok((None, 0));
    };
    let Offer::Entered = core.offer(second) else {
        return Ok((None, 0));
    };
    match core.take() {
        Take::Got(front, _settled) => Ok((Some(front), core.len())),
        _ => Ok((None, 0)),
    }
}

/// Hands a number over by a cell, on one thread.
pub fn handed(alloc: Global, number: u64) -> Option<u64> {
    let (mut wait, mut settle) = signal::new::<u64>(alloc).ok()?;
    let _back = settle.settle(number);
    wait.poll()
}

/// One message from one party to another, and the journal of it.
pub fn one_message<R: Wait>(rt: &R, alloc: Global) -> Option<Journal<u64>>
    ensures paired { IfSome result (λ j. (n : ℕ) → Paired (until n (journal_history j))) }
{
    let channel: Recorded<u64> = Recorded::new(alloc, Some(1)).ok()?;
    let (mut a, mut b) = (channel.pass(rt).ok()?, channel.pass(rt).ok()?);
    let _sent = a.try_send(rt, &channel, 7);
    let _got = b.try_recv(rt, &channel);
    let mut passes: Vec<Pass<u64>> = Vec::with_capacity(alloc, 2).ok()?;
    passes.push(a).ok()?;
    passes.push(b).ok()?;
    let Ok(journal) = channel.finish(passes) else {
        return None;
    };
    Some(journal)
}

/// A number to square.
#[derive(Clone, Copy, Debug, PartialEq, Eq)]
pub struct SquareJob(pub u32);

impl Job for SquareJob {
    type Answer = u64;

    ghost value = { λ square. square.0 * square.0 };

    fn work(&self) -> Result<u64, NoMemory> {
        Ok(u64::from(self.0) * u64::from(self.0))
    }

    ghost equal_values = { Prim.search equal_fields };
}

/// The values of all jobs, by two workers.
pub fn by_two<J, R>(rt: &R, alloc: Global, jobs: &[J]) -> Result<Vec<J::Answer>, PoolError>
where
    J: Job + Sync,
    J::Answer: Send,
    R: Threads + Wait + Sync,
    ensures { IfOk result (λ found. found.items ≡ answers J.value jobs.now) }
{
    map_jobs(rt, alloc, jobs, 2, &NoGate)
}
