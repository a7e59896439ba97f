//! Each exchange of a few messages, in which any request for memory may be refused.
//!
//! `scripts/refuse-memory` refuses one request after another.
use crate::calls::{exchange, exchange_from_task, exchange_to_task, gather, map_by, map_by_two};
use crate::refusals::counted;
use anyhow::{Result, bail};
use kanal_exchange::{ExchangeError, NewError, ReceiveError, SendError, Stage};
use kanal_given::{Counted, Drops};
use std::alloc::{AllocGlobal, Global};
use std::random::RandomSource;
use std::sync::Wait;
use std::thread::Threads;

/// How many messages each sender has.
const FEW: u64 = 12;

/// Hands on each message as it is.
struct AsItIs;

impl Stage for AsItIs {
    type Input = Counted;

    type Output = Counted;

    ghost value = { λ _ message. message };

    fn apply(&self, message: Counted) -> Option<Counted> {
        Some(message)
    }
}

/// Whether the error tells of a want of memory, which a task and a thread need, too.
fn is_for_memory(error: ExchangeError) -> bool {
    matches!(
        error,
        ExchangeError::New(NewError::NoMemory)
            | ExchangeError::Send(SendError::NoMemory)
            | ExchangeError::Receive(ReceiveError::NoMemory)
            | ExchangeError::NoMemory
            | ExchangeError::Task
            | ExchangeError::NoThread
    )
}

/// Prints what was refused, and answers how many exchanges were: one or none. Each message is dropped once.
fn tell<R: Print>(
    rt: &R,
    name: &str,
    drops: &Drops,
    messages: u64,
    answer: std::result::Result<Vec<Counted>, ExchangeError>,
) -> Result<u64> {
    let refused = answer.err();
    let dropped = drops.count();
    if dropped != messages {
        bail!("{name}: {dropped} of {messages} dropped");
    }
    let Some(error) = refused else {
        return Ok(0);
    };
    if !is_for_memory(error) {
        bail!("{name}: {error}");
    }
    println!(rt; "{name}: {error}, {dropped} of {messages} dropped")?;
    Ok(1)
}

/// How many of the exchanges of one list were refused.
fn lists<R>(rt: &R, alloc: Global, capacity: Option<usize>) -> Result<u64>
where
    R: Threads + Wait + RandomSource + AllocGlobal + Print + Sync,
{
    let drops = Drops::new(alloc)?;
    let answer = exchange(rt, alloc, capacity, counted(alloc, &drops, FEW)?);
    let plain = tell(rt, "exchanged", &drops, FEW, answer)?;
    let drops = Drops::new(alloc)?;
    let answer = exchange_to_task(rt, alloc, capacity, counted(alloc, &drops, FEW)?);
    let to_task = tell(rt, "to a task", &drops, FEW, answer)?;
    let drops = Drops::new(alloc)?;
    let answer = exchange_from_task(rt, alloc, capacity, counted(alloc, &drops, FEW)?);
    let from_task = tell(rt, "from a task", &drops, FEW, answer)?;
    Ok(plain.wrapping_add(to_task).wrapping_add(from_task))
}

/// How many of the exchanges with more than two threads were refused.
fn pipelines<R>(rt: &R, alloc: Global, capacity: Option<usize>) -> Result<u64>
where
    R: Threads + Wait + Print + Sync,
{
    let drops = Drops::new(alloc)?;
    let (first, second) = (counted(alloc, &drops, FEW)?, counted(alloc, &drops, FEW)?);
    let answer = gather(rt, alloc, capacity, first, second);
    let merge = tell(rt, "gathered", &drops, FEW.wrapping_mul(2), answer)?;
    let drops = Drops::new(alloc)?;
    let answer = map_by(rt, alloc, &AsItIs, capacity, counted(alloc, &drops, FEW)?);
    let one = tell(rt, "mapped", &drops, FEW, answer)?;
    let drops = Drops::new(alloc)?;
    let answer = map_by_two(
        rt,
        alloc,
        &AsItIs,
        &AsItIs,
        capacity,
        counted(alloc, &drops, FEW)?,
    );
    let two = tell(rt, "mapped by two", &drops, FEW, answer)?;
    Ok(merge.wrapping_add(one).wrapping_add(two))
}

/// Makes each exchange, at two places and without limit, and prints how many were refused.
pub fn exchange_few<R>(rt: &R) -> Result<()>
where
    R: Threads + Wait + RandomSource + AllocGlobal + Print + Sync,
{
    let mut refused: u64 = 0;
    for capacity in [Some(2), None] {
        refused = refused.wrapping_add(lists(rt, rt.alloc(), capacity)?);
        refused = refused.wrapping_add(pipelines(rt, rt.alloc(), capacity)?);
    }
    println!(rt; "refused calls: {refused}")?;
    Ok(())
}
