//! The scenario of one thread on a channel with one history, beside that of the plain handles.
ghost use Rattle.std.specs.Prelude.{◌≡◌, Some, None};
ghost use Rattle.kanal_log.specs.Logs.{table_of};

use crate::capacity::Capacity;
use anyhow::Result;
use kanal_one_history::{Call, Channel, GhostPass, LogId, NewLog};
use std::alloc::Global;
use std::marker::Brand;
use std::sync::Wait;

/// Sends the numbers below the count, receives each at once, and answers their sum.
fn add_up<J: LogId, R: Wait>(
    rt: &R,
    channel: &Channel<u64, J>,
    pass: &mut GhostPass<u64, J>,
    count: u64,
) -> Result<u64> {
    let mut sum = 0u64;
    for number in 0..count {
        channel.send(rt, pass, number)?;
        sum = sum.wrapping_add(channel.recv(rt, pass)?);
    }
    Ok(sum)
}

/// Adds up by a new channel for so many messages.
fn bounded<J: LogId, R: Wait>(
    rt: &R,
    alloc: Global,
    capacity: usize,
    opened: NewLog<Call<u64>>,
    count: u64,
) -> Result<u64>
    requires name { table_of opened ≡ J.table }
    requires capacity { J.capacity ≡ Some capacity }
{
    let (channel, mut pass) = kanal_one_history::bounded::<u64, J>(alloc, capacity, opened)?;
    add_up(rt, &channel, &mut pass, count)
}

/// Adds up by a new channel without limit.
fn unbounded<J: LogId, R: Wait>(
    rt: &R,
    alloc: Global,
    opened: NewLog<Call<u64>>,
    count: u64,
) -> Result<u64>
    requires name { table_of opened ≡ J.table }
    requires capacity { J.capacity ≡ None }
{
    let (channel, mut pass) = kanal_one_history::unbounded::<u64, J>(alloc, opened);
    add_up(rt, &channel, &mut pass, count)
}

/// Sends and receives in turn, in this thread.
pub fn in_turn<R: Wait>(rt: &R, alloc: Global, capacity: Capacity, count: u64) -> Result<u64> {
    let opened = NewLog::new(alloc)?;
    match capacity {
        Capacity::Limited(places) => bounded::<Brand, _>(rt, alloc, places, opened, count),
        Capacity::Unlimited => unbounded::<Brand, _>(rt, alloc, opened, count),
    }
}
