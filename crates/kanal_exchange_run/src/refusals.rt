//! What an exchange tells that is refused, and what becomes of its messages.
use crate::calls::{exchange, map_by};
use anyhow::{Result, bail};
use kanal_exchange::{ExchangeError, Stage};
use kanal_given::{Counted, Drops};
use std::alloc::Global;
use std::sync::Wait;
use std::thread::Threads;

/// How many messages a refused exchange has.
pub const REFUSED: u64 = 100;

/// Refuses each message.
pub struct Refusing;

impl Stage for Refusing {
    type Input = Counted;

    type Output = Counted;

    ghost value = { λ _ message. message };

    fn apply(&self, message: Counted) -> Option<Counted> {
        drop(message);
        None
    }
}

/// So many messages that are counted when they are dropped.
pub fn counted(alloc: Global, drops: &Drops, count: u64) -> Result<Vec<Counted>> {
    let mut messages = Vec::new(alloc);
    for _ in 0..count {
        messages.push(drops.message()?)?;
    }
    Ok(messages)
}

/// What a pipeline tells whose stage refuses each message, and how many of the messages were dropped.
pub fn refused_by_a_stage<R>(
    rt: &R,
    alloc: Global,
    capacity: Option<usize>,
) -> Result<(ExchangeError, u64)>
where
    R: Threads + Wait + Sync,
{
    let drops = Drops::new(alloc)?;
    let messages = counted(alloc, &drops, REFUSED)?;
    match map_by(rt, alloc, &Refusing, capacity, messages) {
        Ok(_made) => bail!("nothing was refused"),
        Err(error) => Ok((error, drops.count())),
    }
}

/// What an exchange tells whose channel can't be made, and how many of the messages were dropped.
pub fn refused_a_channel<R>(rt: &R, alloc: Global) -> Result<(ExchangeError, u64)>
where
    R: Threads + Wait + Sync,
{
    let drops = Drops::new(alloc)?;
    let messages = counted(alloc, &drops, REFUSED)?;
    match exchange(rt, alloc, Some(usize::MAX), messages) {
        Ok(_got) => bail!("nothing was refused"),
        Err(error) => Ok((error, drops.count())),
    }
}
