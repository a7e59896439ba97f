//! Runs each exchange at the capacities 0 and 4 and without limit, prints what came out, and counts words.
//!
//! Of lists that are merged otherwise in each run it prints the number of messages. With the word `few` it prints
//! what was refused for want of memory, and how many messages were dropped.
#![tactic(auto)]

mod calls;
mod memory;
mod pipeline;
mod refusals;
mod stages;

use anyhow::{Result, bail};
use calls::{exchange, exchange_from_task, exchange_to_task, gather, map_by, map_by_two};
use memory::exchange_few;
use refusals::{REFUSED, refused_a_channel, refused_by_a_stage};
use stages::{Doubled, Shown};
use std::alloc::{AllocGlobal, Global};
use std::env;
use std::random::RandomSource;
use std::sync::Wait;
use std::thread::Threads;

/// How many messages are exchanged.
const MESSAGES: u64 = 10_000;

/// How many the second sender has, where two send.
const SECOND: u64 = 5_000;

/// The numbers from 0 on, so many.
fn numbers(alloc: Global, count: u64) -> Result<Vec<u64>> {
    let mut numbers = Vec::new(alloc);
    for number in 0..count {
        numbers.push(number)?;
    }
    Ok(numbers)
}

/// The last element.
fn last_of<T: Copy>(list: &[T]) -> Result<T> {
    match list.last() {
        Some(last) => Ok(*last),
        None => bail!("nothing came out"),
    }
}

/// Prints what came out of the exchanges of a list.
fn print_exchanged<R>(rt: &R, place: &str, capacity: Option<usize>) -> Result<()>
where
    R: Threads + Wait + RandomSource + AllocGlobal + Print + Sync,
{
    let alloc = rt.alloc();
    let got = exchange(rt, alloc, capacity, numbers(alloc, MESSAGES)?)?;
    let last = last_of(&got)?;
    println!(rt; "{place}: exchanged {}, the last {last}", got.len())?;
    let got = exchange_to_task(rt, alloc, capacity, numbers(alloc, MESSAGES)?)?;
    let last = last_of(&got)?;
    println!(rt; "{place}: to a task {}, the last {last}", got.len())?;
    let got = exchange_from_task(rt, alloc, capacity, numbers(alloc, MESSAGES)?)?;
    let last = last_of(&got)?;
    println!(rt; "{place}: from a task {}, the last {last}", got.len())?;
    let (first, second) = (numbers(alloc, MESSAGES)?, numbers(alloc, SECOND)?);
    let got = gather(rt, alloc, capacity, first, second)?;
    println!(rt; "{place}: gathered {}", got.len())?;
    Ok(())
}

/// Prints what the stages made of a list.
fn print_mapped<R>(rt: &R, place: &str, capacity: Option<usize>) -> Result<()>
where
    R: Threads + Wait + AllocGlobal + Print + Sync,
{
    let alloc = rt.alloc();
    let shown = map_by(rt, alloc, &Shown, capacity, numbers(alloc, MESSAGES)?)?;
    let last = last_of(&shown)?;
    println!(rt; "{place}: mapped {}, the last {last}", shown.len())?;
    let messages = numbers(alloc, MESSAGES)?;
    let shown = map_by_two(rt, alloc, &Doubled, &Shown, capacity, messages)?;
    let last = last_of(&shown)?;
    println!(rt; "{place}: mapped by two {}, the last {last}", shown.len())?;
    let (error, dropped) = refused_by_a_stage(rt, alloc, capacity)?;
    println!(rt; "{place}: {error}, {dropped} of {REFUSED} dropped")?;
    Ok(())
}

/// Runs each exchange of many messages.
fn exchange_many<R>(rt: &R) -> Result<()>
where
    R: Threads + Wait + RandomSource + AllocGlobal + Print + Sync,
{
    for (place, capacity) in [
        ("at 0", Some(0)),
        ("at 4", Some(4)),
        ("without limit", None),
    ] {
        print_exchanged(rt, place, capacity)?;
        print_mapped(rt, place, capacity)?;
    }
    let (error, dropped) = refused_a_channel(rt, rt.alloc())?;
    println!(rt; "at the largest: {error}, {dropped} of {REFUSED} dropped")?;
    Ok(())
}

fn main(rt: HostRuntime) -> Result<()> {
    let mut args = env::args(&rt)?;
    let _program = args.next();
    match args.next() {
        None => {
            exchange_many(&rt)?;
            pipeline::count_words(&rt)
        },
        Some(_few) => exchange_few(&rt),
    }
}
