//! The examples, each a module that reads by itself; each prints what it finds below its name.
//!
//! `kanal_examples NAME` runs one alone, `kanal_examples primes COUNT WORKERS` with other numbers.
#![tactic(auto)]

mod actor;
mod first_of;
mod jobs;
mod logs;
mod primes;
mod tasks;
mod tries;
mod two_threads;
mod uses;

use anyhow::{Result, bail};
use primes::Ranges;
use std::alloc::AllocGlobal;
use std::env;
use std::random::RandomSource;
use std::sync::Wait;
use std::thread::Threads;
use std::time::Clock;

/// The examples, in the order in which they run.
const NAMES: [&str; 9] = [
    "uses",
    "tries",
    "logs",
    "tasks",
    "actor",
    "first_of",
    "primes",
    "jobs",
    "two_threads",
];

/// Runs the example of this name, which counts primes in these ranges if it is `primes`.
fn show<R>(rt: R, name: &str, ranges: Ranges) -> Result<()>
where
    R: Threads + Wait + RandomSource + AllocGlobal + Clock + Print + Eprint,
    R: Copy + Send + Sync + 'static,
{
    match name {
        "uses" => uses::show(rt),
        "tries" => tries::show(rt),
        "logs" => logs::show(rt),
        "tasks" => tasks::show(rt),
        "actor" => actor::show(rt),
        "first_of" => first_of::show(rt),
        "primes" => primes::show(&rt, ranges),
        "jobs" => jobs::show(&rt),
        "two_threads" => two_threads::show(&rt),
        _ => bail!("no example has the name {name}"),
    }
}

fn main(rt: HostRuntime) -> Result<()> {
    let mut args = env::args(&rt)?;
    let _program = args.next();
    if let Some(name) = args.next() {
        let ranges = Ranges::read(args.next(), args.next())?;
        return show(rt, &name, ranges);
    }
    for name in NAMES {
        println!(rt; "{name}:")?;
        show(rt, name, Ranges::FEW)?;
    }
    Ok(())
}
