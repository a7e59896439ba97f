//! Calls in which any request for memory may be refused, and calls that take none.
//!
//! Each answers as with ample memory, or with a want of memory that left things as they were; then it is made again.
//! The status is 0 where that is so of each. `scripts/refuse-memory` runs it with one request after another refused;
//! `setup` makes what the calls need that take no memory, and `calls` makes it and then them.
#![tactic(auto)]

mod answer;
mod cell;
mod driver;
mod given;
mod handles;
mod held;
mod internal;
mod lists;
mod passes;
mod pool;

use driver::{Run, Score, holds};
use std::alloc::AllocGlobal;
use std::env;
use std::env::Env;
use std::process::ExitCode;
use std::random::RandomSource;
use std::sync::Wait;
use std::thread::Threads;
use std::time::Clock;

/// What the command's word asks for; None where it isn't known.
fn run_of<R: Env + AllocGlobal>(rt: &R) -> Option<Run> {
    let mut args = match env::args(rt) {
        Err(_refused) => env::args(rt).ok()?,
        Ok(args) => args,
    };
    let _program = args.next();
    match args.next() {
        None => Some(Run::Refusals),
        Some(word) if word.as_str() == "setup" => Some(Run::Setup),
        Some(word) if word.as_str() == "calls" => Some(Run::Calls),
        Some(_other) => None,
    }
}

/// Makes all calls; None where one answered otherwise.
fn call_all<R>(rt: &R, tally: &mut Score) -> Option<()>
where
    R: Threads + Wait + Clock + RandomSource + AllocGlobal + Copy + Send + Sync + 'static,
{
    let alloc = rt.alloc();
    internal::call_all(alloc, tally)?;
    handles::call_all(rt, alloc, tally)?;
    passes::call_all(rt, alloc, tally)?;
    if tally.run == Run::Refusals {
        handles::call_served(rt, alloc, tally)?;
        lists::run_all(alloc, tally)?;
        pool::works(rt, alloc, tally)?;
    }
    if call_what_takes_none(rt, *tally).is_some() {
        return Some(());
    }
    // What these calls need was refused.
    holds(tally.run == Run::Refusals)?;
    call_what_takes_none(rt, *tally)
}

/// Makes those of a cell, and a drop while the lock is held.
fn call_what_takes_none<R: Wait + RandomSource + AllocGlobal>(rt: &R, tally: Score) -> Option<()> {
    cell::call_all(rt, rt.alloc(), tally)?;
    held::leaves(rt, rt.alloc(), tally)
}

fn main(rt: HostRuntime) -> ExitCode {
    let Some(run) = run_of(&rt) else {
        return ExitCode::FAILURE;
    };
    let mut tally = Score { run, refused: 0 };
    let answered = call_all(&rt, &mut tally).is_some();
    if answered && println!(rt; "refused calls: {}", tally.refused).is_ok() {
        ExitCode::SUCCESS
    } else {
        ExitCode::FAILURE
    }
}
