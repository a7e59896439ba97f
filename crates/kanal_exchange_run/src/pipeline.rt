//! Counts lines and words of standard input in a pipeline of four threads, of which the third is slow.
//!
//! A bounded channel before a slow stage is full, and a send waits. How many counts waited at most goes to standard
//! error, since no two runs agree on it.
mod slow;
mod words;

use crate::calls::map_by_two;
use anyhow::Result;
use slow::{Backlog, Slow};
use std::alloc::AllocGlobal;
use std::io::{BufRead, BufReader, Input};
use std::sync::Wait;
use std::thread::Threads;
use std::time::Clock;
use words::Words;

/// How many lines or counts each channel has places for.
const PLACES: usize = 2;

/// Prints how many words are in how many lines.
pub fn count_words<R>(rt: &R) -> Result<()>
where
    R: Threads + Wait + AllocGlobal + Clock + Input + Print + Eprint + Sync,
{
    let mut lines = Vec::new(rt.alloc());
    let input = BufReader::new(rt.alloc(), rt.reader())?;
    for line in input.lines(rt.alloc()) {
        lines.push(line?)?;
    }
    let waiting = Backlog::new();
    let counting = Words { waiting: &waiting };
    let slow = Slow {
        rt,
        waiting: &waiting,
    };
    let counts = map_by_two(rt, rt.alloc(), &counting, &slow, Some(PLACES), lines)?;
    let mut words: u64 = 0;
    for count in counts.iter() {
        words = words.wrapping_add(*count);
    }
    eprintln!(rt;
        "at most {} counts waited, with {PLACES} places",
        waiting.most()
    )?;
    println!(rt; "{words} words in {} lines", counts.len())?;
    Ok(())
}
