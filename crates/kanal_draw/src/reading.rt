//! Cuts the party's number off each line of a history, and hands on the rest to `kanal_script`; no other module cuts input.
use crate::fault::Failure;
use kanal_journal::journal::Event;
use kanal_script::parser::{number, parse};
use std::alloc::Global;
use std::str;

/// The numbers of parties are below this one.
const PARTIES: u64 = 32;

const NO_PARTY: &str = "no party below 32 with a space behind it";

/// A call as it was written: who made it, and the words of its event.
#[derive(Clone, Copy, Drop)]
pub struct CallLine<'a> {
    pub party: u32,
    pub words: &'a str,
}

/// A history as it was read: each call has its event at the same place.
#[derive(Drop)]
pub struct Reading<'a> {
    pub capacity: Option<usize>,
    pub calls: Vec<CallLine<'a>>,
    pub events: Vec<Event<u64>>,
}

/// The call that the line writes, if it begins with a party.
fn call_of(line: &str) -> Option<CallLine<'_>> {
    let (word, words) = line.split_once(' ')?;
    let party = number(word).filter(|party| *party < PARTIES)?;
    let party = u32::try_from(party).ok()?;
    Some(CallLine { party, words })
}

/// Puts each line's words at the script's end, and each call at the list's; answers why it stopped, if it did.
fn cut<'a>(
    bytes: &'a [u8],
    script: &mut String,
    calls: &mut Vec<CallLine<'a>>,
) -> Result<Option<Failure>, Failure> {
    for (place, line) in bytes.split(|byte| *byte == b'\n').enumerate() {
        let number = place.saturating_add(1);
        let Ok(mut words) = str::from_utf8(line) else {
            return Ok(Some(Failure::Unreadable(number, "not UTF-8")));
        };
        if place > 0 {
            let Some(call) = call_of(words) else {
                return Ok(Some(Failure::Unreadable(number, NO_PARTY)));
            };
            words = call.words;
            calls.push(call)?;
        }
        script.push_str(words)?;
        script.push('\n')?;
    }
    Ok(None)
}

/// Reads a history from bytes.
///
/// Its first line must be a `cap` line, and each line after it a party, a space and an event. A last
/// line feed may be left out. The error tells which line can't be read and why, or that memory was
/// refused.
pub fn read<'a>(alloc: Global, bytes: &'a [u8]) -> Result<Reading<'a>, Failure> {
    let (mut script, mut calls) = (String::new(alloc), Vec::new(alloc));
    let lines = bytes.strip_suffix(b"\n").unwrap_or(bytes);
    let stopped = cut(lines, &mut script, &mut calls)?;
    let script = parse(alloc, script.as_bytes())?;
    match stopped {
        Some(fault) => Err(fault),
        None => Ok(Reading {
            capacity: script.capacity,
            calls,
            events: script.events,
        }),
    }
}
