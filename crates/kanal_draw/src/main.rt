//! Draws the calls of several parties on one channel, read from standard input, as an SVG picture.
#![tactic(auto)]

mod fault;
mod history;
mod reading;
mod svg;
#[cfg(test)]
mod undrawn;
mod ways;

use fault::Failure;
use history::DrawnHistory;
use std::alloc::Global;
use std::io::{Read, Write};
use std::process::ExitCode;

/// Reads a history from bytes, and draws it.
///
/// The error tells which line can't be read and why, or that memory was refused.
fn draw(alloc: Global, bytes: &[u8]) -> Result<String, Failure> {
    let history = DrawnHistory::of(alloc, reading::read(alloc, bytes)?)?;
    Ok(svg::draw(alloc, &history)?)
}

/// Reads a history and draws it.
fn run(rt: &HostRuntime) -> Result<(), Failure> {
    let mut bytes = Vec::new(rt.alloc());
    if rt.stdin().read_to_end(&mut bytes).is_err() {
        return Err(Failure::Device);
    }
    let drawn = draw(rt.alloc(), &bytes)?;
    let mut output = rt.stdout();
    if output.write_all(drawn.as_bytes()).is_err() || output.flush().is_err() {
        return Err(Failure::Device);
    }
    Ok(())
}

fn main(rt: HostRuntime) -> ExitCode {
    match run(&rt) {
        Ok(()) => ExitCode::SUCCESS,
        Err(fault) => {
            let _told = eprintln!(rt; "{fault}");
            ExitCode::from(fault.status())
        },
    }
}
