//! Runs stored scripts, whose answers are known, through `serve`, and prints per file how many are answered otherwise.
//!
//! Its tests are those of scripts, of journals and of recorded channels.
#![tactic(auto)]

#[cfg(test)]
mod tests;
mod vectors;

use anyhow::{Context, Result};
use std::fs;

/// The files, which lie in the folder that the program runs in.
const FILES: [&str; 5] = [
    "scripts-first.txt",
    "scripts-waits.txt",
    "scripts-full.txt",
    "scripts-sealed.txt",
    "scripts-examples.txt",
];

fn main(rt: HostRuntime) -> Result<()> {
    for file in FILES {
        let text = fs::read_to_string(&rt, file).context(format_args!("reading {file}"))?;
        let tally = vectors::compare(rt.alloc(), text.as_str())?;
        println!(rt; "{file}: {tally}")?;
    }
    Ok(())
}
