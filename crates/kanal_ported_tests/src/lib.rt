//! The tests of the Rust crate kanal, each under its own name: `sync` for threads, `tasks` for tasks.
//!
//! docs/PORTED.md has them in a table, with what differs and why.
#![tactic(auto)]

#[cfg(test)]
mod tests;
