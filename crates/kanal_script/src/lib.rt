//! Scripts for one channel: reads them, runs them and prints what they answered.
//!
//! `serve` is the whole work of the program `kanal_run`.
#![tactic(auto)]

pub mod parser;
pub mod printer;
pub mod program;
pub mod script;

pub use program::serve;
