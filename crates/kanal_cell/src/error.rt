//! The one error of a cell, with its exact text.
ghost use Rattle.std.specs.Prelude.{Some};
ghost use Rattle.kanal_cell.specs.Texts.{no_memory_text};

use std::error::Error;
use std::fmt;

/// Memory was asked for and refused; what was asked for did not happen.
#[derive(Clone, Copy, Debug, PartialEq, Eq)]
pub struct NoMemory;

impl fmt::Display for NoMemory {
    ghost output = { λ e. Some (no_memory_text e) };

    fn fmt<W: fmt::Write>(&self, f: &mut fmt::Formatter<W>) -> fmt::Result {
        write!(f, "no memory")
    }
}

impl Error for NoMemory {}
