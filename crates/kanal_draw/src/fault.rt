//! Why nothing is drawn, with the text and the status of that; no other module writes that text.
use kanal_core::error::NewError;
use kanal_script::parser::ParseError;
use std::alloc::{AllocError, AllocFailed};
use std::fmt;

/// Why nothing is drawn.
#[derive(Clone, Copy, Debug)]
pub enum Failure {
    /// The line of this number, counted from 1, can't be read, and why.
    Unreadable(usize, &'static str),
    /// Memory was refused.
    NoMemory,
    /// Reading or writing failed.
    Device,
}

impl Failure {
    /// The status that the program ends with.
    pub fn status(self) -> u8 {
        match self {
            Failure::Unreadable(_, _) => 2,
            Failure::NoMemory | Failure::Device => 1,
        }
    }
}

impl fmt::Display for Failure {
    fn fmt<W: fmt::Write>(&self, f: &mut fmt::Formatter<W>) -> fmt::Result {
        match self {
            Failure::Unreadable(line, why) => write!(f, "kanal_draw: line {line}: {why}"),
            Failure::NoMemory => write!(f, "kanal_draw: no memory"),
            Failure::Device => write!(f, "kanal_draw: device fault"),
        }
    }
}

impl From<AllocError> for Failure {
    fn from(_error: AllocError) -> Failure {
        Failure::NoMemory
    }
}

impl<T: Drop> From<AllocFailed<T>> for Failure {
    fn from(_failed: AllocFailed<T>) -> Failure {
        Failure::NoMemory
    }
}

impl From<ParseError> for Failure {
    fn from(error: ParseError) -> Failure {
        match error {
            ParseError::Unreadable(1) => Failure::Unreadable(
                1,
                "no `cap N` and no `cap unbounded`",
            ),
            ParseError::Unreadable(line) => Failure::Unreadable(line, "no event behind the party"),
            ParseError::NoMemory => Failure::NoMemory,
        }
    }
}

impl From<NewError> for Failure {
    fn from(error: NewError) -> Failure {
        match error {
            NewError::TooLarge => Failure::Unreadable(1, "the capacity is too large"),
            NewError::NoMemory => Failure::NoMemory,
        }
    }
}
