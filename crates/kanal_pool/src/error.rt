//! Why a pool has no answer, with its exact text.
ghost use Rattle.std.specs.Prelude.{◌≡◌, Some};
ghost use Rattle.kanal_pool.specs.Texts.{pool_error_text};

use kanal::error::NoMemory;
use std::error::Error;
use std::fmt;

/// A pool has no answer.
#[derive(Clone, Copy, Debug, PartialEq, Eq)]
pub enum PoolError {
    /// It was to have no workers.
    NoWorkers,
    /// There were `usize::MAX` jobs, more than a channel may hold.
    TooLarge,
    /// There was no memory, for the pool or for a job's work.
    NoMemory,
    /// A worker could not be started.
    NoThread,
    /// The answers ended before each job had one.
    Incomplete,
}

impl fmt::Display for PoolError {
    ghost output = { λ e. Some (pool_error_text e) };

    fn fmt<W: fmt::Write>(&self, f: &mut fmt::Formatter<W>) -> fmt::Result {
        match self {
            PoolError::NoWorkers => write!(f, "no workers"),
            PoolError::TooLarge => write!(f, "capacity too large"),
            PoolError::NoMemory => write!(f, "no memory"),
            PoolError::NoThread => write!(f, "no thread"),
            PoolError::Incomplete => write!(f, "incomplete"),
        }
    }
}

impl Error for PoolError {}

impl From<NoMemory> for PoolError {
    ghost use Rattle.kanal_pool.specs.declared.error.PoolError.{PoolError};

    ghost from_gives = { λ _ error. error ≡ PoolError.NoMemory };

    fn from(_none: NoMemory) -> Self {
        PoolError::NoMemory
    }
}
