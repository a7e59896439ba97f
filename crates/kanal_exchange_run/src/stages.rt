//! The stages of the program's pipelines.
use kanal_exchange::Stage;
use std::fmt;

/// Twice the number; a number whose double is past the largest is refused.
#[derive(Clone, Copy, Debug, PartialEq, Eq)]
pub struct Doubled;

impl Stage for Doubled {
    type Input = u64;

    type Output = u64;

    ghost use Rattle.std.specs.Prelude.{◌*◌};

    ghost value = { λ _ number. number * 2 };

    fn apply(&self, message: u64) -> Option<u64> {
        message.checked_mul(2)
    }
}

/// What is shown of a number.
#[derive(Clone, Copy, Debug, PartialEq, Eq)]
pub struct Digits {
    /// How many tens it has.
    pub tens: u64,
    /// Its last digit.
    pub last: u64,
}

impl fmt::Display for Digits {
    fn fmt<W: fmt::Write>(&self, f: &mut fmt::Formatter<W>) -> fmt::Result {
        write!(f, "{} tens and {}", self.tens, self.last)
    }
}

/// The number as tens and a last digit.
#[derive(Clone, Copy, Debug, PartialEq, Eq)]
pub struct Shown;

impl Stage for Shown {
    type Input = u64;

    type Output = Digits;

    ghost use Rattle.kanal_exchange_run.specs.Numbers.{digits_of};

    ghost value = { λ _ number. digits_of number };

    fn apply(&self, message: u64) -> Option<Digits> {
        Some(Digits {
            tens: message / 10,
            last: message % 10,
        })
    }
}
