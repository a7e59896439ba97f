//! Why an exchange came to nothing, with its exact text.
//!
//! Of the errors of several threads it picks the one that tells why.
ghost use Rattle.std.specs.Prelude.{◌≡◌, Some, Ok, Err, IfOk};
ghost use Rattle.kanal_exchange.specs.Causes.{cause_of};
ghost use Rattle.kanal_exchange.specs.declared.error.ExchangeError.{ExchangeError};
ghost use Rattle.kanal_exchange.specs.Texts.{exchange_error_text};

use kanal_core::error::{NewError, ReceiveError, SendError};
use std::alloc::AllocFailed;
use std::error::Error;
use std::fmt;

/// An exchange came to nothing. All its messages are dropped, once each, those that came, too.
///
/// Who is refused closes its channels, so that the other threads end. Of the errors of all threads the one is
/// answered that tells more than that a channel was closed, if there is such a one.
#[derive(Clone, Copy, Debug, PartialEq, Eq)]
pub enum ExchangeError {
    /// A channel could not be made.
    New(NewError),
    /// A send was refused.
    Send(SendError),
    /// A receive was refused.
    Receive(ReceiveError),
    /// There was no memory for the list of what was received.
    NoMemory,
    /// A stage refused a message.
    Stage,
    /// The executor refused a task.
    Task,
    /// A thread could not be started.
    NoThread,
}

/// What a thread came to, or why it did not.
pub(crate) type Answer<A> = Result<A, ExchangeError>;

impl fmt::Display for ExchangeError {
    ghost output = { λ e. Some (exchange_error_text e) };

    fn fmt<W: fmt::Write>(&self, f: &mut fmt::Formatter<W>) -> fmt::Result {
        match self {
            ExchangeError::New(error) => write!(f, "no channel: {error}"),
            ExchangeError::Send(error) => write!(f, "a send was refused: {error}"),
            ExchangeError::Receive(error) => write!(f, "a receive was refused: {error}"),
            ExchangeError::NoMemory => write!(f, "no memory"),
            ExchangeError::Stage => write!(f, "a stage refused a message"),
            ExchangeError::Task => write!(f, "the executor refused a task"),
            ExchangeError::NoThread => write!(f, "no thread could be started"),
        }
    }
}

impl Error for ExchangeError {}

impl From<NewError> for ExchangeError {
    ghost use Rattle.kanal_exchange.specs.declared.error.ExchangeError.{ExchangeError};

    ghost from_gives = { λ error refused. refused ≡ ExchangeError.New error };

    fn from(error: NewError) -> Self {
        ExchangeError::New(error)
    }
}

impl From<SendError> for ExchangeError {
    ghost use Rattle.kanal_exchange.specs.declared.error.ExchangeError.{ExchangeError};

    ghost from_gives = { λ error refused. refused ≡ ExchangeError.Send error };

    fn from(error: SendError) -> Self {
        ExchangeError::Send(error)
    }
}

impl From<ReceiveError> for ExchangeError {
    ghost use Rattle.kanal_exchange.specs.declared.error.ExchangeError.{ExchangeError};

    ghost from_gives = { λ error refused. refused ≡ ExchangeError.Receive error };

    fn from(error: ReceiveError) -> Self {
        ExchangeError::Receive(error)
    }
}

impl<T: Drop> From<AllocFailed<T>> for ExchangeError {
    ghost use Rattle.kanal_exchange.specs.declared.error.ExchangeError.{ExchangeError};

    ghost from_gives = { λ _ refused. refused ≡ ExchangeError.NoMemory };

    fn from(_failed: AllocFailed<T>) -> Self {
        ExchangeError::NoMemory
    }
}

/// The one of two threads' errors that tells why: `one`, but `other` where `one` tells no more than that the
/// channel was closed.
fn cause_of(one: ExchangeError, other: ExchangeError) -> ExchangeError
    ensures cause { result ≡ cause_of one other }
{
    match one {
        ExchangeError::Send(SendError::Closed) => other,
        ExchangeError::Receive(ReceiveError::Closed) => other,
        _ => one,
    }
}

/// What two threads came to, or why they did not.
pub(crate) fn both_of<A: Drop, B: Drop>(one: Answer<A>, other: Answer<B>) -> Answer<(A, B)>
    ensures both { IfOk result (λ both. (one ≡ Ok both.0) × (other ≡ Ok both.1)) }
    ensures cause { (a b : ExchangeError) → one ≡ Err a → other ≡ Err b → result ≡ Err (cause_of a b) }
{
    match (one, other) {
        (Ok(one), Ok(other)) => Ok((one, other)),
        (Err(one), Err(other)) => Err(cause_of(one, other)),
        (Err(refused), Ok(_)) => Err(refused),
        (Ok(_), Err(refused)) => Err(refused),
    }
}
