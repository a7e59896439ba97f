//! How replies and outcomes read as the answers of calls.
//!
//! Each function here is the definition of its name in `specs/Results`: no other module reads a reply. A
//! message that a reply gives back is dropped, but for the forms that are lent an option.
ghost use Rattle.std.specs.Prelude.{◌≡◌, None};
ghost use Rattle.kanal_state.specs.Results.{asked_by, back_after, back_by, closed_by, count_by, counted_by};
ghost use Rattle.kanal_state.specs.Results.{drained_by, entered_by, flag_by, number_by, receive_error};
ghost use Rattle.kanal_state.specs.Results.{received_after, received_by, send_error, sent_after, sent_by};
ghost use Rattle.kanal_state.specs.Results.{timed_receive_error, timed_received_after, timed_received_by};
ghost use Rattle.kanal_state.specs.Results.{timed_send_error, timed_sent_after, timed_sent_by};

use kanal_core::error::{
    CloseError, ReceiveError, ReceiveErrorTimeout, SendError, SendErrorTimeout, TooMany,
};
use kanal_core::internal::{Outcome, Reason};
use kanal_events::event::{Refusal, Reply};

#[cold]
fn send_error(reason: Refusal) -> SendError
    ensures { result ≡ send_error reason }
{
    match reason {
        Refusal::ReceiveClosed => SendError::ReceiveClosed,
        Refusal::Sealed => SendError::Sealed,
        Refusal::NoMemory => SendError::NoMemory,
        Refusal::TooMany => SendError::TooMany,
        _ => SendError::Closed,
    }
}

/// The answer of a send that waits where it must.
pub fn sent_by<T: Drop>(reply: Reply<T>) -> Result<(), SendError>
    ensures { result ≡ sent_by reply }
{
    match reply {
        Reply::Sent => Ok(()),
        Reply::Refused(reason, _back) => Err(send_error(reason)),
        _ => Err(SendError::Closed),
    }
}

/// What the end of a sender's wait answers.
#[cold]
pub fn sent_after<T: Drop>(outcome: Outcome<T>) -> Result<(), SendError>
    ensures { result ≡ sent_after outcome }
{
    match outcome {
        Outcome::Taken => Ok(()),
        Outcome::Ended(Reason::ReceiveClosed, _back) => Err(SendError::ReceiveClosed),
        Outcome::Ended(_, _back) => Err(SendError::Closed),
        Outcome::Given(_message) => Err(SendError::Closed),
    }
}

/// The answer of a send that doesn't wait; a message that comes back goes into the option.
pub fn restored<T: Drop>(reply: Reply<T>, option: &mut Option<T>) -> Result<bool, SendError>
    requires empty { option.old ≡ None }
    ensures answer { result ≡ entered_by reply }
    ensures back { option.new ≡ back_by reply }
{
    match reply {
        Reply::Yes => Ok(true),
        Reply::No(back) => {
            *option = Some(back);
            Ok(false)
        },
        Reply::Refused(reason, back) => {
            *option = back;
            Err(send_error(reason))
        },
        _ => Err(SendError::Closed),
    }
}

#[cold]
fn timed_send_error(reason: Refusal) -> SendErrorTimeout
    ensures { result ≡ timed_send_error reason }
{
    match reason {
        Refusal::ReceiveClosed => SendErrorTimeout::ReceiveClosed,
        Refusal::Sealed => SendErrorTimeout::Sealed,
        Refusal::NoMemory => SendErrorTimeout::NoMemory,
        Refusal::TooMany => SendErrorTimeout::TooMany,
        _ => SendErrorTimeout::Closed,
    }
}

/// The answer of a send with a deadline; a message that comes back goes into the option.
pub fn timed_sent_by<T: Drop>(
    reply: Reply<T>,
    option: &mut Option<T>,
) -> Result<(), SendErrorTimeout>
    requires empty { option.old ≡ None }
    ensures answer { result ≡ timed_sent_by reply }
    ensures back { option.new ≡ back_by reply }
{
    match reply {
        Reply::Sent => Ok(()),
        Reply::No(back) => {
            *option = Some(back);
            Err(SendErrorTimeout::Closed)
        },
        Reply::Refused(reason, back) => {
            *option = back;
            Err(timed_send_error(reason))
        },
        _ => Err(SendErrorTimeout::Closed),
    }
}

/// What the end of its wait answers a send with a deadline; a message that comes back goes into the option.
#[cold]
pub fn timed_sent_after<T: Drop>(
    outcome: Outcome<T>,
    option: &mut Option<T>,
) -> Result<(), SendErrorTimeout>
    requires empty { option.old ≡ None }
    ensures answer { result ≡ timed_sent_after outcome }
    ensures back { option.new ≡ back_after outcome }
{
    match outcome {
        Outcome::Taken => Ok(()),
        Outcome::Ended(Reason::ReceiveClosed, back) => {
            *option = back;
            Err(SendErrorTimeout::ReceiveClosed)
        },
        Outcome::Ended(_, back) => {
            *option = back;
            Err(SendErrorTimeout::Closed)
        },
        Outcome::Given(_message) => Err(SendErrorTimeout::Closed),
    }
}

#[cold]
fn receive_error(reason: Refusal) -> ReceiveError
    ensures { result ≡ receive_error reason }
{
    match reason {
        Refusal::SendClosed => ReceiveError::SendClosed,
        Refusal::NoMemory => ReceiveError::NoMemory,
        Refusal::TooMany => ReceiveError::TooMany,
        _ => ReceiveError::Closed,
    }
}

/// The answer of a receive that waits where it must.
pub fn received_by<T: Drop>(reply: Reply<T>) -> Result<T, ReceiveError>
    ensures { result ≡ received_by reply }
{
    match reply {
        Reply::Got(message) => Ok(message),
        Reply::Refused(reason, _back) => Err(receive_error(reason)),
        _ => Err(ReceiveError::Closed),
    }
}

/// What the end of a receiver's wait answers.
#[cold]
pub fn received_after<T: Drop>(outcome: Outcome<T>) -> Result<T, ReceiveError>
    ensures { result ≡ received_after outcome }
{
    match outcome {
        Outcome::Given(message) => Ok(message),
        Outcome::Ended(Reason::SendClosed, _back) => Err(ReceiveError::SendClosed),
        Outcome::Ended(_, _back) => Err(ReceiveError::Closed),
        Outcome::Taken => Err(ReceiveError::Closed),
    }
}

/// The answer of a receive that doesn't wait.
pub fn asked_by<T: Drop>(reply: Reply<T>) -> Result<Option<T>, ReceiveError>
    ensures { result ≡ asked_by reply }
{
    match reply {
        Reply::Got(message) => Ok(Some(message)),
        Reply::Nothing => Ok(None),
        Reply::Refused(reason, _back) => Err(receive_error(reason)),
        _ => Err(ReceiveError::Closed),
    }
}

pub fn drained_by<T: Drop>(reply: Reply<T>) -> Result<usize, ReceiveError>
    ensures { result ≡ drained_by reply }
{
    match reply {
        Reply::Drained(count) => Ok(count),
        Reply::Refused(reason, _back) => Err(receive_error(reason)),
        _ => Err(ReceiveError::Closed),
    }
}

#[cold]
fn timed_receive_error(reason: Refusal) -> ReceiveErrorTimeout
    ensures { result ≡ timed_receive_error reason }
{
    match reason {
        Refusal::SendClosed => ReceiveErrorTimeout::SendClosed,
        Refusal::Timeout => ReceiveErrorTimeout::Timeout,
        Refusal::NoMemory => ReceiveErrorTimeout::NoMemory,
        Refusal::TooMany => ReceiveErrorTimeout::TooMany,
        _ => ReceiveErrorTimeout::Closed,
    }
}

/// The answer of a receive with a deadline.
pub fn timed_received_by<T: Drop>(reply: Reply<T>) -> Result<T, ReceiveErrorTimeout>
    ensures { result ≡ timed_received_by reply }
{
    match reply {
        Reply::Got(message) => Ok(message),
        Reply::Refused(reason, _back) => Err(timed_receive_error(reason)),
        _ => Err(ReceiveErrorTimeout::Closed),
    }
}

/// What the end of its wait answers a receive with a deadline.
#[cold]
pub fn timed_received_after<T: Drop>(outcome: Outcome<T>) -> Result<T, ReceiveErrorTimeout>
    ensures { result ≡ timed_received_after outcome }
{
    match outcome {
        Outcome::Given(message) => Ok(message),
        Outcome::Ended(Reason::SendClosed, _back) => Err(ReceiveErrorTimeout::SendClosed),
        Outcome::Ended(_, _back) => Err(ReceiveErrorTimeout::Closed),
        Outcome::Taken => Err(ReceiveErrorTimeout::Closed),
    }
}

/// Whether a seal or a close was made.
pub fn closed_by<T: Drop>(reply: Reply<T>) -> Result<(), CloseError>
    ensures { result ≡ closed_by reply }
{
    match reply {
        Reply::Done => Ok(()),
        Reply::Cleared(_) => Ok(()),
        _ => Err(CloseError()),
    }
}

pub fn flag_by<T: Drop>(reply: Reply<T>) -> bool
    ensures { result ≡ flag_by reply }
{
    match reply {
        Reply::Flag(answer) => answer,
        _ => false,
    }
}

pub fn number_by<T: Drop>(reply: Reply<T>) -> usize
    ensures { result ≡ number_by reply }
{
    match reply {
        Reply::Number(answer) => answer as usize,
        _ => 0,
    }
}

pub fn count_by<T: Drop>(reply: Reply<T>) -> u32
    ensures { result ≡ count_by reply }
{
    match reply {
        Reply::Number(answer) if answer < u64::from(u32::MAX) => answer as u32,
        Reply::Number(_most) => u32::MAX,
        _ => 0,
    }
}

pub(crate) fn counted_by<T: Drop>(reply: Reply<T>) -> Result<(), TooMany>
    ensures { result ≡ counted_by reply }
{
    match reply {
        Reply::Done => Ok(()),
        _ => Err(TooMany),
    }
}
