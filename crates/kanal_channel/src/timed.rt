//! How what a call with a deadline came to reads as its answer.
//!
//! No other module makes a timed error of it.
ghost use Rattle.std.specs.Prelude.{◌≡◌, None};
ghost use Rattle.kanal_state.specs.Results.{receive_in_time, send_in_time};
ghost use Rattle.kanal_channel.specs.Deadlines.{answer_in_time, back_in_time};

use crate::blocking::WaitOutcome;
use kanal_core::error::{ReceiveErrorTimeout, SendErrorTimeout};
use kanal_state::answers::{
    timed_received_after, timed_received_by, timed_sent_after, timed_sent_by,
};

pub(crate) fn sent_in_time<T: Drop>(
    came: WaitOutcome<T>,
    option: &mut Option<T>,
) -> Result<(), SendErrorTimeout>
    requires empty { option.old ≡ None }
    ensures answer { result ≡ answer_in_time send_in_time came }
    ensures back { option.new ≡ back_in_time came }
{
    match came {
        WaitOutcome::Replied(reply) => timed_sent_by(reply, option),
        WaitOutcome::Settled(outcome) => timed_sent_after(outcome, option),
        WaitOutcome::Withdrawn(back) => {
            *option = back;
            Err(SendErrorTimeout::Timeout)
        },
    }
}

pub(crate) fn received_in_time<T: Drop>(came: WaitOutcome<T>) -> Result<T, ReceiveErrorTimeout>
    ensures { result ≡ answer_in_time receive_in_time came }
{
    match came {
        WaitOutcome::Replied(reply) => timed_received_by(reply),
        WaitOutcome::Settled(outcome) => timed_received_after(outcome),
        WaitOutcome::Withdrawn(_back) => Err(ReceiveErrorTimeout::Timeout),
    }
}
