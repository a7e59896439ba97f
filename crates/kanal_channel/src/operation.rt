//! What waits where it must: to send a message, or to receive one.
//!
//! All that differs between the two is in `Operation`: the fast path, the second look, the wait and the answer are
//! written once, for threads and for tasks.
ghost use Rattle.std.specs.Prelude.{◌≡◌, true, IfErr, IfOk};
ghost use Rattle.kanal_core.specs.declared.internal.outcome.Outcome.{Outcome};
ghost use Rattle.kanal_events.specs.declared.event.Event.{Event};
ghost use Rattle.kanal_events.specs.declared.event.Reply.{Reply};
ghost use Rattle.kanal_events.specs.StepResult.{may_wait};
ghost use Rattle.kanal_state.specs.Makes.{HasReplied};

use crate::shared::Locked;
use kanal_core::internal::Outcome;
use kanal_events::event::{Event, Reply};
use kanal_state::History;

/// What is asked with a message, or with none, and what it is answered.
pub trait Operation<T, M> {
    /// What it is answered.
    type Answer;

    /// The event that it is.
    ghost event: { M → Event T };

    /// How a reply reads as its answer.
    ghost read: { Reply T → Self.Answer };

    /// How the end of its wait reads as its answer.
    ghost ended: { Outcome T → Self.Answer };

    /// What a future answers once it has answered.
    ghost finished: { Self.Answer };

    fn into_event(asked: M) -> Event<T>
        ensures asked { result ≡ event asked }
        ensures waits { may_wait result ≡ true };

    /// Makes the call where it goes by itself: nobody waits, and it need not wait. Where it doesn't nothing changes.
    fn make_fast<H: History<T>>(
        locked: &mut Locked<'_, T, H>,
        log: &H::Log,
        pass: &mut H::Pass,
        asked: M,
    ) -> Result<Reply<T>, M>
    where
        T: Drop,
        ensures made { IfOk result (HasReplied H.relations pass.old pass.new (event asked)) }
        ensures refused { IfErr result (λ back. (back ≡ asked) × (pass.new ≡ pass.old)) };

    /// Whether the buffer lacks what it needs, a place or a message: the other side is often about to change that.
    fn is_short<H: History<T>>(locked: &Locked<'_, T, H>) -> bool
    where
        T: Drop;

    fn by(reply: Reply<T>) -> Self::Answer
    where
        T: Drop,
        ensures { result ≡ read reply };

    fn after(outcome: Outcome<T>) -> Self::Answer
    where
        T: Drop,
        ensures { result ≡ ended outcome };

    fn again() -> Self::Answer
        ensures { result ≡ finished };
}
