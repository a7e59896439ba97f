//! What a call in a task came to: the answer, with the pass that made it.
//!
//! Only who shows that the call was made so makes one.
ghost use Rattle.std.specs.Prelude.{◌≡◌};
ghost use Rattle.kanal_channel.specs.Answers.{Answers};

use crate::ghost_value::GhostValue;
use kanal_channel::Operation;
use kanal_state::History;
use std::marker::Model;

/// What a call in a task began with, for proofs alone: the pass as it was, and what was asked.
#[derive(Drop)]
pub(crate) struct GhostStart<P, M> {
    pub(crate) pass: GhostValue<P>,
    pub(crate) asked: GhostValue<M>,
}

impl<P, M> GhostStart<P, M> {
    pub(crate) fn of(pass: &P, asked: &M) -> Self
        ensures pass { result.pass.value ≡ pass.now }
        ensures asked { result.asked.value ≡ asked.now }
    {
        GhostStart {
            pass: GhostValue::of(pass),
            asked: GhostValue::of(asked),
        }
    }
}

/// What a call in a task came to: the answer, and the pass. Contracts see what the pass was at first, what was
/// asked, the pass, and the answer.
#[derive(Drop)]
pub struct TaskAnswer<T, H: History<T>, M, A: Operation<T, M>> {
    opening: GhostStart<H::Pass, M>,
    pass: H::Pass,
    answer: A::Answer,
}

impl<T, H: History<T>, M, A: Operation<T, M>> Model for TaskAnswer<T, H, M, A> {
    ghost use Rattle.kanal_channel.specs.Answers.{Answers};

    ghost Value = { H.Pass × M × H.Pass × A.Answer };

    ghost view = { λ a. (a.opening.pass.value, a.opening.asked.value, a.pass, a.answer) };

    ghost invariant = { λ a. Answers H.relations (A.event a.opening.asked.value) A.read A.ended
        a.opening.pass.value a.pass a.answer };
}

impl<T: Drop, H: History<T>, M: Drop, A: Operation<T, M>> TaskAnswer<T, H, M, A> {
    pub(crate) fn new(opening: GhostStart<H::Pass, M>, pass: H::Pass, answer: A::Answer) -> Self
        requires made { Answers H.relations (A.event opening.asked.value) A.read A.ended
            opening.pass.value pass answer }
        ensures { result ≡ (opening.pass.value, opening.asked.value, pass, answer) }
    {
        TaskAnswer {
            opening,
            pass,
            answer,
        }
    }

    pub(crate) fn apart(self) -> (H::Pass, A::Answer)
        ensures made { Answers H.relations (A.event self.1) A.read A.ended self.0 result.0 result.1 }
        ensures pass { result.0 ≡ self.2 }
        ensures answer { result.1 ≡ self.3 }
    {
        let TaskAnswer {
            opening,
            pass,
            answer,
        } = self;
        drop(opening);
        (pass, answer)
    }
}
