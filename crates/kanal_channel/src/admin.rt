//! The counts of both sides, what ends them, and the questions.
//!
//! Each call here is one event, and waits for the lock alone. A handle is counted by a token, which `count` gives.
ghost use Rattle.std.specs.Prelude.{◌≡◌};
ghost use Rattle.kanal_state.specs.Handles.{Asks, AsksForTheEnd, Closes, Seals};
ghost use Rattle.kanal_state.specs.Makes.{IsReplied};
ghost use Rattle.kanal_state.specs.Results.{count_by, counted_by, flag_by, number_by};
ghost use Rattle.kanal_state.specs.Counts.{one_more, whether_counted};

use crate::shared::Shared;
use kanal_core::error::{CloseError, TooMany};
use kanal_events::event::{Ask, Event, Reply, Side};
use kanal_state::answers::{closed_by, count_by, flag_by, number_by};
use kanal_state::{CountedHandle, History, OfSide};
use std::sync::Wait;

impl<T: Drop, H: History<T>> Shared<T, H> {
    /// Closes both sides: all waits end, and the messages in the buffer are dropped after the release.
    ///
    /// # Errors
    /// `CloseError` where both sides were gone already, and nothing changes.
    #[tactic(auto, using(kanal_state::proofs::Settling::free_replied))]
    pub fn close<R: Wait>(&self, rt: &R, pass: &mut H::Pass) -> Result<(), CloseError>
        ensures closed { Closes H.relations pass.old pass.new result }
    {
        closed_by(self.call(rt, pass, Event::Close))
    }

    /// Lets the senders be done: the receives that wait end, nothing more enters, and the receivers take
    /// what is left.
    ///
    /// # Errors
    /// `CloseError` where no sender was left already, and nothing changes.
    #[tactic(auto, using(kanal_state::proofs::Settling::free_replied))]
    pub fn seal<R: Wait>(&self, rt: &R, pass: &mut H::Pass) -> Result<(), CloseError>
        ensures sealed { Seals H.relations pass.old pass.new result }
    {
        closed_by(self.call(rt, pass, Event::Seal))
    }

    /// Counts one more handle of a side: the token has to be counted out when the handle goes. Where none of
    /// that side is left it stays so, and the answer is `Ok`.
    ///
    /// # Errors
    /// `TooMany` exactly where there are `u32::MAX` of that side, and nothing changes.
    pub fn count<S: OfSide, R: Wait>(
        &self,
        rt: &R,
        pass: &mut H::Pass,
    ) -> Result<CountedHandle<S>, TooMany>
        ensures counted { IsReplied H.relations pass.old pass.new (one_more S.side) counted_by
            (whether_counted result) }
    {
        let mut locked = self.lock(rt);
        let counted = locked.state.count(&self.log, pass);
        locked.unlock_and_drain();
        counted
    }

    /// Asks a question through a side: the answer is a `Number` or a `Flag`.
    #[tactic(auto, using(kanal_state::proofs::Settling::free_replied))]
    pub fn ask<R: Wait>(&self, rt: &R, pass: &mut H::Pass, side: Side, question: Ask) -> Reply<T>
        ensures asked { Asks H.relations pass.old pass.new side question (λ reply. reply) result }
    {
        self.call(rt, pass, Event::Ask(side, question))
    }

    /// Asks through a side what is answered by yes or no.
    #[tactic(auto, using(kanal_state::proofs::Settling::free_replied))]
    pub fn ask_flag<R: Wait>(&self, rt: &R, pass: &mut H::Pass, side: Side, question: Ask) -> bool
        ensures asked { Asks H.relations pass.old pass.new side question flag_by result }
    {
        flag_by(self.call(rt, pass, Event::Ask(side, question)))
    }

    /// Asks through a side how many messages there are, or may be.
    #[tactic(auto, using(kanal_state::proofs::Settling::free_replied))]
    pub fn ask_number<R: Wait>(
        &self,
        rt: &R,
        pass: &mut H::Pass,
        side: Side,
        question: Ask,
    ) -> usize
        ensures asked { Asks H.relations pass.old pass.new side question number_by result }
    {
        number_by(self.call(rt, pass, Event::Ask(side, question)))
    }

    /// Asks through a side how many handles a side has.
    #[tactic(auto, using(kanal_state::proofs::Settling::free_replied))]
    pub fn ask_count<R: Wait>(&self, rt: &R, pass: &mut H::Pass, side: Side, question: Ask) -> u32
        ensures asked { Asks H.relations pass.old pass.new side question count_by result }
    {
        count_by(self.call(rt, pass, Event::Ask(side, question)))
    }

    /// Whether no sender is left and no message is there, those of waiting senders included.
    #[tactic(auto, using(kanal_state::proofs::Settling::free_replied))]
    pub fn is_terminated<R: Wait>(&self, rt: &R, pass: &mut H::Pass) -> bool
        ensures asked { AsksForTheEnd H.relations pass.old pass.new result }
    {
        flag_by(self.call(rt, pass, Event::Terminated))
    }
}
