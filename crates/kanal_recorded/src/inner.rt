//! What is done under the lock of a recorded channel.
//!
//! A contract sees nothing of what is under a lock, so each function here is given the state and says what
//! becomes of it.
ghost use Rattle.std.specs.Prelude.{◌≡◌, ◌↔◌, ◌+◌, ℕ, IfErr, IfOk, IsErr, IsErrOf, Some};
ghost use Rattle.kanal_core.specs.Line.{last_word};
ghost use Rattle.kanal_core.specs.Moves.{last_count};
ghost use Rattle.kanal_journal.specs.Paired.{Paired, until};
ghost use Rattle.kanal_journal.specs.Replays.{opened_recording, outcome_of};
ghost use Rattle.kanal_recorded.specs.Merges.{FinishPost, IsIdentity, IsLedTo, journal_history};

use crate::finish::{is_capacity, is_merged};
use crate::pass::Pass;
use kanal_core::error::{NewError, TooMany};
use kanal_core::internal::Outcome;
use kanal_journal::journal::{Journal, RecordedState};
use std::alloc::Global;

#[derive(Drop)]
pub(crate) struct Inner<T: Copy> {
    pub(crate) state: RecordedState<T>,
    parties: u32,
}

impl<T: Copy> Inner<T> {
    pub(crate) fn new(alloc: Global, capacity: Option<usize>) -> Result<Self, NewError>
        ensures opened { IfOk result (λ s. s.state ≡ opened_recording capacity) }
        ensures none { IfOk result (λ s. s.parties ≡ 0) }
        ensures large { IsErrOf result NewError.TooLarge ↔ (capacity ≡ Some last_word) }
    {
        let state = RecordedState::new(alloc, capacity)?;
        Ok(Inner { state, parties: 0 })
    }

    pub(crate) fn next_party(&mut self) -> Result<u32, TooMany>
        ensures number { IfOk result (λ n. n ≡ self.old.parties) }
        ensures rises { IfOk result (λ _. self.new
            ≡ record self.old { parties = self.old.parties + 1 }) }
        ensures full { IsErr result ↔ (self.old.parties ≡ last_count) }
        ensures same { IfErr result (λ _. self.new ≡ self.old) }
    {
        let party = self.parties;
        if party == u32::MAX {
            return Err(TooMany);
        }
        self.parties = party + 1;
        Ok(party)
    }

    pub(crate) fn outcome(&self, ticket: u64) -> Option<Outcome<T>>
        ensures { result ≡ outcome_of ticket self.now.state.account.settled }
    {
        self.state.outcome(ticket)
    }

    /// The journal, if it is of this capacity and the passes' lists agree with it; or all as it was.
    pub(crate) fn finish(
        self,
        capacity: Option<usize>,
        passes: &[Pass<T>],
    ) -> Result<Journal<T>, Self>
    where
        T: Eq,
        requires { IsIdentity T.eq }
        ensures entries { IfOk result (λ j. j.entries.items ≡ self.state.entries) }
        ensures settled { IfOk result (λ j. j.settled.items ≡ self.state.account.settled) }
        ensures drained { IfOk result (λ j. j.drained.items ≡ self.state.account.drained) }
        ensures cleared { IfOk result (λ j. j.cleared.items ≡ self.state.account.cleared) }
        ensures finished { IfOk result (λ j. FinishPost capacity passes.now j) }
        ensures leads { IfOk result (λ j. IsLedTo capacity j) }
        ensures paired { IfOk result (λ j. (n : ℕ) → Paired (until n (journal_history j))) }
        ensures same { IfErr result (λ s. s ≡ self) }
    {
        let is_own = is_capacity(self.state.capacity(), capacity);
        if is_own && is_merged(self.state.entries(), passes) {
            return Ok(self.state.into_journal());
        }
        Err(self)
    }
}
