//! The recorded channel, which threads share, and the drawing of its passes.
//!
//! The lock is got where a pass is drawn, and by a pass.
ghost use Rattle.std.specs.Prelude.{◌≡◌, ◌↔◌, ℕ, length, IfErr, IfOk, IsErrOf, Some};
ghost use Rattle.std.specs.List.{sum_by};
ghost use Rattle.kanal_core.specs.Line.{last_word};
ghost use Rattle.kanal_journal.specs.Paired.{Paired, until};
ghost use Rattle.kanal_recorded.specs.Merges.{FinishPost, IsIdentity, IsLedTo, journal_history};
ghost use Rattle.kanal_recorded.specs.Passes.{newcomer};

use crate::inner::Inner;
use crate::pass::Pass;
use kanal_core::error::{NewError, TooMany};
use kanal_core::mutex::Mutex;
use kanal_journal::journal::Journal;
use std::alloc::Global;
use std::marker::Model;
use std::sync::Wait;

/// The passes' lists and the journal don't agree.
#[derive(Clone, Copy, Debug, PartialEq, Eq)]
pub struct Mismatch;

/// A channel whose calls are recorded, for many threads.
///
/// Each thread draws a `Pass` and makes its calls through it. The journal lies under one lock with
/// the channel, and explains it whenever the lock is got. Contracts see the capacity.
#[derive(Drop)]
pub struct Recorded<T: Copy> {
    pub(crate) inner: Mutex<Inner<T>>,
    capacity: Option<usize>,
    alloc: Global,
}

impl<T: Copy> Model for Recorded<T> {
    ghost use Rattle.std.specs.Prelude.{ℕ, Option};

    ghost Value = { Option ℕ };

    ghost view = { λ r. r.capacity };
}

impl<T: Copy> Recorded<T> {
    /// A new channel of this capacity, `None` being no limit, on which no call was made and of which
    /// no pass was drawn.
    ///
    /// # Errors
    /// `TooLarge` exactly for `Some(usize::MAX)`; `NoMemory` where there is no memory for the channel.
    ///
    /// # Examples
    /// ```text
    /// let channel: Recorded<u64> = Recorded::new(alloc, Some(1))?;
    /// let mut a = channel.pass(rt)?;
    /// a.try_send(rt, &channel, 7)   answers  Yes
    /// ```
    pub fn new(alloc: Global, capacity: Option<usize>) -> Result<Self, NewError>
        ensures capacity { IfOk result (λ r. r ≡ capacity) }
        ensures large { IsErrOf result NewError.TooLarge ↔ (capacity ≡ Some last_word) }
    {
        let inner = Inner::new(alloc, capacity)?;
        Ok(Recorded {
            inner: Mutex::new(inner),
            capacity,
            alloc,
        })
    }

    /// Draws the next party's pass: numbers begin at 0 and rise by one. It waits for the lock.
    /// Example: `channel.pass(rt)?.party()` answers `0`, and `1` for the pass that is drawn next.
    ///
    /// # Errors
    /// `TooMany` where u32::MAX passes were drawn.
    pub fn pass<R: Wait>(&self, rt: &R) -> Result<Pass<T>, TooMany>
        ensures { IfOk result (λ p. p ≡ newcomer p.party) }
    {
        let party = self.inner.lock(rt).next_party()?;
        Ok(Pass::new(self.alloc, party))
    }

    /// Ends the recorded channel and gives its journal, where the passes' lists agree with it.
    ///
    /// They agree exactly if no two passes have one party, every party of the journal has a pass, and each pass's
    /// list is what the journal has of its party, at the places kept, none of them before what the pass had seen. The
    /// journal is then one legal history of one line of messages, with each pass's calls in it, in its own order,
    /// after all that it had seen or heard; its events lead from a new channel to what was told, so that each of
    /// `kanal_journal::laws` holds of it. It asks for no memory and never waits.
    ///
    /// The premise is that `==` of messages calls only the same value equal.
    ///
    /// # Errors
    /// `Mismatch` otherwise, with the channel and the passes as they were.
    ///
    /// # Examples
    /// ```text
    /// match channel.finish(passes) {
    ///     Ok(journal)                          the history, checked
    ///     Err((Mismatch, channel, passes))     a pass is missing, or of another channel
    /// }
    /// ```
    pub fn finish(
        self,
        passes: Vec<Pass<T>>,
    ) -> Result<Journal<T>, (Mismatch, Recorded<T>, Vec<Pass<T>>)>
    where
        T: Eq,
        requires { IsIdentity T.eq }
        ensures finished { IfOk result (λ j. FinishPost self passes.items j) }
        ensures leads { IfOk result (λ j. IsLedTo self j) }
        ensures paired { IfOk result (λ j. (n : ℕ) → Paired (until n (journal_history j))) }
        ensures count { IfOk result (λ j. sum_by (λ p. length p.notes) passes.items
            ≡ length j.entries.items) }
        ensures mismatch { IfErr result (λ e. (e.1 ≡ self) × (e.2 ≡ passes)) }
    {
        let Recorded {
            inner,
            capacity,
            alloc,
        } = self;
        match inner.into_inner().finish(capacity, passes.as_slice()) {
            Ok(journal) => Ok(journal),
            Err(inner) => {
                let recorded = Recorded {
                    inner: Mutex::new(inner),
                    capacity,
                    alloc,
                };
                Err((Mismatch, recorded, passes))
            },
        }
    }
}
