//! What a step told, as it leaves the core, and what it owes to those whose waits it settled.
//!
//! Only `steps` makes a value that settled a wait. The prover refuses to let one go that still owes a `Wakeup`.
ghost use Rattle.std.specs.Prelude.{◌≡◌, ℕ, [], ◌∷◌, None, true, MatchOption};
ghost use Rattle.kanal_core.specs.Channel.{settlements};
ghost use Rattle.kanal_core.specs.declared.internal.outcome.Outcome.{Outcome};
ghost use Rattle.kanal_events.specs.Steps.{is_done, is_no_memory};
ghost use Rattle.kanal_events.specs.StepResult.{cleared_of, made_of, owed_of, owed_by, reply_of, settled_of, who_of};

use crate::event::{Event, Reply};
use kanal_core::internal::{Cleared, Closing, Ended, Outcome, Settled, Ticket};
use std::snapshot::Snapshot;

/// What a vector held before a drain and after it, for proofs alone. It has no bytes.
#[derive(Drop)]
pub struct DrainSnapshot<T> {
    pub before: Snapshot<Vec<T>>,
    pub after: Snapshot<Vec<T>>,
}

/// Who waits, as the core has it: it can be told what became of its wait.
pub trait Waits<T>: Drop {
    /// What it is told beside that: what a pass has seen of a history.
    type Seen: Drop;
    /// What shows that it was told.
    type Evidence: Drop;
    /// What shows that the lock of the core is released.
    type Released: Drop;

    /// What was seen has it that a call settled the ticket so.
    ghost shows: { Self.Seen → ℕ × Outcome T → Type 0 };

    /// Who waits was told that its ticket was settled so.
    ghost tells: { Self.Evidence → Self → ℕ × Outcome T → Type 0 };

    /// Tells who waits, under the ticket of this number, what became of the wait.
    fn tell(
        self,
        ticket: u64,
        outcome: Outcome<T>,
        seen: Self::Seen,
        released: &Self::Released,
    ) -> Self::Evidence
        requires seen { shows seen (ticket, outcome) }
        ensures told { tells result self (ticket, outcome) };
}

/// A wait that was settled, and is owed to who waits.
pub struct Wakeup<T, W> {
    settled: Settled<T, W>,
    is_told: bool,
}

impl<T: Drop, W: Drop> Drop for Wakeup<T, W> {
    fn drop(self)
        requires told { self.is_told ≡ true }
    {
        let Wakeup {
            settled,
            is_told: _,
        } = self;
        drop(settled);
    }
}

impl<T: Drop, W: Drop> Wakeup<T, W> {
    #[inline(always)]
    pub(crate) fn new(settled: Settled<T, W>) -> Self
        ensures { result.settled ≡ settled }
    {
        Wakeup {
            settled,
            is_told: false,
        }
    }

    #[inline(always)]
    pub(crate) fn from_settled(settled: Option<Settled<T, W>>) -> Option<Self>
        ensures { owed_by result ≡ settlements settled }
    {
        match settled {
            Some(settled) => Some(Wakeup::new(settled)),
            None => None,
        }
    }
}

impl<T: Drop, W: Waits<T>> Wakeup<T, W> {
    /// Tells who waits what became of the wait, with what was seen of it. The lock is released.
    #[cold]
    pub fn tell(self, seen: W::Seen, released: &W::Released) -> W::Evidence
        requires seen { W.shows seen (owed_of self) }
        ensures told { W.tells result (who_of self) (owed_of self) }
    {
        let Wakeup {
            settled,
            is_told: _,
        } = self;
        let Settled { ticket, w, outcome } = settled;
        w.tell(ticket.number(), outcome, seen, released)
    }
}

impl<T: Drop> Wakeup<T, ()> {
    /// The ticket's number, and what became of its wait, where nobody is there to be told.
    pub fn into_settlement(self) -> (u64, Outcome<T>)
        ensures { result ≡ owed_of self }
    {
        let Wakeup {
            settled,
            is_told: _,
        } = self;
        let Settled {
            ticket,
            w: (),
            outcome,
        } = settled;
        (ticket.number(), outcome)
    }
}

enum Leaving<T, W> {
    One(Reply<T>, Option<Settled<T, W>>),
    All(Reply<T>, Ended<T, W>),
    Shut(Closing<T, W>),
    Drained(usize, Ended<T, W>, DrainSnapshot<T>),
}

/// What a step of the core told. The waits that it settled leave it by `next` alone.
pub struct StepResult<T, W> {
    leaving: Leaving<T, W>,
}

impl<T: Drop, W: Drop> Drop for StepResult<T, W> {
    fn drop(self)
        requires nobody { settled_of self ≡ [] }
    {
        let StepResult { leaving } = self;
        match leaving {
            Leaving::One(reply, settled) => {
                drop(reply);
                drop(settled);
            },
            Leaving::All(reply, ended) => {
                drop(reply);
                drop(ended);
            },
            Leaving::Shut(closing) => drop(closing),
            Leaving::Drained(_count, ended, moved) => {
                drop(ended);
                drop(moved);
            },
        }
    }
}

impl<T: Drop, W: Drop> StepResult<T, W> {
    /// A reply that settles no wait.
    pub fn replied(reply: Reply<T>) -> Self
        ensures { result ≡ record { leaving = Leaving.One reply None } }
    {
        StepResult::one(reply, None)
    }

    #[inline(always)]
    pub(crate) fn one(reply: Reply<T>, settled: Option<Settled<T, W>>) -> Self
        ensures { result ≡ record { leaving = Leaving.One reply settled } }
    {
        StepResult {
            leaving: Leaving::One(reply, settled),
        }
    }

    pub(crate) fn all(reply: Reply<T>, ended: Ended<T, W>) -> Self
        ensures { result ≡ record { leaving = Leaving.All reply ended } }
    {
        StepResult {
            leaving: Leaving::All(reply, ended),
        }
    }

    pub(crate) fn shut(closing: Closing<T, W>) -> Self
        ensures { result ≡ record { leaving = Leaving.Shut closing } }
    {
        StepResult {
            leaving: Leaving::Shut(closing),
        }
    }

    pub(crate) fn drained(count: usize, ended: Ended<T, W>, moved: DrainSnapshot<T>) -> Self
        ensures { result ≡ record { leaving = Leaving.Drained count ended moved } }
    {
        StepResult {
            leaving: Leaving::Drained(count, ended, moved),
        }
    }

    /// Hands out the next wait that it settled, the oldest first.
    pub fn next(&mut self) -> Option<Wakeup<T, W>>
        ensures next { MatchOption result ((settled_of self.old ≡ []) × (settled_of self.new ≡ []))
            (λ o. settled_of self.old ≡ owed_of o ∷ settled_of self.new) }
        ensures reply { reply_of self.new ≡ reply_of self.old }
        ensures cleared { cleared_of self.new ≡ cleared_of self.old }
    {
        let settled = match &mut self.leaving {
            Leaving::One(_reply, settled) => settled.take(),
            Leaving::All(_reply, ended) => ended.next(),
            Leaving::Shut(closing) => closing.ended.next(),
            Leaving::Drained(_count, ended, _moved) => ended.next(),
        };
        match settled {
            Some(settled) => Some(Wakeup::new(settled)),
            None => None,
        }
    }

    /// The reply, and the messages that a close cleared, once no wait is in it.
    pub fn into_parts(self) -> (Reply<T>, Option<Cleared<T>>)
        requires nobody { settled_of self ≡ [] }
        ensures reply { result.0 ≡ reply_of self }
        ensures cleared { MatchOption result.1 (cleared_of self ≡ []) (λ c. cleared_of self ≡ c) }
    {
        let StepResult { leaving } = self;
        match leaving {
            Leaving::One(reply, settled) => {
                drop(settled);
                (reply, None)
            },
            Leaving::All(reply, ended) => {
                drop(ended);
                (reply, None)
            },
            Leaving::Shut(closing) => {
                let Closing { cleared, ended } = closing;
                let count = cleared.len();
                drop(ended);
                (Reply::Cleared(count), Some(cleared))
            },
            Leaving::Drained(count, ended, moved) => {
                drop(ended);
                drop(moved);
                (Reply::Drained(count), None)
            },
        }
    }

    /// Whether the reply says that there was no memory.
    pub fn lacks_memory(&self) -> bool
        ensures { result ≡ is_no_memory (reply_of self.now) }
    {
        match &self.leaving {
            Leaving::One(reply, _settled) => reply.is_no_memory(),
            Leaving::All(reply, _ended) => reply.is_no_memory(),
            Leaving::Shut(_closing) => false,
            Leaving::Drained(_count, _ended, _moved) => false,
        }
    }

    /// Whether the reply says that what was asked was done: a clone, a drop or a seal.
    pub fn is_done(&self) -> bool
        ensures { result ≡ is_done (reply_of self.now) }
    {
        match &self.leaving {
            Leaving::One(reply, _settled) => reply.is_done(),
            Leaving::All(reply, _ended) => reply.is_done(),
            Leaving::Shut(_closing) => false,
            Leaving::Drained(_count, _ended, _moved) => false,
        }
    }
}

/// What a send or a receive told that was answered at once: its reply, and at most one wait that it settled.
/// It is a `StepResult` that takes fewer bytes.
pub struct FastResult<T, W> {
    reply: Reply<T>,
    settled: Option<Settled<T, W>>,
}

impl<T: Drop, W: Drop> Drop for FastResult<T, W> {
    fn drop(self)
        requires nobody { settled_of (made_of self) ≡ [] }
    {
        let FastResult { reply, settled } = self;
        drop(reply);
        drop(settled);
    }
}

impl<T: Drop, W: Drop> FastResult<T, W> {
    #[inline(always)]
    pub(crate) fn new(reply: Reply<T>, settled: Option<Settled<T, W>>) -> Self
        ensures { made_of result ≡ record { leaving = Leaving.One reply settled } }
    {
        FastResult { reply, settled }
    }

    /// The reply, and who is owed what became of his wait.
    #[inline(always)]
    pub fn into_parts(self) -> (Reply<T>, Option<Wakeup<T, W>>)
        ensures reply { result.0 ≡ reply_of (made_of self) }
        ensures owed { owed_by result.1 ≡ settled_of (made_of self) }
    {
        let FastResult { reply, settled } = self;
        (reply, Wakeup::from_settled(settled))
    }

    /// As the result of any step.
    #[inline(always)]
    pub fn into_made(self) -> StepResult<T, W>
        ensures { result ≡ made_of self }
    {
        let FastResult { reply, settled } = self;
        StepResult::one(reply, settled)
    }

    #[inline(always)]
    pub fn lacks_memory(&self) -> bool
        ensures { result ≡ is_no_memory (reply_of (made_of self.now)) }
    {
        self.reply.is_no_memory()
    }
}

/// What the caller of a call that may wait has in hand then.
#[derive(Drop)]
pub enum Placement<W> {
    /// The ticket under which the call waits.
    Ticket(Ticket),
    /// What was brought for a wait: the call doesn't wait.
    Back(W),
}
