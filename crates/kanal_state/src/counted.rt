//! Zero-sized tokens: each counted handle and each wait has one, and the prover refuses to let it go.
//!
//! A token is counted out by evidence of the call that ended what it stands for, or into the notices. Nothing makes
//! one but a new channel, and the state, by evidence of a call.
ghost use Rattle.std.specs.Prelude.{◌≡◌, false, IfErr, IfNone, IfOk, IfSome, Ok};
ghost use Rattle.kanal_core.specs.Channel.{line_of};
ghost use Rattle.kanal_core.specs.Tickets.{number_of};
ghost use Rattle.kanal_core.specs.Waiters.{IsPlaced};
ghost use Rattle.kanal_events.specs.StepResult.{not_waiting};
ghost use Rattle.kanal_events.specs.Steps.{Tells};
ghost use Rattle.kanal_state.specs.Entries.{call_from, withdrawal};
ghost use Rattle.kanal_state.specs.Makes.{IsReplied};
ghost use Rattle.kanal_state.specs.Results.{counted_by};
ghost use Rattle.kanal_state.specs.Counts.{is_counted, one_less, one_more, ticket_of, waits};

mod notices;

use crate::History;
use crate::side::{OfSide, ReceiveSide, SendSide};
use crate::wait_result::WaitResult;
use crate::waiter_handle::Core;
use boxcar::tag::{Names, Tag};
use kanal_core::internal::{Outcome, Ticket, Waiter};
use kanal_events::event::Event;
use kanal_events::step_result::StepResult;
pub use notices::{GoneHandles, GoneWaits, MustDrain, Notices};
use std::marker::PhantomData;
use std::snapshot::Snapshot;

/// The kit's tag: it has no bytes, and threads may send and share it.
type Stands = Tag;

/// What a tag says that has to be counted out.
struct Standing;

impl Names<()> for Standing {
    ghost use Rattle.std.specs.Prelude.{[], ◌∷◌};

    ghost numbers = { λ _. 0 ∷ [] };
}

fn stands() -> Stands {
    Tag::of::<(), Standing>(&())
}

/// A handle of a side that is counted.
pub struct CountedHandle<S> {
    stands: Stands,
    side: PhantomData<S>,
}

pub type CountedSender = CountedHandle<SendSide>;

pub type CountedReceiver = CountedHandle<ReceiveSide>;

impl<S> Drop for CountedHandle<S> {
    fn drop(self)
        requires counted_out { is_counted self ≡ false }
    {
        let CountedHandle { stands, side: _ } = self;
        drop(stands);
    }
}

impl<S> CountedHandle<S> {
    fn new() -> Self {
        CountedHandle {
            stands: stands(),
            side: PhantomData,
        }
    }

    /// Counts the handle out into the notices of its side, which alone call this.
    fn notice(self) {
        let CountedHandle { stands, side: _ } = self;
        drop(stands);
    }
}

impl<S: OfSide> CountedHandle<S> {
    /// Counts a handle in: a call of this pass counted one more. The state alone calls this, once a call.
    pub(crate) fn count_in<T, H: History<T>>(before: &Snapshot<H::Pass>, after: &H::Pass) -> Self
        requires made { IsReplied H.relations before.now.value after.now (one_more S.side) counted_by (Ok tt) }
    {
        let _ = before;
        let _ = after;
        CountedHandle::new()
    }

    pub(crate) fn count_out<T, W, H: History<T>>(
        self,
        before: &Snapshot<H::InternalPass>,
        after: &H::InternalPass,
        made: &StepResult<T, W>,
    )
        requires made { H.internal_relations.appends before.now.value after.now (call_from (one_less S.side) made.now) }
    {
        let CountedHandle { stands, side: _ } = self;
        let _ = before;
        let _ = after;
        let _ = made;
        drop(stands);
    }
}

/// That the core under a new lock counts one sender and one receiver, for which nobody stands yet.
#[derive(Drop)]
pub struct FirstHandles(());

impl FirstHandles {
    pub(crate) fn new() -> Self {
        FirstHandles(())
    }

    /// The tokens of both.
    pub fn into_tokens(self) -> (CountedSender, CountedReceiver) {
        let FirstHandles(()) = self;
        (CountedHandle::new(), CountedHandle::new())
    }
}

/// That a call waits with this ticket. It is counted out by evidence that a call took the wait back, that
/// nobody waits with the ticket, or that who waits was told what became of the wait; or into the notices.
pub struct CountedWait {
    ticket: Ticket,
    stands: Stands,
}

/// That the result which came to a wait was another's. Only `CountedWait::learn` makes it.
#[derive(Drop)]
pub struct OtherResult(());

impl Drop for CountedWait {
    fn drop(self)
        requires counted_out { waits self ≡ false }
    {
        let CountedWait { ticket: _, stands } = self;
        drop(stands);
    }
}

impl CountedWait {
    /// One wait more. The state alone calls this, once a wait that it starts.
    pub(crate) fn new(ticket: Ticket) -> Self
        ensures ticket { ticket_of result ≡ ticket }
    {
        CountedWait {
            ticket,
            stands: stands(),
        }
    }

    #[inline]
    pub fn ticket(&self) -> Ticket
        ensures { result ≡ ticket_of self.now }
    {
        self.ticket
    }

    /// Counts the wait out into the notices, which alone call this.
    fn notice(self) {
        let CountedWait { ticket: _, stands } = self;
        drop(stands);
    }

    pub(crate) fn withdrawn<T, W, H: History<T>>(
        self,
        before: &Snapshot<H::Pass>,
        after: &H::Pass,
        waiter: &Waiter<T, W>,
    )
        requires made { H.relations.appends before.now.value after.now
            (withdrawal (number_of (ticket_of self)) waiter.now.message) }
    {
        let CountedWait { ticket: _, stands } = self;
        let _ = before;
        let _ = after;
        let _ = waiter;
        drop(stands);
    }

    pub(crate) fn taken_back<T, W, H: History<T>>(
        self,
        before: &Snapshot<H::InternalPass>,
        after: &H::InternalPass,
        waiter: &Waiter<T, W>,
    )
        requires made { H.internal_relations.appends before.now.value after.now
            (withdrawal (number_of (ticket_of self)) waiter.now.message) }
    {
        let CountedWait { ticket: _, stands } = self;
        let _ = before;
        let _ = after;
        let _ = waiter;
        drop(stands);
    }

    pub(crate) fn missing<T, H: History<T>>(self, core: &Core<T, H>)
        requires nobody { IsPlaced (ticket_of self) core.now.waiters → Tells (line_of core.now)
            (Event.Withdraw (number_of (ticket_of self))) (not_waiting (line_of core.now)) }
    {
        let CountedWait { ticket: _, stands } = self;
        let _ = core;
        drop(stands);
    }

    /// Consumes the token if `delivered` has its ticket; else returns it.
    ///
    /// A cell is settled for its own ticket. No type ties the cell to the ticket, so the two are compared; no
    /// run has shown that they differ.
    #[inline]
    pub fn told<T: Drop, H: History<T>>(self, delivered: &WaitResult<T, H>) -> Option<Self>
        ensures told { IfNone result (delivered.now.0 ≡ number_of (ticket_of self)) }
        ensures other { IfSome result (λ back. back ≡ self) }
    {
        if delivered.ticket() != self.ticket.number() {
            return Some(self);
        }
        let CountedWait { ticket: _, stands } = self;
        drop(stands);
        None
    }

    /// The pass learns what became of the wait, which is counted out.
    ///
    /// # Errors
    /// The wait, and that the result was another's: the pass has learnt nothing.
    pub fn learn<T: Drop, H: History<T>>(
        self,
        log: &H::Log,
        pass: &mut H::Pass,
        delivered: WaitResult<T, H>,
    ) -> Result<Outcome<T>, (Self, OtherResult)>
        ensures extends { IfOk result (λ _. H.relations.extends pass.old pass.new) }
        ensures settled { IfOk result (λ outcome.
            H.relations.saw_settled pass.new (number_of (ticket_of self), outcome)) }
        ensures other { IfErr result (λ back. (back.0 ≡ self) × (pass.new ≡ pass.old)) }
    {
        if let Some(counted) = self.told(&delivered) {
            return Err((counted, OtherResult(())));
        }
        let (outcome, prefix) = delivered.into_parts();
        H::learn(log, pass, prefix);
        Ok(outcome)
    }
}
