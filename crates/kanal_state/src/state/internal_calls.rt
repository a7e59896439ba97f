//! The internal calls: of a handle that is gone, and of a wait that was left.
//!
//! They are made here alone: what a handle's drop or a notice counts out, it counts out by such a call.
ghost use Rattle.std.specs.Prelude.{◌≡◌, false, IfNone, IfSome, Some, is_some};
ghost use Rattle.kanal_core.specs.Channel.{line_of};
ghost use Rattle.kanal_core.specs.Tickets.{number_of};
ghost use Rattle.kanal_core.specs.Waiters.{IsPlaced, waiter_of, with_w, without};
ghost use Rattle.kanal_events.specs.Leaving.{Leave, gone_of};
ghost use Rattle.kanal_events.specs.Steps.{Tells};
ghost use Rattle.kanal_events.specs.StepResult.{not_waiting, settled_of, told_of, withdrawn};
ghost use Rattle.kanal_state.specs.Calls.{IsDrop};
ghost use Rattle.kanal_state.specs.Entries.{call_from, withdrawal};
ghost use Rattle.kanal_state.specs.HistoryRelations.{HaveShown};
ghost use Rattle.kanal_state.specs.Counts.{count_of, gone_handles, one_less, ticket_of, were_left};
ghost use Rattle.kanal_state.specs.Renewing.{TakesNode};
ghost use Rattle.kanal_state.specs.WaiterHandles.{HaveLeft};

use super::State;
use super::handle_count::one_less;
use super::recording::{Asked, CallEntry, WithdrawalEntry};
use crate::History;
use crate::counted::{CountedHandle, CountedWait, GoneHandles, GoneWaits};
use crate::released::{Deferred, Released};
use crate::side::OfSide;
use crate::waiter_handle::{Core, LeftWaits, ReservedNode, WaiterHandle};
use kanal_core::internal::{Ticket, Waiter};
use kanal_events::event::Event;
use kanal_events::step_result::StepResult;
use kanal_events::steps;
use std::alloc::Global;
use std::collections::LinkedList;
use std::marker::{Model, PhantomData};
use std::snapshot::Snapshot;

/// A bound that is never reached; it gives the loop its measure.
const MOST: u64 = 1 << 62;

/// What the drop of a last handle ended, with what was seen of it. It has to be told. Contracts see what the
/// step told.
pub struct DropResult<T, H: History<T>> {
    made: StepResult<T, WaiterHandle<T, H>>,
    prefix: H::Prefix,
}

impl<T, H: History<T>> Model for DropResult<T, H> {
    ghost use Rattle.kanal_events.specs.declared.step_result.StepResult.{StepResult};
    ghost use Rattle.kanal_events.specs.StepResult.{settled_of};
    ghost use Rattle.kanal_state.specs.HistoryRelations.{HaveShown};
    ghost use Rattle.kanal_state.specs.Renewing.{Brought};

    ghost Value = { StepResult T Brought };

    ghost view = { λ g. g.made };

    ghost invariant = { λ g. HaveShown H.shows g.prefix (settled_of g.made) };
}

impl<T: Drop, H: History<T>> DropResult<T, H> {
    /// What was made, and what was seen of it, once the lock was released.
    pub fn into_parts(self, _released: &Released) -> (StepResult<T, WaiterHandle<T, H>>, H::Prefix)
        ensures made { result.0 ≡ self }
        ensures seen { HaveShown H.shows result.1 (settled_of result.0) }
    {
        let DropResult { made, prefix } = self;
        (made, prefix)
    }
}

/// What the notices of one kind took out of the core, if anything. Only the call that applies those notices makes
/// it: whoever has one of each kind has had all of them applied. Contracts see what it is.
pub struct TakenOut<K, X> {
    inside: Option<X>,
    kind: PhantomData<K>,
}

impl<K, X> Model for TakenOut<K, X> {
    ghost use Rattle.std.specs.Prelude.{Option};

    ghost Value = { Option X };

    ghost view = { λ t. t.inside };
}

impl<K, X> TakenOut<K, X> {
    fn new(inside: Option<X>) -> Self
        ensures { result ≡ inside }
    {
        TakenOut {
            inside,
            kind: PhantomData,
        }
    }

    pub fn into_inner(self) -> Option<X>
        ensures { result ≡ self }
    {
        let TakenOut { inside, kind: _ } = self;
        inside
    }
}

fn take_node<T: Drop, H: History<T>>(
    core: &mut Core<T, H>,
    ticket: Ticket,
) -> Option<ReservedNode<T, H>>
    ensures line { line_of core.new ≡ line_of core.old }
    ensures taken { TakesNode ticket core.old.waiters core.new.waiters (is_some result) }
{
    core.waiting(ticket)?.take_node()
}

impl<T: Drop, H: History<T>> State<T, H> {
    fn make_internal(
        &mut self,
        log: &H::Log,
        event: Event<T>,
    ) -> (StepResult<T, WaiterHandle<T, H>>, H::Prefix)
        requires drops { IsDrop event }
        ensures made { H.internal_relations.appends self.old.0 self.new.0 (call_from event result.0) }
        ensures told { Tells self.old.1 event (told_of self.new.1 result.0) }
        ensures leave { Leave self.old.2 (gone_of result.0) self.new.2 }
        ensures seen { HaveShown H.shows result.1 (settled_of result.0) }
    {
        let asked = Snapshot::of(&event);
        let made = steps::make(&mut self.core, event);
        let history = &mut self.history;
        history.append_internal::<Asked<T>, StepResult<T, WaiterHandle<T, H>>, CallEntry>(
            log,
            &mut self.internal_pass,
            &asked,
            &made,
        );
        let prefix = H::internal_prefix(log, &mut self.internal_pass);
        (made, prefix)
    }

    fn withdraw_internal(
        &mut self,
        log: &H::Log,
        ticket: Ticket,
    ) -> Option<Waiter<T, WaiterHandle<T, H>>>
        ensures step { IfSome result (λ w. Tells self.old.1 (Event.Withdraw (number_of ticket))
            (withdrawn self.new.1 w.message)) }
        ensures made { IfSome result (λ w. H.internal_relations.appends self.old.0 self.new.0
            (withdrawal (number_of ticket) w.message)) }
        ensures nobody { IfNone result (IsPlaced ticket self.old.2
            → Tells self.old.1 (Event.Withdraw (number_of ticket)) (not_waiting self.old.1)) }
        ensures waiter { result ≡ waiter_of ticket self.old.2 }
        ensures others { self.new.2 ≡ without ticket self.old.2 }
        ensures same { IfNone result (self.new ≡ self.old) }
    {
        let waiter = steps::withdraw(&mut self.core, ticket)?;
        let history = &mut self.history;
        history.append_internal::<Ticket, Waiter<T, WaiterHandle<T, H>>, WithdrawalEntry>(
            log,
            &mut self.internal_pass,
            &ticket,
            &waiter,
        );
        Some(waiter)
    }

    /// Takes this wait back, if it still waits, as an internal call.
    pub fn leave(
        &mut self,
        log: &H::Log,
        counted: CountedWait,
    ) -> Option<Deferred<Waiter<T, WaiterHandle<T, H>>>>
        ensures step { IfSome result (λ w. Tells self.old.1
            (Event.Withdraw (number_of (ticket_of counted))) (withdrawn self.new.1 w.message)) }
        ensures waiter { result ≡ waiter_of (ticket_of counted) self.old.2 }
        ensures others { self.new.2 ≡ without (ticket_of counted) self.old.2 }
        ensures same { IfNone result (self.new ≡ self.old) }
    {
        let before = Snapshot::of(&self.internal_pass);
        let Some(waiter) = self.withdraw_internal(log, counted.ticket()) else {
            counted.missing::<T, H>(&self.core);
            return None;
        };
        counted.taken_back::<T, WaiterHandle<T, H>, H>(&before, &self.internal_pass, &waiter);
        Some(Deferred { inside: waiter })
    }

    fn handle_out<S: OfSide>(
        &mut self,
        log: &H::Log,
        counted: CountedHandle<S>,
    ) -> (StepResult<T, WaiterHandle<T, H>>, H::Prefix)
        ensures told { Tells self.old.1 (one_less S.side) (told_of self.new.1 result.0) }
        ensures leave { Leave self.old.2 (gone_of result.0) self.new.2 }
        ensures seen { HaveShown H.shows result.1 (settled_of result.0) }
    {
        let before = Snapshot::of(&self.internal_pass);
        let (made, prefix) = self.make_internal(log, one_less(S::side()));
        counted.count_out::<T, WaiterHandle<T, H>, H>(&before, &self.internal_pass, &made);
        (made, prefix)
    }

    /// Makes the drop of this handle; what that ended, with what was seen of it.
    pub fn drop_handle<S: OfSide>(
        &mut self,
        log: &H::Log,
        counted: CountedHandle<S>,
    ) -> DropResult<T, H>
        ensures told { Tells self.old.1 (one_less S.side) (told_of self.new.1 result) }
        ensures leave { Leave self.old.2 (gone_of result) self.new.2 }
    {
        let (made, prefix) = self.handle_out(log, counted);
        DropResult { made, prefix }
    }

    /// What makes the internal calls as it is now, for proofs alone.
    pub fn internal_pass(&self) -> Snapshot<H::InternalPass>
        ensures { result.value ≡ self.now.0 }
    {
        Snapshot::of(&self.internal_pass)
    }

    /// Makes the drops of these handles until the last one's of their side; what that ended, with what was seen
    /// of it, and those that are left, if their side has none.
    #[tactic(auto, using(crate::proofs::Counting::none_left))]
    pub fn drop_handles<S: OfSide>(
        &mut self,
        log: &H::Log,
        gone: GoneHandles<S>,
    ) -> (TakenOut<S, DropResult<T, H>>, GoneHandles<S>)
        ensures ended { IfSome result.0 (λ ended. Leave self.old.2 (gone_of ended) self.new.2) }
        ensures last { IfSome result.0 (λ _. count_of S.side self.new.1 ≡ 0) }
        ensures none { IfNone result.0 (self.new.2 ≡ self.old.2) }
        ensures all { IfNone result.0 (gone_handles result.1 ≡ 0) }
    {
        let mut gone = gone;
        while let Some(counted) = gone.next() {
            let is_last = self.count_of(S::side()) == 1;
            let (made, prefix) = self.handle_out(log, counted);
            if is_last {
                return (TakenOut::new(Some(DropResult { made, prefix })), gone);
            }
            drop(made);
        }
        (TakenOut::new(None), gone)
    }

    /// Withdraws all waits that were left, if there is a notice of one, and hands out their entries, the last that
    /// left first. It asks for no memory: each is kept in the reserved node that its handle brought. No clause says
    /// that these are all: who leaves does so in its cell, and at any moment.
    pub fn withdraw_left(
        &mut self,
        log: &H::Log,
        alloc: Global,
        waits: GoneWaits,
    ) -> TakenOut<GoneWaits, Deferred<LeftWaits<T, H>>>
        ensures left { IfSome result (λ left. HaveLeft self.old.2 left self.new.2) }
        ensures none { IfNone result (self.new ≡ self.old) }
        ensures sought { IfNone result (were_left waits ≡ false) }
    {
        if !waits.seek() {
            return TakenOut::new(None);
        }
        let left = self.withdraw_leavers(log, alloc);
        TakenOut::new(Some(Deferred { inside: left }))
    }

    fn withdraw_leavers(&mut self, log: &H::Log, alloc: Global) -> LeftWaits<T, H>
        ensures left { HaveLeft self.old.2 result self.new.2 }
    {
        let mut leavers = LinkedList::new(alloc);
        let mut found = self.core.first_waiter(|handle| handle.is_left());
        for _count in 0..MOST {
            let Some(ticket) = found else {
                return leavers;
            };
            found = self.core.next_waiter(ticket, |handle| handle.is_left());
            let Some(node) = take_node(&mut self.core, ticket) else {
                return leavers;
            };
            let Some(waiter) = self.withdraw_internal(log, ticket) else {
                unreachable!()
            };
            leavers = node.keep(waiter, leavers);
        }
        leavers
    }
}
