//! The slots that waiters stand in, each way to one of them counted.
//!
//! A slot in use is reached by `get`, `get_mut` and `try_remove` alone. Each is a visit, which raises the lent
//! count by one.
ghost use Rattle.std.specs.Prelude.{◌≡◌, ◌+◌, [], IsSome, IfNone, OnOk, OnSome, None, Some, option_copied};
ghost use Rattle.std.specs.Borrow.{sem};
ghost use Rattle.std.specs.Option.{option_copied_mut, option_map};
ghost use Rattle.slab.specs.Slab.{HasRoomFor, Updates, get, slab_len};
ghost use Rattle.kanal_core.specs.declared.internal.slots.Slot.{Slot};
ghost use Rattle.kanal_core.specs.Visits.{one_visit_more};

use super::outcome::Waiter;
use super::steps::Steps;
use slab::Slab;
use std::alloc::{AllocError, Global};
use std::sync::ledger::Ledger;

#[derive(Drop)]
pub struct Slot<T, W> {
    pub waiter: Waiter<T, W>,
    pub before: Option<usize>,
    pub after: Option<usize>,
}

impl<T, W> Slot<T, W> {
    ghost use Rattle.kanal_core.specs.SlotLends.{lends_own_w};

    fn w_mut(&mut self) -> &mut W
        ensures* writes_back { sem 𝓛 (lends_own_w T.row W.row self.entry result) }
        ensures value { result.now ≡ self.old.waiter.w }
    {
        let waiter = &mut self.waiter;
        &mut waiter.w
    }
}

/// Slots at places that are numbered from 0. A place is used again once its slot is out.
#[derive(Drop)]
pub struct Slots<T, W> {
    slab: Slab<Slot<T, W>>,
}

impl<T, W> Slots<T, W> {
    ghost use Rattle.kanal_core.specs.SlotsLends.{lends_slot, slots_lends_w};

    pub fn new(alloc: Global) -> Self
        ensures { result.slab.slots ≡ [] }
    {
        Slots {
            slab: Slab::new(alloc),
        }
    }

    #[inline(always)]
    pub fn len(&self) -> usize
        ensures { result ≡ slab_len self.now.slab }
    {
        self.slab.len()
    }

    pub fn reserve(&mut self) -> Result<(), AllocError>
        ensures room { OnOk result (HasRoomFor self.new.slab 1) }
        ensures slots { self.new.slab.slots ≡ self.old.slab.slots }
        ensures place { self.new.slab.vacant_key ≡ self.old.slab.vacant_key }
    {
        self.slab.reserve(1)
    }

    pub fn vacant_place(&self) -> usize
        ensures value { result ≡ self.now.slab.vacant_key }
        ensures vacant { get self.now.slab result ≡ None }
    {
        self.slab.vacant_key()
    }

    pub fn insert(&mut self, slot: Slot<T, W>)
        requires { HasRoomFor self.old.slab 1 }
        ensures updates { Updates self.old.slab self.new.slab self.old.slab.vacant_key (Some slot) }
        ensures len { slab_len self.new.slab ≡ slab_len self.old.slab + 1 }
    {
        self.slab.insert_reserved(slot);
    }

    pub fn get<L: Ledger>(&self, place: usize, steps: &mut Steps<L>) -> Option<&Slot<T, W>>
        ensures value { option_copied result ≡ get self.now.slab place }
        ensures step { steps.new ≡ one_visit_more steps.old }
    {
        steps.tick();
        self.slab.get(place)
    }

    pub fn get_mut<L: Ledger>(
        &mut self,
        place: usize,
        steps: &mut Steps<L>,
    ) -> Option<&mut Slot<T, W>>
        ensures* writes_back { sem 𝓛 (lends_slot T.row W.row self.entry place result) }
        ensures value { option_copied_mut result ≡ get self.old.slab place }
        ensures step { steps.new ≡ one_visit_more steps.old }
    {
        steps.tick();
        self.slab.get_mut(place)
    }

    pub fn w_mut<L: Ledger>(&mut self, place: usize, steps: &mut Steps<L>) -> &mut W
        requires { IsSome (get self.old.slab place) }
        ensures* writes_back { sem 𝓛 (slots_lends_w T.row W.row self.entry place result) }
        ensures value { Some result.now
            ≡ option_map (λ (s : Slot T W). s.waiter.w) (get self.old.slab place) }
        ensures step { steps.new ≡ one_visit_more steps.old }
    {
        match self.get_mut(place, steps) {
            Some(slot) => slot.w_mut(),
            None => unreachable!(),
        }
    }

    pub fn try_remove<L: Ledger>(
        &mut self,
        place: usize,
        steps: &mut Steps<L>,
    ) -> Option<Slot<T, W>>
        ensures value { result ≡ get self.old.slab place }
        ensures updates { Updates self.old.slab self.new.slab place None }
        ensures len { OnSome result (slab_len self.new.slab + 1 ≡ slab_len self.old.slab) }
        ensures absent { IfNone result (self.new.slab ≡ self.old.slab) }
        ensures step { steps.new ≡ one_visit_more steps.old }
    {
        steps.tick();
        self.slab.try_remove(place)
    }
}
