//! The list of those that wait, oldest first.
//!
//! A ticket has the place of its waiter's slot. A place is used again; the ticket's number then tells the two apart.
ghost use Rattle.std.specs.Prelude.{◌≡◌, ◌+◌, ◌≤◌, ◌↔◌, ℕ, [], ◌++◌, cond, true, drop, length, map, slice_get, IfErr, IfNone, IfOk, IfSome, option_copied};
ghost use Rattle.std.specs.Vec.{vec_capacity, vec_len};
ghost use Rattle.std.specs.Borrow.{sem};
ghost use Rattle.std.specs.Fn.{FnReturnsAt};
ghost use Rattle.std.specs.Option.{option_copied_mut, option_map};
ghost use Rattle.slab.specs.Slab.{get};
ghost use Rattle.kanal_core.specs.Calls.{TakesFirst, WaitsLast};
ghost use Rattle.kanal_core.specs.Links.{IsFree, IsHeld, IsOneOut, TakesMessageAt, first_place, has_ticket};
ghost use Rattle.kanal_core.specs.Visits.{RoseByAtMost, one_visit_more};
ghost use Rattle.kanal_core.specs.Waiters.{behind, brought, emptied, waiter_of, without, IsFirstWhere, receiver_first, sender_first};

use super::links::{end_with, end_without, set_after, set_before};
use super::outcome::{Ticket, Waiter};
use super::slots::{Slot, Slots};
use super::steps::Steps;
use std::alloc::Global;
use std::marker::{Brand, Model};
use std::mem;
use std::sync::ledger::Ledger;

#[derive(Drop)]
pub struct WaitList<T, W> {
    slots: Slots<T, W>,
    first: Option<usize>,
    last: Option<usize>,
}

impl<T, W> Model for WaitList<T, W> {
    ghost use Rattle.std.specs.Prelude.{List};
    ghost use Rattle.kanal_core.specs.declared.internal.outcome.Waiter.{Waiter};

    ghost Value = { List (Waiter T W) };

    ghost use Rattle.slab.specs.Slab.{slab_len};
    ghost use Rattle.kanal_core.specs.Links.{walk, IsLinked};

    ghost view = { λ l. walk (slab_len l.slots.slab) l.slots.slab l.first };

    ghost invariant = { λ l. IsLinked l.slots.slab l.first l.last
        (walk (slab_len l.slots.slab) l.slots.slab l.first) };
}

fn is_at<T, W, L: Ledger>(slots: &Slots<T, W>, ticket: Ticket, steps: &mut Steps<L>) -> bool
    ensures value { result ≡ has_ticket ticket (get slots.now.slab ticket.place) }
    ensures step { steps.new ≡ one_visit_more steps.old }
{
    match slots.get(ticket.place, steps) {
        Some(slot) => slot.waiter.ticket == ticket,
        None => false,
    }
}

fn passes<W, F: Fn(&W) -> bool>(test: &F, w: &W) -> bool
    requires { F.IsAlwaysCallable test.now }
    ensures { FnReturnsAt F.Fn test.now w.now result }
{
    test(w)
}

impl<T, W> WaitList<T, W> {
    ghost use Rattle.kanal_core.specs.ListLends.{list_lends_w};
    ghost use Rattle.kanal_core.specs.declared.internal.outcome.Waiter.{Waiter};

    pub fn new(alloc: Global) -> Self
        ensures { result ≡ [] }
    {
        WaitList {
            slots: Slots::new(alloc),
            first: None,
            last: None,
        }
    }

    #[inline]
    fn front(&self) -> Option<&Waiter<T, W>>
        ensures { option_copied result ≡ slice_get self.now 0 }
    {
        let mut steps = Steps::<Brand>::idle();
        let slot = self.slots.get(self.first?, &mut steps)?;
        Some(&slot.waiter)
    }

    #[inline(always)]
    pub fn is_empty(&self) -> bool
        ensures { (result ≡ true) ↔ (self.now ≡ []) }
    {
        self.len() == 0
    }

    #[inline]
    pub fn receiver_first(&self) -> bool
        ensures { result ≡ receiver_first self.now }
    {
        match self.front() {
            None => false,
            Some(waiter) => waiter.message.is_none(),
        }
    }

    #[inline]
    pub fn sender_first(&self) -> bool
        ensures { result ≡ sender_first self.now }
    {
        match self.front() {
            None => false,
            Some(waiter) => waiter.message.is_some(),
        }
    }

    #[inline(always)]
    fn len(&self) -> usize
        ensures { result ≡ length self.now }
    {
        self.slots.len()
    }

    pub fn senders_len(&self) -> usize
        ensures { result ≡ cond (sender_first self.now) (length self.now) 0 }
    {
        if self.sender_first() { self.len() } else { 0 }
    }

    pub fn push_back(
        &mut self,
        number: u64,
        message: Option<T>,
        w: W,
    ) -> Result<Ticket, (Option<T>, W)>
        ensures ok { IfOk result (λ ticket. WaitsLast number message w ticket self.old self.new) }
        ensures refused { IfErr result (λ back. (back.0 ≡ message) × (back.1 ≡ w)
            × (self.new ≡ self.old)) }
    {
        let mut steps = Steps::<Brand>::idle();
        if self.slots.reserve().is_err() {
            return Err((message, w));
        }
        let place = self.slots.vacant_place();
        let ticket = Ticket { number, place };
        let waiter = Waiter { ticket, message, w };
        self.slots.insert(Slot {
            waiter,
            before: self.last,
            after: None,
        });
        set_after(&mut self.slots, self.last, Some(place), &mut steps);
        self.first = end_with(self.first, place);
        self.last = Some(place);
        Ok(ticket)
    }

    fn unlink<L: Ledger>(&mut self, place: usize, steps: &mut Steps<L>) -> Option<Waiter<T, W>>
        ensures some { IfSome result (λ w. (w.ticket.place ≡ place)
            × IsOneOut self.old self.new w) }
        ensures none { IfNone result ((self.new ≡ self.old) × IsFree place self.old) }
        ensures step { RoseByAtMost 3 steps.old steps.new }
    {
        let Some(slot) = self.slots.try_remove(place, steps) else {
            return None;
        };
        let Slot {
            waiter,
            before,
            after,
        } = slot;
        self.first = end_without(before, after, self.first);
        self.last = end_without(after, before, self.last);
        set_after(&mut self.slots, before, after, steps);
        set_before(&mut self.slots, after, before, steps);
        Some(waiter)
    }

    pub fn pop_front(&mut self) -> Option<Waiter<T, W>>
        ensures { TakesFirst result self.old self.new }
    {
        let mut steps = Steps::<Brand>::idle();
        let place = self.first?;
        self.unlink(place, &mut steps)
    }

    /// Takes waiters out until one of them brings a message.
    pub fn next_message(&mut self) -> Option<T>
    where
        T: Drop,
        W: Drop,
        ensures { TakesFirst result (brought self.old) (brought self.new) }
    {
        while let Some(waiter) = self.pop_front() {
            let Waiter {
                ticket: _,
                message,
                w: _,
            } = waiter;
            if let Some(message) = message {
                return Some(message);
            }
        }
        None
    }

    /// Takes the message out of the waiter at the place, and names the place behind it.
    fn take_message(&mut self, place: usize) -> (Option<T>, Option<usize>)
        requires { IsHeld place self.old }
        ensures { TakesMessageAt place self.old result.0 result.1 self.new }
    {
        let mut steps = Steps::<Brand>::idle();
        match self.slots.get_mut(place, &mut steps) {
            None => unreachable!(),
            Some(slot) => {
                let message = slot.waiter.message.take();
                (message, slot.after)
            },
        }
    }

    pub fn move_messages(&mut self, into: &mut Vec<T>)
        requires { vec_len into.old + length self.old ≤ vec_capacity into.old }
        ensures moved { into.new.items ≡ into.old.items ++ brought self.old }
        ensures capacity { vec_capacity into.new ≡ vec_capacity into.old }
        ensures left { self.new ≡ map emptied self.old }
    {
        let mut at = self.first;
        for _ in 0..self.len() {
            let Some(place) = at else {
                return;
            };
            let (message, after) = self.take_message(place);
            if let Some(message) = message {
                into.push_reserved(message);
            }
            at = after;
        }
    }

    pub fn take_all(&mut self, alloc: Global) -> WaitList<T, W>
        ensures out { result ≡ self.old }
        ensures left { self.new ≡ [] }
    {
        mem::replace(self, WaitList::new(alloc))
    }

    pub fn remove<L: Ledger>(
        &mut self,
        ticket: Ticket,
        steps: &mut Steps<L>,
    ) -> Option<Waiter<T, W>>
        ensures value { result ≡ waiter_of ticket self.old }
        ensures others { self.new ≡ without ticket self.old }
        ensures visits { RoseByAtMost 4 steps.old steps.new }
    {
        let slot = self.slots.get(ticket.place, steps)?;
        if slot.waiter.ticket != ticket {
            return None;
        }
        self.unlink(ticket.place, steps)
    }

    pub fn waiting(&mut self, ticket: Ticket) -> Option<&mut W>
        ensures* writes_back { sem 𝓛 (list_lends_w T.row W.row self.entry ticket result) }
        ensures value { option_copied_mut result
            ≡ option_map (λ (x : Waiter T W). x.w) (waiter_of ticket self.old) }
    {
        let mut steps = Steps::<Brand>::idle();
        if !is_at(&self.slots, ticket, &mut steps) {
            return None;
        }
        Some(self.slots.w_mut(ticket.place, &mut steps))
    }

    fn first_from<F: Fn(&W) -> bool + Drop>(&self, from: Option<usize>, test: F) -> Option<Ticket>
        requires { F.IsAlwaysCallable test }
        ensures { (i : ℕ) → from ≡ first_place (drop i self.now)
            → IsFirstWhere (FnReturnsAt F.Fn test) (drop i self.now) result }
    {
        let mut steps = Steps::<Brand>::idle();
        let mut at = from;
        for _ in 0..self.slots.len() {
            let Some(place) = at else {
                return None;
            };
            let Some(slot) = self.slots.get(place, &mut steps) else {
                return None;
            };
            if passes(&test, &slot.waiter.w) {
                return Some(slot.waiter.ticket);
            }
            at = slot.after;
        }
        None
    }

    pub fn first_waiter<F: Fn(&W) -> bool + Drop>(&self, test: F) -> Option<Ticket>
        requires { F.IsAlwaysCallable test }
        ensures { IsFirstWhere (FnReturnsAt F.Fn test) self.now result }
    {
        self.first_from(self.first, test)
    }

    pub fn next_waiter<F: Fn(&W) -> bool + Drop>(&self, ticket: Ticket, test: F) -> Option<Ticket>
        requires { F.IsAlwaysCallable test }
        ensures { IsFirstWhere (FnReturnsAt F.Fn test) (behind ticket self.now) result }
    {
        let mut steps = Steps::<Brand>::idle();
        let slot = self.slots.get(ticket.place, &mut steps)?;
        if slot.waiter.ticket != ticket {
            return None;
        }
        self.first_from(slot.after, test)
    }
}
