//! The links between slots: each names the place before it and the place after it.
ghost use Rattle.std.specs.Prelude.{◌≡◌, ℕ};
ghost use Rattle.slab.specs.Slab.{get, slab_len};
ghost use Rattle.kanal_core.specs.Links.{end_after, front_with, link_after, link_before};
ghost use Rattle.kanal_core.specs.Visits.{RoseByAtMost};

use super::slots::Slots;
use super::steps::Steps;
use std::sync::ledger::Ledger;

pub fn set_after<T, W, L: Ledger>(
    slots: &mut Slots<T, W>,
    at: Option<usize>,
    to: Option<usize>,
    steps: &mut Steps<L>,
)
    ensures slots { (p : ℕ) → get slots.new.slab p ≡ link_after at to p (get slots.old.slab p) }
    ensures len { slab_len slots.new.slab ≡ slab_len slots.old.slab }
    ensures step { RoseByAtMost 1 steps.old steps.new }
{
    if let Some(place) = at {
        if let Some(slot) = slots.get_mut(place, steps) {
            slot.after = to;
        }
    }
}

pub fn set_before<T, W, L: Ledger>(
    slots: &mut Slots<T, W>,
    at: Option<usize>,
    to: Option<usize>,
    steps: &mut Steps<L>,
)
    ensures slots { (p : ℕ) → get slots.new.slab p ≡ link_before at to p (get slots.old.slab p) }
    ensures len { slab_len slots.new.slab ≡ slab_len slots.old.slab }
    ensures step { RoseByAtMost 1 steps.old steps.new }
{
    if let Some(place) = at {
        if let Some(slot) = slots.get_mut(place, steps) {
            slot.before = to;
        }
    }
}

/// The end of a list that was `end`, once a waiter is out whose neighbors were these.
pub fn end_without(
    neighbor: Option<usize>,
    other: Option<usize>,
    end: Option<usize>,
) -> Option<usize>
    ensures { result ≡ end_after neighbor other end }
{
    match neighbor {
        Some(_) => end,
        None => other,
    }
}

/// The front of a list that was `front`, once a waiter stands behind all at this place.
pub fn end_with(front: Option<usize>, place: usize) -> Option<usize>
    ensures { result ≡ front_with front place }
{
    match front {
        Some(_) => front,
        None => Some(place),
    }
}
