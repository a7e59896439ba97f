//! What a waiter brings to the core: the end that settles its wait, and, for a task, a reserved node, in which its
//! entry is kept when it leaves by notice.
//!
//! What leaves the core is told or let go only after the lock was released.
ghost use Rattle.std.specs.Prelude.{◌≡◌, ◌<◌, ◌^◌, None, false, is_some, length, true, IfSome};
ghost use Rattle.kanal_cell.specs.CellRule.{HasNotSettled, MaySleep};
ghost use Rattle.kanal_cell.specs.CellEnds.{kept_waker, settle_cell, settle_view, wait_cell, wait_view};
ghost use Rattle.kanal_state.specs.Renewing.{Swaps};
ghost use Rattle.kanal_state.specs.WaiterHandles.{IsStored, SettlesWaiter};

mod reserved_node;

use crate::History;
use crate::released::Released;
use crate::wait_result::{Settler, WaitResult};
use futures::task::Waker;
use kanal_cell::signal;
use kanal_cell::signal::{SettleEnd, SettleProof, WaitEnd};
use kanal_core::internal::{ChannelInternal, Outcome, Waiter};
use kanal_events::step_result::Waits;
pub use reserved_node::{LeftWait, LeftWaits, ReservedNode};
use std::alloc::Global;
use std::collections::LinkedList;
use std::marker::Model;

/// The core of a channel whose waiters bring a `WaiterHandle` each.
pub type Core<T, H> = ChannelInternal<T, WaiterHandle<T, H>>;

/// A waiter's end of its cell, with the reserved node that keeps its entry when it leaves by notice.
///
/// A blocked call never leaves by notice, so what it brings has no reserved node, and asks for no memory.
#[derive(Drop)]
pub struct WaiterHandle<T, H: History<T>> {
    settler: Settler<T, H>,
    node: Option<ReservedNode<T, H>>,
}

impl<T, H: History<T>> Model for WaiterHandle<T, H> {
    ghost use Rattle.std.specs.Prelude.{is_some};
    ghost use Rattle.kanal_cell.specs.CellEnds.{kept_waker, settle_cell};
    ghost use Rattle.kanal_state.specs.Renewing.{Brought};

    ghost Value = { Brought };

    ghost view = { λ s. record { cell = settle_cell s.settler.end; waker = kept_waker s.settler.end; has_node = is_some s.node } };
}

impl<T: Drop, H: History<T>> Waits<T> for WaiterHandle<T, H> {
    type Seen = H::Prefix;

    type Evidence = SettleProof<WaitResult<T, H>>;

    type Released = Released;

    ghost shows = { H.shows };

    ghost tells = { SettlesWaiter };

    fn tell(
        self,
        ticket: u64,
        outcome: Outcome<T>,
        seen: H::Prefix,
        _released: &Released,
    ) -> SettleProof<WaitResult<T, H>>
        requires seen { H.shows seen (ticket, outcome) }
        ensures told { SettlesWaiter result self (ticket, outcome) }
    {
        let WaiterHandle { settler, node } = self;
        drop(node);
        settler.settle(WaitResult::new(ticket, outcome, seen))
    }
}

/// What a blocked call waits with: the end at which it is told, and the waiter's handle for the core. `None` where
/// there is no memory for them.
#[inline]
pub fn ends<T: Drop, H: History<T>>(
    alloc: Global,
) -> Option<(WaitEnd<WaitResult<T, H>>, WaiterHandle<T, H>)>
    ensures fresh { IfSome result (λ ends. MaySleep (wait_view ends.0)) }
    ensures cell { IfSome result (λ ends. ends.1.cell ≡ wait_cell ends.0) }
{
    let (end, settling) = signal::new(alloc).ok()?;
    Some((end, WaiterHandle::of_call(settling)))
}

impl<T: Drop, H: History<T>> ReservedNode<T, H> {
    /// Keeps the entry that left, with its message and its cell, in front of those that left before.
    pub(crate) fn keep(
        self,
        waiter: Waiter<T, WaiterHandle<T, H>>,
        before: LeftWaits<T, H>,
    ) -> LeftWaits<T, H>
        requires few { length before < 2 ^ 62 }
        ensures kept { IsStored waiter before result }
    {
        let ReservedNode { mut place } = self;
        let Waiter {
            ticket: _,
            message,
            w,
        } = waiter;
        let WaiterHandle {
            settler,
            node: _node,
        } = w;
        let Some(free) = place.front_mut() else {
            unreachable!()
        };
        *free = Some(LeftWait { settler, message });
        let mut before = before;
        let Ok(()) = place.append(&mut before) else {
            unreachable!()
        };
        place
    }
}

impl<T: Drop, H: History<T>> WaiterHandle<T, H> {
    pub(crate) fn of_call(end: SettleEnd<WaitResult<T, H>>) -> Self
        requires { HasNotSettled (settle_view end) }
        ensures cell { result.cell ≡ settle_cell end }
        ensures waker { result.waker ≡ kept_waker end }
        ensures room { result.has_node ≡ false }
    {
        WaiterHandle {
            settler: Settler::new(end),
            node: None,
        }
    }

    /// The waiter's handle of a task, with the reserved node for its entry; `None` where there is no memory.
    pub fn of_task(alloc: Global, end: SettleEnd<WaitResult<T, H>>) -> Option<Self>
        requires { HasNotSettled (settle_view end) }
        ensures cell { IfSome result (λ waiter. waiter.cell ≡ settle_cell end) }
        ensures waker { IfSome result (λ waiter. waiter.waker ≡ kept_waker end) }
        ensures room { IfSome result (λ waiter. waiter.has_node ≡ true) }
    {
        let mut place = LinkedList::new(alloc);
        place.push_back(None).ok()?;
        Some(WaiterHandle {
            settler: Settler::new(end),
            node: Some(ReservedNode { place }),
        })
    }

    /// Swaps the waker that settling wakes for the spare one, if there is a spare.
    pub fn renew(&mut self, spare: &mut Option<Waker>)
        ensures swapped { Swaps spare.old self.old self.new spare.new }
    {
        if let Some(waker) = spare.take() {
            *spare = self.settler.set_waker(waker);
        }
    }

    pub(crate) fn take_node(&mut self) -> Option<ReservedNode<T, H>>
        ensures taken { is_some result ≡ self.old.has_node }
        ensures stays { self.new ≡ record self.old { has_node = false } }
    {
        self.node.take()
    }

    /// Whether the waiter has left, and its entry has a reserved node to be kept in.
    pub(crate) fn is_left(&self) -> bool
        ensures room { result ≡ true → self.now.has_node ≡ true }
    {
        self.node.is_some() && self.settler.is_left()
    }
}
