//! A task's wakers: the name of what it waits for, and one that is in no entry.
//!
//! A waker wakes its task when it is dropped, so one that was displaced is kept.
ghost use Rattle.std.specs.Prelude.{◌≡◌, IfSome};
ghost use Rattle.futures.specs.Task.{Covers, Keeps};
ghost use Rattle.kanal_cell.specs.CellRule.{MaySleep};
ghost use Rattle.kanal_cell.specs.CellEnds.{wait_view};

use futures::task::{Context, Poll, Source, Waker};
use kanal_cell::signal;
use kanal_cell::signal::WaitEnd;
use kanal_channel::Shared;
use kanal_core::internal::Ticket;
use kanal_state::{History, WaitResult, WaiterHandle};
use std::alloc::Global;

/// The name of what a task waits for, and a waker that is in no entry: the next poll's, or the one that it
/// took the place of.
#[derive(Drop)]
pub(crate) struct Wakers {
    source: Source,
    spare: Option<Waker>,
}

impl Wakers {
    pub(crate) fn new() -> Self {
        Wakers {
            source: Source::new(),
            spare: None,
        }
    }

    /// The waker that is in no entry, which wakes its task when it is dropped.
    #[inline]
    pub(crate) fn into_spare(self) -> Option<Waker> {
        self.spare
    }

    /// A fresh cell whose settling wakes the task; `None` where there is no memory for it.
    pub(crate) fn cell<T: Drop, H: History<T>>(
        &self,
        alloc: Global,
        cx: &mut Context<'_>,
    ) -> Option<(WaitEnd<WaitResult<T, H>>, WaiterHandle<T, H>)>
        ensures fresh { IfSome result (λ cell. MaySleep (wait_view cell.0)) }
        ensures registered { IfSome result (λ _. Covers cx.new (λ s. s ≡ self.now.source.id)) }
        ensures kept { Keeps cx.old cx.new }
    {
        let (end, settling) = signal::new(alloc).ok()?;
        let mut waiter = WaiterHandle::of_task(alloc, settling)?;
        let mut waker = None;
        let _: Poll<()> = cx.register(&self.source, &mut waker);
        waiter.renew(&mut waker);
        Some((end, waiter))
    }

    /// Puts the task's waker into the entry of the wait with the ticket. Where the lock is held, or nobody
    /// waits with the ticket, it asks for another poll.
    pub(crate) fn renew<T: Drop, H: History<T>>(
        &mut self,
        shared: &Shared<T, H>,
        ticket: Ticket,
        cx: &mut Context<'_>,
    )
        ensures registered { Covers cx.new (λ s. s ≡ self.new.source.id) }
        ensures kept { Keeps cx.old cx.new }
        ensures source { self.new.source.id ≡ self.old.source.id }
    {
        let _: Poll<()> = cx.register(&self.source, &mut self.spare);
        if !self.swap(shared, ticket) {
            let _: Poll<()> = cx.yield_now();
        }
    }

    fn swap<T: Drop, H: History<T>>(&mut self, shared: &Shared<T, H>, ticket: Ticket) -> bool
        ensures source { self.new.source.id ≡ self.old.source.id }
    {
        let Some((mut locked, pending)) = shared.try_lock() else {
            return false;
        };
        let waits = locked.state.renew(ticket, &mut self.spare);
        shared.unlock_pending(locked, pending);
        waits
    }
}
