//! A core on which events are made, and all that it told along them but for the replies.
//!
//! `run` and the recorded state keep the replies, each in its own list, and make every event through
//! `Running::answer`: no other module makes an event, notes what it told or writes to a field here.
ghost use Rattle.std.specs.Prelude.{◌≡◌, ◌↔◌, ◌+◌, ◌≤◌, IfOk, IsErrOf, Some, vec_capacity};
ghost use Rattle.kanal_core.specs.Channel.{opening};
ghost use Rattle.kanal_core.specs.Line.{last_word};
ghost use Rattle.kanal_journal.specs.Running.{RunningStep, IsOpened, IsWithinEvents, HasRoom, HasSameRoom, IsSame};

use super::calls::JournalCore;
use super::handles::Handles;
use super::report::Settlement;
use super::{calls, collect};
use kanal_core::error::NewError;
use kanal_core::internal::{ChannelInternal, Ticket};
use kanal_events::event::{Event, Reply};
use std::alloc::{AllocError, Global};

#[derive(Drop)]
pub(super) struct Running<T> {
    pub(super) core: JournalCore<T>,
    tickets: Vec<Ticket>,
    handles: Handles,
    pub(super) settled: Vec<Settlement<T>>,
    pub(super) drained: Vec<T>,
    pub(super) cleared: Vec<T>,
}

fn channel<T: Drop>(alloc: Global, capacity: Option<usize>) -> Result<JournalCore<T>, NewError>
    ensures new { IfOk result (λ c. c ≡ opening capacity) }
    ensures large { IsErrOf result NewError.TooLarge ↔ (capacity ≡ Some last_word) }
{
    match capacity {
        None => Ok(ChannelInternal::unbounded(alloc)),
        Some(limit) => ChannelInternal::new(alloc, limit),
    }
}

pub(super) fn make_room<X>(list: &mut Vec<X>, total: usize) -> Result<(), AllocError>
    ensures items { list.new.items ≡ list.old.items }
    ensures room { IfOk result (λ _. total ≤ vec_capacity list.new) }
{
    list.try_reserve(total.saturating_sub(list.len()))
}

impl<T: Drop> Running<T> {
    pub(super) fn new(alloc: Global, capacity: Option<usize>) -> Result<Self, NewError>
        ensures opened { IfOk result (λ r. IsOpened capacity r) }
        ensures large { IsErrOf result NewError.TooLarge ↔ (capacity ≡ Some last_word) }
    {
        Ok(Running {
            core: channel(alloc, capacity)?,
            tickets: Vec::new(alloc),
            handles: Handles::new(),
            settled: Vec::new(alloc),
            drained: Vec::new(alloc),
            cleared: Vec::new(alloc),
        })
    }

    pub(super) fn reserve(&mut self, total: usize) -> Result<(), AllocError>
        ensures same { IsSame self.old self.new }
        ensures room { IfOk result (λ _. HasRoom total self.new) }
    {
        make_room(&mut self.tickets, total)?;
        make_room(&mut self.settled, total)?;
        make_room(&mut self.drained, total)?;
        make_room(&mut self.cleared, total)
    }

    pub(super) fn answer(&mut self, number: usize, event: Event<T>) -> Reply<T>
        requires within { IsWithinEvents number self.old }
        requires room { HasRoom (number + 1) self.old }
        ensures noted { RunningStep number self.old event result self.new }
        ensures within { IsWithinEvents (number + 1) self.new }
        ensures room { HasSameRoom self.old self.new }
    {
        self.core.holds();
        let made = calls::answer(
            &mut self.core,
            &mut self.tickets,
            &mut self.handles,
            &mut self.drained,
            event,
        );
        collect::note(number, made, &mut self.settled, &mut self.cleared)
    }
}
