//! What the handles of a channel share: the lock round the core and its history, and the notices.
//!
//! A call that may not wait leaves a notice where the lock is held, which whoever gets the lock next applies.
//! `locked` gets the lock; where it finds notices it may let the lock go, to have them applied first. After a
//! step `unlock` alone releases the lock, and it alone wakes.
ghost use Rattle.std.specs.Prelude.{◌≡◌, IsErrOf};
ghost use Rattle.kanal_cell.specs.CellEnds.{wait_view};
ghost use Rattle.kanal_core.specs.Channel.{line_of};
ghost use Rattle.kanal_channel.specs.Locks.{HasOneOfEach};
ghost use Rattle.kanal_channel.specs.Starts.{HasLeftCell};

mod locked;
mod unlock;

use kanal_cell::WaitPolicy;
use kanal_cell::signal::WaitEnd;
use kanal_core::error::NewError;
use kanal_core::mutex::Mutex;
use kanal_state::{
    Core, CountedHandle, CountedWait, FirstHandles, History, Notices, OfSide, State, WaitResult,
};
pub use locked::{Locked, Pending};
use std::alloc::Global;
use std::sync::Arc;

/// A channel, as its handles share it: the lock round the core and its history, what the memory of a wait is
/// asked of, whether a message may lie in a buffer, how blocked calls wait, and the notices.
///
/// It goes with its state and its notices together.
pub struct Shared<T, H: History<T>> {
    pub(crate) log: H::Log,
    state: Mutex<State<T, H>>,
    pub(crate) alloc: Global,
    pub(crate) has_buffer: bool,
    pub(crate) policy: WaitPolicy,
    notices: Notices,
}

impl<T: Drop, H: History<T>> Drop for Shared<T, H> {
    fn drop(self) {
        let Shared {
            log,
            state,
            alloc: _,
            has_buffer: _,
            policy,
            notices,
        } = self;
        state.into_inner().end(notices);
        drop(log);
        drop(policy);
    }
}

impl<T: Drop, H: History<T>> Shared<T, H> {
    /// A free lock round the core and what is kept of the calls that led to its line, with what makes
    /// the internal calls, and no notices. The memory of waits is asked of `alloc`.
    pub fn new(
        core: Core<T, H>,
        history: H,
        internal_pass: H::InternalPass,
        log: H::Log,
        alloc: Global,
    ) -> Self
        requires core { H.stands history (line_of core) }
    {
        let places = core.capacity();
        Shared::round(State::new(core, history, internal_pass), places, log, alloc)
    }

    fn round(state: State<T, H>, places: usize, log: H::Log, alloc: Global) -> Self {
        Shared {
            log,
            state: Mutex::new(state),
            alloc,
            has_buffer: places > 0,
            policy: WaitPolicy::new(places),
            notices: Notices::new(),
        }
    }

    /// As `new`, for handles: with the tokens of the channel's first sender and first receiver, which the core counts.
    ///
    /// # Errors
    /// `NoMemory` where there is no memory for the channel.
    pub fn with_handles(
        core: Core<T, H>,
        history: H,
        internal_pass: H::InternalPass,
        log: H::Log,
        alloc: Global,
    ) -> Result<(Arc<Self>, FirstHandles), NewError>
        requires core { H.stands history (line_of core) }
        requires one_each { HasOneOfEach (line_of core) }
        ensures large { IsErrOf result NewError.TooLarge → ⊥ }
    {
        let places = core.capacity();
        let (state, first) = State::with_handles(core, history, internal_pass);
        let Ok(shared) = Arc::new(alloc, Shared::round(state, places, log, alloc)) else {
            return Err(NewError::NoMemory);
        };
        Ok((shared, first))
    }

    /// What all who share the channel share of what is kept of its calls.
    pub fn log(&self) -> &H::Log {
        &self.log
    }

    /// What the memory of waits is asked of.
    pub fn alloc(&self) -> Global {
        self.alloc
    }

    /// Whether a message may lie in a buffer: at every capacity but 0.
    pub fn has_buffer(&self) -> bool {
        self.has_buffer
    }

    /// How many waits were left while the lock was held, and not withdrawn yet. It never waits.
    #[doc(hidden)] // For tests of what stays in the line while the lock is held.
    pub fn left_waits(&self) -> u64 {
        self.notices.waits()
    }

    /// A handle goes away: it never waits.
    pub fn drop_handle<S: OfSide>(&self, counted: CountedHandle<S>) {
        match self.try_lock() {
            Some((locked, pending)) => {
                let mut state = locked.into_guard();
                let gone = state.drop_handle(&self.log, counted);
                self.unlock_dropped(state, pending, gone);
            },
            None => {
                let due = self.notices.add_handle(counted);
                self.drain_notices(due);
            },
        }
    }

    /// Gives up the wait of a future that has left its cell. It never waits.
    pub fn leave(&self, counted: CountedWait, end: WaitEnd<WaitResult<T, H>>)
        requires left { HasLeftCell (wait_view end) }
    {
        match self.try_lock() {
            Some((locked, pending)) => {
                let mut state = locked.into_guard();
                let found = state.leave(&self.log, counted);
                self.unlock_left(state, pending, found);
            },
            None => {
                let due = self.notices.add_wait(counted);
                self.drain_notices(due);
            },
        }
        drop(end);
    }
}
