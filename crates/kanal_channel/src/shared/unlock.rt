//! The ways out of the lock of a channel: it is released, what the notices took out and what the step settled is
//! settled, what left the core is dropped, and new notices are drained.
//!
//! No other module tells a waiter what became of its wait, and whoever tells shows that the lock was released.
ghost use Rattle.std.specs.Prelude.{◌≡◌};
ghost use Rattle.kanal_events.specs.StepResult.{made_of, owed_by, reply_of, settled_of};
ghost use Rattle.kanal_state.specs.HistoryRelations.{HaveSettled, HaveShown};

use super::Shared;
use super::locked::{Applied, Locked, Pending};
use kanal_core::internal::Waiter;
use kanal_events::event::Reply;
use kanal_events::step_result::{FastResult, StepResult};
use kanal_state::{Deferred, DropResult, History, MustDrain, Released, State, WaiterHandle};
use std::sync::MutexGuard;

/// How often a call drains notices after it released the lock.
const LOOKS: u32 = 64;

impl<T: Drop, H: History<T>> Locked<'_, T, H> {
    /// Releases the lock after a step that settled no wait, and drains new notices. What left the core may be
    /// opened then, by the answer.
    #[inline]
    pub fn unlock_and_drain(self) -> Released {
        let shared = self.shared;
        let (released, due) = self.unlock();
        shared.drain_notices(due);
        released
    }

    /// Releases the lock. What the step settled may be told then, and notices have to be drained.
    #[inline]
    pub fn unlock(self) -> (Released, MustDrain) {
        Released::by(self.into_guard())
    }

    /// Applies the notices under a lock that one try got, releases it, tells what they took out, and tries the lock
    /// once more; `None` where another has it then.
    #[cold]
    pub fn apply_notices(self) -> Option<Self> {
        let shared = self.shared;
        shared.apply_notices(self.into_guard());
        shared.try_lock_raw()
    }
}

impl<T: Drop, H: History<T>> Shared<T, H> {
    #[cold]
    pub(super) fn apply_notices(&self, state: MutexGuard<'_, State<T, H>>) {
        let mut state = state;
        let applied = self.apply(&mut state);
        let (released, due) = Released::by(state);
        self.tell_applied(applied, &released);
        self.drain_notices(due);
    }

    /// Releases the lock, wakes those whose waits the step settled, drops what it cleared, and drains new notices.
    pub(crate) fn unlock_and_wake(
        &self,
        locked: Locked<'_, T, H>,
        pass: &mut H::Pass,
        made: Deferred<StepResult<T, WaiterHandle<T, H>>>,
    ) -> Reply<T>
        requires seen { HaveSettled H.relations pass.old (settled_of made) }
        ensures reply { result ≡ reply_of made }
        ensures same { pass.new ≡ pass.old }
    {
        let (released, due) = locked.unlock();
        self.settle(pass, made, &released, due)
    }

    /// Releases a lock that one try got, after a step of the caller's: tells what the notices took out and then those
    /// whose waits the step settled, drops what it cleared, and drains new notices.
    pub fn unlock_tried(
        &self,
        locked: Locked<'_, T, H>,
        pending: Pending<T, H>,
        pass: &mut H::Pass,
        made: Deferred<StepResult<T, WaiterHandle<T, H>>>,
    ) -> Reply<T>
        requires seen { HaveSettled H.relations pass.old (settled_of made) }
        ensures reply { result ≡ reply_of made }
        ensures same { pass.new ≡ pass.old }
    {
        let (released, due) = locked.unlock();
        self.tell_pending(pending, &released);
        self.settle(pass, made, &released, due)
    }

    /// Releases the lock after a call that was answered at once, and tells who is owed what it settled.
    #[inline]
    pub(crate) fn unlock_answered(
        &self,
        locked: Locked<'_, T, H>,
        pass: &mut H::Pass,
        answered: Deferred<FastResult<T, WaiterHandle<T, H>>>,
    ) -> Reply<T>
        requires seen { HaveSettled H.relations pass.old (settled_of (made_of answered)) }
        ensures reply { result ≡ reply_of (made_of answered) }
        ensures same { pass.new ≡ pass.old }
    {
        let (released, due) = locked.unlock();
        let (reply, owed) = answered.open(&released).into_parts();
        if let Some(owed) = owed {
            drop(owed.tell(H::prefix(&self.log, pass), &released));
        }
        self.drain_notices(due);
        reply
    }

    /// Releases a lock that one try got, after a step that settled no wait, tells what the notices took out, and looks
    /// for new ones.
    pub fn unlock_pending(&self, locked: Locked<'_, T, H>, pending: Pending<T, H>) {
        let (released, due) = locked.unlock();
        self.tell_pending(pending, &released);
        self.drain_notices(due);
    }

    pub(super) fn unlock_dropped(
        &self,
        state: MutexGuard<'_, State<T, H>>,
        pending: Pending<T, H>,
        gone: DropResult<T, H>,
    ) {
        let (released, due) = Released::by(state);
        self.tell_pending(pending, &released);
        self.tell_dropped(gone, &released);
        self.drain_notices(due);
    }

    pub(super) fn unlock_left(
        &self,
        state: MutexGuard<'_, State<T, H>>,
        pending: Pending<T, H>,
        found: Option<Deferred<Waiter<T, WaiterHandle<T, H>>>>,
    ) {
        let (released, due) = Released::by(state);
        self.tell_pending(pending, &released);
        if let Some(waiter) = found {
            drop(waiter.open(&released));
        }
        self.drain_notices(due);
    }

    fn settle(
        &self,
        pass: &mut H::Pass,
        made: Deferred<StepResult<T, WaiterHandle<T, H>>>,
        released: &Released,
        due: MustDrain,
    ) -> Reply<T>
        requires seen { HaveSettled H.relations pass.old (settled_of made) }
        ensures reply { result ≡ reply_of made }
        ensures same { pass.new ≡ pass.old }
    {
        let prefix = H::prefix(&self.log, pass);
        let reply = self.hand_out(prefix, made.open(released), released);
        self.drain_notices(due);
        reply
    }

    fn hand_out(
        &self,
        prefix: H::Prefix,
        made: StepResult<T, WaiterHandle<T, H>>,
        released: &Released,
    ) -> Reply<T>
        requires seen { HaveShown H.shows prefix (settled_of made) }
        ensures reply { result ≡ reply_of made }
    {
        let mut prefix = prefix;
        let mut made = made;
        while let Some(owed) = made.next() {
            drop(owed.tell(H::again(&self.log, &mut prefix), released));
        }
        drop(prefix);
        let (reply, cleared) = made.into_parts();
        drop(cleared);
        reply
    }

    /// Settles what the notices took out.
    #[inline]
    fn tell_pending(&self, pending: Pending<T, H>, released: &Released) {
        if let Some(applied) = pending.into_applied() {
            self.tell_applied(applied, released);
        }
    }

    #[cold]
    pub(super) fn tell_applied(&self, applied: Applied<T, H>, released: &Released) {
        let Applied {
            waits,
            senders,
            receivers,
        } = applied;
        if let Some(left) = waits.into_inner() {
            drop(left.open(released));
        }
        if let Some(senders) = senders.into_inner() {
            self.tell_dropped(senders, released);
        }
        if let Some(receivers) = receivers.into_inner() {
            self.tell_dropped(receivers, released);
        }
    }

    fn tell_dropped(&self, gone: DropResult<T, H>, released: &Released) {
        let (made, prefix) = gone.into_parts(released);
        let _reply = self.hand_out(prefix, made, released);
    }

    /// Drains the notices after the lock was released or one was left: applies them while the lock is free, at most
    /// 64 times.
    #[inline]
    pub fn drain_notices(&self, due: MustDrain) {
        if self.notices.has_some(due) {
            self.drain_slow();
        }
    }

    #[cold]
    fn drain_slow(&self) {
        for _ in 0..LOOKS {
            let Some((locked, pending)) = self.try_lock() else {
                return;
            };
            let (released, due) = locked.unlock();
            self.tell_pending(pending, &released);
            if !self.notices.has_some(due) {
                return;
            }
        }
    }
}
