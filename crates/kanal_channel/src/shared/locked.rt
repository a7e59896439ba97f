//! The lock of a channel as a token that has to be released, and the notices that are applied under it.
//!
//! Whoever gets the lock has all notices applied before its own step. No other module takes the lock or the notices.
ghost use Rattle.std.specs.Prelude.{◌≡◌, false};
ghost use Rattle.kanal_channel.specs.Locks.{is_held, takes_nothing};

use super::Shared;
use kanal_cell::{Contention, LOCK_TRIES};
use kanal_state::{
    Deferred, DropResult, GoneWaits, History, LeftWaits, ReceiveSide, SendSide, State, TakenOut,
};
use std::marker::Model;
use std::snapshot::Snapshot;
use std::sync::{MutexGuard, Wait};

/// The lock of a channel, which has to be released: the prover refuses a call that lets it go.
///
/// While it is held no other call makes a step, and a drop leaves a notice. A step that it lends its state to
/// makes no internal call: that is its invariant. Contracts see the line, and that it has to be released.
pub struct Locked<'a, T, H: History<T>> {
    pub(super) shared: &'a Shared<T, H>,
    pub state: MutexGuard<'a, State<T, H>>,
    internal_pass: Snapshot<H::InternalPass>,
    held: bool,
}

impl<'a, T, H: History<T>> Model for Locked<'a, T, H> {
    ghost use Rattle.std.specs.Prelude.{◌≡◌, Bool};
    ghost use Rattle.kanal_core.specs.Line.{Line};

    ghost Value = { Line T × Bool };

    ghost view = { λ l. (l.state.value.1, l.held) };

    ghost invariant = { λ l. l.state.value.0 ≡ l.internal_pass.value };
}

/// That the notices of all kinds were applied, with what each kind took out of the core. That has to be told.
pub(super) struct Applied<T, H: History<T>> {
    pub(super) waits: TakenOut<GoneWaits, Deferred<LeftWaits<T, H>>>,
    pub(super) senders: TakenOut<SendSide, DropResult<T, H>>,
    pub(super) receivers: TakenOut<ReceiveSide, DropResult<T, H>>,
}

/// What the notices took out under a lock that one try got, if there were some. It goes back with that lock.
pub struct Pending<T, H: History<T>> {
    applied: Option<Applied<T, H>>,
}

impl<T: Drop, H: History<T>> Drop for Pending<T, H> {
    fn drop(self)
        requires nobody { takes_nothing self }
    {
        let Pending { applied } = self;
        match applied {
            None => {},
            Some(_taken) => unreachable!(),
        }
    }
}

impl<T: Drop, H: History<T>> Pending<T, H> {
    fn nothing() -> Self
        ensures nobody { takes_nothing result }
    {
        Pending { applied: None }
    }
}

impl<T: Drop, H: History<T>> Drop for Locked<'_, T, H> {
    fn drop(self)
        requires given_back { is_held self ≡ false }
    {
        drop(self.into_guard());
    }
}

impl<'a, T: Drop, H: History<T>> Locked<'a, T, H> {
    /// The guard: the lock is released by it, or an internal call is made under it.
    #[inline]
    pub(super) fn into_guard(self) -> MutexGuard<'a, State<T, H>> {
        let Locked {
            shared: _,
            state,
            internal_pass,
            held: _,
        } = self;
        drop(internal_pass);
        state
    }

    /// Applies the notices under a lock that one try got. What they take out goes back with the lock.
    #[cold]
    fn take_pending(&mut self) -> Pending<T, H> {
        let applied = Some(self.shared.apply(&mut self.state));
        self.internal_pass = self.state.internal_pass();
        Pending { applied }
    }
}

impl<T: Drop, H: History<T>> Shared<T, H> {
    /// Waits for the lock, with no notice left to apply.
    #[inline]
    pub fn lock<R: Wait>(&self, rt: &R) -> Locked<'_, T, H> {
        let state = self.guard(rt);
        self.locked(state)
    }

    #[inline]
    fn guard<R: Wait>(&self, rt: &R) -> MutexGuard<'_, State<T, H>> {
        if let Some(state) = self.state.try_lock() {
            if self.has_no_notices() {
                return state;
            }
            drop(state);
        }
        self.lock_slow(rt)
    }

    /// Waits for the guard where the lock was held or there are notices.
    #[cold]
    fn lock_slow<R: Wait>(&self, rt: &R) -> MutexGuard<'_, State<T, H>> {
        for _ in rt.forever() {
            let state = match self.state.try_lock() {
                Some(state) => state,
                None => self.lock_contended(rt),
            };
            if self.has_no_notices() {
                return state;
            }
            self.apply_notices(state);
        }
        unreachable!()
    }

    /// Tries once to get the lock, and applies no notice; `None` where it is held.
    #[inline]
    pub fn try_lock_raw(&self) -> Option<Locked<'_, T, H>> {
        let state = self.state.try_lock()?;
        Some(self.locked(state))
    }

    /// Tries once to get the lock; `None` where it is held, and where there were notices, which are applied then.
    #[inline]
    pub(crate) fn try_lock_quiet(&self) -> Option<Locked<'_, T, H>> {
        let locked = self.try_lock_raw()?;
        if self.has_no_notices() {
            return Some(locked);
        }
        locked.unlock_and_drain();
        None
    }

    #[inline]
    pub(super) fn locked<'a>(&'a self, state: MutexGuard<'a, State<T, H>>) -> Locked<'a, T, H> {
        let internal_pass = state.internal_pass();
        Locked {
            shared: self,
            state,
            internal_pass,
            held: true,
        }
    }

    /// Tries once to get the lock, and applies the notices; `None` where it is held.
    pub fn try_lock(&self) -> Option<(Locked<'_, T, H>, Pending<T, H>)> {
        let mut locked = self.try_lock_raw()?;
        let pending = if self.has_no_notices() {
            Pending::nothing()
        } else {
            locked.take_pending()
        };
        Some((locked, pending))
    }

    /// Waits for a lock that was held: with pauses and naps between the tries, and then asleep.
    #[cold]
    fn lock_contended<R: Wait>(&self, rt: &R) -> MutexGuard<'_, State<T, H>> {
        let contention = Contention::new(&self.policy);
        for tries in 0..LOCK_TRIES {
            contention.pause(rt, tries);
            if let Some(state) = self.state.try_lock() {
                return state;
            }
        }
        self.state.lock(rt)
    }

    /// Applies all notices: first those of left waits, then the senders', then the receivers'. The flag is
    /// cleared first, so that a later notice sets it again.
    #[cold]
    pub(super) fn apply(&self, state: &mut State<T, H>) -> Applied<T, H> {
        self.notices.read();
        let waits = state.withdraw_left(&self.log, self.alloc, self.notices.take_waits());
        let senders = self.notices.take_handles::<SendSide>();
        let (senders, rest) = state.drop_handles(&self.log, senders);
        self.notices.put_back(state, rest);
        let receivers = self.notices.take_handles::<ReceiveSide>();
        let (receivers, rest) = state.drop_handles(&self.log, receivers);
        self.notices.put_back(state, rest);
        Applied {
            waits,
            senders,
            receivers,
        }
    }

    /// Whether there are no notices.
    #[inline]
    pub fn has_no_notices(&self) -> bool {
        self.notices.is_empty()
    }
}

impl<T: Drop, H: History<T>> Pending<T, H> {
    #[inline]
    pub(super) fn into_applied(self) -> Option<Applied<T, H>> {
        let Pending { applied } = self;
        applied
    }
}
