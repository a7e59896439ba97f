//! What shows that a channel's lock was released, and what may be looked into only then.
//!
//! No settlement is told without it, and no message that left the core is dropped without it. It has no bytes, and
//! only giving a guard back makes one.
ghost use Rattle.std.specs.Prelude.{◌≡◌};
ghost use Rattle.kanal_state.specs.Deferred.{IsOnlyValue};

use crate::History;
use crate::counted::MustDrain;
use crate::state::State;
use std::marker::Model;
use std::sync::MutexGuard;

/// That the lock of a channel was released.
#[derive(Drop)]
pub struct Released(());

impl Released {
    /// Releases the lock; notices that were left meanwhile have to be drained.
    #[inline(always)]
    pub fn by<T: Drop, H: History<T>>(guard: MutexGuard<'_, State<T, H>>) -> (Self, MustDrain) {
        drop(guard);
        (Released(()), MustDrain::new())
    }
}

/// What left the core while the lock was held. It is opened once the lock was released: the prover refuses to let
/// it go before, since its drop asks that its type has no other value. Contracts see what is in it.
pub struct Deferred<X> {
    pub(crate) inside: X,
}

impl<X> Model for Deferred<X> {
    ghost Value = { X };

    ghost view = { λ d. d.inside };
}

impl<X: Drop> Drop for Deferred<X> {
    fn drop(self)
        requires empty { IsOnlyValue self }
    {
        let Deferred { inside } = self;
        drop(inside);
    }
}

impl<X> Deferred<X> {
    /// What is in it, once the lock was released.
    #[inline(always)]
    pub fn open(self, _released: &Released) -> X
        ensures { result ≡ self }
    {
        let Deferred { inside } = self;
        inside
    }
}
