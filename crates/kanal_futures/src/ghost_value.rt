//! A value as it was earlier, for proofs alone.
//!
//! It is the kit's `Snapshot` but for one thing: it is `Send` where its type is, and not always. A future that
//! holds a `Snapshot` beside a channel is not found to be `Send`, since the search for that gives up.
ghost use Rattle.std.specs.Prelude.{◌≡◌};

use std::marker::{Model, PhantomData};

/// A value as it was. It has no bytes and owns nothing, so only a clause ties `value`.
pub(crate) struct GhostValue<T> {
    marker: PhantomData<T>,
    pub(crate) ghost value: { T },
}

impl<T> Model for GhostValue<T> {
    ghost use base.Fml.{ftrue};

    ghost also_owns = { λ _. ftrue };
}

impl<T> GhostValue<T> {
    pub(crate) fn of(x: &T) -> GhostValue<T>
        ensures { result.value ≡ x.now }
    {
        let _ = x;
        GhostValue {
            marker: PhantomData,
        }
    }
}

impl<T> Drop for GhostValue<T> {
    fn drop(self) {
        let Self { marker: _ } = self;
    }
}

// It owns nothing and has no bytes, so it may go to any thread. That its type is `Send` is asked for the search.
unsafe impl<T: Send> Send for GhostValue<T> {}
