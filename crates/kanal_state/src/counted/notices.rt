//! The notices of a channel: of handles that went away, and of waits that were left, while the lock was held.
//!
//! A notice counts a token out; who takes the handles' notices has the tokens again. Notices go with their channel
//! alone, so none is added where nobody looks.
ghost use Rattle.std.specs.Prelude.{◌≡◌, ◌+◌, ◌⊎◌, false, true, IfNone, IfSome};
ghost use Rattle.kanal_state.specs.Counts.{are_sought, count_of, gone_handles, has_channel, is_due, were_left};

use super::{CountedHandle, CountedWait, Stands, stands};
use crate::History;
use crate::side::OfSide;
use crate::state::State;
use kanal_events::event::Side;
use std::marker::PhantomData;
use std::sync::atomic::AtomicU64;
use std::sync::atomic::Ordering::SeqCst;

/// Handles of a side that went away while the lock was held: each has to be counted out.
pub struct GoneHandles<S> {
    count: u64,
    side: PhantomData<S>,
}

impl<S> Drop for GoneHandles<S> {
    fn drop(self)
        requires none { gone_handles self ≡ 0 }
    {
        let GoneHandles {
            count: _count,
            side: _,
        } = self;
    }
}

impl<S> GoneHandles<S> {
    pub(crate) fn next(&mut self) -> Option<CountedHandle<S>>
        ensures none { IfNone result (gone_handles self.new ≡ 0) }
        ensures fewer { IfSome result (λ _. gone_handles self.new + 1 ≡ gone_handles self.old) }
    {
        if self.count == 0 {
            return None;
        }
        self.count -= 1;
        Some(CountedHandle::new())
    }

    fn into_count(self) -> u64 {
        let GoneHandles { count, side: _ } = self;
        count
    }
}

/// Waits that were left while the lock was held, if some were: they have to be sought and withdrawn.
pub struct GoneWaits {
    are_some: bool,
    are_sought: bool,
}

impl Drop for GoneWaits {
    fn drop(self)
        requires sought { are_sought self ≡ true }
    {
        let GoneWaits {
            are_some: _are_some,
            are_sought: _are_sought,
        } = self;
    }
}

impl GoneWaits {
    /// Whether some were left; this discharges the duty, and only `withdraw_left` calls it.
    pub(crate) fn seek(self) -> bool
        ensures { result ≡ were_left self }
    {
        let GoneWaits {
            are_some,
            are_sought: _are_sought,
        } = self;
        are_some
    }
}

/// That notices have to be drained, since one was left or the lock was released. The prover refuses to let it go.
pub struct MustDrain {
    stands: Stands,
}

impl Drop for MustDrain {
    fn drop(self)
        requires drained { is_due self ≡ false }
    {
        self.end();
    }
}

impl MustDrain {
    /// After a release, or a notice.
    #[inline]
    pub(crate) fn new() -> Self {
        MustDrain { stands: stands() }
    }

    /// Discharged by `has_some`.
    #[inline]
    fn end(self) {
        let MustDrain { stands } = self;
        drop(stands);
    }
}

/// The notices of a channel: how many senders and receivers went away, and how many waits were left, while
/// the lock was held; and whether there are some. The prover refuses to let them go without their channel.
pub struct Notices {
    some: AtomicU64,
    waits: AtomicU64,
    senders: AtomicU64,
    receivers: AtomicU64,
    stands: Stands,
}

impl Drop for Notices {
    fn drop(self)
        requires ended { has_channel self ≡ false }
    {
        self.end();
    }
}

/// Empties the counter, which is only written where it is not empty, and answers what it held.
fn emptied(counter: &AtomicU64) -> u64 {
    if counter.load(SeqCst) == 0 {
        return 0;
    }
    counter.swap(0, SeqCst)
}

impl Notices {
    pub fn new() -> Self {
        Notices {
            some: AtomicU64::new(0),
            waits: AtomicU64::new(0),
            senders: AtomicU64::new(0),
            receivers: AtomicU64::new(0),
            stands: stands(),
        }
    }

    /// They go, since their channel does. The state alone calls this.
    pub(crate) fn end(self) {
        let Notices {
            some,
            waits,
            senders,
            receivers,
            stands,
        } = self;
        drop(some);
        drop(waits);
        drop(senders);
        drop(receivers);
        drop(stands);
    }

    #[inline]
    pub fn is_empty(&self) -> bool {
        self.some.load(SeqCst) == 0
    }

    /// Clears the flag, before the counters are taken, so that a later notice sets it again.
    pub fn read(&self) {
        emptied(&self.some);
    }

    fn counter(&self, side: Side) -> &AtomicU64 {
        match side {
            Side::Tx => &self.senders,
            Side::Rx => &self.receivers,
        }
    }

    /// Whether there are some; this discharges the duty.
    #[inline]
    pub fn has_some(&self, due: MustDrain) -> bool {
        due.end();
        !self.is_empty()
    }

    /// Counts a handle out into the notices of its side.
    pub fn add_handle<S: OfSide>(&self, counted: CountedHandle<S>) -> MustDrain {
        counted.notice();
        self.counter(S::side()).fetch_add(1, SeqCst);
        self.some.fetch_add(1, SeqCst);
        MustDrain::new()
    }

    pub fn take_handles<S: OfSide>(&self) -> GoneHandles<S> {
        GoneHandles {
            count: emptied(self.counter(S::side())),
            side: PhantomData,
        }
    }

    /// Puts back those that were not counted out, since their side has none left.
    pub fn put_back<T, H: History<T>, S: OfSide>(&self, state: &State<T, H>, gone: GoneHandles<S>)
        requires over { (gone_handles gone ≡ 0) ⊎ (count_of S.side state.now.1 ≡ 0) }
    {
        let _ = state;
        let count = gone.into_count();
        if count > 0 {
            self.counter(S::side()).fetch_add(count, SeqCst);
        }
    }

    /// Counts a wait out into the notices.
    pub fn add_wait(&self, counted: CountedWait) -> MustDrain {
        counted.notice();
        self.waits.fetch_add(1, SeqCst);
        self.some.fetch_add(1, SeqCst);
        MustDrain::new()
    }

    pub fn waits(&self) -> u64 {
        self.waits.load(SeqCst)
    }

    pub fn take_waits(&self) -> GoneWaits {
        GoneWaits {
            are_some: emptied(&self.waits) > 0,
            are_sought: false,
        }
    }
}
