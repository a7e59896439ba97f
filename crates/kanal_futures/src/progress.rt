//! Where a call in a task is, and what it leaves behind when its future goes.
//!
//! The prover refuses to let one go that still waits. A first poll takes the call out, and makes it where it needs no
//! more than the lock; what more it needs is told by `PollRest`.
ghost use Rattle.std.specs.Prelude.{◌≡◌, false, true, IfNone, IfSome, IsSome, Some, None};
ghost use Rattle.kanal_futures.specs.Tasks.{answered_by, begun_by, is_fresh, is_waiting, passes};

use crate::started::Started;
use kanal_channel::{Locked, Operation, Shared};
use kanal_state::History;
use std::mem;

pub(crate) enum Progress<T, H: History<T>, M, A: Operation<T, M>> {
    /// It made no call yet.
    Zero(H::Pass, M),
    Waiting(Started<T, H, M, A>),
    /// It has answered. The pass of its answer is here where it is kept.
    Done(Option<H::Pass>),
}

/// What is left of a poll that did not answer at once.
pub(crate) enum PollRest<'a, T, H: History<T>, M> {
    /// The call, with the lock held: there are notices, or no message enters or leaves by itself.
    Held(Locked<'a, T, H>, H::Pass, M),
    /// The call: another holds the lock.
    Refused(H::Pass, M),
    Begun,
}

impl<T: Drop, H: History<T>, M: Drop, A: Operation<T, M>> Drop for Progress<T, H, M, A> {
    fn drop(self)
        requires over { is_waiting self ≡ false }
    {
        match self {
            Progress::Zero(pass, asked) => {
                drop(pass);
                drop(asked);
            },
            Progress::Waiting(_started) => unreachable!(),
            Progress::Done(kept) => drop(kept),
        }
    }
}

impl<T: Drop, H: History<T>, M: Drop, A: Operation<T, M>> Progress<T, H, M, A> {
    #[inline]
    pub(crate) fn take(&mut self) -> Option<(H::Pass, M)>
        ensures taken { IfSome result (λ call. begun_by self.old ≡ Some call) }
        ensures over { IfSome result (λ _. begun_by self.new ≡ None) }
        ensures stays { IfNone result (self.new ≡ self.old) }
        ensures made { IfNone result (is_fresh self.old ≡ false) }
    {
        if !matches!(self, Progress::Zero(_, _)) {
            return None;
        }
        let fresh = mem::replace(self, Progress::Done(None));
        Some(fresh.into_call())
    }

    #[inline]
    fn into_call(self) -> (H::Pass, M)
        requires fresh { is_fresh self ≡ true }
        ensures { begun_by self ≡ Some result }
    {
        match self {
            Progress::Zero(pass, asked) => (pass, asked),
            Progress::Waiting(_started) => unreachable!(),
            Progress::Done(_kept) => unreachable!(),
        }
    }

    #[inline]
    pub(crate) fn store_pass(&mut self, pass: H::Pass)
        requires over { begun_by self.old ≡ None }
        ensures kept { answered_by self.new ≡ Some pass }
        ensures over { begun_by self.new ≡ None }
    {
        match self {
            Progress::Zero(_pass, _asked) => unreachable!(),
            Progress::Waiting(_started) => unreachable!(),
            Progress::Done(kept) => *kept = Some(pass),
        }
    }

    pub(crate) fn take_wait(&mut self) -> Option<Started<T, H, M, A>>
        ensures waits { IfSome result (λ started. begun_by self.old ≡ Some started) }
        ensures over { IfSome result (λ _. begun_by self.new ≡ None) }
        ensures stays { IfNone result (self.new ≡ self.old) }
        ensures answered { is_fresh self.old ≡ false → IfNone result (begun_by self.old ≡ None) }
    {
        if !matches!(self, Progress::Waiting(_)) {
            return None;
        }
        let waiting = mem::replace(self, Progress::Done(None));
        waiting.into_wait()
    }

    #[inline]
    pub(crate) fn into_wait(self) -> Option<Started<T, H, M, A>>
        ensures found { is_waiting self ≡ true → IsSome result }
        ensures waits { IfSome result (λ started. begun_by self ≡ Some started) }
    {
        match self {
            Progress::Zero(pass, asked) => {
                drop(pass);
                drop(asked);
                None
            },
            Progress::Waiting(started) => Some(started),
            Progress::Done(kept) => {
                drop(kept);
                None
            },
        }
    }

    pub(crate) fn into_pass(self, shared: &Shared<T, H>) -> Option<H::Pass>
        ensures pass { is_waiting self ≡ false → result ≡ passes (begun_by self) }
    {
        match self {
            Progress::Zero(pass, asked) => {
                drop(asked);
                return Some(pass);
            },
            Progress::Waiting(started) => started.leave(shared),
            Progress::Done(kept) => drop(kept),
        }
        None
    }
}
