//! Who is woken by a settle: the waker that is kept for it, and the sleeper that it took.
//!
//! A kept waker is taken out only after the settler's step, and is let go by waking it. No other module may look
//! into that.
ghost use Rattle.std.specs.Prelude.{◌≡◌, ◌<◌, true, None, Some};

use super::rule::{EndSeat, Sleeper};
use crate::pointer::SharedSlot;
use futures::task::Waker;

pub(super) fn take_out<P>(
    kept: &mut Option<Waker>,
    settler: &EndSeat<P>,
    sleeper: Option<Sleeper>,
) -> Waking
    requires stepped { settler.now.me.0.set.ended ≡ true }
    ensures waker { result.waker ≡ kept.old }
    ensures sleeper { result.sleeper ≡ sleeper }
    ensures kept { kept.new ≡ None }
{
    let _ = settler;
    Waking {
        sleeper,
        waker: kept.take(),
        is_woken: false,
    }
}

/// Whom a settle has to wake. Only `wake` lets it go.
pub(crate) struct Waking {
    pub(super) sleeper: Option<Sleeper>,
    pub(super) waker: Option<Waker>,
    is_woken: bool,
}

impl Drop for Waking {
    fn drop(self)
        requires { self.is_woken ≡ true }
    {
        let Waking {
            sleeper,
            waker,
            is_woken: _,
        } = self;
        drop(sleeper);
        drop(waker);
    }
}

/// That whom a settle had to wake was woken. `Waking::wake` alone makes one.
#[derive(Drop)]
pub(super) struct Woken(());

impl Waking {
    pub(super) fn wake<P>(self, cell: &SharedSlot<P>) -> Woken
        requires word { 0 < cell.now.table_id.words }
    {
        let Waking {
            sleeper,
            waker,
            is_woken: _,
        } = self;
        match sleeper {
            Some(Sleeper::Parker(sleeper)) => sleeper.unpark(),
            Some(Sleeper::Word) => cell.wake_one(0),
            None => {},
        }
        if let Some(waker) = waker {
            waker.wake();
        }
        Woken(())
    }
}
