//! The calls that count a handle in.
//!
//! Who counts one more has its token, which has to be counted out. No other call counts a handle in.
ghost use Rattle.std.specs.Prelude.{◌≡◌};
ghost use Rattle.kanal_state.specs.Frames.{OnlyLineMoves};
ghost use Rattle.kanal_state.specs.Makes.{IsReplied};
ghost use Rattle.kanal_state.specs.Results.{counted_by};
ghost use Rattle.kanal_state.specs.Counts.{one_less, one_more, whether_counted};

use super::State;
use crate::History;
use crate::answers::counted_by;
use crate::counted::CountedHandle;
use crate::side::OfSide;
use kanal_core::error::TooMany;
use kanal_events::event::{Event, Side};
use std::snapshot::Snapshot;

fn one_more<T: Drop>(side: Side) -> Event<T>
    ensures { result ≡ one_more side }
{
    match side {
        Side::Tx => Event::CloneTx,
        Side::Rx => Event::CloneRx,
    }
}

pub(super) fn one_less<T: Drop>(side: Side) -> Event<T>
    ensures { result ≡ one_less side }
{
    match side {
        Side::Tx => Event::DropTx,
        Side::Rx => Event::DropRx,
    }
}

impl<T: Drop, H: History<T>> State<T, H> {
    fn count_in(&mut self, log: &H::Log, pass: &mut H::Pass, side: Side) -> Result<(), TooMany>
        ensures counted { IsReplied H.relations pass.old pass.new (one_more side) counted_by result }
        ensures rest { OnlyLineMoves self.old self.new }
    {
        let made = self.make(log, pass, one_more(side));
        let (reply, cleared) = made.into_parts();
        drop(cleared);
        counted_by(reply)
    }

    /// Counts one more handle of a side: the token has to be counted out when the handle goes.
    ///
    /// # Errors
    /// `TooMany` exactly where there are `u32::MAX` of that side, and nothing changes.
    pub fn count<S: OfSide>(
        &mut self,
        log: &H::Log,
        pass: &mut H::Pass,
    ) -> Result<CountedHandle<S>, TooMany>
        ensures counted { IsReplied H.relations pass.old pass.new (one_more S.side) counted_by
            (whether_counted result) }
        ensures rest { OnlyLineMoves self.old self.new }
    {
        let before = Snapshot::of(pass);
        self.count_in(log, pass, S::side())?;
        Ok(CountedHandle::count_in::<T, H>(&before, pass))
    }
}
