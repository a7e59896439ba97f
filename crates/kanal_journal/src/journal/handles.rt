//! The live handles of both sides, through which events are made.
//!
//! A count of the channel falls to 0 at a close; the live handles do not.
ghost use Rattle.std.specs.Prelude.{◌≡◌};
ghost use Rattle.kanal_journal.specs.Runs.{has_handle, has_side};

use kanal_events::event::{Event, Side};

#[derive(Clone, Copy, Debug, PartialEq, Eq)]
pub struct Handles {
    pub(crate) tx: usize,
    pub(crate) rx: usize,
}

impl Handles {
    pub(crate) fn new() -> Self
        ensures { result ≡ record { tx = 1; rx = 1 } }
    {
        Handles { tx: 1, rx: 1 }
    }

    fn has_side(&self, side: Side) -> bool
        ensures { result ≡ has_side self.now side }
    {
        match side {
            Side::Tx => self.tx != 0,
            Side::Rx => self.rx != 0,
        }
    }

    pub(crate) fn serve<T>(&self, event: &Event<T>) -> bool
        ensures { result ≡ has_handle self.now event.now }
    {
        match event {
            Event::Send(_) | Event::TrySend(_) | Event::CloneTx | Event::DropTx => {
                self.has_side(Side::Tx)
            },
            Event::Withdraw(_) => true,
            Event::Seal | Event::Close => self.has_side(Side::Tx) || self.has_side(Side::Rx),
            Event::Ask(side, _) => self.has_side(*side),
            Event::Recv
            | Event::RecvLate
            | Event::TryRecv
            | Event::Drain
            | Event::CloneRx
            | Event::DropRx
            | Event::Terminated => self.has_side(Side::Rx),
        }
    }
}
