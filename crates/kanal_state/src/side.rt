//! The two sides of a channel, as types: what is said of a handle is said once, for both.
ghost use Rattle.std.specs.Prelude.{◌≡◌};
ghost use Rattle.kanal_events.specs.declared.event.Side.{Side};
ghost use Rattle.kanal_events.specs.declared.event.Side.TheVariants.{Tx, Rx};

use kanal_events::event::Side;

/// A side of a channel, as a type.
pub trait OfSide {
    /// The side that it is.
    ghost side: { Side };

    fn side() -> Side
        ensures { result ≡ side };
}

/// The side of the senders.
pub struct SendSide;

/// The side of the receivers.
pub struct ReceiveSide;

impl OfSide for SendSide {
    ghost side = { Tx };

    #[inline(always)]
    fn side() -> Side
        ensures { result ≡ Tx }
    {
        Side::Tx
    }
}

impl OfSide for ReceiveSide {
    ghost side = { Rx };

    #[inline(always)]
    fn side() -> Side
        ensures { result ≡ Rx }
    {
        Side::Rx
    }
}
