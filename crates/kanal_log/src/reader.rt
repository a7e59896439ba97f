//! The readers: how far each of those who call has seen the history, and which of its entries are its own.
//!
//! Readers step their seats on the log that their type names, and on no other.
ghost use Rattle.std.specs.Prelude.{◌≡◌, ◌++◌, ◌⊎◌, []};
ghost use mathlib.Core.List.{IsPrefix};
ghost use Rattle.kanal_log.specs.Shares.{both, half, IsWhole, nothing};
ghost use Rattle.kanal_log.specs.Views.{AreDisjoint, AreDistinct, OneBegins, OwnsAllBut, known, reader_view};

use crate::entry::LogEntry;
use crate::log::GhostLog;
use crate::rule::{Checks, Compares, Goes, Halves, Learns, LogId, LogParts, LogView, Meets, Reads};
use atomic_table::Seat;
use std::marker::{Model, PhantomData};

/// A beginning of the history that was seen, the places in it that are its own, and a share of the right to
/// add entries. Contracts see all three. It has no bytes.
#[derive(Drop)]
pub struct Reader<E, J: LogId> {
    pub(crate) seat: Seat<(), LogView<E>>,
    of: PhantomData<J>,
}

impl<E, J: LogId> Model for Reader<E, J> {
    ghost use Rattle.std.specs.Prelude.{◌≡◌, []};
    ghost use Rattle.kanal_log.specs.Views.{Known, known, reader_view};

    ghost Value = { Known E };

    ghost view = { λ f. known f.seat.me.0.log f.seat.me.0.own f.seat.me.0.share };

    ghost invariant = { λ f. (f.seat.table_id ≡ J.table)
        × (f.seat.me ≡ (reader_view f.seat.me.0.log f.seat.me.0.own f.seat.me.0.share, [])) };
}

impl<E: LogEntry, J: LogId> Reader<E, J> {
    pub(crate) fn over(seat: Seat<(), LogView<E>>) -> Self
        requires table { seat.table_id ≡ J.table }
        requires reader { seat.me ≡ (reader_view seat.me.0.log seat.me.0.own seat.me.0.share, []) }
        ensures { result ≡ known seat.me.0.log seat.me.0.own seat.me.0.share }
    {
        Reader {
            seat,
            of: PhantomData,
        }
    }

    /// Another reader that has seen as much, owns nothing, and has half of this one's share. This one keeps
    /// the other half.
    pub fn again(&mut self, log: &GhostLog<E, J>) -> Reader<E, J>
        ensures copy { result ≡ known self.old.log [] (half self.old.share) }
        ensures same { self.new ≡ known self.old.log self.old.own (half self.old.share) }
    {
        let seat = log.table.shared.split_seat::<Halves>(&mut self.seat);
        Reader::over(seat)
    }

    /// Another reader that has seen as much, owns nothing, and has no share: it gets no entry of its own.
    pub fn read(&mut self, log: &GhostLog<E, J>) -> Reader<E, J>
        ensures copy { result ≡ known self.old.log [] nothing }
        ensures same { self.new ≡ self.old }
    {
        let seat = log.table.shared.split_seat::<Reads>(&mut self.seat);
        Reader::over(seat)
    }

    /// A reader that has all of the right to add entries owns each entry that it has seen, but for the unowned
    /// ones. It changes nothing.
    pub fn owns_all(&mut self, log: &GhostLog<E, J>)
        requires whole { IsWhole self.old.share }
        ensures same { self.new ≡ self.old }
        ensures each { OwnsAllBut E.unowned self.old.log self.old.own }
    {
        log.table.shared.load::<Checks>(&mut self.seat, 0);
    }

    /// Two readers have seen beginnings of one history, and no entry is own to both, or twice to one.
    pub fn compare(&mut self, log: &GhostLog<E, J>, other: &mut Reader<E, J>)
        ensures same { (self.new ≡ self.old) × (other.new ≡ other.old) }
        ensures one { OneBegins self.old.log other.old.log }
        ensures apart { AreDisjoint self.old.own other.old.own }
        ensures each { AreDistinct self.old.own × AreDistinct other.old.own }
    {
        let shared = &log.table.shared;
        let whole = shared.split_seat::<Goes>(&mut other.seat);
        shared.join_seat::<Meets>(&mut self.seat, whole);
        shared.load::<Compares>(&mut self.seat, 0);
        let seat = shared.split_seat::<LogParts>(&mut self.seat);
        *other = Reader::over(seat);
    }

    /// Goes on to what the other reader has seen, where that is more. It owns what both did, and has the
    /// shares of both.
    pub fn learn(&mut self, log: &GhostLog<E, J>, other: Reader<E, J>)
        ensures this { IsPrefix self.old.log self.new.log }
        ensures that { IsPrefix other.log self.new.log }
        ensures one { (self.new.log ≡ self.old.log) ⊎ (self.new.log ≡ other.log) }
        ensures own { self.new.own ≡ other.own ++ self.old.own }
        ensures share { self.new.share ≡ both other.share self.old.share }
    {
        let Reader { seat, of: _ } = other;
        let shared = &log.table.shared;
        shared.join_seat::<Meets>(&mut self.seat, seat);
        shared.load::<Learns>(&mut self.seat, 0);
    }
}
