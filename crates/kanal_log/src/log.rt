//! The log, and the writer of its history.
//!
//! Who has the writer, under a lock, appends entries, and records the place of each in the caller's reader, unless
//! it is unowned.
ghost use Rattle.std.specs.Prelude.{◌≡◌, ◌<◌, ◌++◌, ◌∷◌, [], length};
ghost use mathlib.Core.List.{IsPrefix};
ghost use Rattle.kanal_log.specs.Shares.{HasShare, IsWhole, nothing, whole};
ghost use Rattle.kanal_log.specs.Views.{
  entries,
  IsUnownedBehind,
  writer_view,
  known,
  MayAdd,
  place_of,
  reader_view,
};

use crate::entry::{Adds, EntryOf, LogEntry, More, Nothing, Own, Unowned};
use crate::reader::Reader;
use crate::rule::{Founds, Goes, Law, LogId, LogParts, LogView, Meets, Reads, Writes};
use atomic_table::{Seat, Table};
use std::alloc::{AllocError, Global};
use std::marker::{Brand, Model, PhantomData};

/// A log with an empty history, which has no name yet.
#[derive(Drop)]
pub struct NewLog<E: LogEntry> {
    table: Table<(), LogView<E>, (), Law, Global>,
    seat: Seat<(), LogView<E>>,
    first: Seat<(), LogView<E>>,
    pub ghost words: { 0 < table.shared.table_id.words },
    pub ghost same: { seat.table_id ≡ table.shared.table_id },
    pub ghost empty: { seat.me ≡ (writer_view [], []) },
    pub ghost first_same: { first.table_id ≡ table.shared.table_id },
    pub ghost first_whole: { first.me ≡ (reader_view [] [] whole, []) },
}

impl<E: LogEntry> NewLog<E> {
    ghost use Rattle.kanal_log.specs.Logs.{table_of};

    /// A log on which nothing is written.
    /// Example: `let opened = NewLog::new(alloc)?`; then `let (log, writer, reader) = opened.named::<J>()`.
    ///
    /// # Errors
    /// `AllocError` where there is no memory for its one word.
    pub fn new(alloc: Global) -> Result<Self, AllocError> {
        let (table, mut seat) = Table::of_words(alloc, &[0], &())?;
        let first = table.shared.split_seat::<Founds>(&mut seat);
        Ok(NewLog { table, seat, first })
    }

    /// The log under a name, its writer, and the first reader, which has all of the right to add entries.
    /// The caller knows that the name is this log's.
    pub fn named<J: LogId>(self) -> (GhostLog<E, J>, Writer<E, J>, Reader<E, J>)
        requires name { table_of self ≡ J.table }
        ensures empty { result.1 ≡ [] }
        ensures first { result.2 ≡ known [] [] whole }
    {
        let NewLog { table, seat, first } = self;
        (
            GhostLog {
                table,
                of: PhantomData,
            },
            Writer {
                seat,
                of: PhantomData,
            },
            Reader::over(first),
        )
    }
}

/// What all threads share of a history.
#[derive(Drop)]
pub struct GhostLog<E: LogEntry, J: LogId> {
    pub(crate) table: Table<(), LogView<E>, (), Law, Global>,
    of: PhantomData<J>,
    pub(crate) ghost words: { 0 < table.shared.table_id.words },
    pub(crate) ghost named: { table.shared.table_id ≡ J.table },
}

/// The right to add to the history. Contracts see the whole of it.
#[derive(Drop)]
pub struct Writer<E, J: LogId> {
    seat: Seat<(), LogView<E>>,
    of: PhantomData<J>,
}

impl<E, J: LogId> Model for Writer<E, J> {
    ghost use Rattle.std.specs.Prelude.{◌≡◌, List, []};
    ghost use Rattle.kanal_log.specs.Views.{writer_view};

    ghost Value = { List E };

    ghost view = { λ k. k.seat.me.0.log };

    ghost invariant = { λ k. (k.seat.table_id ≡ J.table)
        × (k.seat.me ≡ (writer_view k.seat.me.0.log, [])) };
}

impl<E: LogEntry, J: LogId> Writer<E, J> {
    /// A reader that has seen all, owns nothing, and has no share.
    pub fn read(&mut self, log: &GhostLog<E, J>) -> Reader<E, J>
        ensures all { result ≡ known self.old [] nothing }
        ensures same { self.new ≡ self.old }
    {
        let seat = log.table.shared.split_seat::<Reads>(&mut self.seat);
        Reader::over(seat)
    }

    /// Shows all to the reader, which had seen a beginning. Where the reader has all of the right to add
    /// entries, what it had not seen is unowned.
    pub fn show(&mut self, log: &GhostLog<E, J>, reader: &mut Reader<E, J>)
        ensures same { self.new ≡ self.old }
        ensures shown { reader.new ≡ known self.old reader.old.own reader.old.share }
        ensures seen { IsPrefix reader.old.log self.old }
        ensures only { IsWhole reader.old.share → IsUnownedBehind E.unowned reader.old.log self.old }
    {
        self.add::<(), (), Nothing>(log, reader, &(), &())
    }

    /// Adds the entry that the two values are the reason of, and shows all to the reader, which had seen a
    /// beginning. The entry is the reader's own, which has a share. Where it has all of the right, what it
    /// had not seen is unowned.
    pub fn append_of<X, Y, M: EntryOf<X, Y, E>>(
        &mut self,
        log: &GhostLog<E, J>,
        reader: &mut Reader<E, J>,
        about: &X,
        answer: &Y,
    )
        requires share { HasShare reader.old.share }
        ensures added { self.new ≡ self.old ++ M.entry about.now answer.now ∷ [] }
        ensures shown { reader.new ≡ known (self.old ++ M.entry about.now answer.now ∷ [])
            (length self.old ∷ reader.old.own) reader.old.share }
        ensures seen { IsPrefix reader.old.log self.old }
        ensures only { IsWhole reader.old.share → IsUnownedBehind E.unowned reader.old.log self.old }
    {
        self.add::<X, Y, Own<M>>(log, reader, about, answer)
    }

    /// As `append_of`, but the entry is unowned, so the reader needs no share.
    pub fn append_unowned_of<X, Y, M: EntryOf<X, Y, E>>(
        &mut self,
        log: &GhostLog<E, J>,
        reader: &mut Reader<E, J>,
        about: &X,
        answer: &Y,
    )
        requires unowned { E.unowned (M.entry about.now answer.now) }
        ensures added { self.new ≡ self.old ++ M.entry about.now answer.now ∷ [] }
        ensures shown { reader.new ≡ known (self.old ++ M.entry about.now answer.now ∷ [])
            reader.old.own reader.old.share }
        ensures seen { IsPrefix reader.old.log self.old }
        ensures only { IsWhole reader.old.share → IsUnownedBehind E.unowned reader.old.log self.old }
    {
        self.add::<X, Y, Unowned<M>>(log, reader, about, answer)
    }

    fn add<X, Y, P: Adds<X, Y, E>>(
        &mut self,
        log: &GhostLog<E, J>,
        reader: &mut Reader<E, J>,
        about: &X,
        answer: &Y,
    )
        requires may { MayAdd E.unowned reader.old.share (P.adds about.now answer.now) }
        ensures added { self.new ≡ self.old ++ entries (P.adds about.now answer.now) }
        ensures shown { reader.new ≡ known (self.old ++ entries (P.adds about.now answer.now))
            (place_of self.old (P.adds about.now answer.now) ++ reader.old.own) reader.old.share }
        ensures seen { IsPrefix reader.old.log self.old }
        ensures only { IsWhole reader.old.share → IsUnownedBehind E.unowned reader.old.log self.old }
    {
        self.extend::<X, Y, Brand>(log, reader, about, answer)
    }

    fn extend<X, Y, N: More<E>>(
        &mut self,
        log: &GhostLog<E, J>,
        reader: &mut Reader<E, J>,
        about: &X,
        answer: &Y,
    )
        requires may { MayAdd E.unowned reader.old.share N.more }
        ensures added { self.new ≡ self.old ++ entries N.more }
        ensures shown { reader.new ≡ known (self.old ++ entries N.more)
            (place_of self.old N.more ++ reader.old.own) reader.old.share }
        ensures seen { IsPrefix reader.old.log self.old }
        ensures only { IsWhole reader.old.share → IsUnownedBehind E.unowned reader.old.log self.old }
    {
        let shared = &log.table.shared;
        let whole = shared.split_seat::<Goes>(&mut reader.seat);
        shared.join_seat::<Meets>(&mut self.seat, whole);
        shared.load::<Writes<N>>(&mut self.seat, 0);
        let seat = shared.split_seat::<LogParts>(&mut self.seat);
        *reader = Reader::over(seat);
    }
}
