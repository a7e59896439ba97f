//! What a seat of a log knows, the rule of all views, and the names of the steps.
//!
//! Only the log and its readers step a seat by these.
use crate::entry::{LogEntry, More};
use atomic_table::{Join, Play, Split, TableRule};
use std::collections::LinkedList;
use std::marker::{Brand, PhantomData};

/// Which log it is, and how many messages its channel has room for, `None` being no limit.
///
/// A program that gives a channel a name picks one at a `Brand`, by an `Invariants` file of four lines.
pub trait LogId {
    ghost use Rattle.std.specs.Prelude.{ℕ, Option};
    ghost use Rattle.atomic_table.specs.Seated.{TableId};

    ghost table: { TableId };

    ghost capacity: { Option ℕ };
}

impl LogId for Brand {
    ghost use Rattle.std.specs.Prelude.{None};
    ghost use Rattle.kanal_log.specs.Views.{no_table};

    ghost table = { no_table };

    ghost capacity = { None };
}

/// A share of the right to add entries: so many of the equal parts into which so many halvings cut all of it.
/// No value of it is made, so that its numbers have no bound.
pub struct Share {
    pub count: u64,
    pub halvings: u64,
}

/// What a seat knows: the writer the whole history, another a beginning; which places are its own; and
/// its share of the right to add entries.
/// What another seat has put into it stands apart, until it is taken back. No value of it is made.
pub struct LogView<E> {
    pub keeps: bool,
    pub log: LinkedList<E>,
    pub own: LinkedList<u64>,
    pub share: Share,
    pub other: LinkedList<E>,
    pub others_own: LinkedList<u64>,
    pub others_share: Share,
}

/// The log's rule.
pub struct Law;

impl<E: LogEntry> TableRule<(), LogView<E>, ()> for Law {
    ghost use Rattle.kanal_log.specs.Shares.{whole};
    ghost use Rattle.kanal_log.specs.Views.{writer_view_with, ViewsAgree};

    ghost holds = { λ k s. ViewsAgree E.unowned s.views };

    ghost first = { λ k. writer_view_with [] whole };

    ghost use Rattle.std.specs.Prelude.{[]};
}

/// The writer adds to the history, and shows all to the reader that was put into it.
pub(crate) struct Writes<N> {
    of: PhantomData<N>,
}

impl<E: LogEntry, N: More<E>> Play<(), LogView<E>> for Writes<N> {
    ghost use Rattle.kanal_log.specs.Views.{Extended};

    ghost then = { λ s v n w. Extended E.unowned N.more v w };
}

/// A reader is compared with the one that was put into it.
pub(crate) struct Compares;

impl<E> Play<(), LogView<E>> for Compares {
    ghost use Rattle.kanal_log.specs.Views.{Compared};

    ghost then = { λ s v n w. Compared v w };
}

/// A reader goes on to what was put into it, and has its places, too.
pub(crate) struct Learns;

impl<E> Play<(), LogView<E>> for Learns {
    ghost use Rattle.kanal_log.specs.Views.{Learned};

    ghost then = { λ s v n w. Learned v w };
}

/// A reader that has all of the right owns all that it has seen, but for the unowned entries.
pub(crate) struct Checks;

impl<E: LogEntry> Play<(), LogView<E>> for Checks {
    ghost use Rattle.kanal_log.specs.Views.{Checked};

    ghost then = { λ s v n w. Checked E.unowned v w };
}

/// The first reader, which has all of the right.
pub(crate) struct Founds;

impl<E> Split<LogView<E>> for Founds {
    ghost use Rattle.std.specs.Prelude.{[]};
    ghost use Rattle.kanal_log.specs.Shares.{nothing};
    ghost use Rattle.kanal_log.specs.Views.{reader_view, with_share};

    ghost left = { λ v. with_share v nothing };

    ghost right = { λ v. reader_view v.log [] v.share };
}

/// A new reader that has seen as much, owns nothing, and has half of the share.
pub(crate) struct Halves;

impl<E> Split<LogView<E>> for Halves {
    ghost use Rattle.std.specs.Prelude.{[]};
    ghost use Rattle.kanal_log.specs.Shares.{half};
    ghost use Rattle.kanal_log.specs.Views.{reader_view, with_share};

    ghost left = { λ v. with_share v (half v.share) };

    ghost right = { λ v. reader_view v.log [] (half v.share) };
}

/// A new reader that has seen as much, owns nothing, and has no share.
pub(crate) struct Reads;

impl<E> Split<LogView<E>> for Reads {
    ghost use Rattle.std.specs.Prelude.{[]};
    ghost use Rattle.kanal_log.specs.Shares.{nothing};
    ghost use Rattle.kanal_log.specs.Views.{reader_view};

    ghost left = { λ v. v };

    ghost right = { λ v. reader_view v.log [] nothing };
}

/// Moves a view to a new seat; the old one knows nothing then.
pub(crate) struct Goes;

impl<E> Split<LogView<E>> for Goes {
    ghost use Rattle.std.specs.Prelude.{[]};
    ghost use Rattle.kanal_log.specs.Shares.{nothing};
    ghost use Rattle.kanal_log.specs.Views.{reader_view};

    ghost left = { λ v. reader_view [] [] nothing };

    ghost right = { λ v. v };
}

/// What was put into a seat comes out again.
pub(crate) struct LogParts;

impl<E> Split<LogView<E>> for LogParts {
    ghost use Rattle.kanal_log.specs.Views.{alone, reader_view};

    ghost left = { alone };

    ghost right = { λ v. reader_view v.other v.others_own v.others_share };
}

/// A seat is put into another.
pub(crate) struct Meets;

impl<E> Join<LogView<E>> for Meets {
    ghost use Rattle.std.specs.Prelude.{[]};
    ghost use Rattle.kanal_log.specs.Shares.{nothing};
    ghost use Rattle.kanal_log.specs.Views.{beside, reader_view};

    ghost both = { beside };

    ghost spent = { reader_view [] [] nothing };
}
