//! What stands in a history, and what a call adds to it.
use std::marker::{Brand, PhantomData};

/// An entry of a history. Those that are unowned need no owner.
pub trait LogEntry {
    ghost unowned: { Self → Type 0 };
}

/// Computes the entry from argument and answer.
pub trait EntryOf<X, Y, E> {
    ghost entry: { X → Y → E };
}

pub(crate) trait Adds<X, Y, E> {
    ghost use Rattle.kanal_log.specs.Views.{Addition};

    ghost adds: { X → Y → Addition E };
}

pub(crate) struct Nothing;

impl<X, Y, E> Adds<X, Y, E> for Nothing {
    ghost use Rattle.kanal_log.specs.Views.{no_entry};

    ghost adds = { λ about answer. no_entry };
}

/// An entry is added that is the reader's own.
pub(crate) struct Own<M> {
    of: PhantomData<M>,
}

impl<X, Y, E, M: EntryOf<X, Y, E>> Adds<X, Y, E> for Own<M> {
    ghost use Rattle.kanal_log.specs.Views.{own_entry};

    ghost adds = { λ about answer. own_entry (M.entry about answer) };
}

/// An entry is added that has no owner.
pub(crate) struct Unowned<M> {
    of: PhantomData<M>,
}

impl<X, Y, E, M: EntryOf<X, Y, E>> Adds<X, Y, E> for Unowned<M> {
    ghost use Rattle.kanal_log.specs.Views.{unowned_entry};

    ghost adds = { λ about answer. unowned_entry (M.entry about answer) };
}

pub(crate) trait More<E> {
    ghost use Rattle.kanal_log.specs.Views.{Addition};

    ghost more: { Addition E };
}

impl<E> More<E> for Brand {
    ghost use Rattle.kanal_log.specs.Views.{no_entry};

    ghost more = { no_entry };
}
