//! The history that keeps all calls, in proofs alone.
//!
//! Its type keeps that the calls are legal; the line to which they led is the line after them.
ghost use Rattle.std.specs.Prelude.{◌≡◌, []};
ghost use Rattle.kanal_log.specs.Logs.{table_of};
ghost use Rattle.kanal_log.specs.Shares.{whole};
ghost use Rattle.kanal_log.specs.Views.{known};

use crate::pass::{GhostPass, InternalPass, Prefix};
use kanal_log::{EntryOf, GhostLog, LogId, NewLog, Writer};
use kanal_state::{Call, History};
use std::marker::Model;

/// All calls on a channel's line are kept, in proofs alone. It is the history of a channel under a name.
///
/// Contracts see the calls, the first one first. One line of messages tells of them what was told of them.
#[derive(Drop)]
pub struct GhostHistory<T, J: LogId> {
    writer: Writer<Call<T>, J>,
}

impl<T, J: LogId> Model for GhostHistory<T, J> {
    ghost use Rattle.std.specs.Prelude.{List};
    ghost use Rattle.kanal_state.specs.declared.call.Call.{Call};
    ghost use Rattle.kanal_one_history.specs.Calls.{IsLegal};

    ghost Value = { List (Call T) };

    ghost view = { λ h. h.writer };

    ghost invariant = { λ h. IsLegal J.capacity h.writer };
}

impl<T, J: LogId> GhostHistory<T, J> {
    /// The log under a name, a history of no calls on it, and its first pass, which has all of the right to add
    /// calls. The caller knows that the name is this log's.
    /// Example: `let (log, mut history, pass) = GhostHistory::<u64, J>::opened(opened)`; then `pass` has seen
    /// nothing.
    pub fn opened(
        opened: NewLog<Call<T>>,
    ) -> (GhostLog<Call<T>, J>, GhostHistory<T, J>, GhostPass<T, J>)
        requires name { table_of opened ≡ J.table }
        ensures empty { result.1 ≡ [] }
        ensures first { result.2 ≡ known [] [] whole }
    {
        let (log, writer, reader) = opened.named::<J>();
        (log, GhostHistory { writer }, GhostPass { reader })
    }

    /// What makes the internal calls. It has seen all.
    /// Example: `let internal_pass = history.internal_pass(&log)`.
    pub fn internal_pass(&mut self, log: &GhostLog<Call<T>, J>) -> InternalPass<T, J>
        ensures all { result ≡ self.old }
        ensures same { self.new ≡ self.old }
    {
        InternalPass {
            reader: self.writer.read(log),
        }
    }
}

impl<T, J: LogId> History<T> for GhostHistory<T, J> {
    ghost use Rattle.std.specs.Prelude.{◌≡◌};
    ghost use Rattle.kanal_one_history.specs.Calls.{HasSettled, line_after};
    ghost use Rattle.kanal_one_history.specs.Exchanged.{ghost_exchanges};
    ghost use Rattle.kanal_one_history.specs.History.{internal_pass_relations, pass_relations};
    ghost use Rattle.kanal_one_history.specs.Puts.{Exchanges};
    ghost use Rattle.kanal_one_history.specs.Sound.{internal_pass_sound, pass_sound};

    type Pass = GhostPass<T, J>;

    type Log = GhostLog<Call<T>, J>;

    type Prefix = Prefix<T, J>;

    type InternalPass = InternalPass<T, J>;

    ghost stands = { λ calls line. line ≡ line_after J.capacity calls };

    ghost relations = { pass_relations J.capacity };

    ghost internal_relations = { internal_pass_relations J.capacity };

    ghost exchanges = { Exchanges J.capacity };

    ghost shows = { λ calls pair. HasSettled calls pair };

    #[inline(always)]
    fn append<X, Y, M: EntryOf<X, Y, Call<T>>>(
        &mut self,
        log: &GhostLog<Call<T>, J>,
        pass: &mut GhostPass<T, J>,
        about: &X,
        answer: &Y,
    ) {
        let writer = &mut self.writer;
        writer.append_of::<X, Y, M>(log, &mut pass.reader, about, answer);
    }

    #[inline(always)]
    fn append_internal<X, Y, M: EntryOf<X, Y, Call<T>>>(
        &mut self,
        log: &GhostLog<Call<T>, J>,
        internal_pass: &mut InternalPass<T, J>,
        about: &X,
        answer: &Y,
    ) {
        let writer = &mut self.writer;
        writer.append_unowned_of::<X, Y, M>(log, &mut internal_pass.reader, about, answer);
    }

    #[inline(always)]
    fn internal_prefix(
        log: &GhostLog<Call<T>, J>,
        internal_pass: &mut InternalPass<T, J>,
    ) -> Prefix<T, J> {
        Prefix::of(log, &mut internal_pass.reader)
    }

    #[inline(always)]
    fn show(&mut self, log: &GhostLog<Call<T>, J>, pass: &mut GhostPass<T, J>) {
        self.writer.show(log, &mut pass.reader);
    }

    #[inline(always)]
    fn prefix(log: &GhostLog<Call<T>, J>, pass: &mut GhostPass<T, J>) -> Prefix<T, J> {
        Prefix::of(log, &mut pass.reader)
    }

    #[inline(always)]
    fn again(log: &GhostLog<Call<T>, J>, prefix: &mut Prefix<T, J>) -> Prefix<T, J> {
        prefix.again(log)
    }

    #[inline(always)]
    fn learn(log: &GhostLog<Call<T>, J>, pass: &mut GhostPass<T, J>, prefix: Prefix<T, J>) {
        prefix.teach(log, pass);
    }

    ghost sound = { pass_sound J.capacity };

    ghost internal_sound = { internal_pass_sound J.capacity };

    ghost tells_exchanges = { ghost_exchanges J.capacity };
}
