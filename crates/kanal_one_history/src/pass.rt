//! The passes by which threads call a channel with one history, and what of a pass goes to waiters.
//!
//! Its types keep that what was seen is legal. A pass makes no call by itself: the calls are the channel's, which has
//! the log and the lock.
ghost use Rattle.std.specs.Prelude.{◌≡◌, ◌++◌, ℕ, [], take};
ghost use mathlib.Core.List.{IsPrefix};
ghost use Rattle.kanal_log.specs.Shares.{IsWhole, both, half};
ghost use Rattle.kanal_log.specs.Views.{AreDisjoint, AreDistinct, OneBegins, OwnsAllBut, known};
ghost use Rattle.kanal_state.specs.Calls.{MovesNoMessage};
ghost use Rattle.kanal_journal.specs.Paired.{Paired};
ghost use Rattle.kanal_one_history.specs.Accounts.{LeadsAsTold};
ghost use Rattle.kanal_one_history.specs.Calls.{IsLegal, history_of};
ghost use Rattle.kanal_one_history.specs.Puts.{EachEndsOnce, WaitsAsSettled, WaitsComeFirst};

use kanal_log::{GhostLog, LogId, Reader};
use kanal_state::Call;
use std::marker::Model;

/// What a caller has seen of a channel's history, and which calls of it are its own. It takes no bytes.
///
/// Contracts see the calls as `log`, the places of its own ones, the latest first, as `own`, and as `share` its
/// share of the right to add calls, which it always has. Dropping a pass ends nothing: the counts of a channel
/// change by calls alone.
#[derive(Drop)]
pub struct GhostPass<T, J: LogId> {
    pub(crate) reader: Reader<Call<T>, J>,
}

impl<T, J: LogId> Model for GhostPass<T, J> {
    ghost use Rattle.kanal_log.specs.Shares.{HasShare};
    ghost use Rattle.kanal_log.specs.Views.{Known};
    ghost use Rattle.kanal_state.specs.declared.call.Call.{Call};
    ghost use Rattle.kanal_one_history.specs.Calls.{IsLegal};

    ghost Value = { Known (Call T) };

    ghost view = { λ p. p.reader };

    ghost invariant = { λ p. IsLegal J.capacity p.reader.log × HasShare p.reader.share };
}

impl<T, J: LogId> GhostPass<T, J> {
    /// What holds of every pass, for a caller's proof; it does nothing when it runs.
    ///
    /// One line of messages tells of the calls that the pass has seen what was told of them. At every cut of them the
    /// i-th kept message went to the i-th kept demand, by the definitions that `run` of the journal cites. No ticket
    /// was settled and withdrawn, or one of both twice. A wait that was settled otherwise than by an end was neither
    /// withdrawn nor ended, and was given what its settlement says. Each ticket that a call settled or withdrew was
    /// told to a call before it, which began to wait. The events of the calls lead a new channel to an account that
    /// tells the same, so each law of the journal can be cited of them.
    /// Example: `pass.holds()` and the caller's proof has these facts.
    pub fn holds(&self)
        ensures legal { IsLegal J.capacity self.now.log }
        ensures paired { (n : ℕ) → Paired (history_of (take n self.now.log)) }
        ensures ends_once { EachEndsOnce self.now.log }
        ensures as_settled { WaitsAsSettled self.now.log }
        ensures waits_first { WaitsComeFirst self.now.log }
        ensures leads { LeadsAsTold J.capacity self.now.log }
    {
        let _ = &self.reader;
    }

    /// A pass for another thread, which has seen as much and owns no call. Each of the two has half of the
    /// share. It is no call itself, counts no sender and no receiver, and never waits.
    /// Example: `let other = pass.again(&log)` goes to another thread.
    pub fn again(&mut self, log: &GhostLog<Call<T>, J>) -> Self
        ensures copy { result ≡ known self.old.log [] (half self.old.share) }
        ensures same { self.new ≡ known self.old.log self.old.own (half self.old.share) }
    {
        GhostPass {
            reader: self.reader.again(log),
        }
    }

    /// Hands on what another pass has seen: this one has seen it, too, owns the calls of both, and has both
    /// shares. It never waits.
    ///
    /// Each later call of this pass stands in the history after all that it has learnt of.
    /// Example: `pass.learn(&log, other)` where `other` comes back from another thread.
    pub fn learn(&mut self, log: &GhostLog<Call<T>, J>, other: Self)
        ensures this { IsPrefix self.old.log self.new.log }
        ensures that { IsPrefix other.log self.new.log }
        ensures one { OneBegins self.old.log other.log }
        ensures own { self.new.own ≡ other.own ++ self.old.own }
        ensures share { self.new.share ≡ both other.share self.old.share }
    {
        let GhostPass { reader } = other;
        self.reader.learn(log, reader);
    }

    /// A pass that has all of the right to add calls owns each send, receive, drain and close that it has seen. It
    /// changes nothing, and never waits.
    /// Example: `one.owns_all(&log)` where all other passes came back by `learn`.
    pub fn owns_all(&mut self, log: &GhostLog<Call<T>, J>)
        requires whole { IsWhole self.old.share }
        ensures same { self.new ≡ self.old }
        ensures each { OwnsAllBut (λ call. MovesNoMessage call.event) self.old.log self.old.own }
    {
        self.reader.owns_all(log);
    }

    /// Two passes have seen beginnings of one history: one of the two begins with the other. It changes neither, and
    /// never waits.
    /// Example: `one.compare(&log, &mut other)` and the caller's proof has it.
    pub fn compare(&mut self, log: &GhostLog<Call<T>, J>, other: &mut Self)
        ensures same { (self.new ≡ self.old) × (other.new ≡ other.old) }
        ensures one { OneBegins self.old.log other.old.log }
    {
        self.reader.compare(log, &mut other.reader);
    }

    /// No entry of the history answers for two calls: no place is own to both passes, and none stands twice among the
    /// places of one. So a pass has made as many calls as it has places. It changes neither, and never waits.
    /// Example: `one.owns_once(&log, &mut other)` and the caller's proof has it.
    pub fn owns_once(&mut self, log: &GhostLog<Call<T>, J>, other: &mut Self)
        ensures same { (self.new ≡ self.old) × (other.new ≡ other.old) }
        ensures apart { AreDisjoint self.old.own other.old.own }
        ensures each { AreDistinct self.old.own × AreDistinct other.old.own }
    {
        self.reader.compare(log, &mut other.reader);
    }
}

/// What a pass has seen of a channel's history, by which no call can be made. It takes no bytes, and contracts
/// see the calls.
#[derive(Drop)]
pub struct Prefix<T, J: LogId> {
    reader: Reader<Call<T>, J>,
}

impl<T, J: LogId> Model for Prefix<T, J> {
    ghost use Rattle.std.specs.Prelude.{◌≡◌, List, []};
    ghost use Rattle.kanal_log.specs.Shares.{nothing};
    ghost use Rattle.kanal_state.specs.declared.call.Call.{Call};
    ghost use Rattle.kanal_one_history.specs.Calls.{IsLegal};

    ghost Value = { List (Call T) };

    ghost view = { λ p. p.reader.log };

    ghost invariant = { λ p. IsLegal J.capacity p.reader.log × (p.reader.own ≡ [])
        × (p.reader.share ≡ nothing) };
}

impl<T, J: LogId> Prefix<T, J> {
    pub(crate) fn of(log: &GhostLog<Call<T>, J>, reader: &mut Reader<Call<T>, J>) -> Self
        requires legal { IsLegal J.capacity reader.old.log }
        ensures seen { result ≡ reader.old.log }
        ensures same { reader.new ≡ reader.old }
    {
        Prefix {
            reader: reader.read(log),
        }
    }

    pub(crate) fn again(&mut self, log: &GhostLog<Call<T>, J>) -> Self
        ensures seen { result ≡ self.old }
        ensures same { self.new ≡ self.old }
    {
        Prefix::of(log, &mut self.reader)
    }

    pub(crate) fn teach(self, log: &GhostLog<Call<T>, J>, pass: &mut GhostPass<T, J>)
        ensures this { IsPrefix pass.old.log pass.new.log }
        ensures that { IsPrefix self pass.new.log }
        ensures own { pass.new.own ≡ pass.old.own }
        ensures share { pass.new.share ≡ pass.old.share }
    {
        let Prefix { reader } = self;
        pass.reader.learn(log, reader);
    }
}

/// What makes the internal calls: the drops of handles, and the withdrawals of waits that were left.
/// It takes no bytes, and contracts see the calls that it has seen.
#[derive(Drop)]
pub struct InternalPass<T, J: LogId> {
    pub(crate) reader: Reader<Call<T>, J>,
}

impl<T, J: LogId> Model for InternalPass<T, J> {
    ghost use Rattle.std.specs.Prelude.{List};
    ghost use Rattle.kanal_state.specs.declared.call.Call.{Call};
    ghost use Rattle.kanal_one_history.specs.Calls.{IsLegal};

    ghost Value = { List (Call T) };

    ghost view = { λ c. c.reader.log };

    ghost invariant = { λ c. IsLegal J.capacity c.reader.log };
}
