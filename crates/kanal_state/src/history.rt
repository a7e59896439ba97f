//! The trait of a history of the calls on a channel's line.
ghost use Rattle.std.specs.Prelude.{◌≡◌, ℕ, List};
ghost use Rattle.kanal_core.specs.Line.{Line};
ghost use Rattle.kanal_core.specs.declared.internal.outcome.Outcome.{Outcome};
ghost use Rattle.kanal_state.specs.Calls.{MovesNoMessage, IsToldOn, line_by};
ghost use Rattle.kanal_state.specs.Exchanges.{TellsExchanges};
ghost use Rattle.kanal_state.specs.HistoryRelations.{AreSound, HistoryRelations};

use crate::call::Call;
use kanal_log::EntryOf;

/// What is kept of the calls on a channel's line. It lies under the channel's lock, beside the core.
pub trait History<T>: Drop {
    /// What a caller has, and each call is lent: what it has seen of the calls, and which are its own.
    type Pass: Drop;
    /// What all who share the channel share of what is kept.
    type Log: Drop;
    /// What a pass has seen, for who is told of a settlement. No call is made by it: `append` takes a pass.
    type Prefix: Drop;
    /// What makes the internal calls: the drops of handles, and the withdrawals of waits that were
    /// left. It lies under the lock.
    type InternalPass: Drop;

    /// What is kept led to this line.
    ghost stands: { Self → Line T → Type 0 };

    /// What passes tell of calls.
    ghost relations: { HistoryRelations T Self.Pass };

    /// What is told of internal calls.
    ghost internal_relations: { HistoryRelations T Self.InternalPass };

    /// One call took the first pass to the second, put the first messages and got the others.
    ghost exchanges: { Self.Pass → Self.Pass → List T → List T → Type 0 };

    /// What was seen has it that a call settled the ticket so.
    ghost shows: { Self.Prefix → ℕ × Outcome T → Type 0 };

    /// Keeps the call that the two values are the entry of, as a call of this pass.
    fn append<X, Y, M: EntryOf<X, Y, Call<T>>>(
        &mut self,
        log: &Self::Log,
        pass: &mut Self::Pass,
        about: &X,
        answer: &Y,
    )
        requires told { (l : Line _) × stands self.old l
            × IsToldOn l (M.entry about.now answer.now) }
        ensures stands { (l : Line _) → stands self.old l
            → stands self.new (line_by (M.entry about.now answer.now) l) }
        ensures made { relations.appends pass.old pass.new (M.entry about.now answer.now) };

    /// Keeps the call that the two values are the entry of, as an internal call. It puts no message, asks for
    /// none and clears none.
    fn append_internal<X, Y, M: EntryOf<X, Y, Call<T>>>(
        &mut self,
        log: &Self::Log,
        internal_pass: &mut Self::InternalPass,
        about: &X,
        answer: &Y,
    )
        requires told { (l : Line _) × stands self.old l
            × IsToldOn l (M.entry about.now answer.now) }
        requires no_message { MovesNoMessage (M.entry about.now answer.now).event }
        ensures stands { (l : Line _) → stands self.old l
            → stands self.new (line_by (M.entry about.now answer.now) l) }
        ensures made { internal_relations.appends internal_pass.old internal_pass.new (M.entry about.now answer.now) };

    /// What was seen by the internal calls.
    fn internal_prefix(log: &Self::Log, internal_pass: &mut Self::InternalPass) -> Self::Prefix
        ensures same { internal_pass.new ≡ internal_pass.old }
        ensures settled { (pair : ℕ × Outcome _) → internal_relations.saw_settled internal_pass.old pair
            → shows result pair };

    /// Shows the pass all that is kept.
    fn show(&mut self, log: &Self::Log, pass: &mut Self::Pass)
        ensures stands { (l : Line _) → stands self.old l → stands self.new l }
        ensures extends { relations.extends pass.old pass.new }
        ensures reaches { (l : Line _) → stands self.old l → relations.reaches pass.new l };

    /// What the pass has seen.
    fn prefix(log: &Self::Log, pass: &mut Self::Pass) -> Self::Prefix
        ensures same { pass.new ≡ pass.old }
        ensures settled { (pair : ℕ × Outcome _) → relations.saw_settled pass.old pair
            → shows result pair };

    /// A copy of it.
    fn again(log: &Self::Log, prefix: &mut Self::Prefix) -> Self::Prefix
        ensures same { (pair : ℕ × Outcome _) → shows prefix.old pair → shows prefix.new pair }
        ensures settled { (pair : ℕ × Outcome _) → shows prefix.old pair → shows result pair };

    /// The pass learns what was seen, and makes no call.
    fn learn(log: &Self::Log, pass: &mut Self::Pass, prefix: Self::Prefix)
        ensures extends { relations.extends pass.old pass.new }
        ensures settled { (pair : ℕ × Outcome _) → shows prefix pair
            → relations.saw_settled pass.new pair };

    /// What passes tell of calls hangs together.
    ghost sound: { AreSound relations };

    /// So does what is told of internal calls.
    ghost internal_sound: { AreSound internal_relations };

    /// What calls put and got goes by what was told of them.
    ghost tells_exchanges: { TellsExchanges relations exchanges };
}
