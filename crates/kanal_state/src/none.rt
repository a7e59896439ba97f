//! No history: nothing is kept of calls, and nobody needs a pass.
//!
//! It has no bytes, and neither has what it gives out.
ghost use Rattle.std.specs.Prelude.{◌≡◌};

use crate::call::Call;
use crate::history::History;
use kanal_log::EntryOf;

/// Nothing is kept of calls. It is the history of a channel of plain handles.
#[derive(Drop)]
pub struct NoHistory;

impl<T> History<T> for NoHistory {
    ghost use Rattle.kanal_state.specs.Exchanges.{nothing_exchanged};
    ghost use Rattle.kanal_state.specs.HistoryRelations.{nothing_told, nothing_sound};

    type Pass = ();

    type Log = ();

    type Prefix = ();

    type InternalPass = ();

    ghost stands = { λ _ _. Unit {0} };

    ghost relations = { nothing_told };

    ghost internal_relations = { nothing_told };

    ghost exchanges = { λ _ _ _ _. Unit {0} };

    ghost shows = { λ _ _. Unit {0} };

    #[inline(always)]
    fn append<X, Y, M: EntryOf<X, Y, Call<T>>>(
        &mut self,
        _log: &(),
        _pass: &mut (),
        _about: &X,
        _answer: &Y,
    ) {}

    #[inline(always)]
    fn append_internal<X, Y, M: EntryOf<X, Y, Call<T>>>(
        &mut self,
        _log: &(),
        _internal_pass: &mut (),
        _about: &X,
        _answer: &Y,
    ) {}

    #[inline(always)]
    fn internal_prefix(_log: &(), _internal_pass: &mut ()) {}

    #[inline(always)]
    fn show(&mut self, _log: &(), _pass: &mut ()) {}

    #[inline(always)]
    fn prefix(_log: &(), _pass: &mut ()) {}

    #[inline(always)]
    fn again(_log: &(), _prefix: &mut ()) {}

    #[inline(always)]
    fn learn(_log: &(), _pass: &mut (), _prefix: ()) {}

    ghost sound = { nothing_sound };

    ghost internal_sound = { nothing_sound };

    ghost tells_exchanges = { nothing_exchanged };
}
