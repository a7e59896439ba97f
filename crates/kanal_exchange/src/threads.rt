//! Two calls at once: one in a new thread, the other in this one.
//!
//! No other module starts a thread.
ghost use Rattle.std.specs.Prelude.{Result, Ok, IfOk};
ghost use Rattle.kanal_exchange.specs.declared.error.ExchangeError.{ExchangeError};

use crate::error::{Answer, ExchangeError, both_of};
use std::sync::Wait;
use std::thread;
use std::thread::{Promise, Threads};

/// Calls `f` in a new thread and `g` in this one, and waits until both have ended. The promise says what is
/// known of the other thread's answer.
///
/// `g` is told whether the thread was started. Where it was not, `f` is dropped, and `g` is called all the same so
/// that it closes the channel on which a thread may wait. On a channel of which `f` had the other end nobody waits.
///
/// # Errors
/// That of one of the two calls, and `NoThread` where the thread could not be started.
pub(crate) fn both<R, P, F, G, A, B>(rt: &R, promise: P, f: F, g: G) -> Answer<(A, B)>
where
    R: Threads + Wait,
    P: Promise<Answer<A>> + Drop,
    F: FnOnce() -> Answer<A> + Send + Drop,
    G: FnOnce(Answer<()>) -> Answer<B>,
    A: Send + Drop,
    B: Drop,
    requires runs { F.pre f }
    requires keeps { (r : Result A ExchangeError) → F.post f r → P.kept_by promise r }
    requires other { G.IsAlwaysCallable g }
    ensures both { IfOk result (λ both. P.kept_by promise (Ok both.0) × G.post g (Ok tt) (Ok both.1)) }
{
    thread::scope(
        thread::scope_env(),
        rt,
        move |scope| -> Answer<(A, B)>
            requires { F.pre f × ((r : Result A ExchangeError) → F.post f r → P.kept_by promise r)
                × G.IsAlwaysCallable g }
            ensures { IfOk result (λ both. P.kept_by promise (Ok both.0)
                × G.post g (Ok tt) (Ok both.1)) }
        {
            match scope.spawn_with(promise, f) {
                Ok(thread) => {
                    let here = g(Ok(()));
                    both_of(thread.join(rt), here)
                },
                Err(refused) => {
                    drop(refused);
                    let _ended = g(Err(ExchangeError::NoThread));
                    Err(ExchangeError::NoThread)
                },
            }
        },
    )
}
