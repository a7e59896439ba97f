//! Who makes the calls of an exchange: a thread, which waits in them, or a task.
//!
//! A pass goes into each call and comes out of it, since a future carries its pass. A call that is refused lets its
//! pass go; `exchange` keeps a second one beside it, which closes the channel.
ghost use Rattle.std.specs.Prelude.{◌≡◌, ◌∷◌, [], IfOk};

use crate::error::{Answer, ExchangeError};
use futures::executor::block_on;
use kanal_futures::{recv_in_task, send_in_task};
use kanal_one_history::Shared;
use kanal_state::History;
use std::alloc::AllocGlobal;
use std::random::RandomSource;
use std::sync::Wait;

/// One end of an exchange, as a type.
pub(crate) trait Endpoint<R: Wait> {
    /// Sends one message, and waits where there is no place for it.
    fn send<T: Drop, H: History<T>>(
        rt: &R,
        shared: &Shared<T, H>,
        pass: H::Pass,
        message: T,
    ) -> Answer<H::Pass>
        ensures put { IfOk result (λ p. H.exchanges pass p (message ∷ []) []) };

    /// Receives one message, and waits where there is none.
    fn receive<T: Drop, H: History<T>>(
        rt: &R,
        shared: &Shared<T, H>,
        pass: H::Pass,
    ) -> Answer<(T, H::Pass)>
        ensures got { IfOk result (λ r. H.exchanges pass r.1 [] (r.0 ∷ [])) };
}

/// A thread.
pub(crate) struct InThread;

impl<R: Wait> Endpoint<R> for InThread {
    fn send<T: Drop, H: History<T>>(
        rt: &R,
        shared: &Shared<T, H>,
        pass: H::Pass,
        message: T,
    ) -> Answer<H::Pass>
        ensures put { IfOk result (λ p. H.exchanges pass p (message ∷ []) []) }
    {
        let mut pass = pass;
        shared.send(rt, &mut pass, message)?;
        Ok(pass)
    }

    fn receive<T: Drop, H: History<T>>(
        rt: &R,
        shared: &Shared<T, H>,
        pass: H::Pass,
    ) -> Answer<(T, H::Pass)>
        ensures got { IfOk result (λ r. H.exchanges pass r.1 [] (r.0 ∷ [])) }
    {
        let mut pass = pass;
        let message = shared.recv(rt, &mut pass)?;
        Ok((message, pass))
    }
}

/// A task, which an executor may refuse.
pub(crate) struct InTask;

impl<R: Wait + RandomSource + AllocGlobal> Endpoint<R> for InTask {
    fn send<T: Drop, H: History<T>>(
        rt: &R,
        shared: &Shared<T, H>,
        pass: H::Pass,
        message: T,
    ) -> Answer<H::Pass>
        ensures put { IfOk result (λ p. H.exchanges pass p (message ∷ []) []) }
    {
        match block_on(rt, send_in_task(shared, pass, message)) {
            Ok(Some(sent)) => {
                let (pass, answer) = sent.into_parts();
                answer?;
                Ok(pass)
            },
            Ok(None) => unreachable!(),
            Err(_refused) => Err(ExchangeError::Task),
        }
    }

    fn receive<T: Drop, H: History<T>>(
        rt: &R,
        shared: &Shared<T, H>,
        pass: H::Pass,
    ) -> Answer<(T, H::Pass)>
        ensures got { IfOk result (λ r. H.exchanges pass r.1 [] (r.0 ∷ [])) }
    {
        match block_on(rt, recv_in_task(shared, pass)) {
            Ok(Some(received)) => {
                let (pass, answer) = received.into_parts();
                Ok((answer?, pass))
            },
            Ok(None) => unreachable!(),
            Err(_refused) => Err(ExchangeError::Task),
        }
    }
}
