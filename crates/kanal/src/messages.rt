//! The messages that a receiver goes through: the iterator, and the loops of `for_each` and `try_for_each`.
//!
//! No other module receives more than one message in a call.
ghost use Rattle.std.specs.Iterator.{at_most};
ghost use Rattle.std.specs.Prelude.{IsErrOf};
ghost use Rattle.kanal.specs.Handles.{pass_of, turns_left};
ghost use Rattle.kanal.specs.Messages.{ReceivesAll, ReceivesNext, ReceivesUntil};

use crate::async_receiver::AsyncReceiver;
use kanal_core::error::ReceiveError;
use kanal_state::{CallContext, History, NoHistory};
use std::sync::{Forever, Wait};

/// The messages of a receiver, as `Receiver::iter` and `ReceiverView::iter` answer them.
///
/// Contracts see the pass by which it receives, and how many turns a loop over it has at most: some 2^64, which
/// no run uses up.
#[derive(Drop)]
pub struct Messages<'a, T, R: Wait, H: History<T> = NoHistory> {
    rt: &'a R,
    receiver: &'a AsyncReceiver<T, H>,
    pass: H::Pass,
    turns: Forever<'a, R>,
}

impl<'a, T: Drop, R: Wait, H: History<T>> Messages<'a, T, R, H> {
    pub(crate) fn new(rt: &'a R, receiver: &'a AsyncReceiver<T, H>, pass: H::Pass) -> Self {
        Messages {
            rt,
            receiver,
            pass,
            turns: rt.forever(),
        }
    }
}

impl<T: Drop, R: Wait, H: History<T>> Iterator for Messages<'_, T, R, H> {
    type Item = T;

    ghost next_gives = { λ old item new. ReceivesNext H.relations (pass_of old) (pass_of new) item };

    ghost remaining = { λ messages. at_most (turns_left messages) };

    /// Receives the next message; `None` where that is refused. It waits for the lock, and for a
    /// message where there is none.
    #[tactic(auto, using(crate::proofs::Receiving::received_next))]
    fn next(&mut self) -> Option<T> {
        self.turns.next();
        self.receiver.channel().recv(self.rt, &mut self.pass).ok()
    }
}

/// Hands each message that comes to the call, until a receive is refused; `Ok` where that is since no sender is left.
pub(crate) fn for_each<T: Drop, H: History<T>, R: CallContext<H::Pass>, F: FnMut(T)>(
    rt: R,
    receiver: &AsyncReceiver<T, H>,
    call: F,
) -> Result<(), ReceiveError>
    requires callable { F.IsAlwaysCallable call }
    ensures received { ReceivesAll H.relations F.FnMut (R.before rt) (R.after rt) call result }
    ensures ended { IsErrOf result ReceiveError.SendClosed → ⊥ }
{
    let (rt, mut pass, end) = rt.enter();
    let answer = receive_all(&rt, receiver, &mut pass, call);
    R::exit(end, pass);
    answer
}

/// Hands each message that comes to the call, until a receive is refused or the call answers an error.
pub(crate) fn try_for_each<
    T: Drop,
    E: Drop,
    H: History<T>,
    R: CallContext<H::Pass>,
    F: FnMut(T) -> Result<(), E>,
>(rt: R, receiver: &AsyncReceiver<T, H>, call: F) -> Result<Result<(), E>, ReceiveError>
    requires callable { F.IsAlwaysCallable call }
    ensures received { ReceivesUntil H.relations F.FnMut (R.before rt) (R.after rt) call result }
    ensures ended { IsErrOf result ReceiveError.SendClosed → ⊥ }
{
    let (rt, mut pass, end) = rt.enter();
    let answer = receive_until(&rt, receiver, &mut pass, call);
    R::exit(end, pass);
    answer
}

fn receive_until<T: Drop, E: Drop, H: History<T>, R: Wait, F: FnMut(T) -> Result<(), E>>(
    rt: &R,
    receiver: &AsyncReceiver<T, H>,
    pass: &mut H::Pass,
    mut call: F,
) -> Result<Result<(), E>, ReceiveError>
    requires callable { F.IsAlwaysCallable call }
    ensures received { ReceivesUntil H.relations F.FnMut pass.old pass.new call result }
    ensures ended { IsErrOf result ReceiveError.SendClosed → ⊥ }
{
    for _ in rt.forever() {
        match receiver.channel().recv(rt, pass) {
            Ok(message) => match call(message) {
                Ok(()) => {},
                Err(error) => return Ok(Err(error)),
            },
            Err(ReceiveError::SendClosed) => return Ok(Ok(())),
            Err(error) => return Err(error),
        }
    }
    unreachable!()
}

fn receive_all<T: Drop, H: History<T>, R: Wait, F: FnMut(T)>(
    rt: &R,
    receiver: &AsyncReceiver<T, H>,
    pass: &mut H::Pass,
    mut call: F,
) -> Result<(), ReceiveError>
    requires callable { F.IsAlwaysCallable call }
    ensures received { ReceivesAll H.relations F.FnMut pass.old pass.new call result }
    ensures ended { IsErrOf result ReceiveError.SendClosed → ⊥ }
{
    for _ in rt.forever() {
        match receiver.channel().recv(rt, pass) {
            Ok(message) => call(message),
            Err(ReceiveError::SendClosed) => return Ok(()),
            Err(error) => return Err(error),
        }
    }
    unreachable!()
}
