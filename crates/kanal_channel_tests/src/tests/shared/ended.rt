//! Calls whose wait has begun, which the lock shows, and what ends such a wait in an error.
use crate::tests::given::{common, equal, handles, holds};
use kanal_channel::Shared;
use kanal_core::error::{ReceiveError, SendError};
use kanal_given::{Counted, Drops};
use kanal_state::NoHistory;
use std::sync::Wait;
use std::thread;

/// How often a test looks for a wait before it gives up.
const LOOKS: u32 = 10_000_000;

/// Whether a wait begins.
pub fn begins<T: Drop, R: Wait>(rt: &R, shared: &Shared<T, NoHistory>) -> bool {
    for _ in 0..LOOKS {
        let locked = shared.lock(rt);
        let waits = locked.state.somebody_waits();
        locked.unlock_and_drain();
        if waits {
            return true;
        }
        thread::yield_now();
    }
    false
}

#[test]
fn a_close_or_a_seal_ends_a_receive_that_waits(rt: HostRuntime) {
    for error in [ReceiveError::Closed, ReceiveError::SendClosed] {
        let (shared, other) = common::<u64>(&rt, 1);
        let thread = thread::spawn(&rt, move || other.recv(&rt, &mut ())).expect(&rt, "a thread");
        holds(&rt, begins(&rt, &shared));
        let ended = if error == ReceiveError::Closed {
            shared.close(&rt, &mut ())
        } else {
            shared.seal(&rt, &mut ())
        };
        equal(&rt, ended, Ok(()));
        equal(&rt, thread.join(&rt), Err(error));
    }
}

#[test]
fn the_last_sender_ends_a_receive_that_waits(rt: HostRuntime) {
    let (sender, receiver) = handles::<u64>(&rt, 1);
    let thread = thread::spawn(&rt, move || receiver.channel().recv(&rt, &mut ()));
    let thread = thread.expect(&rt, "a thread");
    holds(&rt, begins(&rt, sender.channel()));
    drop(sender);
    equal(&rt, thread.join(&rt), Err(ReceiveError::SendClosed));
}

#[test]
fn a_close_ends_a_send_that_waits(rt: HostRuntime) {
    let drops = Drops::new(rt.alloc()).expect(&rt, "a counter");
    let message = drops.message().expect(&rt, "one more");
    let (shared, other) = common::<Counted>(&rt, 0);
    let thread = thread::spawn(&rt, move || other.send(&rt, &mut (), message));
    let thread = thread.expect(&rt, "a thread");
    holds(&rt, begins(&rt, &shared));
    equal(&rt, shared.close(&rt, &mut ()), Ok(()));
    equal(&rt, thread.join(&rt), Err(SendError::Closed));
    equal(&rt, drops.count(), 1);
}
