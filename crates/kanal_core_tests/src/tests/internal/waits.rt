//! Waits on the core, at a W that isn't `Copy`: who is let in, handed, withdrawn, found, ended and drained,
//! and the last ticket.
use crate::tests::given::{boxed, core_of, equal, holds};
use crate::tests::waits::{filled, next_end, receive, received, send, sent};
use kanal_core::error::{CloseError, WaitError};
use kanal_core::internal::{ChannelInternal, Closing, Offer, Outcome, Reason, Steps, Take, Ticket};
use std::alloc::AllocGlobal;
use std::marker::Brand;

type BoxCore = ChannelInternal<u64, Box<u32>>;

/// The message of a take, and what the sender brought that it lets in.
fn take(core: &mut BoxCore) -> Option<(u64, Option<u32>)> {
    match core.take() {
        Take::Got(message, Some(settled)) => Some((message, Some(*settled.w))),
        Take::Got(message, None) => Some((message, None)),
        _ => None,
    }
}

#[test]
fn a_sender_is_let_in_and_a_receiver_is_handed(rt: HostRuntime) {
    let mut core: BoxCore = filled(&rt);
    let ticket = send(&rt, &mut core, 2, boxed(&rt, 7));
    equal(&rt, ticket.number(), 0);
    equal(&rt, take(&mut core), Some((1, Some(7))));
    equal(&rt, take(&mut core), Some((2, None)));
    let ticket = receive(&rt, &mut core, boxed(&rt, 8));
    equal(&rt, ticket.number(), 1);
    let handed = match core.offer(5) {
        Offer::Handed(settled) => Some((*settled.w, settled.outcome)),
        _ => None,
    };
    equal(&rt, handed, Some((8, Outcome::Given(5))));
}

/// The message of a wait that is withdrawn, and what it brought.
fn withdraw(core: &mut BoxCore, ticket: Ticket) -> Option<(Option<u64>, u32)> {
    match core.withdraw(ticket, &mut Steps::<Brand>::idle()) {
        Some(waiter) => Some((waiter.message, *waiter.w)),
        None => None,
    }
}

#[test]
fn a_withdrawn_send(rt: HostRuntime) {
    let mut core: BoxCore = core_of(&rt, 0);
    let ticket = send(&rt, &mut core, 5, boxed(&rt, 7));
    if let Some(w) = core.waiting(ticket) {
        **w = 8;
    }
    equal(&rt, core.first_waiter(|w| **w == 8), Some(ticket));
    equal(&rt, core.first_waiter(|w| **w == 7), None);
    equal(&rt, withdraw(&mut core, ticket), Some((Some(5), 8)));
    equal(&rt, withdraw(&mut core, ticket), None);
}

/// The first and the second are withdrawn, and the third stands at the first's place.
#[test]
fn a_place_that_is_used_again(rt: HostRuntime) {
    let mut core: BoxCore = core_of(&rt, 0);
    let oldest = send(&rt, &mut core, 1, boxed(&rt, 11));
    let second = send(&rt, &mut core, 2, boxed(&rt, 9));
    equal(&rt, withdraw(&mut core, oldest), Some((Some(1), 11)));
    let third = send(&rt, &mut core, 3, boxed(&rt, 13));
    equal(&rt, withdraw(&mut core, oldest), None);
    equal(&rt, core.next_waiter(second, |w| **w != 9), Some(third));
    equal(&rt, core.next_waiter(third, |w| **w != 9), None);
    equal(&rt, withdraw(&mut core, second), Some((Some(2), 9)));
    equal(&rt, core.next_waiter(second, |w| **w != 9), None);
    equal(&rt, take(&mut core), Some((3, Some(13))));
    equal(&rt, take(&mut core), None);
}

#[test]
fn a_close_ends_the_senders_that_wait(rt: HostRuntime) {
    let mut core: BoxCore = filled(&rt);
    send(&rt, &mut core, 2, boxed(&rt, 7));
    let Closing {
        mut cleared,
        mut ended,
    } = core.close().expect(&rt, "a close");
    equal(&rt, (cleared.next(), cleared.next()), (Some(1), None));
    let outcome = Outcome::Ended(Reason::Closed, Some(2));
    equal(&rt, next_end(&mut ended), Some((7, outcome)));
    equal(&rt, next_end(&mut ended), None);
    equal(&rt, core.close().err(), Some(CloseError()));
    equal(&rt, (core.is_closed(), core.is_terminated()), (true, true));
}

#[test]
fn the_end_of_one_side_ends_who_waits_on_the_other(rt: HostRuntime) {
    let mut core: BoxCore = core_of(&rt, 1);
    receive(&rt, &mut core, boxed(&rt, 7));
    let mut ended = core.seal().ok().expect(&rt, "a seal");
    let outcome = Outcome::Ended(Reason::SendClosed, None);
    equal(&rt, next_end(&mut ended), Some((7, outcome)));
    holds(&rt, matches!(core.offer(2), Offer::Sealed(2)));
    // So does the drop of the last sender.
    let mut core: BoxCore = core_of(&rt, 1);
    receive(&rt, &mut core, boxed(&rt, 7));
    let outcome = Outcome::Ended(Reason::SendClosed, None);
    let mut ended = core.drop_sender();
    equal(&rt, next_end(&mut ended), Some((7, outcome)));
    // And that of the last receiver ends the sends.
    let mut core: BoxCore = filled(&rt);
    send(&rt, &mut core, 2, boxed(&rt, 8));
    let outcome = Outcome::Ended(Reason::ReceiveClosed, Some(2));
    let mut ended = core.drop_receiver();
    equal(&rt, next_end(&mut ended), Some((8, outcome)));
}

#[test]
fn a_drain_takes_the_senders_that_wait(rt: HostRuntime) {
    let mut core: BoxCore = filled(&rt);
    send(&rt, &mut core, 2, boxed(&rt, 7));
    send(&rt, &mut core, 3, boxed(&rt, 8));
    let mut messages = vec![in rt.alloc(); 9].expect(&rt, "memory for a vector");
    let (moved, mut taken) = core.drain_into(&mut messages).expect(&rt, "a drain");
    equal(&rt, moved, 3);
    equal(&rt, messages.as_slice(), [9, 1, 2, 3].as_slice());
    equal(&rt, next_end(&mut taken), Some((7, Outcome::Taken)));
    equal(&rt, next_end(&mut taken), Some((8, Outcome::Taken)));
    equal(&rt, next_end(&mut taken), None);
}

/// The last ticket waits, and the receive behind it is refused: its W comes back. Where none is left a send is
/// refused, and its message comes back, too.
#[test]
fn the_last_ticket_and_none(rt: HostRuntime) {
    let core = BoxCore::starting_at(rt.alloc(), Some(0), u64::MAX - 1, 1, 1);
    let mut core = core.expect(&rt, "a core");
    let ticket = receive(&rt, &mut core, boxed(&rt, 7));
    equal(&rt, ticket.number(), u64::MAX - 1);
    let answer = received(&mut core, boxed(&rt, 8)).expect(&rt, "it finds no message");
    let (reason, w) = answer.err().expect(&rt, "a refusal");
    equal(&rt, (reason, *w), (WaitError::TooMany, 8));
    let core = BoxCore::starting_at(rt.alloc(), Some(0), u64::MAX, 1, 1);
    let mut core = core.expect(&rt, "a core");
    let answer = sent(&mut core, 6, boxed(&rt, 9)).expect(&rt, "it finds no place");
    let (reason, back, w) = answer.err().expect(&rt, "a refusal");
    equal(&rt, (reason, back, *w), (WaitError::TooMany, 6, 9));
}
