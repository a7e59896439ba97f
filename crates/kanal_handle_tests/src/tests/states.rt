//! Channels in states at which every two questions of one type differ in at least one, and each answers
//! both ways, asked through all handles and views.
use crate::tests::asked::{AllAnswers, answers};
use crate::tests::given::{ends, equal};
use kanal::{Receiver, Sender, unbounded};
use std::process::Abort;
use std::sync::Wait;

/// Asks all questions of a sender for threads, of one for tasks, and of a view.
fn senders_answer(rt: &(impl Wait + Abort), sender: &Sender<u64>, expected: AllAnswers) {
    let for_tasks = sender.as_async();
    let view = for_tasks.as_sync();
    equal(rt, answers!(rt, sender), expected);
    equal(rt, answers!(rt, for_tasks), expected);
    equal(rt, answers!(rt, view), expected);
}

/// Asks a receiver, and its views, which also tell whether no message will come any more.
fn receivers_answer(
    rt: &(impl Wait + Abort),
    receiver: &Receiver<u64>,
    expected: AllAnswers,
    is_terminated: bool,
) {
    let for_tasks = receiver.as_async();
    let view = for_tasks.as_sync();
    equal(rt, answers!(rt, receiver), expected);
    equal(rt, answers!(rt, for_tasks), expected);
    equal(rt, answers!(rt, view), expected);
    let terminated = (
        receiver.is_terminated(rt),
        for_tasks.is_terminated(rt),
        view.is_terminated(rt),
    );
    equal(
        rt,
        terminated,
        (is_terminated, is_terminated, is_terminated),
    );
}

/// One message in two places, two senders and one receiver.
const TWO_SENDERS: AllAnswers = AllAnswers {
    len: 1,
    is_empty: false,
    is_full: false,
    is_bounded: true,
    capacity: 2,
    receiver_count: 1,
    sender_count: 2,
    is_closed: false,
    is_disconnected: false,
};

/// No message and no place, and one handle of each side.
const NONE_WITHOUT_PLACES: AllAnswers = AllAnswers {
    len: 0,
    is_empty: true,
    is_full: true,
    is_bounded: true,
    capacity: 0,
    receiver_count: 1,
    sender_count: 1,
    is_closed: false,
    is_disconnected: false,
};

/// One message without limit, and no sender.
const NO_SENDER: AllAnswers = AllAnswers {
    is_bounded: false,
    capacity: usize::MAX,
    sender_count: 0,
    is_disconnected: true,
    ..TWO_SENDERS
};

/// No sender is left, and the message was received.
const NO_SENDER_NO_MESSAGE: AllAnswers = AllAnswers {
    len: 0,
    is_empty: true,
    ..NO_SENDER
};

/// One message without limit, and no receiver.
const NO_RECEIVER: AllAnswers = AllAnswers {
    receiver_count: 0,
    sender_count: 1,
    ..NO_SENDER
};

/// No message in one place, after a close.
const CLOSED: AllAnswers = AllAnswers {
    len: 0,
    is_empty: true,
    capacity: 1,
    receiver_count: 0,
    sender_count: 0,
    is_closed: true,
    is_disconnected: true,
    ..TWO_SENDERS
};

#[test]
fn channels_with_both_sides(rt: HostRuntime) {
    let (sender, receiver) = ends::<u64>(&rt, 2);
    let _other = sender.clone(&rt).expect(&rt, "a clone");
    equal(&rt, sender.send(&rt, 7), Ok(()));
    senders_answer(&rt, &sender, TWO_SENDERS);
    receivers_answer(&rt, &receiver, TWO_SENDERS, false);
    let (sender, receiver) = ends::<u64>(&rt, 0);
    senders_answer(&rt, &sender, NONE_WITHOUT_PLACES);
    receivers_answer(&rt, &receiver, NONE_WITHOUT_PLACES, false);
}

#[test]
fn channels_that_one_side_left_or_that_were_closed(rt: HostRuntime) {
    let (sender, receiver) = unbounded::<u64>(rt.alloc()).expect(&rt, "a channel");
    equal(&rt, sender.send(&rt, 7), Ok(()));
    drop(sender);
    receivers_answer(&rt, &receiver, NO_SENDER, false);
    equal(&rt, receiver.recv(&rt), Ok(7));
    receivers_answer(&rt, &receiver, NO_SENDER_NO_MESSAGE, true);
    let (sender, receiver) = unbounded::<u64>(rt.alloc()).expect(&rt, "a channel");
    equal(&rt, sender.send(&rt, 7), Ok(()));
    drop(receiver);
    senders_answer(&rt, &sender, NO_RECEIVER);
    let (sender, receiver) = ends::<u64>(&rt, 1);
    equal(&rt, sender.send(&rt, 7), Ok(()));
    equal(&rt, sender.close(&rt), Ok(()));
    senders_answer(&rt, &sender, CLOSED);
    receivers_answer(&rt, &receiver, CLOSED, true);
}
