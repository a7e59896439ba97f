//! Races: in each round this thread drops a receive that waits, while another ends the channel or sends to it.
//!
//! Each message is dropped or received once. In a tenth of the rounds the drop is surely first, in another tenth the
//! other thread is; in the rest the schedule has the order.
use crate::tests::counted::{DropCounts, Numbered};
use crate::tests::given::{equal, holds, new_task};
use crate::tests::meeting::{Meeting, shared};
use crate::tests::races::{End, ROUNDS, Round, end_sender};
use crate::tests::watch::Watchdog;
use futures::test::MockTask;
use kanal::error::{ReceiveError, SendError};
use kanal::{AsyncReceiver, ReceiveFuture, Sender, bounded};
use std::alloc::{AllocGlobal, Global};
use std::process::Abort;
use std::random::RandomSource;
use std::sync::{Arc, Wait};
use std::thread::{JoinHandle, Threads};
use std::{thread, time};

/// What the other thread does: it sends, or ends the channel, or first the one and then the other.
#[derive(Clone, Copy)]
struct Other {
    sends: bool,
    ends: bool,
}

/// Who is first in a round.
#[derive(Clone, Copy)]
enum First {
    Drop,
    Other,
    Either,
}

impl First {
    /// In the round with this number.
    fn numbered(number: u32) -> Self {
        match number / 6 % 10 {
            0 => First::Drop,
            1 => First::Other,
            _ => First::Either,
        }
    }
}

/// What a send that doesn't wait answers.
type TrySent = Result<bool, SendError>;

/// The ends of a channel of messages.
type ChannelEnds = (Sender<Numbered>, AsyncReceiver<Numbered>);

/// A receive that waits.
fn waiting<'a>(
    rt: &impl Abort,
    task: &MockTask,
    receiver: &'a AsyncReceiver<Numbered>,
) -> ReceiveFuture<'a, Numbered> {
    let mut receiving = receiver.recv();
    holds(rt, task.poll(&mut receiving).is_pending());
    receiving
}

/// A thread, and where it waits for this one. It answers what its send did, and hands back a sender by which it
/// didn't end the channel.
type StartedThread = (
    JoinHandle<(Option<Sender<Numbered>>, Option<TrySent>)>,
    Arc<Meeting, Global>,
);

/// In another thread, once it has met this one, sends the message that there is, and then ends the channel, if
/// that is the other's part.
fn start<R: Threads + Wait + Abort + AllocGlobal + Copy + Send + 'static>(
    rt: R,
    sender: Sender<Numbered>,
    message: Option<Numbered>,
    round: Round,
    ends: bool,
) -> StartedThread {
    let meeting = Meeting::new(&rt, 2);
    let theirs = shared(&rt, &meeting);
    let other = thread::spawn(&rt, move || {
        theirs.attend(&rt, round.pauses);
        let sent = match message {
            Some(message) => Some(sender.try_send(&rt, message)),
            None => None,
        };
        if ends {
            end_sender(&rt, sender, round.end);
            return (None, sent);
        }
        (Some(sender), sent)
    });
    (other.expect(&rt, "a thread"), meeting)
}

/// Meets the thread, drops the receive and waits for the thread's end, in this order of the two.
fn drop_receive<R: Threads + Abort>(
    rt: &R,
    receiving: ReceiveFuture<'_, Numbered>,
    started: StartedThread,
    first: First,
) -> (Option<Sender<Numbered>>, Option<TrySent>) {
    let (thread, meeting) = started;
    match first {
        First::Drop => {
            drop(receiving);
            meeting.attend(rt, 0);
            thread.join(rt)
        },
        First::Other => {
            meeting.attend(rt, 0);
            let answer = thread.join(rt);
            drop(receiving);
            answer
        },
        First::Either => {
            meeting.attend(rt, 0);
            drop(receiving);
            thread.join(rt)
        },
    }
}

/// Ends the test unless the channel is empty, and ended so.
fn is_ended<R: Wait + Abort>(rt: &R, receiver: &AsyncReceiver<Numbered>, end: End) {
    let (receivers, error) = match end {
        End::Close => (0, ReceiveError::Closed),
        End::Drop | End::Seal => (1, ReceiveError::SendClosed),
    };
    equal(rt, receiver.sender_count(rt), 0);
    equal(rt, receiver.receiver_count(rt), receivers);
    equal(rt, receiver.len(rt), 0);
    holds(
        rt,
        matches!(receiver.try_recv(rt), Err(found) if found == error),
    );
}

/// Receives the message where it lies in the buffer; else it was dropped already. It was dropped once then.
fn receive_rest<R: Wait + Abort>(rt: &R, receiver: &AsyncReceiver<Numbered>, drops: &DropCounts) {
    if receiver.len(rt) == 0 {
        drops.were_once(rt, 1);
        return;
    }
    drops.were_once(rt, 0);
    let number = match receiver.try_recv(rt) {
        Ok(Some(message)) => Some(message.number()),
        _ => None,
    };
    equal(rt, number, Some(0));
    drops.were_once(rt, 1);
}

/// Whether the send can be answered so. Where the drop is first, the message finds no receive.
fn is_sent(sent: TrySent, places: usize, first: First) -> bool {
    match first {
        First::Drop => sent == Ok(places == 1),
        First::Other => sent == Ok(true),
        First::Either => sent == Ok(true) || (sent == Ok(false) && places == 0),
    }
}

/// Whether so many messages can be left where one could stay in so many places. Where the send is first, the
/// message is dropped with the receive.
fn is_left(left: usize, places: usize, first: First) -> bool {
    match first {
        First::Drop => left == places,
        First::Other => left == 0,
        First::Either => left <= places,
    }
}

/// Ends the test unless no receive waits any more: a message finds a place in the buffer, or none.
fn nobody_waits<R: Wait + Abort>(
    rt: &R,
    ends: ChannelEnds,
    places: usize,
    drops: &Arc<DropCounts, Global>,
) {
    let (sender, receiver) = ends;
    equal(rt, receiver.sender_count(rt), 1);
    equal(rt, receiver.receiver_count(rt), 1);
    let sent = sender.try_send(rt, Numbered::new(rt, drops, 0));
    equal(rt, sent, Ok(places == 1));
    equal(rt, receiver.len(rt), places);
    drop((sender, receiver));
    drops.were_once(rt, 1);
}

/// Drops a receive that waits, beside what the other thread does.
fn beside<R: Threads + Wait + Abort + AllocGlobal + Copy + Send + 'static>(
    rt: R,
    task: &MockTask,
    other: Other,
    round: Round,
    first: First,
    drops: &Arc<DropCounts, Global>,
) {
    let (sender, receiver) = bounded(rt.alloc(), round.count).expect(&rt, "a channel");
    let receiver = receiver.to_async();
    let receiving = waiting(&rt, task, &receiver);
    let message = if other.sends {
        Some(Numbered::new(&rt, drops, 0))
    } else {
        None
    };
    let started = start(rt, sender, message, round, other.ends);
    let (sender, sent) = drop_receive(&rt, receiving, started, first);
    let places = if other.ends && round.end == End::Close {
        0
    } else {
        round.count
    };
    if let Some(sent) = sent {
        holds(&rt, is_sent(sent, round.count, first));
        holds(&rt, is_left(receiver.len(&rt), places, first));
        receive_rest(&rt, &receiver, drops);
    }
    match sender {
        Some(sender) => nobody_waits(&rt, (sender, receiver), round.count, drops),
        None => {
            is_ended(&rt, &receiver, round.end);
            drop(receiver);
            drops.were_once(&rt, 0);
        },
    }
}

/// Runs all rounds beside the other thread. How many they were.
fn race<R>(rt: R, sends: bool, ends: bool) -> u32
where
    R: Threads + Wait + time::Clock + Abort + RandomSource + AllocGlobal + Copy + Send + 'static,
{
    let (task, drops) = (new_task(&rt), DropCounts::new(&rt));
    let watch = Watchdog::start(rt);
    for number in 0..ROUNDS {
        let (round, first) = (Round::numbered(number), First::numbered(number));
        beside(rt, &task, Other { sends, ends }, round, first, &drops);
        watch.count();
    }
    watch.stop(&rt)
}

#[test]
fn an_end_beside_the_drop_of_a_receive(rt: HostRuntime) {
    equal(&rt, race(rt, false, true), 30_000);
}

#[test]
fn a_send_beside_the_drop_of_a_receive(rt: HostRuntime) {
    equal(&rt, race(rt, true, false), 30_000);
}

#[test]
fn a_send_and_an_end_beside_the_drop_of_a_receive(rt: HostRuntime) {
    equal(&rt, race(rt, true, true), 30_000);
}
