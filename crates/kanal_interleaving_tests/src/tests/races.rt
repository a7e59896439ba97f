//! Races: in each round one thread closes, drops or seals a channel while this one makes a call on it.
//!
//! The call has an answer that the rules have for one of the orders, and each message is dropped once.
use crate::tests::counted::{DropCounts, Numbered};
use crate::tests::given::{equal, holds, new_task};
use crate::tests::meeting::{Meeting, shared};
use crate::tests::watch::Watchdog;
use futures::task::Poll;
use futures::test::MockTask;
use kanal::error::{ReceiveError, SendError, SendErrorTimeout};
use kanal::{AsyncSender, Receiver, Sender, TestClock, bounded};
use std::alloc::{AllocGlobal, Global};
use std::process::Abort;
use std::random::RandomSource;
use std::sync::{Arc, Wait};
use std::thread::{JoinHandle, Threads};
use std::time::Duration;
use std::{thread, time};

/// How the other thread ends the channel.
#[derive(Clone, Copy, PartialEq, Eq)]
pub(super) enum End {
    Close,
    Drop,
    Seal,
}

/// The call of this thread.
#[derive(Clone, Copy)]
enum RaceCall {
    Send,
    Receive,
    Drain,
    TimeOut,
    DropWaiting,
}

/// One round of a race.
#[derive(Clone, Copy)]
pub(super) struct Round {
    pub(super) end: End,
    /// How many places the channel has, or how many messages are in it: 0 or 1.
    pub(super) count: usize,
    /// How long the other thread puts its end off.
    pub(super) pauses: u32,
}

/// How many rounds a call has: 10,000 beside each of the three ends.
pub(super) const ROUNDS: u32 = 30_000;

/// As many pauses as let a blocked call that looks for its outcome go to sleep: it has to be woken then.
const LONG: u32 = 20_000;

impl Round {
    /// The round with this number.
    pub(super) fn numbered(number: u32) -> Self {
        let end = match number % 3 {
            0 => End::Close,
            1 => End::Drop,
            _ => End::Seal,
        };
        Round {
            end,
            count: if number / 3 % 2 == 0 { 0 } else { 1 },
            pauses: match number / 6 % 50 {
                49 => LONG,
                pauses => pauses,
            },
        }
    }
}

/// The handle through which the other thread ends the channel.
#[derive(Drop)]
enum EitherHandle {
    Sends(Sender<Numbered>),
    Receives(Receiver<Numbered>),
}

/// Ends the channel through this handle, in another thread, which this one has met.
fn end_by<R: Threads + Wait + Abort + AllocGlobal + Copy + Send + 'static>(
    rt: R,
    handle: EitherHandle,
    round: Round,
) -> JoinHandle<()> {
    let meeting = Meeting::new(&rt, 2);
    let theirs = shared(&rt, &meeting);
    let ending = thread::spawn(&rt, move || {
        theirs.attend(&rt, round.pauses);
        let receiver = match handle {
            EitherHandle::Sends(sender) => return end_sender(&rt, sender, round.end),
            EitherHandle::Receives(receiver) => receiver,
        };
        let _ = match round.end {
            End::Close => receiver.close(&rt),
            End::Drop => Ok(()),
            End::Seal => receiver.seal(&rt),
        };
        drop(receiver);
    });
    let ending = ending.expect(&rt, "a thread");
    meeting.attend(&rt, 0);
    ending
}

/// Ends the channel through its sender, which is dropped.
pub(super) fn end_sender<R: Wait>(rt: &R, sender: Sender<Numbered>, end: End) {
    let _ = match end {
        End::Close => sender.close(rt),
        End::Drop => Ok(()),
        End::Seal => sender.seal(rt),
    };
    drop(sender);
}

/// Whether a send can be refused so. The channel is sealed before its receiver goes.
fn ends_send(end: End, error: SendError) -> bool {
    match end {
        End::Close => error == SendError::Closed,
        End::Drop => error == SendError::ReceiveClosed,
        End::Seal => matches!(
            error,
            SendError::Sealed | SendError::ReceiveClosed | SendError::Closed
        ),
    }
}

/// Sends a message to a channel with a place or without. It enters only where there is one.
fn send<R: Threads + Wait + Abort + AllocGlobal + Copy + Send + 'static>(
    rt: R,
    round: Round,
    drops: &Arc<DropCounts, Global>,
) {
    let (sender, receiver) = bounded(rt.alloc(), round.count).expect(&rt, "a channel");
    let message = Numbered::new(&rt, drops, 0);
    let ending = end_by(rt, EitherHandle::Receives(receiver), round);
    let answer = sender.send(&rt, message);
    ending.join(&rt);
    holds(
        &rt,
        match answer {
            Ok(()) => round.count == 1,
            Err(error) => ends_send(round.end, error),
        },
    );
    drop(sender);
    drops.were_once(&rt, 1);
}

/// A channel with a place, and so many messages in it.
fn filled<R: Wait + Abort + AllocGlobal>(
    rt: &R,
    count: usize,
    drops: &Arc<DropCounts, Global>,
) -> (Sender<Numbered>, Receiver<Numbered>) {
    let (sender, receiver) = bounded(rt.alloc(), 1).expect(rt, "a channel");
    if count == 1 {
        equal(
            rt,
            sender.try_send(rt, Numbered::new(rt, drops, 0)),
            Ok(true),
        );
    }
    (sender, receiver)
}

/// Receives until the channel ends. A message that is there is received, unless a close cleared it.
fn receive<R: Threads + Wait + Abort + AllocGlobal + Copy + Send + 'static>(
    rt: R,
    round: Round,
    drops: &Arc<DropCounts, Global>,
) {
    let (sender, receiver) = filled(&rt, round.count, drops);
    let ending = end_by(rt, EitherHandle::Sends(sender), round);
    let mut received = 0usize;
    let mut last = receiver.recv(&rt);
    if last.is_ok() {
        received = 1;
        last = receiver.recv(&rt);
    }
    ending.join(&rt);
    let (error, is_closed) = match round.end {
        End::Close => (ReceiveError::Closed, true),
        End::Drop | End::Seal => (ReceiveError::SendClosed, false),
    };
    holds(&rt, matches!(last, Err(last) if last == error));
    holds(&rt, received == round.count || (is_closed && received == 0));
    drop(receiver);
    drops.were_once(&rt, round.count);
}

/// Drains the channel. A message that is there is drained, unless a close cleared it.
fn drain<R: Threads + Wait + Abort + AllocGlobal + Copy + Send + 'static>(
    rt: R,
    round: Round,
    drops: &Arc<DropCounts, Global>,
) {
    let (sender, receiver) = filled(&rt, round.count, drops);
    let mut drained = Vec::new(rt.alloc());
    let ending = end_by(rt, EitherHandle::Sends(sender), round);
    let answer = receiver.drain_into(&rt, &mut drained);
    ending.join(&rt);
    holds(
        &rt,
        match answer {
            Ok(count) => count == round.count && drained.len() == count,
            Err(error) => {
                round.end == End::Close && error == ReceiveError::Closed && drained.is_empty()
            },
        },
    );
    drop((receiver, drained));
    drops.were_once(&rt, round.count);
}

/// How often a timed call reads its clock at most, nearly.
const READS: u64 = 12;

/// Sends a message to a channel without places, until the clock was read a few times.
fn time_out<R: Threads + Wait + time::Clock + Abort + AllocGlobal + Copy + Send + 'static>(
    rt: R,
    round: Round,
    drops: &Arc<DropCounts, Global>,
) {
    let (sender, receiver) = bounded(rt.alloc(), 0).expect(&rt, "a channel");
    let message = Numbered::new(&rt, drops, 0);
    let clock = TestClock::rising();
    let ending = end_by(rt, EitherHandle::Receives(receiver), round);
    let answer = sender.send_timeout(&rt, message, Duration::from_nanos(READS), &clock);
    ending.join(&rt);
    holds(
        &rt,
        match answer {
            Err(SendErrorTimeout::Timeout) => true,
            Err(SendErrorTimeout::Closed) => round.end != End::Drop,
            Err(SendErrorTimeout::ReceiveClosed) => round.end != End::Close,
            Err(SendErrorTimeout::Sealed) => round.end == End::Seal,
            _ => false,
        },
    );
    drop(sender);
    drops.were_once(&rt, 1);
}

/// Drops a send that waits.
fn drop_waiting<R: Threads + Wait + Abort + AllocGlobal + Copy + Send + 'static>(
    rt: R,
    task: &MockTask,
    round: Round,
    drops: &Arc<DropCounts, Global>,
) {
    let (sender, receiver) = bounded(rt.alloc(), 0).expect(&rt, "a channel");
    let sender: AsyncSender<Numbered> = sender.to_async();
    let mut sending = sender.send(Numbered::new(&rt, drops, 0));
    equal(&rt, task.poll(&mut sending), Poll::Pending);
    let ending = end_by(rt, EitherHandle::Receives(receiver), round);
    drop(sending);
    ending.join(&rt);
    drop(sender);
    drops.were_once(&rt, 1);
}

/// Runs all rounds of the call. How many they were.
fn race<
    R: Threads + Wait + time::Clock + Abort + RandomSource + AllocGlobal + Copy + Send + 'static,
>(rt: R, call: RaceCall) -> u32 {
    let (task, drops) = (new_task(&rt), DropCounts::new(&rt));
    let watch = Watchdog::start(rt);
    for number in 0..ROUNDS {
        let round = Round::numbered(number);
        match call {
            RaceCall::Send => send(rt, round, &drops),
            RaceCall::Receive => receive(rt, round, &drops),
            RaceCall::Drain => drain(rt, round, &drops),
            RaceCall::TimeOut => time_out(rt, round, &drops),
            RaceCall::DropWaiting => drop_waiting(rt, &task, round, &drops),
        }
        watch.count();
    }
    watch.stop(&rt)
}

#[test]
fn an_end_beside_a_send(rt: HostRuntime) {
    equal(&rt, race(rt, RaceCall::Send), 30_000);
}

#[test]
fn an_end_beside_a_receive(rt: HostRuntime) {
    equal(&rt, race(rt, RaceCall::Receive), 30_000);
}

#[test]
fn an_end_beside_a_drain(rt: HostRuntime) {
    equal(&rt, race(rt, RaceCall::Drain), 30_000);
}

#[test]
fn an_end_beside_a_timed_send(rt: HostRuntime) {
    equal(&rt, race(rt, RaceCall::TimeOut), 30_000);
}

#[test]
fn an_end_beside_the_drop_of_a_future(rt: HostRuntime) {
    equal(&rt, race(rt, RaceCall::DropWaiting), 30_000);
}
