//! Two send futures and two receive futures, through all lists of at most five of ten steps.
//!
//! Each poll's answer, the length and both counts are those of a plain line, and both messages are dropped once.
use crate::tests::counted::{DropCounts, Numbered};
use crate::tests::given::{equal, new_task};
use crate::tests::line::{ModelLine, ModelOffer, ModelTake, Told};
use crate::tests::lists::{ALL, LISTS, list_of};
use futures::task::Poll;
use futures::test::MockTask;
use kanal::error::{CloseError, ReceiveError, SendError};
use kanal::{AsyncReceiver, AsyncSender, ReceiveFuture, SendFuture, bounded_async};
use std::alloc::{AllocGlobal, Global};
use std::process::Abort;
use std::random::RandomSource;
use std::sync::{Arc, Wait};

/// One step. The sends are numbered 0 and 1, as their messages, and so are the receives.
#[derive(Clone, Copy, Debug, PartialEq, Eq)]
enum Step {
    PollSend(usize),
    PollReceive(usize),
    DropSend(usize),
    DropReceive(usize),
    /// The first sender closes the channel.
    Close,
    /// The first sender seals it.
    Seal,
}

/// All of them.
const STEPS: [Step; 10] = [
    Step::PollSend(0),
    Step::PollSend(1),
    Step::PollReceive(0),
    Step::PollReceive(1),
    Step::DropSend(0),
    Step::DropSend(1),
    Step::DropReceive(0),
    Step::DropReceive(1),
    Step::Close,
    Step::Seal,
];

/// What a step answers.
#[derive(Clone, Copy, Debug, PartialEq, Eq, Drop)]
enum Polled {
    /// Nothing: the future was dropped, now or before.
    Nothing,
    /// The future goes on waiting.
    Pending,
    Sent(Result<(), SendError>),
    Received(Result<usize, ReceiveError>),
    Ended(Result<(), CloseError>),
}

/// A handle for each future.
#[derive(Drop)]
struct Pairs {
    senders: (AsyncSender<Numbered>, AsyncSender<Numbered>),
    receivers: (AsyncReceiver<Numbered>, AsyncReceiver<Numbered>),
}

impl Pairs {
    /// The handles of a new channel with so many places.
    fn new<R: Wait + Abort + AllocGlobal>(rt: &R, capacity: usize) -> Self {
        let (sender, receiver) = bounded_async(rt.alloc(), capacity).expect(rt, "a channel");
        let other_sender = sender.clone(rt).expect(rt, "a clone");
        let other_receiver = receiver.clone(rt).expect(rt, "a clone");
        Pairs {
            senders: (sender, other_sender),
            receivers: (receiver, other_receiver),
        }
    }

    /// What the first sender tells of the channel.
    fn told<R: Wait>(&self, rt: &R) -> Told {
        let sender = &self.senders.0;
        Told {
            len: sender.len(rt),
            senders: sender.sender_count(rt),
            receivers: sender.receiver_count(rt),
        }
    }
}

/// The futures; `None` is one that was dropped.
#[derive(Drop)]
struct Futures<'a> {
    first_send: Option<SendFuture<'a, Numbered>>,
    second_send: Option<SendFuture<'a, Numbered>>,
    first_receive: Option<ReceiveFuture<'a, Numbered>>,
    second_receive: Option<ReceiveFuture<'a, Numbered>>,
}

/// What a poll of the send answers.
fn poll_send(task: &MockTask, future: &mut Option<SendFuture<'_, Numbered>>) -> Polled {
    let Some(future) = future else {
        return Polled::Nothing;
    };
    match task.poll(future) {
        Poll::Ready(answer) => Polled::Sent(answer),
        Poll::Pending => Polled::Pending,
    }
}

/// What a poll of the receive answers, by the message's number; the message is dropped.
fn poll_receive(task: &MockTask, future: &mut Option<ReceiveFuture<'_, Numbered>>) -> Polled {
    let Some(future) = future else {
        return Polled::Nothing;
    };
    match task.poll(future) {
        Poll::Ready(Ok(message)) => Polled::Received(Ok(message.number())),
        Poll::Ready(Err(error)) => Polled::Received(Err(error)),
        Poll::Pending => Polled::Pending,
    }
}

impl<'a> Futures<'a> {
    /// Those of these handles, not polled yet.
    fn new(rt: &impl Abort, handles: &'a Pairs, drops: &Arc<DropCounts, Global>) -> Self {
        let first = Numbered::new(rt, drops, 0);
        let second = Numbered::new(rt, drops, 1);
        Futures {
            first_send: Some(handles.senders.0.send(first)),
            second_send: Some(handles.senders.1.send(second)),
            first_receive: Some(handles.receivers.0.recv()),
            second_receive: Some(handles.receivers.1.recv()),
        }
    }

    /// The send with this number.
    fn send(&mut self, number: usize) -> &mut Option<SendFuture<'a, Numbered>> {
        match number {
            0 => &mut self.first_send,
            _ => &mut self.second_send,
        }
    }

    /// The receive with this number.
    fn receive(&mut self, number: usize) -> &mut Option<ReceiveFuture<'a, Numbered>> {
        match number {
            0 => &mut self.first_receive,
            _ => &mut self.second_receive,
        }
    }

    /// Makes the step.
    fn step<R: Wait>(&mut self, rt: &R, task: &MockTask, handles: &Pairs, step: Step) -> Polled {
        match step {
            Step::PollSend(number) => poll_send(task, self.send(number)),
            Step::PollReceive(number) => poll_receive(task, self.receive(number)),
            Step::DropSend(number) => {
                *self.send(number) = None;
                Polled::Nothing
            },
            Step::DropReceive(number) => {
                *self.receive(number) = None;
                Polled::Nothing
            },
            Step::Close => Polled::Ended(handles.senders.0.close(rt)),
            Step::Seal => Polled::Ended(handles.senders.0.seal(rt)),
        }
    }
}

/// Where a future is, by the rules.
#[derive(Clone, Copy, Drop)]
enum FutureStage {
    /// It made no step.
    New,
    /// It waits.
    Waits,
    /// Its wait was settled, and its next poll answers so.
    Settled(Polled),
    /// It has answered.
    Finished,
    /// It was dropped.
    Gone,
}

/// The plain line in place of the handles' channel, and where each future is.
#[derive(Drop)]
struct TaskModel {
    line: ModelLine,
    sends: [FutureStage; 2],
    receives: [FutureStage; 2],
}

/// Where the future with this number is from now on.
fn set(stages: &mut [FutureStage], number: usize, stage: FutureStage) {
    if let Some(place) = stages.get_mut(number) {
        *place = stage;
    }
}

/// What becomes of the future with this number at a poll: an answer, and where it is then; or it makes
/// its first step.
fn look(stages: &mut [FutureStage], number: usize, finished: Polled) -> Option<Polled> {
    match stages.get(number).copied() {
        Some(FutureStage::New) => None,
        Some(FutureStage::Waits) => Some(Polled::Pending),
        Some(FutureStage::Settled(answer)) => {
            set(stages, number, FutureStage::Finished);
            Some(answer)
        },
        Some(FutureStage::Finished) => Some(finished),
        Some(FutureStage::Gone) | None => Some(Polled::Nothing),
    }
}

/// Ends all waits so.
fn end_waits(stages: &mut [FutureStage], answer: Polled) {
    for stage in stages.iter_mut() {
        if matches!(stage, FutureStage::Waits) {
            *stage = FutureStage::Settled(answer);
        }
    }
}

impl TaskModel {
    /// Of a new channel.
    fn new(rt: &impl AllocGlobal, capacity: usize) -> Self {
        TaskModel {
            line: ModelLine::new(rt, Some(capacity), 2),
            sends: [FutureStage::New, FutureStage::New],
            receives: [FutureStage::New, FutureStage::New],
        }
    }

    /// What the step has to answer. A send that waits takes its message with it, where it is dropped.
    fn step(&mut self, rt: &impl Abort, step: Step) -> Polled {
        match step {
            Step::PollSend(number) => return self.poll_send(rt, number),
            Step::PollReceive(number) => return self.poll_receive(rt, number),
            Step::Close => return self.close(),
            Step::Seal => return self.seal(),
            Step::DropSend(number) => {
                if let Some(FutureStage::Waits) = self.sends.get(number) {
                    self.line.leave_send(number);
                }
                set(&mut self.sends, number, FutureStage::Gone);
            },
            Step::DropReceive(number) => {
                if let Some(FutureStage::Waits) = self.receives.get(number) {
                    self.line.leave_receive(number);
                }
                set(&mut self.receives, number, FutureStage::Gone);
            },
        }
        Polled::Nothing
    }

    /// The first step of a send offers its message, and waits where there is no place.
    fn poll_send(&mut self, rt: &impl Abort, number: usize) -> Polled {
        let finished = Polled::Sent(Err(SendError::Finished));
        if let Some(answer) = look(&mut self.sends, number, finished) {
            return answer;
        }
        let answer = match self.line.offer(rt, number) {
            ModelOffer::Full => {
                self.line.wait_send(rt, number);
                set(&mut self.sends, number, FutureStage::Waits);
                return Polled::Pending;
            },
            ModelOffer::Handed(receiver) => {
                let given = FutureStage::Settled(Polled::Received(Ok(number)));
                set(&mut self.receives, receiver, given);
                Ok(())
            },
            ModelOffer::Entered => Ok(()),
            ModelOffer::Refused(error) => Err(error),
        };
        set(&mut self.sends, number, FutureStage::Finished);
        Polled::Sent(answer)
    }

    /// The first step of a receive takes the front, and waits where there is none.
    fn poll_receive(&mut self, rt: &impl Abort, number: usize) -> Polled {
        let finished = Polled::Received(Err(ReceiveError::Finished));
        if let Some(answer) = look(&mut self.receives, number, finished) {
            return answer;
        }
        let answer = match self.line.take() {
            ModelTake::Empty => {
                self.line.wait_receive(rt, number);
                set(&mut self.receives, number, FutureStage::Waits);
                return Polled::Pending;
            },
            ModelTake::Taken(message, served) => {
                if let Some(send) = served {
                    set(
                        &mut self.sends,
                        send,
                        FutureStage::Settled(Polled::Sent(Ok(()))),
                    );
                }
                Ok(message)
            },
            ModelTake::Refused(error) => Err(error),
        };
        set(&mut self.receives, number, FutureStage::Finished);
        Polled::Received(answer)
    }

    /// A close ends all waits.
    fn close(&mut self) -> Polled {
        let answer = self.line.close();
        if answer.is_ok() {
            end_waits(&mut self.sends, Polled::Sent(Err(SendError::Closed)));
            let ended = Polled::Received(Err(ReceiveError::Closed));
            end_waits(&mut self.receives, ended);
        }
        Polled::Ended(answer)
    }

    /// A seal ends the receives that wait.
    fn seal(&mut self) -> Polled {
        let answer = self.line.seal();
        if answer.is_ok() {
            let ended = Polled::Received(Err(ReceiveError::SendClosed));
            end_waits(&mut self.receives, ended);
        }
        Polled::Ended(answer)
    }
}

/// Runs the list on both. Ends the test unless they agree, and both messages were dropped once.
fn run_list<R: Wait + Abort + AllocGlobal>(
    rt: &R,
    task: &MockTask,
    capacity: usize,
    list: &[Step],
    drops: &Arc<DropCounts, Global>,
) {
    let handles = Pairs::new(rt, capacity);
    let mut futures = Futures::new(rt, &handles, drops);
    let mut account = TaskModel::new(rt, capacity);
    for step in list {
        let answer = futures.step(rt, task, &handles, *step);
        let expected = account.step(rt, *step);
        assert_eq!(rt; answer, expected, "{step:?} of {list:?}");
        let (told, expected) = (handles.told(rt), account.line.told());
        assert_eq!(rt; told, expected, "after {step:?} of {list:?}");
    }
    drop(futures);
    drop(handles);
    drops.were_once(rt, 2);
}

/// Runs all lists at this capacity. How many they were, and how many of those have no seal.
fn run_lists<R: Wait + Abort + RandomSource + AllocGlobal>(rt: &R, capacity: usize) -> (u64, u64) {
    let (task, drops) = (new_task(rt), DropCounts::new(rt));
    let (mut lists, mut unsealed) = (0u64, 0u64);
    for number in 0..LISTS {
        let list = list_of(rt, &STEPS, number);
        run_list(rt, &task, capacity, list.as_slice(), &drops);
        lists = lists.wrapping_add(1);
        unsealed = unsealed.wrapping_add(u64::from(!list.contains(&Step::Seal)));
    }
    (lists, unsealed)
}

#[test]
fn lists_without_places(rt: HostRuntime) {
    equal(&rt, run_lists(&rt, 0), ALL);
}

#[test]
fn lists_with_one_place(rt: HostRuntime) {
    equal(&rt, run_lists(&rt, 1), ALL);
}
