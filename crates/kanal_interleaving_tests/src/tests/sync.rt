//! One sender and one receiver for threads, through all lists of at most five of ten steps.
//!
//! Each step's answer, the option that it was lent, the length and both counts are those of a plain
//! line; at the end each message was dropped once.
use crate::tests::counted::{DropCounts, Numbered};
use crate::tests::given::equal;
use crate::tests::line::{ModelLine, ModelOffer, ModelTake, Told};
use crate::tests::lists::{ALL, LISTS, list_of};
use kanal::error::{CloseError, ReceiveError, SendError};
use kanal::{Receiver, Sender, bounded, unbounded};
use std::alloc::{AllocGlobal, Global};
use std::collections::VecDeque;
use std::process::Abort;
use std::sync::{Arc, Wait};

/// The form of a send that doesn't wait.
#[derive(Clone, Copy, Debug, PartialEq, Eq)]
enum Form {
    Plain,
    OfOption,
    Realtime,
    OfOptionRealtime,
}

/// One step. The sender's steps do nothing once it was dropped.
#[derive(Clone, Copy, Debug, PartialEq, Eq)]
enum SyncStep {
    Send(Form),
    TryReceive,
    TryReceiveRealtime,
    Drain,
    DropSender,
    /// The receiver closes the channel.
    Close,
    /// The receiver seals it.
    Seal,
}

/// All of them.
const STEPS: [SyncStep; 10] = [
    SyncStep::Send(Form::Plain),
    SyncStep::Send(Form::OfOption),
    SyncStep::Send(Form::Realtime),
    SyncStep::Send(Form::OfOptionRealtime),
    SyncStep::TryReceive,
    SyncStep::TryReceiveRealtime,
    SyncStep::Drain,
    SyncStep::DropSender,
    SyncStep::Close,
    SyncStep::Seal,
];

/// What a step answers.
#[derive(Debug, PartialEq, Eq, Drop)]
enum SyncAnswer {
    /// Nothing: the sender was dropped, now or before.
    Nothing,
    /// A send by value.
    Sent(Result<bool, SendError>),
    /// A send of an option, and what the option holds afterwards.
    SentOption(Result<bool, SendError>, Option<usize>),
    Received(Result<Option<usize>, ReceiveError>),
    Drained(Result<usize, ReceiveError>),
    Ended(Result<(), CloseError>),
}

/// The two handles, and what the receiver drained.
#[derive(Drop)]
struct SyncHandles {
    sender: Option<Sender<Numbered>>,
    receiver: Receiver<Numbered>,
    drained: Vec<Numbered>,
}

/// What the option holds; its message is dropped.
fn held_by(option: Option<Numbered>) -> Option<usize> {
    option.map(|message| message.number())
}

/// What a receive answers, by the message's number; the message is dropped.
fn received(answer: Result<Option<Numbered>, ReceiveError>) -> SyncAnswer {
    SyncAnswer::Received(answer.map(held_by))
}

/// Sends the message in this form.
fn send<R: Wait>(rt: &R, sender: &Sender<Numbered>, form: Form, message: Numbered) -> SyncAnswer {
    let mut option = None;
    let answer = match form {
        Form::Plain => return SyncAnswer::Sent(sender.try_send(rt, message)),
        Form::Realtime => return SyncAnswer::Sent(sender.try_send_realtime(message)),
        Form::OfOption => {
            option = Some(message);
            sender.try_send_option(rt, &mut option)
        },
        Form::OfOptionRealtime => {
            option = Some(message);
            sender.try_send_option_realtime(&mut option)
        },
    };
    SyncAnswer::SentOption(answer, held_by(option))
}

impl SyncHandles {
    /// The handles of a new channel; `None` is no limit.
    fn new(rt: &(impl Abort + AllocGlobal), capacity: Option<usize>) -> Self {
        let made = match capacity {
            Some(capacity) => bounded(rt.alloc(), capacity),
            None => unbounded(rt.alloc()),
        };
        let (sender, receiver) = made.expect(rt, "a channel");
        SyncHandles {
            sender: Some(sender),
            receiver,
            drained: Vec::new(rt.alloc()),
        }
    }

    /// Makes the step; a message that is sent has this number.
    fn step<R: Wait + Abort>(
        &mut self,
        rt: &R,
        step: SyncStep,
        drops: &Arc<DropCounts, Global>,
        number: usize,
    ) -> SyncAnswer {
        match step {
            SyncStep::Send(form) => match &self.sender {
                Some(sender) => send(rt, sender, form, Numbered::new(rt, drops, number)),
                None => SyncAnswer::Nothing,
            },
            SyncStep::TryReceive => received(self.receiver.try_recv(rt)),
            SyncStep::TryReceiveRealtime => received(self.receiver.try_recv_realtime()),
            SyncStep::Drain => SyncAnswer::Drained(self.receiver.drain_into(rt, &mut self.drained)),
            SyncStep::DropSender => {
                self.sender = None;
                SyncAnswer::Nothing
            },
            SyncStep::Close => SyncAnswer::Ended(self.receiver.close(rt)),
            SyncStep::Seal => SyncAnswer::Ended(self.receiver.seal(rt)),
        }
    }

    /// What the receiver tells of the channel.
    fn told<R: Wait>(&self, rt: &R) -> Told {
        Told {
            len: self.receiver.len(rt),
            senders: self.receiver.sender_count(rt),
            receivers: self.receiver.receiver_count(rt),
        }
    }
}

/// The plain line in place of the handles' channel.
#[derive(Drop)]
struct SyncModel {
    line: ModelLine,
    has_sender: bool,
    /// How many messages were made: they are numbered from 0.
    made: usize,
    drained: VecDeque<usize, Global>,
}

impl SyncModel {
    /// Of a new channel.
    fn new(rt: &impl AllocGlobal, capacity: Option<usize>) -> Self {
        SyncModel {
            line: ModelLine::new(rt, capacity, 1),
            has_sender: true,
            made: 0,
            drained: VecDeque::new(rt.alloc()),
        }
    }

    /// What the step has to answer. A receive takes the front, and the first drop of the sender is that of
    /// the last one.
    fn step(&mut self, rt: &impl Abort, step: SyncStep) -> SyncAnswer {
        match step {
            SyncStep::Send(form) => self.send(rt, form),
            SyncStep::TryReceive | SyncStep::TryReceiveRealtime => {
                SyncAnswer::Received(match self.line.take() {
                    ModelTake::Taken(message, _) => Ok(Some(message)),
                    ModelTake::Empty => Ok(None),
                    ModelTake::Refused(error) => Err(error),
                })
            },
            SyncStep::Drain => SyncAnswer::Drained(self.line.drain(rt, &mut self.drained)),
            SyncStep::DropSender => {
                if self.has_sender {
                    self.has_sender = false;
                    self.line.drop_sender();
                }
                SyncAnswer::Nothing
            },
            SyncStep::Close => SyncAnswer::Ended(self.line.close()),
            SyncStep::Seal => SyncAnswer::Ended(self.line.seal()),
        }
    }

    /// A send makes the next message. The option is empty only where it was sent.
    fn send(&mut self, rt: &impl Abort, form: Form) -> SyncAnswer {
        if !self.has_sender {
            return SyncAnswer::Nothing;
        }
        let message = self.made;
        self.made = message.wrapping_add(1);
        let answer = match self.line.offer(rt, message) {
            ModelOffer::Entered | ModelOffer::Handed(_) => Ok(true),
            ModelOffer::Full => Ok(false),
            ModelOffer::Refused(error) => Err(error),
        };
        let left = if answer == Ok(true) {
            None
        } else {
            Some(message)
        };
        match form {
            Form::Plain | Form::Realtime => SyncAnswer::Sent(answer),
            Form::OfOption | Form::OfOptionRealtime => SyncAnswer::SentOption(answer, left),
        }
    }
}

/// Ends the test unless these messages have these numbers, in order.
fn are_drained(rt: &impl Abort, messages: &[Numbered], numbers: &VecDeque<usize, Global>) {
    equal(rt, messages.len(), numbers.len());
    for (message, number) in messages.iter().zip(numbers.iter()) {
        equal(rt, message.number(), *number);
    }
}

/// Runs the list on both. Ends the test unless they agree, and each message was dropped once.
fn run_list<R: Wait + Abort + AllocGlobal>(
    rt: &R,
    capacity: Option<usize>,
    list: &[SyncStep],
    drops: &Arc<DropCounts, Global>,
) {
    let mut handles = SyncHandles::new(rt, capacity);
    let mut account = SyncModel::new(rt, capacity);
    for step in list {
        let answer = handles.step(rt, *step, drops, account.made);
        let expected = account.step(rt, *step);
        assert_eq!(rt; answer, expected, "{step:?} of {list:?}");
        let (told, expected) = (handles.told(rt), account.line.told());
        assert_eq!(rt; told, expected, "after {step:?} of {list:?}");
    }
    are_drained(rt, handles.drained.as_slice(), &account.drained);
    drop(handles);
    drops.were_once(rt, account.made);
}

/// Runs all lists at this capacity. How many they were, and how many of those have no seal.
fn run_lists<R: Wait + Abort + AllocGlobal>(rt: &R, capacity: Option<usize>) -> (u64, u64) {
    let drops = DropCounts::new(rt);
    let (mut lists, mut unsealed) = (0u64, 0u64);
    for number in 0..LISTS {
        let list = list_of(rt, &STEPS, number);
        run_list(rt, capacity, list.as_slice(), &drops);
        lists = lists.wrapping_add(1);
        unsealed = unsealed.wrapping_add(u64::from(!list.contains(&SyncStep::Seal)));
    }
    (lists, unsealed)
}

#[test]
fn lists_without_places(rt: HostRuntime) {
    equal(&rt, run_lists(&rt, Some(0)), ALL);
}

#[test]
fn lists_with_one_place(rt: HostRuntime) {
    equal(&rt, run_lists(&rt, Some(1)), ALL);
}

#[test]
fn lists_with_two_places(rt: HostRuntime) {
    equal(&rt, run_lists(&rt, Some(2)), ALL);
}

#[test]
fn lists_without_limit(rt: HostRuntime) {
    equal(&rt, run_lists(&rt, None), ALL);
}
