//! Calls of the handles, the futures and the stream.
mod calls;
mod polls;
mod rows;
mod served;

use crate::answer::{AnyAnswer, ended};
use crate::driver::{Row, Run, Score, Subject, holds, make_each, make_row};
use crate::given::{Given, Message};
use futures::test::MockTask;
use kanal::error::NewError;
use kanal::{
    ReceiveFuture, ReceiveStream, Receiver, SendFuture, Sender, bounded, bounded_async, unbounded,
    unbounded_async,
};
use rows::{ROWS, SERVED};
use served::helper;
use std::alloc::{AllocGlobal, Global};
use std::random::RandomSource;
use std::sync::Wait;
use std::thread::Threads;
use std::time;

/// How a channel is made.
#[derive(Clone, Copy)]
enum MadeBy {
    Bounded(usize),
    Unbounded,
    BoundedAsync(usize),
    UnboundedAsync,
}

/// A form of a send: by the sender of threads, by a view of it, or by the sender of tasks.
#[derive(Clone, Copy)]
enum SendKind {
    Plain,
    Try,
    TryRealtime,
    Late,
    TryOption,
    TryOptionRealtime,
    LateOption,
    ByView,
    LateByView,
    LateOptionByView,
    TryByTask,
}

/// A form of a receive, by the receiver of threads, by a view of it, or by the receiver of tasks.
#[derive(Clone, Copy)]
enum ReceiveKind {
    Plain,
    Try,
    TryRealtime,
    Late,
    ByView,
    LateByView,
    TryByTask,
}

/// How another serves a call: it gives it a message with this number, or takes its message.
#[derive(Clone, Copy)]
enum ServedBy {
    Give(u64),
    Take,
}

/// A call. `First` and `Second` are the tasks that poll.
#[derive(Clone, Copy)]
enum HandleCall {
    Send(SendKind, u64),
    Receive(ReceiveKind),
    /// Makes room in the vector for so many messages.
    Room(usize),
    /// Drains into the vector, by the receiver of tasks or of threads.
    Drain { by_task: bool },
    SealBySender,
    SealByReceiver,
    CloseBySender,
    CloseByReceiver,
    /// How many messages the buffer has.
    Len,
    /// How many messages weren't dropped yet.
    Alive,
    /// Asks each question of an empty channel of capacity 2.
    Questions,
    /// Clones handles of both kinds, turns each into the other kind, and drops them.
    Convert,
    /// Makes a send that the first task polls.
    BeginSend(u64),
    /// Polls it again, by the first task or by the second.
    FirstPollsSend,
    SecondPollsSend,
    /// Drops it.
    LeaveSend,
    /// Makes a send that the second task polls, and drops it.
    SendBeside(u64),
    /// Makes a list of one message, by a sender of its own, that the second task polls, and drops it.
    ListBeside(u64),
    BeginReceive,
    FirstPollsReceive,
    SecondPollsReceive,
    ReceiveBeside,
    BeginStream,
    FirstPollsStream,
    StreamBeside,
    BothBeside,
    EachBeside,
    /// Whether the second task was woken.
    SecondIsWoken,
    /// A call with a deadline that is served while it sleeps.
    ReceiveAsleep(u64),
    SendAsleep(u64),
}

/// What a refused call leaves as it was.
#[derive(Clone, Copy, Debug, PartialEq, Eq)]
struct HandleState {
    len: usize,
    senders: u32,
    receivers: u32,
    drained: usize,
    alive: u64,
}

/// A channel's handles, the futures on it, and what the calls need.
#[derive(Drop)]
struct HandleKit<'a, R> {
    rt: &'a R,
    given: &'a Given,
    tasks: &'a (MockTask, MockTask),
    tx: &'a Sender<Message>,
    rx: &'a Receiver<Message>,
    into: Vec<Message>,
    sending: Option<SendFuture<'a, Message>>,
    receiving: Option<ReceiveFuture<'a, Message>>,
    stream: Option<ReceiveStream<'a, Message>>,
    /// Whether a thread serves calls, too.
    is_served: bool,
}

impl<R: Wait + time::Clock> Subject for HandleKit<'_, R> {
    type Call = HandleCall;

    type Answer = AnyAnswer;

    type State = HandleState;

    /// How many messages are alive isn't known while a thread may drop some.
    fn state(&self) -> HandleState {
        HandleState {
            len: self.tx.len(self.rt),
            senders: self.tx.sender_count(self.rt),
            receivers: self.tx.receiver_count(self.rt),
            drained: self.into.len(),
            alive: if self.is_served {
                0
            } else {
                self.given.alive()
            },
        }
    }

    fn make(&mut self, call: HandleCall) -> AnyAnswer {
        match call {
            HandleCall::Send(form, number) => self.send(form, number),
            HandleCall::Receive(take) => self.receive(take),
            HandleCall::Room(count) if self.into.try_reserve(count).is_err() => AnyAnswer::NoMemory,
            HandleCall::Room(_) => AnyAnswer::Done,
            HandleCall::Drain { by_task } => self.drain(by_task),
            HandleCall::SealBySender => ended(self.tx.seal(self.rt)),
            HandleCall::SealByReceiver => ended(self.rx.seal(self.rt)),
            HandleCall::CloseBySender => ended(self.tx.close(self.rt)),
            HandleCall::CloseByReceiver => ended(self.rx.close(self.rt)),
            HandleCall::Len => AnyAnswer::Number(self.tx.len(self.rt) as u64),
            HandleCall::Alive => AnyAnswer::Number(self.given.alive()),
            HandleCall::Questions => AnyAnswer::Flag(self.is_as_it_began()),
            HandleCall::Convert => AnyAnswer::Flag(self.converts()),
            HandleCall::ReceiveAsleep(number) => self.receive_asleep(number),
            HandleCall::SendAsleep(number) => self.send_asleep(number),
            _ => self.poll(call),
        }
    }

    /// A poll by another task than the last asks for another poll.
    fn refused(call: HandleCall) -> AnyAnswer {
        match call {
            HandleCall::SecondPollsSend | HandleCall::SecondPollsReceive => AnyAnswer::Woken,
            _ => AnyAnswer::NoMemory,
        }
    }
}

/// Both ends of a channel that is made so.
fn open(alloc: Global, made: MadeBy) -> Result<(Sender<Message>, Receiver<Message>), NewError> {
    let (tx, rx) = match made {
        MadeBy::Bounded(capacity) => return bounded(alloc, capacity),
        MadeBy::Unbounded => return unbounded(alloc),
        MadeBy::BoundedAsync(capacity) => bounded_async(alloc, capacity)?,
        MadeBy::UnboundedAsync => unbounded_async(alloc)?,
    };
    Ok((tx.to_sync(), rx.to_sync()))
}

/// The ends of a new channel, made again where it was refused.
fn opened(
    alloc: Global,
    tally: &mut Score,
    made: MadeBy,
) -> Option<(Sender<Message>, Receiver<Message>)> {
    match open(alloc, made) {
        Err(NewError::NoMemory) => {
            tally.add()?;
            open(alloc, made).ok()
        },
        opened => opened.ok(),
    }
}

/// A task that is polled by hand, asked for again where it was refused.
fn task<R: RandomSource + AllocGlobal>(rt: &R) -> Option<MockTask> {
    match MockTask::new(rt) {
        Err(_refused) => MockTask::new(rt).ok(),
        made => made.ok(),
    }
}

impl<'a, R> HandleKit<'a, R> {
    /// These handles, with no future on them.
    fn new(
        rt: &'a R,
        alloc: Global,
        given: &'a Given,
        tasks: &'a (MockTask, MockTask),
        tx: &'a Sender<Message>,
        rx: &'a Receiver<Message>,
    ) -> Self {
        HandleKit {
            rt,
            given,
            tasks,
            tx,
            rx,
            into: Vec::new(alloc),
            sending: None,
            receiving: None,
            stream: None,
            is_served: false,
        }
    }
}

/// Makes the calls of each row, after which no message of it is left. A run that may refuse nothing leaves
/// out the rows whose calls all may ask for memory.
pub fn call_all<R>(rt: &R, alloc: Global, tally: &mut Score) -> Option<()>
where
    R: Wait + time::Clock + RandomSource + AllocGlobal,
{
    let (given, tasks) = (Given::new(alloc)?, (task(rt)?, task(rt)?));
    for row in ROWS {
        if row.calls.is_empty() && tally.run != Run::Refusals {
            continue;
        }
        let (tx, rx) = opened(alloc, tally, row.made)?;
        make_row(
            &mut HandleKit::new(rt, alloc, &given, &tasks, &tx, &rx),
            tally,
            row,
        )?;
        drop(tx);
        drop(rx);
        holds(given.alive() == 0)?;
    }
    Some(())
}

/// Makes the calls of each row beside which a thread serves them.
pub fn call_served<R>(rt: &R, alloc: Global, tally: &mut Score) -> Option<()>
where
    R: Threads + Wait + time::Clock + RandomSource + AllocGlobal + Copy + Send + 'static,
{
    let (given, tasks) = (Given::new(alloc)?, (task(rt)?, task(rt)?));
    for row in SERVED {
        let (tx, rx) = opened(alloc, tally, MadeBy::BoundedAsync(0))?;
        let mut handles = HandleKit::new(rt, alloc, &given, &tasks, &tx, &rx);
        call_beside_a_thread(&mut handles, tally, row)?;
        drop(handles);
        drop(tx);
        drop(rx);
        holds(given.alive() == 0)?;
    }
    Some(())
}

/// Makes the first calls of the row, and the others while a thread serves them.
fn call_beside_a_thread<R>(
    handles: &mut HandleKit<'_, R>,
    tally: &mut Score,
    row: &Row<(ServedBy, ServedBy), HandleCall, AnyAnswer>,
) -> Option<()>
where
    R: Threads + Wait + time::Clock + Copy + Send + 'static,
{
    make_each(handles, tally, row.ready)?;
    let thread = helper(*handles.rt, row.made, handles.tx, handles.rx)?;
    handles.is_served = true;
    let called = make_each(handles, tally, row.calls);
    let has_served = thread.join(handles.rt);
    called?;
    holds(has_served)
}
