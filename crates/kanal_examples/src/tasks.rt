//! Tasks send numbers to a stage, which reads a stream, and a thread adds up what it sends on; then receives are
//! given up: one takes no message, one loses its own, and in two ways nothing is lost.
use anyhow::Result;
use futures::executor::block_on;
use futures::test::MockTask;
use futures::{StreamExt, TryStreamExt, future, stream};
use kanal::error::ReceiveError;
use kanal::{AsyncReceiver, AsyncSender};
use std::alloc::AllocGlobal;
use std::random::RandomSource;
use std::sync::Wait;
use std::thread::{self, Threads};

/// What becomes of a receive that waits.
#[derive(Clone, Copy, Debug)]
enum Fate {
    /// It is dropped before a message came.
    DroppedEarly,
    /// It is dropped once it was handed a message.
    DroppedLate,
    /// It is handed a message, and polled to its answer.
    PolledOn,
}

impl Fate {
    /// Begins a receive, sends one message, and prints what came of the two.
    fn play<R: Wait + RandomSource + AllocGlobal + Print>(
        self,
        rt: &R,
        sender: &AsyncSender<u64>,
        receiver: &AsyncReceiver<u64>,
    ) -> Result<()> {
        let mut receiving = receiver.recv();
        let pending = MockTask::new(rt)?.poll(&mut receiving).is_pending();
        let received = match self {
            Fate::DroppedEarly => {
                drop(receiving);
                sender.try_send(rt, 7)?;
                receiver.try_recv(rt)?
            }
            Fate::DroppedLate => {
                sender.try_send(rt, 7)?;
                drop(receiving);
                receiver.try_recv(rt)?
            }
            Fate::PolledOn => {
                sender.try_send(rt, 7)?;
                Some(block_on(rt, &mut receiving)??)
            }
        };
        println!(rt; "{self:?}: pending {pending}, then received {received:?}")?;
        Ok(())
    }
}

/// Why a stream ended, by its fault.
fn ending(fault: Option<&ReceiveError>) -> &'static str {
    match fault {
        None => "it has not ended",
        Some(ReceiveError::SendClosed) => "nothing more comes",
        Some(_error) => "another cause",
    }
}

/// Seals, and reads a stream that was handed a message to its end: nothing is lost.
fn read_on<R>(rt: &R, sender: &AsyncSender<u64>, receiver: &AsyncReceiver<u64>) -> Result<()>
where
    R: Wait + RandomSource + AllocGlobal + Print,
{
    let mut numbers = receiver.stream();
    let pending = MockTask::new(rt)?.poll(&mut numbers.next()).is_pending();
    sender.try_send(rt, 7)?;
    sender.try_send(rt, 8)?;
    sender.seal(rt)?;
    let adding = numbers.by_ref().fold(0u64, |sum, number| future::ready(sum.wrapping_add(number)));
    let sum = block_on(rt, adding)?;
    println!(rt; "ReadOn: pending {pending}, then received {sum} of 15")?;
    println!(rt; "its stream: {}", ending(numbers.fault()))?;
    Ok(())
}

/// Sends the numbers from 1 to 20 in a task, which drops its sender at the end.
fn send_numbers<R>(rt: &R, sender: AsyncSender<u64>) -> Result<()>
where
    R: Wait + RandomSource + AllocGlobal,
{
    block_on(rt, sender.send_all(stream::iter(1..=20)))??;
    Ok(())
}

/// Sends on the squares of the even numbers in a task, and answers why its stream ended.
fn square_evens<R>(
    rt: &R,
    numbers: &AsyncReceiver<u64>,
    squares: &AsyncSender<u64>,
) -> Result<&'static str>
where
    R: Wait + RandomSource + AllocGlobal,
{
    let mut stream = numbers.stream();
    let each = stream
        .by_ref()
        .filter(|number| future::ready(*number % 2 == 0))
        .map(Ok)
        .try_for_each(|number: u64| squares.send(number.wrapping_mul(number)));
    block_on(rt, each)??;
    Ok(ending(stream.fault()))
}

/// Starts the task that sends and the stage, and adds up the squares on this thread.
fn add_squares<R>(rt: R) -> Result<()>
where
    R: Threads + Wait + RandomSource + AllocGlobal + Print + Copy + Send + 'static,
{
    let (number_sender, numbers) = kanal::bounded_async::<u64>(rt.alloc(), 4)?;
    let (square_sender, squares) = kanal::bounded_async::<u64>(rt.alloc(), 4)?;
    let producer = thread::spawn(&rt, move || send_numbers(&rt, number_sender))?;
    let stage = thread::spawn(&rt, move || square_evens(&rt, &numbers, &square_sender))?;
    let mut sum = 0u64;
    let added = squares
        .to_sync()
        .for_each(&rt, |square| sum = sum.wrapping_add(square));
    let (sent, ended) = (producer.join(&rt), stage.join(&rt));
    added?;
    println!(rt; "the stage's stream: {}", ended?)?;
    sent?;
    println!(rt; "the squares of the even numbers make {sum}")?;
    Ok(())
}

/// Runs the stage, and then each fate of a receive on a second channel.
pub fn show<R>(rt: R) -> Result<()>
where
    R: Threads + Wait + RandomSource + AllocGlobal + Print + Copy + Send + 'static,
{
    add_squares(rt)?;
    let (sender, receiver) = kanal::bounded_async::<u64>(rt.alloc(), 8)?;
    for fate in [Fate::DroppedEarly, Fate::DroppedLate, Fate::PolledOn] {
        fate.play(&rt, &sender, &receiver)?;
    }
    read_on(&rt, &sender, &receiver)
}
