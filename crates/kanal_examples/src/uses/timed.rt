//! A call with a deadline, and calls that share one.
use anyhow::Result;
use kanal::error::{ReceiveErrorTimeout, SendErrorTimeout};
use kanal::{Clock, Receiver, SystemClock};
use std::alloc::AllocGlobal;
use std::sync::Wait;
use std::time;
use std::time::Duration;

/// A send that waits for a millisecond, in which no place comes, and keeps its message.
pub fn no_place_came<R: Wait + AllocGlobal + Print + time::Clock>(rt: &R) -> Result<()> {
    let (sender, receiver) = kanal::bounded::<u64>(rt.alloc(), 1)?;
    sender.send(rt, 1)?;
    let clock = SystemClock::new(rt);
    let mut message = Some(2);
    match sender.send_option_timeout(rt, &mut message, Duration::from_millis(1), &clock) {
        Ok(()) => println!(rt; "sent")?,
        Err(SendErrorTimeout::Timeout) => println!(rt; "kept {message:?}")?,
        Err(error) => return Err(error.into()),
    }
    println!(rt; "{}", receiver.recv(rt)?)?;
    Ok(())
}

/// Takes messages until there are ten or five milliseconds have passed: those, and whether more may come.
fn batch<R: Wait + AllocGlobal + time::Clock>(
    rt: &R,
    receiver: &Receiver<u64>,
    clock: &SystemClock<'_, R>,
) -> Result<(Vec<u64>, bool)> {
    let mut messages = Vec::new(rt.alloc());
    let end = clock.now().saturating_add(5_000_000);
    for _ in 0..10 {
        let left = Duration::from_nanos(end.saturating_sub(clock.now()));
        match receiver.recv_timeout(rt, left, clock) {
            Ok(message) => messages.push(message)?,
            Err(ReceiveErrorTimeout::Timeout) => break,
            Err(ReceiveErrorTimeout::SendClosed) => return Ok((messages, false)),
            Err(error) => return Err(error.into()),
        }
    }
    Ok((messages, true))
}

/// Twelve messages, in two batches.
pub fn in_batches<R: Wait + AllocGlobal + Print + time::Clock>(rt: &R) -> Result<()> {
    let (sender, receiver) = kanal::bounded(rt.alloc(), 12)?;
    for number in 0..12 {
        sender.send(rt, number)?;
    }
    drop(sender);
    let clock = SystemClock::new(rt);
    for _ in 0..2 {
        let (messages, more) = batch(rt, &receiver, &clock)?;
        println!(rt; "a batch of {}, more may come: {more}", messages.len())?;
    }
    Ok(())
}
