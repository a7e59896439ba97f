//! What a thread does that blocks.
use anyhow::Result;
use kanal::{Receiver, Sender};
use std::sync::Wait;

/// Sends the numbers below the count, until the channel ends.
pub fn send_all<R: Wait>(rt: &R, sender: &Sender<u64>, count: u64) {
    for number in 0..count {
        if sender.send(rt, number).is_err() {
            return;
        }
    }
}

/// The sum of all that is received until the channel ends.
pub fn receive_all<R: Wait>(rt: &R, receiver: &Receiver<u64>) -> u64 {
    let mut sum = 0u64;
    for _ in rt.forever() {
        match receiver.recv(rt) {
            Ok(number) => sum = sum.wrapping_add(number),
            Err(_) => break,
        }
    }
    sum
}

/// Sends and receives in turn, in this thread.
pub fn add_up<R: Wait>(
    rt: &R,
    sender: &Sender<u64>,
    receiver: &Receiver<u64>,
    count: u64,
) -> Result<u64> {
    let mut sum = 0u64;
    for number in 0..count {
        sender.send(rt, number)?;
        sum = sum.wrapping_add(receiver.recv(rt)?);
    }
    Ok(sum)
}
