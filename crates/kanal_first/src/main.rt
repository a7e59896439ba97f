//! The README's first program: a thread sends three numbers, and the receiver prints each.
#![tactic(auto)]

use anyhow::Result;
use kanal::Sender;
use kanal::error::{ReceiveError, SendError};
use std::sync::Wait;
use std::thread::{self, JoinHandle, Threads};

/// Sends 1, 2 and 3 from a thread of its own.
fn count<R: Threads + Wait + Copy + Send + 'static>(
    rt: R,
    sender: Sender<u64>,
) -> Result<JoinHandle<Result<(), SendError>>> {
    let thread = thread::spawn(&rt, move || {
        sender.send(&rt, 1)?;
        sender.send(&rt, 2)?;
        sender.send(&rt, 3)
    })?;
    Ok(thread)
}

fn main(rt: HostRuntime) -> Result<()> {
    let (sender, receiver) = kanal::bounded(rt.alloc(), 8)?;
    let thread = count(rt, sender)?;
    for _ in rt.forever() {
        match receiver.recv(&rt) {
            Ok(number) => println!(rt; "{number}")?,
            Err(ReceiveError::SendClosed) => break,
            Err(error) => return Err(error.into()),
        }
    }
    thread.join(&rt)?;
    Ok(())
}
