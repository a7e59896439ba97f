//! Channels between threads.
use super::SendResult;
use anyhow::Result;
use kanal::Sender;
use std::alloc::AllocGlobal;
use std::sync::Wait;
use std::thread::{self, JoinHandle, Threads};

/// Sends two words.
fn say_both<R: Wait>(rt: &R, sender: &Sender<&'static str>) -> SendResult {
    sender.send(rt, "hello")?;
    sender.send(rt, "from a thread")
}

/// Sends them from a thread of their own.
fn greet<R: Threads + Wait + Copy + Send + 'static>(
    rt: R,
    sender: Sender<&'static str>,
) -> Result<JoinHandle<SendResult>> {
    let thread = thread::spawn(&rt, move || say_both(&rt, &sender))?;
    Ok(thread)
}

/// A clone of the sender goes to a thread, whose words come in order; the last sender's drop ends the
/// channel.
pub fn words_from_a_thread<R>(rt: R) -> Result<()>
where
    R: Threads + Wait + AllocGlobal + Print + Copy + Send + 'static,
{
    let (sender, receiver) = kanal::bounded::<&'static str>(rt.alloc(), 1)?;
    let thread = greet(rt, sender.clone(&rt)?)?;
    println!(rt; "{}", receiver.recv(&rt)?)?;
    println!(rt; "{}", receiver.recv(&rt)?)?;
    thread.join(&rt)?;
    sender.send(&rt, "and goodbye")?;
    println!(rt; "{}", receiver.recv(&rt)?)?;
    drop(sender);
    if let Err(error) = receiver.recv(&rt) {
        println!(rt; "{error}")?;
    }
    Ok(())
}
