//! A thread that sends numbers.
use kanal::Sender;
use kanal::error::SendError;
use std::process::Abort;
use std::sync::Wait;
use std::thread;
use std::thread::{JoinHandle, Threads};

/// What a thread that sends answers.
pub type SendResult = Result<(), SendError>;

/// Sends in a thread the numbers from the first up to the one before the end, or until a send is refused.
pub fn start_numbers<R: Threads + Wait + Abort + Copy + Send + 'static>(
    rt: R,
    sender: Sender<u64>,
    first: u64,
    end: u64,
) -> JoinHandle<SendResult> {
    let sending = thread::spawn(&rt, move || {
        for number in first..end {
            sender.send(&rt, number)?;
        }
        Ok(())
    });
    sending.expect(&rt, "a thread")
}
