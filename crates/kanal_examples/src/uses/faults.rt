//! Refusals, and how one goes on from them.
use anyhow::Result;
use kanal::Receiver;
use std::alloc::AllocGlobal;
use std::sync::Wait;

/// Each call by `?`, which makes its error one of `anyhow`.
pub fn each_by_a_question_mark<R: Wait + AllocGlobal>(rt: &R) -> Result<u64> {
    let (sender, receiver) = kanal::bounded(rt.alloc(), 1)?; // NewError
    let other = sender.clone(rt)?; // TooMany
    other.send(rt, 5)?; // SendError
    let number = receiver.recv(rt)?; // ReceiveError
    receiver.close(rt)?; // CloseError
    Ok(number)
}

/// What one asks of a channel that seems stuck.
pub fn state_of<R: Wait + Print>(rt: &R, receiver: &Receiver<u64>) -> Result<()> {
    println!(rt; "senders: {}", receiver.sender_count(rt))?;
    println!(rt; "receivers: {}", receiver.receiver_count(rt))?;
    println!(rt; "{} of {} places", receiver.len(rt), receiver.capacity(rt))?;
    println!(rt; "closed: {}", receiver.is_closed(rt))?;
    println!(rt; "nothing will come: {}", receiver.is_terminated(rt))?;
    Ok(())
}

/// The state of a channel that was sealed with a message in it.
pub fn a_sealed_one<R: Wait + AllocGlobal + Print>(rt: &R) -> Result<()> {
    let (sender, receiver) = kanal::bounded::<u64>(rt.alloc(), 2)?;
    sender.send(rt, 1)?;
    sender.seal(rt)?;
    state_of(rt, &receiver)
}
