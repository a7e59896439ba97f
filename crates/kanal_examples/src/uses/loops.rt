//! Loops over messages, in two forms.
use anyhow::Result;
use std::alloc::AllocGlobal;
use std::sync::Wait;

/// All messages, until a receive is refused for whatever reason.
pub fn until_a_receive_is_refused<R: Wait + AllocGlobal + Print>(rt: &R) -> Result<()> {
    let (sender, mut receiver) = kanal::bounded::<u64>(rt.alloc(), 8)?;
    sender.send(rt, 10)?;
    sender.send(rt, 20)?;
    drop(sender);
    for message in receiver.iter(rt) {
        println!(rt; "{message}")?;
    }
    Ok(())
}

/// Each message handed to a closure, until no sender is left.
pub fn each_handed_to_a_closure<R: Wait + AllocGlobal + Print>(rt: &R) -> Result<()> {
    let (sender, receiver) = kanal::bounded::<u64>(rt.alloc(), 8)?;
    sender.send(rt, 60)?;
    sender.send(rt, 70)?;
    drop(sender);
    let mut sum: u64 = 0;
    receiver.for_each(rt, |message| sum = sum.wrapping_add(message))?;
    println!(rt; "{sum}")?;
    Ok(())
}
