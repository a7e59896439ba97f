//! Two threads on a recorded channel, whose history is checked at the end and printed.
//!
//! The sender hands on what it has seen, and the receiver hears that first: so the history is the same each time.
use anyhow::{Result, anyhow};
use kanal_recorded::{Pass, Recorded, Seen};
use std::alloc::AllocGlobal;
use std::sync::{Mutex, Wait};
use std::thread;
use std::thread::Threads;

/// The channel of both threads.
type Numbers = Recorded<u64>;

/// What the sender hands on, once it has sent.
type Handoff = Mutex<Option<Seen>>;

/// How often the receiver looks for what the sender hands on.
const TURNS: u32 = 1_000_000;

/// Sends 7, and hands on what the pass has seen.
fn send<R: Wait>(rt: &R, channel: &Numbers, handed: &Handoff, mut pass: Pass<u64>) -> Pass<u64> {
    pass.try_send(rt, channel, 7);
    *handed.lock(rt) = Some(pass.tell());
    pass
}

/// Waits for what the sender hands on, hears it, and receives.
fn receive<R: Wait>(rt: &R, channel: &Numbers, handed: &Handoff, mut pass: Pass<u64>) -> Pass<u64> {
    for _ in 0..TURNS {
        let told = *handed.lock(rt);
        if let Some(seen) = told {
            pass.hear(seen);
            break;
        }
        thread::yield_now();
    }
    pass.try_recv(rt, channel);
    pass
}

/// Lets both threads make their calls.
fn talk<R: Threads + Wait + Sync>(
    rt: &R,
    channel: &Numbers,
    sender: Pass<u64>,
    receiver: Pass<u64>,
) -> (Pass<u64>, Pass<u64>) {
    let handed = Mutex::new(None);
    thread::join(
        rt,
        || send(rt, channel, &handed, sender),
        || receive(rt, channel, &handed, receiver),
    )
}

/// Prints the history of a send and a receive.
pub fn show<R: Threads + Wait + AllocGlobal + Print + Sync>(rt: &R) -> Result<()> {
    let channel: Numbers = Recorded::new(rt.alloc(), Some(1))?;
    let sender = channel.pass(rt)?;
    let receiver = channel.pass(rt)?;
    let (sender, receiver) = talk(rt, &channel, sender, receiver);
    let mut passes = Vec::new(rt.alloc());
    passes.push(sender)?;
    passes.push(receiver)?;
    let Ok(journal) = channel.finish(passes) else {
        return Err(anyhow!("the lists don't agree with the journal"));
    };
    for entry in &journal.entries {
        println!(rt;
            "party {}: {:?} -> {:?}",
            entry.party, entry.event, entry.reply
        )?;
    }
    Ok(())
}
