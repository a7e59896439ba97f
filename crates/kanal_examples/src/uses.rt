//! Short uses of a channel, one function each, in the order in which a reader meets them: between
//! threads, between tasks, from one to the other, with a deadline, in a loop, and with many of them; and the
//! callers of the pages CALLING.md.
mod callers;
mod facts;
mod faults;
mod loops;
mod many;
mod polls;
mod tasks;
mod threads;
mod timed;

use anyhow::Result;
use callers::SquareJob;
use kanal::Sender;
use kanal::error::SendError;
use std::alloc::AllocGlobal;
use std::random::RandomSource;
use std::sync::Wait;
use std::thread::{self, JoinHandle, Threads};
use std::time::Clock;

/// What a thread that sends answers at its end.
type SendResult = std::result::Result<(), SendError>;

/// Sends one message from a thread.
fn send_one<R, T>(rt: R, sender: Sender<T>, message: T) -> Result<JoinHandle<SendResult>>
where
    R: Threads + Wait + Copy + Send + 'static,
    T: Drop + Send + 'static,
{
    let thread = thread::spawn(&rt, move || sender.send(&rt, message))?;
    Ok(thread)
}

/// The callers of the pages for callers, each with what it answers.
fn call_each<R: Threads + Wait + AllocGlobal + Print + Sync>(rt: &R) -> Result<()> {
    let (sender, _receiver) = kanal::bounded::<u64>(rt.alloc(), 1)?;
    println!(rt; "{}", callers::offer(rt, &sender, 7).1.is_none())?;
    let (front, left) = callers::first_of_two(rt.alloc(), 8, 7)?;
    println!(rt; "{front:?}, {left} left")?;
    println!(rt; "{}", callers::handed(rt.alloc(), 9).unwrap_or(0))?;
    if let Some(journal) = callers::one_message(rt, rt.alloc()) {
        println!(rt; "{}", journal.entries.len())?;
    }
    let jobs = [SquareJob(2), SquareJob(3)];
    for value in callers::by_two(rt, rt.alloc(), jobs.as_slice())? {
        println!(rt; "{value}")?;
    }
    Ok(())
}

/// Runs each use.
pub fn show<R>(rt: R) -> Result<()>
where
    R: Threads + Wait + RandomSource + AllocGlobal + Clock + Print,
    R: Copy + Send + Sync + 'static,
{
    threads::words_from_a_thread(rt)?;
    tasks::within_one_task(&rt)?;
    tasks::a_sender_lent_to_a_task(rt)?;
    tasks::a_receiver_for_a_task_and_one_for_a_thread(rt)?;
    timed::no_place_came(&rt)?;
    timed::in_batches(&rt)?;
    loops::until_a_receive_is_refused(&rt)?;
    loops::each_handed_to_a_closure(&rt)?;
    many::a_clone_for_each_thread(rt)?;
    many::a_seal_and_then_a_join(rt)?;
    many::one_of_several(rt)?;
    many::urgent_jobs_first(&rt)?;
    many::three_lanes_by_a_bell(&rt)?;
    polls::before_the_message_and_after_it(&rt)?;
    polls::clients_of_one_hub(&rt)?;
    println!(rt; "{}", faults::each_by_a_question_mark(&rt)?)?;
    faults::a_sealed_one(&rt)?;
    facts::through_a_channel(&rt)?;
    call_each(&rt)
}
