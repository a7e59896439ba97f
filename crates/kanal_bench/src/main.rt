//! Measures channels and pools: one scenario a run. The numbers that it prints are the same in each run,
//! but for times.
//!
//! `kanal_bench SCENARIO CAPACITY COUNT` sends numbers through a channel and prints the wrapping sum of
//! those that were received. SCENARIO is `seq` (one thread sends and receives in turn), `spsc` (one thread
//! sends, one receives), `mpsc` (four send, one receives) or `mpmc` (four send, four receive); `async-seq`,
//! `async-spsc` and `async-mpmc` are the same in tasks, one a thread, `loop-seq`, `loop-spsc` and `loop-mpmc` by one
//! `send_all` and one `for_each` a task, `async-many` has 32 sending tasks on two threads and 32 receiving ones on two more,
//! and `history-seq` is `seq` on a channel with one history.
//! CAPACITY is a number, or `u` for a channel without limit. Each of k senders sends the numbers 0, 1, ..
//! below COUNT / k.
//!
//! Two further ones with these words print something else. `wait` waits for a message that nobody sends,
//! for COUNT milliseconds of the system's clock, and prints how that ended. `stall` times COUNT sends of
//! one thread, one by one, beside three threads that send and receive in turn, and prints what the median
//! of them took, what all but one in a hundred took at most, and what the longest took, in nanoseconds.
//!
//! The others have words of their own. `finish COUNT PASSES ROUNDS` makes COUNT calls on a recorded channel
//! through so many passes in each of the rounds, and prints how many entries the last checked journal has;
//! `leave` makes the same calls and leaves their histories unchecked. `drops ORDER COUNT` lets COUNT receive
//! futures wait on one channel and drops them all, in the ORDER `shuffled`, `oldest-first` or
//! `youngest-first`; it prints how many they were, and as an error the nanoseconds a drop.
//! `pool WORKERS COUNT` does COUNT jobs without work by a pool of so many WORKERS, or in turn on one thread
//! where WORKERS is `in-turn`, and prints the sum of the answers.
//!
//! It joins all threads before it prints.
#![tactic(auto)]

mod calls;
mod capacity;
mod crowd;
mod drops;
mod many_tasks;
mod one_history;
mod pool;
mod stall;
mod tasks;
mod threads;
mod wait;

use anyhow::{Result, bail};
use calls::Rounds;
use capacity::Capacity;
use crowd::{Crowd, Worker};
use drops::Turn;
use std::alloc::AllocGlobal;
use std::env;
use std::random::RandomSource;
use std::sync::Wait;
use std::thread::Threads;
use std::time::Clock;

/// What is done with a channel of a given capacity.
#[derive(Copy, Clone)]
enum Scenario {
    /// One thread sends and receives in turn.
    InTurn,
    /// One task does so.
    TaskInTurn,
    /// One task does so by two loops.
    LoopsInTurn,
    /// One thread does so on a channel with one history.
    InOneHistory,
    /// Threads send, and others receive.
    Crowd(Crowd),
    /// A wait for nothing.
    Wait,
    /// Sends that are timed one by one.
    Stall,
}

impl Scenario {
    /// The least capacity at which it can end: in turn a place for a message, else none; and where sends are timed
    /// a place for each thread, so that no send waits for one.
    fn least_capacity(self) -> usize {
        match self {
            Scenario::InTurn | Scenario::TaskInTurn | Scenario::InOneHistory => 1,
            Scenario::LoopsInTurn | Scenario::Crowd(_) | Scenario::Wait => 0,
            Scenario::Stall => 4,
        }
    }
}

/// The scenarios on a channel of a given capacity, by their words.
const SCENARIOS: [(&str, Scenario); 14] = [
    ("seq", Scenario::InTurn),
    ("async-seq", Scenario::TaskInTurn),
    ("loop-seq", Scenario::LoopsInTurn),
    ("history-seq", Scenario::InOneHistory),
    ("spsc", Scenario::Crowd(crowd::ONE_TO_ONE)),
    ("mpsc", Scenario::Crowd(crowd::FOUR_TO_ONE)),
    ("mpmc", Scenario::Crowd(crowd::FOUR_TO_FOUR)),
    ("async-spsc", Scenario::Crowd(crowd::TASK_TO_TASK)),
    ("async-mpmc", Scenario::Crowd(crowd::FOUR_TASKS_TO_FOUR)),
    ("loop-spsc", Scenario::Crowd(crowd::LOOP_TO_LOOP)),
    ("loop-mpmc", Scenario::Crowd(crowd::FOUR_LOOPS_TO_FOUR)),
    ("async-many", Scenario::Crowd(crowd::MANY_TASKS)),
    ("wait", Scenario::Wait),
    ("stall", Scenario::Stall),
];

/// The word at this place, which is a number.
fn number(words: &[String], place: usize) -> Result<u64> {
    match words.get(place) {
        None => bail!("usage: kanal_bench SCENARIO WORD WORD .."),
        Some(word) => match word.parse::<u64>() {
            Ok(number) => Ok(number),
            Err(_) => bail!("'{word}' is no number"),
        },
    }
}

/// Does what the words ask for, of which the first is the program's.
fn run<R>(rt: R, words: &[String]) -> Result<()>
where
    R: Threads + Wait + RandomSource + AllocGlobal + Clock + Print + Eprint,
    R: Copy + Send + Sync + 'static,
{
    let [_program, scenario, words @ ..] = words else {
        bail!(
            "usage: kanal_bench SCENARIO CAPACITY|u COUNT (finish, leave, drops and pool have words of their own)"
        );
    };
    match scenario.as_str() {
        "finish" | "leave" => {
            let rounds = Rounds {
                count: usize::try_from(number(words, 0)?)?,
                passes: usize::try_from(number(words, 1)?)?,
                rounds: usize::try_from(number(words, 2)?)?,
                is_checked: scenario.as_str() == "finish",
            };
            println!(rt; "{}", rounds.make(&rt, rt.alloc())?)?;
        },
        "drops" => {
            let (turn, count) = (Turn::named(words)?, number(words, 1)?);
            let nanos = drops::time(&rt, turn, count)?;
            println!(rt; "{count}")?;
            eprintln!(rt; "{nanos} ns a drop")?;
        },
        "pool" => {
            let (workers, count) = (pool::workers(words)?, number(words, 1)?);
            println!(rt; "{}", pool::sum(&rt, workers, count)?)?;
        },
        scenario => run_on_a_channel(rt, scenario, words)?,
    }
    Ok(())
}

/// Does what the word of a scenario on a channel asks for, with the words behind it.
fn run_on_a_channel<R>(rt: R, scenario: &str, words: &[String]) -> Result<()>
where
    R: Threads + Wait + RandomSource + AllocGlobal + Clock + Print + Copy + Send + 'static,
{
    let Some((_word, scenario)) = SCENARIOS.iter().find(|it| it.0 == scenario) else {
        bail!(
            "scenarios: seq spsc mpsc mpmc async-seq,-spsc,-mpmc,-many loop-seq,-spsc,-mpmc history-seq wait stall finish leave drops pool"
        );
    };
    let (alloc, count) = (rt.alloc(), number(words, 1)?);
    let capacity = Capacity::read(words, scenario.least_capacity())?;
    let sum = match scenario {
        Scenario::InTurn => {
            let (sender, receiver) = capacity.open(alloc)?;
            threads::add_up(&rt, &sender, &receiver, count)?
        },
        Scenario::TaskInTurn => {
            let (sender, receiver) = capacity.open(alloc)?;
            tasks::add_up(&rt, sender.as_async(), receiver.as_async(), count)?
        },
        Scenario::LoopsInTurn => {
            let (sender, receiver) = capacity.open(alloc)?;
            tasks::add_up_in_loops(&rt, sender.to_async(), receiver.as_async(), count)?
        },
        Scenario::InOneHistory => one_history::in_turn(&rt, alloc, capacity, count)?,
        Scenario::Crowd(crowd) => {
            crowd::send_and_receive(rt, capacity.open(alloc)?, *crowd, count)?
        },
        Scenario::Wait => {
            println!(rt; "{}", wait::for_nothing(&rt, capacity.open(alloc)?, count))?;
            return Ok(());
        },
        Scenario::Stall => {
            println!(rt; "{}", stall::in_threads(rt, alloc, capacity, count)?)?;
            return Ok(());
        },
    };
    println!(rt; "{sum}")?;
    Ok(())
}

fn main(rt: HostRuntime) -> Result<()> {
    let words: Vec<String> = env::args(&rt)?.collect(rt.alloc())?;
    run(rt, words.as_slice())
}
