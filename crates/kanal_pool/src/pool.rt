//! The pool: workers take the jobs from one channel and answer by another.
//!
//! The job channel is sealed before a worker starts, and the answer channel has a place for each answer: so each
//! worker ends, and none waits with an answer. No other module starts a thread.
ghost use Rattle.std.specs.Prelude.{◌≡◌, ◌≢◌, ◌↔◌, ◌⊎◌, length, IfOk, IsErrOf};
ghost use Rattle.kanal_core.specs.Line.{last_word};
ghost use Rattle.kanal_pool.specs.Answers.{answers, AreInPlace};

use crate::error::PoolError;
use crate::job::{Gate, Job};
use crate::places::{JobAnswer, all_answers, empty_places, put, work_on};
use kanal::error::NoMemory;
use kanal::{Receiver, Sender};
use std::alloc::Global;
use std::sync::Wait;
use std::thread;
use std::thread::Threads;

#[derive(Drop)]
struct Task<'a, J: Job> {
    number: usize,
    job: &'a J,
}

type WorkerReport<'a, J> = Result<JobAnswer<'a, J>, NoMemory>;

fn all_tasks<'a, J: Job, R: Wait>(
    rt: &R,
    alloc: Global,
    jobs: &'a [J],
) -> Result<Receiver<Task<'a, J>>, NoMemory> {
    let Ok((sender, receiver)) = kanal::bounded(alloc, jobs.len()) else {
        return Err(NoMemory);
    };
    for (number, job) in jobs.iter().enumerate() {
        if sender.send(rt, Task { number, job }).is_err() {
            return Err(NoMemory);
        }
    }
    let _sealed = sender.seal(rt);
    Ok(receiver)
}

/// Works until no job is left. A job that found no memory ends the others' work, too.
fn serve<'a, J: Job, G: Gate, R: Wait>(
    rt: &R,
    tasks: Receiver<Task<'a, J>>,
    reports: Sender<WorkerReport<'a, J>>,
    gate: &G,
) {
    for _ in rt.forever() {
        let Ok(Task { number, job }) = tasks.recv(rt) else {
            break;
        };
        gate.enter(number);
        let report = work_on(number, job);
        gate.leave(number);
        if report.is_err() {
            let _closed = tasks.close(rt);
        }
        if reports.send(rt, report).is_err() {
            break;
        }
    }
}

/// Lets as many workers do the work, and returns when they have ended; tells whether all were started.
fn work_through<'a, J, G, R>(
    rt: &R,
    workers: usize,
    tasks: &Receiver<Task<'a, J>>,
    reports: &Sender<WorkerReport<'a, J>>,
    gate: &G,
) -> bool
where
    J: Job + Sync,
    J::Answer: Send,
    G: Gate + Sync,
    R: Threads + Wait + Sync,
{
    thread::scope(thread::scope_env(), rt, |scope| {
        for _ in 0..workers {
            let (Ok(own_tasks), Ok(own_reports)) = (tasks.clone(rt), reports.clone(rt)) else {
                let _closed = tasks.close(rt);
                return false;
            };
            if scope
                .spawn(move || serve(rt, own_tasks, own_reports, gate))
                .is_err()
            {
                let _closed = tasks.close(rt);
                return false;
            }
        }
        true
    })
}

/// Puts the answers that came at their places; `NoMemory` where a job's work was refused memory.
fn collect<'a, J: Job, R: Wait>(
    rt: &R,
    told: &Receiver<WorkerReport<'a, J>>,
    jobs: &[J],
    places: &mut Vec<Option<J::Answer>>,
) -> Result<(), NoMemory>
    requires { AreInPlace J.value jobs.now places.old.items }
    ensures { AreInPlace J.value jobs.now places.new.items }
{
    for _ in jobs {
        let Ok(Some(report)) = told.try_recv(rt) else {
            break;
        };
        let _put = put(jobs, places, report?);
    }
    Ok(())
}

/// The answers of the jobs, in the jobs' order, found by so many workers.
///
/// It starts the workers as threads and waits until they have ended. `gate` is told when the work of a
/// job begins and ends; `NoGate` does nothing. Which worker does which job, and when, is not said.
///
/// # Errors
/// `NoWorkers` where `workers` is 0, and then `TooLarge` where there are `usize::MAX` jobs; nothing was done.
/// `NoMemory` where a growth or a job's work was refused memory, `NoThread` where a worker could not be started, and
/// `Incomplete` where the answers ended before each job had one. All workers that were started have ended then.
///
/// # Examples
/// ```text
/// map_jobs(&rt, alloc, &[Square(2), Square(3)], 4, &NoGate)   answers  Ok of 4 and 9
/// map_jobs(&rt, alloc, &[Square(2), Square(3)], 0, &NoGate)   answers  Err(NoWorkers)
/// ```
pub fn map_jobs<J, G, R>(
    rt: &R,
    alloc: Global,
    jobs: &[J],
    workers: usize,
    gate: &G,
) -> Result<Vec<J::Answer>, PoolError>
where
    J: Job + Sync,
    J::Answer: Send,
    G: Gate + Sync,
    R: Threads + Wait + Sync,
    ensures answers { IfOk result (λ found. found.items ≡ answers J.value jobs.now) }
    ensures no_workers { IsErrOf result PoolError.NoWorkers ↔ (workers ≡ 0) }
    ensures large { IsErrOf result PoolError.TooLarge
        ↔ ((workers ≢ 0) × (length jobs.now ≡ last_word)) }
{
    if workers == 0 {
        return Err(PoolError::NoWorkers);
    }
    if jobs.len() == usize::MAX {
        return Err(PoolError::TooLarge);
    }
    let mut places = empty_places(alloc, jobs)?;
    let tasks = all_tasks(rt, alloc, jobs)?;
    let Ok((reports, told)) = kanal::bounded(alloc, jobs.len()) else {
        return Err(PoolError::NoMemory);
    };
    let has_started = work_through(rt, workers, &tasks, &reports, gate);
    collect(rt, &told, jobs, &mut places)?;
    if !has_started {
        return Err(PoolError::NoThread);
    }
    all_answers(alloc, jobs, places)
}

/// The answers of the jobs, in their order, found one after the other on this thread.
/// Example: `map_in_turn(alloc, &[Square(2), Square(3)])` answers `Ok` of 4 and 9.
///
/// # Errors
/// `NoMemory` where a growth or a job's work was refused memory.
pub fn map_in_turn<J: Job>(alloc: Global, jobs: &[J]) -> Result<Vec<J::Answer>, NoMemory>
    ensures answers { IfOk result (λ found. found.items ≡ answers J.value jobs.now) }
{
    let Ok(mut found) = Vec::with_capacity(alloc, jobs.len()) else {
        return Err(NoMemory);
    };
    for job in jobs {
        let Ok(()) = found.push(job.work()?) else {
            return Err(NoMemory);
        };
    }
    Ok(found)
}

/// What so many workers answer, and what this thread answers alone: where both are `Ok` it is one list.
/// Example: `map_both_ways(&rt, alloc, &[Square(2), Square(3)], 4, &NoGate)` answers twice `Ok` of 4 and 9.
///
/// # Errors
/// Those of `map_jobs`, and those of `map_in_turn`.
pub fn map_both_ways<J, G, R>(
    rt: &R,
    alloc: Global,
    jobs: &[J],
    workers: usize,
    gate: &G,
) -> (
    Result<Vec<J::Answer>, PoolError>,
    Result<Vec<J::Answer>, NoMemory>,
)
where
    J: Job + Sync,
    J::Answer: Send,
    G: Gate + Sync,
    R: Threads + Wait + Sync,
    ensures one_list { IfOk result.0 (λ by_pool.
        IfOk result.1 (λ in_turn. by_pool.items ≡ in_turn.items)) }
{
    let by_pool = map_jobs(rt, alloc, jobs, workers, gate);
    let in_turn = map_in_turn(alloc, jobs);
    (by_pool, in_turn)
}
