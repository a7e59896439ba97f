//! The scenario of single sends: how long each of one thread's sends takes, beside threads that are busy.
use crate::capacity::Capacity;
use anyhow::Result;
use kanal::{Receiver, Sender};
use std::alloc::Global;
use std::sync::atomic::AtomicBool;
use std::sync::atomic::Ordering::SeqCst;
use std::sync::{Arc, Wait};
use std::thread::{JoinHandle, Threads};
use std::time::{Clock, Duration, Instant};
use std::{fmt, thread};

/// How many threads are busy beside the one that is measured.
const BUSY_THREADS: u64 = 3;

/// How long the sends took.
#[derive(Copy, Clone)]
pub struct Times {
    /// Half of them took no longer.
    median: Duration,
    /// One in a hundred took longer.
    late: Duration,
    /// None took longer.
    longest: Duration,
}

impl Times {
    /// What these sends took.
    fn of(mut sends: Vec<Duration>) -> Result<Self> {
        sends.sort()?;
        let count = sends.len();
        Ok(Times {
            median: longest_but(&sends, count / 2),
            late: longest_but(&sends, count / 100),
            longest: longest_but(&sends, 0),
        })
    }
}

impl fmt::Display for Times {
    fn fmt<W: fmt::Write>(&self, f: &mut fmt::Formatter<W>) -> fmt::Result {
        write!(
            f,
            "p50 {} p99 {} max {}",
            self.median.as_nanos(),
            self.late.as_nanos(),
            self.longest.as_nanos()
        )
    }
}

/// The last of these but for so many behind it, or zero where there are no more than those.
fn longest_but(sorted: &[Duration], longer: usize) -> Duration {
    sorted
        .iter()
        .rev()
        .nth(longer)
        .copied()
        .unwrap_or(Duration::ZERO)
}

/// Sends and receives in turn, until it is told to stop or the channel ends.
fn keep_busy<R: Wait>(
    rt: &R,
    sender: &Sender<u64>,
    receiver: &Receiver<u64>,
    is_over: &AtomicBool,
) {
    for _ in rt.forever() {
        let is_done = is_over.load(SeqCst);
        if is_done || sender.send(rt, 0).is_err() || receiver.recv(rt).is_err() {
            return;
        }
    }
}

/// Starts the busy threads, with clones of both ends.
fn start_busy<R: Threads + Wait + Copy + Send + 'static>(
    rt: R,
    sender: &Sender<u64>,
    receiver: &Receiver<u64>,
    is_over: &Arc<AtomicBool>,
    busy: &mut Vec<JoinHandle<()>>,
) -> Result<()> {
    for _ in 0..BUSY_THREADS {
        let is_over = Arc::try_clone(is_over)?;
        let (sender, receiver) = (sender.clone(&rt)?, receiver.clone(&rt)?);
        busy.push(thread::spawn(&rt, move || {
            keep_busy(&rt, &sender, &receiver, &is_over)
        })?)?;
    }
    Ok(())
}

/// Sends and receives in turn, and notes how long each send took.
fn note_sends<R: Wait + Clock>(
    rt: &R,
    sender: &Sender<u64>,
    receiver: &Receiver<u64>,
    count: u64,
    sends: &mut Vec<Duration>,
) -> Result<()> {
    for number in 0..count {
        let start = Instant::now(rt)?;
        sender.send(rt, number)?;
        let passed = start.elapsed(rt)?;
        sends.push(passed)?;
        receiver.recv(rt)?;
    }
    Ok(())
}

/// Starts the busy threads on a channel of this capacity, and notes the sends beside them.
fn note_beside<R: Threads + Wait + Clock + Copy + Send + 'static>(
    rt: R,
    alloc: Global,
    capacity: Capacity,
    count: u64,
    is_over: &Arc<AtomicBool>,
    busy: &mut Vec<JoinHandle<()>>,
    sends: &mut Vec<Duration>,
) -> Result<()> {
    let (sender, receiver) = capacity.open(alloc)?;
    start_busy(rt, &sender, &receiver, is_over, busy)?;
    note_sends(&rt, &sender, &receiver, count, sends)
}

/// Times so many sends of this thread beside the busy ones, and joins those.
pub fn in_threads<R: Threads + Wait + Clock + Copy + Send + 'static>(
    rt: R,
    alloc: Global,
    capacity: Capacity,
    count: u64,
) -> Result<Times> {
    let is_over = Arc::new(alloc, AtomicBool::new(false))?;
    let mut busy = Vec::new(alloc);
    let mut sends = Vec::new(alloc);
    let noted = note_beside(rt, alloc, capacity, count, &is_over, &mut busy, &mut sends);
    is_over.store(true, SeqCst);
    for thread in busy {
        thread.join(&rt);
    }
    noted?;
    Times::of(sends)
}
