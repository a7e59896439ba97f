//! An aggregator of log lines: three sources send until the channel is sealed, and a late line is refused; then an
//! empty text stops the aggregator, its error reaches the caller, and the source that sends on is refused.
use kanal::error::{ReceiveError, SendError};
use kanal::{Receiver, Sender};
use std::alloc::{AllocError, AllocGlobal, Global};
use std::sync::Wait;
use std::thread::{self, JoinHandle, Threads};
use thiserror::Error;

/// How grave a line is.
#[derive(Clone, Copy, Debug, PartialEq, Eq)]
enum Level {
    /// All is well.
    Info,
    /// Something may go wrong.
    Warning,
    /// Something went wrong.
    Error,
}

/// One line of a log.
#[derive(Debug, Drop)]
struct LogLine {
    /// How grave it is.
    level: Level,
    /// The number of the source that sent it.
    source: u8,
    /// What it says.
    text: String,
}

impl LogLine {
    /// A line with a text of its own.
    fn new(alloc: Global, level: Level, source: u8, text: &str) -> Result<Self, AllocError> {
        let text = String::from_str(alloc, text)?;
        Ok(LogLine {
            level,
            source,
            text,
        })
    }
}

/// Why the aggregator gave up.
#[derive(Debug, Drop, Error)]
enum LogError {
    /// The source of this number sent a line without a text.
    #[error("source {0} sent an empty text")]
    EmptyText(u8),
    /// The channel refused a receive before its end.
    #[error("no line came: {0}")]
    Refused(#[from] ReceiveError),
}

/// What the aggregator keeps of the lines.
#[derive(Debug, Default, Drop)]
struct Summary {
    /// How many lines are at `Level::Info`.
    infos: u64,
    /// How many lines are at `Level::Warning`.
    warnings: u64,
    /// How many lines are at `Level::Error`.
    errors: u64,
    /// The line with the longest text; of equals the lowest source's.
    longest: Option<LogLine>,
    /// The sum of the texts' lengths.
    length: usize,
}

impl Summary {
    /// Counts a line, or refuses it if its text is empty.
    fn add(&mut self, line: LogLine) -> Result<(), LogError> {
        if line.text.is_empty() {
            return Err(LogError::EmptyText(line.source));
        }
        match line.level {
            Level::Info => self.infos = self.infos.wrapping_add(1),
            Level::Warning => self.warnings = self.warnings.wrapping_add(1),
            Level::Error => self.errors = self.errors.wrapping_add(1),
        }
        self.length = self.length.wrapping_add(line.text.len());
        let wins = self.longest.as_ref().is_none_or(|best| {
            (best.text.len(), line.source) < (line.text.len(), best.source)
        });
        if wins {
            self.longest = Some(line);
        }
        Ok(())
    }
}

/// What a source answers at its end.
type SourceEnd = Result<(), SendError>;

/// Starts a source, which sends its lines in turn.
fn start_source<R: Threads + Wait + Copy + Send + 'static>(
    rt: R,
    sender: Sender<LogLine>,
    lines: Vec<LogLine>,
) -> anyhow::Result<JoinHandle<SourceEnd>> {
    let thread = thread::spawn(&rt, move || {
        for line in lines {
            sender.send(&rt, line)?;
        }
        Ok(())
    })?;
    Ok(thread)
}

/// Starts three sources, each with its own lines.
fn start_sources<R>(rt: R, sender: &Sender<LogLine>) -> anyhow::Result<Vec<JoinHandle<SourceEnd>>>
where
    R: Threads + Wait + AllocGlobal + Copy + Send + 'static,
{
    let script = [
        (1, Level::Info, "started"),
        (1, Level::Warning, "disk almost full"),
        (2, Level::Error, "disk full"),
        (2, Level::Info, "tried again"),
        (3, Level::Warning, "network is slow!"),
        (3, Level::Info, "stopped"),
    ];
    let mut sources = Vec::new(rt.alloc());
    for number in 1..=3 {
        let mut lines = Vec::new(rt.alloc());
        for (source, level, text) in script {
            if source == number {
                lines.push(LogLine::new(rt.alloc(), level, source, text)?)?;
            }
        }
        sources.push(start_source(rt, sender.clone(&rt)?, lines)?)?;
    }
    Ok(sources)
}

/// Starts the aggregator, which keeps its receiver until nobody has the other end of `leave`.
fn start_aggregator<R: Threads + Wait + Copy + Send + 'static>(
    rt: R,
    receiver: Receiver<LogLine>,
    leave: Receiver<()>,
) -> anyhow::Result<JoinHandle<Result<Summary, LogError>>> {
    let thread = thread::spawn(&rt, move || {
        let mut summary = Summary::default();
        receiver.try_for_each(&rt, |line| summary.add(line))??;
        let _left = leave.recv(&rt);
        Ok(summary)
    })?;
    Ok(thread)
}

/// Runs three sources to the seal, and sends two late lines.
fn run_to_seal<R>(rt: R) -> anyhow::Result<()>
where
    R: Threads + Wait + AllocGlobal + Print + Copy + Send + 'static,
{
    let alloc = rt.alloc();
    let (sender, receiver) = kanal::bounded(alloc, 2)?;
    let (stay, leave) = kanal::bounded(alloc, 1)?;
    let aggregator = start_aggregator(rt, receiver, leave)?;
    let mut sent = Ok(());
    for source in start_sources(rt, &sender)? {
        sent = sent.and(source.join(&rt));
    }
    let sealed = sender.seal(&rt);
    let early = sender.send(&rt, LogLine::new(alloc, Level::Info, 4, "late")?);
    drop(stay);
    let summary = aggregator.join(&rt)?;
    sent?;
    sealed?;
    let (infos, warnings, errors) = (summary.infos, summary.warnings, summary.errors);
    println!(rt; "{infos} info, {warnings} warning, {errors} error")?;
    println!(rt; "{} bytes, longest: {:?}", summary.length, summary.longest)?;
    println!(rt; "late, the aggregator is there: {early:?}")?;
    let late = sender.send(&rt, LogLine::new(alloc, Level::Info, 4, "later")?);
    println!(rt; "late, the aggregator has gone: {late:?}")?;
    Ok(())
}

/// Runs one source whose second text is empty, and which sends on.
fn run_to_error<R>(rt: R) -> anyhow::Result<()>
where
    R: Threads + Wait + AllocGlobal + Print + Copy + Send + 'static,
{
    let (sender, receiver) = kanal::bounded(rt.alloc(), 1)?;
    let (stay, leave) = kanal::bounded(rt.alloc(), 1)?;
    drop(stay);
    let mut lines = Vec::new(rt.alloc());
    for text in ["good", "", "kept in the buffer", "refused"] {
        lines.push(LogLine::new(rt.alloc(), Level::Info, 5, text)?)?;
    }
    let aggregator = start_aggregator(rt, receiver, leave)?;
    let source = start_source(rt, sender, lines)?;
    match aggregator.join(&rt) {
        Ok(summary) => println!(rt; "no error: {summary:?}")?,
        Err(error) => println!(rt; "the aggregator stopped: {error}")?,
    }
    println!(rt; "the source that sends on: {:?}", source.join(&rt))?;
    Ok(())
}

/// Makes both runs.
pub fn show<R>(rt: R) -> anyhow::Result<()>
where
    R: Threads + Wait + AllocGlobal + Print + Copy + Send + 'static,
{
    run_to_seal(rt)?;
    run_to_error(rt)
}
