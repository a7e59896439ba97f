//! What the tests of a channel with one history share: a new log, and the first handles of a channel on it.
ghost use Rattle.std.specs.Prelude.{◌≡◌};
ghost use Rattle.kanal_log.specs.Logs.{table_of};

use kanal::{AsyncReceiver, AsyncSender};
use kanal_core::error::NewError;
use kanal_core::internal::ChannelInternal;
use kanal_one_history::{Call, GhostHistory, GhostPass, LogId, NewLog};
use std::alloc::Global;
use std::process::Abort;

/// A log on which nothing is written. It ends the test where there is no memory.
pub fn new_log(rt: &impl Abort, alloc: Global) -> NewLog<Call<u64>> {
    let opened = NewLog::new(alloc);
    assert!(rt; opened.is_ok());
    let Ok(opened) = opened else { unreachable!() };
    opened
}

/// The first handles of a channel under a name, and a pass.
pub type HistoryHandles<J> = (
    AsyncSender<u64, GhostHistory<u64, J>>,
    AsyncReceiver<u64, GhostHistory<u64, J>>,
    GhostPass<u64, J>,
);

/// The first handles of a new channel with so many places, or without limit, and a pass.
pub fn new_handles<J: LogId>(
    alloc: Global,
    capacity: Option<usize>,
    opened: NewLog<Call<u64>>,
) -> Result<HistoryHandles<J>, NewError>
    requires name { table_of opened ≡ J.table }
    requires capacity { J.capacity ≡ capacity }
{
    let core = match capacity {
        Some(places) => ChannelInternal::new(alloc, places)?,
        None => ChannelInternal::unbounded(alloc),
    };
    let (log, mut history, pass) = GhostHistory::opened(opened);
    let internal_pass = history.internal_pass(&log);
    let (sender, receiver) = kanal::over(alloc, core, history, internal_pass, log)?;
    Ok((sender, receiver, pass))
}
