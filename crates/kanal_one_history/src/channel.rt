//! Making a channel whose calls are in one history.
//!
//! Such a channel is the shared one: its calls are those of `kanal_channel`, each of which takes a pass.
ghost use Rattle.std.specs.Prelude.{◌≡◌, ◌↔◌, [], IfOk, IsErrOf, None, Some};
ghost use Rattle.kanal_log.specs.Logs.{table_of};
ghost use Rattle.kanal_log.specs.Shares.{whole};
ghost use Rattle.kanal_log.specs.Views.{known};
ghost use Rattle.kanal_core.specs.Line.{last_word};

use crate::history::GhostHistory;
use crate::pass::GhostPass;
use kanal_channel::Shared;
use kanal_core::error::NewError;
use kanal_core::internal::ChannelInternal;
use kanal_log::{LogId, NewLog};
use kanal_state::Call;
use std::alloc::Global;

/// A channel under a name, which threads share by a reference.
pub type Channel<T, J> = Shared<T, GhostHistory<T, J>>;

/// A new bounded channel for so many messages, with one sender and one receiver, and its first pass.
///
/// The caller knows that the name is the log's, and that the name's capacity is this one.
///
/// # Errors
/// `TooLarge` exactly for `usize::MAX`, and `NoMemory` where there is no memory for the buffer.
///
/// # Examples
/// ```text
/// let (channel, mut pass) = bounded::<u64, J>(alloc, 2, opened)?;
/// channel.send(&rt, &mut pass, 7)   answers  Ok(())
/// ```
pub fn bounded<T: Drop, J: LogId>(
    alloc: Global,
    capacity: usize,
    opened: NewLog<Call<T>>,
) -> Result<(Channel<T, J>, GhostPass<T, J>), NewError>
    requires name { table_of opened ≡ J.table }
    requires capacity { J.capacity ≡ Some capacity }
    ensures fresh { IfOk result (λ r. r.1 ≡ known [] [] whole) }
    ensures large { IsErrOf result NewError.TooLarge ↔ (capacity ≡ last_word) }
{
    let core = ChannelInternal::new(alloc, capacity)?;
    let (log, mut history, pass) = GhostHistory::opened(opened);
    let internal_pass = history.internal_pass(&log);
    Ok((Shared::new(core, history, internal_pass, log, alloc), pass))
}

/// A new channel without limit, with one sender and one receiver, and its first pass. It asks for no memory.
///
/// The caller knows that the name is the log's, and that the name has no capacity.
///
/// # Examples
/// ```text
/// let (channel, mut pass) = unbounded::<u64, J>(alloc, opened);
/// channel.send(&rt, &mut pass, 7)   answers  Ok(()), or Err(NoMemory)
/// ```
pub fn unbounded<T: Drop, J: LogId>(
    alloc: Global,
    opened: NewLog<Call<T>>,
) -> (Channel<T, J>, GhostPass<T, J>)
    requires name { table_of opened ≡ J.table }
    requires capacity { J.capacity ≡ None }
    ensures fresh { result.1 ≡ known [] [] whole }
{
    let core = ChannelInternal::unbounded(alloc);
    let (log, mut history, pass) = GhostHistory::opened(opened);
    let internal_pass = history.internal_pass(&log);
    (Shared::new(core, history, internal_pass, log, alloc), pass)
}
