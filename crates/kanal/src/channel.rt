//! How a channel is made.
ghost use Rattle.std.specs.Prelude.{◌≡◌, ◌↔◌, IsErrOf};
ghost use Rattle.kanal_channel.specs.Locks.{HasOneOfEach};
ghost use Rattle.kanal_core.specs.Channel.{line_of};
ghost use Rattle.kanal_core.specs.Line.{last_word};

use crate::async_receiver::AsyncReceiver;
use crate::async_sender::AsyncSender;
use crate::receiver::Receiver;
use crate::sender::Sender;
use kanal_channel::Shared;
use kanal_core::error::NewError;
use kanal_core::internal::ChannelInternal;
use kanal_state::{Core, History, NoHistory};
use std::alloc::Global;
use std::sync::Arc;

fn handles<T: Drop>(
    alloc: Global,
    core: Core<T, NoHistory>,
) -> Result<(AsyncSender<T>, AsyncReceiver<T>), NewError>
    requires one_each { HasOneOfEach (line_of core) }
    ensures { IsErrOf result NewError.TooLarge → ⊥ }
{
    over(alloc, core, NoHistory, (), ())
}

/// The two first handles over this core, which counts one sender and one receiver, and over what is kept of the calls
/// that led to its line, with what makes the internal calls. It is for channels with a history: `bounded` and its likes have none.
///
/// # Errors
/// `NoMemory` where there is no memory for the channel.
///
/// # Examples
/// ```text
/// let (sender, receiver) = over(alloc, core, history, internal_pass, log)?;
/// ```
pub fn over<T: Drop, H: History<T>>(
    alloc: Global,
    core: Core<T, H>,
    history: H,
    internal_pass: H::InternalPass,
    log: H::Log,
) -> Result<(AsyncSender<T, H>, AsyncReceiver<T, H>), NewError>
    requires core { H.stands history (line_of core) }
    requires one_each { HasOneOfEach (line_of core) }
    ensures large { IsErrOf result NewError.TooLarge → ⊥ }
{
    let (shared, first) = Shared::with_handles(core, history, internal_pass, log, alloc)?;
    let Ok(other) = Arc::try_clone(&shared) else {
        return Err(NewError::NoMemory);
    };
    let (sender, receiver) = first.into_tokens();
    let sender = AsyncSender::new(shared, sender);
    Ok((sender, AsyncReceiver::new(other, receiver)))
}

/// Makes a channel whose buffer holds so many messages; at 0 each send waits for its receive.
///
/// All memory of the buffer is asked for here. It never waits.
///
/// # Errors
/// `TooLarge` exactly for `usize::MAX`, and `NoMemory` where there is no memory for the channel.
///
/// # Examples
/// ```text
/// let (sender, receiver) = kanal::bounded::<u64>(rt.alloc(), 1)?;
/// sender.send(&rt, 7)   answers  Ok(())
/// receiver.recv(&rt)    answers  Ok(7)
/// ```
pub fn bounded<T: Drop>(alloc: Global, size: usize) -> Result<(Sender<T>, Receiver<T>), NewError>
    ensures large { IsErrOf result NewError.TooLarge ↔ (size ≡ last_word) }
{
    let (sender, receiver) = bounded_async(alloc, size)?;
    Ok((sender.to_sync(), receiver.to_sync()))
}

/// Makes a channel without limit, whose buffer grows as messages are sent. It never waits.
///
/// # Errors
/// `NoMemory` where there is no memory for the channel.
///
/// # Examples
/// ```text
/// let (sender, receiver) = kanal::unbounded::<u64>(rt.alloc())?;
/// sender.send(&rt, 7)   answers  Ok(())
/// receiver.recv(&rt)    answers  Ok(7)
/// ```
pub fn unbounded<T: Drop>(alloc: Global) -> Result<(Sender<T>, Receiver<T>), NewError>
    ensures large { IsErrOf result NewError.TooLarge → ⊥ }
{
    let (sender, receiver) = unbounded_async(alloc)?;
    Ok((sender.to_sync(), receiver.to_sync()))
}

/// Makes a channel as `bounded`, with its first handles for tasks. It never waits.
///
/// # Errors
/// `TooLarge` exactly for `usize::MAX`, and `NoMemory` where there is no memory for the channel.
///
/// # Examples
/// ```text
/// let (sender, receiver) = kanal::bounded_async::<u64>(rt.alloc(), 1)?;
/// block_on(&rt, sender.send(7))     gives  Ok(())
/// block_on(&rt, receiver.recv())    gives  Ok(7)
/// ```
pub fn bounded_async<T: Drop>(
    alloc: Global,
    size: usize,
) -> Result<(AsyncSender<T>, AsyncReceiver<T>), NewError>
    ensures large { IsErrOf result NewError.TooLarge ↔ (size ≡ last_word) }
{
    handles(alloc, ChannelInternal::new(alloc, size)?)
}

/// Makes a channel as `unbounded`, with its first handles for tasks. It never waits.
///
/// # Errors
/// `NoMemory` where there is no memory for the channel.
///
/// # Examples
/// ```text
/// let (sender, receiver) = kanal::unbounded_async::<u64>(rt.alloc())?;
/// block_on(&rt, sender.send(7))     gives  Ok(())
/// block_on(&rt, receiver.recv())    gives  Ok(7)
/// ```
pub fn unbounded_async<T: Drop>(
    alloc: Global,
) -> Result<(AsyncSender<T>, AsyncReceiver<T>), NewError>
    ensures large { IsErrOf result NewError.TooLarge → ⊥ }
{
    handles(alloc, ChannelInternal::unbounded(alloc))
}
