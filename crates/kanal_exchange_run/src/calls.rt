//! Each exchange of a list, on channels of its own that all have one capacity.
//!
//! The name of each channel is picked here, in proofs alone.
use kanal_exchange::{
    Call, ExchangeError, NewLog, Stage, exchanged, exchanged_from_task, exchanged_to_task,
    gathered, mapped, mapped_by_two,
};
use std::alloc::{AllocGlobal, Global};
use std::marker::Brand;
use std::random::RandomSource;
use std::sync::Wait;
use std::thread::Threads;

/// The history of a channel that is to be made.
fn opened<T: Drop>(alloc: Global) -> Result<NewLog<Call<T>>, ExchangeError> {
    NewLog::new(alloc).map_err(|_refused| ExchangeError::NoMemory)
}

/// The messages, sent by one thread and received by another.
pub fn exchange<T, R>(
    rt: &R,
    alloc: Global,
    capacity: Option<usize>,
    messages: Vec<T>,
) -> Result<Vec<T>, ExchangeError>
where
    T: Drop + Send,
    R: Threads + Wait + Sync,
{
    exchanged::<T, Brand, _>(rt, alloc, capacity, opened(alloc)?, messages)
}

/// The messages, sent by a thread and received in a task.
pub fn exchange_to_task<T, R>(
    rt: &R,
    alloc: Global,
    capacity: Option<usize>,
    messages: Vec<T>,
) -> Result<Vec<T>, ExchangeError>
where
    T: Drop + Send,
    R: Threads + Wait + RandomSource + AllocGlobal + Sync,
{
    exchanged_to_task::<T, Brand, _>(rt, alloc, capacity, opened(alloc)?, messages)
}

/// The messages, sent in a task and received by a thread.
pub fn exchange_from_task<T, R>(
    rt: &R,
    alloc: Global,
    capacity: Option<usize>,
    messages: Vec<T>,
) -> Result<Vec<T>, ExchangeError>
where
    T: Drop + Send,
    R: Threads + Wait + RandomSource + AllocGlobal + Sync,
{
    exchanged_from_task::<T, Brand, _>(rt, alloc, capacity, opened(alloc)?, messages)
}

/// The messages of two senders, received by one thread.
pub fn gather<T, R>(
    rt: &R,
    alloc: Global,
    capacity: Option<usize>,
    first: Vec<T>,
    second: Vec<T>,
) -> Result<Vec<T>, ExchangeError>
where
    T: Drop + Send,
    R: Threads + Wait + Sync,
{
    gathered::<T, Brand, _>(rt, alloc, capacity, opened(alloc)?, first, second)
}

/// What the stage makes of the messages.
pub fn map_by<S, R>(
    rt: &R,
    alloc: Global,
    stage: &S,
    capacity: Option<usize>,
    messages: Vec<S::Input>,
) -> Result<Vec<S::Output>, ExchangeError>
where
    S: Stage + Sync,
    R: Threads + Wait + Sync,
{
    let (before, behind) = (opened(alloc)?, opened(alloc)?);
    mapped::<S, Brand, Brand, _>(
        rt, alloc, stage, capacity, before, capacity, behind, messages,
    )
}

/// What the second stage makes of what the first makes of the messages.
pub fn map_by_two<S, U, R>(
    rt: &R,
    alloc: Global,
    stage: &S,
    after: &U,
    capacity: Option<usize>,
    messages: Vec<S::Input>,
) -> Result<Vec<U::Output>, ExchangeError>
where
    S: Stage + Sync,
    U: Stage<Input = S::Output> + Sync,
    R: Threads + Wait + Sync,
{
    let (before, between, behind) = (opened(alloc)?, opened(alloc)?, opened(alloc)?);
    mapped_by_two::<S, U, Brand, Brand, Brand, _>(
        rt, alloc, stage, after, capacity, before, capacity, between, capacity, behind, messages,
    )
}
