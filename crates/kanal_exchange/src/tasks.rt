//! The exchange between a thread and a task.
//!
//! The thread is a new one, and the task is run in this one, which waits for each of its futures.
ghost use Rattle.std.specs.Prelude.{◌≡◌, [], IfOk, length};
ghost use Rattle.kanal_log.specs.Logs.{table_of};
ghost use Rattle.kanal_log.specs.Shares.{half, whole};
ghost use Rattle.kanal_log.specs.Views.{known};
ghost use Rattle.kanal_exchange.specs.Tales.{HasExchanged, rejoined};

use crate::endpoint::InTask;
use crate::error::{Answer, ExchangeError};
use crate::exchange::{between, channel_of, overseen, receiving, send_all, started_with};
use kanal_one_history::{Call, Channel, GhostPass, LogId, NewLog};
use std::alloc::{AllocGlobal, Global};
use std::random::RandomSource;
use std::sync::Wait;
use std::thread::Threads;

fn from_task<T, J, R>(
    rt: &R,
    alloc: Global,
    channel: &Channel<T, J>,
    pass: GhostPass<T, J>,
    messages: Vec<T>,
) -> Result<Vec<T>, ExchangeError>
where
    T: Drop + Send,
    J: LogId + Send + Sync,
    R: Threads + Wait + RandomSource + AllocGlobal + Sync,
    requires first { pass ≡ known [] [] whole }
    ensures exchanged { IfOk result (λ got. got.items ≡ messages.items) }
{
    let mut sends = pass;
    let receives = sends.again(channel.log());
    let count = messages.len();
    let ((got, receiver), sender) = receiving(
        rt,
        alloc,
        channel,
        receives,
        count,
        move |started: Answer<()>| -> Answer<GhostPass<T, J>>
            requires { (sends.own ≡ []) × (sends.share ≡ half whole) }
            ensures { IfOk result (λ p. HasExchanged messages.items [] p
                × (p.share ≡ rejoined (half whole))) }
        {
            let sends = started_with(rt, channel, sends, started)?;
            send_all::<T, J, R, InTask>(rt, channel, sends, messages)
        },
    )?;
    overseen(channel, sender, receiver);
    Ok(got)
}

/// Sends the messages by a thread and receives them in a task, on a channel of its own, of this capacity or
/// without limit. What came out is what went in, in order.
///
/// It waits until both have ended. The caller picks the channel's name as for `exchanged`.
/// Example: `exchanged_to_task::<_, Brand, _>(&rt, alloc, Some(4), opened, messages)` answers `Ok` of the same list.
///
/// # Errors
/// As `exchanged`, with `NoThread` where the thread could not be started, and `Task` where the executor refused a
/// future. All messages are dropped then, once each, those that came, too.
pub fn exchanged_to_task<T, J, R>(
    rt: &R,
    alloc: Global,
    capacity: Option<usize>,
    opened: NewLog<Call<T>>,
    messages: Vec<T>,
) -> Result<Vec<T>, ExchangeError>
where
    T: Drop + Send,
    J: LogId + Send + Sync,
    R: Threads + Wait + RandomSource + AllocGlobal + Sync,
    requires name { table_of opened ≡ J.table }
    requires capacity { J.capacity ≡ capacity }
    ensures exchanged { IfOk result (λ got. got.items ≡ messages.items) }
{
    let (channel, pass) = channel_of::<T, J>(alloc, capacity, opened)?;
    between::<T, J, R, InTask>(rt, alloc, &channel, pass, messages)
}

/// Sends the messages in a task and receives them by a thread, on a channel of its own, of this capacity or
/// without limit. What came out is what went in, in order.
///
/// It waits until both have ended. The caller picks the channel's name as for `exchanged`.
/// Example: `exchanged_from_task::<_, Brand, _>(&rt, alloc, Some(4), opened, messages)` answers `Ok` of the same
/// list.
///
/// # Errors
/// As `exchanged`, with `NoThread` where the thread could not be started, and `Task` where the executor refused a
/// future. All messages are dropped then, once each, those that came, too.
pub fn exchanged_from_task<T, J, R>(
    rt: &R,
    alloc: Global,
    capacity: Option<usize>,
    opened: NewLog<Call<T>>,
    messages: Vec<T>,
) -> Result<Vec<T>, ExchangeError>
where
    T: Drop + Send,
    J: LogId + Send + Sync,
    R: Threads + Wait + RandomSource + AllocGlobal + Sync,
    requires name { table_of opened ≡ J.table }
    requires capacity { J.capacity ≡ capacity }
    ensures exchanged { IfOk result (λ got. got.items ≡ messages.items) }
{
    let (channel, pass) = channel_of::<T, J>(alloc, capacity, opened)?;
    from_task(rt, alloc, &channel, pass, messages)
}
