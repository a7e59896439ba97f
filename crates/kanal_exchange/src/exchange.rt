//! The exchange: one thread sends, another receives.
//!
//! `send_all` and `receive_all` make a list's calls, in a thread or in a task. `overseen` is handed the passes of both
//! ends, and says that what was received is what was sent first. No other module sends or receives a list.
ghost use Rattle.std.specs.Prelude.{◌≡◌, List, [], Ok, IfOk, take, length};
ghost use Rattle.kanal_log.specs.Logs.{table_of};
ghost use Rattle.kanal_log.specs.Shares.{IsWhole, both, half, whole};
ghost use Rattle.kanal_log.specs.Views.{known};
ghost use Rattle.kanal_exchange.specs.Tales.{HasExchanged, rejoined};

use crate::endpoint::{Endpoint, InThread};
use crate::error::{Answer, ExchangeError};
use crate::threads::both;
use kanal_one_history::{Call, Channel, GhostPass, LogId, NewLog};
use std::alloc::Global;
use std::snapshot::Snapshot;
use std::sync::Wait;
use std::thread::{Promise, Threads};

/// Sends all messages, in order.
fn send_each<T: Drop, J: LogId, R: Wait, P: Endpoint<R>>(
    rt: &R,
    channel: &Channel<T, J>,
    mut pass: GhostPass<T, J>,
    messages: Vec<T>,
) -> Answer<GhostPass<T, J>>
    requires fresh { pass.own ≡ [] }
    ensures sent { IfOk result (λ p. HasExchanged messages.items [] p) }
    ensures share { IfOk result (λ p. p.share ≡ pass.share) }
{
    for message in messages {
        pass = P::send(rt, channel, pass, message)?;
    }
    Ok(pass)
}

/// Receives so many messages.
fn receive_each<T: Drop, J: LogId, R: Wait, P: Endpoint<R>>(
    rt: &R,
    alloc: Global,
    channel: &Channel<T, J>,
    mut pass: GhostPass<T, J>,
    count: usize,
) -> Answer<(Vec<T>, GhostPass<T, J>)>
    requires fresh { pass.own ≡ [] }
    ensures received { IfOk result (λ r. HasExchanged [] r.0.items r.1) }
    ensures share { IfOk result (λ r. r.1.share ≡ pass.share) }
    ensures count { IfOk result (λ r. length r.0.items ≡ count) }
{
    let mut got = Vec::new(alloc);
    for _number in 0..count {
        let (message, next) = P::receive(rt, channel, pass)?;
        pass = next;
        got.push(message)?;
    }
    Ok((got, pass))
}

/// Sends all messages, in order, and waits where there is no place.
///
/// # Errors
/// Where a send is refused: the channel is closed then, and what is left of the messages is dropped.
pub(crate) fn send_all<T: Drop, J: LogId, R: Wait, P: Endpoint<R>>(
    rt: &R,
    channel: &Channel<T, J>,
    pass: GhostPass<T, J>,
    messages: Vec<T>,
) -> Answer<GhostPass<T, J>>
    requires fresh { pass.own ≡ [] }
    ensures sent { IfOk result (λ p. HasExchanged messages.items [] p) }
    ensures share { IfOk result (λ p. p.share ≡ rejoined pass.share) }
{
    let mut pass = pass;
    let mut beside = pass.again(channel.log());
    match send_each::<T, J, R, P>(rt, channel, pass, messages) {
        Ok(sender) => {
            let mut sender = sender;
            sender.learn(channel.log(), beside);
            Ok(sender)
        },
        Err(refused) => {
            let _closed = channel.close(rt, &mut beside);
            Err(refused)
        },
    }
}

/// Receives so many messages, and waits where there is none.
///
/// # Errors
/// Where a receive is refused, or there is no memory for the list: the channel is closed then, and what came
/// is dropped.
pub(crate) fn receive_all<T: Drop, J: LogId, R: Wait, P: Endpoint<R>>(
    rt: &R,
    alloc: Global,
    channel: &Channel<T, J>,
    pass: GhostPass<T, J>,
    count: usize,
) -> Answer<(Vec<T>, GhostPass<T, J>)>
    requires fresh { pass.own ≡ [] }
    ensures received { IfOk result (λ r. HasExchanged [] r.0.items r.1) }
    ensures share { IfOk result (λ r. r.1.share ≡ rejoined pass.share) }
    ensures count { IfOk result (λ r. length r.0.items ≡ count) }
{
    let mut pass = pass;
    let mut beside = pass.again(channel.log());
    match receive_each::<T, J, R, P>(rt, alloc, channel, pass, count) {
        Ok((got, receiver)) => {
            let mut receiver = receiver;
            receiver.learn(channel.log(), beside);
            Ok((got, receiver))
        },
        Err(refused) => {
            let _closed = channel.close(rt, &mut beside);
            Err(refused)
        },
    }
}

/// Says of two threads that have ended, and whose passes have all of the right to make calls between them:
/// what the one received is what the other sent first. It makes no call.
pub(crate) fn overseen<T: Drop, J: LogId>(
    channel: &Channel<T, J>,
    sender: GhostPass<T, J>,
    receiver: GhostPass<T, J>,
)
    requires all { IsWhole (both receiver.share sender.share) }
    ensures in_order { (put got : List T) → HasExchanged put [] sender → HasExchanged [] got receiver
        → got ≡ take (length got) put }
{
    let log = channel.log();
    let mut all = sender;
    let mut other = receiver;
    all.owns_once(log, &mut other);
    all.learn(log, other);
    all.holds();
    all.owns_all(log);
}

/// That a thread sent these messages by this pass.
#[derive(Drop)]
struct SentCall<T, J: LogId> {
    messages: Snapshot<Vec<T>>,
    pass: Snapshot<GhostPass<T, J>>,
}

impl<T, J: LogId> Promise<Answer<GhostPass<T, J>>> for SentCall<T, J> {
    ghost kept_by = { λ p answer. IfOk answer (λ sender. HasExchanged p.messages.value.items [] sender
        × (sender.share ≡ rejoined p.pass.value.share)) };
}

/// That a thread received so many messages by this pass.
#[derive(Drop)]
struct ReceivedCall<T, J: LogId> {
    pass: Snapshot<GhostPass<T, J>>,
    count: usize,
}

impl<T, J: LogId> Promise<Answer<(Vec<T>, GhostPass<T, J>)>> for ReceivedCall<T, J> {
    ghost kept_by = { λ p answer. IfOk answer (λ r. HasExchanged [] r.0.items r.1
        × (r.1.share ≡ rejoined p.pass.value.share) × (length r.0.items ≡ p.count)) };
}

/// The pass, where the other thread was started. Where it was not the channel is closed, so that nobody waits
/// on it any longer.
pub(crate) fn started_with<T: Drop, J: LogId, R: Wait>(
    rt: &R,
    channel: &Channel<T, J>,
    mut rest: GhostPass<T, J>,
    started: Answer<()>,
) -> Answer<GhostPass<T, J>>
    ensures same { IfOk result (λ p. p ≡ rest) }
{
    if let Err(refused) = started {
        let _closed = channel.close(rt, &mut rest);
        return Err(refused);
    }
    Ok(rest)
}

/// Sends the messages in a new thread, and calls `g` in this one, which is told whether the thread was started.
pub(crate) fn sending<T, J, R, G, B>(
    rt: &R,
    channel: &Channel<T, J>,
    pass: GhostPass<T, J>,
    messages: Vec<T>,
    g: G,
) -> Answer<(GhostPass<T, J>, B)>
where
    T: Drop + Send,
    J: LogId + Send + Sync,
    R: Threads + Wait + Sync,
    G: FnOnce(Answer<()>) -> Answer<B>,
    B: Drop,
    requires fresh { pass.own ≡ [] }
    requires other { G.IsAlwaysCallable g }
    ensures sent { IfOk result (λ r. HasExchanged messages.items [] r.0 × (r.0.share ≡ rejoined pass.share)) }
    ensures other { IfOk result (λ r. G.post g (Ok tt) (Ok r.1)) }
{
    let promise = SentCall {
        messages: Snapshot::of(&messages),
        pass: Snapshot::of(&pass),
    };
    both(
        rt,
        promise,
        move || send_all::<T, J, R, InThread>(rt, channel, pass, messages),
        g,
    )
}

pub(crate) fn receiving<T, J, R, G, B>(
    rt: &R,
    alloc: Global,
    channel: &Channel<T, J>,
    pass: GhostPass<T, J>,
    count: usize,
    g: G,
) -> Answer<((Vec<T>, GhostPass<T, J>), B)>
where
    T: Drop + Send,
    J: LogId + Send + Sync,
    R: Threads + Wait + Sync,
    G: FnOnce(Answer<()>) -> Answer<B>,
    B: Drop,
    requires fresh { pass.own ≡ [] }
    requires other { G.IsAlwaysCallable g }
    ensures received { IfOk result (λ r. HasExchanged [] r.0.0.items r.0.1 × (r.0.1.share ≡ rejoined pass.share)
        × (length r.0.0.items ≡ count)) }
    ensures other { IfOk result (λ r. G.post g (Ok tt) (Ok r.1)) }
{
    let promise = ReceivedCall {
        pass: Snapshot::of(&pass),
        count,
    };
    both(
        rt,
        promise,
        move || receive_all::<T, J, R, InThread>(rt, alloc, channel, pass, count),
        g,
    )
}

/// Lets a thread send the messages and `P` receive them in this one, on a channel whose only pass this is.
pub(crate) fn between<T, J, R, P>(
    rt: &R,
    alloc: Global,
    channel: &Channel<T, J>,
    pass: GhostPass<T, J>,
    messages: Vec<T>,
) -> Answer<Vec<T>>
where
    T: Drop + Send,
    J: LogId + Send + Sync,
    R: Threads + Wait + Sync,
    P: Endpoint<R>,
    requires first { pass ≡ known [] [] whole }
    ensures exchanged { IfOk result (λ got. got.items ≡ messages.items) }
{
    let mut sends = pass;
    let receives = sends.again(channel.log());
    let count = messages.len();
    let (sender, (got, receiver)) = sending(
        rt,
        channel,
        sends,
        messages,
        move |started: Answer<()>| -> Answer<(Vec<T>, GhostPass<T, J>)>
            requires { (receives.own ≡ []) × (receives.share ≡ half whole) }
            ensures { IfOk result (λ r. HasExchanged [] r.0.items r.1
                × (r.1.share ≡ rejoined (half whole)) × (length r.0.items ≡ count)) }
        {
            let receives = started_with(rt, channel, receives, started)?;
            receive_all::<T, J, R, P>(rt, alloc, channel, receives, count)
        },
    )?;
    overseen(channel, sender, receiver);
    Ok(got)
}

pub(crate) fn channel_of<T: Drop, J: LogId>(
    alloc: Global,
    capacity: Option<usize>,
    opened: NewLog<Call<T>>,
) -> Result<(Channel<T, J>, GhostPass<T, J>), ExchangeError>
    requires name { table_of opened ≡ J.table }
    requires capacity { J.capacity ≡ capacity }
    ensures first { IfOk result (λ r. r.1 ≡ known [] [] whole) }
{
    match capacity {
        Some(capacity) => Ok(kanal_one_history::bounded(alloc, capacity, opened)?),
        None => Ok(kanal_one_history::unbounded(alloc, opened)),
    }
}

/// Sends the messages by one thread and receives them by another, on a channel of its own, of this capacity
/// or without limit. What came out is what went in, in order.
///
/// It waits until both threads have ended. The caller picks the channel's name `J`, in proofs alone, as the page of
/// `kanal_one_history` on calling shows: it is that of `opened`, and its capacity is this one.
/// Example: `exchanged::<_, Brand, _>(&rt, alloc, Some(4), NewLog::new(alloc)?, messages)` answers `Ok` of the same
/// list.
///
/// # Errors
/// `New` where the channel could not be made, `NoThread` where a thread could not be started, `Send` where a
/// send was refused, `Receive` where a receive was refused, and `NoMemory` where there was no memory for the
/// list that is answered. All messages are dropped then, once each, those that came, too.
pub fn exchanged<T: Drop + Send, J: LogId + Send + Sync, R: Threads + Wait + Sync>(
    rt: &R,
    alloc: Global,
    capacity: Option<usize>,
    opened: NewLog<Call<T>>,
    messages: Vec<T>,
) -> Result<Vec<T>, ExchangeError>
    requires name { table_of opened ≡ J.table }
    requires capacity { J.capacity ≡ capacity }
    ensures exchanged { IfOk result (λ got. got.items ≡ messages.items) }
{
    let (channel, pass) = channel_of::<T, J>(alloc, capacity, opened)?;
    between::<T, J, R, InThread>(rt, alloc, &channel, pass, messages)
}
