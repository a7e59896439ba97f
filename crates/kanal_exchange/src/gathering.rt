//! Gathering: two threads send, another receives from both.
//!
//! When the three threads have ended, their passes have all of the right to make calls between them. So what was
//! received is a merge of what the two sent.
ghost use Rattle.std.specs.Prelude.{◌≡◌, ◌+◌, List, [], IfOk, length};
ghost use Rattle.kanal_log.specs.Logs.{table_of};
ghost use Rattle.kanal_log.specs.Shares.{IsWhole, both, half, whole};
ghost use Rattle.kanal_log.specs.Views.{known};
ghost use Rattle.kanal_exchange.specs.Merges.{IsMerge};
ghost use Rattle.kanal_exchange.specs.Tales.{HasExchanged, rejoined};

use crate::endpoint::InThread;
use crate::error::{Answer, ExchangeError};
use crate::exchange::{channel_of, receive_all, sending, started_with};
use kanal_one_history::{Call, Channel, GhostPass, LogId, NewLog};
use std::alloc::Global;
use std::sync::Wait;
use std::thread::Threads;

/// Says of three threads that have ended, and whose passes have all of the right to make calls between them:
/// what the one received, if it is as much as the others sent, is a merge of what they sent. It makes no call.
fn overseen<T: Drop, J: LogId>(
    channel: &Channel<T, J>,
    one: GhostPass<T, J>,
    two: GhostPass<T, J>,
    receiver: GhostPass<T, J>,
)
    requires all { IsWhole (both receiver.share (both two.share one.share)) }
    ensures merged { (first second got : List T) → HasExchanged first [] one → HasExchanged second [] two
        → HasExchanged [] got receiver → length got ≡ length first + length second
        → IsMerge got first second }
{
    let log = channel.log();
    let mut all = one;
    let mut two = two;
    let mut other = receiver;
    all.owns_once(log, &mut two);
    all.owns_once(log, &mut other);
    two.owns_once(log, &mut other);
    all.learn(log, two);
    all.learn(log, other);
    all.holds();
    all.owns_all(log);
}

fn send_and_receive<T: Drop + Send, J: LogId + Send + Sync, R: Threads + Wait + Sync>(
    rt: &R,
    alloc: Global,
    channel: &Channel<T, J>,
    sends: GhostPass<T, J>,
    messages: Vec<T>,
    receives: GhostPass<T, J>,
    count: usize,
) -> Result<(GhostPass<T, J>, (Vec<T>, GhostPass<T, J>)), ExchangeError>
    requires fresh { (sends.own ≡ []) × (receives.own ≡ []) }
    ensures sent { IfOk result (λ r. HasExchanged messages.items [] r.0) }
    ensures received { IfOk result (λ r. HasExchanged [] r.1.0.items r.1.1) }
    ensures count { IfOk result (λ r. length r.1.0.items ≡ count) }
    ensures shares { IfOk result (λ r. (r.0.share ≡ rejoined sends.share)
        × (r.1.1.share ≡ rejoined receives.share)) }
{
    sending(
        rt,
        channel,
        sends,
        messages,
        move |started: Answer<()>| -> Answer<(Vec<T>, GhostPass<T, J>)>
            requires { receives.own ≡ [] }
            ensures { IfOk result (λ r. HasExchanged [] r.0.items r.1 × (r.1.share ≡ rejoined receives.share)
                × (length r.0.items ≡ count)) }
        {
            let receives = started_with(rt, channel, receives, started)?;
            receive_all::<T, J, R, InThread>(rt, alloc, channel, receives, count)
        },
    )
}

fn gathered_on<T: Drop + Send, J: LogId + Send + Sync, R: Threads + Wait + Sync>(
    rt: &R,
    alloc: Global,
    channel: &Channel<T, J>,
    pass: GhostPass<T, J>,
    first: Vec<T>,
    second: Vec<T>,
) -> Result<Vec<T>, ExchangeError>
    requires first { pass ≡ known [] [] whole }
    ensures gathered { IfOk result (λ got. IsMerge got.items first.items second.items) }
{
    let Some(count) = first.len().checked_add(second.len()) else {
        return Err(ExchangeError::NoMemory);
    };
    let mut one = pass;
    let mut two = one.again(channel.log());
    let other = two.again(channel.log());
    let (one, (two, (got, receiver))) = sending(
        rt,
        channel,
        one,
        first,
        move |started: Answer<()>| -> Answer<(GhostPass<T, J>, (Vec<T>, GhostPass<T, J>))>
            requires { (two.share ≡ half (half whole)) × (two.own ≡ [])
                × (other.share ≡ half (half whole)) × (other.own ≡ []) }
            ensures { IfOk result (λ r. HasExchanged second.items [] r.0 × (r.0.share ≡ rejoined (half (half whole)))
                × HasExchanged [] r.1.0.items r.1.1 × (r.1.1.share ≡ rejoined (half (half whole)))
                × (length r.1.0.items ≡ count)) }
        {
            let other = started_with(rt, channel, other, started)?;
            send_and_receive(rt, alloc, channel, two, second, other, count)
        },
    )?;
    overseen(channel, one, two, receiver);
    Ok(got)
}

/// Sends the messages of both lists, each by a thread, and receives all by a third, on a channel of its own, of
/// this capacity or without limit. What came out is a merge of the two lists: all elements of both and no
/// others, those of each list in their order.
///
/// It waits until the three threads have ended. The caller picks the channel's name `J`, in proofs alone, as the page
/// of `kanal_one_history` on calling shows: it is that of `opened`, and its capacity is this one.
/// Example: `gathered::<_, Brand, _>(&rt, alloc, None, NewLog::new(alloc)?, evens, odds)` answers `Ok` of a merge of
/// the two.
///
/// # Errors
/// `New` where the channel could not be made, `NoThread` where a thread could not be started, `Send` where a
/// send was refused, `Receive` where a receive was refused, and `NoMemory` where there was no memory for the
/// list that is answered, or both lists together are longer than a list can be. All messages are dropped
/// then, once each, those that came, too.
pub fn gathered<T: Drop + Send, J: LogId + Send + Sync, R: Threads + Wait + Sync>(
    rt: &R,
    alloc: Global,
    capacity: Option<usize>,
    opened: NewLog<Call<T>>,
    first: Vec<T>,
    second: Vec<T>,
) -> Result<Vec<T>, ExchangeError>
    requires name { table_of opened ≡ J.table }
    requires capacity { J.capacity ≡ capacity }
    ensures gathered { IfOk result (λ got. IsMerge got.items first.items second.items) }
{
    let (channel, pass) = channel_of::<T, J>(alloc, capacity, opened)?;
    gathered_on(rt, alloc, &channel, pass, first, second)
}
