//! Calls that serve or end a wait of the other side, each seen by the task that waits.
use crate::tests::given::{channel, equal, handles, holds, new_task, tell_late};
use futures::task::Poll;
use kanal::{AsyncReceiver, AsyncSender};
use kanal_channel::Shared;
use kanal_core::error::{ReceiveError, SendError};
use kanal_events::event::{Event, Reply};
use kanal_futures::{receive_future, send_future};
use kanal_state::NoHistory;
use std::alloc::AllocGlobal;
use std::process::Abort;
use std::sync::Wait;

#[test]
fn realtime_forms_serve_who_waits(rt: HostRuntime) {
    let shared = channel::<u64>(&rt, 0);
    let task = new_task(&rt);
    let mut receiving = receive_future(&shared);
    equal(&rt, task.poll(&mut receiving), Poll::Pending);
    holds(&rt, shared.try_send_realtime(&mut (), 7) == Ok(true));
    holds(&rt, task.is_woken());
    equal(&rt, task.poll(&mut receiving), Poll::Ready(Ok(7)));
    let mut sending = send_future(&shared, 8);
    equal(&rt, task.poll(&mut sending), Poll::Pending);
    equal(&rt, shared.try_recv_realtime(&mut ()), Ok(Some(8)));
    holds(&rt, task.is_woken());
    equal(&rt, task.poll(&mut sending), Poll::Ready(Ok(())));
}

/// What is found of a receiver whose sender was dropped under the lock, which was released without a look.
fn left_alone<R: Wait + Abort + AllocGlobal, A, F: FnOnce(&AsyncReceiver<u64>) -> A>(
    rt: &R,
    find: F,
) -> A
    requires find { F.IsAlwaysCallable find }
{
    let (sender, receiver) = handles::<u64>(rt, 1);
    let locked = receiver.channel().lock(rt);
    drop(sender);
    let (_released, due) = locked.unlock();
    let found = find(&receiver);
    receiver.channel().drain_notices(due);
    found
}

#[test]
fn calls_apply_the_notices_that_they_find(rt: HostRuntime) {
    let ended = left_alone(&rt, |receiver| receiver.channel().try_recv(&rt, &mut ()));
    equal(&rt, ended, Err(ReceiveError::SendClosed));
    let ended = left_alone(
        &rt,
        |receiver| receiver.channel().try_recv_realtime(&mut ()),
    );
    equal(&rt, ended, Err(ReceiveError::SendClosed));
    let ended = left_alone(
        &rt,
        |receiver| receiver.channel().try_send_realtime(&mut (), 7),
    );
    equal(&rt, ended, Err(SendError::Sealed));
}

#[test]
fn polls_apply_the_notices_that_they_find(rt: HostRuntime) {
    let task = new_task(&rt);
    let ended = left_alone(
        &rt,
        |receiver| task.poll(&mut receive_future(receiver.channel())),
    );
    equal(&rt, ended, Poll::Ready(Err(ReceiveError::SendClosed)));
    let task = new_task(&rt);
    let ended = left_alone(
        &rt,
        |receiver| task.poll(&mut send_future(receiver.channel(), 7)),
    );
    equal(&rt, ended, Poll::Ready(Err(SendError::Sealed)));
}

/// Three futures wait; two are dropped under the lock, and the third still waits after it, alone.
#[test]
fn who_did_not_leave_waits_on(rt: HostRuntime) {
    let shared = channel::<u64>(&rt, 0);
    let task = new_task(&rt);
    let (mut first, mut second) = (receive_future(&shared), receive_future(&shared));
    let mut third = receive_future(&shared);
    equal(&rt, task.poll(&mut first), Poll::Pending);
    equal(&rt, task.poll(&mut second), Poll::Pending);
    equal(&rt, task.poll(&mut third), Poll::Pending);
    let locked = shared.lock(&rt);
    drop(first);
    drop(second);
    locked.unlock_and_drain();
    holds(&rt, shared.try_send(&rt, &mut (), 7) == Ok(true));
    equal(&rt, task.poll(&mut third), Poll::Ready(Ok(7)));
}

/// The message of a send that waits is taken, and the send is settled only after its next poll.
#[test]
fn a_poll_whose_entry_is_gone_asks_for_another(rt: HostRuntime) {
    let shared = channel::<u64>(&rt, 0);
    let (first, second) = (new_task(&rt), new_task(&rt));
    let mut sending = send_future(&shared, 7);
    equal(&rt, first.poll(&mut sending), Poll::Pending);
    let got = tell_late(
        &rt,
        &shared,
        Event::Recv,
        || {},
        || {
            equal(&rt, second.poll(&mut sending), Poll::Pending);
            holds(&rt, second.is_woken());
        },
    );
    holds(&rt, matches!(got, Some(Reply::Got(7))));
    equal(&rt, second.poll(&mut sending), Poll::Ready(Ok(())));
}

/// Sends 7 under the lock, beside a drop of the sender that leaves a notice.
fn serve_beside_a_notice<R: Abort>(
    rt: &R,
    shared: &Shared<u64, NoHistory>,
    sender: AsyncSender<u64>,
) {
    let Some((mut locked, left)) = shared.try_lock() else {
        return equal(rt, "the lock is held", "the lock is free");
    };
    let mut pass = ();
    let made = locked
        .state
        .call(shared.log(), &mut pass, Event::TrySend(7));
    drop(sender);
    let reply = shared.unlock_tried(locked, left, &mut pass, made);
    holds(rt, matches!(reply, Reply::Yes));
}

/// The step under the lock owes one receive its message, and a notice ends the other: the way out tells
/// both, and nobody makes a further call.
#[test]
fn a_way_out_that_owes_applies_a_notice(rt: HostRuntime) {
    let (sender, receiver) = handles::<u64>(&rt, 0);
    let shared = receiver.channel();
    let (first, second) = (new_task(&rt), new_task(&rt));
    let (mut given, mut ended) = (receive_future(shared), receive_future(shared));
    equal(&rt, first.poll(&mut given), Poll::Pending);
    equal(&rt, second.poll(&mut ended), Poll::Pending);
    serve_beside_a_notice(&rt, shared, sender);
    holds(&rt, first.is_woken() && second.is_woken());
    equal(&rt, first.poll(&mut given), Poll::Ready(Ok(7)));
    let ended = second.poll(&mut ended);
    equal(&rt, ended, Poll::Ready(Err(ReceiveError::SendClosed)));
}
