//! A task that sends what a stream gives, and drops its sender at the stream's end: as much in one poll as goes in.
//!
//! Each send is one of `kanal_futures`, by the pass that the send before it gave back.
ghost use Rattle.std.specs.Prelude.{◌≡◌, ◌∷◌, [], IfNone, IfSome, IsSomeAnd, MatchOption, None, false, is_some, true};
ghost use Rattle.futures.specs.Poll.{IfReady, OnPending};
ghost use Rattle.futures.specs.Runs.{Within};
ghost use Rattle.futures.specs.Task.{Covers, Keeps};
ghost use Rattle.kanal.specs.Sends.{AllGives, AllWaits, Behind, ComesFrom, SendsAllTo, SendsSoFar, SendsSome, StillGives, all_coming, all_stream, all_begun, all_ended, all_held, all_idle};
ghost use Rattle.kanal_futures.specs.Futures.{call_begun, call_source};

use crate::async_sender::AsyncSender;
use futures::task::{Context, Poll};
use futures::{Future, Stream};
use kanal_core::error::SendError;
use kanal_futures::{Sending, SuspendedSend};
use kanal_state::{History, NoHistory};
use std::collections::VecDeque;

// The turns of one poll, before other tasks get theirs. A turn sends what comes and goes in, or looks at a send that waits.
const IN_ONE_POLL: u32 = 32;

// The most items that are taken from the stream before they are sent, besides the first: all go in under one lock.
const AHEAD: usize = 31;

/// The items that came and were not sent yet, with how many places were free when the last were sent: no more come ahead.
#[derive(Drop)]
pub(crate) struct Ready<T> {
    pub(crate) queue: VecDeque<T>,
    pub(crate) places: usize,
}

/// What a task does next that sends a stream.
pub(crate) enum SendStage<T, H: History<T>> {
    /// It asks for an item, which is sent by this pass.
    Idle(H::Pass),
    /// It sends one.
    Busy(SuspendedSend<T, H>),
}

/// Sends what a stream gives, as `AsyncSender::send_all` answers it.
///
/// A poll never waits. It takes as many items from the stream as there were places for, up to 32, and sends them in one
/// taking of the lock, and so on. At the latest after 1,024 it asks for another poll, so that other tasks get their turn.
/// The stream is dropped once it has ended. With its answer the sender goes. After its answer it answers
/// `Err(SendError::Finished)`.
///
/// Its drop takes a message back that waits for a place. That and the stream are dropped, and the sender goes; so are
/// items that came for places which another sender took.
pub struct SendAll<S, T, H: History<T> = NoHistory> {
    pub(crate) held: Option<(AsyncSender<T, H>, SendStage<T, H>)>,
    pub(crate) stream: Option<S>,
    pub(crate) ready: Ready<T>,
    /// The pass that is left at the answer, so that each send shows in it.
    pub(crate) ended: Option<H::Pass>,
}

impl<S: Drop, T: Drop, H: History<T>> Drop for SendAll<S, T, H> {
    fn drop(self) {
        let SendAll {
            held,
            stream,
            ready,
            ended,
        } = self;
        drop(ready);
        drop(stream);
        drop(ended);
        if let Some((sender, stage)) = held {
            match stage {
                SendStage::Idle(pass) => drop(pass),
                SendStage::Busy(suspended) => drop(Sending::resume(sender.channel(), suspended)),
            }
            drop(sender);
        }
    }
}

/// The stream's next item, if one is there. A stream that has ended is dropped.
fn next_item<S: Stream<Item = T> + Drop, T: Drop>(
    stream: &mut Option<S>,
    cx: &mut Context<'_>,
) -> Option<T>
    requires pollable { IfSome stream.old S.can_poll }
    ensures came { IfSome result (ComesFrom (StillGives S.yields stream.old) (StillGives S.yields stream.new)) }
    ensures none { IfNone result (Within (StillGives S.yields stream.old) (StillGives S.yields stream.new)) }
    ensures again { IfSome stream.new S.can_poll }
    ensures registered { IfNone result (IfSome stream.new (λ x. Covers cx.new (S.needs x))) }
    ensures kept { Keeps cx.old cx.new }
{
    let source = stream.as_mut()?;
    match source.poll_next(cx) {
        Poll::Ready(Some(item)) => Some(item),
        Poll::Ready(None) => {
            *stream = None;
            None
        },
        Poll::Pending => None,
    }
}

/// Takes items from the stream: no more than there were places for. Without memory for them it takes none.
fn look_ahead<S: Stream<Item = T> + Drop, T: Drop>(
    stream: &mut Option<S>,
    ready: &mut Ready<T>,
    cx: &mut Context<'_>,
)
    requires pollable { IfSome stream.old S.can_poll }
    ensures same { Within (Behind ready.old.queue.items (StillGives S.yields stream.old))
        (Behind ready.new.queue.items (StillGives S.yields stream.new)) }
    ensures again { IfSome stream.new S.can_poll }
    ensures kept { Keeps cx.old cx.new }
{
    let most = ready.places.saturating_sub(1).min(AHEAD);
    let _reserved = ready.queue.reserve(most);
    while ready.queue.len() < ready.queue.capacity().min(most) {
        let Some(item) = next_item(stream, cx) else {
            return;
        };
        ready.queue.push_back_reserved(item);
    }
}

/// The next message: of those that came before, or of the stream, with what comes behind it.
fn next_message<S: Stream<Item = T> + Drop, T: Drop>(
    stream: &mut Option<S>,
    ready: &mut Ready<T>,
    cx: &mut Context<'_>,
) -> Option<T>
    requires pollable { IfSome stream.old S.can_poll }
    ensures came { IfSome result (ComesFrom (Behind ready.old.queue.items (StillGives S.yields stream.old))
        (Behind ready.new.queue.items (StillGives S.yields stream.new))) }
    ensures none { IfNone result (Within (Behind ready.old.queue.items (StillGives S.yields stream.old))
        (StillGives S.yields stream.new)) }
    ensures empty { IfNone result (ready.new.queue.items ≡ []) }
    ensures again { IfSome stream.new S.can_poll }
    ensures registered { IfNone result (IfSome stream.new (λ x. Covers cx.new (S.needs x))) }
    ensures kept { Keeps cx.old cx.new }
{
    if let Some(message) = ready.queue.pop_front() {
        return Some(message);
    }
    let message = next_item(stream, cx)?;
    look_ahead(stream, ready, cx);
    Some(message)
}

/// Sends the message and those behind it while they go in at once; then the first that doesn't is begun, or the pass
/// comes back.
fn send_front<T: Drop, H: History<T>>(
    call: &mut Sending<'_, T, H>,
    pass: H::Pass,
    message: T,
    ready: &mut Ready<T>,
) -> Option<H::Pass>
    requires over { call_begun call.old ≡ None }
    ensures sent { SendsSoFar H.relations pass (message ∷ ready.old.queue.items) (call_begun call.new) result
        ready.new.queue.items }
    ensures one { is_some result ≡ true → call_begun call.new ≡ None }
    ensures source { call_source call.new ≡ call_source call.old }
{
    let mut pass = pass;
    match call
        .shared()
        .send_ready(&mut pass, message, &mut ready.queue)
    {
        Ok(places) => {
            ready.places = places;
            Some(pass)
        },
        Err(message) => {
            ready.places = 0;
            call.restart(pass, message);
            None
        },
    }
}

fn send_each<S: Stream<Item = T> + Drop, T: Drop, H: History<T>>(
    call: &mut Sending<'_, T, H>,
    idle: &mut Option<H::Pass>,
    stream: &mut Option<S>,
    ready: &mut Ready<T>,
    cx: &mut Context<'_>,
) -> Poll<Result<(), SendError>>
    requires one { is_some idle.old ≡ true → call_begun call.old ≡ None }
    requires pollable { IfSome stream.old S.can_poll }
    ensures sent { IfReady result (SendsAllTo H.relations (call_begun call.old) idle.old
        (Behind ready.old.queue.items (StillGives S.yields stream.old)) idle.new) }
    ensures begun { OnPending result (SendsSome H.relations (call_begun call.old) idle.old
        (Behind ready.old.queue.items (StillGives S.yields stream.old)) (call_begun call.new) idle.new
        (Behind ready.new.queue.items (StillGives S.yields stream.new))) }
    ensures one { OnPending result (is_some idle.new ≡ true → call_begun call.new ≡ None) }
    ensures again { OnPending result (IfSome stream.new S.can_poll) }
    ensures registered { OnPending result (Covers cx.new
        (λ s. MatchOption idle.new (s ≡ call_source call.new)
        (λ _. IsSomeAnd stream.new (λ x. S.needs x s)))) }
    ensures kept { Keeps cx.old cx.new }
{
    for _ in 0..IN_ONE_POLL {
        match idle.take() {
            Some(pass) => match next_message(stream, ready, cx) {
                Some(message) => *idle = send_front(call, pass, message, ready),
                None => {
                    *idle = Some(pass);
                    return if stream.is_some() {
                        Poll::Pending
                    } else {
                        Poll::Ready(Ok(()))
                    };
                },
            },
            None => match call.poll(cx) {
                Poll::Pending => return Poll::Pending,
                Poll::Ready(None) => return Poll::Ready(Err(SendError::Finished)),
                Poll::Ready(Some(sent)) => {
                    let (pass, answer) = sent.into_parts();
                    *idle = Some(pass);
                    if let Err(error) = answer {
                        return Poll::Ready(Err(error));
                    }
                },
            },
        }
    }
    cx.yield_now()
}

impl<S: Stream<Item = T> + Drop, T: Drop, H: History<T>> Future for SendAll<S, T, H> {
    type Output = Result<(), SendError>;

    ghost can_poll = { λ m. IfSome m.stream S.can_poll };

    ghost needs = { AllWaits S.needs };

    ghost gives = { AllGives H.relations S.yields };

    /// Sends what comes and goes in. It never waits.
    ///
    /// # Examples
    /// ```text
    /// let mut all = sender.send_all(numbers.stream());
    /// task.poll(&mut all)   answers  Pending         while senders of `numbers` are left
    /// task.poll(&mut all)   answers  Ready(Ok(()))   after their last message
    /// ```
    fn poll(&mut self, cx: &mut Context<'_>) -> Poll<Result<(), SendError>>
        requires { IfSome (all_stream self.old) S.can_poll }
        ensures value { IfReady result (AllGives H.relations S.yields self.old) }
        ensures again { OnPending result (IfSome (all_stream self.new) S.can_poll) }
        ensures same { OnPending result ((r : _) → AllGives H.relations S.yields self.new r
            → AllGives H.relations S.yields self.old r) }
        ensures registered { OnPending result (Covers cx.new (AllWaits S.needs self.new)) }
        ensures kept { Keeps cx.old cx.new }
        ensures begun { OnPending result (SendsSome H.relations (all_begun self.old) (all_idle self.old)
            (all_coming S.yields self.old) (all_begun self.new) (all_idle self.new)
            (all_coming S.yields self.new)) }
        ensures made { IfReady result (λ r. all_held self.old ≡ true
            → SendsAllTo H.relations (all_begun self.old) (all_idle self.old)
            (all_coming S.yields self.old) (all_ended self.new) r) }
        ensures gone { IfReady result (λ _. all_held self.new ≡ false) }
        ensures held { OnPending result (all_held self.new ≡ true) }
    {
        let Some((sender, stage)) = self.held.take() else {
            return Poll::Ready(Err(SendError::Finished));
        };
        let (suspended, mut idle) = match stage {
            SendStage::Idle(pass) => (SuspendedSend::new(None), Some(pass)),
            SendStage::Busy(suspended) => (suspended, None),
        };
        let mut call = Sending::resume(sender.channel(), suspended);
        match send_each(&mut call, &mut idle, &mut self.stream, &mut self.ready, cx) {
            Poll::Ready(answer) => {
                drop(call);
                drop(sender);
                self.ended = idle;
                Poll::Ready(answer)
            },
            Poll::Pending => {
                let stage = match idle {
                    None => SendStage::Busy(call.suspend()),
                    Some(pass) => {
                        drop(call);
                        SendStage::Idle(pass)
                    },
                };
                match self.held.replace((sender, stage)) {
                    None => Poll::Pending,
                    Some(_held) => unreachable!(),
                }
            },
        }
    }
}
