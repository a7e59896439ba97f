//! The loops of a task over a receiver's messages: as many messages in one poll as are there, up to a limit.
//!
//! Each receive is the stream's; here the messages are handed to the call.
ghost use Rattle.std.specs.Prelude.{◌≡◌, []};
ghost use Rattle.kanal.specs.Messages.{CallsEach, HandsOn, TaskReceivesAll, TaskReceivesUntil};
ghost use Rattle.kanal_futures.specs.Streams.{stream_fault, stream_pass, stream_source};

use futures::task::{Context, Poll};
use futures::{Future, Stream};
use kanal_core::error::ReceiveError;
use kanal_futures::ReceiveStream;
use kanal_state::{History, NoHistory};
use std::alloc::Global;
use std::collections::VecDeque;
use std::marker::Model;

// The turns of one poll, before other tasks get theirs. A turn takes what lies in the buffer, and asks for a message.
const TURNS: u32 = 16;

// The messages that one poll takes one by one.
const IN_ONE_POLL: u32 = 128;

// The messages that one taking of the lock brings.
const AT_ONCE: usize = 32;

/// Hands the messages to the call, in order.
fn hand_each<T: Drop, F: FnMut(T)>(messages: &mut VecDeque<T>, call: &mut F)
    requires callable { F.IsAlwaysCallable call.old }
    ensures handed { CallsEach F.FnMut tt call.old messages.old.items call.new }
    ensures callable { F.IsAlwaysCallable call.new }
    ensures empty { messages.new.items ≡ [] }
{
    while let Some(message) = messages.pop_front() {
        call(message);
    }
}

/// Room for the messages that one taking of the lock brings. It is empty between two calls.
#[derive(Drop)]
pub(crate) struct Room<T> {
    messages: VecDeque<T>,
}

impl<T> Model for Room<T> {
    ghost use Rattle.std.specs.Prelude.{◌≡◌, []};

    ghost Value = { Unit {0} };

    ghost view = { λ _. tt };

    ghost invariant = { λ room. room.messages.items ≡ [] };
}

impl<T: Drop> Room<T> {
    pub(crate) fn new(alloc: Global) -> Self {
        Room {
            messages: VecDeque::new(alloc),
        }
    }

    /// Receives what lies in the buffer and hands each message to the call. Without memory for room it does nothing.
    #[inline]
    fn hand_over<F: FnMut(T), H: History<T>>(
        &mut self,
        stream: &mut ReceiveStream<'_, T, H>,
        call: &mut F,
    )
        requires callable { F.IsAlwaysCallable call.old }
        ensures handed { HandsOn H.relations F.FnMut tt (stream_pass stream.old) call.old
            (stream_pass stream.new) call.new }
        ensures callable { F.IsAlwaysCallable call.new }
        ensures fault { stream_fault stream.new ≡ stream_fault stream.old }
        ensures source { stream_source stream.new ≡ stream_source stream.old }
    {
        let _reserved = self.messages.reserve(AT_ONCE);
        stream.recv_ready(&mut self.messages);
        hand_each(&mut self.messages, call);
    }
}

/// Hands each message to a call, as `AsyncReceiver::for_each` answers it.
///
/// A poll never waits. It hands over what is there, of the buffer up to 32 messages in one taking of the lock, and asks
/// for another poll at the latest after 528 messages, so that other tasks get their turn. Where other receivers are left
/// it takes no more at once than half of its share. After its answer it answers the same again.
///
/// Its drop drops a message that was handed to its wait and that no poll has handed over yet.
#[derive(Drop)]
pub struct ForEach<'a, T, F, H: History<T> = NoHistory> {
    pub(crate) stream: ReceiveStream<'a, T, H>,
    pub(crate) call: F,
    pub(crate) room: Room<T>,
}

impl<T: Drop, F: FnMut(T), H: History<T>> Future for ForEach<'_, T, F, H> {
    type Output = Result<(), ReceiveError>;

    ghost can_poll = { λ m. F.IsAlwaysCallable m.call };

    ghost needs = { λ m s. s ≡ stream_source m.stream };

    ghost gives = { λ m. TaskReceivesAll H.relations F.FnMut m.stream m.call };

    fn poll(&mut self, cx: &mut Context<'_>) -> Poll<Result<(), ReceiveError>> {
        for _ in 0..TURNS {
            self.room.hand_over(&mut self.stream, &mut self.call);
            match self.stream.poll_next(cx) {
                Poll::Ready(Some(message)) => (self.call)(message),
                Poll::Ready(None) => return Poll::Ready(self.stream.ending()),
                Poll::Pending => return Poll::Pending,
            }
        }
        cx.yield_now()
    }
}

/// Hands each message to a call that may fail, as `AsyncReceiver::try_for_each` answers it.
///
/// It is polled and dropped as a `ForEach`, but takes one message after the other, up to 128 in one poll. Where it is
/// polled after an error of the call it goes on with the next message.
#[derive(Drop)]
pub struct TryForEach<'a, T, F, H: History<T> = NoHistory> {
    pub(crate) stream: ReceiveStream<'a, T, H>,
    pub(crate) call: F,
}

impl<T: Drop, E: Drop, F: FnMut(T) -> Result<(), E>, H: History<T>> Future
    for TryForEach<'_, T, F, H> {
    type Output = Result<Result<(), E>, ReceiveError>;

    ghost can_poll = { λ m. F.IsAlwaysCallable m.call };

    ghost needs = { λ m s. s ≡ stream_source m.stream };

    ghost gives = { λ m. TaskReceivesUntil H.relations F.FnMut m.stream m.call };

    fn poll(&mut self, cx: &mut Context<'_>) -> Poll<Result<Result<(), E>, ReceiveError>> {
        for _ in 0..IN_ONE_POLL {
            match self.stream.poll_next(cx) {
                Poll::Ready(Some(message)) => {
                    if let Err(error) = (self.call)(message) {
                        return Poll::Ready(Ok(Err(error)));
                    }
                },
                Poll::Ready(None) => {
                    return match self.stream.ending() {
                        Ok(()) => Poll::Ready(Ok(Ok(()))),
                        Err(error) => Poll::Ready(Err(error)),
                    };
                },
                Poll::Pending => return Poll::Pending,
            }
        }
        cx.yield_now()
    }
}
