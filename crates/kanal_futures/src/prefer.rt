//! A receive over two receivers, which asks the first before the second.
//!
//! Both waits stay between its polls. It makes no call of its own: each is one of its two streams'.
ghost use Rattle.std.specs.Prelude.{◌≡◌, ◌⊎◌, ⊤, true, false, IfNone, IfOk, IfSome, OnSome, Some, codes};
ghost use Rattle.futures.specs.Task.{Covers, Keeps};
ghost use Rattle.futures.specs.Poll.{IfReady, OnPending};
ghost use Rattle.futures.specs.Runs.{After, Within};
ghost use Rattle.futures.specs.declared.future.either.Either.{Either};
ghost use Rattle.kanal_futures.specs.Prefers.{BothEnd, HandsAll, HandsOut, HaveNone, OfSecond, first_stream, second_stream};
ghost use Rattle.kanal_futures.specs.Streams.{WaitsAt, stream_is_over};

use crate::stream::ReceiveStream;
use futures::executor::block_on;
use futures::future::Either;
use futures::task::{Context, Poll};
use futures::{Future, Stream};
use kanal_core::error::ReceiveError;
use kanal_state::{History, NoHistory};
use std::alloc::AllocGlobal;
use std::random::RandomSource;
use std::sync::Wait;
use std::{fmt, io};

// The messages that one poll of a loop takes, before other tasks get their turn.
const IN_ONE_POLL: u32 = 128;

/// The messages of two receivers, as `kanal::prefer` answers them: at each poll the first is asked before the second.
///
/// A poll never waits. It answers `Left` with a message of the first, and asks the second only where the first has
/// none. After the last message of both it answers `None` for good. Its two streams keep their waits between polls,
/// so nothing is lost while it lives.
///
/// Its drop drops a message that was handed to one of its waits and that no poll has answered yet: at most one of
/// each receiver. To lose nothing, seal both channels and poll it until it answers `None`.
#[derive(Drop)]
pub struct Prefer<'a, A, B, G: History<A> = NoHistory, H: History<B> = NoHistory> {
    first: ReceiveStream<'a, A, G>,
    second: ReceiveStream<'a, B, H>,
}

/// The messages of both streams, of which the first is asked first. It never waits.
///
/// # Examples
/// ```text
/// let mut both = prefer_streams(receive_stream(&urgent, ()), receive_stream(&normal, ()));
/// block_on(&rt, both.next())   gives  Some(Either::Left(7))   where 7 was sent to `urgent`
/// ```
pub fn prefer_streams<'a, A: Drop, B: Drop, G: History<A>, H: History<B>>(
    first: ReceiveStream<'a, A, G>,
    second: ReceiveStream<'a, B, H>,
) -> Prefer<'a, A, B, G, H>
    ensures first { first_stream result ≡ first.entry }
    ensures second { second_stream result ≡ second.entry }
{
    Prefer { first, second }
}

impl<'a, A: Drop, B: Drop, G: History<A>, H: History<B>> Prefer<'a, A, B, G, H> {
    /// The stream that is asked first; its `fault` says why it ended. It never waits.
    /// Example: `both.first().fault()` answers `Some(&ReceiveError::SendClosed)` after the end of the first.
    pub fn first(&self) -> &ReceiveStream<'a, A, G>
        ensures { result.now ≡ first_stream self.now }
    {
        &self.first
    }

    /// The stream that is asked where the first has no message. It never waits.
    /// Example: `both.second().fault()` answers `None` while the second has not ended.
    pub fn second(&self) -> &ReceiveStream<'a, B, H>
        ensures { result.now ≡ second_stream self.now }
    {
        &self.second
    }

    /// Hands each message that comes to the call, until both have ended: the first is asked before the second each
    /// time. It waits under the kit's `block_on` where neither has a message, and the call runs with no lock held.
    ///
    /// The inner answer is `Ok` exactly where both ended since no sender is left.
    ///
    /// # Errors
    /// That of `block_on`, as for want of memory; what was handed to a wait is dropped then, as this is. Inside it the
    /// `fault` of the first that isn't `SendClosed`, and else that of the second, as `Receiver::for_each` answers it.
    ///
    /// # Examples
    /// ```text
    /// kanal::prefer(&urgent, &normal).for_each(&rt, |item| match item {
    ///     Either::Left(job) => now(job),
    ///     Either::Right(job) => later(job),
    /// })??   goes on until neither has a sender left
    /// ```
    pub fn for_each<R, F>(self, rt: &R, call: F) -> io::Result<Result<(), ReceiveError>>
    where
        R: Wait + RandomSource + AllocGlobal,
        F: FnMut(Either<A, B>),
        requires callable { F.IsAlwaysCallable call }
        ensures handed { IfOk result (HandsAll G.relations H.relations F.FnMut self.entry call) }
    {
        block_on(rt, PreferEach { both: self, call })
    }

    fn ending(&self) -> Result<(), ReceiveError>
        requires over { (stream_is_over (first_stream self.now) ≡ true) × (stream_is_over (second_stream self.now) ≡ true) }
        ensures { BothEnd self.now result }
    {
        self.first.ending()?;
        self.second.ending()
    }
}

impl<A: Drop, B: Drop, G: History<A>, H: History<B>> Stream for Prefer<'_, A, B, G, H> {
    type Item = Either<A, B>;

    ghost needs = { λ p s. WaitsAt (first_stream p) s ⊎ WaitsAt (second_stream p) s };

    /// Polls the first for a message, and the second where the first has none; `None` where both have ended. It
    /// never waits.
    ///
    /// # Examples
    /// ```text
    /// let mut both = kanal::prefer(&urgent, &normal);
    /// both.poll_next(cx)   answers  Ready(Some(Either::Left(1)))    where 1 was sent to `urgent`, and 2 to `normal`
    /// both.poll_next(cx)   answers  Ready(Some(Either::Right(2)))   after that
    /// ```
    fn poll_next(&mut self, cx: &mut Context<'_>) -> Poll<Option<Either<A, B>>>
        ensures value { IfReady result (λ _. ⊤) }
        ensures rest { IfReady result (λ o. IfSome o (λ x. After (λ _ _. ⊤) x (λ _ _. ⊤))) }
        ensures goes { IfReady result (λ o. OnSome o ⊤) }
        ensures again { OnPending result ⊤ }
        ensures same { OnPending result (Within {A = Either A B} (λ _ _. ⊤) (λ _ _. ⊤)) }
        ensures registered { OnPending result (Covers cx.new (λ s.
            WaitsAt (first_stream self.new) s ⊎ WaitsAt (second_stream self.new) s)) }
        ensures kept { Keeps cx.old cx.new }
        ensures received { IfReady result (λ o. IfSome o (HandsOut G.relations H.relations self.old self.new)) }
        ensures asked { IfReady result (λ o. IfSome o (λ item. OfSecond item
            (stream_is_over (first_stream self.new) ≡ false → Covers cx.new (WaitsAt (first_stream self.new))))) }
        ensures none { IfReady result (λ o. IfNone o (HaveNone G.relations H.relations self.old self.new)) }
        ensures ends { IfReady result (λ o. IfNone o ((stream_is_over (first_stream self.new) ≡ true)
            × (stream_is_over (second_stream self.new) ≡ true))) }
        ensures stays { OnPending result (HaveNone G.relations H.relations self.old self.new) }
        ensures goes_on { OnPending result ((stream_is_over (first_stream self.new) ≡ false)
            ⊎ (stream_is_over (second_stream self.new) ≡ false)) }
    {
        if let Some(message) = self.first.ask(cx) {
            return Poll::Ready(Some(Either::Left(message)));
        }
        if let Some(message) = self.second.ask(cx) {
            return Poll::Ready(Some(Either::Right(message)));
        }
        if self.first.has_ended() && self.second.has_ended() {
            return Poll::Ready(None);
        }
        Poll::Pending
    }
}

impl<A: Drop, B: Drop, G: History<A>, H: History<B>> fmt::Debug for Prefer<'_, A, B, G, H> {
    ghost debug_output = { λ _. Some (codes "Prefer { .. }") };

    fn fmt<W: fmt::Write>(&self, f: &mut fmt::Formatter<W>) -> fmt::Result {
        f.write_str("Prefer { .. }")
    }
}

/// The loop of `Prefer::for_each`: as many messages in one poll as are there, and no more than `IN_ONE_POLL`.
#[derive(Drop)]
struct PreferEach<'a, A, B, G: History<A>, H: History<B>, F> {
    both: Prefer<'a, A, B, G, H>,
    call: F,
}

impl<A, B, G, H, F> Future for PreferEach<'_, A, B, G, H, F>
where
    A: Drop,
    B: Drop,
    G: History<A>,
    H: History<B>,
    F: FnMut(Either<A, B>),
{
    type Output = Result<(), ReceiveError>;

    ghost can_poll = { λ m. F.IsAlwaysCallable m.call };

    ghost needs = { λ m s. WaitsAt (first_stream m.both) s ⊎ WaitsAt (second_stream m.both) s };

    ghost gives = { λ m. HandsAll G.relations H.relations F.FnMut m.both m.call };

    fn poll(&mut self, cx: &mut Context<'_>) -> Poll<Result<(), ReceiveError>> {
        for _ in 0..IN_ONE_POLL {
            match self.both.poll_next(cx) {
                Poll::Ready(Some(message)) => (self.call)(message),
                Poll::Ready(None) => return Poll::Ready(self.both.ending()),
                Poll::Pending => return Poll::Pending,
            }
        }
        cx.yield_now()
    }
}
