//! The wait of a task: how a call begins that waits where it must, and how its wait ends.
//!
//! The pass whose call it is travels with the wait. A wait that was started is owed: only its end and its leaving
//! let it go.
ghost use Rattle.std.specs.Prelude.{◌≡◌, IfErr, IfOk, Some, true};
ghost use Rattle.futures.specs.Task.{Covers, Keeps};
ghost use Rattle.kanal_cell.specs.CellRule.{MaySleep, StillWaits};
ghost use Rattle.kanal_cell.specs.CellEnds.{wait_view};
ghost use Rattle.kanal_events.specs.StepResult.{may_wait};
ghost use Rattle.kanal_state.specs.Makes.{HasReplied, HasWaited};
ghost use Rattle.kanal_state.specs.Waits.{IsWaiting};
ghost use Rattle.kanal_channel.specs.Starts.{HasLeftCell};
ghost use Rattle.kanal_futures.specs.Tasks.{started_with, source_of};

use crate::answer::GhostStart;
use crate::wakers::Wakers;
use futures::task::{Context, Poll};
use kanal_cell::signal::WaitEnd;
use kanal_channel::{Locked, Operation, Shared, StartedWait};
use kanal_core::internal::Outcome;
use kanal_events::event::{Event, Reply};
use kanal_state::{CountedWait, History, OtherResult, WaitResult};
use std::marker::{Model, PhantomData};

/// A call that was answered at once: what it began with, the pass, and the reply.
pub(crate) type Replied<T, H, M> = (
    GhostStart<<H as History<T>>::Pass, M>,
    <H as History<T>>::Pass,
    Reply<T>,
);

/// A wait that was settled: what the call began with, the pass, and what became of the wait.
pub(crate) type SettledCall<T, H, M> = (
    GhostStart<<H as History<T>>::Pass, M>,
    <H as History<T>>::Pass,
    Outcome<T>,
);

/// A wait that was started, with the pass whose call it is. Contracts see what the pass was at first, and what
/// was asked. Only `look` and `leave` let it go.
///
/// Invariant: the end has not left, and has had no outcome but another wait's. So no outcome is thrown away.
pub(crate) struct Started<T, H: History<T>, M, A: Operation<T, M>> {
    opening: GhostStart<H::Pass, M>,
    pass: H::Pass,
    counted: CountedWait,
    end: WaitEnd<WaitResult<T, H>>,
    /// A result came that was another wait's (never seen), so none comes any more.
    other: Option<OtherResult>,
    asks: PhantomData<A>,
}

impl<T, H: History<T>, M, A: Operation<T, M>> Model for Started<T, H, M, A> {
    ghost use Rattle.std.specs.Prelude.{◌≡◌, is_some};
    ghost use Rattle.kanal_cell.specs.CellRule.{HasNotLeft};
    ghost use Rattle.kanal_cell.specs.CellEnds.{wait_view};
    ghost use Rattle.kanal_state.specs.Waits.{IsWaiting};

    ghost Value = { H.Pass × M };

    ghost view = { λ s. (s.opening.pass.value, s.opening.asked.value) };

    ghost invariant = { λ s. HasNotLeft (wait_view s.end) × ((wait_view s.end).had ≡ is_some s.other)
        × IsWaiting H.relations s.opening.pass.value s.pass (A.event s.opening.asked.value) s.counted };
}

impl<T: Drop, H: History<T>, M: Drop, A: Operation<T, M>> Started<T, H, M, A> {
    fn new(
        opening: GhostStart<H::Pass, M>,
        pass: H::Pass,
        counted: CountedWait,
        end: WaitEnd<WaitResult<T, H>>,
    ) -> Self
        requires unspent { StillWaits (wait_view end) }
        requires waits { IsWaiting H.relations opening.pass.value pass (A.event opening.asked.value) counted }
        ensures { result ≡ started_with opening }
    {
        Started {
            opening,
            pass,
            counted,
            end,
            other: None,
            asks: PhantomData,
        }
    }

    /// Looks for the end of the wait. Without one it puts the task's waker into the entry; where the lock is
    /// held or the entry is gone, it asks for another poll.
    pub(crate) fn look(
        self,
        wakers: &mut Wakers,
        shared: &Shared<T, H>,
        cx: &mut Context<'_>,
    ) -> Result<SettledCall<T, H, M>, Self>
        ensures begun { IfOk result (λ r. started_with r.0 ≡ self) }
        ensures waited { IfOk result (λ r. HasWaited H.relations self.0 r.1 (A.event self.1) r.2) }
        ensures goes_on { IfErr result (λ started. started ≡ self) }
        ensures registered { IfErr result (λ _. Covers cx.new (λ s. s ≡ source_of wakers.new)) }
        ensures kept { Keeps cx.old cx.new }
        ensures source { source_of wakers.new ≡ source_of wakers.old }
    {
        let Started {
            opening,
            mut pass,
            counted,
            mut end,
            other,
            asks,
        } = self;
        let (counted, other) = match end.poll() {
            Some(delivered) => match counted.learn(shared.log(), &mut pass, delivered) {
                Ok(outcome) => {
                    drop(end);
                    return Ok((opening, pass, outcome));
                },
                Err((counted, other)) => {
                    let _: Poll<()> = cx.yield_now();
                    (counted, Some(other))
                },
            },
            None => {
                wakers.renew(shared, counted.ticket(), cx);
                (counted, other)
            },
        };
        Err(Started {
            opening,
            pass,
            counted,
            end,
            other,
            asks,
        })
    }

    /// Gives the wait up: an internal call withdraws it, or a notice is left. It never waits.
    #[cold]
    pub(crate) fn leave(self, shared: &Shared<T, H>) {
        let Started {
            opening,
            pass,
            counted,
            mut end,
            other: _,
            asks: _,
        } = self;
        match end.leave() {
            Some(delivered) => let_go(shared, counted, end, delivered),
            None => shared.leave(counted, end),
        }
        drop(opening);
        drop(pass);
    }
}

/// Drops a wait whose result had arrived.
fn let_go<T: Drop, H: History<T>>(
    shared: &Shared<T, H>,
    counted: CountedWait,
    end: WaitEnd<WaitResult<T, H>>,
    delivered: WaitResult<T, H>,
)
    requires left { HasLeftCell (wait_view end) }
{
    match counted.told(&delivered) {
        Some(counted) => shared.leave(counted, end),
        None => drop(end),
    }
    drop(delivered);
}

impl Wakers {
    /// Makes a call under the lock, and releases the lock; where it must wait, its wait is started.
    pub(crate) fn begin<T: Drop, H: History<T>, M: Drop, A: Operation<T, M>>(
        &self,
        shared: &Shared<T, H>,
        locked: Locked<'_, T, H>,
        pass: H::Pass,
        asked: M,
        cx: &mut Context<'_>,
    ) -> Result<Replied<T, H, M>, Started<T, H, M, A>>
        ensures begun { IfOk result (λ r. started_with r.0 ≡ (pass, asked)) }
        ensures replied { IfOk result (λ r. HasReplied H.relations pass r.1 (A.event asked) r.2) }
        ensures waits { IfErr result (λ s. s ≡ (pass, asked)) }
        ensures registered { IfErr result (λ _. Covers cx.new (λ s. s ≡ source_of self.now)) }
        ensures kept { Keeps cx.old cx.new }
    {
        let opening = GhostStart::of(&pass, &asked);
        let mut pass = pass;
        match self.begin_held(shared, locked, &mut pass, A::into_event(asked), cx) {
            Ok((counted, end)) => Err(Started::new(opening, pass, counted, end)),
            Err(reply) => Ok((opening, pass, reply)),
        }
    }

    /// Begins the wait of a call, as a blocked call does, with a cell whose settling wakes the task.
    #[inline(always)]
    fn begin_held<T: Drop, H: History<T>>(
        &self,
        shared: &Shared<T, H>,
        locked: Locked<'_, T, H>,
        pass: &mut H::Pass,
        event: Event<T>,
        cx: &mut Context<'_>,
    ) -> Result<StartedWait<T, H>, Reply<T>>
        requires waits { may_wait event ≡ true }
        ensures begun { IfOk result (λ begun. IsWaiting H.relations pass.old pass.new event begun.0) }
        ensures fresh { IfOk result (λ begun. MaySleep (wait_view begun.1)) }
        ensures replied { IfErr result (HasReplied H.relations pass.old pass.new event) }
        ensures registered { IfOk result (λ _. Covers cx.new (λ s. s ≡ source_of self.now)) }
        ensures kept { Keeps cx.old cx.new }
    {
        let (locked, event) = shared.start(locked, pass, event)?;
        shared.wait(locked, pass, event, self.cell(shared.alloc(), cx))
    }
}
