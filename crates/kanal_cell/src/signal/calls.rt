//! The calls on a running cell.
//!
//! A put comes before the step that gives its slot to the other end, and a take after the step that brought the slot.
ghost use Rattle.std.specs.Prelude.{◌≡◌, ◌↔◌, ◌∷◌, [], true, false, Some, None, if◌then◌else◌, IfOk, IsSome};
ghost use Rattle.kanal_cell.specs.CellRule.{fresh, after_poll, after_sleep, after_leave, after_settle, HasNotLeft, HasNotSettled, MaySleep};
ghost use Rattle.kanal_cell.specs.CellEnds.{AreOfOneCell, FindsOutcome, GoesOn, WasSettled, StaysAtCell, wait_view, settle_view, kept_waker};
ghost use Rattle.kanal_cell.specs.declared.signal.rule.Role.TheVariants.{Waiter, Settler};

use super::rule::{
    CellParts, CellTable, ENDED, EndSeat, LEFT, Leaves, Polls, SLEEPING, SettlerBegins, Settles,
    Signal, Sleeper, Sleeps, WaiterBegins,
};
use super::settlement::SettleProof;
use super::waking::{Waking, take_out};
use super::{SettleEnd, WaitEnd};
use crate::error::NoMemory;
use crate::pointer;
use atomic_table::Table;
use crossbeam_utils::sync::Unparker;
use futures::task::Waker;
use std::alloc::Global;
use std::snapshot::Snapshot;
use std::sync::{Arc, Wait};
use std::time::Duration;

/// The word of a cell whose waiter sleeps, and that is neither settled nor left: SLEEPING alone.
const ASLEEP: u32 = 1;

type TableWithSeats<P> = (CellTable<P>, EndSeat<P>, EndSeat<P>);

fn table_with_seats<P: Drop>(alloc: Global) -> Result<TableWithSeats<P>, NoMemory>
    ensures sized { IfOk result (λ made. (made.0.shared.table_id.words ≡ 1)
        × (made.0.shared.table_id.slots ≡ 2)) }
    ensures waiter { IfOk result (λ made. (made.1.table_id ≡ made.0.shared.table_id)
        × (made.1.me ≡ (fresh Waiter, (1, None) ∷ []))) }
    ensures settler { IfOk result (λ made. (made.2.table_id ≡ made.0.shared.table_id)
        × (made.2.me ≡ (fresh Settler, (0, None) ∷ []))) }
{
    let Ok((table, mut waiter)) = Table::vacant(alloc, &[0], 2, &()) else {
        return Err(NoMemory);
    };
    table.shared.load::<WaiterBegins>(&mut waiter, 0);
    let mut settler = table.shared.split_seat::<CellParts>(&mut waiter);
    table.shared.load::<SettlerBegins>(&mut settler, 0);
    Ok((table, waiter, settler))
}

/// Makes a cell, and answers its two ends.
///
/// It refuses only for want of memory, and never waits. No later call on the ends takes memory.
///
/// ```
/// let (mut wait, mut settle) = signal::new::<u64>(alloc)?;
/// assert!(settle.settle(5) == None);
/// assert!(wait.poll() == Some(5));
/// ```
pub fn new<P: Drop>(alloc: Global) -> Result<(WaitEnd<P>, SettleEnd<P>), NoMemory>
    ensures waiter { IfOk result (λ ends. wait_view ends.0 ≡ fresh Waiter) }
    ensures settler { IfOk result (λ ends. settle_view ends.1 ≡ fresh Settler) }
    ensures waker { IfOk result (λ ends. kept_waker ends.1 ≡ None) }
    ensures cell { IfOk result (λ ends. AreOfOneCell ends.0 ends.1) }
{
    let Ok((table, waiter, settler)) = table_with_seats::<P>(alloc) else {
        return Err(NoMemory);
    };
    let Ok(signal) = Arc::new(alloc, Signal { table }) else {
        return Err(NoMemory);
    };
    let Ok(other) = Arc::try_clone(&signal) else {
        return Err(NoMemory);
    };
    let wait = WaitEnd {
        signal,
        seat: waiter,
        had: false,
    };
    let settle = SettleEnd {
        signal: other,
        seat: settler,
        waker: None,
    };
    Ok((wait, settle))
}

impl<P: Drop> WaitEnd<P> {
    /// Looks for the outcome, by one load. It is answered once, by the first call of the three
    /// that finds it. None: it is not there yet, or was answered before.
    ///
    /// It never waits. The end must not have left.
    ///
    /// ```
    /// assert!(wait.poll() == None);
    /// assert!(settle.settle(5) == None);
    /// assert!(wait.poll() == Some(5));
    /// assert!(wait.poll() == None);
    /// ```
    pub fn poll(&mut self) -> Option<P>
        requires unspent { HasNotLeft (wait_view self.old) }
        ensures step { GoesOn after_poll (wait_view self.old) (wait_view self.new) }
        ensures answer { IsSome result ↔ FindsOutcome (wait_view self.old) (wait_view self.new) }
    {
        let found = self.signal.table.shared.load::<Polls>(&mut self.seat, 0);
        if found & ENDED != 0 && !self.had {
            self.had = true;
            Some(pointer::take_outcome(&self.signal.table.shared, &mut self.seat))
        } else {
            None
        }
    }

    /// Whether the cell was settled, by one load. What it answers is no part of the rule: the cell may be
    /// settled right after it. So it says no more than that a `poll` is worth its while.
    ///
    /// It never waits.
    ///
    /// ```
    /// assert!(!wait.is_settled());
    /// assert!(settle.settle(5) == None);
    /// assert!(wait.is_settled());
    /// ```
    #[inline(always)]
    pub fn is_settled(&self) -> bool {
        self.signal.table.shared.peek(0) & ENDED != 0
    }

    /// Registers a sleeper, by one atomic step, unless the outcome is there: then it is answered. None: the settle
    /// that comes later will wake the sleeper, and a `poll` after that finds the outcome.
    ///
    /// It never waits: the caller parks after it. The end must not have left, slept or answered the outcome.
    ///
    /// ```
    /// let parker = Parker::new(alloc)?;
    /// if wait.sleep(parker.unparker().clone()?).is_none() {
    ///     parker.park(rt);
    /// }
    /// ```
    pub fn sleep(&mut self, sleeper: Unparker) -> Option<P>
        requires unspent { MaySleep (wait_view self.old) }
        ensures step { GoesOn after_sleep (wait_view self.old) (wait_view self.new) }
        ensures answer { IsSome result ↔ FindsOutcome (wait_view self.old) (wait_view self.new) }
    {
        self.register(Sleeper::Parker(sleeper))
    }

    /// Registers a thread that then sleeps on the cell's own word, by `park` or `park_timeout`. It needs no parker.
    ///
    /// It never waits. The end must not have left, slept or answered the outcome.
    ///
    /// ```
    /// if wait.sleep_here().is_none() {
    ///     wait.park(rt);
    /// }
    /// ```
    pub fn sleep_here(&mut self) -> Option<P>
        requires unspent { MaySleep (wait_view self.old) }
        ensures step { GoesOn after_sleep (wait_view self.old) (wait_view self.new) }
        ensures answer { IsSome result ↔ FindsOutcome (wait_view self.old) (wait_view self.new) }
    {
        self.register(Sleeper::Word)
    }

    /// Parks until the settle that comes after `sleep_here` wakes it. It may also return for no reason,
    /// and returns at once where the cell is settled, or where the end didn't sleep.
    ///
    /// It is no step of the cell.
    ///
    /// ```
    /// assert!(wait.sleep_here() == None);
    /// wait.park(rt);
    /// ```
    pub fn park<R: Wait>(&self, rt: &R) {
        self.signal.table.shared.park(rt, 0, ASLEEP);
    }

    /// Sleeps on the cell's word for no longer than the duration.
    ///
    /// ```
    /// wait.park_timeout(rt, Duration::from_millis(1));
    /// ```
    pub fn park_timeout<R: Wait>(&self, rt: &R, duration: Duration) {
        self.signal
            .table
            .shared
            .park_timeout(rt, 0, ASLEEP, duration);
    }

    fn register(&mut self, sleeper: Sleeper) -> Option<P>
        requires unspent { MaySleep (wait_view self.old) }
        ensures step { GoesOn after_sleep (wait_view self.old) (wait_view self.new) }
        ensures answer { IsSome result ↔ FindsOutcome (wait_view self.old) (wait_view self.new) }
    {
        pointer::put_sleeper(&self.signal.table.shared, &mut self.seat, sleeper);
        let found = self
            .signal
            .table
            .shared
            .fetch_or::<Sleeps>(&mut self.seat, 0, SLEEPING);
        if found & ENDED != 0 {
            self.had = true;
            Some(pointer::take_outcome(&self.signal.table.shared, &mut self.seat))
        } else {
            None
        }
    }

    /// Gives the wait up, by one atomic step. Some: the outcome was there and not answered before.
    /// None: it was answered before, or a settle that comes later gets it back.
    ///
    /// It never waits. The end must not have left, and may not be used afterwards.
    ///
    /// ```
    /// assert!(wait.leave() == None);
    /// assert!(settle.settle(5) == Some(5));
    /// ```
    pub fn leave(&mut self) -> Option<P>
        requires unspent { HasNotLeft (wait_view self.old) }
        ensures step { GoesOn after_leave (wait_view self.old) (wait_view self.new) }
        ensures answer { IsSome result ↔ FindsOutcome (wait_view self.old) (wait_view self.new) }
    {
        let found = self
            .signal
            .table
            .shared
            .fetch_or::<Leaves>(&mut self.seat, 0, LEFT);
        if found & ENDED != 0 && !self.had {
            self.had = true;
            Some(pointer::take_outcome(&self.signal.table.shared, &mut self.seat))
        } else {
            None
        }
    }
}

impl<P: Drop> SettleEnd<P> {
    /// Hands the outcome over, by one atomic step. Some: the waiter had left, and the outcome
    /// comes back. After the step it wakes the registered sleeper and the kept waker, if any.
    ///
    /// It never waits. The end must not have settled, and may not be used afterwards.
    ///
    /// ```
    /// let (mut wait, mut settle) = signal::new::<u64>(alloc)?;
    /// assert!(settle.settle(5) == None);
    /// assert!(wait.leave() == Some(5));
    /// ```
    pub fn settle(&mut self, outcome: P) -> Option<P>
        requires unspent { HasNotSettled (settle_view self.old) }
        ensures step { GoesOn after_settle (settle_view self.old) (settle_view self.new) }
        ensures answer { result
            ≡ (if (settle_view self.new).found.left then Some outcome else None) }
        ensures waker { kept_waker self.new ≡ None }
    {
        let (settlement, back) = self.hand_over(outcome);
        drop(settlement);
        back
    }

    /// Settles as `settle`, and answers what shows that this cell was settled with this outcome, too.
    ///
    /// ```
    /// let (settlement, back) = settle.hand_over(5);
    /// assert!(back == None);
    /// ```
    pub fn hand_over(&mut self, outcome: P) -> (SettleProof<P>, Option<P>)
        requires unspent { HasNotSettled (settle_view self.old) }
        ensures shown { WasSettled result.0 self.old outcome }
        ensures step { GoesOn after_settle (settle_view self.old) (settle_view self.new) }
        ensures answer { result.1
            ≡ (if (settle_view self.new).found.left then Some outcome else None) }
        ensures waker { kept_waker self.new ≡ None }
    {
        let shown = Snapshot::of(&outcome);
        let (waking, back) = self.end(outcome);
        let woken = waking.wake(&self.signal.table.shared);
        (SettleProof::new(self, shown, woken), back)
    }

    /// Whether the waiter has left, by one load. What it answers is no part of the rule: a waiter
    /// may leave right after it.
    ///
    /// It never waits. The end must not have settled.
    ///
    /// ```
    /// assert!(!settle.is_left());
    /// assert!(wait.leave() == None);
    /// assert!(settle.is_left());
    /// ```
    pub fn is_left(&self) -> bool
        requires unspent { HasNotSettled (settle_view self.now) }
    {
        self.signal.table.shared.peek(0) & LEFT != 0
    }

    /// Keeps a waker, which `settle` will wake, and answers the one that was kept before. It is no
    /// step of the cell and touches neither the word nor a slot, so it may be called under a lock.
    ///
    /// The answered waker wakes its task when it is dropped. The end must not have settled.
    ///
    /// ```
    /// let displaced = settle.set_waker(waker);
    /// ```
    pub fn set_waker(&mut self, waker: Waker) -> Option<Waker>
        requires unspent { HasNotSettled (settle_view self.old) }
        ensures view { settle_view self.new ≡ settle_view self.old }
        ensures cell { StaysAtCell self.old self.new }
        ensures displaced { result ≡ kept_waker self.old }
        ensures kept { kept_waker self.new ≡ Some waker }
    {
        self.waker.replace(waker)
    }

    fn end(&mut self, outcome: P) -> (Waking, Option<P>)
        requires unspent { HasNotSettled (settle_view self.old) }
        ensures step { GoesOn after_settle (settle_view self.old) (settle_view self.new) }
        ensures sleeper { IsSome result.0.sleeper ↔ ((settle_view self.new).found.sleeping ≡ true) }
        ensures waker { result.0.waker ≡ kept_waker self.old }
        ensures back { result.1
            ≡ (if (settle_view self.new).found.left then Some outcome else None) }
        ensures kept { kept_waker self.new ≡ None }
        ensures cell { StaysAtCell self.old self.new }
    {
        pointer::put_outcome(&self.signal.table.shared, &mut self.seat, outcome);
        let found = self
            .signal
            .table
            .shared
            .fetch_or::<Settles>(&mut self.seat, 0, ENDED);
        let sleeper = if found & SLEEPING != 0 {
            let sleeper = pointer::take_sleeper(&self.signal.table.shared, &mut self.seat);
            self.seat.turn();
            Some(sleeper)
        } else {
            None
        };
        let back = if found & LEFT != 0 {
            Some(pointer::take_outcome(&self.signal.table.shared, &mut self.seat))
        } else {
            None
        };
        (take_out(&mut self.waker, &self.seat, sleeper), back)
    }
}
