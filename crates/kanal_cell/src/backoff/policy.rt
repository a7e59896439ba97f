//! How a blocked call passes the time between its looks at its cell, and how long it first pauses at a held lock.
//!
//! A yield hands the processor to any ready thread: one of this channel gives it back within a microsecond, another
//! may keep it for milliseconds. So a call yields on credit alone, which the channel gets from waits that end
//! before they sleep.
use crate::pauses::spin;
use crossbeam_utils::Backoff;
use std::sync::atomic::AtomicU64;
use std::sync::atomic::Ordering::SeqCst;
use std::thread;

/// From how many places on a buffer is long.
const LONG: usize = 128;

/// How often a call pauses before it yields or sleeps, where the buffer is short.
const PAUSES: u32 = 23;

/// How often it pauses where the buffer is long: whoever has the processor meanwhile fills it or empties it.
const FEW_PAUSES: u32 = 14;

const YIELDS: u32 = 4;

/// How much credit a call needs to yield, where the buffer is short. A wait that ended before it slept gives 1.
const COST: u64 = 8;

/// How much credit it needs where the buffer is long.
const LOW_COST: u64 = 2;

/// How much credit a channel has at most.
const MOST: u64 = 64;

/// The first pause of a call that finds the lock held, as a power of two of spins, where the buffer is short.
const FIRST_PAUSE: u32 = 5;

/// The first pause where the buffer is long: more tries take the lock's line from who has the lock.
const LONG_FIRST_PAUSE: u32 = 6;

/// How often a blocked call spins before its second look: 63 turns.
const SECOND_LOOK: u32 = 6;

/// How often it spins after that where the buffer has several places, so that the other side fills or empties more
/// of them: 15 turns, and 63 from `SEVERAL` places on.
const FURTHER: u32 = 4;

const MUCH_FURTHER: u32 = 6;

const SEVERAL: usize = 16;

/// How the calls of one channel wait: for the lock, and for their outcome before they sleep. All of them share it.
///
/// It is advice alone: whatever it says, a call looks at its cell before it sleeps.
///
/// # Examples
/// ```text
/// let policy = WaitPolicy::new(1);
/// waiting.outcome(&rt, &policy, &Never)   answers  Ok(7)   when another thread has settled with 7
/// ```
#[derive(Drop)]
pub struct WaitPolicy {
    first_pause: u32,
    further: u32,
    pauses: u32,
    cost: u64,
    credit: AtomicU64,
}

impl WaitPolicy {
    /// Of a channel whose buffer has so many places. It has no credit yet.
    pub fn new(places: usize) -> Self {
        let (first_pause, pauses, cost) = if places < LONG {
            (FIRST_PAUSE, PAUSES, COST)
        } else {
            (LONG_FIRST_PAUSE, FEW_PAUSES, LOW_COST)
        };
        let further = match places {
            0 | 1 => 0,
            2..SEVERAL => FURTHER,
            _ => MUCH_FURTHER,
        };
        WaitPolicy {
            first_pause,
            further,
            pauses,
            cost,
            credit: AtomicU64::new(0),
        }
    }

    pub(super) fn first_pause(&self) -> u32 {
        self.first_pause
    }

    /// Pauses before a blocked call looks once more for a place or a message, where there is a buffer.
    pub fn pause_once(&self) {
        spin(SECOND_LOOK);
        spin(self.further);
    }

    fn add_credit(&self) {
        let credit = self.credit.load(SeqCst);
        if credit < MOST {
            self.credit.store(credit + 1, SeqCst);
        }
    }

    fn take_credit(&self) -> bool {
        let credit = self.credit.load(SeqCst);
        if credit < self.cost {
            return false;
        }
        self.credit.store(credit - self.cost, SeqCst);
        true
    }
}

/// How often one call has looked at its cell.
#[derive(Drop)]
pub(super) struct Looks<'a> {
    policy: &'a WaitPolicy,
    count: u32,
    pauses: Backoff,
}

impl<'a> Looks<'a> {
    pub(super) fn new(policy: &'a WaitPolicy) -> Self {
        Looks {
            policy,
            count: 0,
            pauses: Backoff::new(),
        }
    }

    /// The call found its outcome.
    pub(super) fn end(self) {
        self.policy.add_credit();
    }

    /// Passes the time until the next look, and answers whether there is one: it pauses, yields where there
    /// is credit, and then there is none, and the call sleeps.
    pub(super) fn snooze(&mut self) -> bool {
        let count = self.count;
        self.count = count.saturating_add(1);
        let pauses = self.policy.pauses;
        if count < pauses {
            self.pauses.spin();
            return true;
        }
        if count == pauses && !self.policy.take_credit() {
            return false;
        }
        if count - pauses < YIELDS {
            thread::yield_now();
            return true;
        }
        false
    }
}
