//! Pauses that keep the processor: by the spins of `crossbeam_utils::Backoff`, and at a held lock by longer ones.
//!
//! Nothing else may make a poll wait.
use crossbeam_utils::Backoff;
use std::hint;

/// The longest pause at a held lock, as a power of two of turns.
const LONGEST: u32 = 10;

/// How often a poll that finds the lock held spins at first.
const POLL_SPINS: u32 = 4;

/// How much more often the next spins that finds it held, too.
const POLL_GROWTH: u32 = 3;

/// How often such a poll spins at most: 895 turns.
const MOST_POLL_SPINS: u32 = 19;

/// Spins so often: each time twice as long as before, and 64 turns at most.
pub(crate) fn spin(times: u32) {
    let backoff = Backoff::new();
    for _ in 0..times {
        backoff.spin();
    }
}

/// Spins for two to this power turns, and for 1,024 at most, of which `Backoff` has 64.
pub(crate) fn pause(power: u32) {
    for _ in 0..1u32 << power.min(LONGEST) {
        hint::spin_loop();
    }
}

/// How long a future pauses whose polls find the lock held, one after the other.
///
/// # Examples
/// ```text
/// let mut pauses = PollBackoff::new();
/// pauses.pause();   spins 15 turns
/// pauses.pause();   spins 127 turns
/// ```
#[derive(Copy, Clone)]
pub struct PollBackoff {
    spins: u32,
}

impl PollBackoff {
    /// Of a future whose last poll did not find the lock held.
    pub fn new() -> Self {
        PollBackoff { spins: POLL_SPINS }
    }

    /// Pauses, and longer at the next call.
    #[cold]
    pub fn pause(&mut self) {
        spin(self.spins);
        self.spins = self.spins.saturating_add(POLL_GROWTH).min(MOST_POLL_SPINS);
    }
}
