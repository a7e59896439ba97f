//! How a call passes the time between its tries of a lock that is held.
//!
//! The pauses of a round grow; a nap stands between two rounds. Whoever gets the lock meanwhile holds it for less
//! than a microsecond, unless the system took the processor from it.
use super::WaitPolicy;
use crate::pauses::pause;
use std::sync::Wait;
use std::thread::Parker;
use std::time::Duration;

const ROUND: u32 = 5;

/// How long a call naps at first, in nanoseconds; the system makes that some fifty thousand.
const FIRST_NAP: u64 = 1_000;

/// How long it naps each further time, in nanoseconds.
const LATER_NAP: u64 = 20_000;

/// A call that finds a lock held. Each pause of a round is twice as long as the one before.
///
/// # Examples
/// ```text
/// let contention = Contention::new(&policy);
/// for tries in 0..LOCK_TRIES {
///     contention.pause(&rt, tries);
///     ..
/// }
/// ```
#[derive(Drop)]
pub struct Contention {
    first_pause: u32,
    napper: Parker,
}

/// How often a call tries a lock that is held before it sleeps until the lock is released.
pub const LOCK_TRIES: u32 = 80;

impl Contention {
    /// Of a call that has found the lock of a channel with this policy held once.
    pub fn new(policy: &WaitPolicy) -> Self {
        Contention {
            first_pause: policy.first_pause(),
            napper: Parker::new(),
        }
    }

    /// Passes the time before a try, of which so many were made: by a pause, after a nap between two rounds.
    pub fn pause<R: Wait>(&self, rt: &R, tries: u32) {
        let turn = tries % ROUND;
        if turn == 0 && tries > 0 {
            let nap = if tries == ROUND { FIRST_NAP } else { LATER_NAP };
            self.napper.park_timeout(rt, Duration::from_nanos(nap));
        }
        pause(self.first_pause.saturating_add(turn));
    }
}
