//! Clocks for timed calls: the trait by which one is handed in, the system's, and one for tests.
//!
//! A timed call reads its clock with the lock released. `answers t` holds only of moments that `now` answered.
ghost use Rattle.std.specs.Prelude.{ℕ};

use std::cell::Cell;
use std::time;
use std::time::Instant;

/// Tells the moments by which a timed call measures its deadline.
///
/// # Examples
/// ```text
/// struct Still;
/// impl Clock for Still {
///     fn now(&self) -> u64 { 0 }
/// }
/// sender.send_timeout(&rt, 7, Duration::from_nanos(1), &Still)
/// ```
pub trait Clock {
    /// The clock has answered this moment. It is a word for contracts, which an impl can leave out.
    ghost answers: { Self → ℕ → Type 0 } = { λ _ _. Unit {0} };

    /// The moment now, in nanoseconds from a start of the clock's own choice.
    fn now(&self) -> u64
        ensures answered { answers self.now result };
}

/// The system's monotonic clock. Its moments are the nanoseconds since it was made.
///
/// Where the system's clock can't be read the moment is `u64::MAX`, so that waits end.
///
/// # Examples
/// ```text
/// let clock = SystemClock::new(&rt);
/// receiver.recv_timeout(&rt, Duration::from_millis(50), &clock)
/// ```
#[derive(Drop)]
pub struct SystemClock<'a, R: time::Clock> {
    rt: &'a R,
    start: Option<Instant>,
}

impl<'a, R: time::Clock> SystemClock<'a, R> {
    /// A clock that begins now.
    pub fn new(rt: &'a R) -> Self {
        let start = Instant::now(rt).ok();
        SystemClock { rt, start }
    }
}

impl<R: time::Clock> Clock for SystemClock<'_, R> {
    fn now(&self) -> u64 {
        let Some(start) = self.start else {
            return u64::MAX;
        };
        match start.elapsed(self.rt) {
            Ok(passed) => u64::try_from(passed.as_nanos()).unwrap_or(u64::MAX),
            Err(_) => u64::MAX,
        }
    }
}

/// A clock for tests, which tells what the test says: it stands still, or rises at each read.
///
/// A call that waits by a clock which stands still waits until its outcome comes.
///
/// # Examples
/// ```text
/// receiver.recv_timeout(&rt, Duration::from_nanos(9), &TestClock::rising())   answers  Err(Timeout)
/// let clock = TestClock::still(5);
/// clock.advance(2);
/// clock.now()   answers  7
/// ```
#[derive(Drop)]
pub struct TestClock {
    moment: Cell<u64>,
    step: u64,
}

impl TestClock {
    /// A clock that stands at this moment, in nanoseconds.
    pub fn still(moment: u64) -> Self {
        TestClock {
            moment: Cell::new(moment),
            step: 0,
        }
    }

    /// A clock that tells 0 first, and one nanosecond more at each read.
    pub fn rising() -> Self {
        TestClock {
            moment: Cell::new(0),
            step: 1,
        }
    }

    /// Sets the clock forward by so many nanoseconds, at most to the largest moment.
    pub fn advance(&self, nanoseconds: u64) {
        let moment = self.moment.get();
        self.moment.set(moment.saturating_add(nanoseconds));
    }
}

impl Clock for TestClock {
    fn now(&self) -> u64 {
        let now = self.moment.get();
        self.advance(self.step);
        now
    }
}
