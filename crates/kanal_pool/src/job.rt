//! What a pool works on: jobs, and the gate that each job's work passes.
ghost use Rattle.std.specs.Prelude.{◌≡◌, true, IfOk, Bool};

use kanal::error::NoMemory;

/// A piece of work whose answer is known from the job alone.
///
/// `value` is that answer, as a definition; `work` finds it. Two jobs that are equal have one value, so a
/// job may borrow what it works on. A job whose work needs memory keeps its allocator.
///
/// # Examples
/// ```text
/// #[derive(Clone, Copy, Debug, PartialEq, Eq)]
/// struct Square(u32);
///
/// impl Job for Square {
///     type Answer = u64;
///
///     ghost value = { λ square. square.0 * square.0 };
///
///     fn work(&self) -> Result<u64, NoMemory> {
///         Ok(u64::from(self.0) * u64::from(self.0))
///     }
///
///     ghost equal_values = { Prim.search equal_fields };
/// }
/// ```
pub trait Job: Eq {
    /// What the work gives.
    type Answer: Drop;

    ghost value: { Self → Self.Answer };

    /// Does the work.
    ///
    /// # Errors
    /// `NoMemory` where the work found no memory.
    fn work(&self) -> Result<Self::Answer, NoMemory>
        ensures value { IfOk result (λ answer. answer ≡ value self.now) };

    ghost equal_values: { (one other : Self) → Self.eq one other ≡ true → value one ≡ value other };
}

/// What is told when a job's work begins and when it has ended, by the worker that does it.
///
/// Several workers may call it at once. It can print how far the pool is, or count.
///
/// # Examples
/// ```text
/// impl<R: Eprint> Gate for Progress<'_, R> {
///     fn enter(&self, _job: usize) {}
///
///     fn leave(&self, job: usize) {
///         let _told = eprintln!(self.rt; "job {job} is done");
///     }
/// }
/// ```
pub trait Gate {
    /// The work of the job with this number begins.
    fn enter(&self, job: usize);

    /// The work of the job with this number has ended, with an answer or without.
    fn leave(&self, job: usize);
}

/// A gate at which nothing happens.
#[derive(Clone, Copy, Debug, PartialEq, Eq)]
pub struct NoGate;

impl Gate for NoGate {
    fn enter(&self, _job: usize) {}

    fn leave(&self, _job: usize) {}
}
