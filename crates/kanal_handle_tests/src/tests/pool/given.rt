//! What the tests of the pool share: jobs, and the comparison of an answer with the expected one.
ghost use Rattle.std.specs.Prelude.{◌*◌, ◌≡◌, true};
ghost use Rattle.kanal_pool.specs.Equality.{equal_fields};

use kanal_pool::{Job, NoMemory, PoolError};
use std::alloc::AllocGlobal;
use std::process::Abort;

/// The square of a number.
#[derive(Clone, Copy, Debug, PartialEq, Eq)]
pub struct Square(pub u32);

impl Job for Square {
    type Answer = u64;

    ghost value = { λ square. square.0 * square.0 };

    fn work(&self) -> Result<u64, NoMemory> {
        let side = u64::from(self.0);
        Ok(side * side)
    }

    ghost equal_values = { Prim.search equal_fields };
}

/// A job whose work never finds memory.
#[derive(Clone, Copy, Debug, PartialEq, Eq)]
pub struct Starved;

impl Job for Starved {
    type Answer = u64;

    ghost value = { λ _. 0 };

    fn work(&self) -> Result<u64, NoMemory> {
        Err(NoMemory)
    }

    ghost equal_values = { Prim.search equal_fields };
}

/// The squares to be found, of 0 up to the number before the end.
pub fn squares(rt: &(impl Abort + AllocGlobal), end: u32) -> Vec<Square> {
    let mut jobs = Vec::new(rt.alloc());
    for number in 0..end {
        jobs.push(Square(number)).expect(rt, "memory for a job");
    }
    jobs
}

/// Ends the test unless these are the answers.
pub fn gives(rt: &impl Abort, answer: Result<Vec<u64>, PoolError>, expected: &[u64]) {
    match answer {
        Ok(found) => assert_eq!(rt; found.as_slice(), expected),
        Err(error) => assert!(rt; false, "{error}"),
    }
}

/// Ends the test unless the pool was refused for this reason.
pub fn refuses(rt: &impl Abort, answer: Result<Vec<u64>, PoolError>, expected: PoolError) {
    match answer {
        Ok(_found) => assert!(rt; false, "it was not refused"),
        Err(error) => assert_eq!(rt; error, expected),
    }
}
