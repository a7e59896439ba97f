//! What the tests share: tasks, and the comparison of an answer with the expected one.
//!
//! Each ends the test by itself, so that a test has nothing to hand out where something is missing.
use futures::test::MockTask;
use std::alloc::AllocGlobal;
use std::fmt::Debug;
use std::process::Abort;
use std::random::RandomSource;

/// Ends the test, and shows both values, unless the answer is the expected one.
pub fn equal<A: PartialEq + Debug + Drop>(rt: &impl Abort, answer: A, expected: A) {
    assert_eq!(rt; answer, expected);
}

/// Ends the test unless the fact holds.
pub fn holds(rt: &impl Abort, fact: bool) {
    assert!(rt; fact);
}

/// A task that is polled by hand.
pub fn new_task(rt: &(impl Abort + RandomSource + AllocGlobal)) -> MockTask {
    MockTask::new(rt).expect(rt, "a task")
}
