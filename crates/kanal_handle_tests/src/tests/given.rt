//! What the tests share: the ends of a channel, and the comparison of an answer with the expected one.
//!
//! Each ends the test by itself, so that a test has nothing to hand out where something is missing.
use kanal::{Receiver, Sender, bounded};
use std::alloc::AllocGlobal;
use std::fmt::Debug;
use std::process::Abort;

/// Ends the test, and shows both values, unless the answer is the expected one.
pub fn equal<A: PartialEq + Debug + Drop>(rt: &impl Abort, answer: A, expected: A) {
    assert_eq!(rt; answer, expected);
}

/// Ends the test unless the fact holds.
pub fn holds(rt: &impl Abort, fact: bool) {
    assert!(rt; fact);
}

/// The ends of a channel with so many places.
pub fn ends<T: Drop>(rt: &(impl Abort + AllocGlobal), capacity: usize) -> (Sender<T>, Receiver<T>) {
    bounded(rt.alloc(), capacity).expect(rt, "a channel")
}
