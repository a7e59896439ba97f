//! The messages of the tests: boxes, a message that counts its drop, values with padding, and a
//! message of size 0.
use super::given::equal;
use std::alloc::{AllocGlobal, Global};
use std::process::Abort;
use std::sync::Arc;
use std::sync::atomic::AtomicU64;
use std::sync::atomic::Ordering::SeqCst;

/// A box round the number.
pub fn boxed(rt: &(impl Abort + AllocGlobal), number: u64) -> Box<u64> {
    Box::new(rt.alloc(), number).expect(rt, "memory for a box")
}

/// The vector of 1, 2 and 3.
pub fn one_two_three(rt: &(impl Abort + AllocGlobal)) -> Vec<u64> {
    vec![in rt.alloc(); 1, 2, 3].expect(rt, "memory for a vector")
}

/// Adds one to the counter when it is dropped.
pub struct DropTester {
    drops: Arc<AtomicU64, Global>,
}

impl DropTester {
    /// A message for this counter.
    pub fn new(rt: &impl Abort, drops: &Arc<AtomicU64, Global>) -> Self {
        DropTester {
            drops: Arc::try_clone(drops).expect(rt, "a count of the counter"),
        }
    }
}

impl Drop for DropTester {
    fn drop(self) {
        let DropTester { drops } = self;
        drops.fetch_add(1, SeqCst);
    }
}

/// Ends the test unless so many messages were dropped.
pub fn dropped(rt: &impl Abort, drops: &AtomicU64, expected: u64) {
    equal(rt, drops.load(SeqCst), expected);
}

/// A value with padding, laid out as the compiler likes.
#[derive(Drop, Clone, Copy, Debug, PartialEq, Eq)]
pub struct Padded {
    pub a: bool,
    pub b: u8,
    pub c: u32,
}

/// A value with padding, laid out as in C.
#[repr(C)]
#[derive(Drop, Clone, Copy, Debug, PartialEq, Eq)]
pub struct PaddedReprC {
    pub a: bool,
    pub b: u8,
    pub c: u32,
}

/// A message of size 0, with the largest alignment that can be had.
pub type NoBytes = [u128; 0];
