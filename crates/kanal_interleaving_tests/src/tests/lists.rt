//! All lists of at most so many steps, each of which has a number.
use std::alloc::AllocGlobal;
use std::process::Abort;

/// How many steps a list has at most.
const MOST_STEPS: u32 = 8;

/// The list with this number, of these kinds of steps.
///
/// Number 0 is the empty list. The numbers after it are the lists of one step, then come those of two,
/// and so on: each list has one number.
pub fn list_of<S: Copy>(rt: &(impl Abort + AllocGlobal), kinds: &[S], number: usize) -> Vec<S> {
    let mut list = Vec::new(rt.alloc());
    let base = kinds.len().max(1);
    let mut rest = number;
    for _ in 0..MOST_STEPS {
        if rest == 0 {
            break;
        }
        if let Some(step) = kinds.get((rest - 1) % base) {
            list.push(*step).expect(rt, "memory for a step");
        }
        rest = (rest - 1) / base;
    }
    list
}

/// The lists of at most five of ten steps.
pub const LISTS: usize = 111_111;

/// All of them, and those of at most five of nine steps among them, which have no seal.
pub const ALL: (u64, u64) = (111_111, 66_430);
