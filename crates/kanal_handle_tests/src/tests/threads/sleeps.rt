//! A blocked call gives its processor away: the system says that its thread sleeps.
use crate::tests::given::{ends, equal, holds};
use std::alloc::AllocGlobal;
use std::fs::{self, Files};
use std::process::Abort;
use std::thread;

/// How often the system is asked before the test fails.
const LOOKS: u32 = 20_000;

/// How often in a row the thread is to be found asleep, so that no short wait for the lock counts.
const IN_A_ROW: u32 = 100;

/// Whether the thread of this file falls asleep and stays so.
fn falls_asleep<R: Files + AllocGlobal + Abort>(rt: &R, file: &str) -> bool {
    let mut row = 0u32;
    for _ in 0..LOOKS {
        let told = fs::read_to_string(rt, file).expect(rt, "a state of the thread");
        row = if told.contains(") S ") {
            row.wrapping_add(1)
        } else {
            0
        };
        if row == IN_A_ROW {
            return true;
        }
        thread::yield_now();
    }
    false
}

/// The other thread tells first where the system tells of it.
#[test]
fn a_receive_that_waits_sleeps(rt: HostRuntime) {
    let (sender, receiver) = ends::<u64>(&rt, 0);
    let (files, told) = ends::<String>(&rt, 1);
    let thread = thread::spawn(&rt, move || {
        let link = fs::read_link(&rt, "/proc/thread-self").expect(&rt, "a folder of this thread");
        let name = link.to_str().expect(&rt, "a name that can be read");
        let file = format!(in rt.alloc(); "/proc/{name}/stat").expect(&rt, "memory for a name");
        equal(&rt, files.send(&rt, file), Ok(()));
        receiver.recv(&rt)
    });
    let thread = thread.expect(&rt, "a thread");
    let file = told.recv(&rt).expect(&rt, "a file");
    holds(&rt, falls_asleep(&rt, &file));
    equal(&rt, sender.send(&rt, 7), Ok(()));
    equal(&rt, thread.join(&rt), Ok(7));
}
