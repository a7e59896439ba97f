//! A drain again and again, until no sender is left.
use crate::tests::given::{TURNS, equal};
use crate::tests::sync::given::{new, send_one};
use kanal::{Receiver, Sender};
use std::alloc::AllocGlobal;
use std::process::Abort;
use std::sync::Wait;
use std::thread;

/// Sends 0 to 999, and drops the sender.
fn send_thousand<R: Wait + Abort>(rt: &R, s: Sender<u64>) {
    for number in 0..1000 {
        send_one(rt, &s, number);
    }
}

/// Drains again and again, and waits where nothing is there. What came.
fn drain_all<R: Wait + Abort + AllocGlobal>(rt: &R, r: &Receiver<u64>) -> Vec<u64> {
    let mut came = Vec::new(rt.alloc());
    for _ in 0..TURNS {
        let Ok(count) = r.drain_into(rt, &mut came) else {
            break;
        };
        if count == 0 {
            let Ok(number) = r.recv(rt) else {
                break;
            };
            came.push(number).expect(rt, "memory for a number");
        }
    }
    came
}

#[test]
fn drain_into(rt: HostRuntime) {
    let (s, r) = new::<u64>(&rt, Some(1000));
    let ((), numbers) = thread::join(&rt, move || send_thousand(&rt, s), || drain_all(&rt, &r));
    equal(&rt, numbers.len(), 1000);
    for (number, came) in (0u64..).zip(numbers.iter()) {
        equal(&rt, *came, number);
    }
}
