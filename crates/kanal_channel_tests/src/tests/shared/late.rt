//! A message that is handed over after the deadline and before the withdrawal.
use crate::tests::given::{channel, equal, holds, tell_late};
use crate::tests::shared::ended::begins;
use kanal_channel::{Clock, Shared};
use kanal_events::event::{Event, Reply};
use kanal_state::NoHistory;
use std::sync::Wait;
use std::sync::atomic::AtomicU64;
use std::sync::atomic::Ordering::SeqCst;
use std::thread;
use std::time::Duration;

/// How often a test looks at the clock's reads before it gives up.
const LOOKS: u32 = 10_000_000;

/// For how many turns the receiver may look for its entry before its wait is settled.
const TURNS: u32 = 5_000;

/// A clock that stands at 0 until it is crossed, and counts how often it is read after that.
#[derive(Drop)]
struct Crossed {
    moment: AtomicU64,
    late: AtomicU64,
}

impl Clock for Crossed {
    fn now(&self) -> u64 {
        let now = self.moment.load(SeqCst);
        self.late.fetch_add(now, SeqCst);
        now
    }
}

/// Waits until the clock was read after it was crossed.
fn was_read(clock: &Crossed) {
    for _ in 0..LOOKS {
        if clock.late.load(SeqCst) > 0 {
            return;
        }
        thread::yield_now();
    }
}

/// Hands 7 to the receiver that waits, once its clock was read past the deadline, and settles its wait
/// some turns after the lock was released.
fn serve_late<R: Wait>(rt: &R, shared: &Shared<u64, NoHistory>, clock: &Crossed) -> bool {
    if !begins(rt, shared) {
        return false;
    }
    let reply = tell_late(
        rt,
        shared,
        Event::Send(7),
        || {
            clock.moment.store(1, SeqCst);
            was_read(clock);
        },
        || {
            for _ in 0..TURNS {
                thread::yield_now();
            }
        },
    );
    matches!(reply, Some(Reply::Sent))
}

#[test]
fn a_message_in_flight_at_the_deadline_is_received(rt: HostRuntime) {
    let shared = channel::<u64>(&rt, 0);
    let clock = Crossed {
        moment: AtomicU64::new(0),
        late: AtomicU64::new(0),
    };
    let (got, served) = thread::join(
        &rt,
        || shared.recv_timeout(&rt, &mut (), Duration::from_nanos(1), &clock),
        || serve_late(&rt, &shared, &clock),
    );
    holds(&rt, served);
    equal(&rt, got, Ok(7));
}
