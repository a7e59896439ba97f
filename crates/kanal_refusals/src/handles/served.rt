//! Calls that wait until another serves them: a clock, when a timed call reads it, or a thread.
//!
//! All that a wait needs is asked for before it, so from then on they are answered as with ample memory.
use super::{HandleKit, ServedBy};
use crate::answer::{AnyAnswer, received_in_time, sent_in_time};
use crate::given::Message;
use kanal::{Clock, Receiver, Sender};
use std::alloc::AllocError;
use std::cell::Cell;
use std::sync::Wait;
use std::thread::{self, JoinHandle, Threads};
use std::time;
use std::time::Duration;

/// At which reading of its clock a call is served. It sleeps by then.
const SERVED_AT: u64 = 40;

/// How often a call reads its clock at most. It naps no longer than it must, so it reads once a nap.
const MOST: u64 = 43;

/// How long a call would wait, in seconds.
const HOUR: u64 = 3_600;

/// How often a thread tries to serve a call before it gives up.
const TRIES: u32 = 100_000_000;

/// How often the thread yields before its first try. Most often the blocked call sleeps by then.
const YIELDS: u32 = 1_000;

/// A clock that stands still, and at one reading serves the call that reads it.
#[derive(Drop)]
struct Serving<'a> {
    way: ServedBy,
    tx: &'a Sender<Message>,
    rx: &'a Receiver<Message>,
    readings: Cell<u64>,
    taken: Cell<Option<u64>>,
}

impl Clock for Serving<'_> {
    fn now(&self) -> u64 {
        let count = self.readings.get().saturating_add(1);
        self.readings.set(count);
        if count != SERVED_AT {
            return 0;
        }
        match self.way {
            ServedBy::Give(number) => {
                let counted = None;
                let _is_given = self.tx.try_send_realtime(Message { number, counted });
            },
            ServedBy::Take => {
                if let Ok(Some(message)) = self.rx.try_recv_realtime() {
                    self.taken.set(Some(message.number));
                }
            },
        }
        0
    }
}

impl<'a> Serving<'a> {
    /// One that wasn't read.
    fn new(way: ServedBy, tx: &'a Sender<Message>, rx: &'a Receiver<Message>) -> Self {
        Serving {
            way,
            tx,
            rx,
            readings: Cell::new(0),
            taken: Cell::new(None),
        }
    }

    /// This answer, if the call was served and ended soon after that.
    fn if_soon(&self, answer: AnyAnswer) -> AnyAnswer {
        let count = self.readings.get();
        if SERVED_AT <= count && count <= MOST {
            answer
        } else {
            AnyAnswer::Other
        }
    }
}

/// Tries to serve a call, and answers whether it did.
fn serves<R: Wait>(rt: &R, way: ServedBy, tx: &Sender<Message>, rx: &Receiver<Message>) -> bool {
    for _ in 0..TRIES {
        let is_served = match way {
            ServedBy::Give(number) => {
                let counted = None;
                tx.try_send(rt, Message { number, counted }) == Ok(true)
            },
            ServedBy::Take => matches!(rx.try_recv(rt), Ok(Some(_message))),
        };
        if is_served {
            return true;
        }
        thread::yield_now();
    }
    false
}

/// Starts a thread that serves two calls.
fn start_helper<R: Threads + Wait + Copy + Send + 'static>(
    rt: R,
    ways: (ServedBy, ServedBy),
    tx: Sender<Message>,
    rx: Receiver<Message>,
) -> Result<JoinHandle<bool>, AllocError> {
    let thread = thread::spawn(&rt, move || {
        for _ in 0..YIELDS {
            thread::yield_now();
        }
        serves(&rt, ways.0, &tx, &rx) && serves(&rt, ways.1, &tx, &rx)
    })?;
    Ok(thread)
}

/// A thread that serves two calls by clones of these ends, started again where it was refused.
pub fn helper<R: Threads + Wait + Copy + Send + 'static>(
    rt: R,
    ways: (ServedBy, ServedBy),
    tx: &Sender<Message>,
    rx: &Receiver<Message>,
) -> Option<JoinHandle<bool>> {
    let theirs = tx.as_async().clone_sync(&rt).ok()?;
    match start_helper(rt, ways, theirs, rx.as_async().clone_sync(&rt).ok()?) {
        Ok(thread) => Some(thread),
        Err(_refused) => {
            let theirs = tx.as_async().clone_sync(&rt).ok()?;
            start_helper(rt, ways, theirs, rx.as_async().clone_sync(&rt).ok()?).ok()
        },
    }
}

impl<R: Wait + time::Clock> HandleKit<'_, R> {
    /// A receive that is given its message while it sleeps.
    pub fn receive_asleep(&self, number: u64) -> AnyAnswer {
        let clock = Serving::new(ServedBy::Give(number), self.tx, self.rx);
        let answer = self
            .rx
            .recv_timeout(self.rt, Duration::from_secs(HOUR), &clock);
        match received_in_time(answer) {
            AnyAnswer::Got(got) => clock.if_soon(AnyAnswer::Got(got)),
            refused => refused,
        }
    }

    /// A send whose message is taken while it sleeps.
    pub fn send_asleep(&self, number: u64) -> AnyAnswer {
        let Some(message) = self.given.message(number) else {
            return AnyAnswer::Other;
        };
        let clock = Serving::new(ServedBy::Take, self.tx, self.rx);
        let answer = self
            .tx
            .send_timeout(self.rt, message, Duration::from_secs(HOUR), &clock);
        match (sent_in_time(answer), clock.taken.get()) {
            (AnyAnswer::Done, Some(taken)) => clock.if_soon(AnyAnswer::Got(taken)),
            (AnyAnswer::Done, None) => AnyAnswer::Other,
            (refused, _) => refused,
        }
    }
}
