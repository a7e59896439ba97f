//! What runs with the lock released: drops of messages, which have another thread look whether the lock is
//! free, and the calls of loops, which try it.
use crate::tests::given::{common, equal, holds, new_task};
use futures::task::Poll;
use kanal::bounded;
use kanal_channel::Shared;
use kanal_core::error::ReceiveError;
use kanal_futures::send_future;
use kanal_state::NoHistory;
use std::alloc::{AllocGlobal, Global};
use std::process::Abort;
use std::random::RandomSource;
use std::sync::atomic::AtomicBool;
use std::sync::atomic::Ordering::SeqCst;
use std::sync::{Arc, Wait};
use std::thread;
use std::thread::{JoinHandle, Threads};

/// How often a thread looks for the other's word before it gives up.
const LOOKS: u32 = 10_000_000;

/// A look at the lock, which one thread asks for and another takes.
#[derive(Drop)]
struct Look {
    is_asked_for: AtomicBool,
    is_taken: AtomicBool,
    found_free: AtomicBool,
}

impl Look {
    /// Has the other thread look, and waits until it has.
    fn ask(&self) {
        self.is_asked_for.store(true, SeqCst);
        for _ in 0..LOOKS {
            if self.is_taken.load(SeqCst) {
                return;
            }
            thread::yield_now();
        }
    }

    /// Looks when it is asked to: a channel with a message in it, and one that is closed, answer
    /// nothing only while somebody holds the lock.
    fn take(&self, shared: &Shared<Asking, NoHistory>) {
        for _ in 0..LOOKS {
            if self.is_asked_for.load(SeqCst) {
                let is_free = !matches!(shared.try_recv_realtime(&mut ()), Ok(None));
                self.found_free.store(is_free, SeqCst);
                self.is_taken.store(true, SeqCst);
                return;
            }
            thread::yield_now();
        }
    }
}

/// A message that asks for a look while it is dropped, if it has one.
struct Asking {
    look: Option<Arc<Look, Global>>,
}

impl Drop for Asking {
    fn drop(self) {
        let Asking { look } = self;
        if let Some(look) = look {
            look.ask();
        }
    }
}

/// A channel with one place, a look that nobody has asked for, a message that asks for it, and the thread that
/// takes it.
type StartedLook = (
    Arc<Shared<Asking, NoHistory>>,
    Arc<Look, Global>,
    Asking,
    JoinHandle<()>,
);

fn start_look<R: Threads + Abort + AllocGlobal>(rt: &R) -> StartedLook {
    let (shared, other) = common(rt, 1);
    let look = Look {
        is_asked_for: AtomicBool::new(false),
        is_taken: AtomicBool::new(false),
        found_free: AtomicBool::new(false),
    };
    let look = Arc::new(rt.alloc(), look).expect(rt, "a look");
    let theirs = Arc::try_clone(&look).expect(rt, "one more");
    let message = Asking {
        look: Some(Arc::try_clone(&look).expect(rt, "one more")),
    };
    let thread = thread::spawn(rt, move || theirs.take(&other)).expect(rt, "a thread");
    (shared, look, message, thread)
}

#[test]
fn a_close_drops_its_messages_after_the_release(rt: HostRuntime) {
    let (shared, look, message, thread) = start_look(&rt);
    equal(&rt, shared.send(&rt, &mut (), message), Ok(()));
    equal(&rt, shared.close(&rt, &mut ()), Ok(()));
    thread.join(&rt);
    holds(&rt, look.found_free.load(SeqCst));
}

/// The second message waits behind the first, which the look takes. Its future is dropped, under the lock where
/// it is to leave a notice.
fn leave<R: Threads + Wait + Abort + RandomSource + AllocGlobal>(rt: &R, by_notice: bool) {
    let (shared, look, message, thread) = start_look(rt);
    let task = new_task(rt);
    let first = Asking { look: None };
    equal(rt, shared.send(rt, &mut (), first), Ok(()));
    let mut sending = send_future(&shared, message);
    equal(rt, task.poll(&mut sending), Poll::Pending);
    if by_notice {
        let locked = shared.lock(rt);
        drop(sending);
        locked.unlock_and_drain();
    } else {
        drop(sending);
    }
    thread.join(rt);
    holds(rt, look.found_free.load(SeqCst));
}

#[test]
fn a_future_that_leaves_drops_its_message_after_the_release(rt: HostRuntime) {
    leave(&rt, false);
    leave(&rt, true);
}

#[test]
fn loops_call_with_the_lock_released(rt: HostRuntime) {
    let (sender, receiver) = bounded::<u64>(rt.alloc(), 2).expect(&rt, "a channel");
    let other = receiver.clone(&rt).expect(&rt, "one more");
    equal(&rt, sender.send(&rt, 1), Ok(()));
    equal(&rt, sender.send(&rt, 2), Ok(()));
    let ended = receiver.try_for_each(&rt, |_message| Err::<(), _>(other.try_recv_realtime()));
    equal(&rt, ended, Ok(Err(Ok(Some(2)))));
    equal(&rt, sender.send(&rt, 3), Ok(()));
    drop(sender);
    let mut found = Ok(None);
    let ended = receiver.for_each(&rt, |_message| found = other.try_recv_realtime());
    equal(&rt, ended, Ok(()));
    equal(&rt, found, Err(ReceiveError::SendClosed));
}
