//! What the tests share: a channel, tasks, and the comparison of an answer with the expected one.
//!
//! Each ends the test by itself, so that a test has nothing to hand out where something is missing.
ghost use Rattle.std.specs.Prelude.{◌≡◌, true};
ghost use Rattle.kanal_events.specs.StepResult.{may_wait};

use futures::test::MockTask;
use kanal::{AsyncReceiver, AsyncSender};
use kanal_channel::Shared;
use kanal_core::internal::ChannelInternal;
use kanal_events::event::{Ask, Event, Reply, Side};
use kanal_state::{CountedReceiver, CountedSender, NoHistory};
use std::alloc::AllocGlobal;
use std::fmt::Debug;
use std::process::Abort;
use std::random::RandomSource;
use std::sync::{Arc, Wait};

/// Ends the test, and shows both values, unless the answer is the expected one.
pub fn equal<A: PartialEq + Debug + Drop>(rt: &impl Abort, answer: A, expected: A) {
    assert_eq!(rt; answer, expected);
}

/// Ends the test unless the fact holds.
pub fn holds(rt: &impl Abort, fact: bool) {
    assert!(rt; fact);
}

/// A channel with so many places, one sender and one receiver.
pub fn channel<T: Drop>(rt: &(impl Abort + AllocGlobal), capacity: usize) -> Shared<T, NoHistory> {
    let core = ChannelInternal::new(rt.alloc(), capacity).expect(rt, "a core");
    Shared::new(core, NoHistory, (), (), rt.alloc())
}

/// The handles of a channel with so many places.
pub fn handles<T: Drop>(
    rt: &(impl Abort + AllocGlobal),
    capacity: usize,
) -> (AsyncSender<T>, AsyncReceiver<T>) {
    kanal::bounded_async(rt.alloc(), capacity).expect(rt, "a channel")
}

/// A channel with so many places, for two threads.
pub fn common<T: Drop>(
    rt: &(impl Abort + AllocGlobal),
    capacity: usize,
) -> (Arc<Shared<T, NoHistory>>, Arc<Shared<T, NoHistory>>) {
    let first = Arc::new(rt.alloc(), channel(rt, capacity)).expect(rt, "a channel");
    let second = Arc::try_clone(&first).expect(rt, "one more");
    (first, second)
}

/// A channel with so many places, and the tokens of its first sender and first receiver.
pub fn with_tokens<T: Drop>(
    rt: &(impl Abort + AllocGlobal),
    capacity: usize,
) -> (Arc<Shared<T, NoHistory>>, CountedSender, CountedReceiver) {
    let core = ChannelInternal::new(rt.alloc(), capacity).expect(rt, "a core");
    let made = Shared::with_handles(core, NoHistory, (), (), rt.alloc());
    let (shared, first) = made.expect(rt, "a channel");
    let (sender, receiver) = first.into_tokens();
    (shared, sender, receiver)
}

/// How many senders and how many receivers there are.
pub fn counts<T: Drop, R: Wait>(rt: &R, shared: &Shared<T, NoHistory>) -> (u32, u32) {
    let senders = shared.ask_count(rt, &mut (), Side::Tx, Ask::SenderCount);
    (
        senders,
        shared.ask_count(rt, &mut (), Side::Rx, Ask::ReceiverCount),
    )
}

/// Makes a call that need not wait under the lock, calls `held` before the lock is released and `between`
/// after it, and only then tells who has to be told of the call. The reply; none, and neither is called, where
/// the call must wait.
pub fn tell_late<R: Wait, T: Drop, F: FnOnce(), G: FnOnce()>(
    rt: &R,
    shared: &Shared<T, NoHistory>,
    event: Event<T>,
    held: F,
    between: G,
) -> Option<Reply<T>>
    requires waits { may_wait event ≡ true }
    requires held { F.IsAlwaysCallable held }
    requires between { G.IsAlwaysCallable between }
{
    let mut pass = ();
    let mut locked = shared.lock(rt);
    match locked.state.start(shared.log(), &mut pass, event) {
        Ok(answered) => {
            held();
            let (released, due) = locked.unlock();
            between();
            let (reply, owed) = answered.open(&released).into_parts();
            if let Some(owed) = owed {
                drop(owed.tell((), &released));
            }
            shared.drain_notices(due);
            Some(reply)
        },
        Err(_event) => {
            locked.unlock_and_drain();
            None
        },
    }
}

/// A task that is polled by hand.
pub fn new_task(rt: &(impl Abort + RandomSource + AllocGlobal)) -> MockTask {
    MockTask::new(rt).expect(rt, "a task")
}
