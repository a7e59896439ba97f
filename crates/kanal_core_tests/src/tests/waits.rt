//! Calls on a core that several modules share.
//!
//! What takes `rt` ends the test unless the call answers so.
use crate::tests::given::{core_of, holds};
use kanal_core::error::WaitError;
use kanal_core::internal::{ChannelInternal, Ended, Offer, Outcome, Take, Ticket};
use std::alloc::AllocGlobal;
use std::process::Abort;

/// The message enters.
pub fn enter<T: Drop, W: Drop>(rt: &impl Abort, core: &mut ChannelInternal<T, W>, message: T) {
    holds(rt, matches!(core.offer(message), Offer::Entered));
}

/// A core with one place, which the message 1 fills.
pub fn filled<W: Drop>(rt: &(impl Abort + AllocGlobal)) -> ChannelInternal<u64, W> {
    let mut core = core_of(rt, 1);
    enter(rt, &mut core, 1);
    core
}

/// What the wait of a send answers, which gives message and W back where it is refused.
pub type SendWait<T, W> = Result<Ticket, (WaitError, T, W)>;

/// What the wait of a send answers that finds no place.
pub fn sent<T: Drop, W: Drop>(
    core: &mut ChannelInternal<T, W>,
    message: T,
    w: W,
) -> Option<SendWait<T, W>> {
    match core.offer(message) {
        Offer::Full(back) => Some(core.wait_send(back, w)),
        _ => None,
    }
}

/// A send finds no place, and waits with this ticket.
pub fn send<T: Drop, W: Drop>(
    rt: &impl Abort,
    core: &mut ChannelInternal<T, W>,
    message: T,
    w: W,
) -> Ticket {
    let answer = sent(core, message, w).expect(rt, "the send finds no place");
    answer.ok().expect(rt, "the send waits")
}

/// What the wait of a receive answers, which gives the W back where it is refused.
pub type RecvWait<W> = Result<Ticket, (WaitError, W)>;

/// What the wait of a receive answers that finds no message.
pub fn received<W: Drop>(core: &mut ChannelInternal<u64, W>, w: W) -> Option<RecvWait<W>> {
    match core.take() {
        Take::Empty => Some(core.wait_recv(w)),
        _ => None,
    }
}

/// A receive finds no message, and waits with this ticket.
pub fn receive<W: Drop>(rt: &impl Abort, core: &mut ChannelInternal<u64, W>, w: W) -> Ticket {
    let answer = received(core, w).expect(rt, "the receive finds no message");
    answer.ok().expect(rt, "the receive waits")
}

/// What the next wait that ended brought, and its outcome.
pub fn next_end(ended: &mut Ended<u64, Box<u32>>) -> Option<(u32, Outcome<u64>)> {
    match ended.next() {
        Some(settled) => Some((*settled.w, settled.outcome)),
        None => None,
    }
}
