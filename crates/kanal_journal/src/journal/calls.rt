//! One event, made on a core.
//!
//! To the steps of `kanal_events` it adds the tickets that were given, at their numbers, and the live handles. What
//! left the core comes back with the reply; nothing is settled or kept here.
ghost use Rattle.std.specs.Prelude.{◌≡◌, ◌+◌, ◌<◌, ◌≤◌, true, length, vec_len, vec_capacity};
ghost use Rattle.kanal_core.specs.Channel.{line_of};
ghost use Rattle.kanal_events.specs.Steps.{Tells};
ghost use Rattle.kanal_events.specs.Given.{GivesNone};
ghost use Rattle.kanal_events.specs.StepResult.{may_wait, reply_of, told_of};
ghost use Rattle.kanal_journal.specs.Runs.{has_handle, has_side, handles_after};
ghost use Rattle.kanal_journal.specs.Given.{AreGiven, AreFew};
ghost use Rattle.kanal_journal.specs.StepResult.{StepPost, ServedPost};
ghost use Rattle.kanal_events.specs.declared.event.Side.TheVariants.{Tx, Rx};

use super::handles::Handles;
use kanal_core::internal::{ChannelInternal, Ticket};
use kanal_events::event::{Event, Refusal, Reply};
use kanal_events::step_result::{Placement, StepResult};
use kanal_events::steps;

/// A core on which nobody brings anything to a wait.
pub(crate) type JournalCore<T> = ChannelInternal<T, ()>;

pub(crate) type JournalStep<T> = StepResult<T, ()>;

fn wait<T: Drop>(
    core: &mut JournalCore<T>,
    tickets: &mut Vec<Ticket>,
    event: Event<T>,
) -> JournalStep<T>
    requires waits { may_wait event ≡ true }
    requires room { vec_len tickets.old < vec_capacity tickets.old }
    requires given { AreGiven tickets.old.items core.old }
    ensures told { Tells (line_of core.old) event (told_of (line_of core.new) result) }
    ensures given { AreGiven tickets.new.items core.new }
    ensures room { vec_capacity tickets.new ≡ vec_capacity tickets.old }
    ensures one { vec_len tickets.new ≤ vec_len tickets.old + 1 }
{
    let (made, kept) = steps::make_waiting(core, event, ());
    match kept {
        Placement::Ticket(ticket) => tickets.push_reserved(ticket),
        Placement::Back(_nothing) => {},
    }
    made
}

fn withdraw<T: Drop>(core: &mut JournalCore<T>, tickets: &[Ticket], number: u64) -> JournalStep<T>
    requires { AreGiven tickets.now core.old }
    ensures told { Tells (line_of core.old) (Event.Withdraw number)
        (told_of (line_of core.new) result) }
    ensures tickets { GivesNone core.old core.new }
{
    let Some(ticket) = tickets.get(number as usize) else {
        core.holds();
        return StepResult::replied(Reply::Refused(Refusal::NotWaiting, None));
    };
    match steps::withdraw(core, *ticket) {
        Some(waiter) => StepResult::replied(Reply::Withdrawn(waiter.message)),
        None => StepResult::replied(Reply::Refused(Refusal::NotWaiting, None)),
    }
}

fn clone_tx<T: Drop>(core: &mut JournalCore<T>, handles: &mut Handles) -> JournalStep<T>
    requires { AreFew handles.old }
    ensures told { Tells (line_of core.old) Event.CloneTx (told_of (line_of core.new) result) }
    ensures handles { handles.new ≡ handles_after handles.old Event.CloneTx (reply_of result) }
    ensures tickets { GivesNone core.old core.new }
{
    let made = steps::make(core, Event::CloneTx);
    if made.is_done() {
        handles.tx += 1;
    }
    made
}

fn clone_rx<T: Drop>(core: &mut JournalCore<T>, handles: &mut Handles) -> JournalStep<T>
    requires { AreFew handles.old }
    ensures told { Tells (line_of core.old) Event.CloneRx (told_of (line_of core.new) result) }
    ensures handles { handles.new ≡ handles_after handles.old Event.CloneRx (reply_of result) }
    ensures tickets { GivesNone core.old core.new }
{
    let made = steps::make(core, Event::CloneRx);
    if made.is_done() {
        handles.rx += 1;
    }
    made
}

fn drop_tx<T: Drop>(core: &mut JournalCore<T>, handles: &mut Handles) -> JournalStep<T>
    requires { has_side handles.old Tx ≡ true }
    ensures told { Tells (line_of core.old) Event.DropTx (told_of (line_of core.new) result) }
    ensures handles { handles.new ≡ handles_after handles.old Event.DropTx (reply_of result) }
    ensures tickets { GivesNone core.old core.new }
{
    let made = steps::make(core, Event::DropTx);
    if made.is_done() {
        handles.tx -= 1;
    }
    made
}

fn drop_rx<T: Drop>(core: &mut JournalCore<T>, handles: &mut Handles) -> JournalStep<T>
    requires { has_side handles.old Rx ≡ true }
    ensures told { Tells (line_of core.old) Event.DropRx (told_of (line_of core.new) result) }
    ensures handles { handles.new ≡ handles_after handles.old Event.DropRx (reply_of result) }
    ensures tickets { GivesNone core.old core.new }
{
    let made = steps::make(core, Event::DropRx);
    if made.is_done() {
        handles.rx -= 1;
    }
    made
}

#[tactic(auto, using(crate::proofs::Giving::still_given))]
fn make<T: Drop>(
    core: &mut JournalCore<T>,
    tickets: &mut Vec<Ticket>,
    handles: &mut Handles,
    drained: &mut Vec<T>,
    event: Event<T>,
) -> JournalStep<T>
    requires handle { has_handle handles.old event ≡ true }
    requires few { AreFew handles.old }
    requires room { vec_len tickets.old < vec_capacity tickets.old }
    requires given { AreGiven tickets.old.items core.old }
    requires drains { vec_len drained.old + length (line_of core.old).line
        ≤ vec_capacity drained.old }
    ensures made { StepPost (line_of core.old) event (line_of core.new) drained.old.items
        drained.new.items result }
    ensures handles { handles.new ≡ handles_after handles.old event (reply_of result) }
    ensures given { AreGiven tickets.new.items core.new }
    ensures room { (vec_capacity tickets.new ≡ vec_capacity tickets.old)
        × (vec_capacity drained.new ≡ vec_capacity drained.old) }
    ensures one { vec_len tickets.new ≤ vec_len tickets.old + 1 }
{
    match event {
        Event::Send(message) => wait(core, tickets, Event::Send(message)),
        Event::Recv => wait(core, tickets, Event::Recv),
        Event::Drain => steps::drain(core, drained),
        Event::Withdraw(number) => withdraw(core, tickets, number),
        Event::CloneTx => clone_tx(core, handles),
        Event::CloneRx => clone_rx(core, handles),
        Event::DropTx => drop_tx(core, handles),
        Event::DropRx => drop_rx(core, handles),
        event => steps::make(core, event),
    }
}

/// Makes one event, if its side has a live handle.
pub(crate) fn answer<T: Drop>(
    core: &mut JournalCore<T>,
    tickets: &mut Vec<Ticket>,
    handles: &mut Handles,
    drained: &mut Vec<T>,
    event: Event<T>,
) -> JournalStep<T>
    requires few { AreFew handles.old }
    requires room { vec_len tickets.old < vec_capacity tickets.old }
    requires given { AreGiven tickets.old.items core.old }
    requires drains { vec_len drained.old + length (line_of core.old).line
        ≤ vec_capacity drained.old }
    ensures answered { ServedPost handles.old (line_of core.old) event (line_of core.new)
        drained.old.items drained.new.items result }
    ensures handles { handles.new ≡ handles_after handles.old event (reply_of result) }
    ensures given { AreGiven tickets.new.items core.new }
    ensures room { (vec_capacity tickets.new ≡ vec_capacity tickets.old)
        × (vec_capacity drained.new ≡ vec_capacity drained.old) }
    ensures one { vec_len tickets.new ≤ vec_len tickets.old + 1 }
{
    if handles.serve(&event) {
        make(core, tickets, handles, drained, event)
    } else {
        StepResult::replied(event.refused(Refusal::NoHandle))
    }
}
