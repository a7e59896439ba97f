//! The hand-over cell, through all lists of at most eight of five steps.
//!
//! The plain cell is compared with its history, which knows first places in the list alone; the running
//! cell is put through the lists in which no end is spent, and answers as the plain one replies.
ghost use Rattle.std.specs.Prelude.{◌≡◌};
ghost use Rattle.kanal_cell.specs.CellRule.{HasNotLeft, HasNotSettled, MaySleep};
ghost use Rattle.kanal_cell.specs.CellEnds.{wait_view, settle_view};

use crate::tests::given::equal;
use crate::tests::lists::list_of;
use crossbeam_utils::sync::{Parker, Unparker};
use kanal_cell::signal;
use kanal_cell::signal::{CellReply, CellStep, Owner, SettleEnd, WaitEnd, cell_run};
use std::alloc::AllocGlobal;
use std::mem;
use std::process::Abort;

/// The kinds of steps. A settle gets its place in the list as its outcome.
const STEPS: [CellStep; 5] = [
    CellStep::Sleep,
    CellStep::Settle(0),
    CellStep::Poll,
    CellStep::Leave,
    CellStep::IsLeft,
];

/// The lists of at most eight of five steps.
const LISTS: usize = 488_281;

/// The list with this number, whose settles carry their places.
fn steps_of(rt: &(impl Abort + AllocGlobal), number: usize) -> Vec<CellStep> {
    let mut list = list_of(rt, &STEPS, number);
    let mut place = 0u64;
    for step in list.iter_mut() {
        if let CellStep::Settle(_) = step {
            *step = CellStep::Settle(place);
        }
        place = place.wrapping_add(1);
    }
    list
}

/// A place in a list; `None` where no step is such.
type StepPlace = Option<usize>;

/// Whether this place comes before that step.
fn is_before(place: StepPlace, step: usize) -> bool {
    place.is_some_and(|place| place < step)
}

/// The first places in a list that its history speaks of.
#[derive(Drop)]
struct Places {
    sleep: StepPlace,
    settle: StepPlace,
    leave: StepPlace,
    taker: StepPlace,
    outcome: u64,
}

/// The first place of a step of this kind. A settle is such whatever it brings.
fn first(steps: &[CellStep], kind: CellStep) -> StepPlace {
    for (place, step) in steps.iter().enumerate() {
        let are_settles = matches!((step, kind), (CellStep::Settle(_), CellStep::Settle(_)));
        if *step == kind || are_settles {
            return Some(place);
        }
    }
    None
}

/// The first place after the settle that holds a poll or a leave or is the first sleep.
fn first_taker(steps: &[CellStep], settle: StepPlace, sleep: StepPlace) -> StepPlace {
    for (place, step) in steps.iter().enumerate() {
        let looks = matches!(step, CellStep::Poll | CellStep::Leave) || sleep == Some(place);
        if is_before(settle, place) && looks {
            return Some(place);
        }
    }
    None
}

impl Places {
    /// Those of this list. A leave before the settle leaves it without a taker.
    fn new(steps: &[CellStep]) -> Self {
        let settle = first(steps, CellStep::Settle(0));
        let sleep = first(steps, CellStep::Sleep);
        let leave = first(steps, CellStep::Leave);
        let is_settled_late = settle.is_some_and(|settle| is_before(leave, settle));
        let taker = if is_settled_late {
            None
        } else {
            first_taker(steps, settle, sleep)
        };
        Places {
            sleep,
            settle,
            leave,
            taker,
            outcome: settle.map_or(0, |place| place as u64),
        }
    }

    /// Whether the step at this place is a sleep that its end can still make.
    fn is_unspent_sleep(&self, place: usize) -> bool {
        self.sleep == Some(place) && !is_before(self.leave, place) && !is_before(self.taker, place)
    }

    /// Whether such a sleep comes before this place.
    fn is_asleep(&self, place: usize) -> bool {
        match self.sleep {
            Some(sleep) => sleep < place && self.is_unspent_sleep(sleep),
            None => false,
        }
    }

    /// The outcome, if this place is the taker's.
    fn taken_at(&self, place: usize) -> Option<u64> {
        if self.taker == Some(place) {
            Some(self.outcome)
        } else {
            None
        }
    }

    /// What the step at this place is replied.
    fn reply(&self, place: usize, step: CellStep) -> CellReply {
        let has_left = is_before(self.leave, place);
        let has_settled = is_before(self.settle, place);
        match step {
            CellStep::Sleep if !self.is_unspent_sleep(place) => CellReply::Spent,
            CellStep::Poll | CellStep::Leave if has_left => CellReply::Spent,
            CellStep::Settle(_) | CellStep::IsLeft if has_settled => CellReply::Spent,
            CellStep::Sleep => self
                .taken_at(place)
                .map_or(CellReply::Slept, CellReply::Outcome),
            CellStep::Poll => self
                .taken_at(place)
                .map_or(CellReply::Pending, CellReply::Outcome),
            CellStep::Leave => CellReply::Left(self.taken_at(place)),
            CellStep::IsLeft => CellReply::Flag(has_left),
            CellStep::Settle(outcome) => CellReply::Settled {
                woke: self.is_asleep(place),
                back: if has_left { Some(outcome) } else { None },
            },
        }
    }

    /// The word after a list of this length.
    fn word(&self, length: usize) -> u8 {
        let sleeping = if self.is_asleep(length) { 1u8 } else { 0 };
        let ended = if self.settle.is_some() { 2u8 } else { 0 };
        let left = if self.leave.is_some() { 4u8 } else { 0 };
        sleeping | ended | left
    }

    /// Who has the outcome at the end.
    fn owner(&self) -> Owner {
        let Some(settle) = self.settle else {
            return Owner::Nowhere;
        };
        if is_before(self.leave, settle) {
            Owner::Settler
        } else if self.taker.is_some() {
            Owner::Waiter
        } else {
            Owner::Home
        }
    }
}

/// Runs the list on the plain cell. Ends the test unless all is as its history tells; the replies.
fn run_plain(rt: &(impl Abort + AllocGlobal), steps: &[CellStep]) -> Vec<CellReply> {
    let places = Places::new(steps);
    let mut replies = Vec::new(rt.alloc());
    for (place, step) in steps.iter().enumerate() {
        replies
            .push(places.reply(place, *step))
            .expect(rt, "memory for a reply");
    }
    let report = cell_run(rt.alloc(), steps).expect(rt, "memory for a report");
    let is_same = report.replies == replies;
    assert!(rt; is_same, "the replies to {steps:?}");
    assert_eq!(rt;
        report.word,
        places.word(steps.len()),
        "the word after {steps:?}"
    );
    assert_eq!(rt; report.owner, places.owner(), "the owner after {steps:?}");
    replies
}

/// What a running cell answers.
#[derive(Debug, PartialEq, Eq, Drop)]
enum CellAnswer {
    /// A sleep, a poll or a leave: the outcome, if the waiter has it now.
    Outcome(Option<u64>),
    /// A settle: the outcome, if it comes back.
    Back(Option<u64>),
    IsLeft(bool),
    /// There is no call: the end is spent.
    Spent,
}

/// What a running cell answers where the plain one replies so. Whom a settle woke it doesn't answer.
fn answer_of(reply: CellReply) -> CellAnswer {
    match reply {
        CellReply::Slept | CellReply::Pending => CellAnswer::Outcome(None),
        CellReply::Outcome(outcome) => CellAnswer::Outcome(Some(outcome)),
        CellReply::Left(outcome) => CellAnswer::Outcome(outcome),
        CellReply::Settled { woke: _, back } => CellAnswer::Back(back),
        CellReply::Flag(is_left) => CellAnswer::IsLeft(is_left),
        CellReply::Spent => CellAnswer::Spent,
    }
}

/// A waiting end that has neither slept nor had the outcome.
#[derive(Drop)]
struct AwakeEnd {
    end: WaitEnd<u64>,
    ghost unspent: { MaySleep (wait_view end) },
}

/// A waiting end that may have done both.
#[derive(Drop)]
struct Staying {
    end: WaitEnd<u64>,
    ghost unspent: { HasNotLeft (wait_view end) },
}

/// A settling end that has not settled.
#[derive(Drop)]
struct SettlingEnd {
    end: SettleEnd<u64>,
    ghost unspent: { HasNotSettled (settle_view end) },
}

/// What may still be done with a waiting end.
#[derive(Drop)]
enum WaitingEnd {
    Awake(AwakeEnd),
    Staying(Staying),
    Gone,
}

/// A running cell, by its ends.
#[derive(Drop)]
struct RunningCell {
    waiting: WaitingEnd,
    settling: Option<SettlingEnd>,
}

impl RunningCell {
    /// The ends of a fresh cell.
    fn new(rt: &(impl Abort + AllocGlobal)) -> Self {
        let (wait, settle) = signal::new(rt.alloc()).expect(rt, "a cell");
        RunningCell {
            waiting: WaitingEnd::Awake(AwakeEnd { end: wait }),
            settling: Some(SettlingEnd { end: settle }),
        }
    }

    /// Makes the step; the sleeper is for a sleep.
    fn step(&mut self, step: CellStep, sleeper: Unparker) -> CellAnswer {
        match step {
            CellStep::Sleep => self.sleep(sleeper),
            CellStep::Settle(outcome) => match self.settling.take() {
                Some(SettlingEnd { mut end }) => CellAnswer::Back(end.settle(outcome)),
                None => CellAnswer::Spent,
            },
            CellStep::Poll => self.poll(),
            CellStep::Leave => match mem::replace(&mut self.waiting, WaitingEnd::Gone) {
                WaitingEnd::Awake(AwakeEnd { mut end }) => CellAnswer::Outcome(end.leave()),
                WaitingEnd::Staying(Staying { mut end }) => CellAnswer::Outcome(end.leave()),
                WaitingEnd::Gone => CellAnswer::Spent,
            },
            CellStep::IsLeft => match &self.settling {
                Some(settling) => CellAnswer::IsLeft(settling.end.is_left()),
                None => CellAnswer::Spent,
            },
        }
    }

    /// Sleeps, unless that was done, or the outcome was had, or the end has left.
    fn sleep(&mut self, sleeper: Unparker) -> CellAnswer {
        match mem::replace(&mut self.waiting, WaitingEnd::Gone) {
            WaitingEnd::Awake(AwakeEnd { mut end }) => {
                let outcome = end.sleep(sleeper);
                self.waiting = WaitingEnd::Staying(Staying { end });
                CellAnswer::Outcome(outcome)
            },
            WaitingEnd::Staying(_) | WaitingEnd::Gone => CellAnswer::Spent,
        }
    }

    /// Polls, unless the end has left. It can't sleep any more once it has the outcome.
    fn poll(&mut self) -> CellAnswer {
        match mem::replace(&mut self.waiting, WaitingEnd::Gone) {
            WaitingEnd::Awake(AwakeEnd { mut end }) => match end.poll() {
                Some(outcome) => {
                    self.waiting = WaitingEnd::Staying(Staying { end });
                    CellAnswer::Outcome(Some(outcome))
                },
                None => {
                    self.waiting = WaitingEnd::Awake(AwakeEnd { end });
                    CellAnswer::Outcome(None)
                },
            },
            WaitingEnd::Staying(Staying { mut end }) => {
                let outcome = end.poll();
                self.waiting = WaitingEnd::Staying(Staying { end });
                CellAnswer::Outcome(outcome)
            },
            WaitingEnd::Gone => CellAnswer::Spent,
        }
    }
}

/// Runs the list on a running cell. Ends the test unless it answers as the plain one replied.
fn run_running(
    rt: &(impl Abort + AllocGlobal),
    parker: &Parker,
    steps: &[CellStep],
    replies: &[CellReply],
) {
    let mut running = RunningCell::new(rt);
    for (step, reply) in steps.iter().zip(replies.iter()) {
        let sleeper = parker.unparker().clone().expect(rt, "an unparker");
        let answer = running.step(*step, sleeper);
        assert_eq!(rt; answer, answer_of(*reply), "{step:?} of {steps:?}");
    }
}

/// The plain cell runs all lists. The running one runs those in which each end may still make each of its
/// steps: one settle at most, and no question after it; one leave at most, and no poll or sleep after
/// it; one sleep at most, and none after the outcome was had.
#[test]
fn lists_of_eight_steps(rt: HostRuntime) {
    let parker = Parker::new(rt.alloc()).expect(&rt, "a parker");
    let (mut plain, mut running) = (0u64, 0u64);
    for number in 0..LISTS {
        let steps = steps_of(&rt, number);
        let replies = run_plain(&rt, steps.as_slice());
        plain = plain.wrapping_add(1);
        if !replies.contains(&CellReply::Spent) {
            run_running(&rt, &parker, steps.as_slice(), replies.as_slice());
            running = running.wrapping_add(1);
        }
    }
    equal(&rt, (plain, running), (488_281, 7_795));
}
