//! How a blocked call waits: it looks for its outcome with pauses, then with yields, and then sleeps.
//!
//! No other module puts a thread to sleep for an outcome. It sleeps on the word of its cell and asks for no memory,
//! so a wait that has begun is never refused.
ghost use Rattle.std.specs.Prelude.{◌≡◌, IfErr};
ghost use Rattle.kanal_cell.specs.CellRule.{MaySleep};
ghost use Rattle.kanal_cell.specs.CellEnds.{wait_view};
ghost use Rattle.kanal_cell.specs.Deadlines.{LooksUntil};
ghost use Rattle.kanal_cell.specs.Waits.{waits_at};

mod awake;
mod contention;
mod policy;

use crate::deadline::Deadline;
use crate::signal::WaitEnd;
use awake::{Asleep, Awake};
pub use contention::{Contention, LOCK_TRIES};
use policy::Looks;
pub use policy::WaitPolicy;
use std::sync::Wait;

/// How often a call looks at most before it sleeps.
const LOOKS: u32 = 64;

/// Whether the cell knows that the blocked call sleeps.
#[derive(Drop)]
enum Watch<P> {
    Awake(Awake<P>),
    Asleep(Asleep<P>),
}

/// What the looks before a sleep came to.
#[derive(Drop)]
enum Looked<P> {
    Outcome(P),
    /// The deadline has come.
    Late(Awake<P>),
    Early(Awake<P>),
}

/// A blocked call's half of its wait: the cell's waiting end.
///
/// # Examples
/// ```text
/// let (end, settling) = signal::new(alloc)?;
/// let waiting = Waiting::new(end);
/// waiting.outcome(&rt, &policy, &Never)   answers  Ok(7)   when another thread has made settling.settle(7)
/// ```
#[derive(Drop)]
pub struct Waiting<P> {
    watch: Watch<P>,
}

impl<P: Drop> Waiting<P> {
    /// The wait at an end that has neither slept nor had its outcome.
    pub fn new(end: WaitEnd<P>) -> Self
        requires fresh { MaySleep (wait_view end) }
        ensures end { waits_at result ≡ end }
    {
        let watch = Watch::Awake(Awake::new(end));
        Waiting { watch }
    }

    /// Waits for the outcome until the deadline, and answers it.
    ///
    /// # Errors
    /// The rest of the wait, where the deadline has come and there was no outcome: whoever has it takes the wait
    /// out of the core, or waits on.
    pub fn outcome<R: Wait, D: Deadline>(
        self,
        rt: &R,
        policy: &WaitPolicy,
        deadline: &D,
    ) -> Result<P, Self>
        ensures late { IfErr result (λ _. D.has_come deadline.now) }
    {
        let Waiting { watch } = self;
        let rest = match watch {
            Watch::Awake(awake) => match look(policy, awake, deadline) {
                Looked::Outcome(outcome) => return Ok(outcome),
                Looked::Late(awake) => {
                    let watch = Watch::Awake(awake);
                    return Err(Waiting { watch });
                },
                Looked::Early(awake) => sleep(rt, awake, deadline),
            },
            Watch::Asleep(asleep) => park(rt, asleep, deadline),
        };
        match rest {
            Ok(outcome) => Ok(outcome),
            Err(asleep) => {
                let watch = Watch::Asleep(asleep);
                Err(Waiting { watch })
            },
        }
    }
}

/// Looks for the outcome until the deadline, and once after that.
fn look<P: Drop, D: Deadline>(policy: &WaitPolicy, awake: Awake<P>, deadline: &D) -> Looked<P>
    ensures late { LooksUntil (D.has_come deadline.now) result }
{
    let mut looks = Looks::new(policy);
    let mut awake = awake;
    for _ in 0..LOOKS {
        let left = deadline.left();
        if awake.is_settled() {
            match awake.poll() {
                Ok(outcome) => {
                    looks.end();
                    return Looked::Outcome(outcome);
                },
                Err(back) => awake = back,
            }
        }
        if left.is_none() {
            return Looked::Late(awake);
        }
        if !looks.snooze() {
            return Looked::Early(awake);
        }
    }
    Looked::Early(awake)
}

#[cold]
fn sleep<P: Drop, R: Wait, D: Deadline>(
    rt: &R,
    awake: Awake<P>,
    deadline: &D,
) -> Result<P, Asleep<P>>
    ensures late { IfErr result (λ _. D.has_come deadline.now) }
{
    match awake.sleep() {
        Ok(outcome) => Ok(outcome),
        Err(asleep) => park(rt, asleep, deadline),
    }
}

/// Sleeps until the outcome is there or the deadline has come, and looks once after that.
fn park<P: Drop, R: Wait, D: Deadline>(
    rt: &R,
    asleep: Asleep<P>,
    deadline: &D,
) -> Result<P, Asleep<P>>
    ensures late { IfErr result (λ _. D.has_come deadline.now) }
{
    let mut asleep = asleep;
    for _ in rt.forever() {
        let left = deadline.left();
        match asleep.poll() {
            Ok(outcome) => return Ok(outcome),
            Err(back) => asleep = back,
        }
        let Some(left) = left else {
            return Err(asleep);
        };
        asleep.park(rt, deadline, left);
    }
    unreachable!()
}
