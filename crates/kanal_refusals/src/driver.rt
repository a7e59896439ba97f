//! Makes the calls of a row, one behind the other, and each once more where it found no memory.

/// What a run of the program is for.
#[derive(Clone, Copy, Debug, PartialEq, Eq)]
pub enum Run {
    /// Any request for memory may be refused.
    Refusals,
    /// What the calls need that take no memory is made.
    Setup,
    /// It is made, and then those calls are.
    Calls,
}

/// How many of the tested calls were refused for memory in this run.
#[derive(Clone, Copy)]
pub struct Score {
    /// What the run is for.
    pub run: Run,
    /// How many calls were refused.
    pub refused: u32,
}

impl Score {
    /// One more call was refused; None where none may be.
    pub fn add(&mut self) -> Option<()> {
        self.refused = self.refused.wrapping_add(1);
        holds(self.run == Run::Refusals)
    }
}

/// None, where it doesn't hold.
pub fn holds(is_so: bool) -> Option<()> {
    if is_so { Some(()) } else { None }
}

/// What is called.
pub trait Subject {
    /// A call of it.
    type Call: Copy;
    /// What a call answers.
    type Answer: Copy + PartialEq;
    /// What a refused call leaves as it was.
    type State: PartialEq + Drop;

    /// Its state.
    fn state(&self) -> Self::State;

    /// Makes the call.
    fn make(&mut self, call: Self::Call) -> Self::Answer;

    /// What this call answers that found no memory.
    fn refused(call: Self::Call) -> Self::Answer;
}

/// What is made, and the calls of it: first those that may ask for memory, then those that take none, each
/// with what it answers.
pub struct Row<M: 'static, C: 'static, A: 'static> {
    /// What is made.
    pub made: M,
    /// The calls that may ask for memory.
    pub ready: &'static [(C, A)],
    /// Those behind them, which take none.
    pub calls: &'static [(C, A)],
}

/// Makes the calls of a row; None where one answers otherwise.
pub fn make_row<S: Subject, M>(
    subject: &mut S,
    tally: &mut Score,
    row: &Row<M, S::Call, S::Answer>,
) -> Option<()> {
    make_each(subject, tally, row.ready)?;
    if tally.run != Run::Setup {
        make_each(subject, tally, row.calls)?;
    }
    Some(())
}

/// Makes each of the calls; None where one answers otherwise.
pub fn make_each<S: Subject>(
    subject: &mut S,
    tally: &mut Score,
    calls: &[(S::Call, S::Answer)],
) -> Option<()> {
    for (call, answer) in calls {
        make(subject, tally, *call, *answer)?;
    }
    Some(())
}

/// Makes the call, and makes it again where it found no memory and has left things as they were.
fn make<S: Subject>(
    subject: &mut S,
    tally: &mut Score,
    call: S::Call,
    expected: S::Answer,
) -> Option<()> {
    let before = subject.state();
    let answer = subject.make(call);
    if answer == expected {
        return Some(());
    }
    tally.add()?;
    holds(answer == S::refused(call) && subject.state() == before)?;
    holds(subject.make(call) == expected)
}
