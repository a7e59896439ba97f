//! Pipelines: a thread for each stage, and a channel between each two.
//!
//! Who receives by a stage says what was made of the messages that came by its pass. So what the whole makes follows
//! from what each channel's two passes tell, and one stage more is one thread and one channel more.
ghost use Rattle.std.specs.Prelude.{◌≡◌, [], Ok, IfOk, IfSome, map};
ghost use Rattle.kanal_log.specs.Logs.{table_of};
ghost use Rattle.kanal_log.specs.Shares.{half, whole};
ghost use Rattle.kanal_log.specs.Views.{known};
ghost use Rattle.kanal_exchange.specs.Stages.{Handed, StagesMade, Staged, by_two};
ghost use Rattle.kanal_exchange.specs.Tales.{HasExchanged};

use crate::error::{Answer, ExchangeError};
use crate::exchange::{channel_of, overseen, receiving, sending, started_with};
use crate::threads::both;
use kanal_one_history::{Call, Channel, GhostPass, LogId, NewLog};
use std::alloc::Global;
use std::snapshot::Snapshot;
use std::sync::Wait;
use std::thread::{Promise, Threads};

/// What is done to each message on its way.
///
/// `value` is what becomes of a message, as a definition; `apply` makes it.
///
/// # Examples
/// ```text
/// struct Doubled;
///
/// impl Stage for Doubled {
///     type Input = u32;
///     type Output = u64;
///
///     ghost value = { λ _ number. number * 2 };
///
///     fn apply(&self, message: u32) -> Option<u64> {
///         Some(u64::from(message) * 2)
///     }
/// }
/// ```
pub trait Stage {
    /// What comes.
    type Input: Drop + Send;
    /// What goes on.
    type Output: Drop + Send;

    ghost value: { Self → Self.Input → Self.Output };

    /// Makes of a message what goes on; `None` where that is refused, and then the pipeline ends.
    fn apply(&self, message: Self::Input) -> Option<Self::Output>
        ensures value { IfSome result (λ made. made ≡ value self.now message) };
}

fn hand_on<S: Stage, J: LogId, K: LogId, R: Wait>(
    rt: &R,
    stage: &S,
    before: &Channel<S::Input, J>,
    hears: &mut GhostPass<S::Input, J>,
    behind: &Channel<S::Output, K>,
    tells: &mut GhostPass<S::Output, K>,
) -> Result<(), ExchangeError>
    ensures handed { IfOk result (λ _. Handed J.capacity K.capacity (S.value stage.now)
        hears.old hears.new tells.old tells.new) }
{
    let message = before.recv(rt, hears)?;
    let made = stage.apply(message).ok_or(ExchangeError::Stage)?;
    behind.send(rt, tells, made)?;
    Ok(())
}

/// Hands on so many messages, in order, where the thread behind was started.
///
/// # Errors
/// Where it was not: the channel before is closed then, on which a thread may wait. Where a receive, the stage
/// or a send is refused: both channels are closed then.
fn hand_on_all<S: Stage, J: LogId, K: LogId, R: Wait>(
    rt: &R,
    stage: &S,
    before: &Channel<S::Input, J>,
    hears: GhostPass<S::Input, J>,
    behind: &Channel<S::Output, K>,
    mut tells: GhostPass<S::Output, K>,
    count: usize,
    started: Answer<()>,
) -> Result<(GhostPass<S::Input, J>, GhostPass<S::Output, K>), ExchangeError>
    requires fresh { (hears.own ≡ []) × (tells.own ≡ []) }
    ensures staged { IfOk result (λ r. Staged (S.value stage.now) count r.0 r.1) }
    ensures shares { IfOk result (λ r. (r.0.share ≡ hears.share) × (r.1.share ≡ tells.share)) }
{
    let mut hears = started_with(rt, before, hears, started)?;
    for _number in 0..count {
        if let Err(refused) = hand_on(rt, stage, before, &mut hears, behind, &mut tells) {
            let _closed = before.close(rt, &mut hears);
            let _closed_behind = behind.close(rt, &mut tells);
            return Err(refused);
        }
    }
    Ok((hears, tells))
}

fn receive_by_stage<S, J, K, R>(
    rt: &R,
    alloc: Global,
    stage: &S,
    before: &Channel<S::Input, J>,
    hears: GhostPass<S::Input, J>,
    behind: &Channel<S::Output, K>,
    first: GhostPass<S::Output, K>,
    count: usize,
) -> Result<(Vec<S::Output>, GhostPass<S::Input, J>), ExchangeError>
where
    S: Stage + Sync,
    J: LogId + Send + Sync,
    K: LogId + Send + Sync,
    R: Threads + Wait + Sync,
    requires fresh { hears.own ≡ [] }
    requires first { first ≡ known [] [] whole }
    ensures made { IfOk result (λ r. StagesMade (λ messages. map (S.value stage.now) messages) count
        r.0.items r.1) }
    ensures share { IfOk result (λ r. r.1.share ≡ hears.share) }
{
    let mut tells = first;
    let reads = tells.again(behind.log());
    let hand_on = move |started: Answer<()>| -> Answer<
        (GhostPass<S::Input, J>, GhostPass<S::Output, K>),
    >
        requires { (hears.own ≡ []) × (tells ≡ known [] [] (half whole)) }
        ensures { IfOk result (λ r. Staged (S.value stage.entry.now) count r.0 r.1
            × (r.0.share ≡ hears.share) × (r.1.share ≡ half whole)) }
    { hand_on_all(rt, stage, before, hears, behind, tells, count, started) };
    let ((got, reads), (hears, tells)) = receiving(rt, alloc, behind, reads, count, hand_on)?;
    overseen(behind, tells, reads);
    Ok((got, hears))
}

fn mapped_on<S, J, K, R>(
    rt: &R,
    alloc: Global,
    stage: &S,
    before: &Channel<S::Input, J>,
    pass: GhostPass<S::Input, J>,
    behind: &Channel<S::Output, K>,
    first: GhostPass<S::Output, K>,
    messages: Vec<S::Input>,
) -> Result<Vec<S::Output>, ExchangeError>
where
    S: Stage + Sync,
    J: LogId + Send + Sync,
    K: LogId + Send + Sync,
    R: Threads + Wait + Sync,
    requires before { pass ≡ known [] [] whole }
    requires behind { first ≡ known [] [] whole }
    ensures mapped { IfOk result (λ made. made.items ≡ map (S.value stage.now) messages.items) }
{
    let mut sends = pass;
    let hears = sends.again(before.log());
    let count = messages.len();
    let receive = move |started: Answer<()>| -> Answer<(Vec<S::Output>, GhostPass<S::Input, J>)>
        requires { (hears ≡ known [] [] (half whole)) × (first ≡ known [] [] whole) }
        ensures { IfOk result (λ r. StagesMade (λ messages. map (S.value stage.entry.now) messages)
            count r.0.items r.1 × (r.1.share ≡ half whole)) }
    {
        let hears = started_with(rt, before, hears, started)?;
        receive_by_stage(rt, alloc, stage, before, hears, behind, first, count)
    };
    let (sender, (made, receiver)) = sending(rt, before, sends, messages, receive)?;
    overseen(before, sender, receiver);
    Ok(made)
}

/// Sends the messages through the stage: one thread sends, one has the stage, and one receives, on two channels of
/// their own, each of its capacity or without limit. What came out is what the stage makes of the messages, in order.
///
/// It waits until all threads have ended. The caller picks the names `J` of the channel before the stage and
/// `K` of the one behind it, in proofs alone, as the page of `kanal_one_history` on calling shows.
///
/// # Errors
/// `New` where a channel could not be made, `NoThread` where a thread could not be started, `Send` where a send was
/// refused, `Receive` where a receive was refused, `Stage` where the stage refused a message, and `NoMemory` where
/// there was no memory for the list that is answered. All messages are dropped then, once each, those that came, too.
///
/// # Examples
/// ```text
/// mapped::<_, Brand, Brand, _>(&rt, alloc, &Doubled, Some(4), opened, Some(2), opened_behind, messages)
///     answers  Ok of the doubled numbers, in order
/// ```
pub fn mapped<S, J, K, R>(
    rt: &R,
    alloc: Global,
    stage: &S,
    capacity: Option<usize>,
    opened: NewLog<Call<S::Input>>,
    capacity_behind: Option<usize>,
    opened_behind: NewLog<Call<S::Output>>,
    messages: Vec<S::Input>,
) -> Result<Vec<S::Output>, ExchangeError>
where
    S: Stage + Sync,
    J: LogId + Send + Sync,
    K: LogId + Send + Sync,
    R: Threads + Wait + Sync,
    requires name { table_of opened ≡ J.table }
    requires capacity { J.capacity ≡ capacity }
    requires name_behind { table_of opened_behind ≡ K.table }
    requires capacity_behind { K.capacity ≡ capacity_behind }
    ensures mapped { IfOk result (λ made. made.items ≡ map (S.value stage.now) messages.items) }
{
    let (before, pass) = channel_of::<S::Input, J>(alloc, capacity, opened)?;
    let (behind, first) = channel_of::<S::Output, K>(alloc, capacity_behind, opened_behind)?;
    mapped_on(rt, alloc, stage, &before, pass, &behind, first, messages)
}

/// That a thread received by this stage what became of so many messages, which came by this pass.
#[derive(Drop)]
struct Staging<S: Stage, J: LogId> {
    stage: Snapshot<S>,
    pass: Snapshot<GhostPass<S::Input, J>>,
    count: usize,
}

impl<S: Stage, J: LogId> Promise<Answer<(Vec<S::Output>, GhostPass<S::Input, J>)>>
    for Staging<S, J> {
    ghost kept_by = { λ p answer. IfOk answer (λ r. StagesMade (λ messages. map (S.value p.stage.value) messages) p.count
        r.0.items r.1 × (r.1.share ≡ p.pass.value.share)) };
}

fn receiving_by_stage<S, J, K, R, G, B>(
    rt: &R,
    alloc: Global,
    stage: &S,
    before: &Channel<S::Input, J>,
    hears: GhostPass<S::Input, J>,
    behind: &Channel<S::Output, K>,
    first: GhostPass<S::Output, K>,
    count: usize,
    g: G,
) -> Answer<((Vec<S::Output>, GhostPass<S::Input, J>), B)>
where
    S: Stage + Sync,
    J: LogId + Send + Sync,
    K: LogId + Send + Sync,
    R: Threads + Wait + Sync,
    G: FnOnce(Answer<()>) -> Answer<B>,
    B: Drop,
    requires first { (hears.own ≡ []) × (first ≡ known [] [] whole) }
    requires other { G.IsAlwaysCallable g }
    ensures made { IfOk result (λ r. StagesMade (λ messages. map (S.value stage.now) messages) count
        r.0.0.items r.0.1 × (r.0.1.share ≡ hears.share)) }
    ensures other { IfOk result (λ r. G.post g (Ok tt) (Ok r.1)) }
{
    let promise = Staging {
        stage: Snapshot::of(stage),
        pass: Snapshot::of(&hears),
        count,
    };
    let receive = move || -> Answer<(Vec<S::Output>, GhostPass<S::Input, J>)>
        requires { (hears.own ≡ []) × (first ≡ known [] [] whole) }
        ensures { IfOk result (λ r. StagesMade (λ messages. map (S.value stage.entry.now) messages) count
            r.0.items r.1 × (r.1.share ≡ hears.share)) }
    { receive_by_stage(rt, alloc, stage, before, hears, behind, first, count) };
    both(rt, promise, receive, g)
}

fn receive_by_two<S, U, J, K, L, R>(
    rt: &R,
    alloc: Global,
    stage: &S,
    after: &U,
    before: &Channel<S::Input, J>,
    hears: GhostPass<S::Input, J>,
    between: &Channel<S::Output, K>,
    first: GhostPass<S::Output, K>,
    behind: &Channel<U::Output, L>,
    second: GhostPass<U::Output, L>,
    count: usize,
) -> Result<(Vec<U::Output>, GhostPass<S::Input, J>), ExchangeError>
where
    S: Stage + Sync,
    U: Stage<Input = S::Output> + Sync,
    J: LogId + Send + Sync,
    K: LogId + Send + Sync,
    L: LogId + Send + Sync,
    R: Threads + Wait + Sync,
    requires fresh { hears.own ≡ [] }
    requires first { (first ≡ known [] [] whole) × (second ≡ known [] [] whole) }
    ensures made { IfOk result (λ r. StagesMade (by_two (S.value stage.now) (U.value after.now)) count r.0.items r.1) }
    ensures share { IfOk result (λ r. r.1.share ≡ hears.share) }
{
    let mut tells = first;
    let reads = tells.again(between.log());
    let hand_on = move |started: Answer<()>| -> Answer<
        (GhostPass<S::Input, J>, GhostPass<S::Output, K>),
    >
        requires { (hears.own ≡ []) × (tells ≡ known [] [] (half whole)) }
        ensures { IfOk result (λ r. Staged (S.value stage.entry.now) count r.0 r.1
            × (r.0.share ≡ hears.share) × (r.1.share ≡ half whole)) }
    { hand_on_all(rt, stage, before, hears, between, tells, count, started) };
    let ((made, reads), (hears, tells)) = receiving_by_stage(
        rt, alloc, after, between, reads, behind, second, count, hand_on,
    )?;
    overseen(between, tells, reads);
    Ok((made, hears))
}

fn mapped_by_two_on<S, U, J, K, L, R>(
    rt: &R,
    alloc: Global,
    stage: &S,
    after: &U,
    before: &Channel<S::Input, J>,
    pass: GhostPass<S::Input, J>,
    between: &Channel<S::Output, K>,
    first: GhostPass<S::Output, K>,
    behind: &Channel<U::Output, L>,
    second: GhostPass<U::Output, L>,
    messages: Vec<S::Input>,
) -> Result<Vec<U::Output>, ExchangeError>
where
    S: Stage + Sync,
    U: Stage<Input = S::Output> + Sync,
    J: LogId + Send + Sync,
    K: LogId + Send + Sync,
    L: LogId + Send + Sync,
    R: Threads + Wait + Sync,
    requires first { (pass ≡ known [] [] whole) × (first ≡ known [] [] whole) × (second ≡ known [] [] whole) }
    ensures mapped { IfOk result (λ made. made.items ≡ by_two (S.value stage.now) (U.value after.now) messages.items) }
{
    let mut sends = pass;
    let hears = sends.again(before.log());
    let count = messages.len();
    let receive = move |started: Answer<()>| -> Answer<(Vec<U::Output>, GhostPass<S::Input, J>)>
        requires { (hears ≡ known [] [] (half whole)) × (first ≡ known [] [] whole) × (second ≡ known [] [] whole) }
        ensures { IfOk result (λ r. StagesMade (by_two (S.value stage.entry.now) (U.value after.entry.now)) count
            r.0.items r.1 × (r.1.share ≡ half whole)) }
    {
        let hears = started_with(rt, before, hears, started)?;
        receive_by_two(
            rt, alloc, stage, after, before, hears, between, first, behind, second, count,
        )
    };
    let (sender, (made, receiver)) = sending(rt, before, sends, messages, receive)?;
    overseen(before, sender, receiver);
    Ok(made)
}

/// Sends the messages through the two stages, one after the other: one thread sends, each stage has one, and one
/// receives, on three channels of their own, each of its capacity or without limit. What came out is what
/// the second stage makes of what the first makes of the messages, in order.
///
/// It waits until all threads have ended. The caller picks the names `J`, `K` and `L` of the channels, from the
/// first to the last, in proofs alone, as the page of `kanal_one_history` on calling shows.
///
/// # Errors
/// `New` where a channel could not be made, `NoThread` where a thread could not be started, `Send` where a send was
/// refused, `Receive` where a receive was refused, `Stage` where a stage refused a message, and `NoMemory` where
/// there was no memory for the list that is answered. All messages are dropped then, once each, those that came, too.
///
/// # Examples
/// ```text
/// mapped_by_two::<_, _, Brand, Brand, Brand, _>(
///     &rt, alloc, &Doubled, &Shown, None, opened, Some(4), opened_between, Some(2), opened_behind, messages,
/// )
///     answers  Ok of what is shown of the doubled numbers, in order
/// ```
pub fn mapped_by_two<S, U, J, K, L, R>(
    rt: &R,
    alloc: Global,
    stage: &S,
    after: &U,
    capacity: Option<usize>,
    opened: NewLog<Call<S::Input>>,
    capacity_between: Option<usize>,
    opened_between: NewLog<Call<S::Output>>,
    capacity_behind: Option<usize>,
    opened_behind: NewLog<Call<U::Output>>,
    messages: Vec<S::Input>,
) -> Result<Vec<U::Output>, ExchangeError>
where
    S: Stage + Sync,
    U: Stage<Input = S::Output> + Sync,
    J: LogId + Send + Sync,
    K: LogId + Send + Sync,
    L: LogId + Send + Sync,
    R: Threads + Wait + Sync,
    requires name { table_of opened ≡ J.table }
    requires capacity { J.capacity ≡ capacity }
    requires name_between { table_of opened_between ≡ K.table }
    requires capacity_between { K.capacity ≡ capacity_between }
    requires name_behind { table_of opened_behind ≡ L.table }
    requires capacity_behind { L.capacity ≡ capacity_behind }
    ensures mapped { IfOk result (λ made. made.items
        ≡ map (U.value after.now) (map (S.value stage.now) messages.items)) }
{
    let (before, pass) = channel_of::<S::Input, J>(alloc, capacity, opened)?;
    let (between, first) = channel_of::<S::Output, K>(alloc, capacity_between, opened_between)?;
    let (behind, second) = channel_of::<U::Output, L>(alloc, capacity_behind, opened_behind)?;
    mapped_by_two_on(
        rt, alloc, stage, after, &before, pass, &between, first, &behind, second, messages,
    )
}
