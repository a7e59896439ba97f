//! What a receive over two receivers answers, poll after poll, and to a thread.
use super::given::{ends, ends_and_task};
use crate::tests::given::{ends as sync_ends, equal, holds};
use crate::tests::threads::starts::start_numbers;
use futures::StreamExt;
use futures::future::Either;
use futures::task::Poll;
use futures::test::MockTask;
use kanal::error::ReceiveError;
use kanal::{Prefer, prefer};

/// Polls once; an urgent number comes as it is, a normal one as 100 more.
fn poll_next(task: &MockTask, both: &mut Prefer<'_, u64, u8>) -> Poll<Option<u64>> {
    match task.poll(&mut both.next()) {
        Poll::Ready(Some(Either::Left(number))) => Poll::Ready(Some(number)),
        Poll::Ready(Some(Either::Right(number))) => Poll::Ready(Some(u64::from(number) + 100)),
        Poll::Ready(None) => Poll::Ready(None),
        Poll::Pending => Poll::Pending,
    }
}

#[test]
fn the_first_is_asked_before_the_second_at_each_poll(rt: HostRuntime) {
    let (urgent, first, task) = ends_and_task::<u64>(&rt, 2);
    let (normal, second) = ends::<u8>(&rt, 2);
    let mut both = prefer(&first, &second);
    equal(&rt, normal.try_send(&rt, 1), Ok(true));
    equal(&rt, normal.try_send(&rt, 2), Ok(true));
    equal(&rt, urgent.try_send(&rt, 1), Ok(true));
    equal(&rt, poll_next(&task, &mut both), Poll::Ready(Some(1)));
    equal(&rt, poll_next(&task, &mut both), Poll::Ready(Some(101)));
    equal(&rt, urgent.try_send(&rt, 2), Ok(true));
    equal(&rt, poll_next(&task, &mut both), Poll::Ready(Some(2)));
    equal(&rt, poll_next(&task, &mut both), Poll::Ready(Some(102)));
    equal(&rt, poll_next(&task, &mut both), Poll::Pending);
}

/// Both wait at capacity 0: what is handed to either comes, and wakes the task.
#[test]
fn both_waits_stay_between_polls(rt: HostRuntime) {
    let (urgent, first, task) = ends_and_task::<u64>(&rt, 0);
    let (normal, second) = ends::<u8>(&rt, 0);
    let mut both = prefer(&first, &second);
    equal(&rt, poll_next(&task, &mut both), Poll::Pending);
    equal(&rt, normal.try_send(&rt, 1), Ok(true));
    holds(&rt, task.is_woken());
    equal(&rt, urgent.try_send(&rt, 1), Ok(true));
    equal(&rt, poll_next(&task, &mut both), Poll::Ready(Some(1)));
    equal(&rt, urgent.try_send(&rt, 2), Ok(false));
    equal(&rt, poll_next(&task, &mut both), Poll::Ready(Some(101)));
    equal(&rt, urgent.try_send(&rt, 2), Ok(true));
    equal(&rt, poll_next(&task, &mut both), Poll::Ready(Some(2)));
}

/// One that was closed or left ends its stream alone, and says why; the other goes on to its own end.
#[test]
fn it_ends_when_both_have_ended(rt: HostRuntime) {
    let (urgent, first, task) = ends_and_task::<u64>(&rt, 0);
    let (normal, second) = ends::<u8>(&rt, 2);
    let mut both = prefer(&first, &second);
    equal(&rt, poll_next(&task, &mut both), Poll::Pending);
    equal(&rt, urgent.close(&rt), Ok(()));
    equal(&rt, poll_next(&task, &mut both), Poll::Pending);
    holds(&rt, both.first().fault() == Some(&ReceiveError::Closed));
    equal(&rt, normal.try_send(&rt, 1), Ok(true));
    drop(normal);
    equal(&rt, poll_next(&task, &mut both), Poll::Ready(Some(101)));
    holds(&rt, both.second().fault().is_none());
    equal(&rt, poll_next(&task, &mut both), Poll::Ready(None));
    holds(
        &rt,
        both.second().fault() == Some(&ReceiveError::SendClosed),
    );
    equal(&rt, poll_next(&task, &mut both), Poll::Ready(None));
}

/// Its drop takes both waits back, and a message that was handed to one of them goes.
#[test]
fn its_drop_takes_both_waits_back(rt: HostRuntime) {
    let (urgent, first, task) = ends_and_task::<u64>(&rt, 0);
    let (normal, second) = ends::<u8>(&rt, 0);
    let mut both = prefer(&first, &second);
    equal(&rt, poll_next(&task, &mut both), Poll::Pending);
    equal(&rt, normal.try_send(&rt, 1), Ok(true));
    drop(both);
    equal(&rt, urgent.try_send(&rt, 1), Ok(false));
    equal(&rt, normal.try_send(&rt, 2), Ok(false));
}

/// A thread gets the numbers below the end by the first, those from there on by the second, and both in order.
#[test]
fn a_thread_receives_all_of_both(rt: HostRuntime) {
    for size in 0..3 {
        let (urgent, first) = sync_ends::<u64>(&rt, size);
        let (normal, second) = sync_ends::<u64>(&rt, size);
        let one = start_numbers(rt, urgent, 0, 300);
        let other = start_numbers(rt, normal, 300, 600);
        let (mut low, mut high, mut is_in_order) = (0u64, 300u64, true);
        let ended = prefer(&first, &second).for_each(&rt, |item| match item {
            Either::Left(number) => {
                is_in_order &= number == low;
                low = low.wrapping_add(1);
            },
            Either::Right(number) => {
                is_in_order &= number == high;
                high = high.wrapping_add(1);
            },
        });
        equal(&rt, ended.expect(&rt, "a task"), Ok(()));
        equal(&rt, (low, high, is_in_order), (300, 600, true));
        equal(&rt, one.join(&rt), Ok(()));
        equal(&rt, other.join(&rt), Ok(()));
    }
}

/// A loop goes on after the close of one, and tells it at the end of both.
#[test]
fn a_loop_tells_a_close(rt: HostRuntime) {
    let (urgent, first) = sync_ends::<u64>(&rt, 2);
    let (normal, second) = sync_ends::<u8>(&rt, 2);
    equal(&rt, normal.try_send(&rt, 1), Ok(true));
    equal(&rt, urgent.close(&rt), Ok(()));
    drop(normal);
    let mut count = 0u64;
    let ended = prefer(&first, &second).for_each(&rt, |_item| count = count.wrapping_add(1));
    equal(&rt, ended.expect(&rt, "a task"), Err(ReceiveError::Closed));
    equal(&rt, count, 1);
}
