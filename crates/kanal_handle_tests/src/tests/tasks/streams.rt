//! What a stream answers, poll after poll.
use super::given::{ends_and_task, poll_next};
use crate::tests::given::{equal, holds};
use futures::task::Poll;
use kanal::error::ReceiveError;

/// The stream holds a message, and its sender is gone: the message comes, and then the end, at each poll.
#[test]
fn a_message_that_is_held_comes_before_the_end(rt: HostRuntime) {
    let (sender, receiver, task) = ends_and_task::<u64>(&rt, 0);
    let mut stream = receiver.stream();
    equal(&rt, poll_next(&task, &mut stream), Poll::Pending);
    equal(&rt, sender.try_send(&rt, 5), Ok(true));
    drop(sender);
    holds(&rt, !stream.is_terminated(&rt));
    equal(&rt, poll_next(&task, &mut stream), Poll::Ready(Some(5)));
    holds(&rt, stream.is_terminated(&rt));
    holds(&rt, stream.fault().is_none());
    equal(&rt, poll_next(&task, &mut stream), Poll::Ready(None));
    holds(&rt, stream.fault() == Some(&ReceiveError::SendClosed));
    equal(&rt, poll_next(&task, &mut stream), Poll::Ready(None));
    holds(&rt, stream.is_terminated(&rt));
}
