//! The calls of futures and of the stream.
use super::{HandleCall, HandleKit};
use crate::answer::{AnyAnswer, received, sent};
use crate::given::Message;
use futures::task::Poll;
use futures::test::MockTask;
use futures::{StreamExt, stream};
use kanal::error::{ReceiveError, SendError};
use kanal::{AsyncReceiver, ReceiveFuture, ReceiveStream, SendAll, SendFuture, prefer};
use std::sync::Wait;
use std::vec::IntoIter;

/// The sends of a list of messages.
type List = SendAll<stream::Iter<IntoIter<Message>>, Message>;

/// What a poll of the send answers. One that was refused is over.
fn poll_send(task: &MockTask, future: &mut Option<SendFuture<'_, Message>>) -> AnyAnswer {
    let Some(future) = future else {
        return AnyAnswer::Other;
    };
    let answer = match task.poll(future) {
        Poll::Ready(answer) => sent(answer),
        Poll::Pending if task.is_woken() => AnyAnswer::Woken,
        Poll::Pending => AnyAnswer::Waits,
    };
    if answer == AnyAnswer::NoMemory && task.poll(future) != Poll::Ready(Err(SendError::Finished)) {
        return AnyAnswer::Other;
    }
    answer
}

/// What a poll of the receive answers. One that was refused is over.
fn poll_receive(task: &MockTask, future: &mut Option<ReceiveFuture<'_, Message>>) -> AnyAnswer {
    let Some(future) = future else {
        return AnyAnswer::Other;
    };
    let answer = match task.poll(future) {
        Poll::Ready(answer) => received(answer),
        Poll::Pending if task.is_woken() => AnyAnswer::Woken,
        Poll::Pending => AnyAnswer::Waits,
    };
    let is_refused = answer == AnyAnswer::NoMemory;
    if is_refused && !matches!(task.poll(future), Poll::Ready(Err(ReceiveError::Finished))) {
        return AnyAnswer::Other;
    }
    answer
}

/// What a poll of the stream answers. One that has ended tells why, and one that goes on tells nothing.
fn poll_stream(task: &MockTask, stream: &mut Option<ReceiveStream<'_, Message>>) -> AnyAnswer {
    let Some(stream) = stream else {
        return AnyAnswer::Other;
    };
    let answer = match task.poll(&mut stream.next()) {
        Poll::Ready(Some(message)) => AnyAnswer::Got(message.number),
        Poll::Ready(None) => AnyAnswer::Nothing,
        Poll::Pending if task.is_woken() => AnyAnswer::Woken,
        Poll::Pending => AnyAnswer::Waits,
    };
    match stream.fault() {
        Some(error) if answer == AnyAnswer::Nothing => received(Err(*error)),
        None if answer != AnyAnswer::Nothing => answer,
        _ => AnyAnswer::Other,
    }
}

/// What a poll answers that asks the receiver by two streams. A refused wait ends its stream, which tells why.
fn poll_both(task: &MockTask, receiver: &AsyncReceiver<Message>) -> AnyAnswer {
    let mut both = prefer(receiver, receiver);
    let answer = match task.poll(&mut both.next()) {
        Poll::Ready(_) => AnyAnswer::Other,
        Poll::Pending if task.is_woken() => AnyAnswer::Woken,
        Poll::Pending => AnyAnswer::Waits,
    };
    match both.first().fault().or(both.second().fault()) {
        Some(error) => received(Err(*error)),
        None => answer,
    }
}

/// What a poll of a loop answers that has no message.
fn poll_each(task: &MockTask, receiver: &AsyncReceiver<Message>) -> AnyAnswer {
    match task.poll(&mut receiver.for_each(|_message| {})) {
        Poll::Ready(Ok(())) => AnyAnswer::Other,
        Poll::Ready(Err(error)) => received(Err(error)),
        Poll::Pending if task.is_woken() => AnyAnswer::Woken,
        Poll::Pending => AnyAnswer::Waits,
    }
}

/// What a poll of a list's sends answers.
fn poll_list(task: &MockTask, list: Option<List>) -> AnyAnswer {
    let Some(mut list) = list else {
        return AnyAnswer::NoMemory;
    };
    match task.poll(&mut list) {
        Poll::Ready(answer) => sent(answer),
        Poll::Pending if task.is_woken() => AnyAnswer::Woken,
        Poll::Pending => AnyAnswer::Waits,
    }
}

impl<'a, R: Wait> HandleKit<'a, R> {
    /// Makes a call of a future or of the stream.
    pub fn poll(&mut self, call: HandleCall) -> AnyAnswer {
        let (first, second) = (&self.tasks.0, &self.tasks.1);
        match call {
            HandleCall::BeginSend(number) => {
                self.sending = self.new_send(number);
                poll_send(first, &mut self.sending)
            },
            HandleCall::FirstPollsSend => poll_send(first, &mut self.sending),
            HandleCall::SecondPollsSend => poll_send(second, &mut self.sending),
            HandleCall::SendBeside(number) => poll_send(second, &mut self.new_send(number)),
            HandleCall::ListBeside(number) => poll_list(second, self.new_list(number)),
            HandleCall::LeaveSend => {
                self.sending = None;
                AnyAnswer::Done
            },
            HandleCall::BeginReceive => {
                self.receiving = Some(self.rx.as_async().recv());
                poll_receive(first, &mut self.receiving)
            },
            HandleCall::FirstPollsReceive => poll_receive(first, &mut self.receiving),
            HandleCall::SecondPollsReceive => poll_receive(second, &mut self.receiving),
            HandleCall::ReceiveBeside => poll_receive(second, &mut Some(self.rx.as_async().recv())),
            HandleCall::BeginStream => {
                self.stream = Some(self.rx.as_async().stream());
                poll_stream(first, &mut self.stream)
            },
            HandleCall::FirstPollsStream => poll_stream(first, &mut self.stream),
            HandleCall::StreamBeside => poll_stream(second, &mut Some(self.rx.as_async().stream())),
            HandleCall::EachBeside => poll_each(second, self.rx.as_async()),
            HandleCall::BothBeside => poll_both(second, self.rx.as_async()),
            HandleCall::SecondIsWoken => AnyAnswer::Flag(second.is_woken()),
            _ => AnyAnswer::Other,
        }
    }

    /// A send that wasn't polled.
    fn new_send(&self, number: u64) -> Option<SendFuture<'a, Message>> {
        let message = self.given.message(number)?;
        Some(self.tx.as_async().send(message))
    }

    /// The sends of a list of one message, which own a clone of the sender; none where memory was refused.
    fn new_list(&self, number: u64) -> Option<List> {
        let mut messages = Vec::new(self.tx.channel().alloc());
        messages.push(self.given.message(number)?).ok()?;
        let sender = self.tx.clone_async(self.rt).ok()?;
        Some(sender.send_all(stream::iter(messages)))
    }
}
