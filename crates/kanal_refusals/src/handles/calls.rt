//! The calls of handles that wait for no other thread.
use super::{HandleKit, ReceiveKind, SendKind};
use crate::answer::{AnyAnswer, found, received, received_in_time, sent, sent_in_time, tried};
use crate::given::Message;
use kanal::TestClock;
use std::sync::Wait;
use std::time;
use std::time::Duration;

impl<R: Wait + time::Clock> HandleKit<'_, R> {
    /// Sends a message with this number.
    pub fn send(&self, form: SendKind, number: u64) -> AnyAnswer {
        let Some(message) = self.given.message(number) else {
            return AnyAnswer::Other;
        };
        let (rt, now, clock) = (self.rt, Duration::from_nanos(0), TestClock::still(0));
        match form {
            SendKind::Plain => sent(self.tx.send(rt, message)),
            SendKind::Try => tried(self.tx.try_send(rt, message)),
            SendKind::TryRealtime => tried(self.tx.try_send_realtime(message)),
            SendKind::Late => sent_in_time(self.tx.send_timeout(rt, message, now, &clock)),
            SendKind::ByView => sent(self.tx.as_async().as_sync().send(rt, message)),
            SendKind::LateByView => {
                let view = self.tx.as_async().as_sync();
                sent_in_time(view.send_timeout(rt, message, now, &clock))
            },
            SendKind::TryByTask => tried(self.tx.as_async().try_send(rt, message)),
            _ => self.send_option(form, message),
        }
    }

    /// Sends a message that stays in its option where it isn't sent.
    fn send_option(&self, form: SendKind, message: Message) -> AnyAnswer {
        let (rt, now, clock) = (self.rt, Duration::from_nanos(0), TestClock::still(0));
        let mut option = Some(message);
        let answer = match form {
            SendKind::TryOption => tried(self.tx.try_send_option(rt, &mut option)),
            SendKind::TryOptionRealtime => tried(self.tx.try_send_option_realtime(&mut option)),
            SendKind::LateOptionByView => {
                let view = self.tx.as_async().as_sync();
                sent_in_time(view.send_option_timeout(rt, &mut option, now, &clock))
            },
            _ => sent_in_time(self.tx.send_option_timeout(rt, &mut option, now, &clock)),
        };
        let is_sent = matches!(answer, AnyAnswer::Yes | AnyAnswer::Done);
        if is_sent == option.is_some() {
            return AnyAnswer::Other;
        }
        answer
    }

    /// Receives a message, and drops it.
    pub fn receive(&self, take: ReceiveKind) -> AnyAnswer {
        let (rt, now, clock) = (self.rt, Duration::from_nanos(0), TestClock::still(0));
        match take {
            ReceiveKind::Plain => received(self.rx.recv(rt)),
            ReceiveKind::Try => found(self.rx.try_recv(rt)),
            ReceiveKind::TryRealtime => found(self.rx.try_recv_realtime()),
            ReceiveKind::Late => received_in_time(self.rx.recv_timeout(rt, now, &clock)),
            ReceiveKind::ByView => received(self.rx.as_async().as_sync().recv(rt)),
            ReceiveKind::LateByView => {
                let view = self.rx.as_async().as_sync();
                received_in_time(view.recv_timeout(rt, now, &clock))
            },
            ReceiveKind::TryByTask => found(self.rx.as_async().try_recv(rt)),
        }
    }

    /// Drains into the vector, and answers the numbers of all that are in it as digits.
    pub fn drain(&mut self, by_task: bool) -> AnyAnswer {
        let answer = if by_task {
            self.rx.as_async().drain_into(self.rt, &mut self.into)
        } else {
            self.rx.drain_into(self.rt, &mut self.into)
        };
        let mut digits: u64 = 0;
        for message in &self.into {
            digits = digits.wrapping_mul(10).wrapping_add(message.number);
        }
        match answer {
            Ok(count) => AnyAnswer::Drained(count, digits),
            Err(error) => received(Err(error)),
        }
    }

    /// Whether the channel is open and empty, with two places.
    pub fn is_as_it_began(&self) -> bool {
        let (rt, tx) = (self.rt, self.tx);
        let is_empty = tx.len(rt) == 0 && tx.is_empty(rt) && !tx.is_full(rt);
        let is_bounded = tx.is_bounded(rt) && tx.capacity(rt) == 2;
        let has_ended = tx.is_closed(rt) || tx.is_disconnected(rt) || self.rx.is_terminated(rt);
        is_empty && is_bounded && !has_ended
    }

    /// Clones of each kind become ones of the other kind, and are dropped.
    pub fn converts(&self) -> bool {
        let (Ok(sender), Ok(receiver)) = (self.tx.clone(self.rt), self.rx.clone(self.rt)) else {
            return false;
        };
        let Ok(for_tasks) = self.tx.clone_async(self.rt) else {
            return false;
        };
        let are_three = sender.as_async().sender_count(self.rt) == 3;
        drop(for_tasks.to_sync());
        drop(sender.to_async());
        let back = receiver.to_async();
        are_three
            && back.clone_sync(self.rt).is_ok()
            && self.rx.receiver_count(self.rt) == 2
            && self.rx.as_async().as_sync().sender_count(self.rt) == 1
    }
}
