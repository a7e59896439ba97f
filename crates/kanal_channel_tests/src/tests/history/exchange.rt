//! An exchange between two threads on one channel, by calls that wait or by calls with deadlines.
ghost use Rattle.std.specs.Prelude.{◌≡◌, Some, None};
ghost use Rattle.kanal_log.specs.Logs.{table_of};

use crate::tests::history::deadlines;
use kanal_core::error::NewError;
use kanal_one_history::{Call, Channel, GhostPass, LogId, NewLog};
use std::alloc::Global;
use std::sync::Wait;
use std::thread::Threads;
use std::{thread, time};

/// How many messages go from one thread to the other.
pub(super) const MESSAGES: u64 = 20_000;

/// By what calls the messages go.
#[derive(Clone, Copy)]
pub(super) enum Mode {
    /// By `send` and `recv`.
    Waiting,
    /// By `send_timeout` and `recv_timeout`.
    Timed,
}

impl Mode {
    /// Sends all numbers, and counts those that entered.
    fn send_all<J: LogId, R: Wait + time::Clock>(
        self,
        rt: &R,
        channel: &Channel<u64, J>,
        mut pass: GhostPass<u64, J>,
    ) -> u64 {
        let mut sent = 0u64;
        for number in 0..MESSAGES {
            let entered = match self {
                Mode::Waiting => channel.send(rt, &mut pass, number).is_ok(),
                Mode::Timed => deadlines::send(rt, channel, &mut pass, number),
            };
            if entered {
                sent = sent.wrapping_add(1);
            }
        }
        sent
    }

    /// Receives as many, and counts those that came at their turn.
    fn recv_all<J: LogId, R: Wait + time::Clock>(
        self,
        rt: &R,
        channel: &Channel<u64, J>,
        mut pass: GhostPass<u64, J>,
    ) -> u64 {
        let mut got = 0u64;
        for number in 0..MESSAGES {
            let came = match self {
                Mode::Waiting => channel.recv(rt, &mut pass) == Ok(number),
                Mode::Timed => deadlines::recv(rt, channel, &mut pass, number),
            };
            if came {
                got = got.wrapping_add(1);
            }
        }
        got
    }

    /// Lets one thread send and the other receive.
    fn exchange<J: LogId + Send + Sync, R: Threads + Wait + time::Clock + Sync>(
        self,
        rt: &R,
        channel: &Channel<u64, J>,
        mut one: GhostPass<u64, J>,
    ) -> (u64, u64) {
        let other = one.again(channel.log());
        thread::join(
            rt,
            move || -> u64 { self.send_all(rt, channel, one) },
            move || -> u64 { self.recv_all(rt, channel, other) },
        )
    }

    /// The exchange on a new channel of this capacity.
    pub(super) fn exchange_bounded<J: LogId + Send + Sync, R: Threads + Wait + time::Clock + Sync>(
        self,
        rt: &R,
        alloc: Global,
        capacity: usize,
        opened: NewLog<Call<u64>>,
    ) -> Result<(u64, u64), NewError>
        requires name { table_of opened ≡ J.table }
        requires capacity { J.capacity ≡ Some capacity }
    {
        let (channel, pass) = kanal_one_history::bounded::<u64, J>(alloc, capacity, opened)?;
        Ok(self.exchange(rt, &channel, pass))
    }

    /// The exchange on a new channel without limit.
    pub(super) fn exchange_unbounded<
        J: LogId + Send + Sync,
        R: Threads + Wait + time::Clock + Sync,
    >(self, rt: &R, alloc: Global, opened: NewLog<Call<u64>>) -> (u64, u64)
        requires name { table_of opened ≡ J.table }
        requires capacity { J.capacity ≡ None }
    {
        let (channel, pass) = kanal_one_history::unbounded::<u64, J>(alloc, opened);
        self.exchange(rt, &channel, pass)
    }
}
