//! Drains: the whole line goes behind what the vector held, those of waiting senders too.
ghost use Rattle.std.specs.Prelude.{◌≡◌, Some};
ghost use Rattle.kanal_log.specs.Logs.{table_of};

use crate::tests::given::equal;
use crate::tests::history::given::new_log;
use kanal_core::error::{NewError, ReceiveError};
use kanal_one_history::{Call, Channel, GhostPass, LogId, NewLog};
use std::alloc::Global;
use std::marker::Brand;
use std::process::Abort;
use std::sync::Wait;
use std::thread;
use std::thread::Threads;

/// How many messages go into one drain.
const ROOM: u64 = 1_000;

/// How many messages go from one thread to another that drains.
const MESSAGES: u64 = 5_000;

/// How many of the numbers stand at their place.
fn in_place(numbers: &Vec<u64>) -> u64 {
    let mut right = 0u64;
    let mut place = 0u64;
    for number in numbers {
        if *number == place {
            right = right.wrapping_add(1);
        }
        place = place.wrapping_add(1);
    }
    right
}

/// Sends all numbers.
fn send_all<J: LogId, R: Wait>(
    rt: &R,
    channel: &Channel<u64, J>,
    mut pass: GhostPass<u64, J>,
) -> u64 {
    let mut sent = 0u64;
    for number in 0..MESSAGES {
        if channel.send(rt, &mut pass, number).is_ok() {
            sent = sent.wrapping_add(1);
        }
    }
    sent
}

/// Waits for one message and takes what else is there, until all have come; counts those in place.
fn drain_all<J: LogId, R: Wait>(
    rt: &R,
    alloc: Global,
    channel: &Channel<u64, J>,
    mut pass: GhostPass<u64, J>,
) -> u64 {
    let mut numbers = Vec::new(alloc);
    for _ in 0..MESSAGES {
        if numbers.len() as u64 >= MESSAGES {
            break;
        }
        let Ok(number) = channel.recv(rt, &mut pass) else {
            break;
        };
        if numbers.push(number).is_err() {
            break;
        }
        if channel.drain_into(rt, &mut pass, &mut numbers).is_err() {
            break;
        }
    }
    in_place(&numbers)
}

/// One thread fills the channel, and takes all at once.
fn one_thread<J: LogId, R: Wait + Abort>(
    rt: &R,
    alloc: Global,
    capacity: usize,
    opened: NewLog<Call<u64>>,
) -> Result<(), NewError>
    requires name { table_of opened ≡ J.table }
    requires capacity { J.capacity ≡ Some capacity }
{
    let (channel, mut one) = kanal_one_history::bounded::<u64, J>(alloc, capacity, opened)?;
    let (pass, mut numbers) = (&mut one, Vec::new(alloc));
    for number in 0..ROOM {
        equal(rt, channel.send(rt, pass, number), Ok(()));
    }
    equal(rt, channel.drain_into(rt, pass, &mut numbers), Ok(1_000));
    equal(rt, in_place(&numbers), ROOM);
    equal(rt, channel.drain_into(rt, pass, &mut numbers), Ok(0));
    equal(rt, channel.try_send(rt, pass, ROOM), Ok(true));
    equal(rt, channel.drain_into(rt, pass, &mut numbers), Ok(1));
    equal(rt, in_place(&numbers), ROOM.wrapping_add(1));
    equal(rt, channel.close(rt, pass), Ok(()));
    let refused = channel.drain_into(rt, pass, &mut numbers);
    equal(rt, refused, Err(ReceiveError::Closed));
    equal(rt, in_place(&numbers), ROOM.wrapping_add(1));
    Ok(())
}

/// One thread sends, and another drains.
fn two_threads<J: LogId + Send + Sync, R: Threads + Wait + Sync>(
    rt: &R,
    alloc: Global,
    capacity: usize,
    opened: NewLog<Call<u64>>,
) -> Result<(u64, u64), NewError>
    requires name { table_of opened ≡ J.table }
    requires capacity { J.capacity ≡ Some capacity }
{
    let (channel, mut one) = kanal_one_history::bounded::<u64, J>(alloc, capacity, opened)?;
    let other = one.again(channel.log());
    let shared = &channel;
    Ok(thread::join(
        rt,
        move || -> u64 { send_all(rt, shared, one) },
        move || -> u64 { drain_all(rt, alloc, shared, other) },
    ))
}

#[test]
fn a_thousand_at_once_and_those_of_waiting_senders(rt: HostRuntime) {
    let opened = new_log(&rt, rt.alloc());
    let made = one_thread::<Brand, _>(&rt, rt.alloc(), 1_000, opened);
    equal(&rt, made, Ok(()));
    let opened = new_log(&rt, rt.alloc());
    let counts = two_threads::<Brand, _>(&rt, rt.alloc(), 1, opened);
    equal(&rt, counts, Ok((MESSAGES, MESSAGES)));
}
