//! One handle that several threads use at once, through a reference.
use super::starts::{SendResult, start_numbers};
use crate::tests::given::{ends, equal};
use kanal::{Receiver, Sender};
use std::sync::Wait;
use std::thread;

/// Who sent a message.
#[derive(Drop, Clone, Copy)]
enum Author {
    Left,
    Right,
}

/// A message with its sender's name and its place among those of that sender.
#[derive(Drop, Clone, Copy)]
struct Letter {
    from: Author,
    number: u64,
}

/// How many notes each party sends.
const NOTES: u64 = 200;

/// Sends the notes of one party.
fn send_notes<R: Wait>(rt: &R, sender: &Sender<Letter>, from: Author) -> SendResult {
    for number in 0..NOTES {
        sender.send(rt, Letter { from, number })?;
    }
    Ok(())
}

/// Receives all notes; how many came from each party, and `None` where one is missing or comes too early.
fn receive_notes<R: Wait>(rt: &R, receiver: &Receiver<Letter>) -> Option<(u64, u64)> {
    let (mut left, mut right) = (0u64, 0u64);
    for _ in 0..2 * NOTES {
        let note = receiver.recv(rt).ok()?;
        let next = match note.from {
            Author::Left => &mut left,
            Author::Right => &mut right,
        };
        if *next != note.number {
            return None;
        }
        *next = next.wrapping_add(1);
    }
    Some((left, right))
}

/// Two threads send through the one sender, and this one receives.
#[test]
fn two_threads_share_a_sender(rt: HostRuntime) {
    for capacity in [0, 2] {
        let (sender, receiver) = ends::<Letter>(&rt, capacity);
        let (sent, counts) = thread::join(
            &rt,
            || {
                thread::join(
                    &rt,
                    || send_notes(&rt, &sender, Author::Left),
                    || send_notes(&rt, &sender, Author::Right),
                )
            },
            || receive_notes(&rt, &receiver),
        );
        equal(&rt, sent, (Ok(()), Ok(())));
        equal(&rt, counts, Some((NOTES, NOTES)));
    }
}

/// Receives so many numbers as one thread sends to two receivers, which must rise. Their sum.
fn receive_half<R: Wait>(rt: &R, receiver: &Receiver<u64>) -> Option<u64> {
    let mut sum = 0u64;
    let mut least = 0u64;
    for _ in 0..NOTES {
        let number = receiver.recv(rt).ok()?;
        if number < least {
            return None;
        }
        least = number.wrapping_add(1);
        sum = sum.wrapping_add(number);
    }
    Some(sum)
}

/// One thread sends, and two receive through the one receiver.
#[test]
fn two_threads_share_a_receiver(rt: HostRuntime) {
    for capacity in [0, 2] {
        let (sender, receiver) = ends::<u64>(&rt, capacity);
        let sending = start_numbers(rt, sender, 0, 2 * NOTES);
        let (left, right) = thread::join(
            &rt,
            || receive_half(&rt, &receiver),
            || receive_half(&rt, &receiver),
        );
        equal(&rt, sending.join(&rt), Ok(()));
        let (left, right) = (left.expect(&rt, "in order"), right.expect(&rt, "in order"));
        // The numbers below 400.
        equal(&rt, left.wrapping_add(right), 79800);
    }
}
