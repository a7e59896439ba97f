//! Calls that meet another party. One that doesn't wait is repeated until it meets that party.
use crate::tests::given::{TURNS, holds};
use crate::tests::sync::given::{new, receive_one, send_one};
use kanal::{Receiver, Sender};
use std::process::Abort;
use std::sync::Wait;
use std::thread;

/// The forms of a send that doesn't wait for a receiver.
#[derive(Clone, Copy)]
enum TrySendBy {
    Try,
    TryRealtime,
    TryOption,
    TryOptionRealtime,
}

/// Sends the number by this form as soon as it is taken, from the option where the form takes one. The test
/// ends unless the option holds it until then.
fn send_by<R: Wait + Abort>(rt: &R, s: &Sender<u64>, form: TrySendBy) {
    let mut option = Some(1);
    for _ in 0..TURNS {
        assert!(rt; option.is_some());
        let answer = match form {
            TrySendBy::Try => s.try_send(rt, 1),
            TrySendBy::TryRealtime => s.try_send_realtime(1),
            TrySendBy::TryOption => s.try_send_option(rt, &mut option),
            TrySendBy::TryOptionRealtime => s.try_send_option_realtime(&mut option),
        };
        if answer == Ok(true) {
            return;
        }
        thread::yield_now();
    }
    holds(rt, false);
}

/// A thread sends the number by each form, and another receives it.
#[test]
fn sends_that_do_not_wait(rt: HostRuntime) {
    let forms = [
        TrySendBy::Try,
        TrySendBy::TryRealtime,
        TrySendBy::TryOption,
        TrySendBy::TryOptionRealtime,
    ];
    for form in forms {
        let (s, r) = new::<u64>(&rt, Some(0));
        thread::join(
            &rt,
            move || send_by(&rt, &s, form),
            || receive_one(&rt, &r, 1),
        );
    }
}

#[test]
fn send(rt: HostRuntime) {
    let (s, r) = new::<&'static str>(&rt, Some(0));
    thread::join(
        &rt,
        move || send_one(&rt, &s, "Hello"),
        || receive_one(&rt, &r, "Hello"),
    );
}

/// The forms of a receive that doesn't wait for a sender.
#[derive(Clone, Copy)]
enum TryRecvBy {
    Try,
    TryRealtime,
}

/// Receives the word by this form as soon as it is there.
fn receive_by<R: Wait + Abort>(rt: &R, r: &Receiver<&'static str>, form: TryRecvBy, word: &str) {
    for _ in 0..TURNS {
        let answer = match form {
            TryRecvBy::Try => r.try_recv(rt),
            TryRecvBy::TryRealtime => r.try_recv_realtime(),
        };
        if answer == Ok(Some(word)) {
            return;
        }
        thread::yield_now();
    }
    holds(rt, false);
}

/// A thread sends a word, and another receives it by each form.
#[test]
fn receives_that_do_not_wait(rt: HostRuntime) {
    for form in [TryRecvBy::Try, TryRecvBy::TryRealtime] {
        let (s, r) = new::<&'static str>(&rt, Some(0));
        thread::join(
            &rt,
            move || send_one(&rt, &s, "Buddy"),
            || receive_by(&rt, &r, form, "Buddy"),
        );
    }
}
