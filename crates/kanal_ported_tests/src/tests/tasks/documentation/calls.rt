//! Sends, receives and the stream.
use crate::tests::tasks::given::{new, receive_one, send_below, send_one, stream_below};
use std::thread;

#[test]
fn send(rt: HostRuntime) {
    let (s, r) = new::<u64>(&rt, None);
    send_one(&rt, &s, 1);
    receive_one(&rt, &r, 1);
}

/// A task sends the word through a channel with no place, or without limit, and another receives it.
#[test]
fn words(rt: HostRuntime) {
    let words = [(Some(0), "Buddy"), (Some(0), "hello!"), (None, "hello!")];
    for (capacity, word) in words {
        let (s, r) = new::<&'static str>(&rt, capacity);
        thread::join(
            &rt,
            move || send_one(&rt, &s, word),
            || receive_one(&rt, &r, word),
        );
    }
}

#[test]
fn stream(rt: HostRuntime) {
    let (s, r) = new::<u64>(&rt, None);
    thread::join(
        &rt,
        move || send_below(&rt, s, 100),
        || stream_below(&rt, &r, 100),
    );
}
