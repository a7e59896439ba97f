//! Sends until a deadline, by a clock that stands still.
use crate::tests::given::{equal, holds};
use crate::tests::sync::given::{new, receive_one};
use kanal::TestClock;
use std::thread;
use std::time::Duration;

/// The option of the second send is empty then.
#[test]
fn sends_until_a_deadline(rt: HostRuntime) {
    let (s, r) = new::<&'static str>(&rt, Some(0));
    let long = Duration::from_millis(500);
    thread::join(
        &rt,
        || {
            let answer = s.send_timeout(&rt, "Hello", long, &TestClock::still(0));
            equal(&rt, answer, Ok(()));
        },
        || receive_one(&rt, &r, "Hello"),
    );
    thread::join(
        &rt,
        move || {
            let mut option = Some("Hello");
            let answer = s.send_option_timeout(&rt, &mut option, long, &TestClock::still(0));
            equal(&rt, answer, Ok(()));
            holds(&rt, option.is_none());
        },
        || receive_one(&rt, &r, "Hello"),
    );
}
