//! Calls with a deadline, by one pass and by clocks that are told what to say.
ghost use Rattle.std.specs.Prelude.{◌≡◌};
ghost use Rattle.kanal_log.specs.Logs.{table_of};

use crate::tests::given::equal;
use crate::tests::history::given::{HistoryHandles, new_handles, new_log};
use kanal_core::error::{NewError, ReceiveErrorTimeout, SendErrorTimeout};
use kanal_one_history::{Call, LogId, NewLog, TestClock};
use std::alloc::Global;
use std::marker::Brand;
use std::process::Abort;
use std::sync::Wait;
use std::time;
use std::time::Duration;

/// A full channel: the send waits until its deadline, and its message is gone then.
fn full<J: LogId, R: Wait + time::Clock + Abort>(rt: &R, handles: HistoryHandles<J>) {
    let (sender, _receiver, mut pass) = handles;
    let (channel, pass) = (sender.channel(), &mut pass);
    let none = Duration::from_nanos(0);
    let still = TestClock::still(5);
    equal(rt, channel.send_timeout(rt, pass, 1, none, &still), Ok(()));
    equal(
        rt,
        channel.send_timeout(rt, pass, 7, none, &still),
        Err(SendErrorTimeout::Timeout),
    );
    equal(rt, channel.recv_timeout(rt, pass, none, &still), Ok(1));
    equal(rt, channel.try_recv(rt, pass), Ok(None));
    equal(
        rt,
        channel.recv_timeout(rt, pass, none, &still),
        Err(ReceiveErrorTimeout::Timeout),
    );
}

/// An empty channel without senders: what a receive answers depends on whether its deadline passed.
fn left<J: LogId, R: Wait + time::Clock + Abort>(rt: &R, handles: HistoryHandles<J>) {
    let (sender, receiver, mut pass) = handles;
    let (channel, pass) = (receiver.channel(), &mut pass);
    let none = Duration::from_nanos(0);
    let rising = TestClock::rising();
    drop(sender);
    equal(
        rt,
        channel.recv_timeout(rt, pass, none, &TestClock::still(0)),
        Err(ReceiveErrorTimeout::SendClosed),
    );
    equal(
        rt,
        channel.recv_timeout(rt, pass, none, &rising),
        Err(ReceiveErrorTimeout::Timeout),
    );
    equal(
        rt,
        channel.send_timeout(rt, pass, 1, none, &rising),
        Err(SendErrorTimeout::Sealed),
    );
}

/// The deadline is past the largest moment: the channel isn't looked at.
fn too_late<J: LogId, R: Wait + time::Clock + Abort>(rt: &R, handles: HistoryHandles<J>) {
    let (sender, _receiver, mut pass) = handles;
    let (channel, pass) = (sender.channel(), &mut pass);
    let last = TestClock::still(u64::MAX);
    let one = Duration::from_nanos(1);
    equal(rt, channel.close(rt, pass), Ok(()));
    equal(
        rt,
        channel.recv_timeout(rt, pass, one, &last),
        Err(ReceiveErrorTimeout::DeadlineOutOfRange),
    );
    equal(
        rt,
        channel.send_timeout(rt, pass, 1, one, &last),
        Err(SendErrorTimeout::DeadlineOutOfRange),
    );
    let none = Duration::from_nanos(0);
    equal(
        rt,
        channel.recv_timeout(rt, pass, none, &last),
        Err(ReceiveErrorTimeout::Closed),
    );
    equal(
        rt,
        channel.send_timeout(rt, pass, 1, none, &last),
        Err(SendErrorTimeout::Closed),
    );
}

/// Makes the calls of one row on a new channel for one message.
fn row<J: LogId, R: Wait + time::Clock + Abort>(
    rt: &R,
    alloc: Global,
    capacity: Option<usize>,
    row: u8,
    opened: NewLog<Call<u64>>,
) -> Result<(), NewError>
    requires name { table_of opened ≡ J.table }
    requires capacity { J.capacity ≡ capacity }
{
    let handles = new_handles::<J>(alloc, capacity, opened)?;
    match row {
        0 => full(rt, handles),
        1 => left(rt, handles),
        _ => too_late(rt, handles),
    }
    Ok(())
}

#[test]
fn rows_with_a_deadline(rt: HostRuntime) {
    for number in 0..3u8 {
        let opened = new_log(&rt, rt.alloc());
        let made = row::<Brand, _>(&rt, rt.alloc(), Some(1), number, opened);
        equal(&rt, made, Ok(()));
    }
}
