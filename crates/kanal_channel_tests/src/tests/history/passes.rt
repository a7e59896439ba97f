//! Passes: they take no bytes, are compared, learn, and own each call once.
ghost use Rattle.std.specs.Prelude.{◌≡◌, Some};
ghost use Rattle.kanal_log.specs.Logs.{table_of};

use crate::tests::given::equal;
use crate::tests::history::given::new_log;
use kanal_core::error::NewError;
use kanal_one_history::{Call, Channel, GhostPass, LogId, NewLog};
use std::alloc::Global;
use std::marker::Brand;
use std::mem::size_of;
use std::sync::Wait;

#[test]
fn a_pass_takes_no_bytes(rt: HostRuntime) {
    equal(&rt, size_of::<GhostPass<u64, Brand>>(), 0);
    equal(&rt, size_of::<GhostPass<String, Brand>>(), 0);
}

/// Two passes make a call each, are compared, and one learns what the other has seen.
fn two_passes<J: LogId, R: Wait>(
    rt: &R,
    alloc: Global,
    capacity: usize,
    opened: NewLog<Call<u64>>,
) -> Result<bool, NewError>
    requires name { table_of opened ≡ J.table }
    requires capacity { J.capacity ≡ Some capacity }
{
    let (channel, mut one) = kanal_one_history::bounded::<u64, J>(alloc, capacity, opened)?;
    let mut other = one.again(channel.log());
    let sent = channel.try_send(rt, &mut one, 7);
    let got = channel.try_recv(rt, &mut other);
    one.holds();
    one.compare(channel.log(), &mut other);
    one.owns_once(channel.log(), &mut other);
    one.learn(channel.log(), other);
    Ok(sent == Ok(true) && got == Ok(Some(7)))
}

#[test]
fn two_passes_of_one_channel(rt: HostRuntime) {
    let opened = new_log(&rt, rt.alloc());
    equal(
        &rt,
        two_passes::<Brand, _>(&rt, rt.alloc(), 1, opened),
        Ok(true),
    );
}
