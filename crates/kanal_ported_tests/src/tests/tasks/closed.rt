//! What is left to either side once the other is gone, or the channel is closed.
use super::given::{new, receive_ones, recv, send, send_ones};
use crate::tests::given::equal;
use crate::tests::messages::boxed;
use kanal::error::{ReceiveError, SendError};

#[test]
fn recv_from_half_closed_queue(rt: HostRuntime) {
    let (tx, rx) = new(&rt, Some(1));
    send_ones(&rt, &tx, 1);
    drop(tx);
    receive_ones(&rt, &rx, 1);
}

#[test]
fn recv_from_half_closed_channel(rt: HostRuntime) {
    let (tx, rx) = new::<u64>(&rt, Some(1));
    drop(tx);
    equal(&rt, recv(&rt, &rx), Err(ReceiveError::SendClosed));
}

#[test]
fn recv_from_closed_channel(rt: HostRuntime) {
    let (tx, rx) = new::<u64>(&rt, Some(1));
    equal(&rt, tx.close(&rt), Ok(()));
    equal(&rt, recv(&rt, &rx), Err(ReceiveError::Closed));
}

#[test]
fn recv_from_closed_channel_queue(rt: HostRuntime) {
    let (tx, rx) = new(&rt, Some(1));
    send_ones(&rt, &tx, 1);
    equal(&rt, tx.close(&rt), Ok(()));
    equal(&rt, recv(&rt, &rx).err(), Some(ReceiveError::Closed));
}

#[test]
fn send_to_half_closed_channel(rt: HostRuntime) {
    let (tx, rx) = new(&rt, Some(1));
    drop(rx);
    let answer = send(&rt, &tx, boxed(&rt, 1));
    equal(&rt, answer, Err(SendError::ReceiveClosed));
}

#[test]
fn send_to_closed_channel(rt: HostRuntime) {
    let (tx, rx) = new(&rt, Some(1));
    equal(&rt, rx.close(&rt), Ok(()));
    equal(&rt, send(&rt, &tx, boxed(&rt, 1)), Err(SendError::Closed));
}
