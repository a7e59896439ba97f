//! The examples of a channel's state: where two have the same channel, they share it.
use crate::tests::given::{equal, holds};
use crate::tests::sync::given::new;
use kanal::error::ReceiveError;

#[test]
fn places_and_messages(rt: HostRuntime) {
    let (s, r) = new::<u64>(&rt, Some(0));
    holds(&rt, s.is_bounded(&rt) && r.is_bounded(&rt));
    equal(&rt, (s.capacity(&rt), r.capacity(&rt)), (0, 0));
    let (s, r) = new::<u64>(&rt, None);
    holds(&rt, !s.is_bounded(&rt) && !r.is_bounded(&rt));
    let most = (usize::MAX, usize::MAX);
    equal(&rt, (s.capacity(&rt), r.capacity(&rt)), most);
    holds(&rt, s.is_empty(&rt) && r.is_empty(&rt));
    equal(&rt, (s.len(&rt), r.len(&rt)), (0, 0));
    equal(&rt, s.send(&rt, 10), Ok(()));
    equal(&rt, (s.len(&rt), r.len(&rt)), (1, 1));
    let (s, r) = new(&rt, Some(1));
    equal(&rt, s.send(&rt, "Hi!"), Ok(()));
    holds(&rt, s.is_full(&rt) && r.is_full(&rt));
}

#[test]
fn counts_and_ends(rt: HostRuntime) {
    let (s, r) = new::<u64>(&rt, None);
    let receiver_clone = r.clone(&rt).expect(&rt, "a clone");
    let sender_clone = s.clone(&rt).expect(&rt, "a clone");
    equal(&rt, (r.receiver_count(&rt), r.sender_count(&rt)), (2, 2));
    drop((receiver_clone, r));
    holds(&rt, s.is_disconnected(&rt));
    drop((sender_clone, s));
    let (s, r) = new::<u64>(&rt, None);
    equal(&rt, s.close(&rt), Ok(()));
    holds(&rt, r.is_closed(&rt) && s.is_closed(&rt));
    let (s, r) = new::<u64>(&rt, None);
    equal(&rt, s.send(&rt, 1), Ok(()));
    drop(s);
    holds(&rt, r.is_disconnected(&rt) && !r.is_terminated(&rt));
    equal(&rt, r.recv(&rt), Ok(1));
    holds(&rt, r.is_terminated(&rt));
    equal(&rt, r.recv(&rt), Err(ReceiveError::SendClosed));
}
