//! The lock: one try while it is held and while it is free.
use crate::tests::given::equal;
use kanal_core::mutex::Mutex;

/// What one try of the lock reads.
fn read(shared: &Mutex<u64>) -> Option<u64> {
    let guard = shared.try_lock()?;
    Some(*guard)
}

#[test]
fn one_try(rt: HostRuntime) {
    let shared = Mutex::new(7u64);
    let mut guard = shared.lock(&rt);
    *guard = 8;
    equal(&rt, read(&shared), None);
    drop(guard);
    equal(&rt, read(&shared), Some(8));
    equal(&rt, shared.into_inner(), 8);
}
