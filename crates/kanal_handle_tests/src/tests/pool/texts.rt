//! The texts of the pool's error.
use crate::tests::given::equal;
use kanal_pool::PoolError;
use std::alloc::AllocGlobal;

const TEXTS: &[(PoolError, &str)] = &[
    (PoolError::NoWorkers, "no workers"),
    (PoolError::TooLarge, "capacity too large"),
    (PoolError::NoMemory, "no memory"),
    (PoolError::NoThread, "no thread"),
    (PoolError::Incomplete, "incomplete"),
];

#[test]
fn each_refusal_has_its_text(rt: HostRuntime) {
    for (error, expected) in TEXTS {
        let text = format!(in rt.alloc(); "{error}").expect(&rt, "memory for a text");
        equal(&rt, text.as_str(), expected);
    }
}
