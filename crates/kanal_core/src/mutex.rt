//! The lock round a value that threads share. It is never poisoned.
//!
//! The value keeps its type's invariant; nothing else is known of it when the lock is got. No other module takes
//! std's lock.
use std::sync;
use std::sync::{MutexGuard, Wait};

/// A value that one caller at a time is lent.
#[derive(Drop)]
pub struct Mutex<T> {
    inner: sync::Mutex<T>,
}

impl<T> Mutex<T> {
    /// A free lock round the value.
    ///
    /// # Examples
    /// ```text
    /// let shared = Mutex::new(7);
    /// shared.try_lock()   answers  Some(guard)   which lends the 7
    /// ```
    pub fn new(value: T) -> Self {
        Mutex {
            inner: sync::Mutex::new(value),
        }
    }

    /// Waits until the lock is free, and takes it until the guard is dropped.
    ///
    /// # Examples
    /// ```text
    /// let mut guard = shared.lock(rt);
    /// *guard = 8;
    /// ```
    pub fn lock<R: Wait>(&self, rt: &R) -> MutexGuard<'_, T> {
        self.inner.lock(rt)
    }

    /// Tries once to take the lock; `None` where it is held. It never waits.
    ///
    /// # Examples
    /// ```text
    /// let guard = shared.lock(rt);
    /// shared.try_lock()   answers  None   while the guard is there
    /// ```
    pub fn try_lock(&self) -> Option<MutexGuard<'_, T>> {
        self.inner.try_lock()
    }

    /// The value, after the lock's life.
    /// Example: `Mutex::new(7).into_inner()` answers `7`.
    pub fn into_inner(self) -> T {
        self.inner.into_inner()
    }
}
