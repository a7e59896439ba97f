//! The buffer: a first-in first-out queue of messages, with a limit or without.
//!
//! A limited buffer has all its memory from the start, so that entering it is never refused for memory.
ghost use Rattle.std.specs.Prelude.{◌≡◌, ◌+◌, ◌^◌, ◌<◌, ◌≤◌, [], ◌∷◌, ◌++◌, length, true, IfOk, IfErr, IsOk, OnOk, MatchOption, None, Some};
ghost use Rattle.std.specs.Vec.{vec_capacity, vec_len};
ghost use Rattle.kanal_core.specs.Line.{is_below};

use circular_buffer::HeapCircularBuffer;
use std::alloc::{AllocError, Global};
use std::collections::VecDeque;
use std::marker::Model;
use std::mem;

/// Where the messages lie: nowhere for a limit of 0, else in a ring of exactly so many places; without a limit
/// in a deque.
#[derive(Drop)]
enum Store<T> {
    Nothing,
    Ring(HeapCircularBuffer<T>),
    Deque(VecDeque<T>),
}

#[derive(Drop)]
pub struct Buffer<T> {
    store: Store<T>,
}

impl<T> Model for Buffer<T> {
    ghost use Rattle.kanal_core.specs.BufferViews.{BufferView};

    ghost Value = { BufferView T };

    ghost use Rattle.kanal_core.specs.Stores.{view_of_store};

    ghost view = { λ b. view_of_store b.store };
}

impl<T> Buffer<T> {
    pub fn bounded(alloc: Global, limit: usize) -> Result<Self, AllocError>
        ensures new { IfOk result (λ b. b ≡ record { messages = []; limit = Some limit }) }
        ensures without_places { limit ≡ 0 → IsOk result }
    {
        if limit == 0 {
            return Ok(Buffer {
                store: Store::Nothing,
            });
        }
        let ring = HeapCircularBuffer::with_capacity(alloc, limit)?;
        Ok(Buffer {
            store: Store::Ring(ring),
        })
    }

    pub fn unbounded(alloc: Global) -> Self
        ensures { result ≡ record { messages = []; limit = None } }
    {
        Buffer {
            store: Store::Deque(VecDeque::new(alloc)),
        }
    }

    pub fn len(&self) -> usize
        ensures len { result ≡ length self.now.messages }
        ensures small { result < 2 ^ 63 }
    {
        match &self.store {
            Store::Nothing => 0,
            Store::Ring(ring) => ring.len(),
            Store::Deque(deque) => deque.len(),
        }
    }

    #[inline]
    pub fn has_place(&self) -> bool
        ensures { result ≡ is_below (length self.now.messages) self.now.limit }
    {
        match &self.store {
            Store::Nothing => false,
            Store::Ring(ring) => ring.len() < ring.capacity(),
            Store::Deque(_) => true,
        }
    }

    #[inline(always)]
    pub fn push_back(&mut self, message: T) -> Result<(), T>
        requires { is_below (length self.old.messages) self.old.limit ≡ true }
        ensures entered { OnOk result (self.new
            ≡ record self.old { messages = self.old.messages ++ message ∷ [] }) }
        ensures refused { IfErr result (λ back. (back ≡ message) × (self.new ≡ self.old)
            × (self.old.limit ≡ None)) }
    {
        match &mut self.store {
            Store::Nothing => unreachable!(),
            Store::Ring(ring) => {
                let oldest = ring.push_back(message);
                match oldest {
                    None => Ok(()),
                    Some(_overwritten) => unreachable!(),
                }
            },
            Store::Deque(deque) => match deque.push_back(message) {
                Ok(()) => Ok(()),
                Err(refused) => Err(refused.value),
            },
        }
    }

    #[inline]
    pub fn pop_front(&mut self) -> Option<T>
        ensures { MatchOption result ((self.old.messages ≡ []) × (self.new ≡ self.old))
            (λ m. (self.old.messages ≡ m ∷ self.new.messages) × (self.new.limit ≡ self.old.limit)) }
    {
        match &mut self.store {
            Store::Nothing => None,
            Store::Ring(ring) => ring.pop_front(),
            Store::Deque(deque) => deque.pop_front(),
        }
    }

    pub fn move_into(&mut self, into: &mut Vec<T>)
        requires { vec_len into.old + length self.old.messages ≤ vec_capacity into.old }
        ensures moved { into.new.items ≡ into.old.items ++ self.old.messages }
        ensures len { vec_len into.new ≡ vec_len into.old + length self.old.messages }
        ensures capacity { vec_capacity into.new ≡ vec_capacity into.old }
        ensures left { self.new ≡ record self.old { messages = [] } }
    {
        while let Some(message) = self.pop_front() {
            into.push_reserved(message);
        }
    }

    pub fn take_all(&mut self) -> Buffer<T>
        ensures out { result ≡ self.old }
        ensures left { self.new ≡ record { messages = []; limit = Some 0 } }
    {
        let store = mem::replace(&mut self.store, Store::Nothing);
        Buffer { store }
    }
}
