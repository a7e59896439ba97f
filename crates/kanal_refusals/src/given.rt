//! Messages that have a number and are counted while they live.
use kanal_given::{Counted, Drops};
use std::alloc::Global;
use std::cell::Cell;

/// A message. What a helping thread sends isn't counted.
#[derive(Drop)]
pub struct Message {
    /// Its number.
    pub number: u64,
    /// What counts it.
    pub counted: Option<Counted>,
}

/// Makes messages, and counts them.
#[derive(Drop)]
pub struct Given {
    drops: Drops,
    made: Cell<u64>,
}

impl Given {
    /// No message was made. The counter is asked for again where it was refused.
    pub fn new(alloc: Global) -> Option<Self> {
        let drops = match Drops::new(alloc) {
            Err(_refused) => Drops::new(alloc).ok()?,
            Ok(drops) => drops,
        };
        Some(Given {
            drops,
            made: Cell::new(0),
        })
    }

    /// A message with this number, which is counted.
    pub fn message(&self, number: u64) -> Option<Message> {
        let counted = self.drops.message().ok()?;
        self.made.set(self.made.get().wrapping_add(1));
        Some(Message {
            number,
            counted: Some(counted),
        })
    }

    /// How many of them weren't dropped yet.
    pub fn alive(&self) -> u64 {
        self.made.get().wrapping_sub(self.drops.count())
    }
}
