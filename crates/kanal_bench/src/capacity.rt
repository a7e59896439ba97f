//! How many messages a channel's buffer holds, and channels of that capacity.
use crate::number;
use anyhow::{Result, bail};
use kanal::error::NewError;
use kanal::{Receiver, Sender};
use std::alloc::Global;

/// The two ends of the channel that is measured.
pub type Ends = (Sender<u64>, Receiver<u64>);

/// How many messages the channel's buffer holds.
#[derive(Copy, Clone)]
pub enum Capacity {
    /// So many.
    Limited(usize),
    /// As many as are sent.
    Unlimited,
}

impl Capacity {
    /// The capacity that the first of these words names, which is to be no less than the least.
    pub fn read(words: &[String], least: usize) -> Result<Self> {
        if let [word, ..] = words {
            if word.as_str() == "u" {
                return Ok(Capacity::Unlimited);
            }
        }
        let size = usize::try_from(number(words, 0)?)?;
        if size < least {
            bail!("this scenario wants a capacity of {least} or more, or u");
        }
        Ok(Capacity::Limited(size))
    }

    /// A channel of this capacity.
    pub fn open(self, alloc: Global) -> std::result::Result<Ends, NewError> {
        match self {
            Capacity::Limited(size) => kanal::bounded(alloc, size),
            Capacity::Unlimited => kanal::unbounded(alloc),
        }
    }
}
