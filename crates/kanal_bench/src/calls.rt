//! The scenarios of a recorded channel: calls through several passes, with the check of their history and
//! without. What one run takes less than the other is what the check costs.
use anyhow::{Result, bail};
use kanal_recorded::{Pass, Recorded};
use std::alloc::Global;
use std::sync::Wait;

/// How many messages the channel's buffer holds.
const CAPACITY: usize = 64;

/// So many rounds of calls, each on a channel of its own.
#[derive(Copy, Clone)]
pub struct Rounds {
    /// How many calls a round makes.
    pub count: usize,
    /// Through how many passes.
    pub passes: usize,
    /// How many rounds there are.
    pub rounds: usize,
    /// Whether each round's history is checked.
    pub is_checked: bool,
}

impl Rounds {
    /// Makes the rounds, and answers how many entries or calls the last one had.
    pub fn make<R: Wait>(self, rt: &R, alloc: Global) -> Result<usize> {
        let mut last = 0;
        for _ in 0..self.rounds {
            last = self.make_one(rt, alloc)?;
        }
        Ok(last)
    }

    /// Makes the calls, and checks their history or leaves it.
    fn make_one<R: Wait>(self, rt: &R, alloc: Global) -> Result<usize> {
        let channel = Recorded::new(alloc, Some(CAPACITY))?;
        let mut passes = Vec::new(alloc);
        draw(rt, &channel, &mut passes, self.passes)?;
        talk(rt, &channel, &mut passes, self.count);
        if !self.is_checked {
            return Ok(self.count);
        }
        match channel.finish(passes) {
            Ok(journal) => Ok(journal.entries.len()),
            Err(_) => bail!("the lists don't agree with the journal"),
        }
    }
}

/// Draws so many passes.
fn draw<R: Wait>(
    rt: &R,
    channel: &Recorded<u64>,
    passes: &mut Vec<Pass<u64>>,
    count: usize,
) -> Result<()> {
    for _ in 0..count {
        passes.push(channel.pass(rt)?)?;
    }
    Ok(())
}

/// Makes a send and a receive through each of the passes in turn, until there are so many calls.
fn talk<R: Wait>(rt: &R, channel: &Recorded<u64>, passes: &mut [Pass<u64>], count: usize) {
    let parties = passes.len();
    if parties == 0 {
        return;
    }
    for number in 0..count {
        let Some(pass) = passes.get_mut(number / 2 % parties) else {
            return;
        };
        if number % 2 == 0 {
            pass.try_send(rt, channel, number as u64);
        } else {
            pass.try_recv(rt, channel);
        }
    }
}
