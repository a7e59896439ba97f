//! A fact that goes through a channel in the messages' type.
ghost use Rattle.std.specs.Prelude.{◌≡◌, ◌%◌, IfOk};

use anyhow::Result;
use kanal::Receiver;
use kanal::error::ReceiveError;
use std::alloc::AllocGlobal;
use std::sync::Wait;

/// A number that is even, as its type says.
#[derive(Drop)]
pub struct Even {
    number: u64,
    ghost even: { number % 2 ≡ 0 },
}

impl Even {
    /// Twice the number.
    pub fn twice(number: u32) -> Even {
        Even {
            number: u64::from(number) * 2,
        }
    }
}

/// The next number that comes, of which the contract says that it is even.
pub fn next_even<R: Wait>(
    rt: &R,
    receiver: &Receiver<Even>,
) -> std::result::Result<u64, ReceiveError>
    ensures { IfOk result (λ number. number % 2 ≡ 0) }
{
    let even = receiver.recv(rt)?;
    Ok(even.number)
}

/// An even number that goes through a channel.
pub fn through_a_channel<R: Wait + AllocGlobal + Print>(rt: &R) -> Result<()> {
    let (sender, receiver) = kanal::bounded::<Even>(rt.alloc(), 1)?;
    sender.send(rt, Even::twice(21))?;
    println!(rt; "{}", next_even(rt, &receiver)?)?;
    Ok(())
}
