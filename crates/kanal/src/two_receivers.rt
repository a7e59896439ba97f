//! A receive over two receivers, the first of which is asked before the second.
//!
//! Here are the two streams put together; what a poll does stands in `kanal_futures`.
ghost use Rattle.std.specs.Prelude.{◌≡◌, false};
ghost use Rattle.kanal_futures.specs.Prefers.{first_stream, second_stream};
ghost use Rattle.kanal_futures.specs.Streams.{stream_is_over};

use crate::async_receiver::AsyncReceiver;
use kanal_futures::{Prefer, prefer_streams};
use kanal_state::History;

/// The messages of two receivers, of which the first is asked before the second each time; a `&Receiver` will do, too.
/// It is a stream for tasks, and `Prefer::for_each` is its loop for a thread. It ends when both have ended: `first()`
/// and `second()` have each one's `fault`. Neither this call nor a poll waits for anybody.
///
/// While it lives nothing is lost. Its drop drops a message that was handed to one of its waits and that no poll has
/// answered yet: at most one of each receiver. To lose nothing, seal both channels and go on until it ends.
///
/// # Examples
/// ```text
/// let mut both = kanal::prefer(&urgent, &normal);
/// block_on(&rt, both.next())   gives  Some(Either::Left(1))    where 1 was sent to `urgent`, and 2 to `normal`
/// block_on(&rt, both.next())   gives  Some(Either::Right(2))   after that
/// ```
pub fn prefer<'a, A: Drop, B: Drop, G: History<A, Pass = ()>, H: History<B, Pass = ()>>(
    first: &'a AsyncReceiver<A, G>,
    second: &'a AsyncReceiver<B, H>,
) -> Prefer<'a, A, B, G, H>
    ensures first { stream_is_over (first_stream result) ≡ false }
    ensures second { stream_is_over (second_stream result) ≡ false }
{
    prefer_streams(first.stream(), second.stream())
}
