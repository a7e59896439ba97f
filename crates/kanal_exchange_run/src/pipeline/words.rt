//! The stage: what becomes of a line.
ghost use Rattle.std.specs.Prelude.{◌≡◌, ◌%◌, ◌^◌, cond};
ghost use Rattle.kanal_exchange_run.specs.Words.{words_of};

use super::slow::Backlog;
use kanal_exchange::Stage;

/// Makes the number of its words of each line.
#[derive(Drop)]
pub struct Words<'a> {
    /// Where it is told that a count waits for the slow stage.
    pub waiting: &'a Backlog,
}

impl<'a> Stage for Words<'a> {
    type Input = String;

    type Output = u64;

    ghost use Rattle.std.specs.Prelude.{◌%◌, ◌^◌, string_bytes};
    ghost use Rattle.kanal_exchange_run.specs.Words.{words_of};

    ghost value = { λ _ line. words_of (string_bytes line) % 2 ^ 64 };

    fn apply(&self, message: String) -> Option<u64> {
        let count = words_of(message.as_str());
        self.waiting.begins();
        Some(count)
    }
}

/// How many words begin with a character that is white space or not, behind one that was of a word or not.
fn begun(inside: bool, white: bool) -> u64
    ensures { result ≡ cond white 0 (cond inside 0 1) }
{
    if white || inside { 0 } else { 1 }
}

/// How many words the line has.
fn words_of(line: &str) -> u64
    ensures { result ≡ words_of line.now % 2 ^ 64 }
{
    let mut count: u64 = 0;
    let mut inside = false;
    for character in line.chars() {
        let white = character.is_whitespace();
        count = count.wrapping_add(begun(inside, white));
        inside = !white;
    }
    count
}
