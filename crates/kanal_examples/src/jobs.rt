//! Jobs as programs have them, by a pool: checksums over pieces of a borrowed buffer, columns of a borrowed table,
//! texts that a job owns, and divisions that may fail. One function does all that can be compared, and promises
//! their answers.
ghost use Rattle.std.specs.Prelude.{if◌then◌else◌, Ok, Err, IfOk, ◌≡◌, ◌==◌, ◌+◌, ◌*◌, ◌/◌, ◌%◌, ◌^◌, fold, length, map};
ghost use Rattle.std.specs.Str.{chars};
ghost use Rattle.std.specs.String.{string_bytes};
ghost use Rattle.kanal_pool.specs.Equality.{equal_fields};
ghost use Rattle.kanal_examples.specs.declared.jobs.NoQuotient.TheVariants.{ByZero, Uneven};

use anyhow::{Result, bail};
use kanal_pool::{Job, NoGate, NoMemory, map_in_turn, map_jobs};
use std::alloc::{AllocGlobal, Global};
use std::fmt::Debug;
use std::marker::Model;
use std::sync::Wait;
use std::thread::{self, Threads};

/// A piece of a buffer that somebody else owns, and the numbers of its checksum.
#[derive(Clone, Copy, PartialEq, Eq)]
struct Checksum<'a> {
    bytes: &'a [u8],
    seed: u32,
    factor: u32,
    addend: u32,
    last: u32,
}

impl Job for Checksum<'_> {
    /// The checksum of the piece.
    type Answer = u32;

    ghost value = { λ job. (fold (λ sum byte. (sum * job.factor + job.addend + byte) % 2 ^ 32)
        job.seed job.bytes.now + job.last) % 2 ^ 32 };

    fn work(&self) -> Result<u32, NoMemory> {
        let sum = self.bytes.iter().fold(self.seed, |sum, byte| {
            let sum = sum.wrapping_mul(self.factor).wrapping_add(self.addend);
            sum.wrapping_add(u32::from(*byte))
        });
        Ok(sum.wrapping_add(self.last))
    }

    ghost equal_values = { Prim.search equal_fields };
}

/// Rows of a table that somebody else owns. Their column is made with the allocator.
#[derive(Clone, Copy, Eq, PartialEq)]
struct Rows<'a> {
    rows: &'a [[u32; 2]],
    scale: u32,
    offset: u32,
    alloc: Global,
}

/// A number for each row. A proof sees these, and not how much memory the vector has.
#[derive(Drop)]
struct Column {
    numbers: Vec<u32>,
}

impl Model for Column {
    ghost use Rattle.std.specs.Prelude.{ℕ, List};

    ghost Value = { List ℕ };

    ghost view = { λ column. column.numbers.items };
}

impl Job for Rows<'_> {
    /// The sum of each row, scaled.
    type Answer = Column;

    ghost value = { λ job. map (λ row. (fold (λ sum number. (sum + number) % 2 ^ 32) 0 row * job.scale
        + job.offset) % 2 ^ 32) job.rows.now };

    fn work(&self) -> Result<Column, NoMemory> {
        let sums = self.rows.iter().map(|row| {
            let sum = row
                .iter()
                .fold(0u32, |sum, number| sum.wrapping_add(*number));
            sum.wrapping_mul(self.scale).wrapping_add(self.offset)
        });
        let numbers = sums.collect(self.alloc).map_err(|_| NoMemory)?;
        Ok(Column { numbers })
    }

    ghost equal_values = { Prim.search equal_fields };
}

/// A text whose characters are counted.
#[derive(Drop, PartialEq, Eq)]
struct Letters {
    /// The text, which the job owns.
    text: String,
}

impl Job for Letters {
    /// The number of characters.
    type Answer = usize;

    ghost value = { λ job. length (chars (string_bytes job.text)) };

    #[tactic(auto, using(std::proofs::lemmas::Str::chars_from_encodes))]
    fn work(&self) -> Result<usize, NoMemory> {
        Ok(self.text.chars().count())
    }

    ghost equal_values = { Prim.search equal_fields };
}

/// Why a division has no quotient.
#[derive(Clone, Copy, Debug, PartialEq, Eq)]
enum NoQuotient {
    /// The divisor is 0.
    ByZero,
    /// The division leaves this rest.
    Uneven(u32),
}

/// A division that has to leave no rest.
#[derive(Clone, Copy, Debug, PartialEq, Eq)]
struct Division {
    /// What is divided.
    dividend: u32,
    /// What it is divided by.
    divisor: u32,
}

impl Job for Division {
    /// The quotient, or why there is none.
    type Answer = Result<u32, NoQuotient>;

    ghost value = { λ job. if job.divisor == 0 then Err ByZero
        else if job.dividend % job.divisor == 0 then Ok (job.dividend / job.divisor)
        else Err (Uneven (job.dividend % job.divisor)) };

    fn work(&self) -> Result<Result<u32, NoQuotient>, NoMemory> {
        if self.divisor == 0 {
            return Ok(Err(NoQuotient::ByZero));
        }
        match self.dividend % self.divisor {
            0 => Ok(Ok(self.dividend / self.divisor)),
            rest => Ok(Err(NoQuotient::Uneven(rest))),
        }
    }

    ghost equal_values = { Prim.search equal_fields };
}

/// Does the jobs on as many threads as the machine has processors, and compares with what this thread answers.
fn answers_of<R: Threads + Wait + Sync + AllocGlobal, J: Job + Sync>(
    rt: &R,
    jobs: &[J],
) -> Result<Vec<J::Answer>>
where
    J::Answer: Send + PartialEq + Debug + Drop,
    ensures { IfOk result (λ answers. answers.items ≡ map J.value jobs.now) }
{
    let workers = thread::available_parallelism(rt)?.get();
    let answers = map_jobs(rt, rt.alloc(), jobs, workers, &NoGate)?;
    if answers != map_in_turn(rt.alloc(), jobs)? {
        bail!("one thread answers otherwise");
    }
    Ok(answers)
}

/// Prints the answers of each kind of job, and what a pool without a worker answers.
pub fn show<R: Threads + Wait + AllocGlobal + Print + Sync>(rt: &R) -> Result<()> {
    let buffer = b"a buffer whose pieces are borrowed";
    let pieces = buffer.chunks(8).map(|bytes| Checksum {
        bytes,
        seed: 7,
        factor: 31,
        addend: 3,
        last: 1,
    });
    let sums = answers_of(rt, &pieces.collect::<Vec<_>>(rt.alloc())?)?;
    println!(rt; "checksums {sums:?}")?;

    let (table, alloc) = ([[1, 2], [3, 4], [5, 6]], rt.alloc());
    let parts = table.chunks(2).map(|rows| Rows {
        rows,
        scale: 10,
        offset: 1,
        alloc,
    });
    for column in map_jobs(rt, alloc, &parts.collect::<Vec<_>>(alloc)?, 2, &NoGate)? {
        println!(rt; "sums {:?}", column.numbers)?;
    }

    let mut letters = Vec::new(rt.alloc());
    for word in ["one", "zwölf", ""] {
        let text = String::from_str(rt.alloc(), word)?;
        letters.push(Letters { text })?;
    }
    println!(rt; "characters {:?}", answers_of(rt, &letters)?)?;

    let divisions = [(12, 4), (7, 0), (9, 2)].map(|(dividend, divisor)| Division {
        dividend,
        divisor,
    });
    println!(rt; "quotients {:?}", answers_of(rt, &divisions)?)?;
    match map_jobs(rt, rt.alloc(), &divisions, 0, &NoGate) {
        Err(error) => println!(rt; "without a worker: {error}")?,
        Ok(answers) => println!(rt; "answered by nobody: {answers:?}")?,
    }
    Ok(())
}
