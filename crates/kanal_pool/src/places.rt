//! The places of the answers: one a job, each empty or with that job's value.
ghost use Rattle.std.specs.Prelude.{◌≡◌, ◌⊎◌, IfOk, IfErr, OnOk, OnErr};
ghost use Rattle.kanal_pool.specs.declared.error.PoolError.{PoolError};
ghost use Rattle.kanal_pool.specs.Answers.{answers, AreInPlace, FillsEmpty};

use crate::error::PoolError;
use crate::job::Job;
use kanal::error::NoMemory;
use std::alloc::Global;

/// A job's answer, as it comes back from a worker.
#[derive(Drop)]
pub struct JobAnswer<'a, J: Job> {
    number: usize,
    job: &'a J,
    answer: J::Answer,
    ghost is_value: { answer ≡ J.value job.now },
}

pub fn work_on<'a, J: Job>(number: usize, job: &'a J) -> Result<JobAnswer<'a, J>, NoMemory> {
    let answer = job.work()?;
    Ok(JobAnswer {
        number,
        job,
        answer,
    })
}

pub fn empty_places<J: Job>(alloc: Global, jobs: &[J]) -> Result<Vec<Option<J::Answer>>, NoMemory>
    ensures { IfOk result (λ places. AreInPlace J.value jobs.now places.items) }
{
    let Ok(mut places) = Vec::with_capacity(alloc, jobs.len()) else {
        return Err(NoMemory);
    };
    for _ in jobs {
        let Ok(()) = places.push(None) else {
            return Err(NoMemory);
        };
    }
    Ok(places)
}

/// Puts the answer at its job's place. It comes back where that is not its job, or the place has an answer.
pub fn put<'a, J: Job>(
    jobs: &[J],
    places: &mut Vec<Option<J::Answer>>,
    answered: JobAnswer<'a, J>,
) -> Result<(), JobAnswer<'a, J>>
    requires { AreInPlace J.value jobs.now places.old.items }
    ensures in_place { AreInPlace J.value jobs.now places.new.items }
    ensures filled { OnOk result
        (FillsEmpty places.old.items answered.entry.number answered.entry.answer places.new.items) }
    ensures refused { OnErr result (places.new.items ≡ places.old.items) }
{
    let JobAnswer {
        number,
        job,
        answer,
    } = answered;
    let Some(own) = jobs.get(number) else {
        return Err(JobAnswer {
            number,
            job,
            answer,
        });
    };
    if own == job && number < places.len() && places[number].is_none() {
        places[number] = Some(answer);
        return Ok(());
    }
    Err(JobAnswer {
        number,
        job,
        answer,
    })
}

/// The answers, once each place has one; `Incomplete` where one is empty, `NoMemory` where memory was refused.
pub fn all_answers<J: Job>(
    alloc: Global,
    jobs: &[J],
    places: Vec<Option<J::Answer>>,
) -> Result<Vec<J::Answer>, PoolError>
    requires { AreInPlace J.value jobs.now places.items }
    ensures answers { IfOk result (λ found. found.items ≡ answers J.value jobs.now) }
    ensures refused { IfErr result (λ why. (why ≡ PoolError.NoMemory) ⊎ (why ≡ PoolError.Incomplete)) }
{
    let Ok(mut found) = Vec::with_capacity(alloc, places.len()) else {
        return Err(PoolError::NoMemory);
    };
    for place in places {
        let Some(answer) = place else {
            return Err(PoolError::Incomplete);
        };
        let Ok(()) = found.push(answer) else {
            return Err(PoolError::NoMemory);
        };
    }
    Ok(found)
}
