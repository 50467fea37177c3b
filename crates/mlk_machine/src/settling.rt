// How far a job runs by itself.

ghost use Rattle.std.specs.Prelude.{◌≡◌, IfOk, OnErr, map};
ghost use Rattle.mlk_text.specs.Failures.{Answers};
ghost use Rattle.mlk_syntax.specs.Views.{routine_of};
ghost use Rattle.mlk_machine_jobs.specs.JobViews.{job_of};
ghost use Rattle.mlk_machine_jobs.specs.Seen.{settled, settled_in, most_silent_steps};
ghost use Rattle.mlk_machine_jobs.specs.Sound.{Sound};
ghost use Rattle.mlk_machine_run.specs.Jobs.{AreSound, StayCovered, TakesNone};
ghost use Rattle.mlk_machine.specs.Numbers.{AreNumbers};

use crate::copying::copy_job;
use crate::number::place_in;
use indexmap::IndexSet;
use mlk_machine_jobs::Job;
use mlk_machine_locks::Refusal;
use mlk_machine_run::silent_step;
use mlk_program::Program;
use mlk_text::Failure;
use std::alloc::{AllocError, Global};

/// The maximum number of steps that a job makes by itself.
pub const MOST_SILENT_STEPS: u32 = 65_536;

/// Lets a job run by itself while its next task is silent, up to the maximum number of steps; returns how many it made.
pub(crate) fn settle<'a>(
    alloc: Global,
    program: &Program<'a>,
    job: &mut Job<'a>,
) -> Result<u32, AllocError>
    requires { Sound job.old }
    ensures settled { IfOk result (λ count. settled (map routine_of program.now) most_silent_steps (job_of job.old)
        ≡ (job_of job.new, count)) }
    ensures sound { Sound job.new }
    ensures held { TakesNone (job_of job.old) (job_of job.new) }
{
    let mut count = 0;
    while count < MOST_SILENT_STEPS {
        let made = silent_step(alloc, program, job)?;
        if !made {
            return Ok(count);
        }
        count += 1;
    }
    Ok(count)
}

/// Lets the first job with the number `number` run by itself; returns how many steps it made. It works on a copy of the job: if
/// memory runs out between steps, all jobs are unchanged.
pub(crate) fn settle_numbered<'a>(
    alloc: Global,
    program: &Program<'a>,
    numbers: &IndexSet<u32>,
    jobs: &mut Vec<Job<'a>>,
    number: u32,
) -> Result<u32, Failure<Refusal>>
    requires sound { AreSound jobs.old.items }
    requires numbers { AreNumbers numbers.now.keys jobs.old.items }
    ensures answer { Answers (λ count. (map job_of jobs.new.items, count)) result
        (settled_in (map routine_of program.now) number (map job_of jobs.old.items)) }
    ensures stays { OnErr result (jobs.new ≡ jobs.old) }
    ensures sound { AreSound jobs.new.items }
    ensures numbers { AreNumbers numbers.now.keys jobs.new.items }
    ensures covered { StayCovered jobs.old.items jobs.new.items }
{
    let Some(place) = place_in(numbers, number) else {
        return Err(Failure::Refused(Refusal::UnknownJob));
    };
    let mut job = copy_job(alloc, &jobs[place])?;
    let count = settle(alloc, program, &mut job)?;
    jobs[place] = job;
    Ok(count)
}
