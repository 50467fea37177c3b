// Which job waits for which.

ghost use Rattle.std.specs.Prelude.{◌≡◌, ◌++◌, IfOk, OnOk, map};
ghost use Rattle.mlk_machine_jobs.specs.JobViews.{job_of};
ghost use Rattle.mlk_machine_view.specs.Clashes as tests;

use mlk_machine_jobs::Job;
use mlk_machine_locks::waits_for;
use std::alloc::{AllocError, Global};

// Adds the numbers of a job and of each job in `others` for which it waits.
fn add_waits<'a>(
    pairs: &mut Vec<(u32, u32)>,
    job: &Job<'a>,
    others: &[Job<'a>],
) -> Result<(), AllocError>
    ensures { OnOk result (pairs.new.items ≡ pairs.old.items ++ tests.waits_of (job_of job.now) (map job_of others.now)) }
{
    for other in others {
        if waits_for(job, other) {
            pairs.push((job.number, other.number))?;
        }
    }
    Ok(())
}

/// The numbers of jobs and of those for which they wait, in the order of the jobs.
pub fn waiting_pairs<'a>(alloc: Global, jobs: &[Job<'a>]) -> Result<Vec<(u32, u32)>, AllocError>
    ensures { IfOk result (λ pairs. pairs.items ≡ tests.waits_among (map job_of jobs.now)) }
{
    let mut pairs = Vec::new(alloc);
    for job in jobs {
        add_waits(&mut pairs, job, jobs)?;
    }
    Ok(pairs)
}
