// Rings of waiting jobs.

ghost use Rattle.std.specs.Prelude.{◌≡◌, IfOk, map};
ghost use Rattle.mlk_machine_locks.specs.Laws.{has_ring_of};
ghost use Rattle.mlk_machine_jobs.specs.JobViews.{job_of};
ghost use Rattle.mlk_machine_jobs.specs.Runs.{seen};

use mlk_machine_jobs::Job;
use std::alloc::{AllocError, Global};

/// Whether some of the jobs wait in a ring, each for one of them.
pub(crate) fn has_ring(alloc: Global, jobs: &[Job]) -> Result<bool, AllocError>
    ensures { IfOk result (λ found. found ≡ has_ring_of seen (map job_of jobs.now)) }
{
    let found = mlk_machine_locks::has_ring(alloc, jobs)?;
    Ok(found)
}
