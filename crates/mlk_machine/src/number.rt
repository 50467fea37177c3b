// Jobs by their numbers.

ghost use Rattle.std.specs.Prelude.{◌≡◌, List, ℕ, map, option_map};
ghost use Rattle.mlk_machine_locks.specs.Waiting.{is_numbered};
ghost use Rattle.mlk_machine_jobs.specs.declared.job.Job.{Job as JobIn};
ghost use Rattle.mlk_machine_jobs.specs.JobViews.{job_of};
ghost use Rattle.mlk_machine_jobs.specs.Runs.{seen};
ghost use Rattle.mlk_machine_run.specs.Jobs.{IsPlaceOf};
ghost use Rattle.mlk_machine.specs.Jobs.{job_numbered};
ghost use Rattle.mlk_machine.specs.Numbers.{AreNumbers};

use indexmap::IndexSet;
use mlk_machine_jobs::Job;

/// The index of the job with the number `number`, or `None`.
#[tactic(auto, using(crate::proofs::NumberLemmas::is_place))]
pub(crate) fn place_in(numbers: &IndexSet<u32>, number: u32) -> Option<usize>
    ensures { (jobs : List JobIn) → AreNumbers numbers.now.keys jobs → IsPlaceOf number jobs result }
{
    numbers.get_index_of(&number)
}

/// Whether a job has the number `number`.
#[tactic(auto, using(crate::proofs::NumberLemmas::is_used))]
pub(crate) fn is_used(numbers: &IndexSet<u32>, number: u32) -> bool
    ensures { (jobs : List JobIn) → AreNumbers numbers.now.keys jobs
        → result ≡ is_numbered seen (map job_of jobs) number }
{
    numbers.contains(&number)
}

/// The first job with the number `number`, or `None`.
pub(crate) fn job_numbered<'j, 'a>(
    numbers: &IndexSet<u32>,
    jobs: &'j [Job<'a>],
    number: u32,
) -> Option<&'j Job<'a>>
    requires { AreNumbers numbers.now.keys jobs.now }
    ensures { option_map (λ j. job_of j.now) result ≡ job_numbered number (map job_of jobs.now) }
{
    let Some(place) = place_in(numbers, number) else {
        return None;
    };
    Some(&jobs[place])
}
