// Jobs that begin at declared entries.

ghost use Rattle.std.specs.Prelude.{◌≡◌, OnErr, Some, map};
ghost use Rattle.mlk_text.specs.Failures.{Answers};
ghost use Rattle.mlk_machine_locks.specs.Systems as systems;
ghost use Rattle.mlk_machine_locks.specs.Systems.{happens};
ghost use Rattle.mlk_machine_jobs.specs.JobViews.{job_of};
ghost use Rattle.mlk_machine_run.specs.Jobs.{AreSound, StayCovered};
ghost use Rattle.mlk_machine.specs.Jobs.{is_listed};
ghost use Rattle.mlk_machine.specs.Numbers.{AreNumbers};
ghost use Rattle.mlk_machine.specs.Systems.{machine_in};

use crate::number::is_used;
use indexmap::IndexSet;
use mlk_machine_jobs::Job;
use mlk_machine_locks::Refusal;
use mlk_machine_run::{Beginning, join};
use mlk_program::{EntryId, Program};
use mlk_text::Failure;
use std::alloc::Global;

// Whether jobs may begin at `entry`.
fn is_declared(entries: &[EntryId], entry: EntryId) -> bool
    ensures { result ≡ is_listed entries.now entry }
{
    entries.iter().any(|declared| *declared == entry)
}

/// Adds a job, whose entry must be one of `entries`.
pub(crate) fn begin<'a>(
    alloc: Global,
    program: &Program<'a>,
    entries: &[EntryId],
    numbers: &mut IndexSet<u32>,
    jobs: &mut Vec<Job<'a>>,
    beginning: &Beginning<'_>,
) -> Result<(), Failure<Refusal>>
    requires sound { AreSound jobs.old.items }
    requires numbers { AreNumbers numbers.old.keys jobs.old.items }
    ensures answer { Answers (λ _. map job_of jobs.new.items) result
        (happens (machine_in program.now entries.now) (map job_of jobs.old.items) beginning.now.number
        (systems.Begin beginning.now.entry beginning.now.test (map Some beginning.now.values.now))) }
    ensures stays { OnErr result (map job_of jobs.new.items ≡ map job_of jobs.old.items) }
    ensures sound { AreSound jobs.new.items }
    ensures numbers { AreNumbers numbers.new.keys jobs.new.items }
    ensures covered { StayCovered jobs.old.items jobs.new.items }
{
    let is_declared = is_declared(entries, beginning.entry);
    let is_used = is_used(numbers, beginning.number);
    numbers.reserve(1)?;
    match join(alloc, program, jobs, beginning, is_declared, is_used) {
        Ok(()) => {
            let _ = numbers.insert(beginning.number);
            Ok(())
        }
        Err(why) => Err(why),
    }
}
