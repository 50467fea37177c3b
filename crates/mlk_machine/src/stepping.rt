// The acts of the job with a given number.

ghost use Rattle.std.specs.Prelude.{◌≡◌, OnErr, Bool, List, map};
ghost use Rattle.mlk_text.specs.Failures.{Answers};
ghost use Rattle.mlk_machine_locks.specs.Systems as systems;
ghost use Rattle.mlk_machine_locks.specs.Systems.{and_then, happens};
ghost use Rattle.mlk_program.specs.declared.entry.EntryId.{EntryId};
ghost use Rattle.mlk_syntax.specs.Trees.{RoutineTree};
ghost use Rattle.mlk_syntax.specs.Views.{routine_of};
ghost use Rattle.mlk_machine_jobs.specs.JobViews.{job_of};
ghost use Rattle.mlk_machine_jobs.specs.Runs.{machine};
ghost use Rattle.mlk_machine_locks.specs.Tables.{Covers};
ghost use Rattle.mlk_machine_run.specs.Jobs.{AreSound, StayCovered, seen_in};
ghost use Rattle.mlk_machine.specs.Numbers.{AreNumbers};

use crate::number::place_in;
use indexmap::IndexSet;
use mlk_machine_jobs::Job;
use mlk_machine_locks::{LockTable, Refusal};
use mlk_machine_run::{Turn, abort, step_job};
use mlk_program::Program;
use mlk_text::Failure;
use std::alloc::Global;

/// Makes a step of a job.
pub(crate) fn go_numbered<'a>(
    alloc: Global,
    program: &Program<'a>,
    numbers: &IndexSet<u32>,
    table: &mut LockTable,
    jobs: &mut Vec<Job<'a>>,
    turn: Turn,
) -> Result<(), Failure<Refusal>>
    requires sound { AreSound jobs.old.items }
    requires numbers { AreNumbers numbers.now.keys jobs.old.items }
    requires covers { Covers seen_in table.old jobs.old.items }
    ensures answer { (declared : EntryId → Bool) → Answers (λ _. map job_of jobs.new.items) result
        (happens (machine (map routine_of program.now) declared) (map job_of jobs.old.items) turn.number
        (systems.Go turn.choice)) }
    ensures stays { OnErr result (map job_of jobs.new.items ≡ map job_of jobs.old.items) }
    ensures sound { AreSound jobs.new.items }
    ensures numbers { AreNumbers numbers.now.keys jobs.new.items }
    ensures covers { Covers seen_in table.new jobs.new.items }
{
    let place = place_in(numbers, turn.number);
    step_job(alloc, program, table, jobs, place, turn)
}

/// Aborts the job `number`.
pub(crate) fn abort_numbered(
    alloc: Global,
    numbers: &IndexSet<u32>,
    jobs: &mut Vec<Job>,
    number: u32,
) -> Result<(), Failure<Refusal>>
    requires sound { AreSound jobs.old.items }
    requires numbers { AreNumbers numbers.now.keys jobs.old.items }
    ensures answer { (routines : List RoutineTree) (declared : EntryId → Bool)
        → Answers (λ _. map job_of jobs.new.items) result
        (happens (machine routines declared) (map job_of jobs.old.items) number systems.Abort) }
    ensures stays { OnErr result (map job_of jobs.new.items ≡ map job_of jobs.old.items) }
    ensures sound { AreSound jobs.new.items }
    ensures numbers { AreNumbers numbers.now.keys jobs.new.items }
    ensures covered { StayCovered jobs.old.items jobs.new.items }
{
    let place = place_in(numbers, number);
    match abort(alloc, jobs, place, number) {
        Ok(()) => Ok(()),
        Err(why) => Err(Failure::Refused(why)),
    }
}
