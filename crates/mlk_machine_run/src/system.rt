// Jobs that run a program and share its locks.

ghost use Rattle.std.specs.Prelude.{◌≡◌, ◌&&◌, OnErr, Ok, Bool, List, Some, map};
ghost use Rattle.mlk_text.specs.Failures.{Answers};
ghost use Rattle.mlk_machine_locks.specs.Systems as systems;
ghost use Rattle.mlk_machine_locks.specs.Waiting.{is_numbered};
ghost use Rattle.mlk_machine_locks.specs.Systems.{and_then, happens};
ghost use Rattle.mlk_program.specs.declared.entry.EntryId.{EntryId as EntryOf};
ghost use Rattle.mlk_syntax.specs.Trees.{RoutineTree};
ghost use Rattle.mlk_syntax.specs.Views.{routine_of};
ghost use Rattle.mlk_machine_jobs.specs.Runs.{machine, seen, is_job_number};
ghost use Rattle.mlk_machine_jobs.specs.JobViews.{job_of};
ghost use Rattle.mlk_machine_locks.specs.Tables.{Covers};
ghost use Rattle.mlk_machine_run.specs.Jobs.{AreSound, IsPlaceOf, StayCovered, seen_in};

use crate::beginning::{Beginning, begin};
use crate::stepping::{claimed_names, step};
use mlk_machine_jobs::{Choice, Job};
use mlk_machine_locks::{LockTable, Refusal};
use mlk_program::Program;
use mlk_text::Failure;
use std::alloc::Global;

/// A step of the job `number`, with the choice `choice`.
#[derive(Drop)]
pub struct Turn {
    pub number: u32,
    pub choice: Choice,
}

/// Makes one step of a job, which is at `place`, if there is one. The table finds the jobs that hold conflicting names. If memory
/// runs out, or the step is refused, all jobs are unchanged.
pub fn step_job<'a>(
    alloc: Global,
    program: &Program<'a>,
    table: &mut LockTable,
    jobs: &mut Vec<Job<'a>>,
    place: Option<usize>,
    turn: Turn,
) -> Result<(), Failure<Refusal>>
    requires sound { AreSound jobs.old.items }
    requires place { IsPlaceOf turn.number jobs.old.items place }
    requires covers { Covers seen_in table.old jobs.old.items }
    ensures answer { (declared : EntryOf → Bool) → Answers (λ _. map job_of jobs.new.items) result
        (happens (machine (map routine_of program.now) declared) (map job_of jobs.old.items) turn.number
        (systems.Go turn.choice)) }
    ensures stays { OnErr result (map job_of jobs.new.items ≡ map job_of jobs.old.items) }
    ensures sound { AreSound jobs.new.items }
    ensures covers { Covers seen_in table.new jobs.new.items }
{
    let Some(place) = place else {
        return Err(Failure::Refused(Refusal::UnknownJob));
    };
    let Turn { number, choice } = turn;
    let names = claimed_names(&jobs[place]);
    let are_free = table.are_free(jobs.as_slice(), number, names);
    table.list(place, names)?;
    step(alloc, program, &mut jobs[place], choice, are_free)
}

/// Aborts the job `number`, which is at `place`, if there is one: it then holds no lock and does nothing more.
pub fn abort(
    alloc: Global,
    jobs: &mut Vec<Job>,
    place: Option<usize>,
    number: u32,
) -> Result<(), Refusal>
    requires sound { AreSound jobs.old.items }
    requires place { IsPlaceOf number jobs.old.items place }
    ensures answer { (routines : List RoutineTree) (declared : EntryOf → Bool)
        → happens (machine routines declared) (map job_of jobs.old.items) number systems.Abort
        ≡ and_then (λ _. Ok (map job_of jobs.new.items)) result }
    ensures stays { OnErr result (map job_of jobs.new.items ≡ map job_of jobs.old.items) }
    ensures sound { AreSound jobs.new.items }
    ensures covered { StayCovered jobs.old.items jobs.new.items }
{
    let Some(place) = place else {
        return Err(Refusal::UnknownJob);
    };
    jobs[place].abort(alloc)
}

// Whether a job may have the number `number`: 0 is not allowed.
fn is_job_number(number: u32) -> bool
    ensures { result ≡ is_job_number number }
{
    number > 0
}

// Whether a job with the number `number` may begin at an entry, given whether that is declared.
fn may_begin(is_declared: bool, number: u32) -> bool
    ensures { result ≡ (is_declared && is_job_number number) }
{
    is_declared && is_job_number(number)
}

/// Adds a job; `is_declared` says whether jobs may begin at its entry, `is_used` whether a job has its number.
pub fn join<'a>(
    alloc: Global,
    program: &Program<'a>,
    jobs: &mut Vec<Job<'a>>,
    beginning: &Beginning<'_>,
    is_declared: bool,
    is_used: bool,
) -> Result<(), Failure<Refusal>>
    requires sound { AreSound jobs.old.items }
    requires used { is_used ≡ is_numbered seen (map job_of jobs.old.items) beginning.now.number }
    ensures answer { (declared : EntryOf → Bool) → declared beginning.now.entry ≡ is_declared
        → Answers (λ _. map job_of jobs.new.items) result
        (happens (machine (map routine_of program.now) declared) (map job_of jobs.old.items) beginning.now.number
        (systems.Begin beginning.now.entry beginning.now.test (map Some beginning.now.values.now))) }
    ensures stays { OnErr result (map job_of jobs.new.items ≡ map job_of jobs.old.items) }
    ensures sound { AreSound jobs.new.items }
    ensures covered { StayCovered jobs.old.items jobs.new.items }
{
    if is_used {
        return Err(Failure::Refused(Refusal::NotEnabled));
    }
    if !may_begin(is_declared, beginning.number) {
        return Err(Failure::Refused(Refusal::NotEnabled));
    }
    match begin(alloc, program, beginning) {
        Ok(job) => {
            let Ok(()) = jobs.push(job) else {
                return Err(Failure::OutOfMemory);
            };
            Ok(())
        }
        Err(why) => Err(why),
    }
}
