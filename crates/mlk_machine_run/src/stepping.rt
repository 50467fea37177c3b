// One step of a job.

ghost use Rattle.std.specs.Prelude.{◌≡◌, ◌∷◌, ◌++◌, [], OnErr, Bool, length, map};
ghost use Rattle.std.specs.List.{list_all};
ghost use Rattle.mlk_names.specs.declared.lock_name.LockName.{LockName};
ghost use Rattle.mlk_text.specs.Failures.{Answers};
ghost use Rattle.mlk_syntax.specs.Views.{routine_of};
ghost use Rattle.mlk_machine_jobs.specs.Advance.{advance};
ghost use Rattle.mlk_machine_jobs.specs.Runs.{go};
ghost use Rattle.mlk_machine_jobs.specs.JobViews.{job_of, pending_of, KeepsPending};
ghost use Rattle.mlk_machine_jobs.specs.Sound.{Sound, Stands};
ghost use Rattle.mlk_machine_jobs.specs.TaskViews.{task_of};
ghost use Rattle.mlk_machine_run.specs.Frames.{claimed_in};

use crate::dispatch::perform;
use mlk_machine_jobs::{Choice, Job, LockTask, Pending, Task};
use mlk_machine_locks::Refusal;
use mlk_machine_steps::{end_block, end_frame};
use mlk_names::LockName;
use mlk_program::Program;
use mlk_text::Failure;
use std::alloc::Global;

// The names that a task claims; empty if it is not a claim.
fn claimed_by<'t>(task: &'t Task) -> &'t [LockName]
    ensures { result.now ≡ claimed_in (task_of task.now ∷ []) }
{
    match task {
        Task::Lock(LockTask::Claim(names, _)) => names.as_slice(),
        _ => &[],
    }
}

/// The names that a job claims next, with or without a timeout; empty if its next task is not a claim. Allocates nothing.
pub fn claimed_names<'j>(job: &'j Job) -> &'j [LockName]
    ensures { result.now ≡ claimed_in (job_of job.now).tasks }
{
    match job.pending.last() {
        Some(Pending::Task(task)) => claimed_by(task),
        Some(Pending::EndBlock(_, _)) | Some(Pending::EndFrame(_, _, _)) | None => &[],
    }
}

// Runs the pending item `next`.
fn perform_next<'a>(
    alloc: Global,
    program: &Program<'a>,
    job: &mut Job<'a>,
    choice: Choice,
    next: &Pending<'a>,
    are_free: bool,
) -> Result<(), Failure<Refusal>>
    requires { Stands job.old.binders.items (length job.old.tables.items) (job.old.pending.items ++ next.now ∷ []) }
    ensures answer { (free : LockName → Bool)
        → list_all free (claimed_in (pending_of job.old.binders.items next.now ∷ [])) ≡ are_free
        → Answers (λ _. job_of job.new) result (advance (map routine_of program.now) free choice (job_of job.old)
        (pending_of job.old.binders.items next.now ∷ (job_of job.old).tasks)) }
    ensures stays { OnErr result (job_of job.new ≡ job_of job.old) }
    ensures room { OnErr result (KeepsPending job.old job.new) }
    ensures sound { Sound job.new }
{
    match next {
        Pending::Task(task) => perform(alloc, program, job, choice, task, are_free),
        Pending::EndBlock(back, test) => end_block(job, &choice, *back, *test),
        Pending::EndFrame(frame, back, routine) => end_frame(job, choice, *frame, *back, *routine),
    }
}

/// Makes one step of a job, with the choice `choice`; `are_free` says whether other jobs leave the names free that it claims
/// next. If memory runs out, or the step is refused, the job is unchanged.
pub fn step<'a>(
    alloc: Global,
    program: &Program<'a>,
    job: &mut Job<'a>,
    choice: Choice,
    are_free: bool,
) -> Result<(), Failure<Refusal>>
    requires { Sound job.old }
    ensures answer { (free : LockName → Bool) → list_all free (claimed_in (job_of job.old).tasks) ≡ are_free
        → Answers (λ _. job_of job.new) result (go (map routine_of program.now) free choice (job_of job.old)) }
    ensures stays { OnErr result (job_of job.new ≡ job_of job.old) }
    ensures sound { Sound job.new }
{
    let Some(next) = job.pending.pop() else {
        return Err(Failure::Refused(Refusal::NotEnabled));
    };
    match perform_next(alloc, program, job, choice, &next, are_free) {
        Ok(()) => Ok(()),
        Err(why) => {
            job.pending.push_reserved(next);
            Err(why)
        }
    }
}
