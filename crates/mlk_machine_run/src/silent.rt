// Steps that a job makes by itself.

ghost use Rattle.std.specs.Prelude.{◌≡◌, ◌∷◌, [], IfOk, OnErr, false, map};
ghost use Rattle.mlk_syntax.specs.Views.{routine_of};
ghost use Rattle.mlk_machine_jobs.specs.JobViews.{job_of};
ghost use Rattle.mlk_machine_jobs.specs.Seen as jobs_seen;
ghost use Rattle.mlk_machine_jobs.specs.Seen.{state};
ghost use Rattle.mlk_machine_jobs.specs.Sound.{Sound};
ghost use Rattle.mlk_machine_jobs.specs.TaskViews.{task_of};
ghost use Rattle.mlk_machine_run.specs.Jobs.{TakesNone};
ghost use Rattle.mlk_machine_run.specs.Silent.{is_shown, if_made};

use crate::stepping::step;
use mlk_machine_jobs::{Choice, Job, LockTask, Pending, Task, ValueTask};
use mlk_program::Program;
use mlk_text::Failure;
use std::alloc::{AllocError, Global};

// Whether a task touches a reference, or claims or releases locks.
fn is_shown_task(task: &Task) -> bool
    ensures { result ≡ is_shown (task_of task.now ∷ []) }
{
    matches!(
        task,
        Task::Value(ValueTask::DoTouch(_))
            | Task::Lock(LockTask::Claim(_, _) | LockTask::Release(_) | LockTask::ReleaseAll)
    )
}

// Whether a job has nothing left to do, or its next task is visible to other jobs.
fn is_shown(job: &Job) -> bool
    ensures { result ≡ is_shown (job_of job.now).tasks }
{
    match job.pending.last() {
        Some(Pending::Task(task)) => is_shown_task(task),
        Some(Pending::EndBlock(_, _)) | Some(Pending::EndFrame(_, _, _)) => false,
        None => true,
    }
}

/// Makes a step that is silent: nothing is chosen, and it is not visible to other jobs. Returns whether one was made; if none
/// was, or if memory runs out, the job is unchanged.
pub fn silent_step<'a>(
    alloc: Global,
    program: &Program<'a>,
    job: &mut Job<'a>,
) -> Result<bool, AllocError>
    requires { Sound job.old }
    ensures made { IfOk result (λ made. jobs_seen.silent_step (map routine_of program.now) (job_of job.old)
        (state (map routine_of program.now) (job_of job.old)) ≡ if_made made (job_of job.new)) }
    ensures rests { IfOk result (λ made. made ≡ false → job_of job.new ≡ job_of job.old) }
    ensures stays { OnErr result (job_of job.new ≡ job_of job.old) }
    ensures sound { Sound job.new }
    ensures held { TakesNone (job_of job.old) (job_of job.new) }
{
    if is_shown(job) {
        return Ok(false);
    }
    match step(alloc, program, job, Choice::None, true) {
        Ok(()) => Ok(true),
        Err(Failure::Refused(_)) => Ok(false),
        Err(Failure::OutOfMemory) => Err(AllocError),
    }
}
