// Copies of jobs.

ghost use Rattle.std.specs.Prelude.{◌≡◌, IfOk, map};
ghost use Rattle.mlk_machine_jobs.specs.JobViews.{job_of};
ghost use Rattle.mlk_machine_jobs.specs.Sound.{Sound};
ghost use Rattle.mlk_machine_jobs.specs.TaskViews.{lock_task, task_of};
ghost use Rattle.mlk_machine.specs.Copies.{shown_of, values_in};

use mlk_machine_jobs::{CellTable, Job, LockTask, Pending, Task};
use mlk_text::copy_of;
use std::alloc::{AllocError, Global};

fn copy_lock_task<'a>(alloc: Global, task: &LockTask<'a>) -> Result<LockTask<'a>, AllocError>
    ensures { IfOk result (λ copy. lock_task copy ≡ lock_task task.now) }
{
    match task {
        LockTask::LockNamed(sign, names, timed) => Ok(LockTask::LockNamed(*sign, *names, *timed)),
        LockTask::Claim(names, timed) => {
            let names = Vec::from_clones(alloc, names.as_slice())?;
            Ok(LockTask::Claim(names, *timed))
        }
        LockTask::Release(names) => Ok(LockTask::Release(Vec::from_clones(
            alloc,
            names.as_slice(),
        )?)),
        LockTask::ReleaseAll => Ok(LockTask::ReleaseAll),
    }
}

fn copy_task<'a>(alloc: Global, task: &Task<'a>) -> Result<Task<'a>, AllocError>
    ensures { IfOk result (λ copy. task_of copy ≡ task_of task.now) }
{
    match task {
        Task::Value(task) => Ok(Task::Value(copy_of(task)?)),
        Task::Local(task) => Ok(Task::Local(copy_of(task)?)),
        Task::Test(task) => Ok(Task::Test(copy_of(task)?)),
        Task::Lock(task) => Ok(Task::Lock(copy_lock_task(alloc, task)?)),
        Task::Scope(task) => Ok(Task::Scope(copy_of(task)?)),
        Task::Line(task) => Ok(Task::Line(copy_of(task)?)),
    }
}

fn copy_one<'a>(alloc: Global, pending: &Pending<'a>) -> Result<Pending<'a>, AllocError>
    ensures { IfOk result (λ copy. shown_of copy ≡ shown_of pending.now) }
{
    match pending {
        Pending::Task(task) => Ok(Pending::Task(copy_task(alloc, task)?)),
        Pending::EndBlock(back, test) => Ok(Pending::EndBlock(*back, *test)),
        Pending::EndFrame(frame, back, routine) => Ok(Pending::EndFrame(*frame, *back, *routine)),
    }
}

fn copy_pending<'a>(alloc: Global, pending: &[Pending<'a>]) -> Result<Vec<Pending<'a>>, AllocError>
    ensures { IfOk result (λ copies. map shown_of copies.items ≡ map shown_of pending.now) }
{
    let mut copies = Vec::with_capacity(alloc, pending.len())?;
    for one in pending {
        copies.push(copy_one(alloc, one)?)?;
    }
    Ok(copies)
}

#[tactic(auto, using(crate::proofs::CopyLemmas::same_table))]
fn copy_table<'a>(table: &CellTable<'a>) -> Result<CellTable<'a>, AllocError>
    ensures { IfOk result (λ copy. values_in copy ≡ values_in table.now) }
{
    table.copy()
}

fn copy_tables<'a>(
    alloc: Global,
    tables: &[CellTable<'a>],
) -> Result<Vec<CellTable<'a>>, AllocError>
    ensures { IfOk result (λ copies. map values_in copies.items ≡ map values_in tables.now) }
{
    let mut copies = Vec::with_capacity(alloc, tables.len())?;
    for table in tables {
        copies.push(copy_table(table)?)?;
    }
    Ok(copies)
}

/// Copies a job.
pub(crate) fn copy_job<'a>(alloc: Global, job: &Job<'a>) -> Result<Job<'a>, AllocError>
    ensures same { IfOk result (λ copy. job_of copy ≡ job_of job.now) }
    ensures sound { Sound job.now → IfOk result Sound }
{
    Ok(Job {
        number: job.number,
        test: job.test,
        routine: job.routine,
        binders: Vec::from_slice(alloc, job.binders.as_slice())?,
        tables: copy_tables(alloc, job.tables.as_slice())?,
        values: job.values.copy()?,
        held: job.held.copy()?,
        pending: copy_pending(alloc, job.pending.as_slice())?,
        stopped: job.stopped,
    })
}
