// The begin of frames.

ghost use Rattle.std.specs.Prelude.{◌≡◌, ◌∷◌, ◌++◌, ◌+◌, ◌≤◌, [], List, ℕ, suc, length, map, reverse, take, OnOk, OnErr};
ghost use Rattle.std.specs.Vec.{vec_len, vec_capacity};
ghost use Rattle.mlk_syntax.specs.Views.{line_of};
ghost use Rattle.mlk_machine_jobs.specs.declared.binding.Binder.{Binder as BinderIn};
ghost use Rattle.mlk_machine_jobs.specs.JobViews.{frame_of, job_of, tasks_of, KeepsPending};
ghost use Rattle.mlk_machine_jobs.specs.Sound.{Sound, HaveTables, IsWithin, AreNested};
ghost use Rattle.mlk_machine_jobs.specs.Views.{binder_of, bindings_of, value_at};
ghost use Rattle.mlk_machine_run.specs.Frames.{begun_tasks, frame_begun};

use mlk_machine_jobs::{Back, Binder, CellTable, Frame, Job, LineTask, Pending, Task};
use mlk_machine_tasks::line_rest;
use mlk_syntax::Line;
use std::alloc::AllocError;

/// A line at which a frame begins, with the index of its routine, and the lines after it.
#[derive(Clone, Copy, Drop)]
pub(crate) struct Begin<'a> {
    pub(crate) frame: Frame,
    pub(crate) routine: usize,
    pub(crate) line: &'a Line,
    pub(crate) later: &'a [Line],
}

// Adds the binders `found` as the newest ones, the first of them as the very newest. There must be room for them.
fn add_binders<'a>(binders: &mut Vec<Binder<'a>>, found: Vec<Binder<'a>>)
    requires { vec_len binders.old + vec_len found ≤ vec_capacity binders.old }
    ensures { binders.new.items ≡ binders.old.items ++ reverse found.entry.items }
{
    let mut left = found;
    while let Some(binder) = left.pop() {
        binders.push_reserved(binder);
    }
}

// Adds what is pending for a frame: its line, the lines after it, and its end.
fn add_pending<'a>(pending: &mut Vec<Pending<'a>>, begin: Begin<'a>, back: Back, own: usize)
    requires { vec_len pending.old + 3 ≤ vec_capacity pending.old }
    ensures tasks { (bs : List BinderIn) → tasks_of bs pending.new.items ≡ begun_tasks (frame_of begin.entry.frame)
        (bindings_of (take back.binders bs)) back.next own (line_of begin.entry.line.now)
        (map line_of begin.entry.later.now)
        ++ tasks_of bs pending.old.items }
    ensures nested { (bs : List BinderIn) (c n : ℕ) → IsWithin bs c n back
        → AreNested bs back.binders back.next (reverse pending.old.items) → AreNested bs c n (reverse pending.new.items) }
{
    pending.push_reserved(Pending::EndFrame(begin.frame, back, own));
    pending.push_reserved(Pending::Task(Task::Line(LineTask::RunLines(begin.later))));
    pending.push_reserved(Pending::Task(Task::Line(LineTask::RunCommands(line_rest(begin.line)))));
}

/// Begins a frame at a line, with the binders `found` and the values `table` of their cells.
pub(crate) fn begin_frame<'a>(
    job: &mut Job<'a>,
    begin: Begin<'a>,
    found: Vec<Binder<'a>>,
    table: CellTable<'a>,
) -> Result<(), AllocError>
    requires { Sound job.old }
    ensures job { OnOk result (job_of job.new ≡ frame_begun (frame_of begin.entry.frame) begin.entry.routine
        (line_of begin.entry.line.now) (map line_of begin.entry.later.now) (map binder_of found.entry.items)
        (value_at (job.old.tables.items ++ table.entry ∷ [])) (job_of job.old)) }
    ensures err { OnErr result (job_of job.new ≡ job_of job.old) }
    ensures room { OnErr result (KeepsPending job.old job.new) }
    ensures sound { HaveTables (suc (length job.old.tables.items)) (job.old.binders.items ++ reverse found.entry.items)
        → Sound job.new }
{
    let back = Back {
        binders: job.binders.len(),
        next: job.tables.len(),
    };
    let own = job.routine;
    job.binders.reserve(found.len())?;
    job.tables.reserve(1)?;
    job.pending.reserve(3)?;
    add_binders(&mut job.binders, found);
    job.tables.push_reserved(table);
    add_pending(&mut job.pending, begin, back, own);
    job.routine = begin.routine;
    Ok(())
}
