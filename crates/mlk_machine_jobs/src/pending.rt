// What is left to do for a job: tasks, and the ends of the blocks and frames that it is in.

ghost use Rattle.std.specs.Prelude.{◌≡◌, ◌≤◌, ◌||◌, ◌++◌, ◌∷◌, [], ℕ, List, length, take, map, OnOk, OnErr};
ghost use Rattle.std.specs.Vec.{vec_capacity};
ghost use Rattle.mlk_machine_jobs.specs.declared.binding.Binder.{Binder};
ghost use Rattle.mlk_machine_jobs.specs.declared.pending.Pending.{Pending};
ghost use Rattle.mlk_machine_jobs.specs.Answering.{awaits, given_value, keeps_value, value_kept};
ghost use Rattle.mlk_machine_jobs.specs.Lines.{is_round, is_lines, is_end, skipped, to_end, quit_from, quit};
ghost use Rattle.mlk_machine_jobs.specs.JobViews.{pending_of, tasks_of};
ghost use Rattle.mlk_machine_jobs.specs.Sound.{Stands};
ghost use Rattle.mlk_machine_jobs.specs.TaskViews.{task_of};

use crate::task::{LineTask, Task};
use std::alloc::AllocError;

/// What a frame owes at its end.
#[derive(Clone, Copy, Drop, PartialEq, Eq)]
pub enum Frame {
    NoValue,
    /// a value; `$TEST` is restored
    AwaitsValue(bool),
    /// nothing, since QUIT provided its value; `$TEST` is restored
    HasValue(bool),
}

/// The situation at the begin of a block or frame: the number of binders, and the first unused generation.
#[derive(Clone, Copy, Drop, PartialEq, Eq)]
pub struct Back {
    pub binders: usize,
    pub next: usize,
}

/// An item that is left to do.
#[derive(Drop)]
pub enum Pending<'a> {
    Task(Task<'a>),
    /// the end of a block, which restores `$TEST`
    EndBlock(Back, bool),
    /// the end of a frame, which restores the routine, by its index
    EndFrame(Frame, Back, usize),
}

// Whether `pending` continues a FOR after a round.
fn is_round(pending: &Pending) -> bool
    ensures { (binders : List Binder) → result ≡ is_round (pending_of binders pending.now) }
{
    match pending {
        Pending::Task(
            Task::Line(LineTask::Parameters(_, _, _))
            | Task::Line(LineTask::Forever(_))
            | Task::Line(LineTask::NextValue(_, _))
            | Task::Line(LineTask::LaterRound(_, _, _)),
        ) => true,
        _ => false,
    }
}

// Whether `pending` is the rest of the lines.
fn is_lines(pending: &Pending) -> bool
    ensures { (binders : List Binder) → result ≡ is_lines (pending_of binders pending.now) }
{
    matches!(pending, Pending::Task(Task::Line(LineTask::RunLines(_))))
}

// Whether `pending` is the end of a block or frame.
fn is_end(pending: &Pending) -> bool
    ensures { (binders : List Binder) → result ≡ is_end (pending_of binders pending.now) }
{
    matches!(
        pending,
        Pending::EndBlock(_, _) | Pending::EndFrame(_, _, _)
    )
}

fn stops_skipping(pending: &Pending) -> bool
    ensures { (binders : List Binder) → result
        ≡ (is_round (pending_of binders pending.now) || is_lines (pending_of binders pending.now)
        || is_end (pending_of binders pending.now)) }
{
    is_round(pending) || is_lines(pending) || is_end(pending)
}

// How many items are left after the rest of the line is skipped.
fn kept_by_skip(pending: &[Pending]) -> usize
    ensures within { result ≤ length pending.now }
    ensures kept { (binders : List Binder) → tasks_of binders (take result pending.now)
        ≡ skipped (tasks_of binders pending.now) }
{
    let mut count = pending.len();
    while count > 0 {
        if stops_skipping(&pending[count - 1]) {
            return count;
        }
        count -= 1;
    }
    count
}

// How many items are left after the block, or if there is none the frame, is quit.
fn kept_to_end(pending: &[Pending]) -> usize
    ensures within { result ≤ length pending.now }
    ensures kept { (binders : List Binder) → tasks_of binders (take result pending.now)
        ≡ to_end (tasks_of binders pending.now) }
{
    let mut count = pending.len();
    while count > 0 {
        if is_end(&pending[count - 1]) {
            return count;
        }
        count -= 1;
    }
    count
}

/// Skips the rest of the line, up to the next round of its innermost FOR. Allocates nothing.
#[tactic(auto, using(crate::proofs::SoundLemmas::stands_taken))]
pub(crate) fn skip(pending: &mut Vec<Pending>)
    ensures stands { (binders : List Binder) (n : ℕ) → Stands binders n pending.old.items → Stands binders n pending.new.items }
    ensures left { (binders : List Binder) → tasks_of binders pending.new.items
        ≡ skipped (tasks_of binders pending.old.items) }
{
    let kept = kept_by_skip(pending.as_slice());
    pending.truncate(kept);
}

/// Quits the block, or if there is none the frame, up to its end. Allocates nothing.
#[tactic(auto, using(crate::proofs::SoundLemmas::stands_taken))]
pub(crate) fn go_to_end(pending: &mut Vec<Pending>)
    ensures stands { (binders : List Binder) (n : ℕ) → Stands binders n pending.old.items → Stands binders n pending.new.items }
    ensures left { (binders : List Binder) → tasks_of binders pending.new.items
        ≡ to_end (tasks_of binders pending.old.items) }
{
    let kept = kept_to_end(pending.as_slice());
    pending.truncate(kept);
}

/// Puts `task` in the place of what is left of the block, or if there is none of the frame. If memory runs out, nothing is
/// changed.
#[tactic(auto, using(crate::proofs::SoundLemmas::stands_taken, crate::proofs::SoundLemmas::stands_task))]
pub(crate) fn replace_to_end<'a>(
    pending: &mut Vec<Pending<'a>>,
    task: Task<'a>,
) -> Result<(), AllocError>
    ensures stands { (binders : List Binder) (n : ℕ) → Stands binders n pending.old.items → Stands binders n pending.new.items }
    ensures ok { OnOk result ((binders : List Binder) → tasks_of binders pending.new.items
        ≡ task_of task.entry ∷ to_end (tasks_of binders pending.old.items)) }
    ensures err { OnErr result (pending.new.items ≡ pending.old.items) }
    ensures room { OnErr result (vec_capacity pending.old ≤ vec_capacity pending.new) }
{
    pending.reserve(1)?;
    let kept = kept_to_end(pending.as_slice());
    pending.truncate(kept);
    pending.push_reserved(Pending::Task(task));
    Ok(())
}

/// Puts `tasks` before all others, in this order. If memory runs out, nothing is changed.
pub(crate) fn do_first<'a>(
    pending: &mut Vec<Pending<'a>>,
    tasks: Vec<Task<'a>>,
) -> Result<(), AllocError>
    ensures stands { (binders : List Binder) (n : ℕ) → Stands binders n pending.old.items → Stands binders n pending.new.items }
    ensures ok { OnOk result ((binders : List Binder) → tasks_of binders pending.new.items
        ≡ map task_of tasks.entry.items ++ tasks_of binders pending.old.items) }
    ensures err { OnErr result (pending.new.items ≡ pending.old.items) }
    ensures room { OnErr result (vec_capacity pending.old ≤ vec_capacity pending.new) }
{
    let mut left = tasks;
    pending.reserve(left.len())?;
    while let Some(task) = left.pop() {
        pending.push_reserved(Pending::Task(task));
    }
    Ok(())
}

// How many items are left after the innermost FOR of the line is quit, or if there is none the block, or if there is none the
// frame, once the rest of the line was skipped.
fn kept_by_quit(pending: &[Pending]) -> usize
    ensures within { result ≤ length pending.now }
    ensures kept { (binders : List Binder) → tasks_of binders (take result pending.now)
        ≡ quit_from (tasks_of binders pending.now) }
{
    let count = pending.len();
    if count == 0 {
        return 0;
    }
    if is_round(&pending[count - 1]) {
        return count - 1;
    }
    kept_to_end(pending)
}

// Quits, once the rest of the line was skipped.
#[tactic(auto, using(crate::proofs::SoundLemmas::stands_taken))]
fn quit_skipped(pending: &mut Vec<Pending>)
    ensures stands { (binders : List Binder) (n : ℕ) → Stands binders n pending.old.items → Stands binders n pending.new.items }
    ensures left { (binders : List Binder) → tasks_of binders pending.new.items
        ≡ quit_from (tasks_of binders pending.old.items) }
{
    let kept = kept_by_quit(pending.as_slice());
    pending.truncate(kept);
}

/// QUIT: ends the innermost FOR of its line, or if there is none the block, or if there is none the frame. Allocates nothing.
pub(crate) fn quit(pending: &mut Vec<Pending>)
    ensures stands { (binders : List Binder) (n : ℕ) → Stands binders n pending.old.items → Stands binders n pending.new.items }
    ensures left { (binders : List Binder) → tasks_of binders pending.new.items
        ≡ quit (tasks_of binders pending.old.items) }
{
    skip(pending);
    quit_skipped(pending);
}

// Whether `pending` is the end of a frame that awaits a value.
fn awaits(pending: &Pending) -> bool
    ensures { (binders : List Binder) → result ≡ awaits (pending_of binders pending.now) }
{
    matches!(pending, Pending::EndFrame(Frame::AwaitsValue(_), _, _))
}

// The same end, with its value.
fn with_value(pending: Pending) -> Pending
    ensures same { (binders : List Binder) → pending_of binders result ≡ given_value (pending_of binders pending.entry) }
    ensures stands { (binders : List Binder) (n : ℕ) (ps : List Pending)
        → Stands binders n (ps ++ pending.entry ∷ []) → Stands binders n (ps ++ result ∷ []) }
{
    match pending {
        Pending::EndFrame(Frame::AwaitsValue(test), back, routine) => {
            Pending::EndFrame(Frame::HasValue(test), back, routine)
        }
        other => other,
    }
}

/// If the frame at whose end the job is awaits a value, it keeps the one that QUIT provided; returns whether it does.
/// Allocates nothing.
pub(crate) fn keep_value(pending: &mut Vec<Pending>) -> bool
    ensures stands { (binders : List Binder) (n : ℕ) → Stands binders n pending.old.items → Stands binders n pending.new.items }
    ensures kept { (binders : List Binder) → tasks_of binders pending.new.items
        ≡ value_kept (tasks_of binders pending.old.items) }
    ensures keeps { (binders : List Binder) → result ≡ keeps_value (tasks_of binders pending.old.items) }
{
    let Some(last) = pending.pop() else {
        return false;
    };
    let is_kept = awaits(&last);
    pending.push_reserved(with_value(last));
    is_kept
}
