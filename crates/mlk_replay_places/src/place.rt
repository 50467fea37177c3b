// The line that a job is in, and the command of it.

use mlk_machine_jobs::{Job, LineTask, Pending, Rest, Task};
use mlk_syntax::{Command, Commands, For, Line};
use mlk_text::Column;

/// The part of its line that a job is in.
#[derive(Clone, Copy, Drop)]
pub(crate) enum Work<'a> {
    /// what is at a column, which it is about to begin
    Begins(Column),
    Command(&'a Command),
    /// the parameters of a FOR: how many are left after the one that it computes, if that is known
    Parameters(&'a For, Option<usize>),
}

/// Where a job is in the text.
#[derive(Clone, Copy, Drop)]
pub struct Place<'a> {
    /// the index of the routine
    pub routine: usize,
    pub line: &'a Line,
    pub(crate) work: Work<'a>,
    // how many of the pending items are of later work
    pub(crate) later: usize,
}

// The rest of a line, if the task continues it.
fn rest_of<'a>(task: &LineTask<'a>) -> Option<Rest<'a>> {
    match task {
        LineTask::RunCommands(rest)
        | LineTask::Parameters(_, _, rest)
        | LineTask::Forever(rest)
        | LineTask::NextValue(_, rest)
        | LineTask::FirstRound(_, _, rest)
        | LineTask::LaterRound(_, _, rest) => Some(*rest),
        _ => None,
    }
}

// The commands among which a rest begins, and the FOR before them.
#[derive(Clone, Copy, Drop)]
struct Stretch<'a> {
    before: Option<&'a For>,
    commands: &'a [Command],
}

// Whether `next` is the FOR after `rest`.
fn is_after(rest: &Rest<'_>, next: &For) -> bool {
    match rest.last {
        Some(last) => last.index == next.index,
        None => false,
    }
}

// The stretch of `commands`, which are after the FOR `before`, in which `rest` begins.
fn stretch_of<'a>(commands: &'a Commands, before: Option<&'a For>, rest: &Rest<'a>) -> Stretch<'a> {
    let here = Stretch {
        before,
        commands: commands.before.as_slice(),
    };
    let Some(next) = &commands.last else {
        return here;
    };
    if is_after(rest, next) {
        return here;
    }
    let next: &'a For = next;
    stretch_of(&next.rest, Some(next), rest)
}

// The column of a FOR's variable, or of its word if it has none.
fn column_of_loop(found: &For) -> Column {
    match &found.control {
        Some(control) => control.column,
        None => found.column,
    }
}

// The column at which `rest` begins.
fn column_of_rest(rest: &Rest<'_>) -> Column {
    if let Some(command) = rest.commands.first() {
        return command.column;
    }
    match rest.last {
        Some(next) => next.column,
        None => rest.line.end,
    }
}

// How many parameters are left after the one of a FOR whose rounds `task` continues.
fn parameters_left(task: Option<&Pending<'_>>) -> Option<usize> {
    match task {
        Some(
            Pending::Task(
                Task::Line(
                    LineTask::Parameters(_, left, _)
                    | LineTask::FirstRound(_, left, _)
                    | LineTask::LaterRound(_, left, _),
                ),
            ),
        ) => Some(left.len()),
        _ => None,
    }
}

// How many parameters are left after the one of a FOR whose rounds the item at the index `at`, or the one after it, continues.
fn parameters_left_at(pending: &[Pending<'_>], at: usize) -> Option<usize> {
    match parameters_left(pending.get(at)) {
        Some(left) => Some(left),
        None => parameters_left(pending.get(at.checked_sub(1)?)),
    }
}

// What a job does whose next item is `task`, which continues the line with `rest`.
fn next_work<'a>(task: &LineTask<'a>, rest: &Rest<'a>) -> Work<'a> {
    if let LineTask::RunCommands(_) = task {
        return Work::Begins(column_of_rest(rest));
    }
    match stretch_of(&rest.line.commands, None, rest).before {
        Some(found) => Work::Begins(column_of_loop(found)),
        None => Work::Begins(rest.line.end),
    }
}

// The command of a stretch that is right before `rest`; `None` if there is none.
fn command_before<'a>(stretch: &Stretch<'a>, rest: &Rest<'a>) -> Option<&'a Command> {
    let done = stretch.commands.len().saturating_sub(rest.commands.len());
    let (before, _) = stretch.commands.split_at(done);
    before.last()
}

// What a job does that has items before the one that continues the line with `rest`, which is at the index `at`.
fn work_before<'a>(pending: &[Pending<'a>], at: usize, rest: &Rest<'a>) -> Work<'a> {
    let stretch = stretch_of(&rest.line.commands, None, rest);
    if let Some(command) = command_before(&stretch, rest) {
        return Work::Command(command);
    }
    let Some(found) = stretch.before else {
        return Work::Begins(rest.line.end);
    };
    Work::Parameters(found, parameters_left_at(pending, at))
}

// The place at the item with the index `at`, if that continues a line.
fn place_at<'a>(pending: &[Pending<'a>], at: usize, routine: usize) -> Option<Place<'a>> {
    let Some(Pending::Task(Task::Line(task))) = pending.get(at) else {
        return None;
    };
    if let LineTask::RunLines(lines) = task {
        let line = lines.first()?;
        let work = match line.commands.before.first() {
            Some(command) => Work::Begins(command.column),
            None => Work::Begins(line.end),
        };
        return Some(Place {
            routine,
            line,
            work,
            later: at,
        });
    }
    let rest = rest_of(task)?;
    let is_next = at.saturating_add(1) == pending.len();
    let work = if is_next {
        next_work(task, &rest)
    } else {
        work_before(pending, at, &rest)
    };
    Some(Place {
        routine,
        line: rest.line,
        work,
        later: at.saturating_add(1),
    })
}

/// Where a job is in the text: the line that its next item belongs to; `None` if nothing is left of a line.
pub fn place_of<'a>(job: &Job<'a>) -> Option<Place<'a>> {
    let pending = job.pending.as_slice();
    let mut routine = job.routine;
    for at in (0..pending.len()).rev() {
        if let Some(place) = place_at(pending, at, routine) {
            return Some(place);
        }
        if let Some(Pending::EndFrame(_, _, back)) = pending.get(at) {
            routine = *back;
        }
    }
    None
}
