// The column of what a job computes next.

use crate::items::{
    Item, Items, MOST_OF_LOCK, MOST_OF_MERGE, command_items, index_of, most_of_assign,
    parameter_items, size_of_action, size_of_item,
};
use crate::place::{Place, Work};
use crate::scan::{rest_at, token_place};
use crate::steps::{Part, Step, Steps, size_of_branches};
use mlk_machine_jobs::{Job, LocalTask, LockTask, Pending, Task, TestTask, ValueTask};
use mlk_syntax::{Expr, For};
use mlk_text::{Column, push_sparing};
use std::alloc::{AllocError, Global};

/// A byte of a line, and what is computed there; `None` for what is no operator, function or global, or where several parts may be
/// meant.
#[derive(Clone, Copy, Drop)]
pub struct Spot<'a> {
    // the index of the byte
    at: usize,
    pub part: Option<Part<'a>>,
}

impl<'a> Spot<'a> {
    /// The column of the byte.
    pub fn column(&self) -> Column {
        Column::at(self.at.saturating_add(1))
    }

    // The byte at the index `at`, without a part.
    fn unknown(at: usize) -> Spot<'a> {
        Spot { at, part: None }
    }
}

// The number of steps that are left to the end of a command, or to the end of a condition of `$SELECT` that has this number of
// branches after it.
#[derive(Clone, Copy, Drop)]
struct Stage {
    left: usize,
    branches: Option<usize>,
}

// How many steps a task of an expression takes.
fn size_of_value(alloc: Global, task: &ValueTask<'_>) -> Result<usize, AllocError> {
    match task {
        ValueTask::Evaluate(expression) => {
            let steps = Steps::of(alloc, *expression)?;
            Ok(steps.steps.len())
        }
        ValueTask::Select(branches) => {
            let (size, _) = size_of_branches(alloc, *branches)?;
            Ok(size)
        }
        ValueTask::FormReference(_, _, _, _) => Ok(2),
        _ => Ok(1),
    }
}

// At most how many steps a pending item takes.
fn size_of_pending(alloc: Global, item: &Pending<'_>) -> Result<usize, AllocError> {
    match item {
        Pending::Task(Task::Value(task)) => size_of_value(alloc, task),
        Pending::Task(Task::Local(LocalTask::Assign(targets))) => Ok(most_of_assign(*targets)),
        Pending::Task(Task::Local(LocalTask::Merge(_, _))) => Ok(MOST_OF_MERGE),
        Pending::Task(Task::Lock(LockTask::LockNamed(_, _, _))) => Ok(MOST_OF_LOCK),
        Pending::Task(Task::Test(TestTask::Conditionally(action, block))) => {
            let size = size_of_action(alloc, *action, !block.is_empty())?;
            Ok(size.saturating_add(1))
        }
        Pending::EndBlock(_, _) | Pending::EndFrame(_, _, _) => Ok(0),
        _ => Ok(1),
    }
}

// The stages after the first step of `next`, which is before `items`; the innermost first. If `next` decides on a condition of
// `$SELECT`, no step of the condition is left.
fn stages_of(
    alloc: Global,
    next: &Pending<'_>,
    items: &[Pending<'_>],
) -> Result<Vec<Stage>, AllocError> {
    let mut stages = Vec::new(alloc);
    if let Pending::Task(Task::Value(ValueTask::Selected(_, others))) = next {
        let stage = Stage {
            left: usize::MAX,
            branches: Some(others.len()),
        };
        push_sparing(&mut stages, stage)?;
    }
    let mut left = size_of_pending(alloc, next)?.saturating_sub(1);
    for item in items.iter().rev() {
        if let Pending::Task(Task::Value(ValueTask::Selected(_, others))) = item {
            let branches = Some(others.len());
            push_sparing(&mut stages, Stage { left, branches })?;
            left = 0;
        } else {
            left = left.saturating_add(size_of_pending(alloc, item)?);
        }
    }
    let branches = None;
    push_sparing(&mut stages, Stage { left, branches })?;
    Ok(stages)
}

// A part of a command, and how many of its steps are left.
#[derive(Clone, Copy, Drop)]
struct Within<'a> {
    item: Item<'a>,
    left: usize,
}

// The part of `items` after which `left` steps are left.
fn part_within<'a>(
    alloc: Global,
    items: &Items<'a, '_>,
    left: usize,
) -> Result<Option<Within<'a>>, AllocError> {
    let mut left = left;
    for item in items.items.iter().rev() {
        let size = size_of_item(alloc, item)?;
        if left < size {
            return Ok(Some(Within { item: *item, left }));
        }
        left = left.saturating_sub(size);
    }
    Ok(None)
}

// The step of `expression` after which `left` steps are left.
fn step_within<'a>(
    alloc: Global,
    expression: &'a Expr,
    left: usize,
) -> Result<Option<Step<'a>>, AllocError> {
    let steps = Steps::of(alloc, expression)?;
    let found = steps.steps.iter().rev().nth(left);
    Ok(found.copied())
}

// The step of an expression at which a job is, by the stages from the command to the innermost condition; its token is counted
// from the front of the expression.
fn innermost<'a>(
    alloc: Global,
    expression: &'a Expr,
    left: usize,
    stages: &[Stage],
) -> Result<Option<Step<'a>>, AllocError> {
    let Some(mut found) = step_within(alloc, expression, left)? else {
        return Ok(None);
    };
    for stage in stages.iter().rev() {
        let (Part::Select(branches), Some(others)) = (found.part, stage.branches) else {
            return Ok(None);
        };
        let index = branches.len().saturating_sub(others.saturating_add(1));
        let (before, rest) = branches.split_at(index.min(branches.len()));
        let Some((condition, _)) = rest.first() else {
            return Ok(None);
        };
        let (_, tokens) = size_of_branches(alloc, before)?;
        let start = found.token.saturating_add(tokens);
        found = match step_within(alloc, condition, stage.left)? {
            Some(step) => Step {
                part: step.part,
                token: start.saturating_add(step.token),
            },
            None => Step {
                part: Part::Constant,
                token: start,
            },
        };
    }
    Ok(Some(found))
}

// Whether a job that does `task` next computes `part`.
fn is_computed_by(part: Part<'_>, task: &ValueTask<'_>) -> bool {
    match (part, task) {
        (Part::Operator(op), ValueTask::ApplyBinary(found)) => op == *found,
        (Part::Prefix(op), ValueTask::ApplyUnary(found)) => op == *found,
        (Part::Function(_, count), ValueTask::AskValue(found)) => count == *found,
        (Part::Match(_, _), ValueTask::AskValue(found)) => *found == 1,
        (Part::Select(_), ValueTask::Select(_)) => true,
        (Part::Global, ValueTask::DoTouch(_)) => true,
        _ => false,
    }
}

// Whether a job that has `item` next computes `part`.
fn fits(part: Part<'_>, item: &Pending<'_>) -> bool {
    match item {
        Pending::Task(Task::Value(task)) => is_computed_by(part, task),
        _ => false,
    }
}

// The index of the token number `token` of an expression that begins at the index `start` of `line`.
fn token_index(line: &[u8], start: usize, token: usize) -> usize {
    match token_place(rest_at(line, start), token) {
        Some(place) => start.saturating_add(place),
        None => start,
    }
}

// The spot in the parts of a command, by the stages that are left; the index `at` if none is found.
fn spot_within<'a>(
    alloc: Global,
    items: &Items<'a, '_>,
    stages: &[Stage],
    line: &[u8],
    at: usize,
) -> Result<Spot<'a>, AllocError> {
    let Some((last, inner)) = stages.split_last() else {
        return Ok(Spot::unknown(at));
    };
    let Some(within) = part_within(alloc, items, last.left)? else {
        return Ok(Spot::unknown(at));
    };
    match within.item {
        Item::Steps(_, start) => Ok(Spot::unknown(start)),
        Item::Value(expression, start) => {
            let Some(step) = innermost(alloc, expression, within.left, inner)? else {
                return Ok(Spot::unknown(start));
            };
            Ok(Spot {
                at: token_index(line, start, step.token),
                part: Some(step.part),
            })
        }
    }
}

// The parts of the parameter of a FOR after which `left` are left; none if that is not known.
fn items_of_parameter<'a, 't>(
    alloc: Global,
    found: &'a For,
    left: Option<usize>,
    line: &'t [u8],
) -> Result<Option<Items<'a, 't>>, AllocError> {
    let (Some(control), Some(left)) = (&found.control, left) else {
        return Ok(None);
    };
    let count = control
        .parameters
        .len()
        .saturating_sub(left.saturating_add(1));
    match control.parameters.get(count) {
        Some(parameter) => {
            let items = parameter_items(alloc, parameter, count, control.column, line)?;
            Ok(Some(items))
        }
        None => Ok(None),
    }
}

// The spot in the parameter of a FOR after which `left` are left, by the stages that are left.
fn spot_in_parameter<'a>(
    alloc: Global,
    found: &'a For,
    left: Option<usize>,
    stages: &[Stage],
    line: &[u8],
) -> Result<Spot<'a>, AllocError> {
    let start = index_of(found.column);
    match items_of_parameter(alloc, found, left, line)? {
        Some(items) => spot_within(alloc, &items, stages, line, start),
        None => Ok(Spot::unknown(start)),
    }
}

// The spot in what a job at `place` does, by the stages that are left.
fn spot_in_work<'a>(
    alloc: Global,
    place: &Place<'a>,
    stages: &[Stage],
    line: &[u8],
) -> Result<Spot<'a>, AllocError> {
    match place.work {
        Work::Begins(column) => Ok(Spot::unknown(index_of(column))),
        Work::Command(command) => {
            let has_block = !place.line.block.is_empty();
            let items = command_items(alloc, command, has_block, line)?;
            spot_within(alloc, &items, stages, line, index_of(command.column))
        }
        Work::Parameters(found, left) => spot_in_parameter(alloc, found, left, stages, line),
    }
}

/// Where in `line`, the text of its line, a job at `place` computes next, and what. The part does not depend on `line`.
pub fn spot_of<'a>(
    alloc: Global,
    job: &Job<'a>,
    place: &Place<'a>,
    line: &[u8],
) -> Result<Spot<'a>, AllocError> {
    let pending = job.pending.as_slice();
    let later = place.later.min(pending.len());
    let own = &pending[later..];
    let Some(next) = own.last() else {
        return Ok(Spot::unknown(index_of(begin_of(place))));
    };
    let count = own.len().saturating_sub(1);
    let after = &own[..count];
    let stages = stages_of(alloc, next, after)?;
    let spot = spot_in_work(alloc, place, stages.as_slice(), line)?;
    let Some(part) = spot.part else {
        return Ok(spot);
    };
    if fits(part, next) {
        return Ok(spot);
    }
    Ok(Spot::unknown(spot.at))
}

// The column that a job begins at, if it begins something.
fn begin_of(place: &Place<'_>) -> Column {
    match place.work {
        Work::Begins(column) => column,
        Work::Command(command) => command.column,
        Work::Parameters(found, _) => found.column,
    }
}
