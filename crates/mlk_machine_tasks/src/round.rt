// FOR: its parameters, one after another, and their rounds.

ghost use Rattle.std.specs.Prelude.{◌∷◌, [], OnOk, map};
ghost use Rattle.mlk_syntax.specs.ExprTrees.{tree_of};
ghost use Rattle.mlk_syntax.specs.Views.{parameter_of, line_of};
ghost use Rattle.mlk_machine_jobs.specs.Tasks.{Evaluate, Drop, StoreLast};
ghost use Rattle.mlk_machine_jobs.specs.Lines.{parameter_parts, first_round, later_round};
ghost use Rattle.mlk_machine_jobs.specs.TaskViews.{Adds, commands_left};

use mlk_machine_expressions::add;
use mlk_machine_jobs::{LineTask, LocalTask, Rest, Task, ValueTask};
use mlk_syntax::{Expr, Parameter};
use mlk_text::Name;
use std::alloc::AllocError;

// Evaluates the start and the step, in this order.
fn evaluate_both<'a>(
    parts: &mut Vec<Task<'a>>,
    start: &'a Expr,
    step: &'a Expr,
) -> Result<(), AllocError>
    ensures { OnOk result (Adds (Evaluate (tree_of start.now) ∷ Evaluate (tree_of step.now) ∷ []) parts.old.items parts.new.items) }
{
    add(parts, Task::Value(ValueTask::Evaluate(start)))?;
    add(parts, Task::Value(ValueTask::Evaluate(step)))?;
    Ok(())
}

// Drops the last `unused` values, and stores the one before them.
fn start_stored<'a>(
    parts: &mut Vec<Task<'a>>,
    unused: usize,
    variable: &'a Name,
) -> Result<(), AllocError>
    ensures { OnOk result (Adds (Drop unused ∷ StoreLast variable.now ∷ []) parts.old.items parts.new.items) }
{
    add(parts, Task::Value(ValueTask::DropValues(unused)))?;
    add(parts, Task::Local(LocalTask::StoreLast(variable)))?;
    Ok(())
}

/// Adds the remaining parameters: the first of them, and then the others.
#[tactic(auto, using(mlk_machine_expressions::proofs::Additions::adds_none))]
pub fn parameter_parts<'a>(
    parts: &mut Vec<Task<'a>>,
    variable: &'a Name,
    parameters: &'a [Parameter],
    rest: Rest<'a>,
) -> Result<(), AllocError>
    ensures { OnOk result (Adds (parameter_parts variable.now (map parameter_of parameters.now)
        (commands_left rest.entry) (line_of rest.entry.line.now)) parts.old.items parts.new.items) }
{
    let Some((first, later)) = parameters.split_first() else {
        return Ok(());
    };
    match first {
        Parameter::Once(value) => {
            add(parts, Task::Value(ValueTask::Evaluate(value)))?;
            add(parts, Task::Local(LocalTask::StoreLast(variable)))?;
            add(parts, Task::Line(LineTask::RunCommands(rest)))?;
            add(
                parts,
                Task::Line(LineTask::Parameters(variable, later, rest)),
            )?;
            Ok(())
        }
        Parameter::Endless(start, step) => {
            evaluate_both(parts, start, step)?;
            start_stored(parts, 1, variable)?;
            add(parts, Task::Line(LineTask::RunCommands(rest)))?;
            add(parts, Task::Line(LineTask::NextValue(variable, rest)))?;
            Ok(())
        }
        Parameter::Limited(start, step, limit) => {
            evaluate_both(parts, start, step)?;
            add(parts, Task::Value(ValueTask::Evaluate(limit)))?;
            start_stored(parts, 2, variable)?;
            add(
                parts,
                Task::Line(LineTask::FirstRound(variable, later, rest)),
            )?;
            Ok(())
        }
    }
}

/// Adds the first round, if there is one, otherwise the other parameters.
pub fn first_round<'a>(
    parts: &mut Vec<Task<'a>>,
    variable: &'a Name,
    parameters: &'a [Parameter],
    rest: Rest<'a>,
    is_run: bool,
) -> Result<(), AllocError>
    ensures { OnOk result (Adds (first_round variable.now (map parameter_of parameters.now)
        (commands_left rest.entry) (line_of rest.entry.line.now) is_run) parts.old.items parts.new.items) }
{
    if !is_run {
        return add(
            parts,
            Task::Line(LineTask::Parameters(variable, parameters, rest)),
        );
    }
    add(parts, Task::Line(LineTask::RunCommands(rest)))?;
    add(
        parts,
        Task::Line(LineTask::LaterRound(variable, parameters, rest)),
    )?;
    Ok(())
}

/// Adds another round, if there is one, in which the variable may have any value; otherwise the other parameters.
pub fn later_round<'a>(
    parts: &mut Vec<Task<'a>>,
    variable: &'a Name,
    parameters: &'a [Parameter],
    rest: Rest<'a>,
    is_run: bool,
) -> Result<(), AllocError>
    ensures { OnOk result (Adds (later_round variable.now (map parameter_of parameters.now)
        (commands_left rest.entry) (line_of rest.entry.line.now) is_run) parts.old.items parts.new.items) }
{
    if !is_run {
        return add(
            parts,
            Task::Line(LineTask::Parameters(variable, parameters, rest)),
        );
    }
    add(parts, Task::Local(LocalTask::StoreAny(variable)))?;
    add(parts, Task::Line(LineTask::RunCommands(rest)))?;
    add(
        parts,
        Task::Line(LineTask::LaterRound(variable, parameters, rest)),
    )?;
    Ok(())
}
