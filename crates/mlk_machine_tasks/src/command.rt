// The tasks that arguments of several commands share.

ghost use Rattle.std.specs.Prelude.{◌≡◌, OnOk, option_map};
ghost use Rattle.mlk_syntax.specs.ExprTrees.{tree_of, actual_trees};
ghost use Rattle.mlk_syntax.specs.Views.{variable_of};
ghost use Rattle.mlk_machine_jobs.specs.Commands.{in_variable, evaluated, evaluated_if, given_in, block_parts, if_parts, in_time};
ghost use Rattle.mlk_machine_jobs.specs.TaskViews.{Adds, block_of};

use mlk_machine_expressions::{add, each_subscript, subscripts_of};
use mlk_machine_jobs::{ScopeTask, Task, TestTask, ValueTask};
use mlk_syntax::{Actual, Expr, Line, Variable};
use std::alloc::AllocError;

pub(crate) fn in_variable<'a>(
    parts: &mut Vec<Task<'a>>,
    variable: &'a Variable,
) -> Result<(), AllocError>
    ensures { OnOk result (Adds (in_variable (variable_of variable.now)) parts.old.items parts.new.items) }
{
    each_subscript(parts, subscripts_of(variable))
}

/// Evaluates an expression without using its value.
pub(crate) fn evaluate_and_drop<'a>(
    parts: &mut Vec<Task<'a>>,
    expression: &'a Expr,
) -> Result<(), AllocError>
    ensures { OnOk result (Adds (evaluated (tree_of expression.now)) parts.old.items parts.new.items) }
{
    add(parts, Task::Value(ValueTask::Evaluate(expression)))?;
    add(parts, Task::Value(ValueTask::DropValues(1)))?;
    Ok(())
}

#[tactic(auto, using(mlk_machine_expressions::proofs::Additions::adds_none))]
pub(crate) fn evaluate_if_some<'a>(
    parts: &mut Vec<Task<'a>>,
    expression: &'a Option<Expr>,
) -> Result<(), AllocError>
    ensures { OnOk result (Adds (evaluated_if (option_map tree_of expression.now)) parts.old.items parts.new.items) }
{
    match expression {
        None => Ok(()),
        Some(expression) => evaluate_and_drop(parts, expression),
    }
}

/// The actuals of a call; empty without an actual list.
pub(crate) fn given_in(actuals: &Option<Vec<Actual>>) -> &[Actual]
    ensures { actual_trees result.now ≡ given_in (option_map (λ v. actual_trees v.items) actuals.now) }
{
    match actuals {
        None => &[],
        Some(given) => given.as_slice(),
    }
}

/// Runs the block of a DO without arguments, if there is one.
#[tactic(auto, using(mlk_machine_expressions::proofs::Additions::adds_none))]
pub(crate) fn block_parts<'a>(
    parts: &mut Vec<Task<'a>>,
    block: &'a [Line],
) -> Result<(), AllocError>
    ensures { OnOk result (Adds (block_parts (block_of block.now)) parts.old.items parts.new.items) }
{
    match block.split_first() {
        None => Ok(()),
        Some(_) => add(parts, Task::Scope(ScopeTask::Block(block))),
    }
}

/// Tests a condition of IF.
pub(crate) fn if_parts<'a>(parts: &mut Vec<Task<'a>>, condition: &'a Expr) -> Result<(), AllocError>
    ensures { OnOk result (Adds (if_parts (tree_of condition.now)) parts.old.items parts.new.items) }
{
    add(parts, Task::Value(ValueTask::Evaluate(condition)))?;
    add(parts, Task::Test(TestTask::SetTest))?;
    add(parts, Task::Test(TestTask::SkipIf(false)))?;
    Ok(())
}

/// Sets `$TEST` by READ's timeout, if there is one.
#[tactic(auto, using(mlk_machine_expressions::proofs::Additions::adds_none))]
pub(crate) fn in_time<'a>(
    parts: &mut Vec<Task<'a>>,
    timeout: &'a Option<Expr>,
) -> Result<(), AllocError>
    ensures { OnOk result (Adds (in_time (option_map tree_of timeout.now)) parts.old.items parts.new.items) }
{
    match timeout {
        None => Ok(()),
        Some(_) => add(parts, Task::Test(TestTask::AskTest)),
    }
}
