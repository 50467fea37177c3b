// The tasks of the evaluation of a whole expression.

ghost use Rattle.std.specs.Prelude.{◌≡◌, ◌∷◌, [], OnOk, option_map};
ghost use Rattle.mlk_syntax.specs.ExprTrees.{tree_of, actual_of, actual_trees, link, no_links};
ghost use Rattle.mlk_machine_jobs.specs.Expressions.{function_parts, takes_name, operation, each_actual, parts_of};
ghost use Rattle.mlk_machine_jobs.specs.TaskViews.{Adds};
ghost use Rattle.mlk_machine_expressions.specs.PartViews.{args_of, links_of, is_pattern_text, called_with, extrinsic_parts, values_with};

use crate::adding::add;
use crate::expr::{
    ask_parts, count_arguments, each_argument, named_by, of_global, read_global, read_local,
    special_parts,
};
use mlk_machine_jobs::{Calling, ScopeTask, Task, ValueTask};
use mlk_names::Extent;
use mlk_syntax::{Actual, Callee, Expr, Function};
use mlk_text::Op;
use std::alloc::AllocError;

fn is_pattern(operand: &Expr) -> bool
    ensures { result ≡ is_pattern_text (tree_of operand.now) }
{
    match operand {
        Expr::Pattern(_) => true,
        Expr::Lit(_)
        | Expr::Free
        | Expr::Local(_, _)
        | Expr::Global(_, _, _)
        | Expr::Special(_)
        | Expr::Unary(_, _)
        | Expr::Binary(_, _)
        | Expr::Func(_, _)
        | Expr::Select(_)
        | Expr::Call(_, _, None)
        | Expr::Call(_, _, Some(_)) => false,
    }
}

// Applies a binary operator to its right operand; a pattern match may have any value.
#[tactic(auto, using(crate::proofs::ExprParts::pattern_operation, crate::proofs::ExprParts::other_operation))]
fn operand<'a>(parts: &mut Vec<Task<'a>>, op: Op, operand: &'a Expr) -> Result<(), AllocError>
    ensures { OnOk result (Adds (operation (link op (tree_of operand.now) no_links)) parts.old.items parts.new.items) }
{
    if is_pattern(operand) {
        return add(parts, Task::Value(ValueTask::AskValue(1)));
    }
    add(parts, Task::Value(ValueTask::Evaluate(operand)))?;
    add(parts, Task::Value(ValueTask::ApplyBinary(op)))?;
    Ok(())
}

#[tactic(auto, using(crate::proofs::ExprParts::operation_turn))]
fn chain<'a>(parts: &mut Vec<Task<'a>>, rest: &'a [(Op, Expr)]) -> Result<(), AllocError>
    ensures { OnOk result (Adds (operation (links_of rest.now)) parts.old.items parts.new.items) }
{
    let mut left = rest;
    while let Some((link, others)) = left.split_first() {
        operand(parts, link.0, &link.1)?;
        left = others;
    }
    Ok(())
}

fn actual_parts<'a>(parts: &mut Vec<Task<'a>>, actual: &'a Actual) -> Result<(), AllocError>
    ensures { OnOk result (Adds (each_actual (actual_of actual.now ∷ [])) parts.old.items parts.new.items) }
{
    match actual {
        Actual::Value(value) => add(parts, Task::Value(ValueTask::Evaluate(value))),
        Actual::ByRef(_, _) | Actual::Missing => Ok(()),
    }
}

/// Evaluates the actuals that are passed by value.
#[tactic(auto, using(crate::proofs::ExprParts::actual_turn))]
pub fn each_actual<'a>(parts: &mut Vec<Task<'a>>, actuals: &'a [Actual]) -> Result<(), AllocError>
    ensures { OnOk result (Adds (each_actual (actual_trees actuals.now)) parts.old.items parts.new.items) }
{
    let mut left = actuals;
    while let Some((actual, others)) = left.split_first() {
        actual_parts(parts, actual)?;
        left = others;
    }
    Ok(())
}

fn call_parts<'a>(
    parts: &mut Vec<Task<'a>>,
    callee: &'a Callee,
    actuals: &'a [Actual],
) -> Result<(), AllocError>
    ensures { OnOk result (Adds (called_with callee.now (actual_trees actuals.now)) parts.old.items parts.new.items) }
{
    each_actual(parts, actuals)?;
    add(
        parts,
        Task::Scope(ScopeTask::Call(Calling::Extrinsic, callee, actuals)),
    )?;
    Ok(())
}

// Evaluates `arguments` and replaces their values by any value.
fn value_parts<'a>(parts: &mut Vec<Task<'a>>, arguments: &'a [Expr]) -> Result<(), AllocError>
    ensures { OnOk result (Adds (values_with (args_of arguments.now)) parts.old.items parts.new.items) }
{
    each_argument(parts, arguments)?;
    add(
        parts,
        Task::Value(ValueTask::AskValue(count_arguments(arguments))),
    )?;
    Ok(())
}

#[tactic(auto, using(crate::proofs::TreeParts::no_name, crate::proofs::TreeParts::no_arguments, crate::proofs::TreeParts::of_global_first, crate::proofs::TreeParts::of_local_first, crate::proofs::TreeParts::of_other))]
fn function_parts<'a>(
    parts: &mut Vec<Task<'a>>,
    function: Function,
    arguments: &'a [Expr],
) -> Result<(), AllocError>
    ensures { OnOk result (Adds (function_parts function (takes_name function) (args_of arguments.now)) parts.old.items parts.new.items) }
{
    let Some(naming) = named_by(function) else {
        return value_parts(parts, arguments);
    };
    let Some((first, more)) = arguments.split_first() else {
        return value_parts(parts, arguments);
    };
    match first {
        Expr::Global(_, name, subscripts) => of_global(parts, naming, name, subscripts, more),
        Expr::Local(_, subscripts) => ask_parts(parts, subscripts, more),
        Expr::Lit(_)
        | Expr::Free
        | Expr::Special(_)
        | Expr::Unary(_, _)
        | Expr::Binary(_, _)
        | Expr::Pattern(_)
        | Expr::Func(_, _)
        | Expr::Select(_)
        | Expr::Call(_, _, None)
        | Expr::Call(_, _, Some(_)) => value_parts(parts, arguments),
    }
}

// An extrinsic call, with or without an actual list.
fn extrinsic<'a>(
    parts: &mut Vec<Task<'a>>,
    callee: &'a Callee,
    actuals: &'a Option<Vec<Actual>>,
) -> Result<(), AllocError>
    ensures { OnOk result (Adds (extrinsic_parts callee.now (option_map (λ v. actual_trees v.items) actuals.now))
        parts.old.items parts.new.items) }
{
    match actuals {
        None => add(
            parts,
            Task::Scope(ScopeTask::Call(Calling::Extrinsic, callee, &[])),
        ),
        Some(given) => call_parts(parts, callee, given),
    }
}

/// Adds the tasks of an expression.
#[tactic(auto, using(crate::proofs::TreeParts::local_parts, crate::proofs::TreeParts::global_parts, crate::proofs::TreeParts::binary_parts, crate::proofs::TreeParts::func_parts, crate::proofs::TreeParts::select_parts, crate::proofs::TreeParts::extrinsic_call))]
pub fn parts_of<'a>(parts: &mut Vec<Task<'a>>, expression: &'a Expr) -> Result<(), AllocError>
    ensures { OnOk result (Adds (parts_of (tree_of expression.now)) parts.old.items parts.new.items) }
{
    match expression {
        Expr::Lit(value) => add(parts, Task::Value(ValueTask::Push(value))),
        Expr::Free | Expr::Pattern(_) => add(parts, Task::Value(ValueTask::AskValue(0))),
        Expr::Local(name, subscripts) => read_local(parts, name, subscripts),
        Expr::Global(_, name, subscripts) => read_global(parts, name, subscripts, Extent::Node),
        Expr::Special(special) => special_parts(parts, *special),
        Expr::Unary(op, operand) => {
            add(parts, Task::Value(ValueTask::Evaluate(operand)))?;
            add(parts, Task::Value(ValueTask::ApplyUnary(*op)))?;
            Ok(())
        }
        Expr::Binary(first, rest) => {
            add(parts, Task::Value(ValueTask::Evaluate(first)))?;
            chain(parts, rest)?;
            Ok(())
        }
        Expr::Func(function, arguments) => function_parts(parts, *function, arguments),
        Expr::Select(branches) => add(parts, Task::Value(ValueTask::Select(branches))),
        Expr::Call(_, callee, actuals) => extrinsic(parts, callee, actuals),
    }
}
