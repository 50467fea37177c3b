// The tasks of arguments of JOB, KILL, LOCK and SET.

ghost use Rattle.std.specs.Prelude.{OnOk, flat_map, map};
ghost use Rattle.mlk_syntax.specs.ExprTrees.{trees};
ghost use Rattle.mlk_syntax.specs.Views.{variable_of, call_of, kill_of, lock_of, target_of, set_of};
ghost use Rattle.mlk_machine_jobs.specs.Expressions.{each_actual};
ghost use Rattle.mlk_machine_jobs.specs.Commands.{in_variable, job_parts, kill_variable, kill_parts, lock_parts, target_parts, set_parts};
ghost use Rattle.mlk_machine_jobs.specs.Locking.{by_sign};
ghost use Rattle.mlk_machine_jobs.specs.TaskViews.{Adds};
ghost use Rattle.mlk_machine_tasks.specs.ArgumentViews.{each_value};

use crate::command::{evaluate_if_some, given_in, in_variable};
use crate::part::add_all;
use mlk_machine_expressions::{add, count_subscripts, each_actual, each_argument};
use mlk_machine_jobs::{LocalTask, LockTask, Names, ScopeTask, Task, ValueTask};
use mlk_names::{Access, Extent, LockName};
use mlk_syntax::{Call, Expr, KillArgument, LockArgument, SetArgument, Sign, Target, Variable};
use std::alloc::AllocError;

/// JOB evaluates its actuals; the job that it starts is a separate one.
pub(crate) fn job_parts<'a>(parts: &mut Vec<Task<'a>>, call: &'a Call) -> Result<(), AllocError>
    ensures { OnOk result (Adds (job_parts (call_of call.now)) parts.old.items parts.new.items) }
{
    let given = given_in(&call.actuals);
    each_actual(parts, given)?;
    add(parts, Task::Scope(ScopeTask::StartJob(&call.callee, given)))?;
    Ok(())
}

// Kills a variable whose subscripts were evaluated.
#[tactic(auto, using(crate::proofs::CommandParts::kill_bare, crate::proofs::CommandParts::kill_with_subs, crate::proofs::CommandParts::kill_global, crate::proofs::CommandParts::kill_other))]
fn kill_variable<'a>(parts: &mut Vec<Task<'a>>, variable: &'a Variable) -> Result<(), AllocError>
    ensures { OnOk result (Adds (kill_variable (variable_of variable.now)) parts.old.items parts.new.items) }
{
    match &variable.name {
        Expr::Local(name, subscripts) => match subscripts.split_first() {
            None => add(parts, Task::Local(LocalTask::KillNames(Names::Only(name)))),
            Some(_) => add(
                parts,
                Task::Value(ValueTask::DropValues(count_subscripts(subscripts))),
            ),
        },
        Expr::Global(_, name, subscripts) => {
            let count = count_subscripts(subscripts);
            add(
                parts,
                Task::Value(ValueTask::FormReference(name, count, Extent::Tree, Access::Writes)),
            )
        }
        Expr::Lit(_)
        | Expr::Free
        | Expr::Special(_)
        | Expr::Unary(_, _)
        | Expr::Binary(_, _)
        | Expr::Pattern(_)
        | Expr::Func(_, _)
        | Expr::Select(_)
        | Expr::Call(_, _, None)
        | Expr::Call(_, _, Some(_)) => add(parts, Task::Value(ValueTask::DropValues(0))),
    }
}

pub(crate) fn kill_parts<'a>(
    parts: &mut Vec<Task<'a>>,
    argument: &'a KillArgument,
) -> Result<(), AllocError>
    ensures { OnOk result (Adds (kill_parts (kill_of argument.now)) parts.old.items parts.new.items) }
{
    match argument {
        KillArgument::One(variable) => {
            in_variable(parts, variable)?;
            kill_variable(parts, variable)?;
            Ok(())
        }
        KillArgument::AllBut(names) => add(
            parts,
            Task::Local(LocalTask::KillNames(Names::AllBut(names.as_slice()))),
        ),
    }
}

// The names of LOCK.
#[tactic(auto, using(crate::proofs::PartLemmas::variables_mapped))]
fn in_variables<'a>(parts: &mut Vec<Task<'a>>, names: &'a [Variable]) -> Result<(), AllocError>
    ensures { OnOk result (Adds (flat_map in_variable (map variable_of names.now)) parts.old.items parts.new.items) }
{
    add_all(parts, names)?;
    Ok(())
}

/// LOCK: evaluates the names, then the timeout, then applies the sign.
#[tactic(auto, using(crate::proofs::PartLemmas::is_there))]
pub(crate) fn lock_parts<'a>(
    parts: &mut Vec<Task<'a>>,
    argument: &'a LockArgument,
) -> Result<(), AllocError>
    ensures { OnOk result (Adds (lock_parts (lock_of argument.now)) parts.old.items parts.new.items) }
{
    in_variables(parts, &argument.names)?;
    evaluate_if_some(parts, &argument.timeout)?;
    let timed = argument.timeout.is_some();
    add(
        parts,
        Task::Lock(LockTask::LockNamed(argument.sign, argument.names.as_slice(), timed)),
    )?;
    Ok(())
}

/// Adds the effect of LOCK on its names: without a sign all locks are released before the claim.
pub fn by_sign<'a>(
    parts: &mut Vec<Task<'a>>,
    sign: Sign,
    names: Vec<LockName>,
    timed: bool,
) -> Result<(), AllocError>
    ensures { OnOk result (Adds (by_sign sign names.items timed) parts.old.items parts.new.items) }
{
    match sign {
        Sign::None => {
            add(parts, Task::Lock(LockTask::ReleaseAll))?;
            add(parts, Task::Lock(LockTask::Claim(names, timed)))?;
            Ok(())
        }
        Sign::Plus => add(parts, Task::Lock(LockTask::Claim(names, timed))),
        Sign::Minus => add(parts, Task::Lock(LockTask::Release(names))),
    }
}

// Evaluates further arguments of a function.
#[tactic(auto, using(crate::proofs::PartLemmas::values_each))]
fn each_value<'a>(parts: &mut Vec<Task<'a>>, arguments: &'a [Expr]) -> Result<(), AllocError>
    ensures { OnOk result (Adds (each_value (trees arguments.now)) parts.old.items parts.new.items) }
{
    each_argument(parts, arguments)?;
    Ok(())
}

pub(crate) fn target_parts<'a>(
    parts: &mut Vec<Task<'a>>,
    target: &'a Target,
) -> Result<(), AllocError>
    ensures { OnOk result (Adds (target_parts (target_of target.now)) parts.old.items parts.new.items) }
{
    match target {
        Target::Whole(variable) => in_variable(parts, variable),
        Target::Part(_, variable, arguments) => {
            in_variable(parts, variable)?;
            each_value(parts, arguments)?;
            Ok(())
        }
    }
}

// The targets of SET.
#[tactic(auto, using(crate::proofs::PartLemmas::targets_mapped))]
fn in_targets<'a>(parts: &mut Vec<Task<'a>>, targets: &'a [Target]) -> Result<(), AllocError>
    ensures { OnOk result (Adds (flat_map target_parts (map target_of targets.now)) parts.old.items parts.new.items) }
{
    add_all(parts, targets)?;
    Ok(())
}

/// SET: evaluates what its targets need, from left to right, then the value, then assigns.
pub(crate) fn set_parts<'a>(
    parts: &mut Vec<Task<'a>>,
    argument: &'a SetArgument,
) -> Result<(), AllocError>
    ensures { OnOk result (Adds (set_parts (set_of argument.now)) parts.old.items parts.new.items) }
{
    in_targets(parts, argument.targets.as_slice())?;
    add(parts, Task::Value(ValueTask::Evaluate(&argument.value)))?;
    add(
        parts,
        Task::Local(LocalTask::Assign(argument.targets.as_slice())),
    )?;
    Ok(())
}
