// The tasks of SET once everything that it needs was computed.

ghost use Rattle.std.specs.Prelude.{◌≡◌, ◌∷◌, [], IfOk, OnOk, map, min, ◌^◌, ◌-◌, is_some, option_map};
ghost use Rattle.mlk_syntax.specs.Views.{variable_of, target_of};
ghost use Rattle.mlk_machine_jobs.specs.Tasks.{DoTouch};
ghost use Rattle.mlk_machine_jobs.specs.Choices.{touch_at};
ghost use Rattle.mlk_machine_jobs.specs.Assigning.{subs_of_target, parts_in, count_parts, assigned, assignments};
ghost use Rattle.mlk_machine_jobs.specs.TaskViews.{Adds};
ghost use Rattle.mlk_machine_jobs.specs.TaskViews as view;
ghost use Rattle.mlk_machine_assignments.specs.AssignViews.{global_name, read_and_written, whole_assigned, part_assigned};

use mlk_machine_expressions::{add, bare_name, count_subscripts, subscripts_of};
use mlk_machine_jobs::{LocalTask, Task, Touch, ValueTask, count_in, cut_after};
use mlk_names::{Access, Extent};
use mlk_syntax::{Expr, Target, Variable};
use mlk_text::{Name, Subscripts, Value};
use std::alloc::{AllocError, Global};

/// The touch of a global with the subscripts `values`.
pub fn global_touch(
    alloc: Global,
    name: &Name,
    values: &[Value],
    extent: Extent,
    access: Access,
) -> Result<Touch, AllocError>
    ensures { IfOk result (λ t. view.touch_of t ≡ touch_at name.now values.now extent access) }
{
    let mut subs = Subscripts::new(alloc);
    let mut left = values;
    while let Some((value, others)) = left.split_first() {
        subs.push(value.copy()?)?;
        left = others;
    }
    Ok(Touch {
        root: name.copy()?,
        subs,
        extent,
        access,
    })
}

/// Touches a node or a tree.
pub(crate) fn touch<'a>(
    alloc: Global,
    parts: &mut Vec<Task<'a>>,
    name: &Name,
    subs: &[Value],
    extent: Extent,
    access: Access,
) -> Result<(), AllocError>
    ensures { OnOk result (Adds (DoTouch (touch_at name.now subs.now extent access) ∷ []) parts.old.items parts.new.items) }
{
    let reference = global_touch(alloc, name, subs, extent, access)?;
    add(parts, Task::Value(ValueTask::DoTouch(reference)))?;
    Ok(())
}

// Reads a node and then writes it, as the assignment of a part of its value does.
fn read_and_write<'a>(
    alloc: Global,
    parts: &mut Vec<Task<'a>>,
    name: &Name,
    subs: &[Value],
) -> Result<(), AllocError>
    ensures { OnOk result (Adds (read_and_written name.now subs.now) parts.old.items parts.new.items) }
{
    touch(alloc, parts, name, subs, Extent::Node, Access::Reads)?;
    add(parts, Task::Value(ValueTask::DropValues(1)))?;
    touch(alloc, parts, name, subs, Extent::Node, Access::Writes)?;
    Ok(())
}

/// The name of a global, or `None` for any other variable.
#[tactic(auto, using(crate::proofs::AssignParts::name_of_global, crate::proofs::AssignParts::no_global))]
pub(crate) fn global_name(variable: &Variable) -> Option<&Name>
    ensures { option_map (λ n. n.now) result ≡ global_name (variable_of variable.now) }
{
    match &variable.name {
        Expr::Global(_, name, _) => Some(name),
        Expr::Local(_, _)
        | Expr::Lit(_)
        | Expr::Free
        | Expr::Special(_)
        | Expr::Unary(_, _)
        | Expr::Binary(_, _)
        | Expr::Pattern(_)
        | Expr::Func(_, _)
        | Expr::Select(_)
        | Expr::Call(_, _, None)
        | Expr::Call(_, _, Some(_)) => None,
    }
}

/// Whether `variable` is a global.
pub(crate) fn is_global(variable: &Variable) -> bool
    ensures { result ≡ is_some (global_name (variable_of variable.now)) }
{
    match global_name(variable) {
        Some(_) => true,
        None => false,
    }
}

// Assigns a value to the local, if there is one, otherwise to the global, if there is one.
#[tactic(auto, using(mlk_machine_expressions::proofs::Additions::adds_none))]
fn assign_whole<'a>(
    alloc: Global,
    parts: &mut Vec<Task<'a>>,
    value: &Value,
    subs: &[Value],
    local: Option<&'a Name>,
    global: Option<&'a Name>,
) -> Result<(), AllocError>
    ensures { OnOk result (Adds (whole_assigned value.now subs.now (option_map (λ n. n.now) local.entry)
        (option_map (λ n. n.now) global.entry)) parts.old.items parts.new.items) }
{
    if let Some(name) = local {
        add(parts, Task::Local(LocalTask::Store(name, value.copy()?)))?;
        return Ok(());
    }
    match global {
        Some(name) => touch(alloc, parts, name, subs, Extent::Node, Access::Writes),
        None => Ok(()),
    }
}

// Assigns a part of the value of the local, if there is one, otherwise of the global, if there is one.
#[tactic(auto, using(mlk_machine_expressions::proofs::Additions::adds_none))]
fn assign_part<'a>(
    alloc: Global,
    parts: &mut Vec<Task<'a>>,
    subs: &[Value],
    local: Option<&'a Name>,
    global: Option<&'a Name>,
) -> Result<(), AllocError>
    ensures { OnOk result (Adds (part_assigned subs.now (option_map (λ n. n.now) local.entry)
        (option_map (λ n. n.now) global.entry)) parts.old.items parts.new.items) }
{
    if let Some(name) = local {
        add(parts, Task::Local(LocalTask::StoreAny(name)))?;
        return Ok(());
    }
    match global {
        Some(name) => read_and_write(alloc, parts, name, subs),
        None => Ok(()),
    }
}

// Assigns `value` to one target, whose own subscripts are `subs`.
#[tactic(auto, using(crate::proofs::AssignParts::assigned_whole, crate::proofs::AssignParts::assigned_part))]
fn assign_target<'a>(
    alloc: Global,
    parts: &mut Vec<Task<'a>>,
    value: &Value,
    subs: &[Value],
    target: &'a Target,
) -> Result<(), AllocError>
    ensures { OnOk result (Adds (assigned value.now subs.now (target_of target.now)) parts.old.items parts.new.items) }
{
    match target {
        Target::Whole(variable) => assign_whole(
            alloc,
            parts,
            value,
            subs,
            bare_name(variable),
            global_name(variable),
        ),
        Target::Part(_, variable, _) => assign_part(
            alloc,
            parts,
            subs,
            bare_name(variable),
            global_name(variable),
        ),
    }
}

// The number of values that a target needs for its subscripts.
fn count_subs(target: &Target) -> usize
    ensures { result ≡ subs_of_target (target_of target.now) }
{
    match target {
        Target::Whole(variable) => count_in(variable),
        Target::Part(_, variable, _) => count_in(variable),
    }
}

// The number of values that a target needs.
#[tactic(auto, using(crate::proofs::AssignParts::arguments_counted))]
fn count_needs(target: &Target) -> usize
    ensures { result ≡ parts_in (target_of target.now) }
{
    match target {
        Target::Whole(variable) => count_in(variable),
        Target::Part(_, variable, arguments) => {
            count_subscripts(subscripts_of(variable)) + arguments.len()
        }
    }
}

/// The number of values that the targets of SET need, at most the greatest `usize`.
pub fn count_parts(targets: &[Target]) -> usize
    ensures { result ≡ min (count_parts (map target_of targets.now)) (2 ^ 64 - 1) }
{
    let mut count = 0;
    let mut left = targets;
    while let Some((target, others)) = left.split_first() {
        count = count_needs(target).saturating_add(count);
        left = others;
    }
    count
}

/// Adds the assignments of SET, from left to right, of `value`, where `needs` are the values that the targets need.
pub fn assignments<'a>(
    alloc: Global,
    parts: &mut Vec<Task<'a>>,
    value: &Value,
    needs: &[Value],
    targets: &'a [Target],
) -> Result<(), AllocError>
    ensures { OnOk result (Adds (assignments value.now needs.now (map target_of targets.now)) parts.old.items parts.new.items) }
{
    let mut rest = needs;
    let mut left = targets;
    while let Some((target, others)) = left.split_first() {
        let (subs, _) = cut_after(rest, count_subs(target));
        assign_target(alloc, parts, value, subs, target)?;
        let (_, later) = cut_after(rest, count_needs(target));
        rest = later;
        left = others;
    }
    Ok(())
}
