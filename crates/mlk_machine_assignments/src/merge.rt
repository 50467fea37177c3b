// The tasks of MERGE once the subscripts of both sides were computed.

ghost use Rattle.std.specs.Prelude.{OnOk, option_map};
ghost use Rattle.mlk_syntax.specs.Views.{variable_of};
ghost use Rattle.mlk_machine_jobs.specs.Assigning.{merge_source, merge_target};
ghost use Rattle.mlk_machine_jobs.specs.TaskViews.{Adds};
ghost use Rattle.mlk_machine_assignments.specs.AssignViews.{source_read, into_local, unread, tree_written, merged_into};

use crate::assign::{global_name, is_global, touch};
use mlk_machine_expressions::{add, bare_name};
use mlk_machine_jobs::{LocalTask, Task, ValueTask};
use mlk_names::{Access, Extent};
use mlk_syntax::Variable;
use mlk_text::{Name, Value};
use std::alloc::{AllocError, Global};

// Reads the tree of the global, if there is one.
#[tactic(auto, using(mlk_machine_expressions::proofs::Additions::adds_none))]
fn read_source<'a>(
    alloc: Global,
    parts: &mut Vec<Task<'a>>,
    subs: &[Value],
    global: Option<&'a Name>,
) -> Result<(), AllocError>
    ensures { OnOk result (Adds (source_read subs.now (option_map (λ n. n.now) global.entry)) parts.old.items parts.new.items) }
{
    match global {
        None => Ok(()),
        Some(name) => touch(alloc, parts, name, subs, Extent::Tree, Access::Reads),
    }
}

/// Reads the tree on the right.
#[tactic(auto, using(crate::proofs::AssignParts::merged_source))]
pub fn merge_source<'a>(
    alloc: Global,
    parts: &mut Vec<Task<'a>>,
    subs: &[Value],
    source: &'a Variable,
) -> Result<(), AllocError>
    ensures { OnOk result (Adds (merge_source subs.now (variable_of source.now)) parts.old.items parts.new.items) }
{
    read_source(alloc, parts, subs, global_name(source))
}

// Merges the tree that was read, or any value, into a local.
fn into_local<'a>(
    parts: &mut Vec<Task<'a>>,
    name: &'a Name,
    is_read: bool,
) -> Result<(), AllocError>
    ensures { OnOk result (Adds (into_local name.now is_read) parts.old.items parts.new.items) }
{
    if is_read {
        add(parts, Task::Local(LocalTask::StoreLast(name)))
    } else {
        add(parts, Task::Local(LocalTask::StoreAny(name)))
    }
}

// Drops the value that was read, if one was.
#[tactic(auto, using(mlk_machine_expressions::proofs::Additions::adds_none))]
fn drop_read_value<'a>(parts: &mut Vec<Task<'a>>, is_read: bool) -> Result<(), AllocError>
    ensures { OnOk result (Adds (unread is_read) parts.old.items parts.new.items) }
{
    if is_read {
        add(parts, Task::Value(ValueTask::DropValues(1)))
    } else {
        Ok(())
    }
}

// Writes the tree of the global, if there is one.
#[tactic(auto, using(mlk_machine_expressions::proofs::Additions::adds_none))]
fn write_tree<'a>(
    alloc: Global,
    parts: &mut Vec<Task<'a>>,
    subs: &[Value],
    global: Option<&'a Name>,
) -> Result<(), AllocError>
    ensures { OnOk result (Adds (tree_written subs.now (option_map (λ n. n.now) global.entry)) parts.old.items parts.new.items) }
{
    match global {
        None => Ok(()),
        Some(name) => touch(alloc, parts, name, subs, Extent::Tree, Access::Writes),
    }
}

// Merges the tree that was read, if one was, into the local, if there is one, otherwise into the global, if there is one.
fn merge_into<'a>(
    alloc: Global,
    parts: &mut Vec<Task<'a>>,
    subs: &[Value],
    local: Option<&'a Name>,
    global: Option<&'a Name>,
    is_read: bool,
) -> Result<(), AllocError>
    ensures { OnOk result (Adds (merged_into subs.now (option_map (λ n. n.now) local.entry)
        (option_map (λ n. n.now) global.entry) is_read) parts.old.items parts.new.items) }
{
    if let Some(name) = local {
        into_local(parts, name, is_read)?;
        return Ok(());
    }
    drop_read_value(parts, is_read)?;
    write_tree(alloc, parts, subs, global)?;
    Ok(())
}

/// Writes the left side, with the tree of the right one, or with any value.
#[tactic(auto, using(crate::proofs::MergeParts::merged_target))]
pub fn merge_target<'a>(
    alloc: Global,
    parts: &mut Vec<Task<'a>>,
    subs: &[Value],
    target: &'a Variable,
    source: &'a Variable,
) -> Result<(), AllocError>
    ensures { OnOk result (Adds (merge_target subs.now (variable_of target.now) (variable_of source.now)) parts.old.items parts.new.items) }
{
    let is_read = is_global(source);
    merge_into(
        alloc,
        parts,
        subs,
        bare_name(target),
        global_name(target),
        is_read,
    )
}
