// The bindings of formals, and their values.

ghost use Rattle.std.specs.Prelude.{◌≡◌, IfOk, OnOk, List, ℕ, map, Some};
ghost use Rattle.mlk_syntax.specs.ExprTrees.{actual_of, actual_trees};
ghost use Rattle.mlk_machine_jobs.specs.Calling.{next_actual, later_actuals, binder, binders, count_given};
ghost use Rattle.mlk_machine_jobs.specs.Views.{binder_of, bindings_of, in_table};
ghost use Rattle.mlk_machine_run.specs.Frames.{is_given, filled, filled_first};

use mlk_machine_jobs::{Binder, CellTable, Names, look_up};
use mlk_syntax::Actual;
use mlk_text::{Name, Value};
use std::alloc::{AllocError, Global};

// The binding of a formal, by the first of the remaining actuals.
fn binder<'a>(
    caller: &[Binder<'a>],
    generation: usize,
    formal: &'a Name,
    given: &'a [Actual],
) -> Binder<'a>
    ensures { binder_of result
        ≡ binder (bindings_of caller.now) generation formal.now (next_actual (actual_trees given.now)) }
{
    let Some((actual, _)) = given.split_first() else {
        return Binder::Fresh(generation, Names::Only(formal));
    };
    match actual {
        Actual::ByRef(_, name) => Binder::ByReference(formal, look_up(caller, name.as_bytes())),
        Actual::Value(_) | Actual::Missing => Binder::Fresh(generation, Names::Only(formal)),
    }
}

// The actuals after the first.
fn later_actuals(given: &[Actual]) -> &[Actual]
    ensures { actual_trees result.now ≡ later_actuals (actual_trees given.now) }
{
    match given.split_first() {
        Some((_, later)) => later,
        None => given,
    }
}

/// The bindings of `formals`, in order: each to a new cell, or to that of a name which is passed by reference.
pub(crate) fn binders<'a>(
    alloc: Global,
    caller: &[Binder<'a>],
    generation: usize,
    formals: &'a [Name],
    given: &'a [Actual],
) -> Result<Vec<Binder<'a>>, AllocError>
    ensures { IfOk result (λ found. map binder_of found.items
        ≡ binders (bindings_of caller.now) generation formals.now (actual_trees given.now)) }
{
    let mut found = Vec::new(alloc);
    let mut left = formals;
    let mut actuals = given;
    while let Some((formal, others)) = left.split_first() {
        let Ok(()) = found.push(binder(caller, generation, formal, actuals)) else {
            return Err(AllocError);
        };
        actuals = later_actuals(actuals);
        left = others;
    }
    Ok(found)
}

// Whether an actual is passed by value.
fn is_given(actual: &Actual) -> bool
    ensures { result ≡ is_given (actual_of actual.now) }
{
    match actual {
        Actual::Value(_) => true,
        Actual::ByRef(_, _) | Actual::Missing => false,
    }
}

/// The number of actuals that are passed by value.
pub(crate) fn count_given(given: &[Actual]) -> usize
    ensures { result ≡ count_given (actual_trees given.now) }
{
    let mut count = 0;
    let mut left = given;
    while let Some((actual, others)) = left.split_first() {
        if is_given(actual) {
            count += 1;
        }
        left = others;
    }
    count
}

/// Sets the values of the formals that are passed by value.
pub(crate) fn fill_formals<'a>(
    table: &mut CellTable<'a>,
    formals: &'a [Name],
    given: &[Actual],
    values: &[Value],
) -> Result<(), AllocError>
    ensures { OnOk result (in_table table.new
        ≡ filled formals.now (actual_trees given.now) values.now (in_table table.old)) }
{
    let mut left = formals;
    let mut actuals = given;
    let mut rest = values;
    while let Some((formal, others)) = left.split_first() {
        let Some((actual, more)) = actuals.split_first() else {
            return Ok(());
        };
        if is_given(actual) {
            let Some((value, after)) = rest.split_first() else {
                return Ok(());
            };
            table.put(formal.as_bytes(), value.copy()?)?;
            rest = after;
        }
        left = others;
        actuals = more;
    }
    Ok(())
}

/// Sets the values of the first formals.
pub(crate) fn fill_first<'a>(
    table: &mut CellTable<'a>,
    formals: &'a [Name],
    values: &[Value],
) -> Result<(), AllocError>
    ensures { OnOk result (in_table table.new ≡ filled_first formals.now values.now (in_table table.old)) }
{
    let mut left = formals;
    let mut rest = values;
    while let Some((formal, others)) = left.split_first() {
        let Some((value, after)) = rest.split_first() else {
            return Ok(());
        };
        table.put(formal.as_bytes(), value.copy()?)?;
        left = others;
        rest = after;
    }
    Ok(())
}
