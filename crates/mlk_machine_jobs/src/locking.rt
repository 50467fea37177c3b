// The lock names of LOCK, once their subscripts are computed.

ghost use Rattle.std.specs.Prelude.{◌≡◌, ◌-◌, ◌^◌, IfOk, length, map, min, take, drop};
ghost use Rattle.mlk_syntax.specs.Views.{variable_of};
ghost use Rattle.mlk_machine_jobs.specs.Commands.{count_in};
ghost use Rattle.mlk_machine_jobs.specs.Locking.{root_in, count_all, lock_name_of, names_of};

use mlk_names::{LockName, Root};
use mlk_syntax::{Expr, Subscript, Variable};
use mlk_text::{Name, Subscripts, Value};
use std::alloc::{AllocError, Global};

// The subscripts of a variable.
fn subscripts_of(variable: &Variable) -> &[Subscript]
    ensures { length result.now ≡ count_in (variable_of variable.now) }
{
    match &variable.name {
        Expr::Local(_, subscripts) => subscripts.as_slice(),
        Expr::Global(_, _, subscripts) => subscripts.as_slice(),
        _ => &[],
    }
}

/// The number of subscripts of a variable.
pub fn count_in(variable: &Variable) -> usize
    ensures { result ≡ count_in (variable_of variable.now) }
{
    subscripts_of(variable).len()
}

// The root of the lock name.
fn root_in(alloc: Global, variable: &Variable) -> Result<Root, AllocError>
    ensures { IfOk result (λ root. root ≡ root_in (variable_of variable.now)) }
{
    match &variable.name {
        Expr::Global(_, name, _) => Ok(Root::Global(name.copy()?)),
        Expr::Local(name, _) => Ok(Root::Local(name.copy()?)),
        _ => Ok(Root::Local(Name::of(alloc, b"")?)),
    }
}

/// Splits `values` after the first `count`.
pub fn cut_after(values: &[Value], count: usize) -> (&[Value], &[Value])
    ensures before { result.0.now ≡ take count values.now }
    ensures after { result.1.now ≡ drop count values.now }
{
    values.split_at(count.min(values.len()))
}

// The lock name of `variable` with the subscripts `subscripts`.
fn lock_name(
    alloc: Global,
    variable: &Variable,
    subscripts: &[Value],
) -> Result<LockName, AllocError>
    ensures { IfOk result (λ name. name ≡ lock_name_of (variable_of variable.now) subscripts.now) }
{
    let root = root_in(alloc, variable)?;
    let subs = Subscripts::of(Vec::from_clones(alloc, subscripts)?);
    Ok(LockName { root, subs })
}

/// The total number of subscripts of `names`, at most the greatest `usize`.
pub fn count_all(names: &[Variable]) -> usize
    ensures { result ≡ min (count_all (map variable_of names.now)) (2 ^ 64 - 1) }
{
    let mut count = 0;
    let mut left = names;
    while let Some((variable, others)) = left.split_first() {
        count = count_in(variable).saturating_add(count);
        left = others;
    }
    count
}

/// The lock names of LOCK, from the values of all their subscripts.
pub fn lock_names(
    alloc: Global,
    names: &[Variable],
    values: &[Value],
) -> Result<Vec<LockName>, AllocError>
    ensures { IfOk result (λ found. found.items ≡ names_of values.now (map variable_of names.now)) }
{
    let mut found = Vec::new(alloc);
    let mut rest = values;
    let mut left = names;
    while let Some((variable, others)) = left.split_first() {
        let (subscripts, later) = cut_after(rest, count_in(variable));
        found.push(lock_name(alloc, variable, subscripts)?)?;
        rest = later;
        left = others;
    }
    Ok(found)
}
