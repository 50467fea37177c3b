// The arguments of LOCK.

ghost use Rattle.std.specs.Prelude.{◌≡◌, ◌≤◌, length, map, option_map, IfOk};
ghost use Rattle.std.specs.List.{list_all};
ghost use Rattle.mlk_syntax.specs.ExprTrees.{tree_of};
ghost use Rattle.mlk_expr.specs.declared.context.Allows.TheVariants.{NoTouches};
ghost use Rattle.mlk_routine_arguments.specs.PartsRead.{Found, ReadsPart, byte_at};
ghost use Rattle.mlk_routine_arguments.specs.Ends.{IsSign, SignEnds, OneEnds, VariableEnds, TimeoutEnds, LockEnds};
ghost use Rattle.mlk_syntax.specs.Views.{variable_of, lock_of};
ghost use Rattle.mlk_routine_arguments.specs.CommandGrammar.{IsVariable, IsOneOrEnclosed, IsLockTimeout, IsLock, after_names, in_names, is_quiet};

use crate::fault::{leaves_out, refusal_at};
use crate::item::one_or_enclosed;
use crate::items::Unsigned;
use crate::part::{expression, has_byte, is_argument_end};
use crate::quiet::{in_timeout, is_quiet};
use mlk_dialect::Dialect;
use mlk_expr::Allows;
use mlk_syntax::{Expr, LockArgument, Sign, Variable};
use mlk_text::{Code, Failure, Fault, LeftOut};
use std::alloc::{AllocError, Global};

/// Reads the sign, if there is one: the sign, and the byte after it.
fn sign(line: &[u8], at: usize) -> (Sign, usize)
    requires { at ≤ length line.now }
    ensures { Found IsSign SignEnds line.now at result.0 result.1 }
{
    if has_byte(line, at, b'+') {
        return (Sign::Plus, at + 1);
    }
    if has_byte(line, at, b'-') {
        return (Sign::Minus, at + 1);
    }
    (Sign::None, at)
}

// The variables of `names`, as the tree has them.
fn variables(alloc: Global, names: Vec<Unsigned>) -> Result<Vec<Variable>, AllocError>
    ensures { IfOk result (λ v. v.items ≡ map (λ name. name.variable) names.items) }
{
    names.into_iter().map(|name| name.variable).collect(alloc)
}

/// Reads the names of LOCK without a sign: the names, and the byte after them.
fn unsigned_names(
    alloc: Global,
    dialect: Dialect,
    line: &[u8],
    at: usize,
) -> Result<(Vec<Variable>, usize), Failure<Fault>>
    requires { at ≤ length line.now }
    ensures { ReadsPart (λ v. map variable_of v.items) (IsOneOrEnclosed (IsVariable NoTouches))
        (OneEnds VariableEnds (byte_at line.now at)) line.now at result }
{
    let (names, next) = one_or_enclosed(alloc, dialect, line, at)?;
    let names = variables(alloc, names)?;
    Ok((names, next))
}

/// Reads the names of LOCK: the names, and the byte after them. Without a sign less is allowed in them.
fn names(
    alloc: Global,
    dialect: Dialect,
    sign: Sign,
    line: &[u8],
    at: usize,
) -> Result<(Vec<Variable>, usize), Failure<Fault>>
    requires { at ≤ length line.now }
    ensures { ReadsPart (λ v. map variable_of v.items) (IsOneOrEnclosed (IsVariable (in_names sign)))
        (OneEnds VariableEnds (byte_at line.now at)) line.now at result }
{
    match sign {
        Sign::None => unsigned_names(alloc, dialect, line, at),
        Sign::Plus | Sign::Minus => one_or_enclosed(alloc, dialect, line, at),
    }
}

/// Reads the timeout, if there is one: its expression, and the byte after it. After `+` it may contain what `plus` allows; after `-`
/// it is refused as not read. Without a timeout the argument must end here.
fn timeout(
    alloc: Global,
    plus: Allows,
    sign: Sign,
    line: &[u8],
    at: usize,
) -> Result<(Option<Expr>, usize), Failure<Fault>>
    requires { at ≤ length line.now }
    ensures { ReadsPart (option_map tree_of) (IsLockTimeout plus sign) TimeoutEnds line.now at result }
{
    if is_argument_end(line, at) {
        return Ok((None, at));
    }
    if !has_byte(line, at, b':') {
        return Err(refusal_at(alloc, Code::Spacing, at));
    }
    let allows = match sign {
        Sign::None => Allows::NoTouches,
        Sign::Plus => plus,
        Sign::Minus => return Err(leaves_out(alloc, LeftOut::Timeout, at)),
    };
    let (timeout, next) = expression(alloc, allows, line, at + 1)?;
    Ok((Some(timeout), next))
}

fn are_quiet(names: &[Variable]) -> bool
    ensures { result ≡ list_all (λ name. is_quiet (variable_of name)) names.now }
{
    names.iter().all(|name| is_quiet(name))
}

// What is allowed in the timeout of these names after `+`.
fn after_names(dialect: Dialect, names: &[Variable]) -> Allows
    ensures { result ≡ after_names dialect (map variable_of names.now) }
{
    match dialect {
        Dialect::Standard => Allows::NoCalls,
        Dialect::Extended => in_timeout(are_quiet(names)),
    }
}

/// Reads an argument of LOCK: the argument, and the byte after it.
pub(crate) fn lock(
    alloc: Global,
    dialect: Dialect,
    line: &[u8],
    at: usize,
) -> Result<(LockArgument, usize), Failure<Fault>>
    requires { at ≤ length line.now }
    ensures { ReadsPart lock_of (IsLock dialect) LockEnds line.now at result }
{
    let (sign, next) = sign(line, at);
    let (names, next) = names(alloc, dialect, sign, line, next)?;
    let plus = after_names(dialect, names.as_slice());
    let (timeout, next) = timeout(alloc, plus, sign, line, next)?;
    Ok((
        LockArgument {
            sign,
            names,
            timeout,
        },
        next,
    ))
}
