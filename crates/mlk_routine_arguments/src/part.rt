// The parts of arguments that are read by the readers of expressions.

ghost use Rattle.std.specs.Prelude.{◌≡◌, ◌≤◌, length, drop, option_map, Some, true, false};
ghost use Rattle.mlk_syntax.specs.ExprTrees.{tree_of, actual_trees};
ghost use Rattle.mlk_expr.specs.Grammar.{IsExprWhere, IsNameText};
ghost use Rattle.mlk_expr.specs.Theorem.{ExprEnds, LabelEnds};
ghost use Rattle.mlk_routine_arguments.specs.PartsRead.{ReadsPart, byte_at};
ghost use Rattle.mlk_routine_arguments.specs.Ends.{is_stop, AfterEnds, VariableEnds};
ghost use Rattle.mlk_syntax.specs.Views.{variable_of, call_of};
ghost use Rattle.mlk_routine_arguments.specs.CommandGrammar.{IsAfter, IsVariable, IsCall};

use crate::fault::{other_form, refusal_at};
use mlk_expr::{Allows, read_expr_where, read_name, read_ref_where};
use mlk_expr_tokens::lexeme::starts_reference;
use mlk_syntax::{Expr, Variable};
use mlk_text::{Code, Column, Failure, Fault, Name};
use std::alloc::Global;

/// Whether byte `at` of `line` is `wanted`.
pub fn has_byte(line: &[u8], at: usize, wanted: u8) -> bool
    requires { at ≤ length line.now }
    ensures yes { result ≡ true → byte_at line.now at ≡ Some wanted }
    ensures no { result ≡ false → byte_at line.now at ≡ Some wanted → ⊥ }
{
    let (_, bytes) = line.split_at(at);
    match bytes.split_first() {
        Some((first, _)) => *first == wanted,
        None => false,
    }
}

/// Whether an argument may end here: at the line's end, or before a byte that ends arguments.
pub(crate) fn is_argument_end(line: &[u8], at: usize) -> bool
    requires { at ≤ length line.now }
    ensures { result ≡ is_stop (drop at line.now) }
{
    let (_, bytes) = line.split_at(at);
    match bytes.first().copied() {
        Some(b) => matches!(b, b' ' | b',' | b')' | b';'),
        None => true,
    }
}

/// Reads the expression at `at`: its tree, and the byte after it.
#[inline(always)]
pub fn expression(
    alloc: Global,
    allows: Allows,
    line: &[u8],
    at: usize,
) -> Result<(Expr, usize), Failure<Fault>>
    requires { at ≤ length line.now }
    ensures { ReadsPart tree_of (IsExprWhere allows) ExprEnds line.now at result }
{
    match read_expr_where(alloc, allows, line, at) {
        Ok(read) => Ok(read),
        Err(Failure::OutOfMemory) => Err(Failure::OutOfMemory),
        Err(Failure::Refused(fault)) => Err(Failure::Refused(fault)),
    }
}

/// Reads the expression after the byte `first`, or nothing if that byte is not here.
#[inline(always)]
pub fn expr_after(
    alloc: Global,
    first: u8,
    allows: Allows,
    line: &[u8],
    at: usize,
) -> Result<(Option<Expr>, usize), Failure<Fault>>
    requires { at ≤ length line.now }
    ensures { ReadsPart (option_map tree_of) (IsAfter first allows) (AfterEnds first) line.now at result }
{
    if !has_byte(line, at, first) {
        return Ok((None, at));
    }
    let (value, next) = expression(alloc, allows, line, at + 1)?;
    Ok((Some(value), next))
}

/// Reads the local or global with its subscripts at `at`: the variable, and the byte after it.
#[inline(always)]
pub(crate) fn variable(
    alloc: Global,
    allows: Allows,
    line: &[u8],
    at: usize,
) -> Result<(Variable, usize), Failure<Fault>>
    requires { at ≤ length line.now }
    ensures { ReadsPart variable_of (IsVariable allows) VariableEnds line.now at result }
{
    let (_, bytes) = line.split_at(at);
    if !has_byte(line, at, b'@') && !starts_reference(bytes) {
        return Err(refusal_at(alloc, Code::ArgumentForm, at));
    }
    match read_ref_where(alloc, allows, line, at) {
        Ok((name, next)) => Ok((
            Variable {
                column: Column::at(at + 1),
                name,
            },
            next,
        )),
        Err(Failure::OutOfMemory) => Err(Failure::OutOfMemory),
        Err(Failure::Refused(fault)) => Err(Failure::Refused(fault)),
    }
}

/// Reads the name at `at`: the name, and the byte after it.
pub(crate) fn name(alloc: Global, line: &[u8], at: usize) -> Result<(Name, usize), Failure<Fault>>
    requires { at ≤ length line.now }
    ensures { ReadsPart (λ n. n) IsNameText LabelEnds line.now at result }
{
    match read_name(alloc, line, at) {
        Ok(read) => Ok(read),
        Err(Failure::OutOfMemory) => Err(Failure::OutOfMemory),
        Err(Failure::Refused(fault)) => Err(other_form(Code::ArgumentForm, fault)),
    }
}
