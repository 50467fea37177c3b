// FOR's variable and its parameters.

ghost use Rattle.std.specs.Prelude.{◌≡◌, ◌≤◌, length, Some, true, false};
ghost use Rattle.mlk_syntax.specs.ExprTrees.{tree_of};
ghost use Rattle.mlk_routine_arguments.specs.PartsRead.{ReadsPart, byte_at};
ghost use Rattle.mlk_routine_arguments.specs.Ends.{ParameterEnds, ControlEnds};
ghost use Rattle.mlk_syntax.specs.Views.{parameter_of, control_of};
ghost use Rattle.mlk_routine_arguments.specs.CommandGrammar.{IsParameter, IsControl};

use crate::fault::{leaves_out, refusal_at};
use crate::item::item_list;
use crate::part::{expr_after, expression, has_byte, name};
use mlk_dialect::Dialect;
use mlk_expr::Allows;
use mlk_syntax::{Control, Parameter};
use mlk_text::{Code, Column, Failure, Fault, LeftOut};
use std::alloc::Global;

/// Reads a parameter of FOR: the parameter, and the byte after it.
pub(crate) fn parameter(
    alloc: Global,
    line: &[u8],
    at: usize,
) -> Result<(Parameter, usize), Failure<Fault>>
    requires { at ≤ length line.now }
    ensures { ReadsPart parameter_of IsParameter ParameterEnds line.now at result }
{
    let (start, next) = expression(alloc, Allows::Everything, line, at)?;
    let (step, next) = expr_after(alloc, b':', Allows::Everything, line, next)?;
    let Some(step) = step else {
        return Ok((Parameter::Once(start), next));
    };
    let (limit, next) = expr_after(alloc, b':', Allows::Everything, line, next)?;
    match limit {
        Some(limit) => Ok((Parameter::Limited(start, step, limit), next)),
        None => Ok((Parameter::Endless(start, step), next)),
    }
}

/// Reads FOR's variable and its parameters: both, and the byte after them. A variable with subscripts is refused as not read.
pub fn control(
    alloc: Global,
    dialect: Dialect,
    line: &[u8],
    at: usize,
) -> Result<(Control, usize), Failure<Fault>>
    requires { at ≤ length line.now }
    ensures { ReadsPart control_of IsControl ControlEnds line.now at result }
{
    let (variable, next) = name(alloc, line, at)?;
    if has_byte(line, next, b'(') {
        return Err(leaves_out(alloc, LeftOut::ForVariable, at));
    }
    if !has_byte(line, next, b'=') {
        return Err(refusal_at(alloc, Code::ArgumentForm, next));
    }
    let (parameters, next) = item_list(alloc, dialect, line, next + 1)?;
    let column = Column::at(at + 1);
    Ok((
        Control {
            column,
            variable,
            parameters,
        },
        next,
    ))
}
