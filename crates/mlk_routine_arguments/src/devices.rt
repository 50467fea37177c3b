// The arguments of READ and WRITE.

ghost use Rattle.std.specs.Prelude.{◌≡◌, ◌≤◌, length, drop, option_map, Some, true};
ghost use Rattle.mlk_syntax.specs.ExprTrees.{tree_of};
ghost use Rattle.mlk_routine_arguments.specs.PartsRead.{ReadsPart, byte_at};
ghost use Rattle.mlk_routine_arguments.specs.Ends.{starts_format, IsPrompt, PromptEnds, FormatEnds, VariableEnds};
ghost use Rattle.mlk_routine_arguments.specs.Ends.{ReadEnds, WriteEnds};
ghost use Rattle.mlk_syntax.specs.Views.{variable_of, read_of, write_of};
ghost use Rattle.mlk_routine_arguments.specs.CommandGrammar.{IsFormat, IsLocal, IsRead, IsWrite, after_local, after_most};

use crate::fault::{leaves_out, refusal_at};
use crate::part::{expr_after, expression, has_byte, variable};
use crate::quiet::{in_timeout, is_quiet, is_quiet_value};
use crate::run::{past_marks, text_bytes};
use mlk_dialect::Dialect;
use mlk_expr::Allows;
use mlk_syntax::{Expr, ReadArgument, Variable, WriteArgument};
use mlk_text::literal::quoted_value;
use mlk_text::{Code, Failure, Fault, LeftOut, Value};
use std::alloc::Global;

/// Reads the quoted text whose opening quote is at `at`: its value, and the byte after it.
fn prompt(alloc: Global, line: &[u8], at: usize) -> Result<(Value, usize), Failure<Fault>>
    requires { byte_at line.now at ≡ Some 34 }
    ensures { ReadsPart (λ value. value) IsPrompt PromptEnds line.now at result }
{
    let (_, inside) = line.split_at(at + 1);
    match quoted_value(alloc, inside) {
        Ok((value, rest)) => Ok((value, line.len() - rest.len())),
        Err(Failure::OutOfMemory) => Err(Failure::OutOfMemory),
        Err(Failure::Refused(_)) => {
            let plain = text_bytes(inside);
            Err(refusal_at(alloc, Code::ExprForm, at + 1 + plain))
        }
    }
}

/// Whether a format begins here.
fn starts_format(line: &[u8], at: usize) -> bool
    requires { at ≤ length line.now }
    ensures { result ≡ starts_format (drop at line.now) }
{
    let (_, bytes) = line.split_at(at);
    match bytes.first().copied() {
        Some(b) => matches!(b, b'!' | b'#' | b'?'),
        None => false,
    }
}

/// Reads a format: the expression of its column, if it has one, and the byte after it.
fn format(alloc: Global, line: &[u8], at: usize) -> Result<(Option<Expr>, usize), Failure<Fault>>
    requires within { at ≤ length line.now }
    requires starts { starts_format (drop at line.now) ≡ true }
    ensures { ReadsPart (option_map tree_of) IsFormat FormatEnds line.now at result }
{
    let next = past_marks(line, at);
    expr_after(alloc, b'?', Allows::Everything, line, next)
}

/// Reads an argument of WRITE: the argument, and the byte after it.
pub(crate) fn write_argument(
    alloc: Global,
    line: &[u8],
    at: usize,
) -> Result<(WriteArgument, usize), Failure<Fault>>
    requires { at ≤ length line.now }
    ensures { ReadsPart write_of IsWrite WriteEnds line.now at result }
{
    if starts_format(line, at) {
        let (tab, next) = format(alloc, line, at)?;
        return Ok((WriteArgument::Format(tab), next));
    }
    if has_byte(line, at, b'*') {
        let (value, next) = expression(alloc, Allows::Everything, line, at + 1)?;
        return Ok((WriteArgument::Character(value), next));
    }
    let (value, next) = expression(alloc, Allows::Everything, line, at)?;
    Ok((WriteArgument::Value(value), next))
}

/// Reads a local with its subscripts: the variable, and the byte after it. A global is refused as not read.
fn local(alloc: Global, line: &[u8], at: usize) -> Result<(Variable, usize), Failure<Fault>>
    requires { at ≤ length line.now }
    ensures { ReadsPart variable_of IsLocal VariableEnds line.now at result }
{
    if has_byte(line, at, b'^') {
        return Err(leaves_out(alloc, LeftOut::GlobalRead, at));
    }
    variable(alloc, Allows::Everything, line, at)
}

// What is allowed in the timeout of this local.
fn after_local(dialect: Dialect, local: &Variable) -> Allows
    ensures { result ≡ after_local dialect (variable_of local.now) }
{
    match dialect {
        Dialect::Standard => Allows::NoCalls,
        Dialect::Extended => in_timeout(is_quiet(local)),
    }
}

// What is allowed in the timeout of this local, of which so many characters are read at most.
fn after_most(dialect: Dialect, local: &Variable, most: &Option<Expr>) -> Allows
    ensures { result ≡ after_most dialect (variable_of local.now) (option_map tree_of most.now) }
{
    match dialect {
        Dialect::Standard => Allows::NoCalls,
        Dialect::Extended => in_timeout(is_quiet(local) && is_quiet_value(most)),
    }
}

/// Reads an argument of READ: the argument, and the byte after it.
pub(crate) fn read_argument(
    alloc: Global,
    dialect: Dialect,
    line: &[u8],
    at: usize,
) -> Result<(ReadArgument, usize), Failure<Fault>>
    requires { at ≤ length line.now }
    ensures { ReadsPart read_of (IsRead dialect) ReadEnds line.now at result }
{
    if has_byte(line, at, b'"') {
        let (prompt, next) = prompt(alloc, line, at)?;
        return Ok((ReadArgument::Text(prompt), next));
    }
    if starts_format(line, at) {
        let (tab, next) = format(alloc, line, at)?;
        return Ok((ReadArgument::Format(tab), next));
    }
    if has_byte(line, at, b'*') {
        let (variable, next) = local(alloc, line, at + 1)?;
        let allows = after_local(dialect, &variable);
        let (timeout, next) = expr_after(alloc, b':', allows, line, next)?;
        return Ok((ReadArgument::Character(variable, timeout), next));
    }
    let (variable, next) = local(alloc, line, at)?;
    let (most, next) = expr_after(alloc, b'#', Allows::Everything, line, next)?;
    let allows = after_most(dialect, &variable, &most);
    let (timeout, next) = expr_after(alloc, b':', allows, line, next)?;
    Ok((ReadArgument::Line(variable, most, timeout), next))
}
