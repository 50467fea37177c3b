// The arguments of KILL, NEW and MERGE.

ghost use Rattle.std.specs.Prelude.{◌≡◌, ◌≤◌, length, Some, true, false};
ghost use Rattle.mlk_routine_arguments.specs.PartsRead.{ReadsPart, byte_at};
ghost use Rattle.mlk_routine_arguments.specs.Ends.{KillEnds, MergeEnds, NewEnds};
ghost use Rattle.mlk_syntax.specs.Views.{kill_of, merge_of, new_of};
ghost use Rattle.mlk_routine_arguments.specs.CommandGrammar.{IsKill, IsMerge, IsNew};

use crate::fault::{leaves_out, refusal_at};
use crate::item::enclosed_items;
use crate::part::{has_byte, name, variable};
use mlk_dialect::Dialect;
use mlk_expr::Allows;
use mlk_syntax::{KillArgument, MergeArgument, NewArgument};
use mlk_text::lexeme::word_at;
use mlk_text::{Code, Column, Failure, Fault, LeftOut, List};
use std::alloc::Global;

/// Reads an argument of KILL: the argument, and the byte after it.
pub(crate) fn kill(
    alloc: Global,
    dialect: Dialect,
    line: &[u8],
    at: usize,
) -> Result<(KillArgument, usize), Failure<Fault>>
    requires { at ≤ length line.now }
    ensures { ReadsPart kill_of IsKill KillEnds line.now at result }
{
    if has_byte(line, at, b'(') {
        let (names, next) = enclosed_items(alloc, dialect, line, at)?;
        return Ok((KillArgument::AllBut(List::from(names)), next));
    }
    let (one, next) = variable(alloc, Allows::Everything, line, at)?;
    Ok((KillArgument::One(one), next))
}

/// Reads an argument of MERGE: the argument, and the byte after it.
pub(crate) fn merge(
    alloc: Global,
    line: &[u8],
    at: usize,
) -> Result<(MergeArgument, usize), Failure<Fault>>
    requires { at ≤ length line.now }
    ensures { ReadsPart merge_of IsMerge MergeEnds line.now at result }
{
    let (target, next) = variable(alloc, Allows::NoCalls, line, at)?;
    if !has_byte(line, next, b'=') {
        return Err(refusal_at(alloc, Code::ArgumentForm, next));
    }
    let (source, next) = variable(alloc, Allows::NoCalls, line, next + 1)?;
    Ok((MergeArgument { target, source }, next))
}

// Whether there is a special variable here: a word after `$`, without a parenthesis.
fn is_special(line: &[u8], at: usize) -> bool
    requires { at ≤ length line.now }
    ensures { result ≡ true → byte_at line.now at ≡ Some 36 }
{
    if !has_byte(line, at, b'$') {
        return false;
    }
    let (_, after) = line.split_at(at + 1);
    let (word, rest) = word_at(after);
    !word.is_empty() && !has_byte(rest, 0, b'(')
}

/// Reads an argument of NEW: the argument, and the byte after it. A special variable is refused as not read.
pub(crate) fn new(
    alloc: Global,
    dialect: Dialect,
    line: &[u8],
    at: usize,
) -> Result<(NewArgument, usize), Failure<Fault>>
    requires { at ≤ length line.now }
    ensures { ReadsPart new_of IsNew NewEnds line.now at result }
{
    if has_byte(line, at, b'(') {
        let (names, next) = enclosed_items(alloc, dialect, line, at)?;
        return Ok((NewArgument::AllBut(List::from(names)), next));
    }
    if is_special(line, at) {
        return Err(leaves_out(alloc, LeftOut::Special, at));
    }
    let (one, next) = name(alloc, line, at)?;
    Ok((NewArgument::One(Column::at(at + 1), one), next))
}
