// The arguments of a command with the space before them: a list after one space, or none.

ghost use Rattle.std.specs.Prelude.{◌≡◌, ◌≤◌, length, map, drop, true};
ghost use Rattle.mlk_routine_arguments.specs.PartsRead.{ReadsPart};
ghost use Rattle.mlk_routine_arguments.specs.Ends.{is_commands_end, is_command_end, is_bare_end, StopEnds};
ghost use Rattle.mlk_routine_arguments.specs.CommandWords.{has_any};
ghost use Rattle.mlk_routine_arguments.specs.Kinds.{IsSpaced};
ghost use Rattle.mlk_routine_arguments.specs.CommandGrammar.{AreSome, ArePerhaps};

use crate::fault::refusal_at;
use crate::item::{Item, item_list};
use crate::part::has_byte;
use mlk_dialect::Dialect;
use mlk_text::{Code, Failure, Fault};
use std::alloc::Global;

/// Whether the commands of a line end here: at its end, or before a comment.
pub fn is_commands_end(line: &[u8], at: usize) -> bool
    requires { at ≤ length line.now }
    ensures { result ≡ is_commands_end (drop at line.now) }
{
    let (_, bytes) = line.split_at(at);
    match bytes.first().copied() {
        Some(b) => b == b';',
        None => true,
    }
}

/// Whether a command may end here: before a space, or where the commands end.
pub fn is_command_end(line: &[u8], at: usize) -> bool
    requires { at ≤ length line.now }
    ensures { result ≡ is_command_end (drop at line.now) }
{
    let (_, bytes) = line.split_at(at);
    match bytes.first().copied() {
        Some(b) => b == b' ' || b == b';',
        None => true,
    }
}

/// Whether there are no arguments here: after at most one space, the command ends.
pub fn is_bare(line: &[u8], at: usize) -> bool
    requires { at ≤ length line.now }
    ensures { result ≡ is_bare_end (drop at line.now) }
{
    if has_byte(line, at, b' ') {
        is_command_end(line, at + 1)
    } else {
        is_commands_end(line, at)
    }
}

/// The byte after the one space that precedes arguments.
pub fn first_argument(alloc: Global, line: &[u8], at: usize) -> Result<usize, Failure<Fault>>
    requires { at ≤ length line.now }
    ensures { IsSpaced line.now at result }
{
    if !has_byte(line, at, b' ') {
        return Err(refusal_at(alloc, Code::Spacing, at));
    }
    if has_byte(line, at + 1, b' ') {
        return Err(refusal_at(alloc, Code::Spacing, at + 1));
    }
    Ok(at + 1)
}

/// Reads a list of arguments after one space: the arguments, and the byte after them.
#[inline(always)]
pub fn required_arguments<T: Item>(
    alloc: Global,
    dialect: Dialect,
    line: &[u8],
    at: usize,
) -> Result<(Vec<T>, usize), Failure<Fault>>
    requires { at ≤ length line.now }
    ensures { ReadsPart (λ v. map T.seen v.items) (AreSome (T.is dialect)) (λ items. StopEnds true) line.now at result }
{
    let first = first_argument(alloc, line, at)?;
    let (items, next) = item_list(alloc, dialect, line, first)?;
    if !is_command_end(line, next) {
        return Err(refusal_at(alloc, Code::Spacing, next));
    }
    Ok((items, next))
}

/// Reads a list of arguments after one space, or none: the arguments, and the byte after them.
#[inline(always)]
pub fn optional_arguments<T: Item>(
    alloc: Global,
    dialect: Dialect,
    line: &[u8],
    at: usize,
) -> Result<(Vec<T>, usize), Failure<Fault>>
    requires { at ≤ length line.now }
    ensures { ReadsPart (λ v. map T.seen v.items) (ArePerhaps (T.is dialect)) (λ items. StopEnds (has_any items)) line.now at result }
{
    if is_bare(line, at) {
        return Ok((Vec::new(alloc), at));
    }
    required_arguments(alloc, dialect, line, at)
}
