// The formal list of a line.

ghost use Rattle.std.specs.Prelude.{◌≡◌, ◌≤◌, ◌||◌, length, ℕ, List, IfOk, Some, bytes_eq};
ghost use Rattle.mlk_expr.specs.Grammar.{IsNameText};
ghost use Rattle.mlk_expr.specs.Theorem.{LabelEnds};
ghost use Rattle.mlk_routine_arguments.specs.PartsRead.{ReadsPart, byte_at};
ghost use Rattle.mlk_routine_arguments.specs.Faults.{IsLineFault, IsFaulty};
ghost use Rattle.mlk_routine_arguments.specs.Ends.{AnyEnds};
ghost use Rattle.mlk_routine.specs.Lines.{has_name, IsUnseen, IsFormalList};

use crate::seen::SeenNames;
use mlk_expr::read_name;
use mlk_routine_arguments::{has_byte, other_form, refusal_at};
use mlk_text::{Code, Failure, Fault, List, Name};
use std::alloc::Global;

// Why no formal can be read here. What is unsupported elsewhere has a wrong form here.
fn no_formal(alloc: Global, line: &[u8], at: usize, fault: Fault) -> Failure<Fault>
    requires { at ≤ length line.now }
    ensures { IsLineFault line.now fault → IsFaulty line.now result }
{
    if has_byte(line, at, b'@') {
        refusal_at(alloc, Code::LineForm, at)
    } else {
        other_form(Code::LineForm, fault)
    }
}

// Reads a name: the name, and the byte after it.
fn name(alloc: Global, line: &[u8], at: usize) -> Result<(Name, usize), Failure<Fault>>
    requires { at ≤ length line.now }
    ensures { ReadsPart (λ n. n) IsNameText LabelEnds line.now at result }
{
    match read_name(alloc, line, at) {
        Ok(read) => Ok(read),
        Err(Failure::OutOfMemory) => Err(Failure::OutOfMemory),
        Err(Failure::Refused(fault)) => Err(no_formal(alloc, line, at, fault)),
    }
}

// Reads a formal, which must not be in `seen`: the name, and the byte after it.
fn formal<'a>(
    alloc: Global,
    seen: &mut SeenNames<'a>,
    line: &'a [u8],
    at: usize,
) -> Result<(Name, usize), Failure<Fault>>
    requires { at ≤ length line.now }
    ensures read { ReadsPart (λ n. n) (IsUnseen seen.old.texts.keys) LabelEnds line.now at result }
    ensures seen { IfOk result (λ r. (q : List ℕ)
        → has_name q seen.new.texts.keys ≡ (bytes_eq q r.0 || has_name q seen.old.texts.keys)) }
{
    let (name, next) = name(alloc, line, at)?;
    let (_, bytes) = line.split_at(at);
    let (text, _) = bytes.split_at(next - at);
    if !seen.add(text)? {
        return Err(refusal_at(alloc, Code::LineForm, at));
    }
    Ok((name, next))
}

/// Reads the formal list whose parenthesis is at `at`: the formals, and the byte after the list.
pub(crate) fn formals(
    alloc: Global,
    line: &[u8],
    at: usize,
) -> Result<(List<Name>, usize), Failure<Fault>>
    requires within { at ≤ length line.now }
    requires open { byte_at line.now at ≡ Some 40 }
    ensures { ReadsPart (λ n. n) IsFormalList AnyEnds line.now at result }
{
    let mut names = List::new(alloc);
    if has_byte(line, at + 1, b')') {
        return Ok((names, at + 2));
    }
    let mut seen = SeenNames::new(alloc);
    let mut next = at + 1;
    loop {
        let (name, end) = formal(alloc, &mut seen, line, next)?;
        names.push(name)?;
        if has_byte(line, end, b')') {
            return Ok((names, end + 1));
        }
        if !has_byte(line, end, b',') {
            return Err(refusal_at(alloc, Code::LineForm, end));
        }
        next = end + 1;
    }
}
