// The start of a line: blanks, and periods with blanks after each.

ghost use Rattle.std.specs.Prelude.{◌≡◌, ◌≤◌, length, drop, false};
ghost use Rattle.mlk_routine_arguments.specs.PartsRead.{ReadsPart, Found};
ghost use Rattle.mlk_routine_arguments.specs.Ends.{starts};
ghost use Rattle.mlk_routine.specs.RoutineGrammar.{is_blank};
ghost use Rattle.mlk_routine.specs.Lines.{ArePeriodsHere, PeriodsEnd, IsOpening, OpeningEnds};

use crate::blank::past_blanks;
use mlk_routine_arguments::{has_byte, is_commands_end, refusal_at};
use mlk_text::{Code, Failure, Fault};
use std::alloc::Global;

// Counts the periods here, if no blank precedes them: their number, and the byte after them and the blanks after each.
fn periods(line: &[u8], at: usize) -> (usize, usize)
    requires within { at ≤ length line.now }
    requires none { starts is_blank (drop at line.now) ≡ false }
    ensures found { Found ArePeriodsHere PeriodsEnd line.now at result.0 result.1 }
    ensures few { result.0 ≤ result.1 }
{
    let mut count = 0;
    let mut next = at;
    while has_byte(line, next, b'.') {
        count += 1;
        next = past_blanks(line, next + 1);
    }
    (count, next)
}

/// Reads the start of a line: its level, and the byte after it. A start may be missing only before the line's end or a
/// comment.
pub(crate) fn opening(
    alloc: Global,
    line: &[u8],
    at: usize,
) -> Result<(Option<usize>, usize), Failure<Fault>>
    requires { at ≤ length line.now }
    ensures { ReadsPart (λ o. o) IsOpening OpeningEnds line.now at result }
{
    let next = past_blanks(line, at);
    if next > at {
        let (count, next) = periods(line, next);
        return Ok((Some(count + 1), next));
    }
    if !is_commands_end(line, at) {
        return Err(refusal_at(alloc, Code::LineForm, at));
    }
    Ok((None, at))
}
