// Why a part of a line was refused, as callers see it.

ghost use Rattle.std.specs.Prelude.{◌≡◌, ◌≤◌, length, true, is_some, ◌==◌};
ghost use Rattle.mlk_text.specs.Codes.{number_of};
ghost use Rattle.mlk_text.specs.Failures.{IsLike};
ghost use Rattle.mlk_expr.specs.Theorem.{is_expression_code, Faults};

use crate::context::Passing;
use crate::refusal::{Offence, Wrong};
use mlk_text::{Code, Column, Failure, Fault, LeftOut, LineNumber, Place, Value};
use std::alloc::Global;

// The code for `wrong`, and the part of M that is not read. A name by reference is refused as such only if `passing` forbids
// it.
fn code_of(passing: Passing, wrong: Wrong) -> (Code, Option<LeftOut>)
    ensures coded { is_expression_code passing (number_of result.0) ≡ true }
    ensures worded { is_some result.1 ≡ (number_of result.0 == 102) }
{
    match wrong {
        Wrong::Form => (Code::ExprForm, None),
        Wrong::LeftOut(what) => (Code::ExprLeftOut, Some(what)),
        Wrong::Deep => (Code::ExprDeep, None),
        Wrong::NameLong => (Code::NameLong, None),
        Wrong::Lent if passing.is_by_reference() => (Code::ExprForm, None),
        Wrong::Lent => (Code::ArgumentForm, None),
    }
}

/// Gives a refusal its place in `line`, at byte `at` or after it.
pub(crate) fn locate(
    alloc: Global,
    passing: Passing,
    line: &[u8],
    at: usize,
    refusal: Failure<Offence>,
) -> Failure<Fault>
    requires { at ≤ length line.now }
    ensures alike { IsLike refusal result }
    ensures placed { Faults passing line.now at result }
{
    let offence = match refusal {
        Failure::OutOfMemory => return Failure::OutOfMemory,
        Failure::Refused(offence) => offence,
    };
    let before = line.len().saturating_sub(offence.left).max(at);
    let (code, left_out) = code_of(passing, offence.wrong);
    Failure::Refused(Fault {
        code,
        place: Place {
            routine: Value::new(Vec::new(alloc)),
            line: LineNumber::new(1),
            column: Column::at(before + 1),
        },
        left_out,
    })
}
