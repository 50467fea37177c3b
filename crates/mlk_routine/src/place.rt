// Why a routine was refused, and where.

ghost use Rattle.std.specs.Prelude.{◌≡◌};
ghost use Rattle.mlk_text.specs.Failures.{IfRefused};
ghost use Rattle.mlk_routine_arguments.specs.PartsRead.{IsRefusal};
ghost use Rattle.mlk_routine_arguments.specs.Faults.{IsLineFault, IsFaulty};
ghost use Rattle.mlk_routine.specs.Refusals.{IsOfWhole};

use mlk_text::{Code, Column, Failure, Fault, LeftOut, LineNumber, Place, Value};
use std::alloc::Global;

// Whether `b` is allowed outside of comments and quoted texts.
fn is_plain(b: u8) -> bool {
    32 <= b && b <= 126
}

// Whether `code` refuses a line for its place among the others, whatever its first column contains.
fn is_above(code: Code) -> bool {
    matches!(
        code,
        Code::LabelTwice | Code::LevelJump | Code::BlockUnreached | Code::TooLarge
    )
}

// Whether the byte in `column` is not allowed there.
fn has_wrong_byte(text: &[u8], column: Column) -> bool {
    let place = column.number() as usize;
    if place == 0 || place > text.len() {
        return false;
    }
    !is_plain(text[place - 1])
}

// A refusal at a place of a routine.
fn refusal_at(
    alloc: Global,
    routine: &[u8],
    number: LineNumber,
    column: Column,
    code: Code,
    left_out: Option<LeftOut>,
) -> Failure<Fault>
    ensures { IfRefused result (λ f. (f.code ≡ code) × (f.left_out ≡ left_out) × (f.place.routine ≡ routine.now)
        × (f.place.line ≡ number) × (f.place.column ≡ column)) }
{
    let Ok(bytes) = Vec::from_slice(alloc, routine) else {
        return Failure::OutOfMemory;
    };
    Failure::Refused(Fault {
        code,
        place: Place {
            routine: Value::new(bytes),
            line: number,
            column,
        },
        left_out,
    })
}

/// Gives the refusal of a line its place in the routine. A byte that is not allowed is always refused as that.
pub(crate) fn in_line(
    alloc: Global,
    routine: &[u8],
    number: LineNumber,
    text: &[u8],
    failure: Failure<Fault>,
) -> Failure<Fault>
    requires { IsFaulty text.now failure }
    ensures same { IsRefusal result → IsRefusal failure }
    ensures place { IfRefused result (λ f. (f.place.routine ≡ routine.now) × (f.place.line ≡ number)
        × IsLineFault text.now f) }
{
    let Failure::Refused(fault) = failure else {
        return Failure::OutOfMemory;
    };
    let Fault {
        code,
        place,
        left_out,
    } = fault;
    let column = place.column;
    if !is_above(code) && has_wrong_byte(text, column) {
        return refusal_at(alloc, routine, number, column, Code::Byte, None);
    }
    refusal_at(alloc, routine, number, column, code, left_out)
}

/// The refusal of a whole routine.
pub(crate) fn routine_refusal(alloc: Global, code: Code, routine: &[u8]) -> Failure<Fault>
    ensures { IfRefused result (IsOfWhole code routine.now) }
{
    refusal_at(
        alloc,
        routine,
        LineNumber::new(1),
        Column::new(1),
        code,
        None,
    )
}
