// Why routines are not a program.

ghost use Rattle.mlk_text.specs.Failures.{IfRefused};
ghost use Rattle.mlk_program.specs.Program.{IsFaultAt};

use mlk_text::{Code, Column, Failure, Fault, LineNumber, Name, Place, Value};
use std::alloc::Global;

/// The refusal of line `line` of `routine`.
pub(crate) fn refusal(
    alloc: Global,
    code: Code,
    routine: &Name,
    line: LineNumber,
    column: Column,
) -> Failure<Fault>
    ensures { IfRefused result (IsFaultAt code routine.now line column) }
{
    let Ok(name) = Vec::from_slice(alloc, routine.as_bytes()) else {
        return Failure::OutOfMemory;
    };
    Failure::Refused(Fault {
        code,
        place: Place {
            routine: Value::new(name),
            line,
            column,
        },
        left_out: None,
    })
}
