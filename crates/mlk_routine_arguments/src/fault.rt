// Why a part of a line was refused.

ghost use Rattle.std.specs.Prelude.{◌≡◌, ◌<◌, ◌≤◌, ◌^◌, ℕ, List, length, Some, None, true, false};
ghost use Rattle.mlk_text.specs.declared.code.Code.TheVariants.{ExprLeftOut, CommandLeftOut};
ghost use Rattle.mlk_text.specs.declared.fault.LeftOut.TheVariants.{Command};
ghost use Rattle.mlk_routine_arguments.specs.PartsRead.{IsRefusal};
ghost use Rattle.mlk_text.specs.Codes.{number_of};
ghost use Rattle.mlk_routine_arguments.specs.Faults.{RefusesAt, is_line_code, has_word, IsLineFault, IsFaulty};

use mlk_text::{Code, Column, Failure, Fault, LeftOut, LineNumber, Place, Value};
use std::alloc::Global;

fn fault(alloc: Global, code: Code, left_out: Option<LeftOut>, at: usize) -> Failure<Fault>
    ensures { RefusesAt code left_out at result }
{
    Failure::Refused(Fault {
        code,
        place: Place {
            routine: Value::new(Vec::new(alloc)),
            line: LineNumber::new(1),
            column: Column::at(at.saturating_add(1)),
        },
        left_out,
    })
}

/// The refusal `code` at byte `at` of a line.
#[tactic(auto, using(crate::proofs::LineFaults::made_fault))]
pub fn refusal_at(alloc: Global, code: Code, at: usize) -> Failure<Fault>
    ensures refuses { RefusesAt code None at result }
    ensures fault { (line : List ℕ) → at ≤ length line → is_line_code (number_of code) ≡ true
        → has_word (number_of code) ≡ false → IsFaulty line result }
{
    fault(alloc, code, None, at)
}

/// The refusal of a part of M that is not read.
#[tactic(auto, using(crate::proofs::LineFaults::made_fault))]
pub fn leaves_out(alloc: Global, what: LeftOut, at: usize) -> Failure<Fault>
    ensures refuses { RefusesAt ExprLeftOut (Some what) at result }
    ensures fault { (line : List ℕ) → at ≤ length line → IsFaulty line result }
{
    fault(alloc, Code::ExprLeftOut, Some(what), at)
}

/// Turns `fault` into one of a text that need not begin with an expression: 101 becomes `form`.
pub fn other_form(form: Code, fault: Fault) -> Failure<Fault>
    ensures refusal { IsRefusal result }
    ensures fault { (line : List ℕ) → is_line_code (number_of form) ≡ true → has_word (number_of form) ≡ false
        → IsLineFault line fault → IsFaulty line result }
{
    let Fault {
        code,
        place,
        left_out,
    } = fault;
    let code = match code {
        Code::ExprForm => form,
        known => known,
    };
    Failure::Refused(Fault {
        code,
        place,
        left_out,
    })
}

/// The refusal of a command that is not read, by its full word.
#[tactic(auto, using(crate::proofs::LineFaults::made_fault))]
pub(crate) fn no_command(alloc: Global, word: Value, at: usize) -> Failure<Fault>
    ensures refuses { RefusesAt CommandLeftOut (Some (Command word)) at result }
    ensures fault { (line : List ℕ) → at ≤ length line → IsFaulty line result }
{
    fault(
        alloc,
        Code::CommandLeftOut,
        Some(LeftOut::Command(word)),
        at,
    )
}
