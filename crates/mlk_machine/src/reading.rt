// The reader of files of events.

ghost use Rattle.std.specs.Prelude.{◌≡◌, IfOk, IfErr, map};
ghost use Rattle.mlk_text.specs.Failures.{Reads};
ghost use Rattle.mlk_syntax.specs.Views.{routine_of};
ghost use Rattle.mlk_machine.specs.Files.{SaysEvents, IsRefusedAt};
ghost use Rattle.mlk_machine.specs.InstructionViews.{asked_of, asked_at};

use crate::fault::{EventsFault, EventsRefusal};
use crate::instruction::{Instruction, instruction_of};
use crate::line::read_line;
use mlk_program::Program;
use mlk_text::{Failure, LineNumber, NotThere};
use std::alloc::Global;

// Reads the line at the front: its instruction, and the rest after the line's end.
#[tactic(auto, using(crate::proofs::FileLemmas::asks, crate::proofs::FileLemmas::asks_nothing, crate::proofs::FileLemmas::no_line))]
fn line<'b>(
    alloc: Global,
    program: &Program,
    bytes: &'b [u8],
) -> Result<(Instruction, &'b [u8]), Failure<NotThere>>
    ensures { Reads (λ x. (asked_of x.0, x.1.now)) result (asked_at (map routine_of program.now) bytes.now) }
{
    let (order, rest) = read_line(alloc, bytes)?;
    let Some(asked) = instruction_of(program, order) else {
        return Err(Failure::Refused(NotThere));
    };
    Ok((asked, rest))
}

/// Reads the instructions of a file. The error is the first line that is not one.
pub(crate) fn read_events(
    alloc: Global,
    program: &Program,
    bytes: &[u8],
) -> Result<Vec<Instruction>, Failure<EventsFault>>
    ensures read { IfOk result (λ found. SaysEvents (map routine_of program.now) bytes.now (map asked_of found.items)) }
    ensures refused { IfErr result (λ e. IsRefusedAt (map routine_of program.now) bytes.now e) }
{
    let mut found = Vec::new(alloc);
    let mut rest = bytes;
    let mut number: u32 = 1;
    while !rest.is_empty() {
        match line(alloc, program, rest) {
            Ok((asked, after)) => {
                found.push(asked)?;
                rest = after;
                number = number.saturating_add(1);
            }
            Err(Failure::OutOfMemory) => return Err(Failure::OutOfMemory),
            Err(Failure::Refused(_)) => {
                let line = LineNumber::new(number);
                let why = EventsRefusal::Form;
                return Err(Failure::Refused(EventsFault { line, why }));
            }
        }
    }
    Ok(found)
}
