// The reader of routines.

ghost use Rattle.std.specs.Prelude.{◌≡◌, IfOk, IfErr, map};
ghost use Rattle.bstr.specs.Text.{lines_of, without_terminator};
ghost use Rattle.mlk_syntax.specs.Trees.{RoutineTree};
ghost use Rattle.mlk_syntax.specs.Views.{routine_of};
ghost use Rattle.mlk_routine.specs.RoutineGrammar.{IsRoutine};
ghost use Rattle.mlk_routine.specs.Lines.{texts_of};
ghost use Rattle.mlk_routine.specs.Refusals.{NoRoutine, Places};

use crate::blocks::block;
use crate::lines::lines;
use crate::place::routine_refusal;
use crate::stem::stem_name;
use bstr::ByteSlice;
use mlk_dialect::Dialect;
use mlk_syntax::Routine;
use mlk_text::{Code, Failure, Fault};
use std::alloc::{AllocError, Global};

const MOST_BYTES: usize = 1048576;

const MOST_LINES: usize = 65535;

// The lines of `text`, without their terminators.
fn split_lines(alloc: Global, text: &[u8]) -> Result<Vec<&[u8]>, AllocError>
    ensures { IfOk result (λ v. texts_of v.items ≡ map without_terminator (lines_of text.now)) }
{
    text.lines().collect(alloc)
}

/// Reads the routine of `text` in `dialect`, whose file has the stem `stem`.
pub fn read_routine(
    alloc: Global,
    dialect: Dialect,
    stem: &[u8],
    text: &[u8],
) -> Result<Routine, Failure<Fault>>
    // The tree that is read is spelled by the stem and the text.
    ensures found { IfOk result (λ r. IsRoutine dialect stem.now (routine_of r) text.now) }
    // No other tree is.
    ensures only { IfOk result (λ r. (tree : RoutineTree) → IsRoutine dialect stem.now tree text.now → tree ≡ routine_of r) }
    // If the text is refused, unless memory ran out, it is not a routine.
    ensures refused { IfErr result (NoRoutine dialect stem.now text.now) }
    // The refusal is of the stem, of a limit of the text, or of a line, with a code and a place that fit.
    ensures place { IfErr result (Places stem.now text.now) }
{
    let Some(name) = stem_name(alloc, stem)? else {
        return Err(routine_refusal(alloc, Code::RoutineName, stem));
    };
    if text.len() > MOST_BYTES {
        return Err(routine_refusal(alloc, Code::TooLarge, name.as_bytes()));
    }
    let texts = split_lines(alloc, text)?;
    if texts.len() > MOST_LINES {
        return Err(routine_refusal(alloc, Code::TooLarge, name.as_bytes()));
    }
    let mut left = lines(alloc, dialect, name.as_bytes(), &texts)?;
    let lines = block(alloc, 0, &mut left)?;
    Ok(Routine { name, lines })
}
