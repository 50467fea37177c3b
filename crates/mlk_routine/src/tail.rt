// The part of a line after its start.

ghost use Rattle.std.specs.Prelude.{◌≡◌, ◌≤◌, length, drop, true, OnOk, OnErr, IfErr};
ghost use Rattle.mlk_routine_arguments.specs.Faults.{IsFaulty};
ghost use Rattle.mlk_routine_arguments.specs.Ends.{is_commands_end};
ghost use Rattle.mlk_routine.specs.RoutineGrammar.{IsComment};
ghost use Rattle.mlk_syntax.specs.Views.{commands_of};
ghost use Rattle.mlk_routine.specs.Lines.{OpeningEnds, IsTailOf, ReadsToEnd};

use crate::commands::{Inside, commands};
use mlk_dialect::Dialect;
use mlk_routine_arguments::{refusal_at, text_bytes};
use mlk_syntax::Commands;
use mlk_text::{Code, Failure, Fault};
use std::alloc::Global;

// Checks the comment that begins here, if there is one; refused at a byte that is not allowed in comments.
fn comment(alloc: Global, line: &[u8], at: usize) -> Result<(), Failure<Fault>>
    requires within { at ≤ length line.now }
    requires end { is_commands_end (drop at line.now) ≡ true }
    ensures ok { OnOk result (IsComment (drop at line.now)) }
    ensures refused { OnErr result (IsComment (drop at line.now) → ⊥) }
    ensures fault { IfErr result (IsFaulty line.now) }
{
    let (_, bytes) = line.split_at(at);
    let good = text_bytes(bytes);
    if good < bytes.len() {
        return Err(refusal_at(alloc, Code::Byte, at + good));
    }
    Ok(())
}

/// Reads the commands of a line of `level` from `at` on, and its comment.
pub(crate) fn tail(
    alloc: Global,
    dialect: Dialect,
    level: Option<usize>,
    line: &[u8],
    at: usize,
) -> Result<Commands, Failure<Fault>>
    requires within { at ≤ length line.now }
    requires begun { OpeningEnds level (drop at line.now) }
    ensures { ReadsToEnd commands_of (IsTailOf dialect level) line.now at result }
{
    let inside = Inside {
        dialect,
        level: level.unwrap_or(1),
        loops: 0,
    };
    let (commands, next) = commands(alloc, inside, line, at)?;
    comment(alloc, line, next)?;
    Ok(commands)
}
