// The lines of a text, as a flat list.

ghost use Rattle.std.specs.Prelude.{◌≤◌, map, length, IfOk, IfErr};
ghost use Rattle.mlk_text.specs.Failures.{IfRefused};
ghost use Rattle.mlk_routine_arguments.specs.PartsRead.{IsRefusal};
ghost use Rattle.mlk_routine.specs.Lines.{head_of, AreHeadsOnly, NoHeads, texts_of};
ghost use Rattle.mlk_routine.specs.Refusals.{IsOfLine};

use crate::line::{Before, line};
use crate::place::in_line;
use mlk_dialect::Dialect;
use mlk_syntax::Line;
use mlk_text::{Failure, Fault, LineNumber};
use std::alloc::Global;
use std::collections::VecDeque;

/// Reads the lines of a routine, each without its block.
pub(crate) fn lines(
    alloc: Global,
    dialect: Dialect,
    routine: &[u8],
    texts: &[&[u8]],
) -> Result<VecDeque<Line>, Failure<Fault>>
    requires { length texts.now ≤ 65535 }
    ensures found { IfOk result (λ v. AreHeadsOnly dialect (texts_of texts.now) (map head_of v.items)) }
    ensures refused { IfErr result (NoHeads dialect (texts_of texts.now)) }
    ensures place { IfErr result (λ e. IfRefused e (IsOfLine routine.now (texts_of texts.now))) }
{
    let mut before = Before::new(alloc);
    let mut lines = VecDeque::with_capacity(alloc, texts.len())?;
    for (i, text) in texts.iter().enumerate() {
        let number = LineNumber::new((i + 1) as u32);
        match line(alloc, dialect, &mut before, number, text) {
            Ok(read) => lines.push_back(read)?,
            Err(failure) => return Err(in_line(alloc, routine, number, text, failure)),
        }
    }
    Ok(lines)
}
