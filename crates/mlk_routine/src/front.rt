// The part of a line before its commands.

ghost use Rattle.std.specs.Prelude.{◌≡◌, ◌≤◌, length};
ghost use Rattle.mlk_routine_arguments.specs.PartsRead.{ReadsPart, Found};
ghost use Rattle.mlk_routine.specs.Lines.{IsLabelPart, LabelPartEnds, IsFormalsPart, FormalsPartEnds};
ghost use Rattle.mlk_routine.specs.Lines.{IsFront, FrontEnds};

use crate::formals::formals;
use crate::start::opening;
use mlk_routine_arguments::has_byte;
use mlk_text::{Failure, Fault, List, Name};
use std::alloc::Global;

/// The part of a line before its commands.
#[derive(Drop)]
pub(crate) struct Front {
    pub(crate) label: Option<Name>,
    pub(crate) formals: Option<List<Name>>,
    /// the level of the line's start, or `None` if it has none
    pub(crate) level: Option<usize>,
}

// Reads the formal list, if there is one: the formals, and the byte after it.
fn optional_formals(
    alloc: Global,
    is_labelled: bool,
    line: &[u8],
    at: usize,
) -> Result<(Option<List<Name>>, usize), Failure<Fault>>
    requires { at ≤ length line.now }
    ensures { ReadsPart (λ f. f) (IsFormalsPart is_labelled) (FormalsPartEnds is_labelled) line.now at result }
{
    if !is_labelled || !has_byte(line, at, b'(') {
        return Ok((None, at));
    }
    let (names, next) = formals(alloc, line, at)?;
    Ok((Some(names), next))
}

/// Reads the rest of the part before a line's commands, after `label`.
pub(crate) fn before_commands(
    alloc: Global,
    label: Option<Name>,
    line: &[u8],
    at: usize,
) -> Result<(Front, usize), Failure<Fault>>
    requires { Found IsLabelPart LabelPartEnds line.now 0 label at }
    ensures { ReadsPart (λ f. f) IsFront FrontEnds line.now 0 result }
{
    let (formals, next) = optional_formals(alloc, label.is_some(), line, at)?;
    let (level, next) = opening(alloc, line, next)?;
    Ok((
        Front {
            label,
            formals,
            level,
        },
        next,
    ))
}
