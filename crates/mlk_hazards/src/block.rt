// Blocks that end directly before a line with a formal list.

use crate::hazard::{Hazard, HazardAt};
use mlk_survey_trees::Position;
use mlk_syntax::{Line, Routine};
use mlk_text::push_sparing;
use std::alloc::AllocError;

// The last line of a line's block, at any level; the line itself, if it has none.
fn last_line(head: &Line) -> &Line {
    match head.block.last() {
        None => head,
        Some(last) => last_line(last),
    }
}

// Adds the hazard of a line and the next one, if there is one.
fn add_block<'a>(
    hazards: &mut Vec<HazardAt<'a>>,
    routine: &'a [u8],
    head: &Line,
    next: &Line,
) -> Result<(), AllocError> {
    if head.block.is_empty() || !next.formals.is_some() {
        return Ok(());
    }
    let last = last_line(head);
    let position = Position {
        routine,
        line: last.number,
        column: last.end,
    };
    push_sparing(
        hazards,
        HazardAt {
            position,
            hazard: Hazard::BlockBeforeFormals,
        },
    )
}

/// Adds the blocks of a routine that end directly before a line with a formal list.
pub(crate) fn add_blocks<'a>(
    hazards: &mut Vec<HazardAt<'a>>,
    routine: &'a Routine,
) -> Result<(), AllocError> {
    let name = routine.name.as_bytes();
    let mut left = routine.lines.as_slice();
    while let Some((head, rest)) = left.split_first() {
        if let Some(next) = rest.first() {
            add_block(hazards, name, head, next)?;
        }
        left = rest;
    }
    Ok(())
}
