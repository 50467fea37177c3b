// The lines of routines, one after another.

use crate::command::in_commands;
use crate::mention::{Mention, MentionAt};
use mlk_syntax::{Line, Routine};
use mlk_text::push_sparing;
use std::alloc::{AllocError, Global};

// The mentions in a line, without its block.
fn line_mentions<'a>(alloc: Global, line: &'a Line) -> Result<Vec<Mention<'a>>, AllocError> {
    let mut found = Vec::new(alloc);
    if line.label.is_some() {
        push_sparing(&mut found, Mention::Begin)?;
    }
    in_commands(&mut found, &line.commands)?;
    Ok(found)
}

// Adds the mentions in a line, without its block.
fn add_line<'a>(
    alloc: Global,
    found: &mut Vec<MentionAt<'a>>,
    routine: &'a [u8],
    line: &'a Line,
) -> Result<(), AllocError> {
    for mention in line_mentions(alloc, line)? {
        let at = MentionAt {
            routine,
            line: line.number,
            mention,
        };
        push_sparing(found, at)?;
    }
    Ok(())
}

// Adds the mentions in lines, each with its block.
fn add_lines<'a>(
    alloc: Global,
    found: &mut Vec<MentionAt<'a>>,
    routine: &'a [u8],
    lines: &'a [Line],
) -> Result<(), AllocError> {
    for line in lines {
        add_line(alloc, found, routine, line)?;
        add_lines(alloc, found, routine, line.block.as_slice())?;
    }
    Ok(())
}

// Adds the begin of a routine, and the mentions in its lines.
fn add_routine<'a>(
    alloc: Global,
    found: &mut Vec<MentionAt<'a>>,
    routine: &'a Routine,
) -> Result<(), AllocError> {
    let name = routine.name.as_bytes();
    let Some(first) = routine.lines.first() else {
        return Ok(());
    };
    let begin = MentionAt {
        routine: name,
        line: first.number,
        mention: Mention::Begin,
    };
    push_sparing(found, begin)?;
    add_lines(alloc, found, name, routine.lines.as_slice())
}

/// The mentions in a line of the routine with this name, and in its block.
pub fn mentions_in<'a>(
    alloc: Global,
    routine: &'a [u8],
    line: &'a Line,
) -> Result<Vec<MentionAt<'a>>, AllocError> {
    let mut found = Vec::new(alloc);
    add_line(alloc, &mut found, routine, line)?;
    add_lines(alloc, &mut found, routine, line.block.as_slice())?;
    Ok(found)
}

/// The mentions in `routines`, in the order of their lines.
pub fn mentions_of<'a>(
    alloc: Global,
    routines: &[&'a Routine],
) -> Result<Vec<MentionAt<'a>>, AllocError> {
    let mut found = Vec::new(alloc);
    for routine in routines {
        add_routine(alloc, &mut found, routine)?;
    }
    Ok(found)
}
