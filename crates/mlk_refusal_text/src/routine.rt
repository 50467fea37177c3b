// Why a routine, or the linking of routines, is refused.

use crate::exchange::is_like_rules;
use crate::explanation::{Explanation, GivenFile, Spot};
use crate::left_out::{left_out_help, left_out_text};
use mlk_code_pages::page_of;
use mlk_excerpts::{TextLines, token_at};
use mlk_report_text::Piece::Words;
use mlk_report_text::text_of;
use mlk_text::{Code, Fault};
use std::alloc::{AllocError, Global};

const EXCHANGED: &str =
    "this looks like a rule file; the rule file comes first: mlock verify RULES ROUTINE..";

// The token at the place of the fault.
fn token_of<'a>(
    alloc: Global,
    file: &GivenFile<'a>,
    fault: &Fault,
) -> Result<&'a [u8], AllocError> {
    let lines = TextLines::of(alloc, file.text)?;
    match lines.line(fault.place.line) {
        Some(line) => Ok(token_at(line, fault.place.column)),
        None => Ok(b"this"),
    }
}

// What is wrong.
fn what_of(alloc: Global, file: &GivenFile<'_>, fault: &Fault) -> Result<Vec<u8>, AllocError> {
    match &fault.left_out {
        Some(left_out) => left_out_text(alloc, left_out, token_of(alloc, file, fault)?),
        None => text_of(alloc, &[Words(page_of(fault.code).meaning)]),
    }
}

// What corrects it.
fn help_of(fault: &Fault) -> &'static str {
    match &fault.left_out {
        Some(left_out) => left_out_help(left_out),
        None => page_of(fault.code).hint,
    }
}

// The place of a fault; `None` for a file whose name is refused.
fn spot_of(fault: &Fault) -> Option<Spot> {
    if fault.code == Code::RoutineName {
        return None;
    }
    Some(Spot {
        line: fault.place.line,
        column: Some(fault.place.column),
    })
}

/// Explains why the routine in `file` is refused, with a `note` if there is one. A file that looks like rules has a note of its own.
pub fn routine_help(
    alloc: Global,
    file: &GivenFile<'_>,
    fault: &Fault,
    note: Option<&'static str>,
) -> Result<Vec<u8>, AllocError> {
    let note = if is_like_rules(file.path, file.text) {
        Some(EXCHANGED)
    } else {
        note
    };
    let it = Explanation {
        code: fault.code,
        file: Some(*file),
        spot: spot_of(fault),
        what: what_of(alloc, file, fault)?,
        help: help_of(fault),
        note,
    };
    it.text(alloc)
}
