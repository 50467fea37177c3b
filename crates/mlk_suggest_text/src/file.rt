// The rule file of a suggestion.

use crate::element::InSection;
use crate::lists::push_list;
use crate::view::View;
use mlk_report_text::Piece::{Made, Number, Words};
use mlk_report_text::{escape_bytes, push_all};
use std::alloc::AllocError;

/// The maximum number of elements of a section of a rule file.
const MOST_ELEMENTS: usize = 1024;

// Appends an element of a section with its remark.
fn push_element<T: InSection>(
    text: &mut Vec<u8>,
    view: &View<'_>,
    before: &str,
    thing: &T,
) -> Result<(), AllocError> {
    let element = thing.element(view)?;
    let remark = thing.remark(view)?;
    let remark = escape_bytes(view.alloc, remark.as_slice())?;
    push_all(text, &[Words(before)])?;
    push_all(
        text,
        &[
            Made(element),
            Words(", # "),
            Words(remark.as_str()),
            Words("\n"),
        ],
    )
}

// Appends a section with its elements; those past the maximum of a rule file are comments.
fn push_section<T: InSection>(
    text: &mut Vec<u8>,
    view: &View<'_>,
    head: &str,
    things: &[T],
) -> Result<(), AllocError> {
    if things.is_empty() {
        return Ok(());
    }
    push_all(text, &[Words(head), Words("\n")])?;
    let (first, others) = things.split_at(things.len().min(MOST_ELEMENTS));
    for thing in first {
        push_element(text, view, "  ", thing)?;
    }
    if !others.is_empty() {
        let count = Number(others.len());
        push_all(
            text,
            &[
                Words("  # past the limit of a rule file: "),
                count,
                Words("\n"),
            ],
        )?;
    }
    for thing in others {
        push_element(text, view, "  # ", thing)?;
    }
    push_all(text, &[Words("]\n")])
}

// Appends what the file is, and what was read for it.
fn push_head(text: &mut Vec<u8>, view: &View<'_>) -> Result<(), AllocError> {
    let routines = Number(view.read.routines.len());
    push_all(
        text,
        &[
            Words(
                "# Rules suggested from what the routines do. Nothing proves that they are what your team agreed on: read each\n",
            ),
            Words("# line, and correct it if the routines don't do what they should.\n"),
            Words("# routines read "),
            routines,
            Words("\n"),
        ],
    )?;
    push_list(
        text,
        view,
        "routines that can't be read at all:",
        &view.read.unread,
    )?;
    push_list(
        text,
        view,
        "lines cut before what can't be read:",
        &view.read.cuts,
    )?;
    push_all(text, &[Words("\n")])
}

// Appends the sections.
fn push_sections(text: &mut Vec<u8>, view: &View<'_>) -> Result<(), AllocError> {
    let guess = view.guess;
    push_section(
        text,
        view,
        "lock = [ # lower ranks first; beside each at how many places it is claimed, and what is claimed while it is held",
        &guess.families,
    )?;
    push_section(
        text,
        view,
        "cover = [ # the lock that is held at most writes",
        &guess.covers,
    )?;
    push_section(text, view, "private = [", &guess.private)?;
    push_section(text, view, "readonly = [", &guess.readonly)?;
    push_section(
        text,
        view,
        "entry = [ # where JOB begins, and what nobody calls; add what menus and schedules start",
        &guess.entries,
    )
}

// Appends the globals that are not decided, and the places that do not follow the rules.
fn push_lists(text: &mut Vec<u8>, view: &View<'_>) -> Result<(), AllocError> {
    let guess = view.guess;
    push_list(
        text,
        view,
        "NOT DECIDED (`verify` reports each place as 701):",
        &guess.undecided,
    )?;
    push_list(
        text,
        view,
        "SUSPICIOUS (most other places hold the lock):",
        &guess.suspects,
    )?;
    push_list(text, view, "AGAINST THE ORDER:", &guess.against)?;
    push_list(
        text,
        view,
        "releases of locks that aren't held:",
        &guess.releases,
    )?;
    push_list(
        text,
        view,
        "labels that other routines call with nothing held, so jobs may begin there too:",
        &guess.free,
    )?;
    push_list(
        text,
        view,
        "labels that nobody calls and that only quit, so they are left out:",
        &guess.bare,
    )
}

/// The text of the suggestion in `view`: a rule file with comments.
pub(crate) fn suggestion_text(view: &View<'_>) -> Result<Vec<u8>, AllocError> {
    let mut text = Vec::new(view.alloc);
    push_head(&mut text, view)?;
    push_sections(&mut text, view)?;
    push_lists(&mut text, view)?;
    Ok(text)
}
