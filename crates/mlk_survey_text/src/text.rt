// The text of a survey.

use crate::lines::TextLine;
use mlk_report_text::escape_bytes;
use mlk_survey::Facts;
use std::alloc::{AllocError, Global};

// Appends a title with the number of `things`, and a line for each of the first `most` of them.
fn push_list<T: TextLine>(
    text: &mut String,
    alloc: Global,
    title: &str,
    things: &[T],
    most: usize,
) -> Result<(), AllocError> {
    text.push_str(&format!(in alloc; "{} {}\n", title, things.len())?)?;
    let (first, others) = things.split_at(things.len().min(most));
    for thing in first {
        let line = escape_bytes(alloc, thing.line(alloc)?.as_slice())?;
        text.push_str(&format!(in alloc; "  {}\n", line)?)?;
    }
    if !others.is_empty() {
        text.push_str(&format!(in alloc; "  and {} more\n", others.len())?)?;
    }
    Ok(())
}

// `push_list`, if there are things.
fn push_list_if_any<T: TextLine>(
    text: &mut String,
    alloc: Global,
    title: &str,
    things: &[T],
    most: usize,
) -> Result<(), AllocError> {
    if things.is_empty() {
        return Ok(());
    }
    push_list(text, alloc, title, things, most)
}

/// The text of a survey: a title for each list with its length, and below it a line for each of its first `most` items. Refusals
/// are first, hazards last. The lists of further lines and of calls that do not fit are included only if they have items.
pub fn survey_text(alloc: Global, facts: &Facts<'_>, most: usize) -> Result<String, AllocError> {
    let mut text = format!(in alloc; "routines read {}\n", facts.read)?;
    push_list(&mut text, alloc, "routines refused", &facts.refused, most)?;
    push_list(&mut text, alloc, "reasons", &facts.refusal_counts, most)?;
    push_list_if_any(
        &mut text,
        alloc,
        "further lines refused",
        &facts.further,
        most,
    )?;
    push_list(
        &mut text,
        alloc,
        "calls of what is not given",
        &facts.found.missing,
        most,
    )?;
    push_list_if_any(
        &mut text,
        alloc,
        "calls that do not fit",
        &facts.found.misfits,
        most,
    )?;
    push_list(&mut text, alloc, "entries", &facts.found.entries, most)?;
    push_list(&mut text, alloc, "globals", &facts.found.globals, most)?;
    push_list(&mut text, alloc, "locks", &facts.found.locks, most)?;
    push_list(
        &mut text,
        alloc,
        "claims under a claim",
        &facts.found.orders,
        most,
    )?;
    push_list(&mut text, alloc, "hazards", &facts.found.hazards, most)?;
    Ok(text)
}
