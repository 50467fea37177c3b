// The text of a report with explanations.

use crate::faults::{ExplainedAs, ExplainedFaults, all_numbers};
use crate::story::Story;
use mlk_explain_origins::Grounds;
use mlk_report_text::Piece::{Bytes, Number, Words};
use mlk_report_text::push_all;
use mlk_walk::Report;
use std::alloc::{AllocError, Global};

const HIDDEN_FAULTS: &str =
    "note: one fault often hides others behind it on its path; verify again when these are mended\n";

// Appends the faults that are found behind those of a report.
fn push_behind(text: &mut Vec<u8>, behind: &ExplainedFaults) -> Result<(), AllocError> {
    if behind.rows().is_empty() {
        return Ok(());
    }
    let count = Number(behind.rows().len());
    push_all(
        text,
        &[
            Words("note: if these were mended, the check would find "),
            count,
            Words(" more, not counted above:\n"),
            Bytes(behind.text()),
        ],
    )
}

/// The notes below the answer to a report: the faults behind its own; and if `verify` made the certificate, that it is run again
/// once these are mended, since there may be more.
pub fn notes_below(
    alloc: Global,
    grounds: &Grounds<'_>,
    report: &Report,
    behind: &ExplainedFaults,
) -> Result<Vec<u8>, AllocError> {
    let mut text = Vec::new(alloc);
    push_behind(&mut text, behind)?;
    if grounds.is_made && !report.rows().is_empty() {
        text.extend_from_slice(HIDDEN_FAULTS.as_bytes())?;
    }
    Ok(text)
}

/// The story of each row of a report, in their order: what its explanation says, in pieces.
pub fn stories_of(
    alloc: Global,
    grounds: &Grounds<'_>,
    report: &Report,
) -> Result<Vec<Option<Story>>, AllocError> {
    let numbers = all_numbers(alloc, report)?;
    stories_at(alloc, grounds, report, numbers.as_slice())
}

/// The stories of the rows with these numbers.
pub fn stories_at(
    alloc: Global,
    grounds: &Grounds<'_>,
    report: &Report,
    numbers: &[usize],
) -> Result<Vec<Option<Story>>, AllocError> {
    let form = ExplainedAs::Stories;
    let faults = ExplainedFaults::of(alloc, form, grounds, report, numbers)?;
    Ok(faults.into_stories())
}

/// The text of the rows of a report, with an explanation below each: the line of M with a caret below the column, and what was
/// about to happen there; what was held, and `$TEST` where it was known; the rules that apply; and what mends the fault. Faults
/// of one line that one change mends are explained once.
///
/// Where a call is refused for what the callee asks of its callers, the place in the callee that asks for it is shown too, with
/// the calls on the way; it comes first in a declared entry, which has no caller to ask.
///
/// A line of M is shown as it is, up to a few hundred bytes round the column; before the caret a tab is a tab, and a character
/// of several bytes is one column wide.
pub fn explained_rows(
    alloc: Global,
    grounds: &Grounds<'_>,
    report: &Report,
) -> Result<Vec<u8>, AllocError> {
    let numbers = all_numbers(alloc, report)?;
    explained_rows_at(alloc, grounds, report, numbers.as_slice())
}

/// The text of the rows with these numbers, with an explanation below each.
pub fn explained_rows_at(
    alloc: Global,
    grounds: &Grounds<'_>,
    report: &Report,
    numbers: &[usize],
) -> Result<Vec<u8>, AllocError> {
    let form = ExplainedAs::Text;
    let faults = ExplainedFaults::of(alloc, form, grounds, report, numbers)?;
    Ok(faults.into_text())
}
