// The lines of an explanation: a line of M with a caret below the column, and the lines below it.

use crate::place::FaultPlace;
use mlk_excerpts::{Excerpt, margin_of, push_excerpt, push_labelled};
use mlk_report_text::Piece::{Bytes, Words};
use mlk_report_text::push_all;
use mlk_text::LineNumber;
use std::alloc::AllocError;

/// Appends a line below a line of M: its margin, `= LABEL: `, and `said`.
pub fn push_line<'a>(
    text: &mut Vec<u8>,
    line: LineNumber,
    label: &'a str,
    said: &'a [u8],
) -> Result<(), AllocError> {
    push_labelled(text, margin_of(line), label, said)
}

/// Appends a line of M with its number, and below it a caret at the column and `said`.
pub fn push_source(
    text: &mut Vec<u8>,
    place: &FaultPlace<'_>,
    said: &[u8],
) -> Result<(), AllocError> {
    let excerpt = Excerpt {
        number: place.fault.line,
        line: place.line,
        column: place.fault.column,
    };
    push_excerpt(text, &excerpt)?;
    push_all(text, &[Bytes(said), Words("\n")])
}
