// Lines of rows, and the place of each before it.

ghost use Rattle.std.specs.Prelude.{◌≡◌, ◌++◌, IfOk, OnOk, map};
ghost use Rattle.mlk_syntax.specs.Views.{routine_of};
ghost use Rattle.mlk_plain_report.specs.Texts.{entry_text, row_line, row_lines};
ghost use Rattle.mlk_forms.specs.Rendering.{ArePlaced, IsPlace};

use mlk_output::ReportSources;
use mlk_plain_report::ReportText;
use mlk_program::{EntryId, Program};
use mlk_report_text::Piece::{At, Bytes, CodeName, Words};
use mlk_report_text::text_of;
use mlk_walk::Row;
use std::alloc::{AllocError, Global};

// `LABEL^ROUTINE`
fn entry_text(alloc: Global, program: &Program<'_>, entry: EntryId) -> Result<Vec<u8>, AllocError>
    ensures { IfOk result (λ text. text.items ≡ entry_text (map routine_of program.now) entry) }
{
    match program.text_of(alloc, entry)? {
        Some(text) => Ok(text),
        None => Ok(Vec::new(alloc)),
    }
}

// `LABEL^ROUTINE line:column CODE NAME`
fn push_row(
    alloc: Global,
    text: &mut ReportText,
    program: &Program<'_>,
    row: &Row,
) -> Result<(), AllocError>
    ensures { OnOk result (text.new ≡ text.old ++ row_line (map routine_of program.now) row.now) }
{
    let entry = entry_text(alloc, program, row.entry)?;
    let fault = &row.fault;
    let line = text_of(
        alloc,
        &[
            Bytes(entry.as_slice()),
            Words(" "),
            At(fault.line, fault.column),
            Words(" "),
            CodeName(fault.code),
            Words("\n"),
        ],
    )?;
    text.push(line.as_slice())
}

/// Appends a line for each row.
pub(crate) fn push_rows(
    alloc: Global,
    text: &mut ReportText,
    program: &Program<'_>,
    rows: &[Row],
) -> Result<(), AllocError>
    ensures { OnOk result (text.new ≡ text.old ++ row_lines (map routine_of program.now) rows.now) }
{
    for row in rows {
        push_row(alloc, text, program, row)?;
    }
    Ok(())
}

// `PATH:line:column: `
fn place_text(alloc: Global, path: &str, row: &Row) -> Result<Vec<u8>, AllocError>
    ensures { IfOk result (λ text. IsPlace row.now text.items) }
{
    let fault = &row.fault;
    text_of(
        alloc,
        &[
            Words(path),
            Words(":"),
            At(fault.line, fault.column),
            Words(": "),
        ],
    )
}

/// Appends a line for each row, after its place.
pub(crate) fn push_placed_rows(
    alloc: Global,
    text: &mut ReportText,
    program: &Program<'_>,
    inputs: &ReportSources<'_>,
    rows: &[Row],
) -> Result<(), AllocError>
    ensures { OnOk result (ArePlaced (map routine_of program.now) rows.now text.old text.new) }
{
    for row in rows {
        let place = place_text(alloc, inputs.path(row.entry), row)?;
        text.push(place.as_slice())?;
        push_row(alloc, text, program, row)?;
    }
    Ok(())
}
