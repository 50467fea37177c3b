// The text of a report.

ghost use Rattle.std.specs.Prelude.{◌≡◌, ◌++◌, OnOk, IfOk, map, slice_get, option_copied};
ghost use Rattle.mlk_syntax.specs.Views.{line_of, routine_of};
ghost use Rattle.mlk_program.specs.Entries.{label_of, text_with};
ghost use Rattle.mlk_plain_report.specs.Texts.{entry_text, fault_text, row_line, row_lines, last_line, report_text};

use crate::text::ReportText;
use mlk_program::EntryId;
use mlk_syntax::{Line, Routine};
use mlk_walk::Row;
use std::alloc::{AllocError, Global};

// A routine's line of the first level, counted from 0, as an entry.
fn push_entry_of(text: &mut ReportText, routine: &Routine, line: &Line) -> Result<(), AllocError>
    ensures { OnOk result (text.new ≡ text.old ++ text_with (label_of (line_of line.now).0) routine.now.name) }
{
    if let Some(label) = line.label.as_ref() {
        text.push(label.as_bytes())?;
    }
    text.push(b"^")?;
    text.push(routine.name.as_bytes())
}

fn routine_at(routines: &[Routine], place: usize) -> Option<&Routine>
    ensures { option_copied result ≡ slice_get routines.now place }
{
    routines.get(place)
}

fn line_at(lines: &[Line], place: usize) -> Option<&Line>
    ensures { option_copied result ≡ slice_get lines.now place }
{
    lines.get(place)
}

#[tactic(auto, using(crate::proofs::Printing::entry_none, crate::proofs::Printing::line_none, crate::proofs::Printing::line_some))]
fn push_entry(text: &mut ReportText, routines: &[Routine], entry: EntryId) -> Result<(), AllocError>
    ensures { OnOk result (text.new ≡ text.old ++ entry_text (map routine_of routines.now) entry) }
{
    let Some(routine) = routine_at(routines, entry.routine()) else {
        return Ok(());
    };
    match line_at(routine.lines.as_slice(), entry.line()) {
        None => Ok(()),
        Some(line) => push_entry_of(text, routine, line),
    }
}

fn push_fault(text: &mut ReportText, fault: &mlk_walk_exprs::Fault) -> Result<(), AllocError>
    ensures { OnOk result (text.new ≡ text.old ++ fault_text fault.now) }
{
    text.push(b" ")?;
    text.push_place(fault.line, fault.column)?;
    text.push(b" ")?;
    text.push_code(fault.code)?;
    text.push(b"\n")?;
    Ok(())
}

fn push_row(text: &mut ReportText, routines: &[Routine], row: &Row) -> Result<(), AllocError>
    ensures { OnOk result (text.new ≡ text.old ++ row_line (map routine_of routines.now) row.now) }
{
    push_entry(text, routines, row.entry)?;
    push_fault(text, &row.fault)
}

fn push_rows(text: &mut ReportText, routines: &[Routine], rows: &[Row]) -> Result<(), AllocError>
    ensures { OnOk result (text.new ≡ text.old ++ row_lines (map routine_of routines.now) rows.now) }
{
    for row in rows {
        push_row(text, routines, row)?;
    }
    Ok(())
}

/// Appends the line with the answer: `yes` if there are no `rows`, else `no N`.
pub fn push_answer(text: &mut ReportText, rows: &[Row]) -> Result<(), AllocError>
    ensures { OnOk result (text.new ≡ text.old ++ last_line rows.now) }
{
    if rows.is_empty() {
        text.push(b"yes\n")?;
        return Ok(());
    }
    text.push(b"no ")?;
    text.push_number(rows.len())?;
    text.push(b"\n")?;
    Ok(())
}

/// The text of a report: a line for each row, and `yes` or `no N`.
pub fn report_text(
    alloc: Global,
    routines: &[Routine],
    rows: &mlk_walk::Report,
) -> Result<ReportText, AllocError>
    ensures { IfOk result (λ t. t ≡ report_text (map routine_of routines.now) rows.now) }
{
    let mut text = ReportText::new(alloc);
    push_rows(&mut text, routines, rows.rows())?;
    push_answer(&mut text, rows.rows())?;
    Ok(text)
}
