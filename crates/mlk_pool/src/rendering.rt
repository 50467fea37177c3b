// The text of a report, written.

ghost use Rattle.std.specs.Prelude.{OnOk, map};
ghost use Rattle.std.specs.Io.KnownBytes.{Appends};
ghost use Rattle.mlk_syntax.specs.Views.{routine_of};
ghost use Rattle.mlk_plain_report.specs.Texts.{report_text};

use crate::verification::ProgramReport;
use mlk_plain_report::{ReportText, report_text};
use mlk_text::Failure;
use std::alloc::Global;
use std::io::{self, Write};

/// Writes the text of a report, or answers the writer's fault. What is written without a fault is that text and nothing
/// else.
pub fn render<W: Write>(
    alloc: Global,
    report: &ProgramReport,
    writer: &mut W,
) -> Result<(), Failure<io::Error>>
    ensures { OnOk result (Appends (W.contents writer.old) (W.contents writer.new)
        (report_text (map routine_of report.now.routines.items) report.now.rows)) }
{
    let text = report_text(alloc, report.routines.as_slice(), &report.rows)?;
    match write_text(&text, writer) {
        Ok(()) => Ok(()),
        Err(error) => Err(Failure::Refused(error)),
    }
}

fn write_text<W: Write>(text: &ReportText, writer: &mut W) -> io::Result<()>
    ensures { OnOk result (Appends (W.contents writer.old) (W.contents writer.new) text.now) }
{
    writer.write_all(text.as_bytes())?;
    writer.flush()
}
