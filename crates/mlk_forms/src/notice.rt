// Refusals in the form that is asked for.

ghost use Rattle.std.specs.Prelude.{◌≡◌, ◌++◌, IfOk, string_bytes};
ghost use Rattle.mlk_plain_report.specs.Texts.{line_end};
ghost use Rattle.mlk_forms.specs.Rendering.{IsNoticed};

use mlk_cli::Output;
use mlk_explain::ExplainedFaults;
use mlk_output::{Notice, ReportSources, given_up_json, given_up_sarif, notice_json, notice_sarif};
use mlk_plain_report::ReportText;
use std::alloc::{AllocError, Global};

/// Writes what is printed of a refusal beside the line on the error stream: nothing if text is asked for.
pub fn render_notice(
    alloc: Global,
    notice: &Notice<'_>,
    output: Output,
) -> Result<Option<ReportText>, AllocError>
    ensures { IfOk result (IsNoticed output) }
{
    match output {
        Output::Text | Output::Lines => Ok(None),
        Output::Json => Ok(Some(with_end(notice_json(alloc, notice)?)?)),
        Output::Sarif => Ok(Some(with_end(notice_sarif(alloc, notice)?)?)),
    }
}

/// The same of the refusal of a program for which no certificate can be made, with the `faults` that are found all the same.
pub fn render_given_up(
    alloc: Global,
    notice: &Notice<'_>,
    inputs: &ReportSources<'_>,
    faults: &ExplainedFaults,
    output: Output,
) -> Result<Option<ReportText>, AllocError>
    ensures { IfOk result (IsNoticed output) }
{
    match output {
        Output::Text | Output::Lines => Ok(None),
        Output::Json => Ok(Some(with_end(given_up_json(alloc, notice, inputs, faults)?)?)),
        Output::Sarif => Ok(Some(with_end(given_up_sarif(alloc, notice, inputs, faults)?)?)),
    }
}

/// A text of lines, with an end after the last.
pub(crate) fn with_end(text: String) -> Result<ReportText, AllocError>
    ensures { IfOk result (λ ended. ended ≡ string_bytes text ++ line_end) }
{
    let mut bytes = text.into_bytes();
    bytes.push(b'\n')?;
    Ok(ReportText::of(bytes))
}
