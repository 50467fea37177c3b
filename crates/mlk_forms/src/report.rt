// Reports in the form that is asked for.

ghost use Rattle.std.specs.Prelude.{◌≡◌, ◌++◌, IfOk, map};
ghost use Rattle.mlk_syntax.specs.Views.{routine_of};
ghost use Rattle.mlk_output.specs.Documents.{known_in};
ghost use Rattle.mlk_forms.specs.Rendering.{IsExplained, IsJson, IsPlacedText, IsSarif, IsReportIn, IsReportAs, IsRendered};
ghost use Rattle.mlk_forms.specs.Rendering.{answer_line, answered_text, warning_lines, passes};

use crate::answer::{lines_below, push_verdict};
use crate::coverage::push_coverage;
use crate::notice::with_end;
use crate::row::{push_placed_rows, push_rows};
use crate::shown::{Shown, printed_rows};
use crate::warning::{Warnings, push_warnings, reported_gaps, reported_hazards};
use mlk_baseline::Comparison;
use mlk_cli::{Output, ReportStyle};
use mlk_coverage::Coverage;
use mlk_explain::{
    ExplainedFaults, Grounds, Story, explained_rows, explained_rows_at, notes_below, stories_at,
    stories_of,
};
use mlk_output::{Findings, ReportSources, known_in, report_json, report_sarif};
use mlk_plain_report::ReportText;
use mlk_program::Program;
use mlk_walk::{Report, Row};
use std::alloc::{AllocError, Global};

/// A report as it is printed.
#[derive(Drop)]
pub struct PrintedReport {
    pub text: ReportText,
    /// whether there is no fault but known ones, and no hazard and no gap if these are reported
    pub passes: bool,
}

/// What explains a report.
#[derive(Clone, Copy, Drop)]
pub struct Explanations<'a> {
    pub grounds: &'a Grounds<'a>,
    /// in the form that the style of the report asks for
    pub behind: &'a ExplainedFaults,
    /// how much the report is about, if that is reported
    pub coverage: Option<&'a Coverage<'a>>,
    /// which faults are known, if they are compared with known ones
    pub comparison: Option<&'a Comparison<'a>>,
    /// on how many words it rests that are read as any value; `None` if such words are not read
    pub rests: Option<usize>,
}

// The text of a report, with a line for each hazard and gap below it.
fn plain_text(
    alloc: Global,
    program: &Program<'_>,
    shown: &Shown<'_>,
    warnings: &Warnings<'_>,
) -> Result<ReportText, AllocError>
    ensures { IfOk result (λ text.
        text ≡ answered_text (map routine_of program.now) shown.now.rows.now shown.now.known shown.now.below.now
        ++ warning_lines warnings.now.hazards.now warnings.now.gaps.now) }
{
    let mut text = ReportText::new(alloc);
    push_rows(alloc, &mut text, program, shown.rows)?;
    push_verdict(&mut text, shown.rows, shown.known)?;
    text.push(shown.below)?;
    push_warnings(alloc, &mut text, warnings)?;
    Ok(text)
}

// The same text, with its place before each fault.
fn placed_text(
    alloc: Global,
    program: &Program<'_>,
    inputs: &ReportSources<'_>,
    shown: &Shown<'_>,
    warnings: &Warnings<'_>,
) -> Result<ReportText, AllocError>
    ensures { IfOk result
        (IsPlacedText (map routine_of program.now) shown.now.rows.now shown.now.known shown.now.below.now
        warnings.now.hazards.now warnings.now.gaps.now) }
{
    let mut text = ReportText::new(alloc);
    push_placed_rows(alloc, &mut text, program, inputs, shown.rows)?;
    push_verdict(&mut text, shown.rows, shown.known)?;
    text.push(shown.below)?;
    push_warnings(alloc, &mut text, warnings)?;
    Ok(text)
}

// The answer alone.
fn quiet_text(alloc: Global, shown: &Shown<'_>) -> Result<ReportText, AllocError>
    ensures { IfOk result (λ text. text ≡ answer_line shown.now.known shown.now.rows.now) }
{
    let mut text = ReportText::new(alloc);
    push_verdict(&mut text, shown.rows, shown.known)?;
    Ok(text)
}

// The printed faults with what explains them; nothing is looked up if there is none.
fn explained_faults(
    alloc: Global,
    explanations: &Explanations<'_>,
    shown: &Shown<'_>,
) -> Result<Vec<u8>, AllocError> {
    if shown.rows.is_empty() {
        return Ok(Vec::new(alloc));
    }
    let (grounds, report) = (explanations.grounds, shown.report);
    match explanations.comparison {
        Some(comparison) => explained_rows_at(alloc, grounds, report, comparison.news.as_slice()),
        None => explained_rows(alloc, grounds, report),
    }
}

// What is known of each printed fault.
fn stories_in(
    alloc: Global,
    explanations: &Explanations<'_>,
    shown: &Shown<'_>,
) -> Result<Vec<Option<Story>>, AllocError> {
    if shown.rows.is_empty() {
        return Ok(Vec::new(alloc));
    }
    let (grounds, report) = (explanations.grounds, shown.report);
    match explanations.comparison {
        Some(comparison) => stories_at(alloc, grounds, report, comparison.news.as_slice()),
        None => stories_of(alloc, grounds, report),
    }
}

// The text of explained faults, with the answer, `notes` and a line for each hazard and gap below it.
fn text_below(
    alloc: Global,
    faults: Vec<u8>,
    notes: &[u8],
    shown: &Shown<'_>,
    warnings: &Warnings<'_>,
) -> Result<ReportText, AllocError>
    ensures { IfOk result (λ text.
        text ≡ ((faults.items ++ answer_line shown.now.known shown.now.rows.now) ++ notes.now)
        ++ warning_lines warnings.now.hazards.now warnings.now.gaps.now) }
{
    let mut text = ReportText::of(faults);
    push_verdict(&mut text, shown.rows, shown.known)?;
    text.push(notes)?;
    push_warnings(alloc, &mut text, warnings)?;
    Ok(text)
}

// The notes below the answer: its lines, what is behind the faults, and how much the report is about.
fn notes_of(
    alloc: Global,
    explanations: &Explanations<'_>,
    shown: &Shown<'_>,
) -> Result<Vec<u8>, AllocError> {
    let grounds = explanations.grounds;
    let mut notes = Vec::from_slice(alloc, shown.below)?;
    let behind = notes_below(alloc, grounds, shown.report, explanations.behind)?;
    notes.extend_from_slice(behind.as_slice())?;
    if let Some(coverage) = explanations.coverage {
        push_coverage(alloc, &mut notes, coverage, grounds.rule_text)?;
    }
    Ok(notes)
}

// The text with explanations.
fn explained_text(
    alloc: Global,
    explanations: &Explanations<'_>,
    shown: &Shown<'_>,
    warnings: &Warnings<'_>,
) -> Result<ReportText, AllocError>
    ensures { IfOk result (IsExplained shown.now.rows.now shown.now.known warnings.now.hazards.now warnings.now.gaps.now) }
{
    let faults = explained_faults(alloc, explanations, shown)?;
    let notes = notes_of(alloc, explanations, shown)?;
    let below = notes.as_slice();
    let text = text_below(alloc, faults, below, shown, warnings)?;
    Ok(text)
}

// The printed faults, each with what is known of it, those behind them, hazards and gaps, and how much the report is about.
fn findings_of<'a>(
    alloc: Global,
    explanations: &Explanations<'a>,
    shown: &Shown<'a>,
    warnings: &Warnings<'a>,
    style: ReportStyle,
) -> Result<Findings<'a>, AllocError>
    ensures { IfOk result (λ findings. (findings.rows.now ≡ shown.now.rows.now)
        × (findings.comparison ≡ explanations.now.comparison) × (findings.hazards.now ≡ warnings.now.hazards.now)
        × (findings.gaps.now ≡ warnings.now.gaps.now)) }
{
    let stories = stories_in(alloc, explanations, shown)?;
    Ok(Findings {
        rows: shown.rows,
        comparison: explanations.comparison,
        stories,
        behind: explanations.behind,
        coverage: explanations.coverage,
        rests: explanations.rests,
        hazards: warnings.hazards,
        gaps: warnings.gaps,
        is_strict: style.is_strict,
        exits_zero: style.exits_zero,
    })
}

fn json_text(
    alloc: Global,
    inputs: &ReportSources<'_>,
    findings: &Findings<'_>,
) -> Result<ReportText, AllocError>
    ensures { IfOk result (IsJson findings.now.rows.now (known_in findings.now.comparison)) }
{
    let text = report_json(alloc, inputs, findings)?;
    with_end(text)
}

fn sarif_text(
    alloc: Global,
    inputs: &ReportSources<'_>,
    findings: &Findings<'_>,
) -> Result<ReportText, AllocError>
    ensures { IfOk result (IsSarif findings.now.rows.now findings.now.hazards.now findings.now.gaps.now) }
{
    let text = report_sarif(alloc, inputs, findings)?;
    with_end(text)
}

// The text in the form that is asked for, with these warnings.
fn text_in(
    alloc: Global,
    inputs: &ReportSources<'_>,
    shown: &Shown<'_>,
    style: ReportStyle,
    warnings: &Warnings<'_>,
    explanations: &Explanations<'_>,
) -> Result<ReportText, AllocError>
    requires { shown.now.known ≡ known_in explanations.now.comparison }
    ensures { IfOk result
        (IsReportIn style.output
        (map routine_of explanations.now.grounds.now.program.now) shown.now.rows.now shown.now.known shown.now.below.now
        warnings.now.hazards.now warnings.now.gaps.now) }
{
    let program = explanations.grounds.program;
    match style.output {
        Output::Text => plain_text(alloc, program, shown, warnings),
        Output::Lines => placed_text(alloc, program, inputs, shown, warnings),
        Output::Json => {
            let findings = findings_of(alloc, explanations, shown, warnings, style)?;
            json_text(alloc, inputs, &findings)
        }
        Output::Sarif => {
            let findings = findings_of(alloc, explanations, shown, warnings, style)?;
            sarif_text(alloc, inputs, &findings)
        }
    }
}

// The text in the style that is asked for.
fn styled_text(
    alloc: Global,
    inputs: &ReportSources<'_>,
    shown: &Shown<'_>,
    style: ReportStyle,
    warnings: &Warnings<'_>,
    explanations: &Explanations<'_>,
) -> Result<ReportText, AllocError>
    requires { shown.now.known ≡ known_in explanations.now.comparison }
    ensures { IfOk result
        (IsReportAs style (map routine_of explanations.now.grounds.now.program.now) shown.now.rows.now shown.now.known shown.now.below.now
        warnings.now.hazards.now warnings.now.gaps.now) }
{
    if style.is_quiet {
        return quiet_text(alloc, shown);
    }
    if style.is_explained {
        return explained_text(alloc, explanations, shown, warnings);
    }
    text_in(alloc, inputs, shown, style, warnings, explanations)
}

fn passes(rows: &[Row], warnings: &Warnings<'_>) -> bool
    ensures { result ≡ passes rows.now warnings.now.hazards.now warnings.now.gaps.now }
{
    rows.is_empty() && warnings.hazards.is_empty() && warnings.gaps.is_empty()
}

/// Writes `report` in the `style` that is asked for, and says whether it passes. `explanations` explain it, if that is asked for. If
/// its faults are compared with known ones, those that are not known are its faults, and it passes if there are none.
pub fn render_report(
    alloc: Global,
    inputs: &ReportSources<'_>,
    report: &Report,
    style: ReportStyle,
    explanations: &Explanations<'_>,
) -> Result<PrintedReport, AllocError>
    ensures { IfOk result (λ printed.
        IsRendered style explanations.now.rests explanations.now.comparison
        (map routine_of explanations.now.grounds.now.program.now) report.now printed.text printed.passes) }
{
    let hazards = reported_hazards(alloc, explanations.grounds, style.is_strict)?;
    let gaps = reported_gaps(alloc, explanations.coverage, style.is_strict)?;
    let reported = hazards.as_slice();
    let found = gaps.as_slice();
    let warnings = Warnings {
        hazards: reported,
        gaps: found,
    };
    let rows = printed_rows(alloc, report, explanations.comparison)?;
    let printed = rows.as_slice();
    let lines = lines_below(alloc, explanations.comparison, printed, explanations.rests)?;
    let below = lines.as_slice();
    let known = known_in(explanations.comparison);
    let shown = Shown::new(report, printed, known, below);
    let text = styled_text(alloc, inputs, &shown, style, &warnings, explanations)?;
    let passes = passes(printed, &warnings);
    Ok(PrintedReport { text, passes })
}
