// What is reported besides faults: hazards, and gaps.

ghost use Rattle.std.specs.Prelude.{◌≡◌, ◌++◌, IfOk, OnOk};
ghost use Rattle.mlk_forms.specs.Rendering.{AreGaps, AreReported, gap_line, gap_lines, gap_place, hazard_line, hazard_lines, warning_lines};

use mlk_coverage::{Coverage, Gap, GapPlace, gaps_of};
use mlk_explain::Grounds;
use mlk_hazards::{Hazard, HazardAt, hazards_of};
use mlk_plain_report::ReportText;
use mlk_report_text::Piece::{At, Bytes, Made, Number, Words};
use mlk_report_text::text_of;
use mlk_stale::stale_writes;
use mlk_survey_trees::Position;
use mlk_text::{Column, push_sparing};
use std::alloc::{AllocError, Global};

/// What is reported besides faults.
#[derive(Clone, Copy, Drop)]
pub(crate) struct Warnings<'a> {
    pub(crate) hazards: &'a [HazardAt<'a>],
    pub(crate) gaps: &'a [Gap<'a>],
}

// Adds the stale writes of a program to its hazards.
fn add_stale_writes<'a>(
    alloc: Global,
    hazards: &mut Vec<HazardAt<'a>>,
    grounds: &Grounds<'a>,
) -> Result<(), AllocError> {
    let found = stale_writes(alloc, grounds.program, grounds.rules)?;
    for write in &found {
        let at = &write.position;
        let position = Position {
            routine: at.routine,
            line: at.line,
            column: at.column,
        };
        let hazard = HazardAt {
            position,
            hazard: Hazard::StaleWrite,
        };
        push_sparing(hazards, hazard)?;
    }
    hazards.sort_by(|hazard, other| hazard.position.cmp(&other.position))
}

/// The hazards that are reported, in the order of their places: none, unless they are asked for.
pub(crate) fn reported_hazards<'a>(
    alloc: Global,
    grounds: &Grounds<'a>,
    is_strict: bool,
) -> Result<Vec<HazardAt<'a>>, AllocError>
    ensures { IfOk result (λ hazards. AreReported is_strict hazards.items) }
{
    if !is_strict {
        return Ok(Vec::new(alloc));
    }
    let mut hazards = hazards_of(alloc, grounds.program.routines())?;
    add_stale_writes(alloc, &mut hazards, grounds)?;
    Ok(hazards)
}

/// The gaps that are reported: none, unless they are asked for.
pub(crate) fn reported_gaps<'a>(
    alloc: Global,
    coverage: Option<&Coverage<'a>>,
    is_strict: bool,
) -> Result<Vec<Gap<'a>>, AllocError>
    ensures { IfOk result (λ gaps. AreGaps is_strict gaps.items) }
{
    match coverage {
        Some(coverage) if is_strict => gaps_of(alloc, coverage),
        _ => Ok(Vec::new(alloc)),
    }
}

// `hazard ROUTINE line:column NAME`
fn push_hazard(
    alloc: Global,
    text: &mut ReportText,
    hazard: &HazardAt<'_>,
) -> Result<(), AllocError>
    ensures { OnOk result (text.new ≡ text.old ++ hazard_line hazard.now) }
{
    let place = &hazard.position;
    let line = text_of(
        alloc,
        &[
            Words("hazard "),
            Bytes(place.routine),
            Words(" "),
            At(place.line, place.column),
            Words(" "),
            Words(hazard.hazard.word()),
            Words("\n"),
        ],
    )?;
    text.push(line.as_slice())
}

fn push_hazards(
    alloc: Global,
    text: &mut ReportText,
    hazards: &[HazardAt<'_>],
) -> Result<(), AllocError>
    ensures { OnOk result (text.new ≡ text.old ++ hazard_lines hazards.now) }
{
    for hazard in hazards {
        push_hazard(alloc, text, hazard)?;
    }
    Ok(())
}

// `ROUTINE line:1` of a label, `rules SECTION NUMBER` of a rule.
fn place_text(alloc: Global, place: &GapPlace<'_>) -> Result<Vec<u8>, AllocError>
    ensures { IfOk result (λ text. text.items ≡ gap_place place.now) }
{
    match place {
        GapPlace::Entries => text_of(alloc, &[Words("rules entry 0")]),
        GapPlace::Label(label) => {
            let at = At(label.line, Column::new(1));
            text_of(alloc, &[Bytes(label.routine), Words(" "), at])
        }
        GapPlace::Rule(rule) => {
            let section = Words(rule.kind.word());
            let number = Number(rule.number);
            text_of(alloc, &[Words("rules "), section, Words(" "), number])
        }
    }
}

// `hazard PLACE NAME`
fn push_gap(alloc: Global, text: &mut ReportText, gap: &Gap<'_>) -> Result<(), AllocError>
    ensures { OnOk result (text.new ≡ text.old ++ gap_line gap.now) }
{
    let place = place_text(alloc, &gap.place)?;
    let line = text_of(
        alloc,
        &[
            Words("hazard "),
            Made(place),
            Words(" "),
            Words(gap.kind.word()),
            Words("\n"),
        ],
    )?;
    text.push(line.as_slice())
}

fn push_gaps(alloc: Global, text: &mut ReportText, gaps: &[Gap<'_>]) -> Result<(), AllocError>
    ensures { OnOk result (text.new ≡ text.old ++ gap_lines gaps.now) }
{
    for gap in gaps {
        push_gap(alloc, text, gap)?;
    }
    Ok(())
}

/// Appends a line for each hazard and each gap.
pub(crate) fn push_warnings(
    alloc: Global,
    text: &mut ReportText,
    warnings: &Warnings<'_>,
) -> Result<(), AllocError>
    ensures { OnOk result (text.new ≡ text.old ++ warning_lines warnings.now.hazards.now warnings.now.gaps.now) }
{
    push_hazards(alloc, text, warnings.hazards)?;
    push_gaps(alloc, text, warnings.gaps)
}
