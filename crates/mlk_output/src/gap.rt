// Gaps, for other programs.

use crate::row::{ReportSources, RoutineNumbers};
use mlk_coverage::{Gap, GapPlace, RuleId, UnreachedLabel};
use mlk_report_text::Piece::{Number, Words};
use mlk_report_text::{Field, object, text_of};
use mlk_text::LineNumber;
use serde_json::Value;
use std::alloc::{AllocError, Global};

/// Where a gap is, as a file and a line, and what it is in: a routine, or a rule.
#[derive(Drop)]
pub(crate) struct GapFile<'a> {
    pub(crate) path: &'a str,
    /// the number of the routine; one that no routine has for a rule
    pub(crate) number: usize,
    pub(crate) line: LineNumber,
    pub(crate) within: Vec<u8>,
}

// `cover 3`
fn rule_text(alloc: Global, rule: RuleId) -> Result<Vec<u8>, AllocError> {
    let section = Words(rule.kind.word());
    text_of(alloc, &[section, Words(" "), Number(rule.number)])
}

fn file_of_label<'a>(
    alloc: Global,
    inputs: &ReportSources<'a>,
    numbers: &RoutineNumbers,
    label: &UnreachedLabel<'_>,
) -> Result<GapFile<'a>, AllocError> {
    let within = Vec::from_slice(alloc, label.routine)?;
    let number = numbers.number(&within);
    Ok(GapFile {
        path: inputs.path_at(number),
        number,
        line: label.line,
        within,
    })
}

/// The file that a gap is in. Of the rule file it is the first line: a rule is named by its section and number.
pub(crate) fn file_of<'a>(
    alloc: Global,
    inputs: &ReportSources<'a>,
    numbers: &RoutineNumbers,
    place: &GapPlace<'_>,
) -> Result<GapFile<'a>, AllocError> {
    let within = match place {
        GapPlace::Label(label) => return file_of_label(alloc, inputs, numbers, label),
        GapPlace::Rule(rule) => rule_text(alloc, *rule)?,
        GapPlace::Entries => text_of(alloc, &[Words("entry")])?,
    };
    Ok(GapFile {
        path: inputs.rules_path,
        number: usize::MAX,
        line: LineNumber::new(1),
        within,
    })
}

/// A gap, beside hazards: a routine and its line, or a rule of the rule file.
pub(crate) fn gap_value(
    alloc: Global,
    inputs: &ReportSources<'_>,
    numbers: &RoutineNumbers,
    gap: &Gap<'_>,
) -> Result<Value, AllocError> {
    let file = file_of(alloc, inputs, numbers, &gap.place)?;
    let is_label = matches!(gap.place, GapPlace::Label(_));
    let within = if is_label { "routine" } else { "rule" };
    let line = if is_label {
        Field::Number(file.line.number() as usize)
    } else {
        Field::Null
    };
    let members = vec![in alloc;
        (within, Field::Made(file.within)),
        ("path", Field::Text(file.path)),
        ("line", line),
        ("name", Field::Text(gap.kind.word())),
        ("advice", Field::Text(gap.kind.advice())),
    ]?;
    object(alloc, members)
}
