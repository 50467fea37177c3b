// Reports and refusals as JSON.

ghost use Rattle.std.specs.Prelude.{◌≡◌, IfOk, length, string_bytes};
ghost use Rattle.mlk_output.specs.Documents.{IsJsonReport, known_in};

use crate::comparison::{add_comparison, known_in};
use crate::coverage::coverage_value;
use crate::document::{Members, json_document, put_text};
use crate::gap::gap_value;
use crate::notice::{Notice, NoticePlace};
use crate::row::{ReportSources, RoutineNumbers};
use crate::story::{Findings, add_story, texts_value};
use mlk_code_pages::page_of;
use mlk_explain::{ExplainedFaults, Story};
use mlk_hazards::HazardAt;
use mlk_report_text::{Field, object};
use mlk_walk::Row;
use serde_json::{Map, Value, json, put};
use std::alloc::{AllocError, Global};

fn row_value(
    alloc: Global,
    inputs: &ReportSources<'_>,
    row: &Row,
    story: Option<&Story>,
) -> Result<Value, AllocError> {
    let entry = inputs.entry(alloc, row.entry)?;
    let code = row.fault.code;
    let mut members = vec![in alloc;
        ("entry", Field::Made(entry)),
        ("routine", Field::Bytes(inputs.routine(row.entry))),
        ("path", Field::Text(inputs.path(row.entry))),
        ("line", Field::Number(row.fault.line.number() as usize)),
        ("column", Field::Number(row.fault.column.number() as usize)),
        ("code", Field::Number(usize::from(code.number()))),
        ("name", Field::Bytes(code.word())),
        ("meaning", Field::Text(page_of(code).meaning)),
    ]?;
    if let Some(story) = story {
        add_story(alloc, inputs, story, &mut members)?;
    }
    object(alloc, members)
}

fn row_values(
    alloc: Global,
    inputs: &ReportSources<'_>,
    findings: &Findings<'_>,
) -> Result<Vec<Value>, AllocError>
    ensures { IfOk result (λ values. length values.items ≡ length findings.now.rows.now) }
{
    let rows = findings.rows;
    let mut values = Vec::with_capacity(alloc, rows.len())?;
    for row in rows {
        let story = findings.story(values.len());
        values.push(row_value(alloc, inputs, row, story)?)?;
    }
    Ok(values)
}

fn hazard_value(
    alloc: Global,
    inputs: &ReportSources<'_>,
    numbers: &RoutineNumbers,
    at: &HazardAt<'_>,
) -> Result<Value, AllocError> {
    let place = &at.position;
    let routine = Vec::from_slice(alloc, place.routine)?;
    let path = inputs.path_at(numbers.number(&routine));
    let members = vec![in alloc;
        ("routine", Field::Made(routine)),
        ("path", Field::Text(path)),
        ("line", Field::Number(place.line.number() as usize)),
        ("column", Field::Number(place.column.number() as usize)),
        ("name", Field::Text(at.hazard.word())),
        ("advice", Field::Text(at.hazard.advice())),
    ]?;
    object(alloc, members)
}

fn hazards_value(
    alloc: Global,
    inputs: &ReportSources<'_>,
    findings: &Findings<'_>,
) -> Result<Value, AllocError> {
    let numbers = RoutineNumbers::of(alloc, inputs.routines)?;
    let mut values = Vec::with_capacity(alloc, findings.hazards.len())?;
    for hazard in findings.hazards {
        values.push(hazard_value(alloc, inputs, &numbers, hazard)?)?;
    }
    for gap in findings.gaps {
        values.push(gap_value(alloc, inputs, &numbers, gap)?)?;
    }
    Ok(Value::Array(values))
}

/// Faults as a list, each with what is known of it.
pub(crate) fn explained_value(
    alloc: Global,
    inputs: &ReportSources<'_>,
    faults: &ExplainedFaults,
) -> Result<Value, AllocError> {
    let rows = faults.rows();
    let mut values = Vec::with_capacity(alloc, rows.len())?;
    for (number, row) in rows.iter().enumerate() {
        values.push(row_value(alloc, inputs, row, faults.story(number))?)?;
    }
    Ok(Value::Array(values))
}

/// On which premises a report rests, each with the number of its places.
pub(crate) fn rests_value(alloc: Global, inert: usize) -> Result<Value, AllocError> {
    let members = vec![in alloc; ("inert", Field::Number(inert))]?;
    object(alloc, members)
}

// The members of a report besides its answer and its faults.
fn other_members(
    alloc: Global,
    inputs: &ReportSources<'_>,
    findings: &Findings<'_>,
) -> Result<Members, AllocError> {
    let mut members = Map::new(alloc);
    if let Some(comparison) = findings.comparison {
        add_comparison(alloc, comparison, &mut members)?;
    }
    if !findings.behind.rows().is_empty() {
        let behind = explained_value(alloc, inputs, findings.behind)?;
        put(&mut members, alloc, "behind", behind)?;
    }
    if let Some(coverage) = findings.coverage {
        let coverage = coverage_value(alloc, coverage, inputs.rule_text)?;
        put(&mut members, alloc, "coverage", coverage)?;
    }
    if let Some(inert) = findings.rests {
        let rests = rests_value(alloc, inert)?;
        put(&mut members, alloc, "rests", rests)?;
    }
    if findings.is_strict {
        let hazards = hazards_value(alloc, inputs, findings)?;
        put(&mut members, alloc, "hazards", hazards)?;
    }
    if !inputs.free_reads.is_empty() {
        let free_reads = texts_value(alloc, inputs.free_reads)?;
        put(&mut members, alloc, "free_reads", free_reads)?;
    }
    Ok(members)
}

/// Writes `findings` as one JSON object, on lines with indents: `answer`, which is `yes`, `known` or `no`, `faults`, in their order,
/// each with what is known of it, `known` and `gone`, if they are those of a report that is compared with known faults, `behind`,
/// if there are faults behind these, `coverage`, `hazards`, if these are reported, with the gaps, and `free_reads`, if rules free
/// reads.
pub fn report_json(
    alloc: Global,
    inputs: &ReportSources<'_>,
    findings: &Findings<'_>,
) -> Result<String, AllocError>
    ensures { IfOk result (λ text. IsJsonReport (length findings.now.rows.now) (known_in findings.now.comparison) (string_bytes text)) }
{
    let faults = row_values(alloc, inputs, findings)?;
    let others = other_members(alloc, inputs, findings)?;
    json_document(alloc, faults, known_in(findings.comparison), others)
}

fn place_value(alloc: Global, place: &NoticePlace<'_>) -> Result<Value, AllocError> {
    let column = match place.column {
        Some(column) => Field::Number(column.number() as usize),
        None => Field::Null,
    };
    let members = vec![in alloc;
        ("path", Field::Text(place.path)),
        ("line", Field::Number(place.line.number() as usize)),
        ("column", column),
    ]?;
    object(alloc, members)
}

fn refusal_value(alloc: Global, notice: &Notice<'_>) -> Result<Value, AllocError> {
    let place = match &notice.place {
        Some(place) => place_value(alloc, place)?,
        None => Value::Null,
    };
    let page = page_of(notice.code);
    let hint = page.hint;
    let help = json!(in alloc; [hint])?;
    let members = vec![in alloc;
        ("code", Field::Number(usize::from(notice.code.number()))),
        ("name", Field::Bytes(notice.code.word())),
        ("meaning", Field::Text(page.meaning)),
        ("text", Field::Bytes(notice.line)),
        ("place", Field::Value(place)),
        ("help", Field::Value(help)),
    ]?;
    object(alloc, members)
}

// The members of a refusal's object.
fn notice_members(alloc: Global, notice: &Notice<'_>) -> Result<Members, AllocError> {
    let mut members = Map::new(alloc);
    put_text(alloc, &mut members, "answer", "refused")?;
    let refusal = refusal_value(alloc, notice)?;
    put(&mut members, alloc, "refusal", refusal)?;
    Ok(members)
}

/// A refusal as one JSON object, on lines with indents: `answer`, which is `refused`, and `refusal`.
pub fn notice_json(alloc: Global, notice: &Notice<'_>) -> Result<String, AllocError> {
    let members = notice_members(alloc, notice)?;
    Value::Object(members).to_string_pretty(alloc)
}

/// The refusal of a program for which no certificate can be made, as one JSON object: besides `answer` and `refusal` it has `faults`,
/// those that are found all the same.
pub fn given_up_json(
    alloc: Global,
    notice: &Notice<'_>,
    inputs: &ReportSources<'_>,
    faults: &ExplainedFaults,
) -> Result<String, AllocError> {
    let mut members = notice_members(alloc, notice)?;
    let faults = explained_value(alloc, inputs, faults)?;
    put(&mut members, alloc, "faults", faults)?;
    Value::Object(members).to_string_pretty(alloc)
}
