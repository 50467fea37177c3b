// Reports and refusals as SARIF 2.1.0, the Static Analysis Results Interchange Format of OASIS.

ghost use Rattle.std.specs.Prelude.{◌≡◌, ◌+◌, IfOk, OnOk, length, string_bytes};
ghost use Rattle.mlk_output.specs.Documents.{IsSarifReport};

use crate::coverage::coverage_value;
use crate::document::{Members, put_text, sarif_document};
use crate::finding::{Finding, WayStep, fingerprints_value, result_value};
use crate::gap::file_of;
use crate::hash::{HashedLine, HashedLines, ProgramLines};
use crate::hazard::hazard_is_what;
use crate::json::{explained_value, rests_value};
use crate::notice::{Notice, NoticePlace};
use crate::region::{ROOT, file_value, physical_value};
use crate::row::{ReportSources, RoutineNumbers};
use crate::rule::{all_rules_values, rule_id, rules_values};
use crate::story::{Findings, story_line};
use mlk_code_pages::page_of;
use mlk_coverage::Gap;
use mlk_explain::{ExplainedFaults, Story, WayPoint};
use mlk_hazards::HazardAt;
use mlk_report_text::Piece::{Bytes, Number, Words};
use mlk_report_text::{Field, escape_bytes, member, object, text_of};
use mlk_text::Code;
use mlk_walk::Row;
use serde_json::{Map, Value, json, put};
use std::alloc::{AllocError, Global};
use std::collections::BTreeMap;

// The program's version, which `--version` begins with.
const VERSION: &str = "0.1.0";

const REFUSED: usize = 2;

// What is said of a fault: what its code means, and the lock or global that it is about, if that is known.
fn fault_message(alloc: Global, code: Code, story: Option<&Story>) -> Result<Vec<u8>, AllocError> {
    match story {
        Some(story) => story_line(alloc, code.word(), story),
        None => {
            let meaning = Words(page_of(code).meaning);
            text_of(alloc, &[Bytes(code.word()), Words(": "), meaning])
        }
    }
}

fn step_of<'a>(
    alloc: Global,
    inputs: &ReportSources<'a>,
    point: &WayPoint,
) -> Result<WayStep<'a>, AllocError> {
    let message = Vec::from_slice(alloc, point.act.as_slice())?;
    Ok(WayStep {
        place: NoticePlace {
            path: inputs.path(point.entry),
            line: point.fault.line,
            column: Some(point.fault.column),
        },
        message,
    })
}

// The way from a fault to the place behind it: the calls, and that place.
fn way_of<'a>(
    alloc: Global,
    inputs: &ReportSources<'a>,
    story: Option<&Story>,
) -> Result<Vec<WayStep<'a>>, AllocError> {
    let mut way = Vec::new(alloc);
    let Some(origin) = story.and_then(|story| story.origin.as_ref()) else {
        return Ok(way);
    };
    for call in &origin.calls {
        way.push(step_of(alloc, inputs, call)?)?;
    }
    way.push(step_of(alloc, inputs, &origin.point)?)?;
    Ok(way)
}

// The result of a fault, a row of a report.
fn fault_value<'a>(
    alloc: Global,
    inputs: &ReportSources<'a>,
    row: &Row,
    story: Option<&Story>,
    lines: &mut ProgramLines<'a>,
    counts: &mut BTreeMap<Vec<u8>, usize>,
) -> Result<Value, AllocError> {
    let code = row.fault.code;
    lines.look_up(row.entry.routine())?;
    let rule = rule_id(alloc, code)?;
    let within = inputs.entry(alloc, row.entry)?;
    let message = fault_message(alloc, code, story)?;
    let way = way_of(alloc, inputs, story)?;
    let finding = Finding {
        rule,
        level: "error",
        message,
        place: NoticePlace {
            path: inputs.path(row.entry),
            line: row.fault.line,
            column: Some(row.fault.column),
        },
        line: lines.line(row.fault.line),
        within,
        kind: "function",
        fingerprint: "codeInEntry/v1",
        way,
    };
    result_value(alloc, counts, &finding)
}

// A result for each fault.
fn fault_values<'a>(
    alloc: Global,
    inputs: &ReportSources<'a>,
    findings: &Findings<'_>,
    lines: &mut ProgramLines<'a>,
) -> Result<Vec<Value>, AllocError>
    ensures { IfOk result (λ values. length values.items ≡ length findings.now.rows.now) }
{
    let rows = findings.rows;
    let mut counts = BTreeMap::new(alloc);
    let mut values = Vec::with_capacity(alloc, rows.len())?;
    for row in rows {
        let story = findings.story(values.len());
        let value = fault_value(alloc, inputs, row, story, lines, &mut counts)?;
        values.push(value)?;
    }
    Ok(values)
}

// The result of a hazard.
fn hazard_value<'a>(
    alloc: Global,
    inputs: &ReportSources<'a>,
    numbers: &RoutineNumbers,
    at: &HazardAt<'_>,
    lines: &mut ProgramLines<'a>,
    counts: &mut BTreeMap<Vec<u8>, usize>,
) -> Result<Value, AllocError> {
    let word = at.hazard.word().as_bytes();
    let rule = Vec::from_slice(alloc, word)?;
    let within = Vec::from_slice(alloc, at.position.routine)?;
    let number = numbers.number(&within);
    lines.look_up(number)?;
    let meaning = hazard_is_what(at.hazard);
    let message = text_of(alloc, &[Bytes(word), Words(": "), Words(meaning)])?;
    let finding = Finding {
        rule,
        level: "warning",
        message,
        place: NoticePlace {
            path: inputs.path_at(number),
            line: at.position.line,
            column: Some(at.position.column),
        },
        line: lines.line(at.position.line),
        within,
        kind: "module",
        fingerprint: "hazardInRoutine/v1",
        way: Vec::new(alloc),
    };
    result_value(alloc, counts, &finding)
}

// Adds a result for each hazard.
fn add_hazards<'a>(
    alloc: Global,
    inputs: &ReportSources<'a>,
    hazards: &[HazardAt<'_>],
    lines: &mut ProgramLines<'a>,
    values: &mut Vec<Value>,
) -> Result<(), AllocError>
    ensures { OnOk result (length values.new.items ≡ length values.old.items + length hazards.now) }
{
    let numbers = RoutineNumbers::of(alloc, inputs.routines)?;
    let mut counts = BTreeMap::new(alloc);
    for at in hazards {
        let value = hazard_value(alloc, inputs, &numbers, at, lines, &mut counts)?;
        values.push(value)?;
    }
    Ok(())
}

// The result of a gap.
fn gap_result<'a>(
    alloc: Global,
    inputs: &ReportSources<'a>,
    numbers: &RoutineNumbers,
    gap: &Gap<'_>,
    lines: &mut ProgramLines<'a>,
    counts: &mut BTreeMap<Vec<u8>, usize>,
) -> Result<Value, AllocError> {
    let word = gap.kind.word().as_bytes();
    let rule = Vec::from_slice(alloc, word)?;
    let file = file_of(alloc, inputs, numbers, &gap.place)?;
    lines.look_up(file.number)?;
    let meaning = Words(gap.kind.meaning());
    let message = text_of(alloc, &[Bytes(word), Words(": "), meaning])?;
    let finding = Finding {
        rule,
        level: "warning",
        message,
        place: NoticePlace {
            path: file.path,
            line: file.line,
            column: None,
        },
        line: lines.line(file.line),
        within: file.within,
        kind: "module",
        fingerprint: "hazardInRoutine/v1",
        way: Vec::new(alloc),
    };
    result_value(alloc, counts, &finding)
}

// Adds a result for each gap.
fn add_gaps<'a>(
    alloc: Global,
    inputs: &ReportSources<'a>,
    gaps: &[Gap<'_>],
    lines: &mut ProgramLines<'a>,
    values: &mut Vec<Value>,
) -> Result<(), AllocError>
    ensures { OnOk result (length values.new.items ≡ length values.old.items + length gaps.now) }
{
    let numbers = RoutineNumbers::of(alloc, inputs.routines)?;
    let mut counts = BTreeMap::new(alloc);
    for gap in gaps {
        let value = gap_result(alloc, inputs, &numbers, gap, lines, &mut counts)?;
        values.push(value)?;
    }
    Ok(())
}

// The program, with its rules.
fn tool_value(alloc: Global, rules: Vec<Value>) -> Result<Value, AllocError> {
    let rules = Value::Array(rules);
    json!(in alloc; {
        "driver": {
            "name": "mlock",
            "version": VERSION,
            "semanticVersion": VERSION,
            "rules": rules,
        },
    })
}

// The folder that the paths of files begin at.
fn roots_value(alloc: Global) -> Result<Value, AllocError> {
    let root = json!(in alloc; {"description": {"text": "the folder in which mlock was run"}})?;
    member(alloc, ROOT, Field::Value(root))
}

// The members of a run besides its results.
fn run_members(alloc: Global, rules: Vec<Value>, invocation: Value) -> Result<Members, AllocError> {
    let tool = tool_value(alloc, rules)?;
    let roots = roots_value(alloc)?;
    let invocations = json!(in alloc; [invocation])?;
    let mut members = Map::new(alloc);
    put(&mut members, alloc, "tool", tool)?;
    put_text(alloc, &mut members, "columnKind", "unicodeCodePoints")?;
    put(&mut members, alloc, "originalUriBaseIds", roots)?;
    put(&mut members, alloc, "invocations", invocations)?;
    Ok(members)
}

// How a run ended that came to a report with this number of results.
fn invocation_value(alloc: Global, results: usize, exits_zero: bool) -> Result<Value, AllocError> {
    let status = if results == 0 || exits_zero { 0 } else { 1 };
    let members = vec![in alloc;
        ("executionSuccessful", Field::Flag(true)),
        ("exitCode", Field::Number(status)),
    ]?;
    object(alloc, members)
}

// Adds the properties of a run: the faults behind those of the report, which are no results, and how much the report is about.
fn add_properties(
    alloc: Global,
    inputs: &ReportSources<'_>,
    findings: &Findings<'_>,
    run: &mut Members,
) -> Result<(), AllocError> {
    let mut properties = Vec::new(alloc);
    if !findings.behind.rows().is_empty() {
        let faults = explained_value(alloc, inputs, findings.behind)?;
        properties.push(("behind", Field::Value(faults)))?;
    }
    if let Some(coverage) = findings.coverage {
        let coverage = coverage_value(alloc, coverage, inputs.rule_text)?;
        properties.push(("coverage", Field::Value(coverage)))?;
    }
    if let Some(inert) = findings.rests {
        let rests = rests_value(alloc, inert)?;
        properties.push(("rests", Field::Value(rests)))?;
    }
    if properties.is_empty() {
        return Ok(());
    }
    let properties = object(alloc, properties)?;
    put(run, alloc, "properties", properties)
}

/// Writes `findings` as SARIF: a result for each fault, in their order, and one for each hazard and each gap, if these are
/// reported. The faults behind these are no results, but a property of the run, as is how much the report is about.
pub fn report_sarif(
    alloc: Global,
    inputs: &ReportSources<'_>,
    findings: &Findings<'_>,
) -> Result<String, AllocError>
    ensures { IfOk result (λ text.
        IsSarifReport ((length findings.now.rows.now + length findings.now.hazards.now) + length findings.now.gaps.now)
        (string_bytes text)) }
{
    let mut lines = ProgramLines::new(alloc, inputs.texts);
    let mut results = fault_values(alloc, inputs, findings, &mut lines)?;
    add_hazards(alloc, inputs, findings.hazards, &mut lines, &mut results)?;
    add_gaps(alloc, inputs, findings.gaps, &mut lines, &mut results)?;
    let rules = if findings.is_strict {
        all_rules_values(alloc)?
    } else {
        rules_values(alloc)?
    };
    let invocation = invocation_value(alloc, results.len(), findings.exits_zero)?;
    let mut run = run_members(alloc, rules, invocation)?;
    add_properties(alloc, inputs, findings, &mut run)?;
    sarif_document(alloc, results, run)
}

// The line at the place of a refusal, if the text of its file was kept and has it.
fn refused_line<'a>(
    alloc: Global,
    notice: &Notice<'a>,
) -> Result<Option<HashedLine<'a>>, AllocError> {
    let Some(place) = &notice.place else {
        return Ok(None);
    };
    let lines = HashedLines::of(alloc, notice.text)?;
    Ok(lines.line(place.line))
}

// The place of a refusal, or the file that it is about.
fn refused_value(
    alloc: Global,
    notice: &Notice<'_>,
    line: Option<HashedLine<'_>>,
) -> Result<Value, AllocError> {
    let physical = match &notice.place {
        Some(place) => physical_value(alloc, place, line)?,
        None => file_value(alloc, notice.file)?,
    };
    json!(in alloc; [{"physicalLocation": physical}])
}

// What a refusal says: its line, and what its code means.
fn refused_message(alloc: Global, notice: &Notice<'_>) -> Result<Vec<u8>, AllocError> {
    let meaning = page_of(notice.code).meaning;
    text_of(alloc, &[Bytes(notice.line), Words(": "), Words(meaning)])
}

// The fingerprint of a refusal, which stays the same when lines move: its code and its file. A run has one refusal.
fn refused_fingerprint(alloc: Global, notice: &Notice<'_>) -> Result<Vec<u8>, AllocError> {
    let code = Number(usize::from(notice.code.number()));
    let path = match &notice.place {
        Some(place) => place.path,
        None => notice.file,
    };
    text_of(alloc, &[code, Words(" "), Words(path)])
}

// A refusal as the one result of its run.
fn refusal_value(
    alloc: Global,
    notice: &Notice<'_>,
    line: Option<HashedLine<'_>>,
) -> Result<Value, AllocError> {
    let message = Field::Made(refused_message(alloc, notice)?);
    let message = member(alloc, "text", message)?;
    let own = refused_fingerprint(alloc, notice)?;
    let fingerprints = fingerprints_value(alloc, "codeInFile/v1", own, line)?;
    let locations = refused_value(alloc, notice, line)?;
    let members = vec![in alloc;
        ("ruleId", Field::Made(rule_id(alloc, notice.code)?)),
        ("level", Field::Text("error")),
        ("message", Field::Value(message)),
        ("locations", Field::Value(locations)),
        ("partialFingerprints", Field::Value(fingerprints)),
    ]?;
    object(alloc, members)
}

// How a run ended that was refused, for readers that look at no results.
fn refused_invocation(
    alloc: Global,
    notice: &Notice<'_>,
    line: Option<HashedLine<'_>>,
) -> Result<Value, AllocError> {
    let id = rule_id(alloc, notice.code)?;
    let id = escape_bytes(alloc, id.as_slice())?;
    let message = escape_bytes(alloc, notice.line)?;
    let places = refused_value(alloc, notice, line)?;
    json!(in alloc; {
        "executionSuccessful": false,
        "exitCode": REFUSED,
        "toolExecutionNotifications": [{
            "associatedRule": {"id": &id},
            "level": "error",
            "message": {"text": &message},
            "locations": places,
        }],
    })
}

// The one result of the run of a refusal.
fn notice_results(alloc: Global, notice: &Notice<'_>) -> Result<Vec<Value>, AllocError> {
    let line = refused_line(alloc, notice)?;
    let mut results = Vec::new(alloc);
    results.push(refusal_value(alloc, notice, line)?)?;
    Ok(results)
}

// The members of the run of a refusal besides its result.
fn notice_run(alloc: Global, notice: &Notice<'_>) -> Result<Members, AllocError> {
    let line = refused_line(alloc, notice)?;
    let invocation = refused_invocation(alloc, notice, line)?;
    run_members(alloc, rules_values(alloc)?, invocation)
}

/// Writes a refusal as SARIF: a run that was not successful, whose one result is the refusal at its place, or at the file that
/// it is about. So a build server doesn't take the run for one without faults.
pub fn notice_sarif(alloc: Global, notice: &Notice<'_>) -> Result<String, AllocError> {
    let results = notice_results(alloc, notice)?;
    let run = notice_run(alloc, notice)?;
    sarif_document(alloc, results, run)
}

/// Writes the refusal of a program for which no certificate can be made as SARIF. The faults that are found all the same are no
/// results, but a property of the run.
pub fn given_up_sarif(
    alloc: Global,
    notice: &Notice<'_>,
    inputs: &ReportSources<'_>,
    faults: &ExplainedFaults,
) -> Result<String, AllocError> {
    let results = notice_results(alloc, notice)?;
    let mut run = notice_run(alloc, notice)?;
    let faults = explained_value(alloc, inputs, faults)?;
    let properties = member(alloc, "faults", Field::Value(faults))?;
    put(&mut run, alloc, "properties", properties)?;
    sarif_document(alloc, results, run)
}
