// Results: a fault, a hazard or a refusal, each at its place.

use crate::hash::{HashedLine, LineHash};
use crate::notice::NoticePlace;
use crate::region::physical_value;
use mlk_report_text::Piece::{Bytes, Number, Words};
use mlk_report_text::{Field, escape_bytes, member, object, text_of};
use serde_json::{Value, json};
use std::alloc::{AllocError, Global};
use std::collections::BTreeMap;

/// A fault or a hazard.
#[derive(Drop)]
pub(crate) struct Finding<'a> {
    /// the id of its rule
    pub(crate) rule: Vec<u8>,
    pub(crate) level: &'static str,
    /// what is said of it
    pub(crate) message: Vec<u8>,
    pub(crate) place: NoticePlace<'a>,
    /// the line at that place, if the file has it
    pub(crate) line: Option<HashedLine<'a>>,
    /// the entry or the routine that it is in
    pub(crate) within: Vec<u8>,
    pub(crate) kind: &'static str,
    pub(crate) fingerprint: &'static str,
    /// from the finding to what is behind it
    pub(crate) way: Vec<WayStep<'a>>,
}

/// A place on the way from a finding to what is behind it.
#[derive(Drop)]
pub(crate) struct WayStep<'a> {
    pub(crate) place: NoticePlace<'a>,
    pub(crate) message: Vec<u8>,
}

// A place on the way, with what happens there.
fn step_value(alloc: Global, step: &WayStep<'_>) -> Result<Value, AllocError> {
    let physical = physical_value(alloc, &step.place, None)?;
    let message = member(alloc, "text", Field::Bytes(step.message.as_slice()))?;
    let members = vec![in alloc;
        ("physicalLocation", Field::Value(physical)),
        ("message", Field::Value(message)),
    ]?;
    object(alloc, members)
}

fn way_values(alloc: Global, way: &[WayStep<'_>]) -> Result<Value, AllocError> {
    let mut values = Vec::with_capacity(alloc, way.len())?;
    for step in way {
        values.push(step_value(alloc, step)?)?;
    }
    Ok(Value::Array(values))
}

// The way from a finding to what is behind it, as one flow.
fn flow_value(alloc: Global, finding: &Finding<'_>) -> Result<Value, AllocError> {
    let mut values = Vec::with_capacity(alloc, finding.way.len())?;
    for step in &finding.way {
        let step = step_value(alloc, step)?;
        values.push(member(alloc, "location", Field::Value(step))?)?;
    }
    let locations = Value::Array(values);
    json!(in alloc; [{"threadFlows": [{"locations": locations}]}])
}

// The places of a finding.
fn locations_value(alloc: Global, finding: &Finding<'_>) -> Result<Value, AllocError> {
    let physical = physical_value(alloc, &finding.place, finding.line)?;
    let within = escape_bytes(alloc, finding.within.as_slice())?;
    json!(in alloc; [{
        "physicalLocation": physical,
        "logicalLocations": [{"fullyQualifiedName": &within, "kind": finding.kind}],
    }])
}

// The fingerprint of a finding, which stays the same when lines move: its rule, what it is in, and how many findings of this
// rule there were so far.
fn fingerprint(
    alloc: Global,
    counts: &mut BTreeMap<Vec<u8>, usize>,
    finding: &Finding<'_>,
) -> Result<Vec<u8>, AllocError> {
    let rule = finding.rule.as_slice();
    let within = finding.within.as_slice();
    let key = text_of(alloc, &[Bytes(rule), Words(" "), Bytes(within)])?;
    let count = counts.get(&key).copied().unwrap_or(0).saturating_add(1);
    counts.insert(key, count)?;
    let count = Number(count);
    text_of(
        alloc,
        &[Bytes(rule), Words(" "), Bytes(within), Words(" "), count],
    )
}

// The hash of a line as GitHub writes it.
fn hash_text(alloc: Global, line_hash: LineHash) -> Result<String, AllocError> {
    let LineHash { hash, count } = line_hash;
    format!(in alloc; "{hash:x}:{count}")
}

/// The fingerprints of a result: `own`, under the name of its form, and the hash of its line, if that is known.
pub(crate) fn fingerprints_value(
    alloc: Global,
    form: &'static str,
    own: Vec<u8>,
    line: Option<HashedLine<'_>>,
) -> Result<Value, AllocError> {
    let Some(line) = line else {
        return object(alloc, vec![in alloc; (form, Field::Made(own))]?);
    };
    let hash = hash_text(alloc, line.hash)?;
    let members = vec![in alloc;
        (form, Field::Made(own)),
        ("primaryLocationLineHash", Field::Text(hash.as_str())),
    ]?;
    object(alloc, members)
}

/// The result of a finding. `counts` has how many findings of a rule there were so far in an entry or a routine.
pub(crate) fn result_value(
    alloc: Global,
    counts: &mut BTreeMap<Vec<u8>, usize>,
    finding: &Finding<'_>,
) -> Result<Value, AllocError> {
    let message = escape_bytes(alloc, finding.message.as_slice())?;
    let own = fingerprint(alloc, counts, finding)?;
    let fingerprints = fingerprints_value(alloc, finding.fingerprint, own, finding.line)?;
    let locations = locations_value(alloc, finding)?;
    let message = member(alloc, "text", Field::Text(message.as_str()))?;
    let mut members = vec![in alloc;
        ("ruleId", Field::Bytes(finding.rule.as_slice())),
        ("level", Field::Text(finding.level)),
        ("message", Field::Value(message)),
        ("locations", Field::Value(locations)),
        ("partialFingerprints", Field::Value(fingerprints)),
    ]?;
    if !finding.way.is_empty() {
        let related = way_values(alloc, finding.way.as_slice())?;
        let flow = flow_value(alloc, finding)?;
        members.push(("relatedLocations", Field::Value(related)))?;
        members.push(("codeFlows", Field::Value(flow)))?;
    }
    object(alloc, members)
}
