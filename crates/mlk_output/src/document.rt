// The documents of a report: an object with its answer and its lists.

ghost use Rattle.std.specs.Prelude.{◌≡◌, IfOk, OnOk, length, string_bytes};
ghost use Rattle.serde_json.specs.Data.{string, put as with_member};
ghost use Rattle.serde_json.specs.View.{members_view};
ghost use Rattle.mlk_output.specs.Documents.{answer_word, IsJsonReport, IsSarifReport};

use serde_json::{Map, Value, put};
use std::alloc::{AllocError, Global};

const SCHEMA: &str = "https://json.schemastore.org/sarif-2.1.0.json";

/// The members of an object.
pub(crate) type Members = Map<String, Value>;

/// Adds a member that is a text.
pub(crate) fn put_text(
    alloc: Global,
    members: &mut Members,
    name: &str,
    text: &str,
) -> Result<(), AllocError>
    ensures { OnOk result (members_view members.new.entries ≡ with_member name.now (string text.now) (members_view members.old.entries)) }
{
    let text = String::from_str(alloc, text)?;
    put(members, alloc, name, Value::String(text))
}

// `no` if there is a fault, `known` if there is none but some are known, else `yes`.
fn answer_word(faults: usize, known: usize) -> &'static str
    ensures { result.now ≡ answer_word faults known }
{
    if faults != 0 {
        "no"
    } else if known != 0 {
        "known"
    } else {
        "yes"
    }
}

/// The JSON document of a report with these faults, besides which this number is known, and with `others` as further members.
pub(crate) fn json_document(
    alloc: Global,
    faults: Vec<Value>,
    known: usize,
    others: Members,
) -> Result<String, AllocError>
    ensures { IfOk result (λ text. IsJsonReport (length faults.items) known (string_bytes text)) }
{
    let mut members = others;
    let answer = answer_word(faults.len(), known);
    put_text(alloc, &mut members, "answer", answer)?;
    put(&mut members, alloc, "faults", Value::Array(faults))?;
    Value::Object(members).to_string_pretty(alloc)
}

/// The SARIF document of one run with these results, and with `run` as its further members.
pub(crate) fn sarif_document(
    alloc: Global,
    results: Vec<Value>,
    run: Members,
) -> Result<String, AllocError>
    ensures { IfOk result (λ text. IsSarifReport (length results.items) (string_bytes text)) }
{
    let mut run = run;
    put(&mut run, alloc, "results", Value::Array(results))?;
    let mut runs = Vec::with_capacity(alloc, 1)?;
    runs.push(Value::Object(run))?;
    let mut members = Map::new(alloc);
    put_text(alloc, &mut members, "$schema", SCHEMA)?;
    put_text(alloc, &mut members, "version", "2.1.0")?;
    put(&mut members, alloc, "runs", Value::Array(runs))?;
    Value::Object(members).to_string_pretty(alloc)
}
