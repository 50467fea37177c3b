// How much a report is about, as JSON.

use mlk_coverage::{Coverage, RuleId, RuleKind, RuleUse, Share, UnreachedLabel};
use mlk_explain::RuleFile;
use mlk_report_text::{Field, object};
use serde_json::Value;
use std::alloc::{AllocError, Global};

fn share_value(alloc: Global, share: Share) -> Result<Value, AllocError> {
    let members = vec![in alloc;
        ("reached", Field::Number(share.part)),
        ("all", Field::Number(share.all)),
    ]?;
    object(alloc, members)
}

// A rule: its section, its number there, and its pattern as the file has it.
fn rule_value(
    alloc: Global,
    rule_file: &RuleFile,
    rule: RuleId,
    uses: Option<&RuleUse>,
) -> Result<Value, AllocError> {
    let pattern = rule_file.pattern(rule);
    let (reads, writes) = match uses {
        Some(uses) => (Field::Number(uses.reads), Field::Number(uses.writes)),
        None => (Field::Absent, Field::Absent),
    };
    let members = vec![in alloc;
        ("section", Field::Text(rule.kind.word())),
        ("number", Field::Number(rule.number)),
        ("pattern", Field::of(pattern)),
        ("reads", reads),
        ("writes", writes),
    ]?;
    object(alloc, members)
}

fn uses_value(alloc: Global, rule_file: &RuleFile, uses: &[RuleUse]) -> Result<Value, AllocError> {
    let mut values = Vec::with_capacity(alloc, uses.len())?;
    for found in uses {
        values.push(rule_value(alloc, rule_file, found.rule, Some(found))?)?;
    }
    Ok(Value::Array(values))
}

fn unclaimed_value(
    alloc: Global,
    rule_file: &RuleFile,
    numbers: &[usize],
) -> Result<Value, AllocError> {
    let mut values = Vec::with_capacity(alloc, numbers.len())?;
    for number in numbers {
        let rule = RuleId {
            kind: RuleKind::Cover,
            number: *number,
        };
        values.push(rule_value(alloc, rule_file, rule, None)?)?;
    }
    Ok(Value::Array(values))
}

fn label_value(alloc: Global, label: &UnreachedLabel<'_>) -> Result<Value, AllocError> {
    let members = vec![in alloc;
        ("routine", Field::Bytes(label.routine)),
        ("label", Field::Bytes(label.label)),
        ("line", Field::Number(label.line.number() as usize)),
    ]?;
    object(alloc, members)
}

fn labels_value(alloc: Global, labels: &[UnreachedLabel<'_>]) -> Result<Value, AllocError> {
    let mut values = Vec::with_capacity(alloc, labels.len())?;
    for label in labels {
        values.push(label_value(alloc, label)?)?;
    }
    Ok(Value::Array(values))
}

/// How much a report is about: `entries`, `labels` and `lines` that are reached, how often each of `rules` is met, the covers whose
/// lock is `unclaimed`, and the labels that matter and are `unreached`. `rule_text` is the text of the rule file.
pub(crate) fn coverage_value(
    alloc: Global,
    coverage: &Coverage<'_>,
    rule_text: &[u8],
) -> Result<Value, AllocError> {
    let rule_file = RuleFile::of(alloc, rule_text)?;
    let labels = share_value(alloc, coverage.labels)?;
    let lines = share_value(alloc, coverage.lines)?;
    let rules = uses_value(alloc, &rule_file, coverage.rules.as_slice())?;
    let unclaimed = unclaimed_value(alloc, &rule_file, coverage.unclaimed.as_slice())?;
    let unreached = labels_value(alloc, coverage.unreached.as_slice())?;
    let members = vec![in alloc;
        ("entries", Field::Number(coverage.entries)),
        ("labels", Field::Value(labels)),
        ("lines", Field::Value(lines)),
        ("rules", Field::Value(rules)),
        ("unclaimed", Field::Value(unclaimed)),
        ("unreached", Field::Value(unreached)),
    ]?;
    object(alloc, members)
}
