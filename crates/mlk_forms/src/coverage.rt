// How much a report is about, as notes below its answer.

use mlk_coverage::{Coverage, RuleId, RuleKind, RuleUse, UnreachedLabel};
use mlk_explain::RuleFile;
use mlk_report_text::Piece::{Bytes, Number, Words};
use mlk_report_text::push_all;
use std::alloc::{AllocError, Global};

// How many labels are listed at most behind the first.
const MOST_OTHERS: usize = 19;

// `note: 2 entries reach 14 of 16 labels, 120 of 131 lines`
fn push_shares(text: &mut Vec<u8>, coverage: &Coverage<'_>) -> Result<(), AllocError> {
    let reach = if coverage.entries == 1 {
        " entry reaches "
    } else {
        " entries reach "
    };
    push_all(
        text,
        &[
            Words("note: "),
            Number(coverage.entries),
            Words(reach),
            Number(coverage.labels.part),
            Words(" of "),
            Number(coverage.labels.all),
            Words(" labels, "),
            Number(coverage.lines.part),
            Words(" of "),
            Number(coverage.lines.all),
            Words(" lines\n"),
        ],
    )
}

// `note: cover ^PAT(id,...): reads 12, writes 5`
fn push_rule(text: &mut Vec<u8>, rule_file: &RuleFile, found: &RuleUse) -> Result<(), AllocError> {
    let pattern = rule_file.pattern(found.rule);
    push_all(
        text,
        &[
            Words("note: "),
            Words(found.rule.kind.word()),
            Words(" "),
            Bytes(pattern.unwrap_or(b"")),
            Words(": reads "),
            Number(found.reads),
            Words(", writes "),
            Number(found.writes),
            Words("\n"),
        ],
    )
}

// `note: the lock of cover ^PAT(id,...) is not claimed`
fn push_unclaimed(
    text: &mut Vec<u8>,
    rule_file: &RuleFile,
    number: usize,
) -> Result<(), AllocError> {
    let kind = RuleKind::Cover;
    let pattern = rule_file.pattern(RuleId { kind, number });
    push_all(
        text,
        &[
            Words("note: no line claims the lock of cover "),
            Bytes(pattern.unwrap_or(b"")),
            Words("\n"),
        ],
    )
}

fn push_label<'a>(
    text: &mut Vec<u8>,
    before: &'a str,
    label: &UnreachedLabel<'a>,
) -> Result<(), AllocError> {
    push_all(
        text,
        &[
            Words(before),
            Bytes(label.label),
            Words("^"),
            Bytes(label.routine),
        ],
    )
}

// `note: touch or claim, but are not reached: A^R, B^R and 3 more`
fn push_unreached(text: &mut Vec<u8>, coverage: &Coverage<'_>) -> Result<(), AllocError> {
    let Some((first, others)) = coverage.unreached.as_slice().split_first() else {
        return Ok(());
    };
    push_label(text, "note: touch or claim, but are not reached: ", first)?;
    for label in others.iter().take(MOST_OTHERS) {
        push_label(text, ", ", label)?;
    }
    if others.len() > MOST_OTHERS {
        let more = others.len().saturating_sub(MOST_OTHERS);
        push_all(text, &[Words(" and "), Number(more), Words(" more")])?;
    }
    push_all(text, &[Words("\n")])
}

/// Appends how much a report is about: how many labels and lines its entries reach, how often each rule is met, the covers whose lock
/// nobody claims, and the first labels that matter and are not reached. `rule_text` is the text of the rule file.
pub(crate) fn push_coverage(
    alloc: Global,
    text: &mut Vec<u8>,
    coverage: &Coverage<'_>,
    rule_text: &[u8],
) -> Result<(), AllocError> {
    let rule_file = RuleFile::of(alloc, rule_text)?;
    push_shares(text, coverage)?;
    for found in &coverage.rules {
        push_rule(text, &rule_file, found)?;
    }
    for number in &coverage.unclaimed {
        push_unclaimed(text, &rule_file, *number)?;
    }
    push_unreached(text, coverage)
}
