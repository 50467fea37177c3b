// The rules of a run: what each code and each hazard means, and what helps.

use crate::hazard::HAZARD_MEANINGS;
use mlk_code_pages::{CODES, Page, page_of};
use mlk_coverage::GAP_KINDS;
use mlk_report_text::Piece::{Number, Words};
use mlk_report_text::{Field, member, object, text_of};
use mlk_text::Code;
use serde_json::Value;
use std::alloc::{AllocError, Global};

/// The id of the rule of a code: its number.
pub(crate) fn rule_id(alloc: Global, code: Code) -> Result<Vec<u8>, AllocError> {
    text_of(alloc, &[Number(usize::from(code.number()))])
}

// What mends what the page is of, with its example.
fn help_text(alloc: Global, page: &Page) -> Result<String, AllocError> {
    let mend = page.mend;
    let before = page.before;
    let after = page.after;
    format!(in alloc; "{mend}\n\nExample:\n\n{before}\n\nMended:\n\n{after}\n")
}

// The rule of a code.
fn rule_value(alloc: Global, page: &Page) -> Result<Value, AllocError> {
    let id = rule_id(alloc, page.code)?;
    let meaning = member(alloc, "text", Field::Text(page.meaning))?;
    let why = member(alloc, "text", Field::Text(page.why))?;
    let help = help_text(alloc, page)?;
    let help = member(alloc, "text", Field::Text(help.as_str()))?;
    let level = member(alloc, "level", Field::Text("error"))?;
    let members = vec![in alloc;
        ("id", Field::Made(id)),
        ("name", Field::Bytes(page.code.word())),
        ("shortDescription", Field::Value(meaning)),
        ("fullDescription", Field::Value(why)),
        ("help", Field::Value(help)),
        ("defaultConfiguration", Field::Value(level)),
    ]?;
    object(alloc, members)
}

/// The rules of all codes that the program answers, of refusals too.
pub(crate) fn rules_values(alloc: Global) -> Result<Vec<Value>, AllocError> {
    let mut values = Vec::new(alloc);
    for code in CODES.iter() {
        if *code != Code::GateShut {
            values.push(rule_value(alloc, page_of(*code))?)?;
        }
    }
    Ok(values)
}

// The rule of a hazard or a gap, by its word.
fn warning_rule_value(
    alloc: Global,
    word: &str,
    meaning: &str,
    advice: &str,
) -> Result<Value, AllocError> {
    let short = member(alloc, "text", Field::Text(meaning))?;
    let full = member(alloc, "text", Field::Text(meaning))?;
    let help = member(alloc, "text", Field::Text(advice))?;
    let level = member(alloc, "level", Field::Text("warning"))?;
    let members = vec![in alloc;
        ("id", Field::Text(word)),
        ("name", Field::Text(word)),
        ("shortDescription", Field::Value(short)),
        ("fullDescription", Field::Value(full)),
        ("help", Field::Value(help)),
        ("defaultConfiguration", Field::Value(level)),
    ]?;
    object(alloc, members)
}

/// The same rules, and those of hazards and gaps.
pub(crate) fn all_rules_values(alloc: Global) -> Result<Vec<Value>, AllocError> {
    let mut values = rules_values(alloc)?;
    for meaning in HAZARD_MEANINGS.iter() {
        let hazard = meaning.hazard;
        values.push(warning_rule_value(alloc, hazard.word(), meaning.is, hazard.advice())?)?;
    }
    for kind in GAP_KINDS.iter() {
        values.push(warning_rule_value(alloc, kind.word(), kind.meaning(), kind.advice())?)?;
    }
    Ok(values)
}
