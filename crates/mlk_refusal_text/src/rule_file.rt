// Why a rule file is refused.

use crate::exchange::is_like_routine;
use crate::explanation::{Explanation, GivenFile, Spot};
use crate::rule_finding::{RefusedElement, RuleFinding, element_finding, toml_finding};
use mlk_code_pages::page_of;
use mlk_excerpts::TextLines;
use mlk_rules_file::RulesFault;
use std::alloc::{AllocError, Global};

const EXCHANGED: &str =
    "this looks like a routine; the rule file comes first: mlock verify RULES ROUTINE..";

// What is wrong with the text of a rule file, and where.
fn rule_finding(alloc: Global, text: &[u8], fault: &RulesFault) -> Result<RuleFinding, AllocError> {
    let lines = TextLines::of(alloc, text)?;
    match toml::table_from_slice(alloc, text) {
        Ok(table) => {
            let element = RefusedElement {
                lines: &lines,
                table: &table,
                section: fault.section,
                index: fault.index,
            };
            element_finding(alloc, &element, fault)
        }
        Err(error) => {
            if error.is_memory() {
                return Err(AllocError);
            }
            toml_finding(alloc, &lines, text, &error)
        }
    }
}

/// Explains why the rule file `file` is refused: the line and column, and what is wrong there; for invalid TOML in the words of
/// the TOML reader.
pub fn rules_help(
    alloc: Global,
    file: &GivenFile<'_>,
    fault: &RulesFault,
) -> Result<Vec<u8>, AllocError> {
    let found = rule_finding(alloc, file.text, fault)?;
    let note = if is_like_routine(file.path, file.text) {
        Some(EXCHANGED)
    } else {
        None
    };
    let it = Explanation {
        code: fault.code,
        file: Some(*file),
        spot: found.spot,
        what: found.what,
        help: page_of(fault.code).hint,
        note,
    };
    it.text(alloc)
}

/// Finds the place at which the rule file `text` is refused; `None` if the refusal is at no line.
pub fn rules_place(
    alloc: Global,
    text: &[u8],
    fault: &RulesFault,
) -> Result<Option<Spot>, AllocError> {
    let found = rule_finding(alloc, text, fault)?;
    Ok(found.spot)
}
