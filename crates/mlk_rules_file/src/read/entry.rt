// Entries in rule files.

ghost use Rattle.toml.specs.View.{view};
ghost use Rattle.mlk_text.specs.Failures.{Answers};
ghost use Rattle.mlk_rules_file.specs.RuleSections.{entry_of};

use crate::read::fault::{RulesFault, Section, refusal_at};
use crate::read::tables::text_key;
use mlk_text::{Code, Failure, Value, spelling};
use std::alloc::Global;

/// Reads the entry `element`, which has the index `index`.
#[tactic(auto, unfolding(crate::specs::RuleSections::entry_of))]
pub fn entry(
    alloc: Global,
    index: usize,
    element: &toml::Value,
) -> Result<Value, Failure<RulesFault>>
    ensures { Answers (λ x. x) result (entry_of index (view element.now)) }
{
    let Some(label) = text_key(Section::Entry, "label", element) else {
        return Err(refusal_at(Code::Key, Section::Entry, index));
    };
    if spelling::entry(label.as_bytes()).is_none() {
        return Err(refusal_at(Code::Pattern, Section::Entry, index));
    }
    Ok(Value::new(Vec::from_slice(alloc, label.as_bytes())?))
}
