//! A suggestion of rules as a rule file with comments, which is read back before it is printed.
#![tactic(auto)]

mod element;
mod file;
mod lists;
mod remark;
mod rule_text;
mod spelling;
mod suggestion;
mod view;

pub use mlk_suggest_read::RoutineText;
pub use mlk_suggest_rules::KnownRules;
pub use rule_text::{RuleText, checked_text};
pub use suggestion::suggested_rules;
