//! The rules that apply to a fault, as the rule file has them.
#![tactic(auto)]

mod rule;

pub use rule::{RuleFile, free_reads, has_rules, rule_texts};
