//! The reader of rule files. `mlk_rules` has the meaning of the rules.
#![tactic(auto)]

mod law;
mod read;

pub use law::{are_written, one_answer};
pub use mlk_rules::{
    Cover, Element, Family, Pattern, ReadPolicy, RuleLists, Rules, Template, TemplatePart,
    check_reference, computed_answers, covered_apart, entries, first_meeting, lock_of_node,
    marked_alike, may_meet, one_rank, rank_of, share_pattern, surely_lies, templates,
};
pub use read::{RulesFault, Section, read_rules};
