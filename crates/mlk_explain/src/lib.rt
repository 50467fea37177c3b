//! Reports with explanations: below each fault its line of M, what was about to happen there, what was held, the rules that
//! apply, and what mends the fault; of a call the place behind what the callee asks for.
#![tactic(auto)]

mod explanation;
mod faults;
mod report;
mod story;
mod trail;

pub use faults::{ExplainedAs, ExplainedFaults};
pub use mlk_explain_origins::Grounds;
pub use mlk_explain_rules::{RuleFile, free_reads};
pub use report::{explained_rows, explained_rows_at, notes_below, stories_at, stories_of};
pub use story::{OriginStory, Story, WayPoint};
