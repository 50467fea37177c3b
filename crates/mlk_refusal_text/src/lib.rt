//! Explanations of refusals for people: the line at which the input was refused, with a caret, what is wrong there, and what
//! helps. The line of the refusal itself is written by `mlk_refusal_lines`.
#![tactic(auto)]

mod dialect;
mod element;
mod exchange;
mod explanation;
mod file;
mod left_out;
mod routine;
mod rule_file;
mod rule_finding;
mod rule_lines;
mod spelling;

pub use dialect::extended_note;
pub use explanation::{GivenFile, Spot};
pub use file::{code_help, entry_help, entry_place, line_help, unread_help};
pub use routine::routine_help;
pub use rule_file::{rules_help, rules_place};
