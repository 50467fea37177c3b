//! The tasks of SET and MERGE once the values that they need were computed, and the touches of globals.
#![tactic(auto)]

mod assign;
mod merge;

pub use assign::{assignments, count_parts, global_touch};
pub use merge::{merge_source, merge_target};
