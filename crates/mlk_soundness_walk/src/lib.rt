//! What a report without faults says about each run of one job.
#![tactic(auto)]

mod law;

pub use law::{clean_entries, entries_by_commands, one_job};
