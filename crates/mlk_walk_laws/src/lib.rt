//! The walk of a line from fewer cases, and from each case alone.
#![tactic(auto)]

mod law;

pub use law::{each_alone, fewer_cases, lines_pass};
