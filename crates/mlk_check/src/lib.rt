//! The check of a program, and what its `yes` means for every run.
#![tactic(auto)]

mod check;
mod law;

pub use check::check_all;
pub use law::{replays_are_safe, safe_is_shown};
