//! Verdicts of entries, and reports of programs.
#![tactic(auto)]

mod begin;
mod check;
mod entry;
mod law;
mod line;
mod missing;
mod parts;
mod report;
mod split;
mod verdict;

pub use check::{Checks, check_entry, report_of, verdict_by, verdict_of};
pub use law::faults_in_order;
pub use line::{check_line, walk_line};
pub use missing::missing_entry;
pub use parts::{Pieces, Unseen};
pub use report::{Report, Row};
pub use split::{DEEPEST_CUT, verdict_split};
pub use verdict::Verdict;
