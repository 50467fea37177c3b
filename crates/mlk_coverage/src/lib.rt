//! How much of a program a report is about: the lines that declared entries reach, how often these touch what each rule is about,
//! and what nothing reaches, meets or claims.
#![tactic(auto)]

mod coverage;
mod gap;
mod labels;
mod marks;
mod reach;
mod rule_use;
mod touches;

pub use coverage::{Coverage, Share, coverage_of};
pub use gap::{GAP_KINDS, Gap, GapKind, GapPlace, gaps_of};
pub use labels::UnreachedLabel;
pub use rule_use::{RuleId, RuleKind, RuleUse};
