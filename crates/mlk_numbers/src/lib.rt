//! Numbers as values: canonical texts of literals, and exact results of operators.
#![tactic(auto)]

mod folding;
mod law;
mod numeral;
mod truth;

pub use folding::{fold, fold_number, fold_unary, whole_number};
pub use law::{both_read, folds_are, literals_canonical, one_canonical, one_text, one_whole};
pub use numeral::canonical_text;
pub use truth::known_truth;
