//! The smallest parts of M's expressions: operators, numeric literals, the counts and codes of patterns, and words after `$`.
#![tactic(auto)]

pub mod lexeme;
pub mod numeral;
pub mod words;
