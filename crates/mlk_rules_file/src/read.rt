// The reader of rule files.

mod cover;
mod document;
mod entry;
mod family;
mod fault;
mod kinds;
mod number;
mod pattern;
mod quoted;
mod sections;
mod spelling;
mod tables;

pub use document::read_rules;
pub use fault::{RulesFault, Section};
