//! The plain text of a report: a line for each fault, and the answer.
#![tactic(auto)]

mod rendering;
mod text;

pub use rendering::{push_answer, report_text};
pub use text::ReportText;
