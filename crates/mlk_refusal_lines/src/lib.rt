//! The lines that say why there is no answer: which input is refused, which file can't be read, which code is unknown.
#![tactic(auto)]

mod codes;
mod lines;

pub use codes::{events_code, refusal_code};
pub use lines::{
    baseline_line, certificate_line, events_line, fault_line, file_line, missing_line,
    no_page_line, rules_line, stuck_line, workers_line,
};
