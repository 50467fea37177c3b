//! The results of a survey, as text and as JSON.
#![tactic(auto)]

mod json;
mod lines;
mod text;
mod values;

pub use json::survey_json;
pub use text::survey_text;
