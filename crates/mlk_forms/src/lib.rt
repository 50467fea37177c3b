//! Reports, refusals and surveys in the form that the command line asks for: as text, as JSON, or as SARIF; and pages of codes.
#![tactic(auto)]

mod answer;
mod coverage;
mod notice;
mod page;
mod report;
mod row;
mod shown;
mod survey;
mod warning;

pub use mlk_output::{Notice, NoticePlace, ReportSources};
pub use notice::{render_given_up, render_notice};
pub use page::render_pages;
pub use report::{Explanations, PrintedReport, render_report};
pub use survey::{PrintedSurvey, render_survey};
