//! What the commands make of a program and its rules: a certificate, the report by one, what is shown of jobs after events; and a
//! certificate in another format. Or why there is none.
#![tactic(auto)]

mod checking;
mod conversion;
mod gate;
mod making;
mod refusal;
mod replaying;

pub use checking::report_by_certificate;
pub use conversion::convert;
pub use gate::OpenGate;
pub use making::{certificate_for, certificate_text};
pub use mlk_pool::CheckError;
pub use refusal::NoReport;
pub use replaying::{Showing, declared_entries, jobs_text};
