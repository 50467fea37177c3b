// Why an event can't happen.

use thiserror::Error;

/// Why an event of a job can't happen.
#[derive(Clone, Copy, Debug, Drop, PartialEq, Eq, Error)]
pub enum Refusal {
    /// no job with this number has begun
    #[error("no job has begun with this number")]
    UnknownJob,
    /// the job can't do this now, or its number is used already
    #[error("the job can't do this now, or its number is used")]
    NotEnabled,
    /// a choice of the wrong kind, or more values than formals
    #[error("another kind of choice is asked, or there are more values than formals")]
    BadChoice,
}
