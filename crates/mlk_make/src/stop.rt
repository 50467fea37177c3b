// Reasons why the maker stops.

use mlk_cert::CertFault;
use mlk_program::EntryId;
use mlk_text::{Failure, Value};
use mlk_walk_exprs::Fault;
use thiserror::Error;

/// Why no certificate was made.
#[derive(Debug, Drop, Error)]
pub enum MakeError {
    /// the text of a declared entry that the program does not have
    #[error("a declared entry is not in the program")]
    EntryMissing(Value),
    /// the text of the certificate is longer than this limit
    #[error("{0}")]
    TooLong(CertFault),
    /// the maker gave up
    #[error("{0}")]
    GaveUp(GaveUp),
}

/// A place at which the maker gave up: what would mend this fault of the entry exceeds a limit of certificates, or comes in the last
/// round.
#[derive(Clone, Copy, Debug, Drop, Error)]
#[error("no certificate was made: {}, at line {}, column {}", .fault.code, .fault.line, .fault.column)]
pub struct GaveUp {
    pub entry: EntryId,
    pub fault: Fault,
}

/// What the maker does with an entry at which it gives up.
#[derive(Clone, Copy, Drop, PartialEq, Eq)]
pub(crate) enum WhenStuck {
    /// it makes no certificate
    Stop,
    /// it leaves what is known of the entry as it is, and continues with the others
    Leave,
}

/// Why the walk of an entry stops.
#[derive(Clone, Copy, Debug, Drop, Error)]
pub(crate) enum Stop {
    /// its needs have grown, so its lists begin again
    #[error("the entry needs more, so its lists begin again")]
    Anew,
    /// what would mend this fault exceeds a limit
    #[error("more than a certificate may say: {}, at line {}, column {}", .0.code, .0.line, .0.column)]
    Full(Fault),
}

/// Gives up at `fault` of `entry`.
pub(crate) fn give_up_at<T>(entry: EntryId, fault: Fault) -> Result<T, Failure<GaveUp>> {
    Err(Failure::Refused(GaveUp { entry, fault }))
}
