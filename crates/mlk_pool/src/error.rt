// Why there is no report.

ghost use Rattle.std.specs.Prelude.{◌≡◌};
ghost use Rattle.mlk_pool.specs.Errors.{error_of_routine, error_of_rules, error_of_certificate, error_of_workers, ReportsEntry};
ghost use Rattle.mlk_pool.specs.declared.error.CheckError.TheVariants as error;

use crate::report::PoolFault;
use mlk_cert::CertFault;
use mlk_rules_file::RulesFault;
use mlk_text::{Failure, Fault, Value};
use std::alloc::{AllocError, Global};
use thiserror::Error;

/// Why the texts of a program have no report.
#[derive(Debug, Drop, Error)]
pub enum CheckError {
    #[error("out of memory")]
    OutOfMemory,
    /// a routine that is refused, or the linking of all
    #[error("{0}")]
    Routine(Fault),
    #[error("{0}")]
    Rules(RulesFault),
    #[error("{0}")]
    Certificate(CertFault),
    /// an entry of the rules, or of the certificate, that is not in the program: its text
    #[error("an entry of the rules or of the certificate is not in the program")]
    Entry(Value),
    /// There are no workers, or more than 64.
    #[error("the number of workers must be 1 to 64")]
    Workers,
    /// The gate let nobody pass to this one of the tasks, counted from 0.
    #[error("the gate lets nobody pass to task {0}")]
    GateShut(usize),
}

impl From<AllocError> for CheckError {
    ghost from_gives = { λ _ r. r ≡ error.OutOfMemory };

    fn from(_e: AllocError) -> CheckError {
        CheckError::OutOfMemory
    }
}

impl From<Failure<Fault>> for CheckError {
    ghost from_gives = { λ e r. r ≡ error_of_routine e };

    fn from(error: Failure<Fault>) -> CheckError {
        match error {
            Failure::OutOfMemory => CheckError::OutOfMemory,
            Failure::Refused(fault) => CheckError::Routine(fault),
        }
    }
}

impl From<Failure<RulesFault>> for CheckError {
    ghost from_gives = { λ e r. r ≡ error_of_rules e };

    fn from(error: Failure<RulesFault>) -> CheckError {
        match error {
            Failure::OutOfMemory => CheckError::OutOfMemory,
            Failure::Refused(fault) => CheckError::Rules(fault),
        }
    }
}

impl From<Failure<CertFault>> for CheckError {
    ghost from_gives = { λ e r. r ≡ error_of_certificate e };

    fn from(error: Failure<CertFault>) -> CheckError {
        match error {
            Failure::OutOfMemory => CheckError::OutOfMemory,
            Failure::Refused(fault) => CheckError::Certificate(fault),
        }
    }
}

impl From<Failure<PoolFault>> for CheckError {
    ghost from_gives = { λ e r. r ≡ error_of_workers e };

    fn from(error: Failure<PoolFault>) -> CheckError {
        match error {
            Failure::OutOfMemory => CheckError::OutOfMemory,
            Failure::Refused(PoolFault::Workers) => CheckError::Workers,
            Failure::Refused(PoolFault::GateShut(task)) => CheckError::GateShut(task),
        }
    }
}

/// Reports `entry`, which is not in the program (901).
pub(crate) fn entry_missing(alloc: Global, entry: &[u8]) -> CheckError
    ensures { ReportsEntry entry.now result }
{
    match Vec::from_slice(alloc, entry) {
        Ok(text) => CheckError::Entry(Value::new(text)),
        Err(_) => CheckError::OutOfMemory,
    }
}
