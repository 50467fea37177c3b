// Why a command has no answer.

ghost use Rattle.std.specs.Prelude.{◌≡◌};
ghost use Rattle.mlk_pool.specs.Errors.{error_of_routine, error_of_rules, error_of_certificate};
ghost use Rattle.mlk_outcome.specs.Refusals.{no_memory, refusal_of_events};
ghost use Rattle.mlk_outcome.specs.declared.refusal.NoReport.TheVariants as refusal;

use mlk_cert::CertFault;
use mlk_machine::EventsFault;
use mlk_pool::CheckError;
use mlk_rules_file::RulesFault;
use mlk_text::{Failure, Fault, Value};
use std::alloc::AllocError;
use thiserror::Error;

/// Why there is no report, no certificate, or nothing to show of jobs.
#[derive(Debug, Drop, Error)]
pub enum NoReport {
    /// What the check itself answers, at a gate that is always open.
    #[error("{0}")]
    Check(CheckError),
    /// No certificate was made: the text of the entry, and the fault at which the maker gave up.
    #[error("no certificate was made: {}, at line {}, column {}", .1.code, .1.line, .1.column)]
    GaveUp(Value, mlk_walk_exprs::Fault),
    #[error("{0}")]
    Events(EventsFault),
}

impl From<AllocError> for NoReport {
    ghost from_gives = { λ _ r. r ≡ no_memory };

    fn from(_e: AllocError) -> NoReport {
        NoReport::Check(CheckError::OutOfMemory)
    }
}

impl From<Failure<Fault>> for NoReport {
    ghost from_gives = { λ e r. r ≡ refusal.Check (error_of_routine e) };

    fn from(failure: Failure<Fault>) -> NoReport {
        NoReport::Check(CheckError::from(failure))
    }
}

impl From<Failure<RulesFault>> for NoReport {
    ghost from_gives = { λ e r. r ≡ refusal.Check (error_of_rules e) };

    fn from(failure: Failure<RulesFault>) -> NoReport {
        NoReport::Check(CheckError::from(failure))
    }
}

impl From<Failure<CertFault>> for NoReport {
    ghost from_gives = { λ e r. r ≡ refusal.Check (error_of_certificate e) };

    fn from(failure: Failure<CertFault>) -> NoReport {
        NoReport::Check(CheckError::from(failure))
    }
}

impl From<Failure<EventsFault>> for NoReport {
    ghost from_gives = { λ e r. r ≡ refusal_of_events e };

    fn from(failure: Failure<EventsFault>) -> NoReport {
        match failure {
            Failure::OutOfMemory => NoReport::Check(CheckError::OutOfMemory),
            Failure::Refused(fault) => NoReport::Events(fault),
        }
    }
}
