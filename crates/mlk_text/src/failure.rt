// Why a call failed: out of memory, or for a reason.

ghost use Rattle.mlk_text.specs.declared.failure.Failure.TheVariants.{OutOfMemory};
ghost use Rattle.mlk_text.specs.Failures.{IsTurned};
ghost use Rattle.std.specs.Prelude.{◌≡◌};

use std::alloc::{AllocError, AllocFailed};
use std::fmt::Display;
use thiserror::Error;

/// Why a call failed: `OutOfMemory`, which says nothing about the input, or `Refused` with the reason.
#[derive(Debug, Drop, Error)]
#[error_bound(E: Display)]
pub enum Failure<E> {
    #[error("out of memory")]
    OutOfMemory,
    #[error("{0}")]
    Refused(E),
}

impl<E> From<AllocError> for Failure<E> {
    ghost from_gives = { λ _ e. e ≡ OutOfMemory };

    fn from(_e: AllocError) -> Failure<E> {
        Failure::OutOfMemory
    }
}

impl<T: Drop, E> From<AllocFailed<T>> for Failure<E> {
    ghost from_gives = { λ _ e. e ≡ OutOfMemory };

    fn from(_e: AllocFailed<T>) -> Failure<E> {
        Failure::OutOfMemory
    }
}

/// Drops `_read`, which was read before the failure, and returns `failure`. The value is freed here and not in the reader,
/// because a function clears all its slots on entry, those for dropping included.
#[inline(always)]
pub fn drop_and_return<T: Drop, E: Drop>(_read: T, failure: E) -> E
    ensures { result ≡ failure }
{
    failure
}

impl<E> Failure<E> {
    /// Replaces the reason by `turn` of it, for example by one that has a place.
    pub fn map<F, M: FnOnce(E) -> F>(self, turn: M) -> Failure<F>
    where
        M: Drop,
        requires { M.IsAlwaysCallable turn }
        ensures { IsTurned (M.post turn) self result }
    {
        match self {
            Failure::OutOfMemory => Failure::OutOfMemory,
            Failure::Refused(reason) => Failure::Refused(turn(reason)),
        }
    }
}
