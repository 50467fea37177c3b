// The places at which faults are mended.

use mlk_program::EntryId;
use mlk_walk_exprs::Fault;

/// What is mended at a place.
#[derive(Clone, Copy, Drop, PartialEq, Eq, PartialOrd, Ord)]
pub(crate) enum Remedy {
    /// the touch there
    Touch,
    /// the touch there, and those in the entry's lines that need the same lock
    TouchesOfLock,
    /// the touch there, and all others of its global in the routine
    TouchesOfGlobal,
    /// the argument of LOCK there
    Lock,
    /// the call by DO or JOB there
    Call,
}

/// A place at which a fault is mended.
#[derive(Clone, Copy, Drop, PartialEq, Eq, PartialOrd, Ord)]
pub(crate) struct Site {
    /// the entry whose lines have it
    pub(crate) entry: EntryId,
    pub(crate) fault: Fault,
    pub(crate) remedy: Remedy,
}
