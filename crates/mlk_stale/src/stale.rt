// Writes of values that may be out of date.

use mlk_names::{LockTerm, Reference};
use mlk_survey_trees::Position;

/// A read of a global on a path, with its place.
#[derive(Clone, Drop)]
pub struct ReadAt<'a> {
    pub position: Position<'a>,
    pub reference: Reference,
}

/// A moment on a path before a write.
#[derive(Drop)]
pub struct Gap {
    /// the locks that are held at it
    pub held: Vec<LockTerm>,
    /// what is read between it and the write
    pub later_reads: Vec<Reference>,
}

/// A write on a path, and why it is stale.
///
/// Locals in subscripts are names of values: each denotes one value on the whole path.
#[derive(Drop)]
pub struct StaleWrite<'a> {
    pub position: Position<'a>,
    pub written: Reference,
    /// the read that the written value comes from
    pub source: ReadAt<'a>,
    /// a moment between the read and the write
    pub gap: Gap,
    /// the locks that are held at the write
    pub held: Vec<LockTerm>,
}
