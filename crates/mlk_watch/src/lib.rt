//! Progress reporting for long-running work.
#![tactic(auto)]

use std::alloc::Global;

/// A stage of the work.
#[derive(Clone, Copy, Drop, PartialEq, Eq)]
pub enum Stage {
    /// reading the texts of routines
    Reading,
    /// making a certificate, in this round, counted from 1
    Making(usize),
    /// checking the entries by a certificate
    Checking,
}

/// An observer of the progress of long-running work. It does not affect the work.
pub trait Watch {
    /// `done` of `of` routines are finished in `stage`, or of entries while they are checked. Called very often.
    fn see(&self, stage: Stage, done: usize, of: usize);

    /// All work is finished, and other output may follow.
    fn end(&self);

    /// Takes a value that is not needed any more. If the process ends soon, it may be leaked: the system then frees all memory at
    /// once.
    fn discard<T: Drop>(&self, value: T);
}

/// Who runs: what starts threads, the allocator, and who watches.
#[derive(Drop)]
pub struct Runner<'x, R, W> {
    pub rt: &'x R,
    pub alloc: Global,
    pub watch: &'x W,
}

/// A `Watch` that ignores everything.
#[derive(Clone, Copy, Drop)]
pub struct Unwatched;

impl Watch for Unwatched {
    fn see(&self, _stage: Stage, _done: usize, _of: usize) {}

    fn end(&self) {}

    fn discard<T: Drop>(&self, _value: T) {}
}
