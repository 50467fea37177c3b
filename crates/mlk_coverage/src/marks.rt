// Marks of the lines of a program.

use mlk_program::EntryId;
use mlk_syntax::Routine;
use mlk_text::push_sparing;
use std::alloc::{AllocError, Global};

/// Whether a line is reached.
#[derive(Clone, Copy, Drop, PartialEq, Eq)]
pub(crate) enum Mark {
    Unreached,
    /// a call goes to it, and its lines are still to be looked at
    Awaited,
    Reached,
}

/// A mark of each line of level 1 of a program.
#[derive(Drop)]
pub(crate) struct Marks {
    // where the marks of each routine begin
    firsts: Vec<usize>,
    marks: Vec<Mark>,
}

impl Marks {
    /// Marks of the lines of `routines`, none of which is reached.
    pub(crate) fn of(alloc: Global, routines: &[Routine]) -> Result<Marks, AllocError> {
        let mut firsts = Vec::with_capacity(alloc, routines.len())?;
        let mut marks = Vec::new(alloc);
        for routine in routines {
            push_sparing(&mut firsts, marks.len())?;
            for _ in &routine.lines {
                push_sparing(&mut marks, Mark::Unreached)?;
            }
        }
        Ok(Marks { firsts, marks })
    }

    /// The number of lines.
    pub(crate) fn len(&self) -> usize {
        self.marks.len()
    }

    // The index of the mark of the line at `place`, or `None` if the program has no such routine.
    fn index(&self, place: EntryId) -> Option<usize> {
        let first = self.firsts.get(place.routine())?;
        Some(first.saturating_add(place.line()))
    }

    /// Sets the mark of the line at `place`, and returns the one that it had.
    pub(crate) fn replace(&mut self, place: EntryId, mark: Mark) -> Option<Mark> {
        let index = self.index(place)?;
        let old = self.marks.get_mut(index)?;
        let before = *old;
        *old = mark;
        Some(before)
    }

    /// Whether the line at `place` is reached.
    pub(crate) fn is_reached(&self, place: EntryId) -> bool {
        match self.index(place) {
            Some(index) => matches!(self.marks.get(index), Some(Mark::Reached)),
            None => false,
        }
    }

    /// The number of reached lines.
    pub(crate) fn reached(&self) -> usize {
        self.marks
            .iter()
            .filter(|mark| **mark == Mark::Reached)
            .count()
    }
}
