// Reads and writes on a path.

use crate::judge::{is_open, is_stale, reads_written};
use crate::path::{Moment, Path};
use crate::stale::{Gap, ReadAt, StaleWrite};
use crate::walk::Walk;
use mlk_names::{Access, Reference};
use mlk_stale_steps::{Amount, Use};
use mlk_survey_trees::Position;
use mlk_text::push_sparing;
use std::alloc::AllocError;

impl<'a> Walk<'_, 'a> {
    // Adds a read of `reference` at `place`, and returns its number.
    fn make_read(
        &mut self,
        path: &mut Path<'a>,
        place: &Use<'a>,
        reference: Reference,
    ) -> Result<usize, AllocError> {
        let number = self.reads.len();
        let read = ReadAt {
            position: place.position(),
            reference,
        };
        push_sparing(&mut self.reads, read)?;
        push_sparing(&mut path.reads, number)?;
        Ok(number)
    }

    /// Reads a global, whose subscripts are on the stack.
    pub(crate) fn read(&mut self, path: &mut Path<'a>, place: &Use<'a>) -> Result<(), AllocError> {
        let reference = path.take_reference(self.alloc, place, Access::Reads)?;
        let number = self.make_read(path, place, reference)?;
        let mut reads = Vec::new(self.alloc);
        push_sparing(&mut reads, number)?;
        path.put(self.namer.make_value(reads)?)
    }

    // The last moment on `path` at which the held locks let other jobs write the node that `read` reads and `written` writes.
    fn last_open(&self, path: &Path<'a>, read: &Reference, written: &Reference) -> Option<&Moment> {
        for number in path.moments.iter().rev() {
            let Some(moment) = self.moments.get(*number) else {
                continue;
            };
            if is_open(self.rules, moment.held.as_slice(), read, written) {
                return Some(moment);
            }
        }
        None
    }

    // The gap before the next step of `path` that begins at `moment`.
    fn gap_since(&self, path: &Path<'a>, moment: &Moment) -> Result<Gap, AllocError> {
        let mut later_reads = Vec::new(self.alloc);
        for number in &path.reads {
            if *number < moment.reads {
                continue;
            }
            if let Some(read) = self.reads.get(*number) {
                push_sparing(&mut later_reads, read.reference.clone()?)?;
            }
        }
        Ok(Gap {
            held: moment.held.clone()?,
            later_reads,
        })
    }

    // The write at `place` of the node `written`, whose value comes from the read `number`, or `None` if it is not stale.
    fn stale_write(
        &self,
        path: &Path<'a>,
        place: &Use<'a>,
        written: &Reference,
        number: usize,
    ) -> Result<Option<StaleWrite<'a>>, AllocError> {
        let Some(source) = self.reads.get(number) else {
            return Ok(None);
        };
        if !reads_written(&source.reference, written) {
            return Ok(None);
        }
        let Some(moment) = self.last_open(path, &source.reference, written) else {
            return Ok(None);
        };
        let write = StaleWrite {
            position: place.position(),
            written: written.clone()?,
            source: source.clone()?,
            gap: self.gap_since(path, moment)?,
            held: path.held_locks(self.alloc)?,
        };
        if is_stale(self.rules, &write) {
            Ok(Some(write))
        } else {
            Ok(None)
        }
    }

    // Whether a stale write at `position` was found.
    fn has_found(&self, position: &Position<'a>) -> bool {
        self.found.iter().any(|write| write.position == *position)
    }

    // Adds the write at `place` of the node `written`, whose value comes from the reads `sources`, if it is stale by one of them.
    fn check_write(
        &mut self,
        path: &Path<'a>,
        place: &Use<'a>,
        written: &Reference,
        sources: &[usize],
    ) -> Result<(), AllocError> {
        let position = place.position();
        for number in sources {
            if self.has_found(&position) {
                return Ok(());
            }
            if let Some(write) = self.stale_write(path, place, written, *number)? {
                push_sparing(&mut self.found, write)?;
            }
        }
        Ok(())
    }

    /// Writes the last value on the stack, which is above the subscripts. If only a part of the node is written, the rest of it is
    /// read first.
    pub(crate) fn write(
        &mut self,
        path: &mut Path<'a>,
        place: &Use<'a>,
        amount: Amount,
    ) -> Result<(), AllocError> {
        let last = path.stack.pop();
        let value = self.namer.known_or_made(last)?;
        let mut reference = path.take_reference(self.alloc, place, Access::Writes)?;
        self.check_write(path, place, &reference, value.reads.as_slice())?;
        if amount == Amount::Part {
            reference.access = Access::Reads;
            let _ = self.make_read(path, place, reference)?;
        }
        path.put(value)
    }
}
