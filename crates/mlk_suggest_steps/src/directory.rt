// The labels of routines, and their units.

use crate::program::UnitId;
use indexmap::IndexMap;
use mlk_syntax::{Callee, Line, Routine};
use std::alloc::{AllocError, Global};

// A label of a routine; empty if the first line is called.
#[derive(Clone, Copy, Drop, PartialEq, Eq, Hash)]
struct CalledLabel<'a> {
    routine: &'a [u8],
    label: &'a [u8],
}

/// The units that begin at the labels of routines, and at their first lines.
#[derive(Drop)]
pub(crate) struct Directory<'a> {
    units: IndexMap<CalledLabel<'a>, UnitId>,
}

/// Whether a unit begins at `line`; `is_first` says whether it is the first of its routine.
pub(crate) fn begins_unit(is_first: bool, line: &Line) -> bool {
    is_first || line.label.is_some()
}

impl<'a> Directory<'a> {
    /// The labels of `routines`. Their units are numbered from 0 in the order of the lines at which they begin.
    pub(crate) fn of(alloc: Global, routines: &[&'a Routine]) -> Result<Directory<'a>, AllocError> {
        let mut directory = Directory {
            units: IndexMap::new(alloc),
        };
        let mut count: usize = 0;
        for routine in routines {
            count = directory.add_routine(routine, count)?;
        }
        Ok(directory)
    }

    // Adds a label of a routine, unless the routine has it already.
    fn add(&mut self, routine: &'a [u8], label: &'a [u8], unit: UnitId) -> Result<(), AllocError> {
        let key = CalledLabel { routine, label };
        if self.units.contains_key(&key) {
            return Ok(());
        }
        let Ok(_) = self.units.insert(key, unit) else {
            return Err(AllocError);
        };
        Ok(())
    }

    // Adds the labels of a routine, whose units are numbered from `first`, and returns the number after the last.
    fn add_routine(&mut self, routine: &'a Routine, first: usize) -> Result<usize, AllocError> {
        let name = routine.name.as_bytes();
        let mut count = first;
        for (place, line) in routine.lines.iter().enumerate() {
            if begins_unit(place == 0, line) {
                self.add_line(name, place == 0, line, UnitId { index: count })?;
                count = count.saturating_add(1);
            }
        }
        Ok(count)
    }

    // Adds the names by which a line at which a unit begins is called.
    fn add_line(
        &mut self,
        routine: &'a [u8],
        is_first: bool,
        line: &'a Line,
        unit: UnitId,
    ) -> Result<(), AllocError> {
        if is_first {
            self.add(routine, b"", unit)?;
        }
        match line.label.as_ref() {
            None => Ok(()),
            Some(label) => self.add(routine, label.as_bytes(), unit),
        }
    }

    /// The unit that `callee` names if it is called in `routine`; `None` if it is not among the routines.
    pub(crate) fn unit(&self, routine: &'a [u8], callee: &'a Callee) -> Option<UnitId> {
        let called = match &callee.routine {
            None => routine,
            Some(name) => name.as_bytes(),
        };
        let label: &'a [u8] = match &callee.label {
            None => b"",
            Some(label) => label.as_bytes(),
        };
        let key = CalledLabel {
            routine: called,
            label,
        };
        self.units.get(&key).copied()
    }
}
