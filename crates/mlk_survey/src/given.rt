// The routines that are given, and their labels.

use crate::refused::RefusedRoutine;
use indexmap::IndexMap;
use mlk_syntax::{Callee, Line, Routine};
use std::alloc::{AllocError, Global};

/// The callee of a call: a routine, and its label, which is empty if the first line is called.
#[derive(Clone, Copy, Drop, PartialEq, Eq, PartialOrd, Ord, Hash)]
pub struct CalledLabel<'a> {
    pub routine: &'a [u8],
    pub label: &'a [u8],
}

impl<'a> CalledLabel<'a> {
    /// The callee of a call in the routine `routine`.
    pub(crate) fn of(routine: &'a [u8], callee: &'a Callee) -> CalledLabel<'a> {
        let called = match &callee.routine {
            None => routine,
            Some(name) => name.as_bytes(),
        };
        let label: &'a [u8] = match &callee.label {
            None => b"",
            Some(label) => label.as_bytes(),
        };
        CalledLabel {
            routine: called,
            label,
        }
    }
}

/// The length of a list of formals or of actuals.
#[derive(Clone, Copy, Drop, PartialEq, Eq)]
pub enum ListLength {
    /// there is no list
    NoList,
    Items(usize),
}

/// What is missing for a call.
#[derive(Clone, Copy, Drop, PartialEq, Eq)]
pub enum Lack {
    /// the routine is not given
    Routine,
    /// the routine was read, and does not have the line
    Label,
}

// Whether a routine that is given was read.
#[derive(Clone, Copy, Drop)]
enum Reading {
    Read,
    Refused,
}

// The names of the routines that are given.
#[derive(Drop)]
struct Routines<'a> {
    names: IndexMap<&'a [u8], Reading>,
}

impl<'a> Routines<'a> {
    fn of(
        alloc: Global,
        routines: &[&'a Routine],
        refused: &[RefusedRoutine<'a>],
    ) -> Result<Routines<'a>, AllocError> {
        let mut given = Routines {
            names: IndexMap::new(alloc),
        };
        for routine in routines {
            given.add(routine.name.as_bytes(), Reading::Read)?;
        }
        for routine in refused {
            given.add(routine.position.routine, Reading::Refused)?;
        }
        Ok(given)
    }

    fn add(&mut self, name: &'a [u8], reading: Reading) -> Result<(), AllocError> {
        let Ok(_) = self.names.insert(name, reading) else {
            return Err(AllocError);
        };
        Ok(())
    }

    fn reading(&self, name: &[u8]) -> Option<Reading> {
        self.names.get(name).copied()
    }
}

// The labels of the routines that were read, and their first lines, with the lengths of their formal lists.
#[derive(Drop)]
struct Labels<'a> {
    labels: IndexMap<CalledLabel<'a>, ListLength>,
}

impl<'a> Labels<'a> {
    fn of(alloc: Global, routines: &[&'a Routine]) -> Result<Labels<'a>, AllocError> {
        let mut given = Labels {
            labels: IndexMap::new(alloc),
        };
        for routine in routines {
            given.add_routine(routine)?;
        }
        Ok(given)
    }

    // Adds a line under one of its names.
    fn add(&mut self, called: CalledLabel<'a>, line: &Line) -> Result<(), AllocError> {
        let formals = match line.formals.as_ref() {
            None => ListLength::NoList,
            Some(formals) => ListLength::Items(formals.as_slice().len()),
        };
        let Ok(_) = self.labels.insert(called, formals) else {
            return Err(AllocError);
        };
        Ok(())
    }

    fn add_line(&mut self, routine: &'a [u8], line: &'a Line) -> Result<(), AllocError> {
        let Some(label) = line.label.as_ref() else {
            return Ok(());
        };
        let label = label.as_bytes();
        self.add(CalledLabel { routine, label }, line)
    }

    fn add_routine(&mut self, routine: &'a Routine) -> Result<(), AllocError> {
        let name = routine.name.as_bytes();
        if let Some(first) = routine.lines.first() {
            let called = CalledLabel {
                routine: name,
                label: b"",
            };
            self.add(called, first)?;
        }
        for line in &routine.lines {
            self.add_line(name, line)?;
        }
        Ok(())
    }

    fn has(&self, called: &CalledLabel<'_>) -> bool {
        self.labels.contains_key(called)
    }

    fn formals(&self, called: &CalledLabel<'_>) -> Option<ListLength> {
        self.labels.get(called).copied()
    }
}

/// The routines that are given, whether each was read, and the labels of those that were.
#[derive(Drop)]
pub(crate) struct Given<'a> {
    routines: Routines<'a>,
    labels: Labels<'a>,
}

impl<'a> Given<'a> {
    /// The routines `routines`, which were read, and those that are refused.
    pub(crate) fn of(
        alloc: Global,
        routines: &[&'a Routine],
        refused: &[RefusedRoutine<'a>],
    ) -> Result<Given<'a>, AllocError> {
        Ok(Given {
            routines: Routines::of(alloc, routines, refused)?,
            labels: Labels::of(alloc, routines)?,
        })
    }

    /// The length of the formal list of the called line; `None` if there is no such line.
    pub(crate) fn formals(&self, called: &CalledLabel<'a>) -> Option<ListLength> {
        self.labels.formals(called)
    }

    /// What is missing for a call of `called`, or `None`. The labels of a routine that was refused are not known.
    pub(crate) fn lack(&self, called: &CalledLabel<'a>) -> Option<Lack> {
        if self.labels.has(called) {
            return None;
        }
        match self.routines.reading(called.routine) {
            None => Some(Lack::Routine),
            Some(Reading::Read) => Some(Lack::Label),
            Some(Reading::Refused) => None,
        }
    }
}
