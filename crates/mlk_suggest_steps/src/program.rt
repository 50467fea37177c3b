// Routines, as units of lines that run one after another.

use crate::step::{Call, Step};
use crate::word::{Word, Words};
use mlk_text::{LineNumber, push_sparing};
use std::alloc::{AllocError, Global};

/// A unit of a program, by its index.
#[derive(Clone, Copy, Drop, PartialEq, Eq, PartialOrd, Ord, Hash)]
pub struct UnitId {
    pub(crate) index: usize,
}

impl UnitId {
    /// The unit at the index `index`.
    pub fn new(index: usize) -> UnitId {
        UnitId { index }
    }

    /// The index of the unit.
    pub fn index(self) -> usize {
        self.index
    }
}

/// The origin of a unit.
#[derive(Clone, Copy, Drop, PartialEq, Eq)]
pub enum Origin<'a> {
    /// the first line of a routine, whatever its label
    First,
    /// a label on a later line
    Label(&'a [u8]),
    /// a DO without arguments on a line of the given unit: this one is the block below that line
    Block(UnitId),
}

/// Lines that run one after another: from a label up to the next one, or a block.
#[derive(Drop)]
pub struct Unit<'a> {
    pub origin: Origin<'a>,
    /// the name of its routine
    pub routine: &'a [u8],
    /// the label of its first line, if it has one
    pub label: Option<&'a [u8]>,
    /// its first line
    pub line: LineNumber,
    pub formals: Vec<Word>,
    /// whether its first line has a formal list
    pub has_formals: bool,
    /// the locals that its NEWs create
    pub own: Vec<Word>,
    /// the steps of each line, and at the end a call of the next unit if the last line continues into it
    pub lines: Vec<Vec<Step<'a>>>,
}

impl<'a> Unit<'a> {
    /// Whether it begins at a label or a first line, and is not a block.
    pub fn is_labelled(&self) -> bool {
        !matches!(self.origin, Origin::Block(_))
    }

    /// A unit that begins at `line`, without lines, formals and own locals.
    pub(crate) fn new(
        alloc: Global,
        origin: Origin<'a>,
        routine: &'a [u8],
        line: LineNumber,
    ) -> Unit<'a> {
        Unit {
            origin,
            routine,
            label: None,
            line,
            formals: Vec::new(alloc),
            has_formals: false,
            own: Vec::new(alloc),
            lines: Vec::new(alloc),
        }
    }
}

/// Routines as units, with their words.
#[derive(Drop)]
pub struct Program<'a> {
    pub words: Words<'a>,
    pub units: Vec<Unit<'a>>,
}

impl<'a> Program<'a> {
    /// The unit with `id`; `None` if it is of another program.
    pub fn unit(&self, id: UnitId) -> Option<&Unit<'a>> {
        self.units.get(id.index)
    }

    /// For each unit, those that call it, in the order of their calls. One that calls it twice may be listed twice.
    pub fn callers(&self, alloc: Global) -> Result<Vec<Vec<UnitId>>, AllocError> {
        let mut callers = Vec::with_capacity(alloc, self.units.len())?;
        for _ in &self.units {
            push_sparing(&mut callers, Vec::new(alloc))?;
        }
        for (index, unit) in self.units.iter().enumerate() {
            add_callers(&mut callers, UnitId { index }, unit)?;
        }
        Ok(callers)
    }
}

// Adds a caller of a unit, unless it is the last one already.
fn add_caller(
    callers: &mut Vec<Vec<UnitId>>,
    called: UnitId,
    caller: UnitId,
) -> Result<(), AllocError> {
    let Some(known) = callers.get_mut(called.index) else {
        return Ok(());
    };
    match known.last() {
        Some(last) if *last == caller => Ok(()),
        _ => push_sparing(known, caller),
    }
}

// Adds a unit to the callers of each unit that it calls.
fn add_callers(
    callers: &mut Vec<Vec<UnitId>>,
    id: UnitId,
    unit: &Unit<'_>,
) -> Result<(), AllocError> {
    for line in &unit.lines {
        for step in line {
            if let Step::Call(
                _,
                Call {
                    unit: Some(called),
                    ..
                },
            ) = step
            {
                add_caller(callers, *called, id)?;
            }
        }
    }
    Ok(())
}
