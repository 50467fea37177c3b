// Locks of rules: their subscripts are constants or subscripts of the reference that they protect.

use mlk_suggest::{Lock, Tables, is_above};
use mlk_suggest_steps::{LockName, LockRoot, Reference, Symbol, Word};
use mlk_text::push_sparing;
use std::alloc::{AllocError, Global};

/// A subscript of a rule's lock.
#[derive(Clone, Copy, Drop, PartialEq, Eq, PartialOrd, Ord, Hash)]
pub enum Part {
    /// a constant
    Constant(Word),
    /// the subscript of the reference at this index, from 0
    Place(usize),
}

/// The lock of a rule: its root and subscripts.
#[derive(Clone, Drop, PartialEq, Eq, Hash)]
pub struct LockPattern {
    pub root: LockRoot,
    pub parts: Vec<Part>,
}

// The index of a symbol among the subscripts of a reference, if it is known and there.
fn place_in(reference: &Reference, symbol: Symbol) -> Option<usize> {
    if symbol == Symbol::Unknown {
        return None;
    }
    reference
        .subscripts
        .iter()
        .position(|other| *other == symbol)
}

// The part of a rule's lock for a subscript of a lock name at a reference: an index or a constant. If both are possible,
// `constants_first` decides.
fn part_of(reference: &Reference, symbol: Symbol, constants_first: bool) -> Option<Part> {
    let constant = match symbol {
        Symbol::Constant(word) => Some(Part::Constant(word)),
        _ => None,
    };
    match place_in(reference, symbol) {
        Some(_) if constants_first && constant.is_some() => constant,
        Some(place) => Some(Part::Place(place)),
        None => constant,
    }
}

impl LockPattern {
    /// The lock of a rule that is `name` at `reference`; `None` if a subscript of `name` is neither a constant nor in the
    /// reference. `constants_first` says whether a constant that is in the reference stays a constant.
    pub(crate) fn of(
        alloc: Global,
        reference: &Reference,
        name: &LockName,
        constants_first: bool,
    ) -> Result<Option<LockPattern>, AllocError> {
        let mut parts = Vec::new(alloc);
        for symbol in &name.subscripts {
            match part_of(reference, *symbol, constants_first) {
                Some(part) => push_sparing(&mut parts, part)?,
                None => return Ok(None),
            }
        }
        Ok(Some(LockPattern {
            root: name.root,
            parts,
        }))
    }

    /// The number of subscripts that a reference must have to determine all subscripts of the lock.
    pub(crate) fn places(&self) -> usize {
        self.parts
            .iter()
            .map(|part| match part {
                Part::Constant(_) => 0,
                Part::Place(place) => place.saturating_add(1),
            })
            .max()
            .unwrap_or(0)
    }

    /// Whether the lock has subscripts, and none of them is one of the reference.
    pub(crate) fn is_constant(&self) -> bool {
        !self.parts.is_empty() && self.places() == 0
    }

    /// The subscripts of the lock at `reference`, up to the first that is unknown.
    pub(crate) fn subscripts_at(
        &self,
        alloc: Global,
        reference: &Reference,
    ) -> Result<Vec<Symbol>, AllocError> {
        let mut subscripts = Vec::new(alloc);
        for part in &self.parts {
            let symbol = match part {
                Part::Constant(word) => Symbol::Constant(*word),
                Part::Place(place) => reference
                    .subscripts
                    .get(*place)
                    .copied()
                    .unwrap_or(Symbol::Unknown),
            };
            if symbol == Symbol::Unknown {
                break;
            }
            push_sparing(&mut subscripts, symbol)?;
        }
        Ok(subscripts)
    }
}

/// Whether one of `locks` is the name with `root` and `subscripts`, or above it.
pub(crate) fn is_held(
    tables: &Tables,
    locks: &[Lock],
    root: LockRoot,
    subscripts: &[Symbol],
) -> bool {
    locks.iter().any(|lock| match tables.name(*lock) {
        Some(name) => is_above(name, root, subscripts),
        None => false,
    })
}
