// What a fault is about.

use crate::lock::FaultyLock;
use mlk_explain_origins::Origin;
use mlk_names::{LockTerm, prefix};
use mlk_program::EntryId;
use mlk_text::Code;
use mlk_walk::Row;
use mlk_walk_exprs::{Mend, Note};
use std::alloc::{AllocError, Global};

/// What a fault is about.
#[derive(Drop)]
pub(crate) struct Subject {
    /// the locks that are missing, acquired or released, in the terms of the fault's entry
    pub(crate) locks: Vec<FaultyLock>,
    /// at a call whose need is not met, the locks that are missing where the need comes from
    pub(crate) behind: Vec<FaultyLock>,
    /// the locks that are held in place of those that are missing
    pub(crate) alike: Vec<FaultyLock>,
    /// the name of a global that no rule has, or of a lock that no rule ranks, as M writes it
    pub(crate) unruled: Option<Vec<u8>>,
    /// whether the fault's entry, or the one that is called there, needs less than it did before anything was mended
    pub(crate) needs_less: bool,
}

/// The locks that `note` names as missing.
pub(crate) fn missing_in(note: &Note) -> &[LockTerm] {
    match &note.mend {
        Mend::Locks(terms) => terms.as_slice(),
        _ => &[],
    }
}

// Adds a lock in the terms of `entry`, at a fault with this code.
fn add_term(
    locks: &mut Vec<FaultyLock>,
    entry: EntryId,
    term: &LockTerm,
    code: Code,
) -> Result<(), AllocError> {
    locks.push(FaultyLock {
        entry,
        term: term.clone()?,
        is_cut: false,
        is_released: code == Code::NotHeld,
    })?;
    Ok(())
}

// Whether two locks have one root, and neither is above the other.
fn is_alike(term: &LockTerm, other: &LockTerm) -> bool {
    term.root == other.root && !prefix(term, other) && !prefix(other, term)
}

impl Subject {
    /// The subject of a fault that is about nothing but its place.
    pub(crate) fn new(alloc: Global) -> Subject {
        Subject {
            locks: Vec::new(alloc),
            behind: Vec::new(alloc),
            alike: Vec::new(alloc),
            unruled: None,
            needs_less: false,
        }
    }

    /// Adds the locks that are missing where a row's fault is, and those that are held in their place.
    pub(crate) fn add_missing(&mut self, row: &Row, note: &Note) -> Result<(), AllocError> {
        let missing = missing_in(note);
        for term in missing {
            add_term(&mut self.locks, row.entry, term, row.fault.code)?;
        }
        let Some(situation) = &note.situation else {
            return Ok(());
        };
        for term in situation.held.as_slice() {
            if missing.iter().any(|other| is_alike(term, other)) {
                add_term(&mut self.alike, row.entry, term, row.fault.code)?;
            }
        }
        Ok(())
    }

    /// Adds the locks that are missing at the places behind a need.
    pub(crate) fn add_behind(&mut self, origins: &[Origin]) -> Result<(), AllocError> {
        for origin in origins {
            for term in missing_in(&origin.note) {
                add_term(&mut self.behind, origin.entry, term, origin.fault.code)?;
            }
        }
        Ok(())
    }
}
