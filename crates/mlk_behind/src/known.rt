// Which faults were reported, and what else is found only because of them.

use crate::lock::FaultyLock;
use crate::subject::Subject;
use mlk_names::{LockTerm, prefix};
use mlk_program::EntryId;
use mlk_text::{Code, Root};
use mlk_walk::Row;
use mlk_walk_exprs::{Fault, Note};
use std::alloc::{AllocError, Global};
use std::collections::{BTreeMap, BTreeSet};

/// The faults that were reported. A further fault is known if it is one of these, or if what mends one of these may mend it too:
/// it is about the same lock in the same entry, or about a global or a lock for which a rule was missing before.
#[derive(Drop)]
pub struct KnownFaults {
    alloc: Global,
    // places, by the number of the routine
    places: BTreeSet<(usize, Fault)>,
    locks: BTreeMap<EntryId, Vec<FaultyLock>>,
    // the roots of locks whose release is taken away where it is not held: they may stay held elsewhere
    released: Vec<Root>,
    // names for which a rule is missing, as M writes them
    unruled: BTreeSet<Vec<u8>>,
}

// Whether what mends a fault about `known` may mend one about `lock`, which is missing for a touch or a release.
fn is_above(known: &FaultyLock, lock: &FaultyLock) -> bool {
    prefix(&known.term, &lock.term)
}

// Whether what mends a fault about `known` may mend one about `lock`, which is missing for a call.
fn is_same(known: &FaultyLock, lock: &FaultyLock) -> bool {
    known.term == lock.term || (known.is_cut && prefix(&known.term, &lock.term))
}

impl KnownFaults {
    /// No faults.
    pub fn new(alloc: Global) -> KnownFaults {
        KnownFaults {
            alloc,
            places: BTreeSet::new(alloc),
            locks: BTreeMap::new(alloc),
            released: Vec::new(alloc),
            unruled: BTreeSet::new(alloc),
        }
    }

    fn locks_of(&self, entry: EntryId) -> &[FaultyLock] {
        match self.locks.get(&entry) {
            Some(locks) => locks.as_slice(),
            None => &[],
        }
    }

    fn has_place(&self, row: &Row) -> bool {
        self.places.contains(&(row.entry.routine(), row.fault))
    }

    // Whether each of these locks is known, and there is one.
    fn has_locks(&self, locks: &[FaultyLock]) -> bool {
        !locks.is_empty()
            && locks.iter().all(|lock| {
                let known = self.locks_of(lock.entry);
                known.iter().any(|known| is_above(known, lock))
            })
    }

    // Whether the need of a call is known: by its locks, or by all that is behind it.
    fn has_need(&self, subject: &Subject) -> bool {
        let is_missing = |lock: &FaultyLock| {
            let known = self.locks_of(lock.entry);
            known.iter().any(|known| is_same(known, lock))
        };
        let locks = subject.locks.as_slice();
        locks.iter().any(|lock| is_missing(lock)) || self.has_locks(subject.behind.as_slice())
    }

    // Whether a lock may be held only because of what mends other faults.
    fn has_held(&self, entry: EntryId, held: &[LockTerm]) -> bool {
        let known = self.locks_of(entry);
        held.iter().any(|term| {
            known.iter().any(|lock| prefix(&lock.term, term))
                || self.released.iter().any(|root| *root == term.root)
        })
    }

    fn has_noted_locks(&self, entry: EntryId, note: &Note) -> bool {
        match &note.situation {
            Some(situation) => self.has_held(entry, situation.held.as_slice()),
            None => !self.locks_of(entry).is_empty(),
        }
    }

    fn has_unruled(&self, subject: &Subject) -> bool {
        match &subject.unruled {
            Some(name) => self.unruled.contains(name),
            None => false,
        }
    }

    /// Whether a fault is known. What says only that a certificate does not fit its routines is never new.
    pub(crate) fn has(&self, row: &Row, note: &Note, subject: &Subject) -> bool {
        match row.fault.code {
            Code::CaseNotListed | Code::SummaryShort => true,
            Code::NeedMissing => self.has_need(subject),
            Code::Uncovered | Code::NotHeld | Code::SharedName | Code::UnknownSubscript => {
                self.has_place(row)
                    || self.has_locks(subject.locks.as_slice())
                    || self.has_locks(subject.behind.as_slice())
            }
            Code::Unruled | Code::Unranked => self.has_place(row) || self.has_unruled(subject),
            Code::RankOrder | Code::DropsFrame if subject.needs_less => true,
            Code::Pinned
            | Code::RankOrder
            | Code::HeldAtEnd
            | Code::NameEscapes
            | Code::DropsFrame
            | Code::TooManyCases => self.has_place(row) || self.has_noted_locks(row.entry, note),
            _ => self.has_place(row),
        }
    }

    fn add_lock(&mut self, lock: FaultyLock) -> Result<(), AllocError> {
        let root = &lock.term.root;
        if lock.is_released && !self.released.iter().any(|other| *other == *root) {
            self.released.push(root.clone()?)?;
        }
        let locks = self
            .locks
            .entry(lock.entry)?
            .or_insert(Vec::new(self.alloc));
        if !locks.iter().any(|known| known.term == lock.term) {
            locks.push(lock)?;
        }
        Ok(())
    }

    fn add_locks(&mut self, locks: Vec<FaultyLock>) -> Result<(), AllocError> {
        for lock in locks {
            self.add_lock(lock)?;
        }
        Ok(())
    }

    /// Adds a fault.
    pub(crate) fn add(&mut self, row: &Row, subject: Subject) -> Result<(), AllocError> {
        let Subject {
            locks,
            behind,
            alike,
            unruled,
            ..
        } = subject;
        self.places.insert((row.entry.routine(), row.fault))?;
        self.add_locks(locks)?;
        self.add_locks(behind)?;
        self.add_locks(alike)?;
        if let Some(name) = unruled {
            self.unruled.insert(name)?;
        }
        Ok(())
    }
}
