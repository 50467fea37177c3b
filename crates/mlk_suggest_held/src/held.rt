// Held locks, as numbers.

use crate::renaming::{Renaming, are_alike};
use indexmap::{IndexMap, IndexSet};
use mlk_suggest_steps::{LockName, Word};
use mlk_text::push_sparing;
use std::alloc::{AllocError, Global};

/// The maximum number of locks that count as held: as many as a case of a certificate can list.
const MOST_HELD: usize = 16;

/// From this number of changed locals on, no more are added to a list of them.
const MOST_CHANGED: usize = 256;

/// A lock name: its number in `Tables`.
#[derive(Clone, Copy, Drop, PartialEq, Eq, PartialOrd, Ord, Hash)]
pub struct Lock {
    index: usize,
}

/// A set of held locks: the number of a `Held` in `Tables`.
#[derive(Clone, Copy, Drop, PartialEq, Eq, PartialOrd, Ord, Hash)]
pub struct Holding {
    index: usize,
}

/// A set of changed locals: the number of their list in `Tables`, where 0 is the empty one.
#[derive(Clone, Copy, Drop, PartialEq, Eq, Hash)]
pub struct Changes {
    index: usize,
}

impl Changes {
    /// No changed local.
    pub const NONE: Changes = Changes { index: 0 };
}

/// The locks that are held since a unit began: those that it claimed, and those that it released although they were held before,
/// each in the order of their numbers.
#[derive(Clone, Drop, PartialEq, Eq, Hash)]
pub struct Held {
    pub locks: Vec<Lock>,
    pub released: Vec<Lock>,
    /// whether it released all locks that were held before
    pub releases_all: bool,
}

impl Held {
    /// Nothing claimed, and nothing released.
    pub fn new(alloc: Global) -> Held {
        Held {
            locks: Vec::new(alloc),
            released: Vec::new(alloc),
            releases_all: false,
        }
    }

    /// Nothing held, since everything was released.
    pub fn all_released(alloc: Global) -> Held {
        Held {
            locks: Vec::new(alloc),
            released: Vec::new(alloc),
            releases_all: true,
        }
    }
}

// Adds a lock to locks that are in order, unless it is there already or there are too many.
fn add_lock(locks: &mut Vec<Lock>, lock: Lock) -> Result<(), AllocError> {
    if locks.contains(&lock) || locks.len() >= MOST_HELD {
        return Ok(());
    }
    push_sparing(locks, lock)?;
    locks.sort_unstable();
    Ok(())
}

/// Lock names, held locks, and lists of changed locals, each once.
#[derive(Drop)]
pub struct Tables {
    alloc: Global,
    names: IndexSet<LockName>,
    held: IndexSet<Held>,
    changes: IndexSet<Vec<Word>>,
    /// the held locks at places, cached
    holdings: IndexMap<Entered, Holding>,
}

// The locks that are held when a unit is entered, the locals that have changed since, and the locks that are held since.
#[derive(Clone, Copy, Drop, PartialEq, Eq, Hash)]
struct Entered {
    arrival: Holding,
    changes: Changes,
    case: Holding,
}

impl Tables {
    /// Empty tables.
    pub fn new(alloc: Global) -> Result<Tables, AllocError> {
        let mut tables = Tables {
            alloc,
            names: IndexSet::new(alloc),
            held: IndexSet::new(alloc),
            changes: IndexSet::new(alloc),
            holdings: IndexMap::new(alloc),
        };
        let _ = tables.changes_of(Vec::new(alloc))?;
        Ok(tables)
    }

    /// Returns the lock with `name`, and adds it if it is missing.
    pub fn lock(&mut self, name: LockName) -> Result<Lock, AllocError> {
        let Ok((index, _)) = self.names.insert_full(name) else {
            return Err(AllocError);
        };
        Ok(Lock { index })
    }

    /// The name of `lock`; `None` for one of other tables.
    pub fn name(&self, lock: Lock) -> Option<&LockName> {
        self.names.get_index(lock.index)
    }

    /// Returns the number of `held`, and adds it if it is missing.
    pub fn holding(&mut self, held: Held) -> Result<Holding, AllocError> {
        let Ok((index, _)) = self.held.insert_full(held) else {
            return Err(AllocError);
        };
        Ok(Holding { index })
    }

    // The `Held` with a number.
    fn held_locks(&self, holding: Holding) -> Option<&Held> {
        self.held.get_index(holding.index)
    }

    /// The locks of `holding`, in the order of their numbers; empty for one of other tables.
    pub fn locks(&self, holding: Holding) -> &[Lock] {
        match self.held.get_index(holding.index) {
            Some(held) => held.locks.as_slice(),
            None => &[],
        }
    }

    /// A copy of the `Held` with the number `holding`.
    pub fn copy(&self, holding: Holding) -> Result<Held, AllocError> {
        match self.held.get_index(holding.index) {
            Some(held) => held.clone(),
            None => Ok(Held::new(self.alloc)),
        }
    }

    /// Renames `lock` by `renaming`.
    pub fn rename_lock(&mut self, lock: Lock, renaming: Renaming<'_>) -> Result<Lock, AllocError> {
        let renamed = match self.names.get_index(lock.index) {
            None => return Ok(lock),
            Some(name) if renaming.keeps(name) => return Ok(lock),
            Some(name) => renaming.of_name(self.alloc, name)?,
        };
        self.lock(renamed)
    }

    // Renames locks by a renaming, in order.
    fn rename_locks(
        &mut self,
        locks: &[Lock],
        renaming: Renaming<'_>,
    ) -> Result<Vec<Lock>, AllocError> {
        let mut renamed = Vec::new(self.alloc);
        for lock in locks {
            let other = self.rename_lock(*lock, renaming)?;
            add_lock(&mut renamed, other)?;
        }
        Ok(renamed)
    }

    // Whether a renaming keeps all of `locks`.
    fn keeps_all(&self, locks: &[Lock], renaming: Renaming<'_>) -> bool {
        locks.iter().all(|lock| match self.names.get_index(lock.index) {
            Some(name) => renaming.keeps(name),
            None => true,
        })
    }

    /// Renames the locks of `holding` by `renaming`.
    pub fn rename(
        &mut self,
        holding: Holding,
        renaming: Renaming<'_>,
    ) -> Result<Holding, AllocError> {
        match self.held.get_index(holding.index) {
            None => return Ok(holding),
            Some(held) => {
                if self.keeps_all(held.locks.as_slice(), renaming)
                    && self.keeps_all(held.released.as_slice(), renaming)
                {
                    return Ok(holding);
                }
            }
        }
        let held = self.copy(holding)?;
        let renamed = Held {
            locks: self.rename_locks(held.locks.as_slice(), renaming)?,
            released: self.rename_locks(held.released.as_slice(), renaming)?,
            releases_all: held.releases_all,
        };
        self.holding(renamed)
    }

    /// The held locks after a claim of `lock` where `holding` was held.
    pub fn claim(&mut self, holding: Holding, lock: Lock) -> Result<Holding, AllocError> {
        if self.locks(holding).contains(&lock) {
            return Ok(holding);
        }
        let mut held = self.copy(holding)?;
        add_lock(&mut held.locks, lock)?;
        self.holding(held)
    }

    /// The one of `locks` that a release of `released` means: the same, one that is written alike, or the only one with its root
    /// and number of subscripts; `None` if there is no such lock.
    pub fn released_lock(&self, locks: &[Lock], released: Lock) -> Option<Lock> {
        if locks.contains(&released) {
            return Some(released);
        }
        let name = self.name(released)?;
        if let Some(alike) = locks.iter().find(|lock| self.is_alike(**lock, name)) {
            return Some(*alike);
        }
        self.only_of_root(locks, name)
    }

    fn is_alike(&self, lock: Lock, name: &LockName) -> bool {
        match self.name(lock) {
            Some(other) => are_alike(other, name),
            None => false,
        }
    }

    // Whether a lock has the root of a name, and the same number of subscripts.
    fn is_of_root(&self, lock: Lock, name: &LockName) -> bool {
        match self.name(lock) {
            Some(other) => {
                other.root == name.root && other.subscripts.len() == name.subscripts.len()
            }
            None => false,
        }
    }

    // The lock with the root of a name and the same number of subscripts, if there is only one.
    fn only_of_root(&self, locks: &[Lock], name: &LockName) -> Option<Lock> {
        let count = locks
            .iter()
            .filter(|lock| self.is_of_root(**lock, name))
            .count();
        if count != 1 {
            return None;
        }
        locks
            .iter()
            .find(|lock| self.is_of_root(**lock, name))
            .copied()
    }

    /// The held locks after a release of `lock` where `holding` was held: if the unit did not claim it, it releases a lock that
    /// was held before.
    pub fn release(&mut self, holding: Holding, lock: Lock) -> Result<Holding, AllocError> {
        let mut held = self.copy(holding)?;
        match self.released_lock(held.locks.as_slice(), lock) {
            Some(meant) => held.locks.retain(|other| *other != meant),
            None => add_lock(&mut held.released, lock)?,
        }
        self.holding(held)
    }

    /// The held locks after a call, where `before` was held, of a unit that returns with `callee`.
    pub fn after_callee(
        &mut self,
        before: Holding,
        callee: Holding,
    ) -> Result<Holding, AllocError> {
        let held = self.copy(callee)?;
        let mut after = before;
        if held.releases_all {
            after = self.holding(Held::all_released(self.alloc))?;
        }
        for lock in &held.released {
            after = self.release(after, *lock)?;
        }
        for lock in &held.locks {
            after = self.claim(after, *lock)?;
        }
        Ok(after)
    }

    /// The held locks in a unit that was entered with `arrival`, after `changes`, where `case` is held since it began: the locks
    /// that it claimed, and those that were held before and that it did not release.
    pub fn holding_at(
        &mut self,
        arrival: Holding,
        changes: Changes,
        case: Holding,
    ) -> Result<Holding, AllocError> {
        let entered = Entered {
            arrival,
            changes,
            case,
        };
        if let Some(known) = self.holdings.get(&entered) {
            return Ok(*known);
        }
        let there = self.find_holding(entered)?;
        let Ok(_) = self.holdings.insert(entered, there) else {
            return Err(AllocError);
        };
        Ok(there)
    }

    // Computes what `holding_at` returns.
    fn find_holding(&mut self, entered: Entered) -> Result<Holding, AllocError> {
        if self.locks(entered.arrival).is_empty() {
            return self.without_released(entered.case);
        }
        let changed = Vec::from_slice(self.alloc, self.changed_locals(entered.changes))?;
        let before = self.rename(entered.arrival, Renaming::Forget(changed.as_slice()))?;
        let there = self.after_callee(before, entered.case)?;
        self.without_released(there)
    }

    // The locks of `holding`, as if nothing had been released.
    fn without_released(&mut self, holding: Holding) -> Result<Holding, AllocError> {
        match self.held_locks(holding) {
            Some(held) if !held.releases_all && held.released.is_empty() => return Ok(holding),
            _ => {}
        }
        let mut held = Held::new(self.alloc);
        held.locks = Vec::from_slice(self.alloc, self.locks(holding))?;
        self.holding(held)
    }

    // Returns the number of a list of locals, and adds it if it is missing.
    fn changes_of(&mut self, words: Vec<Word>) -> Result<Changes, AllocError> {
        let Ok((index, _)) = self.changes.insert_full(words) else {
            return Err(AllocError);
        };
        Ok(Changes { index })
    }

    /// The locals of `changes`, in the order of their words.
    pub fn changed_locals(&self, changes: Changes) -> &[Word] {
        match self.changes.get_index(changes.index) {
            Some(words) => words.as_slice(),
            None => &[],
        }
    }

    /// The changes of `changes` and of the locals `words`. Locals past the limit are dropped.
    pub fn with_changes(
        &mut self,
        changes: Changes,
        words: &[Word],
    ) -> Result<Changes, AllocError> {
        let known = self.changed_locals(changes);
        if known.len() >= MOST_CHANGED || words.iter().all(|word| known.contains(word)) {
            return Ok(changes);
        }
        let mut all = Vec::from_slice(self.alloc, known)?;
        for word in words.iter().take(MOST_CHANGED) {
            push_sparing(&mut all, *word)?;
        }
        all.sort_unstable();
        all.dedup();
        self.changes_of(all)
    }

    /// The changes of `changes` and of `others`.
    pub fn union(&mut self, changes: Changes, others: Changes) -> Result<Changes, AllocError> {
        if changes == others {
            return Ok(changes);
        }
        let words = Vec::from_slice(self.alloc, self.changed_locals(others))?;
        self.with_changes(changes, words.as_slice())
    }

    /// The changes of `changes` without those of the locals `words`.
    pub fn without_changes(
        &mut self,
        changes: Changes,
        words: &[Word],
    ) -> Result<Changes, AllocError> {
        let mut left = Vec::from_slice(self.alloc, self.changed_locals(changes))?;
        left.retain(|word| !words.contains(word));
        self.changes_of(left)
    }
}
