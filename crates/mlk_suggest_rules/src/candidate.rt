// The locks that may cover a global.

use crate::place::{LockPattern, Part};
use crate::score::{Score, WHOLE, score_of};
use indexmap::IndexMap;
use mlk_names::Access;
use mlk_suggest::{Evidence, TouchAt};
use mlk_suggest_ranks::is_plain;
use mlk_suggest_steps::{LockRoot, Program, Word};
use mlk_text::push_sparing;
use std::alloc::{AllocError, Global};
use std::cmp::Ordering;

/// The maximum number of locks that are compared: those that are held at most writes.
const MOST_CANDIDATES: usize = 12;

/// A lock is not compared if another is held more than this many times as often.
const SELDOM: usize = 4;

/// The maximum number of subscripts of a lock in a rule file.
const MOST_SUBSCRIPTS: usize = 8;

/// The minimum number of writes at which a lock with subscripts, but none of the reference, must be held.
const CONSTANT_WRITES: usize = 3;

/// A lock that may cover a global, and the number of places at which it is held.
#[derive(Drop)]
pub(crate) struct Candidate {
    pub(crate) lock: LockPattern,
    pub(crate) score: Score,
}

// Whether a lock can be part of a rule.
fn can_be_in_rule(program: &Program<'_>, lock: &LockPattern) -> bool {
    lock.parts.len() <= MOST_SUBSCRIPTS
        && lock.places() <= MOST_SUBSCRIPTS
        && lock.parts.iter().all(|part| match part {
            Part::Constant(word) => is_plain(program.words.text(*word)),
            Part::Place(_) => true,
        })
}

// The number of writes at which each lock is held in some way.
#[derive(Drop)]
struct Support {
    writes: IndexMap<LockPattern, usize>,
}

impl Support {
    // Adds a write at which a lock is held.
    fn add(&mut self, lock: LockPattern) -> Result<(), AllocError> {
        let count = self.writes.get(&lock).copied().unwrap_or(0);
        let Ok(_) = self.writes.insert(lock, count.saturating_add(1)) else {
            return Err(AllocError);
        };
        Ok(())
    }

    // Adds the locks that are held in some way at a touch if it is a write.
    fn add_touch(
        &mut self,
        alloc: Global,
        program: &Program<'_>,
        evidence: &Evidence<'_>,
        touch: &TouchAt<'_>,
    ) -> Result<(), AllocError> {
        if touch.reference.access == Access::Writes {
            for lock in locks_at(alloc, program, evidence, touch)? {
                self.add(lock)?;
            }
        }
        Ok(())
    }

    // The locks that are held most often, the most frequent first.
    fn most_held(&self, alloc: Global) -> Result<Vec<LockPattern>, AllocError> {
        let mut order = Vec::with_capacity(alloc, self.writes.len())?;
        for (place, count) in self.writes.values().enumerate() {
            push_sparing(&mut order, (*count, place))?;
        }
        order.sort_by(|first, second| second.0.cmp(&first.0))?;
        let most = order.first().map_or(0, |first| first.0);
        order.retain(|(count, _)| count.saturating_mul(SELDOM) >= most);
        order.truncate(MOST_CANDIDATES);
        let mut locks = Vec::new(alloc);
        for (_, place) in order {
            if let Some((lock, _)) = self.writes.get_index(place) {
                let lock = lock.clone()?;
                push_sparing(&mut locks, lock)?;
            }
        }
        Ok(locks)
    }
}

// Adds a lock to those of one touch, unless it is there already or can't be in a rule.
fn add_lock(
    program: &Program<'_>,
    locks: &mut Vec<LockPattern>,
    lock: Option<LockPattern>,
) -> Result<(), AllocError> {
    match lock {
        Some(lock) if can_be_in_rule(program, &lock) && !locks.contains(&lock) => {
            push_sparing(locks, lock)
        }
        _ => Ok(()),
    }
}

// The locks that are held in some way at a touch, as a rule would have them.
fn locks_at(
    alloc: Global,
    program: &Program<'_>,
    evidence: &Evidence<'_>,
    touch: &TouchAt<'_>,
) -> Result<Vec<LockPattern>, AllocError> {
    let mut locks = Vec::new(alloc);
    for moment in &touch.moments {
        for lock in evidence.tables.locks(moment.holding) {
            if let Some(name) = evidence.tables.name(*lock) {
                let by_places = LockPattern::of(alloc, touch.reference, name, false)?;
                add_lock(program, &mut locks, by_places)?;
                let by_constants = LockPattern::of(alloc, touch.reference, name, true)?;
                add_lock(program, &mut locks, by_constants)?;
            }
        }
    }
    Ok(locks)
}

// The locks that are held at most writes.
fn supported_locks(
    alloc: Global,
    program: &Program<'_>,
    evidence: &Evidence<'_>,
    touches: &[usize],
) -> Result<Vec<LockPattern>, AllocError> {
    let mut support = Support {
        writes: IndexMap::new(alloc),
    };
    for touch in touches {
        if let Some(touch) = evidence.touches.get(*touch) {
            support.add_touch(alloc, program, evidence, touch)?;
        }
    }
    support.most_held(alloc)
}

// Whether a lock is held at enough writes to be suggested at all.
fn is_supported(candidate: &Candidate) -> bool {
    !candidate.lock.is_constant()
        || candidate.score.write_share >= WHOLE.saturating_mul(CONSTANT_WRITES)
}

// Which of two locks of a global comes first: the one that is held at more writes, then at more reads, then the one with the
// global's own name, then the one with fewer subscripts.
fn compare_candidates(global: Word, first: &Candidate, second: &Candidate) -> Ordering {
    let own = LockRoot::Global(global);
    let is_first_own = first.lock.root == own;
    let is_second_own = second.lock.root == own;
    second
        .score
        .write_share
        .cmp(&first.score.write_share)
        .then(second.score.read_share.cmp(&first.score.read_share))
        .then(is_second_own.cmp(&is_first_own))
        .then(first.lock.parts.len().cmp(&second.lock.parts.len()))
}

/// The locks that may cover `global`, given the `touches` of `evidence`, by their indexes, the best first.
pub(crate) fn candidates_of(
    alloc: Global,
    program: &Program<'_>,
    evidence: &Evidence<'_>,
    global: Word,
    touches: &[usize],
) -> Result<Vec<Candidate>, AllocError> {
    let mut candidates = Vec::new(alloc);
    for lock in supported_locks(alloc, program, evidence, touches)? {
        let score = score_of(alloc, evidence, touches, &lock)?;
        let candidate = Candidate { lock, score };
        if is_supported(&candidate) {
            push_sparing(&mut candidates, candidate)?;
        }
    }
    candidates.sort_by(|first, second| compare_candidates(global, first, second))?;
    Ok(candidates)
}
