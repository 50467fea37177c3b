// How often a lock is held at the touches of a global.

use crate::place::{LockPattern, is_held};
use mlk_names::Access;
use mlk_suggest::{Evidence, TouchAt};
use std::alloc::{AllocError, Global};

/// The share of a place at which a lock is held in all ways, in thousandths.
pub(crate) const WHOLE: usize = 1000;

/// The number of writes and reads of a global at which a lock is held.
#[derive(Clone, Copy, Drop, PartialEq, Eq)]
pub struct Score {
    /// the number of places that write it
    pub writes: usize,
    /// the number of those at which the lock is held in all ways
    pub writes_held: usize,
    /// the number of places that read it
    pub reads: usize,
    /// the number of those at which the lock is held in all ways
    pub reads_held: usize,
    /// the sum of the shares of ways in which it is held at each write, in thousandths
    pub write_share: usize,
    /// the sum of the shares of ways in which it is held at each read, in thousandths
    pub read_share: usize,
}

impl Score {
    /// The score without places.
    pub(crate) fn new() -> Score {
        Score {
            writes: 0,
            writes_held: 0,
            reads: 0,
            reads_held: 0,
            write_share: 0,
            read_share: 0,
        }
    }

    /// Adds a place at which the lock is held in `share` thousandths of the ways.
    pub(crate) fn add(&mut self, access: Access, share: usize) {
        let is_held = usize::from(share >= WHOLE);
        if access == Access::Writes {
            self.writes = self.writes.saturating_add(1);
            self.writes_held = self.writes_held.saturating_add(is_held);
            self.write_share = self.write_share.saturating_add(share);
        } else {
            self.reads = self.reads.saturating_add(1);
            self.reads_held = self.reads_held.saturating_add(is_held);
            self.read_share = self.read_share.saturating_add(share);
        }
    }

    /// Whether the lock is held at `hundredths` hundredths of the writes or more.
    pub(crate) fn has_writes(&self, hundredths: usize) -> bool {
        self.write_share.saturating_mul(100)
            >= self.writes.saturating_mul(WHOLE).saturating_mul(hundredths)
    }

    /// Whether the lock is held at `hundredths` hundredths of the reads or more.
    pub(crate) fn has_reads(&self, hundredths: usize) -> bool {
        self.read_share.saturating_mul(100)
            >= self.reads.saturating_mul(WHOLE).saturating_mul(hundredths)
    }
}

/// The number of ways that lead to `touch` in which the lock of a rule is held.
pub(crate) fn held_at(
    alloc: Global,
    evidence: &Evidence<'_>,
    touch: &TouchAt<'_>,
    lock: &LockPattern,
) -> Result<usize, AllocError> {
    let subscripts = lock.subscripts_at(alloc, touch.reference)?;
    let tables = &evidence.tables;
    Ok(
        touch
            .moments
            .iter()
            .filter(|moment| {
                is_held(
                    tables,
                    tables.locks(moment.holding),
                    lock.root,
                    subscripts.as_slice(),
                )
            })
            .count(),
    )
}

/// The share of the ways that lead to `touch` in which the lock of a rule is held, in thousandths.
pub(crate) fn share_at(
    alloc: Global,
    evidence: &Evidence<'_>,
    touch: &TouchAt<'_>,
    lock: &LockPattern,
) -> Result<usize, AllocError> {
    let share = held_at(alloc, evidence, touch, lock)?.saturating_mul(WHOLE);
    Ok(share.checked_div(touch.moments.len()).unwrap_or(0))
}

/// The number of the `touches` of `evidence`, by their indexes, at which the lock of a rule is held.
pub(crate) fn score_of(
    alloc: Global,
    evidence: &Evidence<'_>,
    touches: &[usize],
    lock: &LockPattern,
) -> Result<Score, AllocError> {
    let mut score = Score::new();
    for touch in touches {
        if let Some(touch) = evidence.touches.get(*touch) {
            let share = share_at(alloc, evidence, touch, lock)?;
            score.add(touch.reference.access, share);
        }
    }
    Ok(score)
}

/// The number of `touches` that are writes.
pub(crate) fn count_writes(evidence: &Evidence<'_>, touches: &[usize]) -> usize {
    let mut count: usize = 0;
    for touch in touches {
        if let Some(touch) = evidence.touches.get(*touch) {
            if touch.reference.access == Access::Writes {
                count = count.saturating_add(1);
            }
        }
    }
    count
}
