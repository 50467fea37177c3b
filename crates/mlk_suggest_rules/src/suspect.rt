// Places at which the lock of a cover is missing.

use crate::place::{LockPattern, is_held};
use crate::score::held_at;
use mlk_names::Access;
use mlk_suggest::{Evidence, Holding, Moment, Spot, TouchAt};
use mlk_text::push_sparing;
use std::alloc::{AllocError, Global};

/// A place at which the lock of a cover is not held in some of the ways that lead there.
#[derive(Clone, Copy, Drop)]
pub struct Suspect {
    /// whether the place reads or writes
    pub access: Access,
    /// the index of the cover in the list of covers
    pub cover: usize,
    /// whether the lock is the cover's second
    pub is_second: bool,
    pub spot: Spot,
    /// the number of ways that lead to the place
    pub ways: usize,
    /// the number of those in which the lock is held
    pub ways_held: usize,
    /// the held locks in the first way without the lock
    pub holding: Holding,
    /// the call of that way; `None` if a job begins with the unit
    pub from: Option<Spot>,
}

// The first way that leads to a touch in which the lock is not held, or `None`.
fn first_without(
    alloc: Global,
    evidence: &Evidence<'_>,
    touch: &TouchAt<'_>,
    lock: &LockPattern,
) -> Result<Option<Moment>, AllocError> {
    let subscripts = lock.subscripts_at(alloc, touch.reference)?;
    let tables = &evidence.tables;
    Ok(
        touch
            .moments
            .iter()
            .find(|moment| {
                !is_held(
                    tables,
                    tables.locks(moment.holding),
                    lock.root,
                    subscripts.as_slice(),
                )
            })
            .copied(),
    )
}

/// A lock that a cover requires.
#[derive(Clone, Copy, Drop)]
pub(crate) struct AskedLock<'l> {
    pub(crate) lock: &'l LockPattern,
    /// the index of the cover in the list of covers
    pub(crate) cover: usize,
    /// whether the lock is the cover's second
    pub(crate) is_second: bool,
    /// whether reads need it too
    pub(crate) has_reads: bool,
}

// Adds a touch if the lock is missing there in some of the ways.
fn add_suspect(
    alloc: Global,
    evidence: &Evidence<'_>,
    suspects: &mut Vec<Suspect>,
    touch: &TouchAt<'_>,
    asked: &AskedLock<'_>,
) -> Result<(), AllocError> {
    let lock = asked.lock;
    let Some(moment) = first_without(alloc, evidence, touch, lock)? else {
        return Ok(());
    };
    let suspect = Suspect {
        access: touch.reference.access,
        cover: asked.cover,
        is_second: asked.is_second,
        spot: touch.spot,
        ways: touch.moments.len(),
        ways_held: held_at(alloc, evidence, touch, lock)?,
        holding: moment.holding,
        from: moment.from,
    };
    push_sparing(suspects, suspect)
}

/// Adds those of the `touches` of `evidence`, by their indexes, at which the lock `asked` is missing in some of the ways that
/// lead there.
pub(crate) fn add_suspects(
    alloc: Global,
    evidence: &Evidence<'_>,
    suspects: &mut Vec<Suspect>,
    touches: &[usize],
    asked: &AskedLock<'_>,
) -> Result<(), AllocError> {
    for touch in touches {
        if let Some(touch) = evidence.touches.get(*touch) {
            if touch.reference.access == Access::Writes || asked.has_reads {
                add_suspect(alloc, evidence, suspects, touch, asked)?;
            }
        }
    }
    Ok(())
}
