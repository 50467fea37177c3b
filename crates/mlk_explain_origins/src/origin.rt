// The places behind what an entry asks of its callers, and the calls on the way to them.

use crate::ask::{Ask, Cause};
use crate::grounds::Grounds;
use crate::routine::RoutineFacts;
use crate::weakened::weaken;
use mlk_program::EntryId;
use mlk_walk::{Checks, verdict_by};
use mlk_walk_exprs::{Fault, Note};
use std::alloc::{AllocError, Global};

// How many calls are followed at most, one after another.
const MOST_CALLS: usize = 32;

// In how many entries places are looked for at most.
const MOST_ENTRIES: usize = 256;

/// A place in the lines of an entry, with what the walk notes there.
#[derive(Drop)]
pub struct Origin {
    pub entry: EntryId,
    pub fault: Fault,
    pub note: Note,
}

/// The way to the place behind what an entry asks of its callers: the calls on it, the first one in the entry itself, and the
/// place.
#[derive(Drop)]
pub struct Trail {
    pub calls: Vec<Origin>,
    pub origin: Origin,
}

// What is asked by an entry.
#[derive(Drop, PartialEq, Eq)]
struct Step {
    entry: EntryId,
    ask: Ask,
}

// The places behind what an entry asks, in their order: those that the walk finds if it does not ask.
fn causes_of(
    alloc: Global,
    checks: &Checks<'_>,
    step: &Step,
) -> Result<Vec<(Cause, Origin)>, AllocError> {
    let mut causes = Vec::new(alloc);
    let Some(block) = checks.entries.block(step.entry) else {
        return Ok(causes);
    };
    let weakened = weaken(alloc, block, &step.ask)?;
    let verdict = verdict_by(alloc, checks, step.entry, &weakened)?;
    for (fault, note) in verdict.into_notes() {
        let Some(cause) = step.ask.cause(&fault, &note.mend) else {
            continue;
        };
        let origin = Origin {
            entry: step.entry,
            fault,
            note,
        };
        causes.push((cause, origin))?;
    }
    Ok(causes)
}

// The first place of an entry's own lines behind what it asks, or its first call, if there is one.
fn first_place(causes: Vec<(Cause, Origin)>) -> Option<Origin> {
    let mut call = None;
    for (cause, place) in causes {
        match cause {
            Cause::Line => return Some(place),
            Cause::Call if call.is_none() => call = Some(place),
            Cause::Call => {}
        }
    }
    call
}

// What the entry that is called at a place is asked; `None` if no call is there, or its callee asks for nothing of the kind.
fn step_into(
    alloc: Global,
    grounds: &Grounds<'_>,
    checks: &Checks<'_>,
    place: &Origin,
    ask: &Ask,
) -> Result<Option<Step>, AllocError> {
    let facts = RoutineFacts::of(alloc, grounds, place.entry.routine())?;
    let Some(entry) = facts.target(checks.program, place.fault) else {
        return Ok(None);
    };
    let Some(summary) = checks.entries.summary(entry) else {
        return Ok(None);
    };
    match ask.of_callee(summary, &place.note.mend)? {
        Some(ask) => Ok(Some(Step { entry, ask })),
        None => Ok(None),
    }
}

/// Finds the place behind what `entry` asks of its callers: each callee is walked by its block without what it asks. The
/// first line that then has such a fault is the place, or a call that asks the same. `None` if there is none within 32 calls.
pub fn trail_of(
    alloc: Global,
    grounds: &Grounds<'_>,
    checks: &Checks<'_>,
    entry: EntryId,
    ask: Ask,
) -> Result<Option<Trail>, AllocError> {
    let mut calls = Vec::new(alloc);
    let mut step = Step { entry, ask };
    for _ in 0..MOST_CALLS {
        let Some(place) = first_place(causes_of(alloc, checks, &step)?) else {
            return Ok(None);
        };
        let Some(next) = step_into(alloc, grounds, checks, &place, &step.ask)? else {
            return Ok(Some(Trail {
                calls,
                origin: place,
            }));
        };
        calls.push(place)?;
        step = next;
    }
    Ok(None)
}

// What was found so far: places, and what other entries ask that are called on the way.
#[derive(Drop)]
struct Found {
    origins: Vec<Origin>,
    left: Vec<Step>,
}

// Adds the places behind what an entry asks, or for those that are calls what their callees ask.
fn look_behind(
    alloc: Global,
    grounds: &Grounds<'_>,
    checks: &Checks<'_>,
    step: &Step,
    found: &mut Found,
) -> Result<(), AllocError> {
    for (_, place) in causes_of(alloc, checks, step)? {
        match step_into(alloc, grounds, checks, &place, &step.ask)? {
            Some(next) => found.left.push(next)?,
            None => found.origins.push(place)?,
        }
    }
    Ok(())
}

/// Finds the places behind what `entry` asks of its callers, each the first of its kind on some way through its entry; in at
/// most 256 entries.
pub fn origins_of(
    alloc: Global,
    grounds: &Grounds<'_>,
    checks: &Checks<'_>,
    entry: EntryId,
    ask: Ask,
) -> Result<Vec<Origin>, AllocError> {
    let mut seen = Vec::new(alloc);
    let mut found = Found {
        origins: Vec::new(alloc),
        left: vec![in alloc; Step { entry, ask }]?,
    };
    for _ in 0..MOST_ENTRIES {
        let Some(step) = found.left.pop() else {
            break;
        };
        if seen.iter().any(|other| *other == step) {
            continue;
        }
        look_behind(alloc, grounds, checks, &step, &mut found)?;
        seen.push(step)?;
    }
    Ok(found.origins)
}
