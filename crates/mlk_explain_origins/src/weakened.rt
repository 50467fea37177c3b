// A block of a certificate without one thing that it asks of callers: the walk by it finds what asks for that.

use crate::ask::{Ask, has_name};
use mlk_cert_parts::{Case, EntryCert, ExitCase, NameSet, Point, Shared, Summary, copy_case};
use mlk_names::LockTerm;
use mlk_text::List;
use std::alloc::{AllocError, Global};

// The terms without the first that is `term`.
fn terms_without(
    alloc: Global,
    terms: &[LockTerm],
    term: &LockTerm,
) -> Result<Vec<LockTerm>, AllocError> {
    let mut kept = Vec::new(alloc);
    let mut is_left_out = false;
    for other in terms {
        if !is_left_out && *other == *term {
            is_left_out = true;
        } else {
            kept.push(other.clone()?)?;
        }
    }
    Ok(kept)
}

// What is held without what callers are asked to hold.
fn held_without(
    alloc: Global,
    held: &Shared<LockTerm>,
    ask: &Ask,
) -> Result<Shared<LockTerm>, AllocError> {
    match ask {
        Ask::Need(term) => Shared::new(alloc, terms_without(alloc, held.as_slice(), term)?),
        _ => held.clone(),
    }
}

fn exits_without(
    alloc: Global,
    exits: &[ExitCase],
    ask: &Ask,
) -> Result<List<ExitCase>, AllocError> {
    let mut kept = List::new(alloc);
    for exit in exits {
        kept.push(ExitCase {
            test: exit.test,
            held: held_without(alloc, &exit.held, ask)?,
            kept: exit.kept.clone()?,
        })?;
    }
    Ok(kept)
}

fn needs_without(
    alloc: Global,
    needs: &[LockTerm],
    ask: &Ask,
) -> Result<List<LockTerm>, AllocError> {
    match ask {
        Ask::Need(term) => Ok(List::of(terms_without(alloc, needs, term)?)),
        _ => Ok(List::of(Vec::from_clones(alloc, needs)?)),
    }
}

// Whether a change of these names is what is asked.
fn is_asked(names: &NameSet, ask: &Ask) -> bool {
    match ask {
        Ask::Change(name) => has_name(names, name),
        _ => false,
    }
}

fn changes_without(
    alloc: Global,
    mods: &[NameSet],
    ask: &Ask,
) -> Result<List<NameSet>, AllocError> {
    let mut kept = List::new(alloc);
    for names in mods {
        if !is_asked(names, ask) {
            kept.push(names.clone()?)?;
        }
    }
    Ok(kept)
}

// The least rank that asks less than `low`.
fn low_without(low: Option<u32>, ask: &Ask) -> Option<u32> {
    match ask {
        Ask::Low(asked) => asked.checked_add(1),
        _ => low,
    }
}

fn summary_without(alloc: Global, summary: &Summary, ask: &Ask) -> Result<Summary, AllocError> {
    Ok(Summary {
        need: needs_without(alloc, summary.need.as_slice(), ask)?,
        exits: exits_without(alloc, summary.exits.as_slice(), ask)?,
        mods: changes_without(alloc, summary.mods.as_slice(), ask)?,
        low: low_without(summary.low, ask),
        drops: summary.drops && !matches!(ask, Ask::Drops),
    })
}

fn cases_without(alloc: Global, cases: &[Case], ask: &Ask) -> Result<List<Case>, AllocError> {
    let mut kept = List::new(alloc);
    for case in cases {
        let mut copy = copy_case(case)?;
        copy.held = held_without(alloc, &case.held, ask)?;
        kept.push(copy)?;
    }
    Ok(kept)
}

fn points_without(alloc: Global, points: &[Point], ask: &Ask) -> Result<List<Point>, AllocError> {
    let mut kept = List::new(alloc);
    for point in points {
        kept.push(Point {
            line: point.line,
            round: point.round,
            cases: cases_without(alloc, point.cases.as_slice(), ask)?,
        })?;
    }
    Ok(kept)
}

/// Makes the block that `block` would be if its entry did not ask this of its callers. A lock that callers hold is taken out of
/// each case, once.
pub(crate) fn weaken(alloc: Global, block: &EntryCert, ask: &Ask) -> Result<EntryCert, AllocError> {
    Ok(EntryCert {
        entry: block.entry.copy()?,
        summary: summary_without(alloc, &block.summary, ask)?,
        points: points_without(alloc, block.points.as_slice(), ask)?,
    })
}
