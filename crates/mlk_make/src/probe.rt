// Whether a fault is reached before some names change. The walk itself finds out: from a case in which they are not own, and by a
// summary that lets all other names change, it ends where one of them changes. Names that really are own count as own wherever the
// walk asks whether a name is shared.

use crate::maker::{Ground, Maker};
use crate::need::are_kept;
use crate::walk::{Site, Start, walk_site};
use mlk_calls::{copy_case, is_among};
use mlk_cert::limit::MOST_CASES;
use mlk_cert::{Case, EntryCert, NameSet, Own, Point, Shared};
use mlk_make_drafts::{Draft, copy_cases, copy_summed, round_number};
use mlk_syntax::Line;
use mlk_text::{LineNumber, List, Name, copy_of};
use mlk_walk_exprs::{Fault, Mend, Note};
use mlk_walk_lines::LineFault;
use std::alloc::{AllocError, Global};
use std::slice;

/// A fault of a line, and names.
#[derive(Clone, Copy, Drop)]
pub(crate) struct Probe<'a> {
    pub(crate) site: Site<'a>,
    pub(crate) fault: Fault,
    pub(crate) names: &'a [Name],
    /// those of the names that really are own
    pub(crate) own: &'a [Own],
}

fn is_one_of(item: &Own, names: &[Name]) -> bool {
    match &item.names {
        NameSet::Only(name) => is_among(names, name),
        NameSet::AllBut(_) => false,
    }
}

// The case in which the names are not own.
fn case_without(alloc: Global, case: &Case, names: &[Name]) -> Result<Case, AllocError> {
    let mut own = Vec::new(alloc);
    for item in case.own.as_slice() {
        if !is_one_of(item, names) {
            own.push(copy_of(item)?)?;
        }
    }
    let mut left = copy_case(case)?;
    left.own = Shared::new(alloc, own)?;
    Ok(left)
}

// A block by which all names except `names` may change.
fn changing_others(alloc: Global, draft: &Draft, names: &[Name]) -> Result<EntryCert, AllocError> {
    let mut block = copy_summed(alloc, &draft.block)?;
    let mut mods = List::new(alloc);
    mods.push(NameSet::AllBut(List::of(Vec::from_clones(alloc, names)?)))?;
    block.summary.mods = mods;
    Ok(block)
}

fn begins_block(line: &Line, number: LineNumber) -> bool {
    match line.block.as_slice().first() {
        Some(first) => first.number == number,
        None => false,
    }
}

// The cases in which the block of the probe's line may end and that know the names as they were when the call began.
fn kept_ends(
    ground: &Ground<'_>,
    draft: &Draft,
    probe: &Probe<'_>,
) -> Result<List<Case>, AllocError> {
    let alloc = ground.alloc;
    let ends = draft
        .lists
        .ends_of(alloc, probe.site.line.block.as_slice())?;
    let mut kept = List::new(alloc);
    for case in ends.as_slice() {
        if are_kept(ground, draft, case, probe.names) {
            kept.push(case_without(alloc, case, probe.names)?)?;
        }
    }
    Ok(kept)
}

fn is_same(found: &LineFault, fault: Fault) -> bool {
    found.fault == fault
}

// Whether the walk found the fault. Adds the cases that it wants at the begin of the line's block to `entering`.
fn take_faults(
    probe: &Probe<'_>,
    faults: Vec<(LineFault, Note)>,
    entering: &mut List<Case>,
) -> Result<bool, AllocError> {
    for (found, note) in faults {
        if is_same(&found, probe.fault) {
            return Ok(true);
        }
        let Note { mend, .. } = note;
        if let Mend::Listed(number, _, case) = mend
            && begins_block(probe.site.line, number)
        {
            entering.push(case)?;
        }
    }
    Ok(false)
}

// The points of a probe: that of the case, and that of the cases that enter the line's block.
fn points_of(
    alloc: Global,
    line: &Line,
    round: usize,
    case: &Case,
    entering: &List<Case>,
) -> Result<List<Point>, AllocError> {
    let mut points = List::new(alloc);
    points.push(Point {
        line: line.number,
        round: round_number(round)?,
        cases: copy_cases(alloc, slice::from_ref(case))?,
    })?;
    if let Some(first) = line.block.as_slice().first() {
        points.push(Point {
            line: first.number,
            round: 0,
            cases: copy_cases(alloc, entering.as_slice())?,
        })?;
    }
    Ok(points)
}

// Whether a walk by `block` finds the fault. Adds the cases that it wants at the begin of the line's block to `entering`.
fn is_found(
    ground: &Ground<'_>,
    maker: &Maker,
    draft: &Draft,
    probe: &Probe<'_>,
    block: &EntryCert,
    entering: &mut List<Case>,
) -> Result<bool, AllocError> {
    let inner = kept_ends(ground, draft, probe)?;
    let start = Start {
        entry: draft.entry,
        block,
        own: probe.own,
        site: probe.site,
    };
    let walked = walk_site(ground, maker, draft, &start, inner)?;
    take_faults(probe, walked.faults, entering)
}

// Whether the fault is reached from `case`, in which the names are not own.
fn is_reached_from(
    ground: &Ground<'_>,
    maker: &Maker,
    draft: &Draft,
    probe: &Probe<'_>,
    round: usize,
    case: &Case,
) -> Result<bool, AllocError> {
    let alloc = ground.alloc;
    let mut block = changing_others(alloc, draft, probe.names)?;
    let mut entering = List::new(alloc);
    for _ in 0..MOST_CASES {
        let before = entering.as_slice().len();
        block.points = points_of(alloc, probe.site.line, round, case, &entering)?;
        if is_found(ground, maker, draft, probe, &block, &mut entering)? {
            return Ok(true);
        }
        if entering.as_slice().len() == before {
            return Ok(false);
        }
    }
    Ok(false)
}

/// Whether the fault is reached from `case` with the names as they were when the call began.
pub(crate) fn is_reached(
    ground: &Ground<'_>,
    maker: &Maker,
    draft: &Draft,
    probe: &Probe<'_>,
    round: usize,
    case: &Case,
) -> Result<bool, AllocError> {
    let case = case_without(ground.alloc, case, probe.names)?;
    is_reached_from(ground, maker, draft, probe, round, &case)
}
