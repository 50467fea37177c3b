// Mending of the faults of a line: what a certificate has to list so that they are gone.

use crate::maker::{Ground, Maker};
use crate::need::is_needed;
use crate::stop::Stop;
use crate::walk::{CalledEntry, Site};
use mlk_cert::{ExitCase, NameSet};
use mlk_make_drafts::{At, Draft, Listing, add_exit, add_mods, drop_all, lower, widen};
use mlk_names::LockTerm;
use mlk_program::EntryId;
use mlk_syntax::Line;
use mlk_text::{Code, Column, Failure, LineNumber};
use mlk_walk_exprs::{Fault, Mend, Note};
use mlk_walk_lines::LineFault;

/// Notes how what mends `fault` was listed, and returns whether something changed.
pub(crate) fn record_listing(
    maker: &mut Maker,
    fault: Fault,
    listing: Listing,
) -> Result<bool, Failure<Stop>> {
    match listing {
        Listing::Known => Ok(false),
        Listing::Added => {
            maker.change(fault)?;
            Ok(true)
        }
        Listing::Full => Err(Failure::Refused(Stop::Full(fault))),
    }
}

// The same for an entry's summary.
fn done_in_summary(
    maker: &mut Maker,
    draft: &mut Draft,
    fault: Fault,
    listing: Listing,
) -> Result<bool, Failure<Stop>> {
    let changes = record_listing(maker, fault, listing)?;
    if changes {
        draft.changed = maker.changes;
    }
    Ok(changes)
}

// Whether `point` is that of the line itself or of the begin of its block.
fn is_here(line: &Line, point: LineNumber) -> bool {
    let begins_block = match line.block.as_slice().first() {
        Some(first) => first.number == point,
        None => false,
    };
    line.number == point || begins_block
}

// The entry that is called at `column`.
fn called_entry(targets: &[CalledEntry], column: Column) -> Option<EntryId> {
    for target in targets {
        if target.column == column && !target.begins {
            return Some(target.entry);
        }
    }
    None
}

// Adds the entry that is called at `fault`, if it has no block yet.
fn add_called(
    ground: &Ground<'_>,
    maker: &mut Maker,
    draft: &Draft,
    targets: &[CalledEntry],
    fault: Fault,
) -> Result<bool, Failure<Stop>> {
    if fault.code != Code::NoCertificate {
        return Ok(false);
    }
    let Some(entry) = called_entry(targets, fault.column) else {
        return Ok(false);
    };
    if entry == draft.entry || !maker.add(ground, entry, false)? {
        return Ok(false);
    }
    maker.change(fault)?;
    Ok(true)
}

// Adds the missing locks `terms` to what the entry needs of its callers, if they can hold them.
fn add_needs(
    ground: &Ground<'_>,
    maker: &mut Maker,
    draft: &mut Draft,
    site: Site<'_>,
    fault: Fault,
    terms: Vec<LockTerm>,
) -> Result<bool, Failure<Stop>> {
    if !is_needed(ground, maker, draft, site, fault, terms.as_slice())? {
        return Ok(false);
    }
    let listing = draft.add_needs(ground.alloc, terms)?;
    done_in_summary(maker, draft, fault, listing)?;
    Err(Failure::Refused(Stop::Anew))
}

// Adds a way in which the call may end.
fn add_end(
    ground: &Ground<'_>,
    maker: &mut Maker,
    draft: &mut Draft,
    fault: Fault,
    exit: ExitCase,
) -> Result<bool, Failure<Stop>> {
    let listing = add_exit(ground.alloc, &mut draft.block.summary, exit)?;
    done_in_summary(maker, draft, fault, listing)?;
    Ok(false)
}

// Adds names that the call may change.
fn add_changes(
    ground: &Ground<'_>,
    maker: &mut Maker,
    draft: &mut Draft,
    fault: Fault,
    sets: Vec<NameSet>,
) -> Result<bool, Failure<Stop>> {
    let listing = add_mods(ground.alloc, &mut draft.block.summary, sets)?;
    done_in_summary(maker, draft, fault, listing)
}

// Mends `fault` if that is possible, and returns whether the line has to be walked again.
fn mend_one(
    ground: &Ground<'_>,
    maker: &mut Maker,
    draft: &mut Draft,
    site: Site<'_>,
    fault: Fault,
    mend: Mend,
) -> Result<bool, Failure<Stop>> {
    match mend {
        Mend::Nothing => add_called(ground, maker, draft, site.targets, fault),
        Mend::Locks(terms) => add_needs(ground, maker, draft, site, fault, terms),
        Mend::Listed(line, round, case) => {
            let at = At { line, round };
            let listing = draft.lists.list(ground.alloc, at, case)?;
            Ok(record_listing(maker, fault, listing)? && is_here(site.line, line))
        }
        Mend::Exit(exit) => add_end(ground, maker, draft, fault, exit),
        Mend::Changes(sets) => add_changes(ground, maker, draft, fault, sets),
        Mend::Rank(rank) => {
            let listing = lower(&mut draft.block.summary, rank);
            done_in_summary(maker, draft, fault, listing)
        }
        Mend::Callee(low, drops) => {
            let listing = widen(&mut draft.block.summary, low, drops);
            done_in_summary(maker, draft, fault, listing)
        }
        Mend::Drops => {
            let listing = drop_all(&mut draft.block.summary);
            done_in_summary(maker, draft, fault, listing)
        }
    }
}

/// Mends the faults of a line as far as possible, and returns whether the line has to be walked again.
pub(crate) fn mend_all(
    ground: &Ground<'_>,
    maker: &mut Maker,
    draft: &mut Draft,
    site: Site<'_>,
    faults: Vec<(LineFault, Note)>,
) -> Result<bool, Failure<Stop>> {
    let mut again = false;
    for (found, note) in faults {
        let one = mend_one(ground, maker, draft, site, found.fault, note.mend)?;
        again = again || one;
    }
    Ok(again)
}
