// Locks that a caller may be asked to hold.

use crate::maker::{Ground, Maker};
use crate::news::are_made_new;
use crate::probe::{Probe, is_reached};
use crate::walk::Site;
use mlk_calls::{in_order, is_among, is_own};
use mlk_cert::{Case, NameSet, Own};
use mlk_make_drafts::{At, Draft, rounds_in};
use mlk_names::{KnownSym, LockTerm};
use mlk_text::{List, Name};
use mlk_walk_exprs::Fault;
use std::alloc::{AllocError, Global};

fn add_names(names: &mut Vec<Name>, term: &LockTerm) -> Result<(), AllocError> {
    for symbol in term.subs.as_slice() {
        if let KnownSym::Local(name) = symbol {
            names.push(name.copy()?)?;
        }
    }
    Ok(())
}

// The names that `terms` mention, in order.
fn names_in(alloc: Global, terms: &[LockTerm]) -> Result<List<Name>, AllocError> {
    let mut names = Vec::new(alloc);
    for term in terms {
        add_names(&mut names, term)?;
    }
    in_order(alloc, names.as_slice())
}

fn has(set: &NameSet, name: &Name) -> bool {
    match set {
        NameSet::Only(only) => only == name,
        NameSet::AllBut(others) => !is_among(others.as_slice(), name),
    }
}

/// The formals of the entry of `draft`.
pub(crate) fn formals_of<'a>(ground: &Ground<'a>, draft: &Draft) -> &'a [Name] {
    match ground.program.line(draft.entry) {
        None => &[],
        Some(line) => match line.formals.as_ref() {
            None => &[],
            Some(formals) => formals.as_slice(),
        },
    }
}

// Those of `names` that are formals of the entry, as own names.
fn own_formals(ground: &Ground<'_>, draft: &Draft, names: &[Name]) -> Result<Vec<Own>, AllocError> {
    let mut own = Vec::new(ground.alloc);
    for name in names {
        if is_among(formals_of(ground, draft), name) {
            own.push(Own {
                level: 1,
                names: NameSet::Only(name.copy()?),
            })?;
        }
    }
    Ok(own)
}

// Whether `name` is no formal, and the call changes it or some call shares it.
fn is_changed(ground: &Ground<'_>, draft: &Draft, name: &Name) -> bool {
    if is_among(formals_of(ground, draft), name) {
        return false;
    }
    let mods = draft.block.summary.mods.as_slice();
    ground.program.is_shared(name) || mods.iter().any(|set| has(set, name))
}

// Whether `case` knows `name` as it was when the call began.
fn is_kept(ground: &Ground<'_>, draft: &Draft, case: &Case, name: &Name) -> bool {
    if is_among(formals_of(ground, draft), name) {
        return is_among(case.kept.as_slice(), name);
    }
    !is_own(case.own.as_slice(), name)
}

/// Whether `case` knows `names` as they were when the call began.
pub(crate) fn are_kept(ground: &Ground<'_>, draft: &Draft, case: &Case, names: &[Name]) -> bool {
    names.iter().all(|name| is_kept(ground, draft, case, name))
}

// Whether the fault is reached from a case of the point of this round with the names as they were when the call began.
fn is_reached_at(
    ground: &Ground<'_>,
    maker: &Maker,
    draft: &Draft,
    probe: &Probe<'_>,
    round: usize,
) -> Result<bool, AllocError> {
    let line = probe.site.line;
    if are_made_new(line, round, probe.fault.column, probe.names) {
        return Ok(false);
    }
    let at = At {
        line: line.number,
        round,
    };
    for case in draft.lists.cases(at) {
        if are_kept(ground, draft, case, probe.names)
            && is_reached(ground, maker, draft, probe, round, case)?
        {
            return Ok(true);
        }
    }
    Ok(false)
}

// Whether the fault is reached so from a case of any point of the line.
fn is_reached_on(
    ground: &Ground<'_>,
    maker: &Maker,
    draft: &Draft,
    probe: &Probe<'_>,
) -> Result<bool, AllocError> {
    for round in 0..rounds_in(&probe.site.line.commands).saturating_add(1) {
        if is_reached_at(ground, maker, draft, probe, round)? {
            return Ok(true);
        }
    }
    Ok(false)
}

/// Whether `fault` may be mended by locks that the caller holds: the entry is not declared, and `terms` mention formals that are
/// unchanged there, or names that are not own, that the call doesn't change, and that no call shares.
pub(crate) fn is_needed(
    ground: &Ground<'_>,
    maker: &Maker,
    draft: &Draft,
    site: Site<'_>,
    fault: Fault,
    terms: &[LockTerm],
) -> Result<bool, AllocError> {
    if draft.declared || terms.is_empty() {
        return Ok(false);
    }
    let names = names_in(ground.alloc, terms)?;
    let names = names.as_slice();
    if names.is_empty() {
        return Ok(true);
    }
    if names.iter().any(|name| is_changed(ground, draft, name)) {
        return Ok(false);
    }
    let own = own_formals(ground, draft, names)?;
    let probe = Probe {
        site,
        fault,
        names,
        own: own.as_slice(),
    };
    is_reached_on(ground, maker, draft, &probe)
}
