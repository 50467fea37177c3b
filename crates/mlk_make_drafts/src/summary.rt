// Summaries that grow.

use crate::lists::Listing;
use crate::order::{place_of_set, set_in_order};
use mlk_calls::is_exit;
use mlk_cert_parts::limit::{MOST_EXITS, MOST_MODS, MOST_TERMS};
use mlk_cert_parts::{Case, ExitCase, NameSet, Shared, Summary, place_of_term};
use mlk_names::LockTerm;
use mlk_text::List;
use std::alloc::{AllocError, Global};
use std::mem;

/// The summary of a call that does nothing.
pub(crate) fn empty_summary(alloc: Global) -> Summary {
    Summary {
        need: List::new(alloc),
        exits: List::new(alloc),
        mods: List::new(alloc),
        low: None,
        drops: false,
    }
}

/// Lists an exit that the walk found to be missing.
pub fn add_exit(
    alloc: Global,
    summary: &mut Summary,
    exit: ExitCase,
) -> Result<Listing, AllocError> {
    let case = Case {
        test: exit.test,
        held: exit.held.clone()?,
        own: Shared::new(alloc, Vec::new(alloc))?,
        kept: exit.kept.clone()?,
        saved: Shared::new(alloc, Vec::new(alloc))?,
    };
    if is_exit(summary.exits.as_slice(), &case) {
        return Ok(Listing::Known);
    }
    if summary.exits.as_slice().len() >= MOST_EXITS {
        return Ok(Listing::Full);
    }
    summary.exits.push(exit)?;
    Ok(Listing::Added)
}

// Lists names that may change.
fn add_mod(alloc: Global, summary: &mut Summary, set: NameSet) -> Result<Listing, AllocError> {
    let set = set_in_order(alloc, set)?;
    let mods = summary.mods.as_slice();
    if mods.contains(&set) {
        return Ok(Listing::Known);
    }
    if mods.len() >= MOST_MODS {
        return Ok(Listing::Full);
    }
    let place = place_of_set(alloc, mods, &set)?;
    let mut all = mem::replace(&mut summary.mods, List::new(alloc)).into_vec();
    all.insert(place, set)?;
    summary.mods = List::of(all);
    Ok(Listing::Added)
}

/// Lists names that may change.
pub fn add_mods(
    alloc: Global,
    summary: &mut Summary,
    sets: Vec<NameSet>,
) -> Result<Listing, AllocError> {
    let mut all = Listing::Known;
    for set in sets {
        match add_mod(alloc, summary, set)? {
            Listing::Known => {}
            Listing::Added => all = Listing::Added,
            Listing::Full => return Ok(Listing::Full),
        }
    }
    Ok(all)
}

/// Lowers the least rank to `rank`, unless it is lower already.
pub fn lower(summary: &mut Summary, rank: u32) -> Listing {
    let is_low = match summary.low {
        Some(low) => low <= rank,
        None => false,
    };
    if is_low {
        return Listing::Known;
    }
    summary.low = Some(rank);
    Listing::Added
}

/// Lists that a call may release all locks.
pub fn drop_all(summary: &mut Summary) -> Listing {
    if summary.drops {
        return Listing::Known;
    }
    summary.drops = true;
    Listing::Added
}

/// Lists the claims and the release of all locks of a callee; the claims come first.
pub fn widen(summary: &mut Summary, low: Option<u32>, drops: bool) -> Listing {
    if let Some(rank) = low
        && lower(summary, rank) == Listing::Added
    {
        return Listing::Added;
    }
    if drops {
        return drop_all(summary);
    }
    Listing::Known
}

/// Lists locks that a caller must hold.
pub(crate) fn add_needs(
    alloc: Global,
    summary: &mut Summary,
    terms: Vec<LockTerm>,
) -> Result<Listing, AllocError> {
    let mut need = Vec::from_clones(alloc, summary.need.as_slice())?;
    for term in terms {
        let place = place_of_term(alloc, need.as_slice(), &term)?;
        need.insert(place, term)?;
    }
    if need.len() > MOST_TERMS {
        return Ok(Listing::Full);
    }
    summary.need = List::of(need);
    Ok(Listing::Added)
}
