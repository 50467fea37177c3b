// Copies of the parts of blocks.

use mlk_calls::copy_case;
use mlk_cert_parts::{Case, EntryCert, ExitCase, Summary};
use mlk_text::List;
use std::alloc::{AllocError, Global};

/// Copies cases; the copies share their lists.
pub fn copy_cases(alloc: Global, cases: &[Case]) -> Result<List<Case>, AllocError> {
    let mut copies = List::new(alloc);
    for case in cases {
        copies.push(copy_case(case)?)?;
    }
    Ok(copies)
}

/// Copies an exit; the copy shares its lists.
pub(crate) fn copy_exit(exit: &ExitCase) -> Result<ExitCase, AllocError> {
    Ok(ExitCase {
        test: exit.test,
        held: exit.held.clone()?,
        kept: exit.kept.clone()?,
    })
}

fn copy_exits(alloc: Global, exits: &[ExitCase]) -> Result<List<ExitCase>, AllocError> {
    let mut copies = List::new(alloc);
    for exit in exits {
        copies.push(copy_exit(exit)?)?;
    }
    Ok(copies)
}

/// Copies a summary.
pub(crate) fn copy_summary(alloc: Global, summary: &Summary) -> Result<Summary, AllocError> {
    Ok(Summary {
        need: List::of(Vec::from_clones(alloc, summary.need.as_slice())?),
        exits: copy_exits(alloc, summary.exits.as_slice())?,
        mods: List::of(Vec::from_clones(alloc, summary.mods.as_slice())?),
        low: summary.low,
        drops: summary.drops,
    })
}

/// Copies a block without its points.
pub fn copy_summed(alloc: Global, block: &EntryCert) -> Result<EntryCert, AllocError> {
    Ok(EntryCert {
        entry: block.entry.copy()?,
        summary: copy_summary(alloc, &block.summary)?,
        points: List::new(alloc),
    })
}
