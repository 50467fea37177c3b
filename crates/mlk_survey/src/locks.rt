// The locks that are claimed.

use crate::tally::Tally;
use mlk_survey_trees::{LockRoot, Mention, MentionAt};
use mlk_syntax::{LockArgument, Sign, Variable};
use mlk_text::push_sparing;
use std::alloc::{AllocError, Global};

/// The number of claims of names with a given root.
#[derive(Clone, Copy, Drop)]
pub struct LockUse<'a> {
    pub root: LockRoot<'a>,
    pub claims: usize,
}

// The names that an argument of LOCK claims.
fn claimed_names(argument: &LockArgument) -> &[Variable] {
    match argument.sign {
        Sign::None | Sign::Plus => argument.names.as_slice(),
        Sign::Minus => &[],
    }
}

// Counts the roots of `names`.
fn add_roots<'a>(roots: &mut Tally<LockRoot<'a>>, names: &'a [Variable]) -> Result<(), AllocError> {
    for name in names {
        if let Some(root) = LockRoot::of(name) {
            roots.add(root)?;
        }
    }
    Ok(())
}

// The number of claims of each root.
fn count_claims<'a>(
    alloc: Global,
    mentions: &[MentionAt<'a>],
) -> Result<Vec<(LockRoot<'a>, usize)>, AllocError> {
    let mut roots = Tally::new(alloc);
    for at in mentions {
        if let Mention::Lock(argument) = at.mention {
            add_roots(&mut roots, claimed_names(argument))?;
        }
    }
    roots.in_order(alloc)
}

/// The roots of the names that `mentions` claim, in order.
pub(crate) fn locks_in<'a>(
    alloc: Global,
    mentions: &[MentionAt<'a>],
) -> Result<Vec<LockUse<'a>>, AllocError> {
    let mut locks = Vec::new(alloc);
    for (root, claims) in count_claims(alloc, mentions)? {
        push_sparing(&mut locks, LockUse { root, claims })?;
    }
    Ok(locks)
}
