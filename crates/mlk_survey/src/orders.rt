// The order in which locks are claimed.

use crate::held::Held;
use crate::tally::Tally;
use mlk_survey_trees::{LockRoot, Mention, MentionAt};
use mlk_syntax::{Sign, Variable};
use mlk_text::push_sparing;
use std::alloc::{AllocError, Global};

/// The number of claims, in the text, of names with one root while a name with another root is held.
#[derive(Clone, Copy, Drop)]
pub struct LockOrder<'a> {
    pub held: LockRoot<'a>,
    pub claimed: LockRoot<'a>,
    pub claims: usize,
}

// A root that is held, and one that is claimed.
#[derive(Clone, Copy, Drop, PartialEq, Eq, PartialOrd, Ord, Hash)]
struct LockPair<'a> {
    held: LockRoot<'a>,
    claimed: LockRoot<'a>,
}

// Counts a claim for each name that is held.
fn add_pairs<'a>(
    pairs: &mut Tally<LockPair<'a>>,
    held: &[&'a Variable],
    claimed: LockRoot<'a>,
) -> Result<(), AllocError> {
    for name in held {
        if let Some(held) = LockRoot::of(name) {
            pairs.add(LockPair { held, claimed })?;
        }
    }
    Ok(())
}

// Counts the claims of `names`, which are claimed at once.
fn add_claims<'a>(
    pairs: &mut Tally<LockPair<'a>>,
    held: &[&'a Variable],
    names: &'a [Variable],
) -> Result<(), AllocError> {
    for name in names {
        if let Some(claimed) = LockRoot::of(name) {
            add_pairs(pairs, held, claimed)?;
        }
    }
    Ok(())
}

// The names that are claimed while others are held: an argument without sign releases all others first.
fn claimed_under<'a>(at: &MentionAt<'a>) -> &'a [Variable] {
    match at.mention {
        Mention::Lock(argument) if argument.sign == Sign::Plus => argument.names.as_slice(),
        _ => &[],
    }
}

// How often each root is claimed while each other is held.
fn count_pairs<'a>(
    alloc: Global,
    mentions: &[MentionAt<'a>],
) -> Result<Vec<(LockPair<'a>, usize)>, AllocError> {
    let mut held = Held::new(alloc);
    let mut pairs = Tally::new(alloc);
    for at in mentions {
        add_claims(&mut pairs, held.names(), claimed_under(at))?;
        held.apply_mention(at)?;
    }
    pairs.in_order(alloc)
}

/// The roots that `mentions` claim while others are held, in order.
pub(crate) fn orders_in<'a>(
    alloc: Global,
    mentions: &[MentionAt<'a>],
) -> Result<Vec<LockOrder<'a>>, AllocError> {
    let mut orders = Vec::new(alloc);
    for (pair, claims) in count_pairs(alloc, mentions)? {
        let LockPair { held, claimed } = pair;
        push_sparing(
            &mut orders,
            LockOrder {
                held,
                claimed,
                claims,
            },
        )?;
    }
    Ok(orders)
}
