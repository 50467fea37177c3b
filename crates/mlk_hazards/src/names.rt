// The names of an argument of LOCK.

use crate::hazard::{Hazard, HazardAt};
use mlk_survey_trees::{Likeness, MentionAt, likeness_of};
use mlk_syntax::{LockArgument, Sign, Variable};
use mlk_text::{Column, push_sparing};
use std::alloc::AllocError;

// The maximum number of names of an argument that are compared: a case can't list more than 16 locks, so if more names than
// that can be claimed at once, one of them occurs twice among the first 17.
const MOST_COMPARED: usize = 17;

// The names that are compared.
fn compared_names(argument: &LockArgument) -> &[Variable] {
    let names = argument.names.as_slice();
    let (first, _) = names.split_at(names.len().min(MOST_COMPARED));
    first
}

// The column of the first name that compares as `wanted` with one before it, or `None`.
fn first_like(argument: &LockArgument, wanted: Likeness) -> Option<Column> {
    let mut left = compared_names(argument);
    while let Some((name, rest)) = left.split_first() {
        if let Some(other) = rest.iter().find(|other| likeness_of(name, other) == wanted) {
            return Some(other.column);
        }
        left = rest;
    }
    None
}

// Adds a hazard if two names of the argument compare as `wanted`.
fn add_like<'a>(
    hazards: &mut Vec<HazardAt<'a>>,
    mention: &MentionAt<'a>,
    argument: &LockArgument,
    wanted: Likeness,
    hazard: Hazard,
) -> Result<(), AllocError> {
    match first_like(argument, wanted) {
        None => Ok(()),
        Some(column) => push_sparing(
            hazards,
            HazardAt {
                position: mention.position_at(column),
                hazard,
            },
        ),
    }
}

/// Adds the hazards of an argument of LOCK.
pub(crate) fn add_names<'a>(
    hazards: &mut Vec<HazardAt<'a>>,
    mention: &MentionAt<'a>,
    argument: &LockArgument,
) -> Result<(), AllocError> {
    add_like(
        hazards,
        mention,
        argument,
        Likeness::Same,
        Hazard::RepeatedName,
    )?;
    if argument.sign != Sign::None {
        return Ok(());
    }
    add_like(
        hazards,
        mention,
        argument,
        Likeness::Perhaps,
        Hazard::PerhapsOneName,
    )
}
