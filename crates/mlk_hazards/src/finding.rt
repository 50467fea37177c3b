// The hazards of routines.

use crate::block::add_blocks;
use crate::hazard::{Hazard, HazardAt};
use crate::lines::{add_labels_alike, add_long_lines};
use crate::names::add_names;
use mlk_survey_trees::{Mention, MentionAt, mentions_of};
use mlk_syntax::Routine;
use mlk_text::push_sparing;
use std::alloc::{AllocError, Global};

// Adds the hazards of a mention.
fn add_mention<'a>(
    hazards: &mut Vec<HazardAt<'a>>,
    mention: &MentionAt<'a>,
) -> Result<(), AllocError> {
    match mention.mention {
        Mention::SkippedCall(column) => push_sparing(
            hazards,
            HazardAt {
                position: mention.position_at(column),
                hazard: Hazard::SkippedCall,
            },
        ),
        Mention::Lock(argument) => add_names(hazards, mention, argument),
        Mention::Begin
        | Mention::Touch(_)
        | Mention::Call(_, _)
        | Mention::Job(_)
        | Mention::Unlock => Ok(()),
    }
}

/// The hazards that the texts of `routines`, which contain `mentions`, show, in the order of their places.
pub fn hazards_in<'a>(
    alloc: Global,
    routines: &[&'a Routine],
    mentions: &[MentionAt<'a>],
) -> Result<Vec<HazardAt<'a>>, AllocError> {
    let mut hazards = Vec::new(alloc);
    for mention in mentions {
        add_mention(&mut hazards, mention)?;
    }
    for routine in routines {
        add_blocks(&mut hazards, routine)?;
        add_long_lines(
            &mut hazards,
            routine.name.as_bytes(),
            routine.lines.as_slice(),
        )?;
        add_labels_alike(alloc, &mut hazards, routine)?;
    }
    hazards.sort_by(|hazard, other| hazard.position.cmp(&other.position))?;
    Ok(hazards)
}

/// The hazards that the texts of `routines` show, in the order of their places.
pub fn hazards_of<'a>(
    alloc: Global,
    routines: &'a [Routine],
) -> Result<Vec<HazardAt<'a>>, AllocError> {
    let mut lent = Vec::with_capacity(alloc, routines.len())?;
    for routine in routines {
        push_sparing(&mut lent, routine)?;
    }
    let mentions = mentions_of(alloc, lent.as_slice())?;
    hazards_in(alloc, lent.as_slice(), mentions.as_slice())
}
