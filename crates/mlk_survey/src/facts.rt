// The results of a survey.

use crate::entries::{Entry, entries_of};
use crate::given::Given;
use crate::globals::{GlobalUse, globals_in};
use crate::locks::{LockUse, locks_in};
use crate::misfits::{MisfitCall, misfits_in};
use crate::missing::{MissingCall, missing_in};
use crate::orders::{LockOrder, orders_in};
use crate::refused::{RefusalCount, RefusedRoutine};
use mlk_hazards::{HazardAt, hazards_in};
use mlk_survey_trees::MentionAt;
use mlk_syntax::Routine;
use std::alloc::{AllocError, Global};

/// The results of a survey. Each list is in order: of names, or of places in the routines.
#[derive(Drop)]
pub struct Facts<'a> {
    /// the number of routines that were read
    pub read: usize,
    /// those that were refused, each at its first fault
    pub refused: Vec<RefusedRoutine<'a>>,
    /// their further lines that can't be read
    pub further: Vec<RefusedRoutine<'a>>,
    /// the routines that were not read, by the code and the word of their first faults, most first
    pub refusal_counts: Vec<RefusalCount<'a>>,
    /// the results for those that were read
    pub found: InRoutines<'a>,
}

/// The results for the routines that were read.
#[derive(Drop)]
pub struct InRoutines<'a> {
    /// calls of labels and routines that are not given
    pub missing: Vec<MissingCall<'a>>,
    /// calls whose actuals do not fit the called line
    pub misfits: Vec<MisfitCall<'a>>,
    /// the first lines of routines, and those with formal lists
    pub entries: Vec<Entry<'a>>,
    pub globals: Vec<GlobalUse<'a>>,
    /// claims, by their roots
    pub locks: Vec<LockUse<'a>>,
    /// claims of one root while another is held
    pub orders: Vec<LockOrder<'a>>,
    /// places where an implementation may differ
    pub hazards: Vec<HazardAt<'a>>,
}

impl<'a> InRoutines<'a> {
    /// The results for `routines`, which are in the order of their names and contain `mentions`.
    pub(crate) fn of(
        alloc: Global,
        given: &Given<'a>,
        routines: &[&'a Routine],
        mentions: &[MentionAt<'a>],
    ) -> Result<InRoutines<'a>, AllocError> {
        Ok(InRoutines {
            missing: missing_in(alloc, given, mentions)?,
            misfits: misfits_in(alloc, given, routines)?,
            entries: entries_of(alloc, routines)?,
            globals: globals_in(alloc, mentions)?,
            locks: locks_in(alloc, mentions)?,
            orders: orders_in(alloc, mentions)?,
            hazards: hazards_in(alloc, routines, mentions)?,
        })
    }
}
