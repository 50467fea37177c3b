// Labels that nothing reaches.

use crate::marks::Marks;
use mlk_program::EntryId;
use mlk_survey_trees::{Mention, MentionAt, mentions_in};
use mlk_syntax::{Line, LockArgument, Routine, Sign};
use mlk_text::{LineNumber, push_sparing};
use std::alloc::{AllocError, Global};

/// A label that no declared entry reaches, and below which, up to the next label, a global is touched or a lock claimed.
#[derive(Clone, Copy, Drop)]
pub struct UnreachedLabel<'a> {
    pub routine: &'a [u8],
    /// empty for a routine's first line without a label
    pub label: &'a [u8],
    pub line: LineNumber,
}

/// How many labels there are, first lines among them, how many of these are reached, and which matter and are not.
#[derive(Drop)]
pub(crate) struct Labels<'a> {
    pub(crate) all: usize,
    pub(crate) reached: usize,
    pub(crate) unreached: Vec<UnreachedLabel<'a>>,
}

/// Whether an argument of LOCK claims.
pub(crate) fn is_claim(argument: &LockArgument) -> bool {
    argument.sign != Sign::Minus && !argument.names.is_empty()
}

// Whether a mention touches a global or claims a lock.
fn matters(at: &MentionAt<'_>) -> bool {
    match at.mention {
        Mention::Touch(_) => true,
        Mention::Lock(argument) => is_claim(argument),
        _ => false,
    }
}

fn line_matters(alloc: Global, line: &Line) -> Result<bool, AllocError> {
    let mentions = mentions_in(alloc, b"", line)?;
    Ok(mentions.iter().any(matters))
}

impl<'a> Labels<'a> {
    // Counts a label.
    fn count(&mut self, is_reached: bool) {
        self.all = self.all.saturating_add(1);
        if is_reached {
            self.reached = self.reached.saturating_add(1);
        }
    }

    // Adds the label on the line with this index, which is not reached.
    fn add_unreached(&mut self, routine: &'a Routine, index: usize) -> Result<(), AllocError> {
        let Some(line) = routine.lines.get(index) else {
            return Ok(());
        };
        let label: &'a [u8] = match line.label.as_ref() {
            Some(label) => label.as_bytes(),
            None => b"",
        };
        let unreached = UnreachedLabel {
            routine: routine.name.as_bytes(),
            label,
            line: line.number,
        };
        push_sparing(&mut self.unreached, unreached)
    }

    // Adds the labels of the routine with this number.
    fn add_routine(
        &mut self,
        alloc: Global,
        marks: &Marks,
        number: usize,
        routine: &'a Routine,
    ) -> Result<(), AllocError> {
        // the line of the label above, if it is not reached and nothing below it matters so far
        let mut open: Option<usize> = None;
        for (index, line) in routine.lines.iter().enumerate() {
            if index == 0 || line.label.is_some() {
                let is_reached = marks.is_reached(EntryId::new(number, index));
                self.count(is_reached);
                open = if is_reached { None } else { Some(index) };
            }
            let Some(first) = open else {
                continue;
            };
            if line_matters(alloc, line)? {
                self.add_unreached(routine, first)?;
                open = None;
            }
        }
        Ok(())
    }
}

/// The labels of `routines`, whose reached lines are marked.
pub(crate) fn labels_of<'a>(
    alloc: Global,
    marks: &Marks,
    routines: &'a [Routine],
) -> Result<Labels<'a>, AllocError> {
    let mut labels = Labels {
        all: 0,
        reached: 0,
        unreached: Vec::new(alloc),
    };
    for (number, routine) in routines.iter().enumerate() {
        labels.add_routine(alloc, marks, number, routine)?;
    }
    Ok(labels)
}
