// Where jobs and calls may begin.

use mlk_syntax::{Line, Routine};
use mlk_text::{LineNumber, Name, push_sparing};
use std::alloc::{AllocError, Global};

/// A line at which a job or a call is likely to begin: a routine's first, or one with a formal list.
#[derive(Clone, Copy, Drop)]
pub struct Entry<'a> {
    pub routine: &'a [u8],
    pub line: LineNumber,
    /// `None` if the first line has no label
    pub label: Option<&'a [u8]>,
    /// `None` without a formal list
    pub formals: Option<&'a [Name]>,
}

impl<'a> Entry<'a> {
    fn of(routine: &'a [u8], line: &'a Line) -> Entry<'a> {
        let label = match line.label.as_ref() {
            None => None,
            Some(label) => Some(label.as_bytes()),
        };
        let formals = match line.formals.as_ref() {
            None => None,
            Some(formals) => Some(formals.as_slice()),
        };
        Entry {
            routine,
            line: line.number,
            label,
            formals,
        }
    }
}

// Adds the entries of a routine.
fn add_entries<'a>(entries: &mut Vec<Entry<'a>>, routine: &'a Routine) -> Result<(), AllocError> {
    let name = routine.name.as_bytes();
    let Some((first, others)) = routine.lines.split_first() else {
        return Ok(());
    };
    push_sparing(entries, Entry::of(name, first))?;
    for line in others {
        if line.formals.is_some() {
            push_sparing(entries, Entry::of(name, line))?;
        }
    }
    Ok(())
}

/// The entries of `routines`, in the order of their lines.
pub(crate) fn entries_of<'a>(
    alloc: Global,
    routines: &[&'a Routine],
) -> Result<Vec<Entry<'a>>, AllocError> {
    let mut entries = Vec::new(alloc);
    for routine in routines {
        add_entries(&mut entries, routine)?;
    }
    Ok(entries)
}
