// Which routines get a stub.

use mlk_suggest_read::PartlyRead;
use mlk_text::Name;
use mlk_text::spelling::is_name;
use std::alloc::{AllocError, Global};
use std::collections::BTreeSet;

/// Which routines get a stub.
#[derive(Clone, Copy, Drop)]
pub enum Wanted<'a> {
    /// those that are called and not given
    Missing,
    /// those that are called and not given, and those that can't be read
    MissingAndUnread,
    /// those of files with these names, without their endings, given or not
    Named(&'a [&'a str]),
}

/// The routines that get a stub.
#[derive(Drop)]
pub(crate) struct Scope<'a> {
    /// the names of routines whose stubs take their place
    pub(crate) replaced: BTreeSet<&'a [u8]>,
    /// the names of the routines that are given, if those that are called and not given get a stub
    given: Option<BTreeSet<&'a [u8]>>,
}

// The names of the routines that are given.
fn given_names<'a>(alloc: Global, read: &'a PartlyRead) -> Result<BTreeSet<&'a [u8]>, AllocError> {
    let mut names = BTreeSet::new(alloc);
    for routine in &read.routines {
        names.insert(routine.name.as_bytes())?;
    }
    for fault in &read.unread {
        names.insert(fault.place.routine.as_bytes())?;
    }
    Ok(names)
}

// The names of the routines that are given and can't be read.
fn unread_names<'a>(alloc: Global, read: &'a PartlyRead) -> Result<BTreeSet<&'a [u8]>, AllocError> {
    let mut names = BTreeSet::new(alloc);
    for fault in read.cuts.iter().chain(read.unread.iter()) {
        let name = fault.place.routine.as_bytes();
        if is_name(name) {
            names.insert(name)?;
        }
    }
    Ok(names)
}

impl<'a> Scope<'a> {
    /// The routines that are called and not given.
    pub(crate) fn missing(alloc: Global, read: &'a PartlyRead) -> Result<Scope<'a>, AllocError> {
        Ok(Scope {
            replaced: BTreeSet::new(alloc),
            given: Some(given_names(alloc, read)?),
        })
    }

    /// The routines that are called and not given, and those that can't be read.
    pub(crate) fn missing_and_unread(
        alloc: Global,
        read: &'a PartlyRead,
    ) -> Result<Scope<'a>, AllocError> {
        Ok(Scope {
            replaced: unread_names(alloc, read)?,
            given: Some(given_names(alloc, read)?),
        })
    }

    /// The routines with these names.
    pub(crate) fn named(alloc: Global, names: &'a [Name]) -> Result<Scope<'a>, AllocError> {
        let mut replaced = BTreeSet::new(alloc);
        for name in names {
            replaced.insert(name.as_bytes())?;
        }
        Ok(Scope {
            replaced,
            given: None,
        })
    }

    /// Whether the stub of `routine` takes its place, so that its text counts for nothing but its labels.
    pub(crate) fn replaces(&self, routine: &'a [u8]) -> bool {
        self.replaced.contains(&routine)
    }

    /// Whether `routine`, which is called, gets a stub.
    pub(crate) fn has(&self, routine: &'a [u8]) -> bool {
        if self.replaces(routine) {
            return true;
        }
        match &self.given {
            None => false,
            Some(given) => !given.contains(&routine),
        }
    }
}
