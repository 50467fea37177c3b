// The patches that mend faults at their places.

use crate::argument::{Argument, argument_at, name_length, reference_front};
use crate::patch::Patch;
use crate::site::{Remedy, Site};
use mlk_excerpts::split_at_column;
use mlk_explain_origins::{Grounds, RoutineFacts};
use mlk_program::EntryId;
use mlk_rules::{Rules, Template, TemplatePart};
use mlk_text::{Column, LineNumber};
use std::alloc::{AllocError, Global};

// The longest name that a letter may be put in front of, with its `^`.
const LONGEST_NAME: usize = 31;

// The maximum number of subscripts of a global.
const MOST_SUBSCRIPTS: usize = 32;

// Makes the patches of one routine after another.
#[derive(Drop)]
struct Patcher<'a> {
    alloc: Global,
    grounds: &'a Grounds<'a>,
    facts: RoutineFacts<'a>,
    // where the lines of the routine begin
    starts: Vec<usize>,
    touches: Vec<Patch>,
    // what takes arguments away, at most one on a line
    arguments: Vec<Patch>,
    cut: Vec<(usize, LineNumber)>,
}

// Where the lines of a routine begin.
fn starts_of(alloc: Global, texts: &[Vec<u8>], number: usize) -> Result<Vec<usize>, AllocError> {
    let mut starts = vec![in alloc; 0usize]?;
    let Some(text) = texts.get(number) else {
        return Ok(starts);
    };
    for (place, byte) in text.iter().enumerate() {
        if *byte == b'\n' {
            starts.push(place.saturating_add(1))?;
        }
    }
    Ok(starts)
}

fn place_of(column: Column) -> usize {
    (column.number() as usize).saturating_sub(1)
}

// What a name that is touched begins with, if it is that of a local.
fn local_front(text: &[u8]) -> Option<&'static str> {
    let length = name_length(text);
    match text {
        [b'^', b'%', ..] if length <= LONGEST_NAME => Some("zz"),
        [b'^', ..] if length > 1 && length <= LONGEST_NAME => Some("z"),
        _ => None,
    }
}

// The argument at a place of a line, if it is one that the remedy takes away.
fn removable(line: &[u8], place: usize, remedy: Remedy) -> Option<Argument> {
    let argument = argument_at(line, place)?;
    let is_meant = match remedy {
        Remedy::Lock => argument.is_of(line, b"Ll"),
        Remedy::Call => argument.is_of(line, b"DdJj") && argument.begins_at(place),
        _ => false,
    };
    if is_meant { Some(argument) } else { None }
}

// How many subscripts of a node decide which lock of a rule it needs.
fn count_in(lock: &Template) -> usize {
    let mut count = 0usize;
    for part in lock.parts.as_slice() {
        if let TemplatePart::Place(place) = part {
            count = count.max(place.saturating_add(1));
        }
    }
    count
}

// How many subscripts of a global decide which locks it needs: those that the lock of its cover has; all if it has several covers.
fn deciding_count(rules: &Rules, global: &[u8]) -> usize {
    let mut count = None;
    for cover in rules.lists().covers.as_slice() {
        if cover.pattern.global.as_bytes() != global {
            continue;
        }
        if count.is_some() {
            return MOST_SUBSCRIPTS;
        }
        let also = match &cover.also {
            Some(also) => count_in(also),
            None => 0,
        };
        count = Some(count_in(&cover.lock).max(also));
    }
    count.unwrap_or(0)
}

impl<'a> Patcher<'a> {
    fn new(
        alloc: Global,
        grounds: &'a Grounds<'a>,
        number: usize,
    ) -> Result<Patcher<'a>, AllocError> {
        Ok(Patcher {
            alloc,
            grounds,
            facts: RoutineFacts::of(alloc, grounds, number)?,
            starts: starts_of(alloc, grounds.texts, number)?,
            touches: Vec::new(alloc),
            arguments: Vec::new(alloc),
            cut: Vec::new(alloc),
        })
    }

    fn look_up(&mut self, number: usize) -> Result<(), AllocError> {
        if self.facts.number != number {
            self.facts = RoutineFacts::of(self.alloc, self.grounds, number)?;
            self.starts = starts_of(self.alloc, self.grounds.texts, number)?;
        }
        Ok(())
    }

    // The text of a line from a column on.
    fn text_at(&self, line: LineNumber, column: Column) -> &'a [u8] {
        let (_, rest) = split_at_column(self.facts.line(line), column);
        rest
    }

    // The patch at a place of a line, from 0; `None` if the routine has no such line.
    fn patch(&self, line: LineNumber, place: usize, bytes: Vec<u8>) -> Option<Patch> {
        let number = (line.number() as usize).saturating_sub(1);
        let begin = self.starts.get(number)?;
        Some(Patch {
            routine: self.facts.number,
            start: begin.saturating_add(place),
            bytes,
        })
    }

    // Makes the touch at a place one of a local, if its name is short enough.
    fn add_touch(&mut self, line: LineNumber, column: Column) -> Result<(), AllocError> {
        let Some(front) = local_front(self.text_at(line, column)) else {
            return Ok(());
        };
        let bytes = Vec::from_slice(self.alloc, front.as_bytes())?;
        if let Some(patch) = self.patch(line, place_of(column), bytes) {
            self.touches.push(patch)?;
        }
        Ok(())
    }

    // The lines of an entry, from the first to the last.
    fn span(&self, entry: EntryId) -> (LineNumber, LineNumber) {
        let lines = self.grounds.program.lines_of(entry);
        match (lines.first(), lines.last()) {
            (Some(first), Some(last)) => (first.number, last.number),
            _ => (LineNumber::new(1), LineNumber::new(u32::MAX)),
        }
    }

    // Makes the touches of an entry that need the same lock as the one at a site touches of a local.
    fn add_alike(&mut self, site: &Site) -> Result<(), AllocError> {
        let text = self.text_at(site.fault.line, site.fault.column);
        let (name, _) = text.split_at(name_length(text).min(text.len()));
        let global = name.strip_prefix(b"^").unwrap_or(name);
        let count = deciding_count(self.grounds.rules, global);
        let front = reference_front(text, count);
        let (first, last) = self.span(site.entry);
        for (line, column) in self.facts.uses_of(self.alloc, global, first, last)? {
            if reference_front(self.text_at(line, column), count) == front {
                self.add_touch(line, column)?;
            }
        }
        Ok(())
    }

    // Makes all touches of the global at a site touches of a local.
    fn add_all(&mut self, site: &Site) -> Result<(), AllocError> {
        let text = self.text_at(site.fault.line, site.fault.column);
        let (name, _) = text.split_at(name_length(text).min(text.len()));
        let global = name.strip_prefix(b"^").unwrap_or(name);
        let (first, last) = (LineNumber::new(1), LineNumber::new(u32::MAX));
        for (line, column) in self.facts.uses_of(self.alloc, global, first, last)? {
            self.add_touch(line, column)?;
        }
        Ok(())
    }

    // Takes the argument at a site away, unless one of its line is taken away already.
    fn add_argument(&mut self, site: &Site) -> Result<(), AllocError> {
        let line = self.facts.line(site.fault.line);
        let here = (self.facts.number, site.fault.line);
        if self.cut.iter().any(|other| *other == here) {
            return Ok(());
        }
        let Some(argument) = removable(line, place_of(site.fault.column), site.remedy) else {
            return Ok(());
        };
        let Some(blanks) = argument.blanked(self.alloc, line)? else {
            return Ok(());
        };
        if let Some(patch) = self.patch(site.fault.line, blanks.start, blanks.bytes) {
            self.arguments.push(patch)?;
            self.cut.push(here)?;
        }
        Ok(())
    }

    fn add(&mut self, site: &Site) -> Result<(), AllocError> {
        match site.remedy {
            Remedy::Touch => self.add_touch(site.fault.line, site.fault.column),
            Remedy::TouchesOfLock => self.add_alike(site),
            Remedy::TouchesOfGlobal => self.add_all(site),
            Remedy::Lock | Remedy::Call => self.add_argument(site),
        }
    }

    // The patches: those of arguments last, since touches are in them.
    fn into_patches(self) -> Result<Vec<Patch>, AllocError> {
        let mut patches = self.touches;
        let mut arguments = self.arguments;
        patches.append(&mut arguments)?;
        Ok(patches)
    }
}

/// The patches that mend what is at these sites.
pub(crate) fn patches_for(
    alloc: Global,
    grounds: &Grounds<'_>,
    sites: Vec<Site>,
) -> Result<Vec<Patch>, AllocError> {
    let mut sites = sites;
    sites.sort_unstable();
    let mut patcher = Patcher::new(alloc, grounds, 0)?;
    let mut last = None;
    for site in &sites {
        if last != Some(*site) {
            patcher.look_up(site.entry.routine())?;
            patcher.add(site)?;
            last = Some(*site);
        }
    }
    patcher.into_patches()
}
