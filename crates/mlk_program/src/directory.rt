// Routines with indexes of their names and labels.

ghost use Rattle.std.specs.Prelude.{◌≡◌, IfOk, Some, None, option_map, option_and_then, option_copied, slice_get, map, take, drop, suc};
ghost use Rattle.mlk_syntax.specs.Views.{line_of};
ghost use Rattle.mlk_program.specs.Entries.{entry_in, routine_named, target_of, entry_by};
ghost use Rattle.mlk_program.specs.Entries.{line_of_entry, lines_of, line_after, line_named, lines_in};
ghost use Rattle.mlk_program.specs.Entries.{has_no_formals, label_of, text_with, text_of_entry};
ghost use Rattle.mlk_program.specs.Frames.{part_of};
ghost use Rattle.mlk_program.specs.Tables.{trees, AreTables, AreLater, first_of, later_lines, later_of};

use crate::entry::EntryId;
use crate::part::RoutinePart;
use crate::table::NamePlaces;
use mlk_syntax::{Callee, Line, Routine};
use mlk_text::{Name, spelling};
use std::alloc::{AllocError, Global};
use std::marker::Model;

/// Routines whose lines are found by name.
#[derive(Drop)]
pub(crate) struct Directory<'a> {
    routines: &'a [Routine],
    names: NamePlaces<'a>,
    labels: Vec<NamePlaces<'a>>,
    /// for each line of each routine, how many later lines belong to its entry
    later: Vec<Vec<usize>>,
}

impl<'a> Model for Directory<'a> {
    ghost use Rattle.std.specs.Prelude.{List, Some};
    ghost use Rattle.mlk_syntax.specs.declared.routine.Routine.{Routine};
    ghost use Rattle.mlk_program.specs.Tables.{IsTableOf, AreTables, AreLater};
    ghost use Rattle.mlk_syntax.specs.contracts.routine.Line as line;
    ghost use Rattle.std.specs.Coded.{codes};

    ghost Value = { List Routine };

    ghost coded = { Prim.hlevel (codes, line.the_row.coded) };

    ghost view = { λ d. d.routines.now };

    ghost invariant = { λ d. IsTableOf (λ r. Some r.name) d.routines.now d.names
        × AreTables d.routines.now d.labels.items
        × AreLater d.routines.now d.later.items };
}

// The indexes of the routines' labels.
fn label_tables<'a>(
    alloc: Global,
    routines: &'a [Routine],
) -> Result<Vec<NamePlaces<'a>>, AllocError>
    ensures { IfOk result (λ v. AreTables routines.now v.items) }
{
    let mut tables = Vec::new(alloc);
    for routine in routines {
        let Ok(()) = tables.push(NamePlaces::of(alloc, routine.lines.as_slice())?) else {
            return Err(AllocError);
        };
    }
    Ok(tables)
}

/// The item at `place`, or `None`.
pub(crate) fn item<T>(items: &[T], place: usize) -> Option<&T>
    ensures { option_copied result ≡ slice_get items.now place }
{
    items.get(place)
}

// The index of the first line, or `None`.
fn first_of(lines: &[Line]) -> Option<usize>
    ensures { result ≡ first_of lines.now }
{
    if lines.is_empty() { None } else { Some(0) }
}

// The lines after the first `count`.
fn lines_after(lines: &[Line], count: usize) -> &[Line]
    ensures { result.now ≡ drop count lines.now }
{
    if count >= lines.len() {
        return &[];
    }
    let (_, after) = lines.split_at(count);
    after
}

/// Whether `line` has no formal list.
pub(crate) fn has_no_formals(line: &Line) -> bool
    ensures { result ≡ has_no_formals (line_of line.now) }
{
    !line.formals.is_some()
}

// For each line, how many lines follow it before the next one with a formal list.
fn later_lines(alloc: Global, lines: &[Line]) -> Result<Vec<usize>, AllocError>
    ensures { IfOk result (λ v. v.items ≡ later_lines lines.now) }
{
    let mut counts = Vec::with_capacity(alloc, lines.len())?;
    let mut left = lines;
    let mut end = lines.len();
    while let Some((line, before)) = left.split_last() {
        counts.push(end - left.len())?;
        if !has_no_formals(line) {
            end = before.len();
        }
        left = before;
    }
    counts.reverse();
    Ok(counts)
}

// `later_lines` of each routine.
fn later_in_routines(alloc: Global, routines: &[Routine]) -> Result<Vec<Vec<usize>>, AllocError>
    ensures { IfOk result (λ v. AreLater routines.now v.items) }
{
    let mut counts = Vec::new(alloc);
    for routine in routines {
        counts.push(later_lines(alloc, routine.lines.as_slice())?)?;
    }
    Ok(counts)
}

// The first line and up to `later` lines after it.
#[tactic(auto, using(crate::proofs::EntryLines::take_within))]
fn first_lines(lines: &[Line], later: usize) -> &[Line]
    ensures { result.now ≡ take (suc later) lines.now }
{
    let Some((_, others)) = lines.split_first() else {
        return &[];
    };
    let (first, _) = lines.split_at(1 + later.min(others.len()));
    first
}

// The text of the entry at `line` of `routine`.
fn entry_text(alloc: Global, line: &Line, routine: &Name) -> Result<Vec<u8>, AllocError>
    ensures { IfOk result (λ v. v.items ≡ text_with (label_of (line_of line.now).0) routine.now) }
{
    let mut text = Vec::new(alloc);
    if let Some(label) = line.label.as_ref() {
        text.extend_from_slice(label.as_bytes())?;
    }
    text.push(b'^')?;
    text.extend_from_slice(routine.as_bytes())?;
    Ok(text)
}

impl<'a> Directory<'a> {
    /// The directory of `routines`.
    pub(crate) fn of(alloc: Global, routines: &'a [Routine]) -> Result<Directory<'a>, AllocError>
        ensures { IfOk result (λ d. d ≡ routines.now) }
    {
        Ok(Directory {
            routines,
            names: NamePlaces::of(alloc, routines)?,
            labels: label_tables(alloc, routines)?,
            later: later_in_routines(alloc, routines)?,
        })
    }

    /// The routines, in the order given.
    pub(crate) fn routines(&self) -> &'a [Routine]
        ensures { result.now ≡ self.now }
    {
        self.routines
    }

    /// The index of the routine `name`, or `None`.
    #[tactic(auto, using(crate::proofs::Directories::routine_found))]
    pub(crate) fn routine(&self, name: &[u8]) -> Option<usize>
        ensures { result ≡ routine_named (trees self.now) name.now }
    {
        self.names.place(name)
    }

    // The index of the line with the label `label` in `routine`, or `None`.
    #[tactic(auto, using(crate::proofs::Directories::label_some, crate::proofs::Directories::label_none))]
    fn labelled_line(&self, routine: usize, label: &[u8]) -> Option<usize>
        ensures { result ≡ option_and_then (λ tree. line_named (Some label.now) (lines_in tree))
            (slice_get (trees self.now) routine) }
    {
        let Some(table) = item(self.labels.as_slice(), routine) else {
            return None;
        };
        table.place(label)
    }

    // The index of the first line of `routine`, or `None`.
    #[tactic(auto, using(crate::proofs::Directories::first_some, crate::proofs::Directories::first_none))]
    fn first_line(&self, routine: usize) -> Option<usize>
        ensures { result ≡ option_and_then (λ tree. line_named None (lines_in tree))
            (slice_get (trees self.now) routine) }
    {
        let Some(routine) = item(self.routines, routine) else {
            return None;
        };
        first_of(routine.lines.as_slice())
    }

    // The entry that `label` names in `routine`, or `None`.
    fn entry_in(&self, routine: usize, label: Option<&[u8]>) -> Option<EntryId>
        ensures { result ≡ entry_in (trees self.now) routine (option_map (λ b. b.now) label.entry) }
    {
        let line = match label {
            None => self.first_line(routine)?,
            Some(label) => self.labelled_line(routine, label)?,
        };
        Some(EntryId { routine, line })
    }

    /// The entry that `callee` names if the call is in the routine `own`, or `None`.
    pub(crate) fn target(&self, own: usize, callee: &Callee) -> Option<EntryId>
        ensures { result ≡ target_of (trees self.now) own callee.now }
    {
        let routine = match &callee.routine {
            None => own,
            Some(name) => self.routine(name.as_bytes())?,
        };
        match &callee.label {
            None => self.entry_in(routine, None),
            Some(label) => self.entry_in(routine, Some(label.as_bytes())),
        }
    }

    /// The entry that `text` names, or `None`.
    pub(crate) fn entry(&self, text: &[u8]) -> Option<EntryId>
        ensures { result ≡ entry_by (trees self.now) text.now }
    {
        let parts = spelling::entry(text)?;
        let routine = self.routine(parts.routine)?;
        if parts.label.is_empty() {
            self.entry_in(routine, None)
        } else {
            self.entry_in(routine, Some(parts.label))
        }
    }

    /// The line of `entry`, or `None`.
    #[tactic(auto, using(crate::proofs::Directories::line_some, crate::proofs::Directories::line_none))]
    pub(crate) fn line(&self, entry: EntryId) -> Option<&'a Line>
        ensures { option_map (λ l. line_of l.now) result ≡ line_of_entry (trees self.now) entry }
    {
        let Some(routine) = item(self.routines, entry.routine) else {
            return None;
        };
        item(routine.lines.as_slice(), entry.line)
    }

    // How many lines of `entry` follow its first, or `None`.
    #[tactic(auto, using(crate::proofs::EntryLines::later_some, crate::proofs::EntryLines::later_none))]
    fn later_line_count(&self, entry: EntryId) -> Option<usize>
        ensures { result ≡ later_of self.now entry }
    {
        let Some(counts) = item(self.later.as_slice(), entry.routine) else {
            return None;
        };
        item(counts.as_slice(), entry.line).copied()
    }

    /// The routine of `entry`, or `None`.
    pub(crate) fn routine_of(&self, entry: EntryId) -> Option<&'a Routine>
        ensures { option_copied result ≡ slice_get self.now entry.routine }
    {
        item(self.routines, entry.routine)
    }

    /// The lines of an entry.
    #[tactic(auto, using(crate::proofs::EntryLines::lines_taken, crate::proofs::EntryLines::lines_none, crate::proofs::EntryLines::no_lines_left))]
    pub(crate) fn lines_of(&self, entry: EntryId) -> &'a [Line]
        ensures { map line_of result.now ≡ lines_of (trees self.now) entry }
    {
        let Some(routine) = item(self.routines, entry.routine) else {
            return &[];
        };
        match self.later_line_count(entry) {
            Some(later) => first_lines(lines_after(routine.lines.as_slice(), entry.line), later),
            None => &[],
        }
    }

    /// The line after the lines of `entry`, or `None` if they extend to the routine's end.
    #[tactic(auto, using(crate::proofs::EntryLines::after_some, crate::proofs::EntryLines::after_none))]
    pub(crate) fn line_after(&self, entry: EntryId) -> Option<&'a Line>
        ensures { option_map (λ l. line_of l.now) result ≡ line_after (trees self.now) entry }
    {
        let Some(routine) = item(self.routines, entry.routine) else {
            return None;
        };
        let left = lines_after(routine.lines.as_slice(), entry.line);
        item(left, self.lines_of(entry).len())
    }

    /// The part of a routine that begins at the line of `entry`.
    #[tactic(auto, using(crate::proofs::EntryParts::part_some, crate::proofs::EntryParts::part_none, crate::proofs::EntryParts::part_past, crate::proofs::EntryParts::part_counted))]
    pub(crate) fn part_of(&self, entry: EntryId) -> RoutinePart
        ensures { result ≡ part_of self.now entry }
    {
        let none = RoutinePart {
            routine: entry.routine,
            past: 0,
            left: 0,
        };
        let Some(routine) = item(self.routines, entry.routine) else {
            return none;
        };
        let left = lines_after(routine.lines.as_slice(), entry.line);
        let Some((_, others)) = left.split_first() else {
            return none;
        };
        let Some(later) = self.later_line_count(entry) else {
            return none;
        };
        RoutinePart {
            routine: entry.routine,
            past: lines_after(others, later).len(),
            left: left.len(),
        }
    }

    /// The text of `entry`, or `None`.
    #[tactic(auto, using(crate::proofs::Directories::text_some, crate::proofs::Directories::text_none, crate::proofs::Directories::text_no_line))]
    pub(crate) fn text_of(
        &self,
        alloc: Global,
        entry: EntryId,
    ) -> Result<Option<Vec<u8>>, AllocError>
        ensures { IfOk result (λ o. option_map (λ v. v.items) o ≡ text_of_entry (trees self.now) entry) }
    {
        let Some(routine) = item(self.routines, entry.routine) else {
            return Ok(None);
        };
        let Some(line) = item(routine.lines.as_slice(), entry.line) else {
            return Ok(None);
        };
        Ok(Some(entry_text(alloc, line, &routine.name)?))
    }
}
