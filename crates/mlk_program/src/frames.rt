// Names passed by reference, per entry.

ghost use Rattle.std.specs.Prelude.{◌≡◌, ◌∷◌, [], IfOk, OnOk, flat_map, option_copied, option_map};
ghost use Rattle.std.specs.List.{list_any};
ghost use Rattle.mlk_syntax.specs.ExprTrees.{actual_of, actual_trees};
ghost use Rattle.mlk_syntax.specs.Views.{line_of};
ghost use Rattle.mlk_program.specs.Entries.{formals_of};
ghost use Rattle.mlk_program.specs.Program.{calls_of, is_by_reference};
ghost use Rattle.mlk_program.specs.Linking.{placed_at, placed_in};
ghost use Rattle.mlk_program.specs.Tables.{trees};
ghost use Rattle.mlk_program.specs.Frames.{is_kept, is_passed, lines_from_last, key_of, formals_of_entry};
ghost use Rattle.mlk_program.specs.Frames.{formals_known, filled_at, filled_by_list, filled_in, passed_at, passed_by_list};
ghost use Rattle.mlk_program.specs.Frames.{Learns, LearnsCalls, fillings, passed_in_lines, passed_from};

use crate::call::CallSite;
use crate::directory::{Directory, has_no_formals, item};
use crate::entry::EntryId;
use crate::found::in_commands;
use crate::part::RoutinePart;
use indexmap::{IndexMap, IndexSet};
use mlk_syntax::{Actual, Line, Routine};
use mlk_text::{LineNumber, Name};
use std::alloc::{AllocError, Global};
use std::marker::Model;

// A name at a place of a routine.
#[derive(Clone, Copy, Drop, PartialEq, Eq, Hash)]
struct NameAt<'a> {
    routine: usize,
    place: usize,
    name: &'a [u8],
}

/// The formals of entries to which calls pass by reference, and the names that are passed in the lines of entries.
#[derive(Drop)]
pub(crate) struct Frames<'a> {
    // each such formal, at the line of its entry
    filled: IndexSet<NameAt<'a>>,
    // each name, at the part in which it is passed, with the number of lines from the last that passes it on
    passed: IndexMap<NameAt<'a>, usize>,
}

impl<'a> Model for Frames<'a> {
    ghost use Rattle.mlk_program.specs.Frames.{Kept, keys_of, pairs_of};

    ghost Value = { Kept };

    ghost view = { λ f. (keys_of f.filled.keys, pairs_of f.passed.entries) };
}

fn is_by_reference(actual: &Actual) -> bool
    ensures { result ≡ is_by_reference (actual_of actual.now) }
{
    match actual {
        Actual::ByRef(_, _) => true,
        Actual::Value(_) | Actual::Missing => false,
    }
}

// Whether an actual list passes a name by reference.
fn any_by_reference(given: &[Actual]) -> bool
    ensures { result ≡ list_any (λ a. is_by_reference (actual_of a)) given.now }
{
    given.iter().any(|actual| is_by_reference(actual))
}

// The formals of `line`, or `None` without a formal list.
fn formals_of(line: &Line) -> Option<&[Name]>
    ensures { option_map (λ f. f.now) result ≡ formals_of (line_of line.now).0 }
{
    match line.formals.as_ref() {
        Some(formals) => Some(formals.as_slice()),
        None => None,
    }
}

// The formals of the line of `entry`, or `None` without a formal list.
fn formals_at<'a>(directory: &Directory<'a>, entry: EntryId) -> Option<&'a [Name]>
    ensures { option_map (λ f. f.now) result ≡ formals_known (formals_of_entry (trees directory.now) entry) }
{
    let Some(line) = directory.line(entry) else {
        return None;
    };
    formals_of(line)
}

impl<'a> Frames<'a> {
    fn new(alloc: Global) -> Frames<'a>
        ensures { result ≡ ([], []) }
    {
        Frames {
            filled: IndexSet::new(alloc),
            passed: IndexMap::new(alloc),
        }
    }

    fn is_filled(&self, key: &NameAt<'_>) -> bool
        ensures { result ≡ is_kept self.now.0 (key_of key.now) }
    {
        self.filled.contains(key)
    }

    // The number of lines from the last that passes a name in a part on, or `None` if none does.
    fn lines_from_last(&self, key: &NameAt<'_>) -> Option<usize>
        ensures { result ≡ lines_from_last (key_of key.now) self.now.1 }
    {
        self.passed.get(key).copied()
    }

    /// Whether some call passes by reference to the formal `formal` of `entry`. Allocates nothing.
    pub(crate) fn has_filled(&self, entry: EntryId, formal: &[u8]) -> bool
        ensures { result ≡ is_kept self.now.0 (entry.routine, entry.line, formal.now) }
    {
        let key = NameAt {
            routine: entry.routine,
            place: entry.line,
            name: formal,
        };
        self.is_filled(&key)
    }

    /// Whether `name` is passed in the line of `part`, or in a later line of its entry. Allocates nothing.
    pub(crate) fn has_passed(&self, part: RoutinePart, name: &[u8]) -> bool
        ensures { result ≡ is_passed self.now.1 (part.routine, part.past, name.now) part.left }
    {
        let key = NameAt {
            routine: part.routine,
            place: part.past,
            name,
        };
        match self.lines_from_last(&key) {
            Some(last) => last <= part.left,
            None => false,
        }
    }

    fn fill(&mut self, entry: EntryId, formal: &'a [u8]) -> Result<(), AllocError>
        ensures { OnOk result (Learns ((entry.routine, entry.line, formal.now) ∷ []) [] self.old self.new) }
    {
        let key = NameAt {
            routine: entry.routine,
            place: entry.line,
            name: formal,
        };
        let Ok(_) = self.filled.insert(key) else {
            return Err(AllocError);
        };
        Ok(())
    }

    fn pass(&mut self, part: RoutinePart, name: &'a [u8]) -> Result<(), AllocError>
        ensures { OnOk result
            (Learns [] (((part.routine, part.past, name.now), part.left) ∷ []) self.old self.new) }
    {
        if self.has_passed(part, name) {
            return Ok(());
        }
        let key = NameAt {
            routine: part.routine,
            place: part.past,
            name,
        };
        let Ok(_) = self.passed.insert(key, part.left) else {
            return Err(AllocError);
        };
        Ok(())
    }
}

fn pass_by<'a>(
    frames: &mut Frames<'a>,
    part: RoutinePart,
    actual: &'a Actual,
) -> Result<(), AllocError>
    ensures { OnOk result (Learns [] (passed_at part (actual_of actual.now)) frames.old frames.new) }
{
    match actual {
        Actual::ByRef(_, name) => frames.pass(part, name.as_bytes()),
        Actual::Value(_) | Actual::Missing => Ok(()),
    }
}

fn fill_by<'a>(
    frames: &mut Frames<'a>,
    entry: EntryId,
    formal: Option<&'a Name>,
    actual: &Actual,
) -> Result<(), AllocError>
    ensures { OnOk result (Learns (filled_at entry (option_copied formal.entry) (actual_of actual.now)) []
        frames.old frames.new) }
{
    match (formal, actual) {
        (Some(formal), Actual::ByRef(_, _)) => frames.fill(entry, formal.as_bytes()),
        _ => Ok(()),
    }
}

// Adds the names that the actual list `given` passes in a line of `part`.
fn pass_all<'a>(
    frames: &mut Frames<'a>,
    part: RoutinePart,
    given: &'a [Actual],
) -> Result<(), AllocError>
    ensures { OnOk result (Learns [] (passed_by_list part (actual_trees given.now)) frames.old frames.new) }
{
    for actual in given {
        pass_by(frames, part, actual)?;
    }
    Ok(())
}

// Adds the formals of `entry` to which the actual list `given` passes by reference.
fn fill_all<'a>(
    frames: &mut Frames<'a>,
    entry: EntryId,
    formals: &'a [Name],
    given: &[Actual],
) -> Result<(), AllocError>
    ensures { OnOk result (Learns (filled_by_list entry formals.now (actual_trees given.now)) []
        frames.old frames.new) }
{
    for (i, actual) in given.iter().enumerate() {
        fill_by(frames, entry, item(formals, i), actual)?;
    }
    Ok(())
}

// Adds the formals to which the call `site` passes by reference.
#[tactic(auto, using(crate::proofs::Learned::filled_unknown, crate::proofs::Learned::filled_without, crate::proofs::Learned::filled_with))]
fn fill_called<'a>(
    frames: &mut Frames<'a>,
    directory: &Directory<'a>,
    own: usize,
    site: &CallSite<'a>,
    given: &[Actual],
) -> Result<(), AllocError>
    ensures { OnOk result
        (Learns (filled_in (trees directory.now) own site.now.callee.now (actual_trees given.now)) []
        frames.old frames.new) }
{
    let Some(entry) = directory.target(own, site.callee) else {
        return Ok(());
    };
    let Some(formals) = formals_at(directory, entry) else {
        return Ok(());
    };
    fill_all(frames, entry, formals, given)?;
    Ok(())
}

// Adds the names that a call in a line of `part` passes, and the formals that receive them.
fn add_call<'a>(
    frames: &mut Frames<'a>,
    directory: &Directory<'a>,
    part: RoutinePart,
    line: LineNumber,
    site: &CallSite<'a>,
) -> Result<(), AllocError>
    ensures { OnOk result (LearnsCalls (trees directory.now) part (placed_at part.routine line site.now)
        frames.old frames.new) }
{
    let Some(given) = site.actuals else {
        return Ok(());
    };
    if !any_by_reference(given.as_slice()) {
        return Ok(());
    }
    pass_all(frames, part, given.as_slice())?;
    fill_called(frames, directory, part.routine, site, given.as_slice())
}

fn add_calls<'a>(
    frames: &mut Frames<'a>,
    directory: &Directory<'a>,
    part: RoutinePart,
    line: LineNumber,
    found: &[CallSite<'a>],
) -> Result<(), AllocError>
    ensures { OnOk result
        (LearnsCalls (trees directory.now) part (flat_map (placed_at part.routine line) found.now)
        frames.old frames.new) }
{
    for site in found {
        add_call(frames, directory, part, line, site)?;
    }
    Ok(())
}

// Adds what the calls of a line of `part` and of its block pass, and the formals that receive it.
#[cycle(lines)]
fn add_line<'a>(
    frames: &mut Frames<'a>,
    alloc: Global,
    directory: &Directory<'a>,
    part: RoutinePart,
    line: &'a Line,
) -> Result<(), AllocError>
    ensures { OnOk result (LearnsCalls (trees directory.now) part (placed_in part.routine line.now)
        frames.old frames.new) }
{
    let mut found = Vec::new(alloc);
    in_commands(&mut found, &line.commands)?;
    add_calls(frames, directory, part, line.number, found.as_slice())?;
    add_block(frames, alloc, directory, part, line.block.as_slice())?;
    Ok(())
}

#[cycle(lines)]
fn add_block<'a>(
    frames: &mut Frames<'a>,
    alloc: Global,
    directory: &Directory<'a>,
    part: RoutinePart,
    lines: &'a [Line],
) -> Result<(), AllocError>
    ensures { OnOk result (LearnsCalls (trees directory.now) part (flat_map (placed_in part.routine) lines.now)
        frames.old frames.new) }
{
    for line in lines {
        add_line(frames, alloc, directory, part, line)?;
    }
    Ok(())
}

// Adds what the calls in the lines of `routine` pass, and the formals that receive it, from the last line to the first.
fn add_lines<'a>(
    frames: &mut Frames<'a>,
    alloc: Global,
    directory: &Directory<'a>,
    routine: usize,
    lines: &'a [Line],
) -> Result<(), AllocError>
    ensures { OnOk result (Learns (fillings (trees directory.now) (flat_map (placed_in routine) lines.now))
        (passed_in_lines routine lines.now) frames.old frames.new) }
{
    let mut left = lines;
    let mut past: usize = 0;
    while let Some((line, before)) = left.split_last() {
        let part = RoutinePart {
            routine,
            past,
            left: lines.len() - before.len(),
        };
        add_line(frames, alloc, directory, part, line)?;
        if !has_no_formals(line) {
            past = part.left;
        }
        left = before;
    }
    Ok(())
}

// Adds what the calls of `routines` pass, and the formals that receive it.
fn add_routines<'a>(
    frames: &mut Frames<'a>,
    alloc: Global,
    directory: &Directory<'a>,
    routines: &'a [Routine],
) -> Result<(), AllocError>
    ensures { OnOk result (Learns (fillings (trees directory.now) (calls_of (trees routines.now)))
        (passed_from 0 routines.now) frames.old frames.new) }
{
    let mut left = routines;
    while let Some((routine, before)) = left.split_last() {
        add_lines(
            frames,
            alloc,
            directory,
            before.len(),
            routine.lines.as_slice(),
        )?;
        left = before;
    }
    Ok(())
}

impl<'a> Frames<'a> {
    /// Everything that the calls of the directory's routines pass by reference.
    pub(crate) fn of(alloc: Global, directory: &Directory<'a>) -> Result<Frames<'a>, AllocError>
        ensures { IfOk result (λ f. Learns (fillings (trees directory.now) (calls_of (trees directory.now)))
            (passed_from 0 directory.now) ([], []) f) }
    {
        let mut frames = Frames::new(alloc);
        add_routines(&mut frames, alloc, directory, directory.routines())?;
        Ok(frames)
    }
}
