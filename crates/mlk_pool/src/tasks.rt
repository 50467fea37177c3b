// The entries of a program, and which of them are tasks.

ghost use Rattle.std.specs.Prelude.{◌≡◌, ◌++◌, OnOk, IfOk, map, filter};
ghost use Rattle.mlk_syntax.specs.Views.{line_of, routine_of};
ghost use Rattle.mlk_program.specs.Entries.{lines_in};
ghost use Rattle.mlk_walk.specs.Reports.{line_entries, entries_from};
ghost use Rattle.mlk_pool.specs.Given.{is_certified};

use mlk_calls::Entries;
use mlk_program::{EntryId, Program};
use mlk_syntax::{Line, Routine};
use std::alloc::{AllocError, Global};

// Adds the entries of a routine: its first line, and each line with a label.
fn add_lines(routine: usize, lines: &[Line], entries: &mut Vec<EntryId>) -> Result<(), AllocError>
    ensures { OnOk result (entries.new.items ≡ entries.old.items ++ line_entries routine 0 (map line_of lines.now)) }
{
    for (number, line) in lines.iter().enumerate() {
        if number == 0 || line.label.is_some() {
            entries.push(EntryId::new(routine, number))?;
        }
    }
    Ok(())
}

#[tactic(auto, using(mlk_program::proofs::Directories::lines_same))]
fn add_routine(
    number: usize,
    routine: &Routine,
    entries: &mut Vec<EntryId>,
) -> Result<(), AllocError>
    ensures { OnOk result (entries.new.items ≡ entries.old.items ++ line_entries number 0 (lines_in (routine_of routine.now))) }
{
    add_lines(number, routine.lines.as_slice(), entries)
}

/// The entries of a program, in its order.
pub(crate) fn entries_of(alloc: Global, program: &Program<'_>) -> Result<Vec<EntryId>, AllocError>
    ensures { IfOk result (λ v. v.items ≡ entries_from 0 (map routine_of program.now)) }
{
    let mut entries = Vec::new(alloc);
    for (number, routine) in program.routines().iter().enumerate() {
        add_routine(number, routine, &mut entries)?;
    }
    Ok(entries)
}

/// Whether an entry is certified. It takes no memory.
pub(crate) fn is_certified(known: &Entries<'_>, entry: EntryId) -> bool
    ensures { result ≡ is_certified known.now.0 entry }
{
    known.block(entry).is_some()
}

/// The certified ones of these entries.
pub(crate) fn certified_entries(
    alloc: Global,
    known: &Entries<'_>,
    entries: &[EntryId],
) -> Result<Vec<EntryId>, AllocError>
    ensures { IfOk result (λ v. v.items ≡ filter (is_certified known.now.0) entries.now) }
{
    let mut tasks = Vec::new(alloc);
    for entry in entries {
        if is_certified(known, *entry) {
            tasks.push(*entry)?;
        }
    }
    Ok(tasks)
}
