// The walk of an entry.

ghost use Rattle.std.specs.Prelude.{◌≡◌, ◌++◌, IfOk, map, option_map, option_copied};
ghost use Rattle.mlk_syntax.specs.Views.{line_of, routine_of};
ghost use Rattle.mlk_program.specs.Entries.{line_of_entry, lines_of};
ghost use Rattle.mlk_walk_state.specs.Scope.{scope_of};
ghost use Rattle.mlk_calls.specs.Calls.{formals_in};
ghost use Rattle.mlk_walk_lines.specs.Endings.{head_of};
ghost use Rattle.mlk_walk.specs.Verdicts.{head_after, entry_walk, entry_number, fault_in, all_faults};

use crate::begin::own_faults;
use mlk_calls::Scope;
use mlk_program::{EntryId, Program};
use mlk_syntax::Line;
use mlk_text::{LineNumber, Name};
use mlk_walk_exprs::Faults;
use mlk_walk_lines::{Around, LineFaults, walk_lines};
use std::alloc::{AllocError, Global};

/// The result of an entry's walk: the faults at its line, and those that the walks of its lines found.
#[derive(Drop)]
pub(crate) struct EntryWalk {
    pub(crate) own: Faults,
    pub(crate) lines: LineFaults,
}

/// The line after the lines of `entry`, or `None`.
pub(crate) fn line_after<'a>(program: &Program<'a>, entry: EntryId) -> Option<&'a Line>
    ensures { option_map head_of (option_copied result) ≡ head_after (map routine_of program.now) entry }
{
    program.line_after(entry)
}

pub(crate) fn formals_of<'a>(line: Option<&'a Line>) -> &'a [Name]
    ensures { result.now ≡ formals_in (option_map line_of (option_copied line.entry)) }
{
    match line {
        None => &[],
        Some(line) => match line.formals.as_ref() {
            None => &[],
            Some(formals) => formals.as_slice(),
        },
    }
}

// The number of an entry's line, 1 if it has none.
pub(crate) fn number_of(line: Option<&Line>) -> LineNumber
    ensures { result ≡ entry_number (option_map line_of (option_copied line.entry)) }
{
    match line {
        None => LineNumber::new(1),
        Some(line) => line.number,
    }
}

/// Walks the lines of an entry.
#[tactic(auto, using(mlk_walk_lines::proofs::Parts::entry_whole))]
pub(crate) fn walk_all<'a>(
    alloc: Global,
    program: &'a Program<'a>,
    scope: &'a Scope<'a>,
    entry: EntryId,
) -> Result<LineFaults, AllocError>
    ensures { IfOk result (λ f. f ≡ (entry_walk (map routine_of program.now) entry (scope_of scope.now)).faults) }
{
    let mut found = LineFaults::new(alloc);
    let after = line_after(program, entry);
    let lines = program.lines_of(entry);
    let _ = walk_lines(alloc, scope, lines, Around::Frame(after), after, &mut found)?;
    Ok(found)
}

/// Walks an entry in its scope: the faults at its line, and those that the walks of its lines find.
pub(crate) fn walk_entry<'a>(
    alloc: Global,
    program: &'a Program<'a>,
    scope: &'a Scope<'a>,
    entry: EntryId,
) -> Result<EntryWalk, AllocError>
    ensures { IfOk result (λ w. w.own ++ map fault_in w.lines ≡ all_faults (map routine_of program.now) entry (scope_of scope.now)) }
{
    let line = program.line(entry);
    let own = own_faults(alloc, scope, number_of(line), formals_of(line))?;
    let lines = walk_all(alloc, program, scope, entry)?;
    Ok(EntryWalk { own, lines })
}
