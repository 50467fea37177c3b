// The stale writes of a program.

ghost use Rattle.std.specs.Prelude.{IfOk, All};
ghost use Rattle.mlk_stale.specs.Stale.{IsStale};

use crate::judge::is_stale;
use crate::stale::StaleWrite;
use crate::walk::Walk;
use mlk_program::{EntryId, Program};
use mlk_rules::{Rules, entries};
use mlk_stale_steps::{Code, code_of};
use mlk_syntax::{Line, Routine};
use std::alloc::{AllocError, Global};

// Walks from the entries that `rules` declare.
fn walk_entries<'a>(
    walk: &mut Walk<'_, 'a>,
    code: &Code<'a>,
    program: &Program<'a>,
    rules: &Rules,
) -> Result<(), AllocError> {
    for text in entries(rules) {
        if let Some(entry) = program.entry(text.as_bytes()) {
            if let Some(mark) = code.lines.of(entry) {
                walk.walk_from(mark)?;
            }
        }
    }
    Ok(())
}

// Whether `line`, the line number `index` of its routine, is the routine's first one or has a label.
fn is_entry(index: usize, line: &Line) -> bool {
    index == 0 || line.label.is_some()
}

// Walks from each label of `routines` that no path has reached, except those whose marks are set in `others`.
fn walk_labels<'a>(
    walk: &mut Walk<'_, 'a>,
    code: &Code<'a>,
    routines: &'a [Routine],
    others: &[bool],
) -> Result<(), AllocError> {
    for (number, routine) in routines.iter().enumerate() {
        for (index, line) in routine.lines.iter().enumerate() {
            if !is_entry(index, line) {
                continue;
            }
            let Some(mark) = code.lines.of(EntryId::new(number, index)) else {
                continue;
            };
            let is_other = others.get(mark.index).copied().unwrap_or(false);
            if !is_other && !walk.has_reached(mark) {
                walk.walk_from(mark)?;
            }
        }
    }
    Ok(())
}

// Keeps the writes of `found` that are stale. All of them are, but nothing is proved of the walk that found them.
fn keep_stale(rules: &Rules, found: &mut Vec<StaleWrite<'_>>)
    ensures { All (IsStale rules.now) found.new.items }
{
    found.retain(|write| is_stale(rules, write));
}

/// Finds stale writes of `program` by `rules`, at most one at each place. Paths are followed from the declared entries, then from
/// labels that no path has reached: first from those that nothing calls, then from the others.
pub fn stale_writes<'a>(
    alloc: Global,
    program: &Program<'a>,
    rules: &Rules,
) -> Result<Vec<StaleWrite<'a>>, AllocError>
    ensures { IfOk result (λ found. All (IsStale rules.now) found.items) }
{
    let code = code_of(alloc, program)?;
    let called = code.called_marks(alloc)?;
    let mut walk = Walk::new(alloc, rules, &code)?;
    walk_entries(&mut walk, &code, program, rules)?;
    walk_labels(&mut walk, &code, program.routines(), called.as_slice())?;
    walk_labels(&mut walk, &code, program.routines(), &[])?;
    let Walk { found, .. } = walk;
    let mut found = found;
    keep_stale(rules, &mut found);
    Ok(found)
}
