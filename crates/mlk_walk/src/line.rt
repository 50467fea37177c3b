// The faults of one line of an entry.

ghost use Rattle.std.specs.Prelude.{◌≡◌, [], IfOk, Some, map, filter};
ghost use Rattle.mlk_syntax.specs.Views.{routine_of};
ghost use Rattle.mlk_walk.specs.Faults.{ascending};
ghost use Rattle.mlk_walk.specs.Verdicts.{known, fault_in, is_of, line_faults_with, line_faults};

use crate::check::Checks;
use crate::entry::walk_all;
use crate::verdict::Verdict;
use mlk_calls::{Entries, Scope};
use mlk_cert_parts::{Certificate, EntryCert};
use mlk_program::{EntryId, Program};
use mlk_rules::Rules;
use mlk_text::LineNumber;
use mlk_walk_exprs::Faults;
use mlk_walk_lines::LineFaults;
use std::alloc::{AllocError, Global};

// The faults that the walk of `line` found.
fn faults_of(alloc: Global, found: LineFaults, line: LineNumber) -> Result<Faults, AllocError>
    ensures { IfOk result (λ f. f ≡ map fault_in (filter (is_of line) found)) }
{
    let mut faults = Faults::new(alloc);
    for (found, note) in found.into_vec() {
        if found.walked == line {
            faults.push(found.fault, note)?;
        }
    }
    Ok(faults)
}

// The faults of a line of an entry that is certified by `block`.
fn faults_by(
    alloc: Global,
    checks: &Checks<'_>,
    entry: EntryId,
    block: &EntryCert,
    line: LineNumber,
) -> Result<Faults, AllocError>
    ensures { IfOk result (λ f. f ≡ line_faults_with (map routine_of checks.now.program.now) checks.now.rules.now
        checks.now.entries.now entry line (Some block.now)) }
{
    let scope = Scope::of(checks.program, checks.rules, checks.entries, entry, block);
    let found = walk_all(alloc, checks.program, &scope, entry)?;
    faults_of(alloc, found, line)
}

#[tactic(auto, unfolding(crate::specs::Verdicts::line_faults))]
fn line_faults(
    alloc: Global,
    checks: &Checks<'_>,
    entry: EntryId,
    line: LineNumber,
) -> Result<Faults, AllocError>
    ensures { IfOk result (λ f. f ≡ line_faults (map routine_of checks.now.program.now) checks.now.rules.now
        checks.now.entries.now entry line) }
{
    match checks.entries.block(entry) {
        None => Ok(Faults::new(alloc)),
        Some(block) => faults_by(alloc, checks, entry, block, line),
    }
}

/// The faults that the walk of line `line` of the entry finds, in the order in which they are found, each with its note; empty if
/// the line is not one of the entry's. `line` is counted from 1 in its routine.
///
/// The whole entry is walked for it.
pub fn walk_line(
    alloc: Global,
    program: &Program<'_>,
    rules: &Rules,
    certificate: &Certificate,
    entry: EntryId,
    line: LineNumber,
) -> Result<Faults, AllocError>
    ensures { IfOk result (λ f. f ≡ line_faults (map routine_of program.now) rules.now
        (known (map routine_of program.now) rules.now certificate.now) entry line) }
{
    let entries = Entries::of(alloc, program, rules, certificate.blocks())?;
    let checks = Checks {
        program,
        rules,
        entries: &entries,
    };
    line_faults(alloc, &checks, entry, line)
}

/// The faults of `walk_line`, each once, in order.
pub fn check_line(
    alloc: Global,
    program: &Program<'_>,
    rules: &Rules,
    certificate: &Certificate,
    entry: EntryId,
    line: LineNumber,
) -> Result<Verdict, AllocError>
    ensures { IfOk result (λ v. v ≡ ascending (line_faults (map routine_of program.now) rules.now
        (known (map routine_of program.now) rules.now certificate.now) entry line)) }
{
    let mut verdict = Verdict::new(alloc);
    verdict.put_own(walk_line(alloc, program, rules, certificate, entry, line)?)?;
    Ok(verdict)
}
