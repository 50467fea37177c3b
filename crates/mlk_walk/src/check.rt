// The check of an entry, and of a whole program.

ghost use Rattle.std.specs.Prelude.{◌≡◌, ◌∷◌, ◌++◌, [], IfOk, OnOk, map, flat_map, filter};
ghost use Rattle.mlk_syntax.specs.Views.{line_of, routine_of};
ghost use Rattle.mlk_walk_state.specs.Scope.{scope_with};
ghost use Rattle.mlk_walk.specs.Faults.{ascending};
ghost use Rattle.mlk_text.specs.declared.code.Code.TheVariants.{NoCertificate};
ghost use Rattle.mlk_program.specs.Entries.{line_of_entry, lines_in};
ghost use Rattle.mlk_walk.specs.Verdicts.{known, fault_at, entry_number, all_faults, verdict};
ghost use Rattle.mlk_walk.specs.Reports.{is_checked, rows_of, line_entries, entries_from, report};

use crate::entry::{number_of, walk_entry};
use crate::report::Report;
use crate::verdict::Verdict;
use mlk_calls::{Entries, Scope};
use mlk_cert_parts::{Certificate, EntryCert};
use mlk_program::{EntryId, Program};
use mlk_rules::Rules;
use mlk_syntax::{Line, Routine};
use mlk_text::{Code, Column};
use mlk_walk_exprs::{Fault, Mend, Note};
use std::alloc::{AllocError, Global};

/// The input of a check: a program, its rules, and what is known of its entries.
#[derive(Clone, Copy, Drop)]
pub struct Checks<'a> {
    pub program: &'a Program<'a>,
    pub rules: &'a Rules,
    /// the entries of this program, these rules and a certificate
    pub entries: &'a Entries<'a>,
}

/// The verdict of `entry` if the certificate had `block` for it instead of its own one.
pub fn verdict_by(
    alloc: Global,
    checks: &Checks<'_>,
    entry: EntryId,
    block: &EntryCert,
) -> Result<Verdict, AllocError>
    ensures { IfOk result (λ v. v ≡ ascending (all_faults (map routine_of checks.now.program.now) entry
        (scope_with (map routine_of checks.now.program.now) checks.now.rules.now checks.now.entries.now entry block.now))) }
{
    let scope = Scope::of(checks.program, checks.rules, checks.entries, entry, block);
    let walk = walk_entry(alloc, checks.program, &scope, entry)?;
    let mut verdict = Verdict::new(alloc);
    verdict.put_found(walk.lines.into_vec())?;
    verdict.put_own(walk.own)?;
    Ok(verdict)
}

// The fault of an entry without a block.
fn entry_fault(program: &Program, entry: EntryId) -> Fault
    ensures { result ≡ fault_at (entry_number (line_of_entry (map routine_of program.now) entry)) 1 NoCertificate }
{
    Fault {
        line: number_of(program.line(entry)),
        column: Column::new(1),
        code: Code::NoCertificate,
    }
}

/// The faults of an entry, as `check_entry` returns them, given what is known of all entries.
#[tactic(auto, unfolding(crate::specs::Verdicts::entry_faults))]
pub fn verdict_of(alloc: Global, checks: &Checks<'_>, entry: EntryId) -> Result<Verdict, AllocError>
    ensures { IfOk result (λ v. v ≡ verdict (map routine_of checks.now.program.now) checks.now.rules.now
        checks.now.entries.now entry) }
{
    if let Some(block) = checks.entries.block(entry) {
        return verdict_by(alloc, checks, entry, block);
    }
    let mut verdict = Verdict::new(alloc);
    verdict.put(entry_fault(checks.program, entry), Note::of(Mend::Nothing))?;
    Ok(verdict)
}

/// The faults of an entry: those of its begin and its exits, and those of the lines that it runs, walked from the cases of the
/// first block that names it.
///
/// Without a block it has the single fault `Code::NoCertificate`, at its line, column 1. This function reads the whole
/// certificate first; for many entries, construct `Checks` once and call `verdict_of`.
pub fn check_entry(
    alloc: Global,
    program: &Program<'_>,
    rules: &Rules,
    certificate: &Certificate,
    entry: EntryId,
) -> Result<Verdict, AllocError>
    ensures { IfOk result (λ v. v ≡ verdict (map routine_of program.now) rules.now
        (known (map routine_of program.now) rules.now certificate.now) entry) }
{
    let entries = Entries::of(alloc, program, rules, certificate.blocks())?;
    let checks = Checks {
        program,
        rules,
        entries: &entries,
    };
    verdict_of(alloc, &checks, entry)
}

fn is_checked(entries: &Entries<'_>, entry: EntryId) -> bool
    ensures { result ≡ is_checked entries.now entry }
{
    entries.block(entry).is_some() || entries.is_declared(entry)
}

// Checks an entry if it is certified or declared.
fn check_one(
    alloc: Global,
    checks: &Checks<'_>,
    entry: EntryId,
    report: &mut Report,
) -> Result<(), AllocError>
    ensures { OnOk result (report.new ≡ report.old ++ rows_of (map routine_of checks.now.program.now)
        checks.now.rules.now checks.now.entries.now entry) }
{
    if !is_checked(checks.entries, entry) {
        return Ok(());
    }
    report.add(entry, verdict_of(alloc, checks, entry)?)
}

// Checks the entries of a routine.
fn check_lines(
    alloc: Global,
    checks: &Checks<'_>,
    routine: usize,
    lines: &[Line],
    report: &mut Report,
) -> Result<(), AllocError>
    ensures { OnOk result (report.new ≡ report.old ++ flat_map
        (rows_of (map routine_of checks.now.program.now) checks.now.rules.now checks.now.entries.now)
        (line_entries routine 0 (map line_of lines.now))) }
{
    for (number, line) in lines.iter().enumerate() {
        if number == 0 || line.label.is_some() {
            check_one(alloc, checks, EntryId::new(routine, number), report)?;
        }
    }
    Ok(())
}

#[tactic(auto, using(mlk_program::proofs::Directories::lines_same))]
fn check_routine(
    alloc: Global,
    checks: &Checks<'_>,
    number: usize,
    routine: &Routine,
    report: &mut Report,
) -> Result<(), AllocError>
    ensures { OnOk result (report.new ≡ report.old ++ flat_map
        (rows_of (map routine_of checks.now.program.now) checks.now.rules.now checks.now.entries.now)
        (line_entries number 0 (lines_in (routine_of routine.now)))) }
{
    check_lines(alloc, checks, number, routine.lines.as_slice(), report)
}

fn check_routines(alloc: Global, checks: &Checks<'_>) -> Result<Report, AllocError>
    ensures { IfOk result (λ r. r ≡ flat_map
        (rows_of (map routine_of checks.now.program.now) checks.now.rules.now checks.now.entries.now)
        (entries_from 0 (map routine_of checks.now.program.now))) }
{
    let mut report = Report::new(alloc);
    for (number, routine) in checks.program.routines().iter().enumerate() {
        check_routine(alloc, checks, number, routine, &mut report)?;
    }
    Ok(report)
}

/// The report of a program: for each entry that is declared or certified, in the program's order, the faults of
/// `check_entry`.
#[tactic(auto, unfolding(crate::specs::Reports::report))]
pub fn report_of(
    alloc: Global,
    program: &Program<'_>,
    rules: &Rules,
    certificate: &Certificate,
) -> Result<Report, AllocError>
    ensures { IfOk result (λ r. r ≡ report (map routine_of program.now) rules.now certificate.now) }
{
    let entries = Entries::of(alloc, program, rules, certificate.blocks())?;
    let checks = Checks {
        program,
        rules,
        entries: &entries,
    };
    check_routines(alloc, &checks)
}
