// From the texts of a program to its report.

ghost use Rattle.std.specs.Prelude.{map, IfOk, IfErr};
ghost use Rattle.mlk_syntax.specs.Views.{routine_of};
ghost use Rattle.mlk_machine_laws.specs.WellFormed.{AreFormed};
ghost use Rattle.mlk_pool.specs.Headline.{IsReportBy, Verified, IsUnreportedBy, IsUnverified};
ghost use Rattle.mlk_pool.specs.Refusals.{AreAllowed};
ghost use Rattle.mlk_pool.specs.Stages.{IsReportByTexts, IsReportOfTrees, IsUnreportedByTexts, IsUnreportedOfTrees};

use crate::error::{CheckError, entry_missing};
use crate::gate::Gate;
use crate::report::report_by;
use mlk_cert::{Certificate, read_cert};
use mlk_program::{Program, link};
use mlk_reading::{Source, read_routines};
use mlk_rules::Rules;
use mlk_rules_file::read_rules;
use mlk_syntax::Routine;
use mlk_walk::missing_entry;
use mlk_watch::{Runner, Watch};
use std::sync::Wait;
use std::thread::Threads;

/// A report on the texts of a program: its routines, and the faults of its entries.
#[derive(Drop)]
pub struct ProgramReport {
    pub routines: Vec<Routine>,
    pub rows: mlk_walk::Report,
}

/// Reports on `program` by its rules and `certificate`; 1 to 64 workers check the entries side by side.
///
/// Refuses, in this order: the first entry of the rules, then of the certificate, that is not in the program (901); a number of
/// workers that is not 1 to 64 (902); and the first task to which `gate` lets nobody pass (903).
pub fn verify_program<G: Gate + Sync, W: Watch, R: Threads + Wait + Sync>(
    runner: &Runner<'_, R, W>,
    program: &Program<'_>,
    rules: &Rules,
    certificate: &Certificate,
    workers: usize,
    gate: &G,
) -> Result<mlk_walk::Report, CheckError>
    requires { AreFormed (map routine_of program.now) }
    ensures ok { IfOk result (IsReportBy (map routine_of program.now) rules.now certificate.now) }
    ensures allowed { IfOk result (λ _. AreAllowed workers) }
    ensures refused { IfErr result (IsUnreportedBy (G.is_open gate.now) workers (map routine_of program.now) rules.now certificate.now) }
{
    if let Some(entry) = missing_entry(program, rules, certificate) {
        return Err(entry_missing(runner.alloc, entry));
    }
    let rows = report_by(runner, program, rules, certificate, workers, gate)?;
    Ok(rows)
}

// The report of `program`, by the texts of rules and of a certificate.
fn rows_of_program<G: Gate + Sync, W: Watch, R: Threads + Wait + Sync>(
    runner: &Runner<'_, R, W>,
    program: &Program<'_>,
    rules_text: &[u8],
    cert_text: &[u8],
    workers: usize,
    gate: &G,
) -> Result<mlk_walk::Report, CheckError>
    requires { AreFormed (map routine_of program.now) }
    ensures ok { IfOk result (IsReportByTexts rules_text.now cert_text.now (map routine_of program.now)) }
    ensures allowed { IfOk result (λ _. AreAllowed workers) }
    ensures refused { IfErr result (IsUnreportedByTexts (G.is_open gate.now) workers rules_text.now cert_text.now
        (map routine_of program.now)) }
{
    let rules = read_rules(runner.alloc, rules_text)?;
    let certificate = read_cert(runner.alloc, cert_text)?;
    verify_program(runner, program, &rules, &certificate, workers, gate)
}

// The report of the program that these routines make, by the texts of rules and of a certificate.
fn rows_of_routines<G: Gate + Sync, W: Watch, R: Threads + Wait + Sync>(
    runner: &Runner<'_, R, W>,
    routines: &[Routine],
    rules_text: &[u8],
    cert_text: &[u8],
    workers: usize,
    gate: &G,
) -> Result<mlk_walk::Report, CheckError>
    requires { AreFormed (map routine_of routines.now) }
    ensures ok { IfOk result (IsReportOfTrees (map routine_of routines.now) rules_text.now cert_text.now) }
    ensures allowed { IfOk result (λ _. AreAllowed workers) }
    ensures refused { IfErr result (IsUnreportedOfTrees (G.is_open gate.now) workers (map routine_of routines.now)
        rules_text.now cert_text.now) }
{
    let program = link(runner.alloc, routines)?;
    rows_of_program(runner, &program, rules_text, cert_text, workers, gate)
}

/// Reports on the texts of a program: of its routines, each with the stem of its file's name, of its `rules` and of a
/// `certificate`. The texts of routines are read side by side, and 1 to 64 workers check the entries side by side; the report
/// is the same for every number of them.
///
/// Where it has no row, in every run of any number of jobs begun at the declared entries no two jobs are ready to
/// touch references that overlap, one of which writes, no job that ended by itself holds a lock, and no jobs wait for each
/// other's locks in a ring.
///
/// The first refusal is reported: of the routines in order, of their linking, of the rules, of the certificate, of an entry
/// that is not in the program, of the number of workers, or of the first task that `gate` lets nobody walk. The watcher sees how
/// far the work has come.
pub fn verify<G: Gate + Sync, W: Watch, R: Threads + Wait + Sync>(
    runner: &Runner<'_, R, W>,
    sources: &[Source<'_>],
    rules: &[u8],
    certificate: &[u8],
    workers: usize,
    gate: &G,
) -> Result<ProgramReport, CheckError>
    ensures ok { IfOk result (λ r. Verified sources.now rules.now certificate.now (map routine_of r.routines.items) r.rows) }
    ensures allowed { IfOk result (λ _. AreAllowed workers) }
    ensures refused { IfErr result (IsUnverified (G.is_open gate.now) workers sources.now rules.now certificate.now) }
{
    let routines = read_routines(runner, sources)?;
    let trees = routines.as_slice();
    let rows = rows_of_routines(runner, trees, rules, certificate, workers, gate)?;
    Ok(ProgramReport { routines, rows })
}
