// The report of a program by a certificate.

ghost use Rattle.std.specs.Prelude.{IfOk, IfErr, map};
ghost use Rattle.mlk_syntax.specs.Views.{routine_of};
ghost use Rattle.mlk_machine_laws.specs.WellFormed.{AreFormed};
ghost use Rattle.mlk_pool.specs.Headline.{IsReportBy, RefusesReport};
ghost use Rattle.mlk_outcome.specs.declared.refusal.NoReport.TheVariants as refusal;

use crate::gate::OpenGate;
use crate::refusal::NoReport;
use mlk_cert::Certificate;
use mlk_pool::verify_program;
use mlk_program::Program;
use mlk_rules::Rules;
use mlk_walk::Report;
use mlk_watch::{Runner, Watch};
use std::sync::Wait;
use std::thread::Threads;

/// Reports on `program` by its rules and `certificate`, as `verify_program` does at a gate that is always open.
pub fn report_by_certificate<R: Threads + Wait + Sync, W: Watch>(
    runner: &Runner<'_, R, W>,
    program: &Program<'_>,
    rules: &Rules,
    certificate: &Certificate,
    workers: u32,
) -> Result<Report, NoReport>
    requires { AreFormed (map routine_of program.now) }
    ensures ok { IfOk result (IsReportBy (map routine_of program.now) rules.now certificate.now) }
    ensures refused { IfErr result (RefusesReport refusal.Check (Unit {0}) workers (map routine_of program.now) rules.now certificate.now) }
{
    let workers = workers as usize;
    match verify_program(runner, program, rules, certificate, workers, &OpenGate) {
        Ok(report) => Ok(report),
        Err(error) => Err(NoReport::Check(error)),
    }
}
