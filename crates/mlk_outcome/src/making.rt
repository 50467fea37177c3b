// The certificate that is made of a program.

ghost use Rattle.std.specs.Prelude.{IfOk, IfErr, map};
ghost use Rattle.mlk_syntax.specs.Views.{routine_of};
ghost use Rattle.mlk_outcome.specs.Making.{IsMade, IsUnmade, IsStuck, ReportsUnmade};

use crate::refusal::NoReport;
use mlk_cert::{CertFormat, Certificate, Spelled};
use mlk_make::{GaveUp, MakeError, make, make_certificate};
use mlk_pool::CheckError;
use mlk_program::Program;
use mlk_rules::Rules;
use mlk_text::{Failure, Value};
use mlk_watch::Watch;
use std::alloc::{AllocError, Global};

// What is reported if the maker gave up.
fn gave_up(alloc: Global, program: &Program<'_>, place: GaveUp) -> NoReport
    ensures { IsStuck place result }
{
    match program.text_of(alloc, place.entry) {
        Ok(text) => NoReport::GaveUp(Value::new(text.unwrap_or(Vec::new(alloc))), place.fault),
        Err(AllocError) => NoReport::Check(CheckError::OutOfMemory),
    }
}

// What is reported if no certificate is made.
fn no_report(alloc: Global, program: &Program<'_>, error: Failure<MakeError>) -> NoReport
    ensures { ReportsUnmade error result }
{
    match error {
        Failure::OutOfMemory => NoReport::Check(CheckError::OutOfMemory),
        Failure::Refused(MakeError::EntryMissing(text)) => NoReport::Check(CheckError::Entry(text)),
        Failure::Refused(MakeError::TooLong(fault)) => {
            NoReport::Check(CheckError::Certificate(fault))
        }
        Failure::Refused(MakeError::GaveUp(place)) => gave_up(alloc, program, place),
    }
}

/// Makes a certificate of `program`, which has all entries that its rules declare.
///
/// Refuses, in this order: the first declared entry that is not in `program` (901), and the place at which the maker gave up
/// (801).
pub fn certificate_for<W: Watch>(
    alloc: Global,
    program: &Program<'_>,
    rules: &Rules,
    watch: &W,
) -> Result<Certificate, NoReport>
    ensures refused { IfErr result (IsUnmade (map routine_of program.now) rules.now) }
{
    match make_certificate(alloc, program, rules, watch) {
        Ok(certificate) => Ok(certificate),
        Err(error) => Err(no_report(alloc, program, error)),
    }
}

/// The text, in `format`, of a certificate that is made of `program`.
///
/// Refuses what `certificate_for` refuses, and a text of more than 64 MiB (605).
pub fn certificate_text<W: Watch>(
    alloc: Global,
    program: &Program<'_>,
    rules: &Rules,
    format: CertFormat,
    watch: &W,
) -> Result<Vec<u8>, NoReport>
    ensures ok { IfOk result (λ text. IsMade (map routine_of program.now) rules.now format text.items) }
    ensures refused { IfErr result (IsUnmade (map routine_of program.now) rules.now) }
{
    match make(alloc, program, rules, format, watch) {
        Ok(Spelled { text, .. }) => Ok(text),
        Err(error) => Err(no_report(alloc, program, error)),
    }
}
