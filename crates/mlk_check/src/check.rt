// The check of a whole program.

ghost use Rattle.std.specs.Prelude.{◌≡◌, [], IfOk, map};
ghost use Rattle.mlk_syntax.specs.Views.{routine_of};
ghost use Rattle.mlk_walk.specs.Reports.{report};
ghost use Rattle.mlk_machine_laws.specs.WellFormed.{AreFormed};
ghost use Rattle.mlk_check.specs.Theorem.{KeepsRules};

use mlk_cert_parts::Certificate;
use mlk_program::Program;
use mlk_rules::Rules;
use mlk_walk::{Report, report_of};
use std::alloc::{AllocError, Global};

/// The faults of a program by its rules and a certificate: for each entry that is declared or certified, in the program's
/// order, those of its verdict. The report is `yes` if there are none.
///
/// After a `yes`, every run of any number of jobs that begin at the declared entries follows the rules, whoever made the
/// certificate. Routines that were read are well formed.
pub fn check_all(
    alloc: Global,
    program: &Program<'_>,
    rules: &Rules,
    certificate: &Certificate,
) -> Result<Report, AllocError>
    ensures exact { IfOk result (λ r. r ≡ report (map routine_of program.now) rules.now certificate.now) }
    ensures safe { IfOk result (λ r. r ≡ [] → AreFormed (map routine_of program.now)
        → KeepsRules (map routine_of program.now) rules.now certificate.now) }
{
    // The invariants of rules and certificates, which the calls provide.
    let _ = rules.lists();
    let _ = certificate.blocks();
    report_of(alloc, program, rules, certificate)
}
