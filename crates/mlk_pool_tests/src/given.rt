// Programs of one routine, with the certificate that is made, and what is tried on them.

use crate::halves::{FOUR_LINES, are_same_at_each_depth, long_routine, meet_in_halves};
use crate::reports::{Run, is_reported, is_verified};
use crate::working::meet_at_work;
use mlk_cert::{CertFormat, Spelled};
use mlk_dialect::Dialect;
use mlk_make::make;
use mlk_program::{Program, link};
use mlk_routine::read_routine;
use mlk_rules::Rules;
use mlk_rules_file::read_rules;
use mlk_syntax::Routine;
use mlk_watch::Unwatched;
use std::alloc::{AllocError, Global};
use std::sync::Wait;
use std::thread::Threads;

/// Twelve entries, the first five of which write a global without its lock.
pub(crate) const TWELVE: &[u8] = b"E1 SET ^ACCT(1)=1 QUIT\n\
E2 SET ^ACCT(2)=1 QUIT\n\
E3 SET ^ACCT(3)=1 QUIT\n\
E4 SET ^ACCT(4)=1 QUIT\n\
E5 SET ^ACCT(5)=1 QUIT\n\
E6 QUIT\n\
E7 QUIT\n\
E8 QUIT\n\
E9 QUIT\n\
E10 QUIT\n\
E11 QUIT\n\
E12 QUIT\n";

/// Each of the twelve is declared, and `^ACCT` has locks.
pub(crate) const TWELVE_RULES: &[u8] = b"entry = [{label = \"E1^R\"}, {label = \"E2^R\"}, \
{label = \"E3^R\"}, {label = \"E4^R\"}, {label = \"E5^R\"}, {label = \"E6^R\"}, {label = \"E7^R\"}, {label = \"E8^R\"}, \
{label = \"E9^R\"}, {label = \"E10^R\"}, {label = \"E11^R\"}, {label = \"E12^R\"}]\n\
lock = [{name = \"^ACCT\", rank = 10}, {name = \"^LOG\", rank = 20}]\n\
cover = [{global = \"^ACCT(id,...)\", lock = \"^ACCT(id)\"}, {global = \"^LOG(...)\", lock = \"^LOG\"}]\n\
private = [{global = \"^TMP($J,...)\"}]\n\
readonly = [{global = \"^CONF(...)\"}]\n";

const ONE_ENTRY: &[u8] = b"entry = [{label = \"E1^R\"}]\n";

/// What is tried, on twelve entries where nothing else is said.
#[derive(Clone, Copy, Drop)]
pub(crate) enum Trial {
    /// what `verify` makes of the texts
    Verify(Run),
    /// what `report_by` makes of what was read
    ReportBy,
    /// two workers on one board
    Work,
    /// the halves of four lines
    Halves,
    /// 4,096 lines, cut at each depth
    EachDepth,
}

impl Trial {
    fn routine(self, alloc: Global) -> Result<Vec<u8>, AllocError> {
        match self {
            Trial::Halves => Vec::from_slice(alloc, FOUR_LINES),
            Trial::EachDepth => long_routine(alloc),
            _ => Vec::from_slice(alloc, TWELVE),
        }
    }

    fn rules(self) -> &'static [u8] {
        match self {
            Trial::Halves | Trial::EachDepth => ONE_ENTRY,
            _ => TWELVE_RULES,
        }
    }
}

fn is_certified_so<R: Threads + Wait + Sync>(
    rt: &R,
    alloc: Global,
    program: &Program<'_>,
    rules: &Rules,
    made: &Spelled,
    trial: Trial,
) -> Option<bool> {
    let certificate = &made.certificate;
    match trial {
        Trial::Verify(run) => is_verified(rt, alloc, made.text.as_slice(), run),
        Trial::ReportBy => is_reported(rt, alloc, program, rules, certificate),
        Trial::Work => Some(meet_at_work(rt, alloc, program, rules, certificate)),
        Trial::Halves => meet_in_halves(rt, alloc, program, rules, certificate),
        Trial::EachDepth => are_same_at_each_depth(rt, alloc, program, rules, certificate),
    }
}

fn is_linked_so<R: Threads + Wait + Sync>(
    rt: &R,
    alloc: Global,
    routines: &[Routine],
    trial: Trial,
) -> Option<bool> {
    let program = link(alloc, routines).ok()?;
    let rules = read_rules(alloc, trial.rules()).ok()?;
    let made = make(alloc, &program, &rules, CertFormat::First, &Unwatched).ok()?;
    is_certified_so(rt, alloc, &program, &rules, &made, trial)
}

fn is_so<R: Threads + Wait + Sync>(rt: &R, alloc: Global, trial: Trial) -> Option<bool> {
    let text = trial.routine(alloc).ok()?;
    let routine = read_routine(alloc, Dialect::Standard, b"R", text.as_slice()).ok()?;
    is_linked_so(rt, alloc, &[routine], trial)
}

/// Whether all is as it should be; not where a call fails.
pub(crate) fn passes<R: Threads + Wait + Sync>(rt: &R, alloc: Global, trial: Trial) -> bool {
    is_so(rt, alloc, trial) == Some(true)
}
