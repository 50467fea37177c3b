// What is found in an entry, in one of its lines, and in a program.

use crate::given::{Trial, passes};
use mlk_cert::Certificate;
use mlk_check::check_all;
use mlk_program::{EntryId, Program};
use mlk_rules::Rules;
use mlk_text::{Code, Column, LineNumber};
use mlk_walk::{Report, Verdict, check_entry, check_line};
use std::alloc::Global;

/// An entry with three writes under one lock, the last of which is of another node than the lock's, and one with no fault.
pub(crate) const ROUTINE: &[u8] = b"BAD LOCK +^A(1)\n\
\x20SET ^A(\"1\")=0\n\
\x20SET ^A(01)=0\n\
\x20SET ^A(\"01\")=0\n\
\x20LOCK -^A(1) QUIT\n\
GOOD LOCK +^A(1) SET ^A(1)=0 LOCK -^A(1) QUIT\n";

const BAD: &[u8] = b"[[lock]]\nname = \"^A\"\nrank = 5\n\
[[cover]]\nglobal = \"^A(id,...)\"\nlock = \"^A(id)\"\n\
[[entry]]\nlabel = \"BAD^R\"\n";

const GOOD: &[u8] = b"[[lock]]\nname = \"^A\"\nrank = 5\n\
[[cover]]\nglobal = \"^A(id,...)\"\nlock = \"^A(id)\"\n\
[[entry]]\nlabel = \"GOOD^R\"\n";

/// What is walked.
#[derive(Clone, Copy, Drop)]
pub(crate) enum Walk {
    /// the bad entry, and two of its lines
    Lines,
    /// all, where the bad entry is declared
    Bad,
    /// all, where the good entry is declared
    Good,
}

impl Walk {
    /// The rules.
    pub(crate) fn rules(self) -> &'static [u8] {
        match self {
            Walk::Lines | Walk::Bad => BAD,
            Walk::Good => GOOD,
        }
    }
}

// Whether this is the one fault: the write of `^A("01")` under the lock `^A(1)`.
fn is_the_write(verdict: &Verdict) -> bool {
    let mut faults = verdict.iter();
    let Some(fault) = faults.next() else {
        return false;
    };
    fault.line == LineNumber::new(4)
        && fault.column == Column::new(6)
        && fault.code == Code::Uncovered
        && faults.next().is_none()
}

fn are_lines_so(
    alloc: Global,
    program: &Program<'_>,
    rules: &Rules,
    certificate: &Certificate,
    entry: EntryId,
) -> Option<bool> {
    let (third, fourth) = (LineNumber::new(3), LineNumber::new(4));
    let all = check_entry(alloc, program, rules, certificate, entry).ok()?;
    let before = check_line(alloc, program, rules, certificate, entry, third).ok()?;
    let write = check_line(alloc, program, rules, certificate, entry, fourth).ok()?;
    Some(is_the_write(&all) && before.iter().next().is_none() && is_the_write(&write))
}

fn has_one_row(report: &Report, entry: EntryId) -> bool {
    match report.rows() {
        [row] => row.entry == entry && row.fault.code == Code::Uncovered && !report.is_yes(),
        _ => false,
    }
}

/// Whether a walk finds what it should.
pub(crate) fn is_walked(
    alloc: Global,
    program: &Program<'_>,
    rules: &Rules,
    certificate: &Certificate,
    walk: Walk,
) -> Option<bool> {
    let bad = program.entry(b"BAD^R")?;
    let report = check_all(alloc, program, rules, certificate).ok()?;
    match walk {
        Walk::Lines => are_lines_so(alloc, program, rules, certificate, bad),
        Walk::Bad => Some(has_one_row(&report, bad)),
        Walk::Good => Some(report.is_yes()),
    }
}

#[test]
fn of_an_entry_and_its_lines(rt: HostRuntime) {
    assert!(rt; passes(rt.alloc(), Trial::Walk(Walk::Lines)));
}

#[test]
fn of_the_program(rt: HostRuntime) {
    assert!(rt; passes(rt.alloc(), Trial::Walk(Walk::Bad)));
    assert!(rt; passes(rt.alloc(), Trial::Walk(Walk::Good)));
}
