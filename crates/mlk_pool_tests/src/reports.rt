// Reports by several workers on twelve entries.

use crate::gates::{EACH_ONCE, Holds, Turnstile};
use crate::given::{TWELVE, TWELVE_RULES, Trial, passes};
use mlk_cert::Certificate;
use mlk_dialect::Dialect;
use mlk_pool::{CheckError, ProgramReport, render, report_by, verify};
use mlk_program::Program;
use mlk_reading::{Source, read_routines};
use mlk_rules::Rules;
use mlk_text::Failure;
use mlk_watch::{Runner, Unwatched};
use std::alloc::Global;
use std::io::Cursor;
use std::sync::Wait;
use std::thread::Threads;

const REPORT: &[u8] = b"E1^R 1:8 702 Uncovered\n\
E2^R 2:8 702 Uncovered\n\
E3^R 3:8 702 Uncovered\n\
E4^R 4:8 702 Uncovered\n\
E5^R 5:8 702 Uncovered\n\
no 5\n";

/// How a run ends.
#[derive(Clone, Copy, Drop)]
pub(crate) enum End {
    Report,
    NoWorkers,
    /// The gate is shut before this task.
    Shut(usize),
}

/// So many workers behind a gate, and how that ends.
#[derive(Clone, Copy, Drop)]
pub(crate) struct Run {
    workers: usize,
    holds: Holds,
    end: End,
    // which tasks the gate is asked for, and which are posted
    passed: u64,
    posted: u64,
}

impl Run {
    // Each task is passed and posted once, and there is a report.
    fn reported(workers: usize, holds: Holds) -> Run {
        Run {
            workers,
            holds,
            end: End::Report,
            passed: EACH_ONCE,
            posted: EACH_ONCE,
        }
    }

    // There is no such number of workers, and no task is passed.
    fn refused(workers: usize) -> Run {
        Run {
            workers,
            holds: Holds::Nowhere,
            end: End::NoWorkers,
            passed: 0,
            posted: 0,
        }
    }
}

// Whether this is the report, by its whole text; a writer without room for it is no error of memory.
fn is_the_report(alloc: Global, report: &ProgramReport) -> bool {
    let mut written: Vec<u8> = Vec::new(alloc);
    let mut short = Cursor::new([0u8; 8]);
    render(alloc, report, &mut written).is_ok()
        && written.as_slice() == REPORT
        && matches!(render(alloc, report, &mut short), Err(Failure::Refused(_)))
}

/// Whether `verify` ends so on the texts.
pub(crate) fn is_verified<R: Threads + Wait + Sync>(
    rt: &R,
    alloc: Global,
    certificate: &[u8],
    run: Run,
) -> Option<bool> {
    let gate = Turnstile::new(run.holds);
    let text = Vec::from_slice(alloc, TWELVE).ok()?;
    let mut sources = Vec::new(alloc);
    let source = Source {
        dialect: Dialect::Standard,
        stem: b"R",
        text,
    };
    sources.push(source).ok()?;
    let runner = Runner {
        rt,
        alloc,
        watch: &Unwatched,
    };
    let answer = verify(
        &runner,
        sources.as_slice(),
        TWELVE_RULES,
        certificate,
        run.workers,
        &gate,
    );
    let is_so = match &answer {
        Ok(report) => matches!(run.end, End::Report) && is_the_report(alloc, report),
        Err(CheckError::Workers) => matches!(run.end, End::NoWorkers),
        Err(CheckError::GateShut(task)) => matches!(run.end, End::Shut(least) if least == *task),
        Err(_) => false,
    };
    Some(is_so && gate.passed_tasks() == run.passed && gate.posted_tasks() == run.posted)
}

#[test]
fn each_number_of_workers_makes_one_report(rt: HostRuntime) {
    for workers in [1usize, 2, 3, 64] {
        let run = Run::reported(workers, Holds::Nowhere);
        assert!(&rt;
            passes(&rt, rt.alloc(), Trial::Verify(run)),
            "{workers} workers"
        );
    }
}

#[test]
fn there_are_1_to_64_workers(rt: HostRuntime) {
    for workers in [0usize, 65] {
        let run = Run::refused(workers);
        assert!(&rt;
            passes(&rt, rt.alloc(), Trial::Verify(run)),
            "{workers} workers"
        );
    }
}

// A gate that is shut before two tasks, and the one that is reported.
const SHUT: &[Run] = &[
    Run {
        workers: 2,
        holds: Holds::Before(3, 12),
        end: End::Shut(3),
        passed: EACH_ONCE + 1_000,
        posted: EACH_ONCE,
    },
    Run {
        workers: 2,
        holds: Holds::Before(8, 5),
        end: End::Shut(5),
        passed: EACH_ONCE + 100_000,
        posted: EACH_ONCE,
    },
];

#[test]
fn the_least_task_is_reported_before_which_the_gate_is_shut(rt: HostRuntime) {
    for run in SHUT {
        assert!(&rt; passes(&rt, rt.alloc(), Trial::Verify(*run)));
    }
}

/// Whether `report_by` has two workers at work at once, and makes a report.
pub(crate) fn is_reported<R: Threads + Wait + Sync>(
    rt: &R,
    alloc: Global,
    program: &Program<'_>,
    rules: &Rules,
    certificate: &Certificate,
) -> Option<bool> {
    let gate = Turnstile::new(Holds::FirstTwo);
    let watch = &Unwatched;
    let runner = Runner { rt, alloc, watch };
    let report = report_by(&runner, program, rules, certificate, 2, &gate).ok()?;
    Some(
        report.rows().len() == 5
            && gate.passed_tasks() == EACH_ONCE
            && gate.posted_tasks() == EACH_ONCE,
    )
}

#[test]
fn two_workers_are_at_work_at_once(rt: HostRuntime) {
    let run = Run::reported(2, Holds::FirstTwo);
    assert!(&rt; passes(&rt, rt.alloc(), Trial::Verify(run)));
    assert!(&rt; passes(&rt, rt.alloc(), Trial::ReportBy));
}

#[test]
fn no_texts_are_no_routines(rt: HostRuntime) {
    let alloc = rt.alloc();
    let runner = Runner {
        rt: &rt,
        alloc,
        watch: &Unwatched,
    };
    let read = read_routines(&runner, &[]);
    assert!(&rt; matches!(&read, Ok(routines) if routines.is_empty()));
}
