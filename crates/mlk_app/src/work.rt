// What a program and its rules come to: a report, a certificate, or what is shown of jobs.

ghost use Rattle.std.specs.Prelude.{◌≡◌, IfOk, IfErr, map};
ghost use Rattle.mlk_syntax.specs.Views.{routine_of};
ghost use Rattle.mlk_machine_laws.specs.WellFormed.{AreFormed};
ghost use Rattle.mlk_pool.specs.Headline.{RefusesReport, RefusesByText, RefusesTrees};
ghost use Rattle.mlk_outcome.specs.Making.{IsMade, IsUnmade};
ghost use Rattle.mlk_outcome.specs.Replaying.{IsReplayed, IsUnreplayed, has_notes};
ghost use Rattle.mlk_outcome.specs.declared.refusal.NoReport.TheVariants as refusal;
ghost use Rattle.mlk_app.specs.Ran.{style_in, text_style, status_in, IsPrintedBeside, IsReportPrinted, IsReportOfBlocks};
ghost use Rattle.mlk_app.specs.Ran.{IsReportByText, IsReportOfMade, IsPrinted, RefusesMade, IsRefusedFor};
ghost use Rattle.mlk_app.specs.Printing.{asked_of, IsPrintedOfTrees, IsPrintedOfTexts, IsRefusedSources};

use crate::answer::{NO, YES};
use crate::baseline::{compare_faults, uses_keys};
use crate::behind::{find_behind, is_explained};
use mlk_baseline::Baseline;
use mlk_cert::{CertFormat, Certificate, read_cert};
use mlk_cli::{Asked, Output, ProgramRequest, ReportStyle};
use mlk_coverage::{Coverage, coverage_of};
use mlk_dialogue::shown_routines;
use mlk_explain::{Grounds, free_reads};
use mlk_files::{Sources, Work, copied_texts};
use mlk_forms::{Explanations, ReportSources, render_report};
use mlk_outcome::{
    NoReport, Showing, certificate_for, certificate_text, jobs_text, report_by_certificate,
};
use mlk_plain_report::ReportText;
use mlk_program::{Program, link};
use mlk_reading::read_routines;
use mlk_replay_text::ShownRoutine;
use mlk_rules::Rules;
use mlk_rules_file::read_rules;
use mlk_syntax::Routine;
use mlk_walk::Report;
use mlk_watch::{Runner, Watch};
use std::alloc::{AllocError, Global};
use std::sync::Wait;
use std::thread::Threads;

/// A text to be printed, and the status that the program ends with.
#[derive(Drop)]
pub(crate) struct Printed {
    pub(crate) text: ReportText,
    pub(crate) status: u8,
    /// the text of the baseline that is to be written, if it is asked for
    pub(crate) new_baseline: Option<Vec<u8>>,
}

// Text alone, explained or not.
fn text_style(is_explained: bool) -> ReportStyle
    ensures { result ≡ text_style is_explained }
{
    ReportStyle {
        output: Output::Text,
        is_strict: false,
        is_explained,
        is_quiet: false,
        exits_zero: false,
    }
}

/// The style of the report that is asked for.
pub(crate) fn style_in(asked: &Asked<'_>) -> ReportStyle
    ensures { result ≡ style_in asked.now }
{
    match asked {
        Asked::Check { style, .. } | Asked::Verify { style, .. } => *style,
        Asked::Make { .. } => text_style(false),
        Asked::Replay { style, .. } => text_style(style.is_explained),
    }
}

fn status_in(style: ReportStyle, passes: bool) -> u8
    ensures { result ≡ status_in style passes }
{
    if passes || style.exits_zero { YES } else { NO }
}

// What a command is about: a program, its rules, the texts of both, and the request.
#[derive(Drop)]
struct Subject<'a> {
    program: &'a Program<'a>,
    rules: &'a Rules,
    sources: &'a Sources<'a>,
    request: &'a ProgramRequest<'a>,
    // the faults that are known, if they are given
    known: Option<&'a Baseline<'a>>,
}

// The texts of the routines, if the report shows lines of them, or its faults are known by them.
fn shown_texts(
    alloc: Global,
    sources: &Sources<'_>,
    request: &ProgramRequest<'_>,
) -> Result<Vec<Vec<u8>>, AllocError> {
    let style = style_in(&request.asked);
    if is_explained(style) || uses_keys(request) {
        return copied_texts(alloc, sources.routines.as_slice());
    }
    Ok(Vec::new(alloc))
}

// The patterns of the covers that free reads, for the one form that lists them.
fn listed_reads(
    alloc: Global,
    rule_text: &[u8],
    output: Output,
) -> Result<Vec<Vec<u8>>, AllocError> {
    match output {
        Output::Json => free_reads(alloc, rule_text),
        Output::Text | Output::Lines | Output::Sarif => Ok(Vec::new(alloc)),
    }
}

// How much a report is about, if a report in this style says so.
fn reported_coverage<'a>(
    alloc: Global,
    program: &Program<'a>,
    rules: &Rules,
    style: ReportStyle,
) -> Result<Option<Coverage<'a>>, AllocError> {
    if !is_explained(style) && !style.is_strict {
        return Ok(None);
    }
    Ok(Some(coverage_of(alloc, program, rules)?))
}

// Prints `report`, which `explanations` explain.
fn printed_report(
    alloc: Global,
    explanations: &Explanations<'_>,
    request: &ProgramRequest<'_>,
    report: &Report,
) -> Result<Printed, AllocError>
    ensures { IfOk result (λ p.
        IsPrintedBeside (style_in request.now.asked) explanations.now.rests explanations.now.comparison
        (map routine_of explanations.now.grounds.now.program.now) report.now p.text p.status) }
{
    let grounds = explanations.grounds;
    let style = style_in(&request.asked);
    let free_reads = listed_reads(alloc, grounds.rule_text, style.output)?;
    let inputs = ReportSources {
        routines: grounds.program.routines(),
        paths: request.routines.as_slice(),
        rules_path: request.rules,
        rule_text: grounds.rule_text,
        texts: grounds.texts,
        free_reads: free_reads.as_slice(),
    };
    let printed = render_report(alloc, &inputs, report, style, explanations)?;
    let status = status_in(style, printed.passes);
    Ok(Printed {
        text: printed.text,
        status,
        new_baseline: None,
    })
}

// Prints `report`, which is of a program by `certificate`, with all that explains it in the style that is asked for.
fn print_explained<R: Threads + Wait + Sync, W: Watch>(
    runner: &Runner<'_, R, W>,
    subject: &Subject<'_>,
    certificate: &Certificate,
    is_made: bool,
    report: &Report,
) -> Result<Printed, AllocError>
    ensures { IfOk result (λ p.
        IsReportPrinted (asked_of subject.now) (map routine_of subject.now.program.now) report.now p.text p.status) }
{
    let alloc = runner.alloc;
    let style = style_in(&subject.request.asked);
    let coverage = reported_coverage(alloc, subject.program, subject.rules, style)?;
    let texts = shown_texts(alloc, subject.sources, subject.request)?;
    let grounds = Grounds {
        program: subject.program,
        texts: texts.as_slice(),
        rules: subject.rules,
        rule_text: subject.sources.rules.as_slice(),
        certificate,
        is_made,
    };
    let request = subject.request;
    let beside = compare_faults(alloc, &grounds, report, subject.known, request)?;
    let is_compared = subject.known.is_some();
    let behind = find_behind(
        runner,
        subject.sources,
        &grounds,
        report,
        style,
        is_compared,
    )?;
    let explanations = Explanations {
        grounds: &grounds,
        behind: &behind,
        coverage: coverage.as_ref(),
        comparison: beside.comparison.as_ref(),
        rests: subject.sources.rests(),
    };
    let printed = printed_report(alloc, &explanations, request, report)?;
    Ok(Printed {
        new_baseline: beside.new_baseline,
        ..printed
    })
}

// Prints the report of a program by `certificate`, which was made of it or given.
fn print_report<R: Threads + Wait + Sync, W: Watch>(
    runner: &Runner<'_, R, W>,
    subject: &Subject<'_>,
    certificate: &Certificate,
    is_made: bool,
    workers: u32,
) -> Result<Printed, NoReport>
    requires { AreFormed (map routine_of subject.now.program.now) }
    ensures ok { IfOk result (λ p.
        IsReportOfBlocks (asked_of subject.now)
        (map routine_of subject.now.program.now) subject.now.rules.now certificate.now p.text p.status) }
    ensures refused { IfErr result
        (RefusesReport refusal.Check (Unit {0}) workers
        (map routine_of subject.now.program.now) subject.now.rules.now certificate.now) }
{
    let report = report_by_certificate(
        runner,
        subject.program,
        subject.rules,
        certificate,
        workers,
    )?;
    let printed = print_explained(runner, subject, certificate, is_made, &report)?;
    Ok(printed)
}

// Prints the report of a program by the certificate with this text.
fn print_check<R: Threads + Wait + Sync, W: Watch>(
    runner: &Runner<'_, R, W>,
    subject: &Subject<'_>,
    text: &[u8],
    workers: u32,
) -> Result<Printed, NoReport>
    requires { AreFormed (map routine_of subject.now.program.now) }
    ensures ok { IfOk result (λ p.
        IsReportByText (asked_of subject.now)
        (map routine_of subject.now.program.now) subject.now.rules.now text.now p.text p.status) }
    ensures refused { IfErr result
        (RefusesByText refusal.Check (Unit {0}) workers text.now (map routine_of subject.now.program.now) subject.now.rules.now) }
{
    let alloc = runner.alloc;
    let certificate = read_cert(alloc, text)?;
    print_report(runner, subject, &certificate, false, workers)
}

// Makes a certificate of a program, and prints the report by it.
fn print_verification<R: Threads + Wait + Sync, W: Watch>(
    runner: &Runner<'_, R, W>,
    subject: &Subject<'_>,
    workers: u32,
) -> Result<Printed, NoReport>
    requires { AreFormed (map routine_of subject.now.program.now) }
    ensures ok { IfOk result (λ p.
        IsReportOfMade (asked_of subject.now) (map routine_of subject.now.program.now) subject.now.rules.now p.text p.status) }
    ensures refused { IfErr result (RefusesMade workers (map routine_of subject.now.program.now) subject.now.rules.now) }
{
    let alloc = runner.alloc;
    let certificate = certificate_for(alloc, subject.program, subject.rules, runner.watch)?;
    print_report(runner, subject, &certificate, true, workers)
}

// Prints a certificate that is made of a program.
fn print_certificate<W: Watch>(
    alloc: Global,
    subject: &Subject<'_>,
    format: CertFormat,
    watch: &W,
) -> Result<Printed, NoReport>
    ensures ok { IfOk result (λ p. IsMade (map routine_of subject.now.program.now) subject.now.rules.now format p.text × (p.status ≡ 0)) }
    ensures refused { IfErr result (IsUnmade (map routine_of subject.now.program.now) subject.now.rules.now) }
{
    let text = certificate_text(alloc, subject.program, subject.rules, format, watch)?;
    Ok(Printed {
        text: ReportText::of(text),
        status: YES,
        new_baseline: None,
    })
}

// How jobs are shown, with these texts of the routines.
fn showing_of<'t>(with_notes: bool, texts: &'t [ShownRoutine<'t>]) -> Showing<'t>
    ensures { has_notes result ≡ with_notes }
{
    if with_notes {
        Showing::Explained(texts)
    } else {
        Showing::Plain
    }
}

// Prints what is shown of the jobs of a program after `events`, with notes on where they are if that is asked for.
fn print_jobs(alloc: Global, subject: &Subject<'_>, events: &[u8]) -> Result<Printed, NoReport>
    ensures ok { IfOk result (λ p.
        IsReplayed (style_in subject.now.request.now.asked).is_explained
        (map routine_of subject.now.program.now) subject.now.rules.now events.now p.text × (p.status ≡ 0)) }
    ensures refused { IfErr result (IsUnreplayed (map routine_of subject.now.program.now) subject.now.rules.now events.now) }
{
    let texts = shown_routines(alloc, subject.request, subject.sources)?;
    let showing = showing_of(
        style_in(&subject.request.asked).is_explained,
        texts.as_slice(),
    );
    let text = jobs_text(alloc, subject.program, subject.rules, events, showing)?;
    Ok(Printed {
        text: ReportText::of(text),
        status: YES,
        new_baseline: None,
    })
}

// Prints what is asked of a program and its rules.
fn print_work<R: Threads + Wait + Sync, W: Watch>(
    runner: &Runner<'_, R, W>,
    subject: &Subject<'_>,
    work: &Work,
) -> Result<Printed, NoReport>
    requires { AreFormed (map routine_of subject.now.program.now) }
    ensures ok { IfOk result (λ p.
        IsPrinted (asked_of subject.now) (map routine_of subject.now.program.now) subject.now.rules.now work.now p.text p.status) }
    ensures refused { IfErr result (IsRefusedFor work.now (map routine_of subject.now.program.now) subject.now.rules.now) }
{
    let alloc = runner.alloc;
    match work {
        Work::Check {
            certificate,
            workers,
        } => print_check(runner, subject, certificate.as_slice(), *workers),
        Work::Verify { workers } => print_verification(runner, subject, *workers),
        Work::Make { format } => print_certificate(alloc, subject, *format, runner.watch),
        Work::Replay(events) => print_jobs(alloc, subject, events.as_slice()),
    }
}

// Links `routines`, reads their rules, and prints what is asked of both.
fn print_routines<R: Threads + Wait + Sync, W: Watch>(
    runner: &Runner<'_, R, W>,
    routines: &[Routine],
    sources: &Sources<'_>,
    request: &ProgramRequest<'_>,
    known: Option<&Baseline<'_>>,
) -> Result<Printed, NoReport>
    requires { AreFormed (map routine_of routines.now) }
    ensures ok { IfOk result (λ p. IsPrintedOfTrees request.now known.entry (map routine_of routines.now) sources.now p.text p.status) }
    ensures refused { IfErr result
        (RefusesTrees refusal.Check (map routine_of routines.now) sources.now.rules.items (IsRefusedFor sources.now.work)) }
{
    let alloc = runner.alloc;
    let program = link(alloc, routines)?;
    let rules = read_rules(alloc, sources.rules.as_slice())?;
    let subject = Subject {
        program: &program,
        rules: &rules,
        sources,
        request,
        known,
    };
    let printed = print_work(runner, &subject, &sources.work);
    runner.watch.discard(program);
    printed
}

/// Reads the routines of `sources`, and prints what is asked of them, beside `known` faults if some are given.
///
/// Refuses, in this order: the first routine that can't be read, their linking, the rules, and what `print_work` refuses.
pub(crate) fn print_sources<R: Threads + Wait + Sync, W: Watch>(
    runner: &Runner<'_, R, W>,
    sources: &Sources<'_>,
    request: &ProgramRequest<'_>,
    known: Option<&Baseline<'_>>,
) -> Result<Printed, NoReport>
    ensures ok { IfOk result (λ p. IsPrintedOfTexts request.now known.entry sources.now p.text p.status) }
    ensures refused { IfErr result (IsRefusedSources sources.now) }
{
    let routines = read_routines(runner, sources.as_read())?;
    let printed = print_routines(runner, routines.as_slice(), sources, request, known);
    runner.watch.discard(routines);
    printed
}
