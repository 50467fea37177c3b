// What is known of a program for which no certificate can be made.

ghost use Rattle.std.specs.Prelude.{IfOk};
ghost use Rattle.mlk_app.specs.Ran.{style_in};
ghost use Rattle.mlk_forms.specs.Rendering.{IsNoticed};

use crate::work::style_in;
use mlk_cli::{Output, ProgramRequest};
use mlk_explain::{ExplainedAs, ExplainedFaults, Grounds};
use mlk_files::{Sources, copied_texts};
use mlk_forms::{Notice, ReportSources, render_given_up, render_notice};
use mlk_make::make_despite;
use mlk_outcome::OpenGate;
use mlk_plain_report::ReportText;
use mlk_pool::report_by;
use mlk_program::{Program, link};
use mlk_reading::read_routines;
use mlk_rules::Rules;
use mlk_rules_file::read_rules;
use mlk_syntax::Routine;
use mlk_text::{Code, Failure};
use mlk_watch::{Runner, Watch};
use std::alloc::{AllocError, Global};
use std::sync::Wait;
use std::thread::Threads;

/// By how many workers the entries are checked for what explains a report.
pub(crate) const WORKERS: usize = 4;

const NOTE: &[u8] = b"note: the faults of all entries, by the locks that were found until then:\n";

/// What was found, or nothing if it was refused: what is refused was reported before, or is not reported.
pub(crate) fn none_if_refused<T: Drop, E: Drop>(
    answer: Result<T, Failure<E>>,
) -> Result<Option<T>, AllocError> {
    match answer {
        Ok(value) => Ok(Some(value)),
        Err(Failure::OutOfMemory) => Err(AllocError),
        Err(Failure::Refused(_)) => Ok(None),
    }
}

// Explains the faults of `program` by a certificate that is made despite the entries that are given up, unless something else is
// refused.
fn explain_program<R: Threads + Wait + Sync, W: Watch>(
    runner: &Runner<'_, R, W>,
    program: &Program<'_>,
    rules: &Rules,
    sources: &Sources<'_>,
    form: ExplainedAs,
) -> Result<Option<ExplainedFaults>, AllocError> {
    let alloc = runner.alloc;
    let Some(made) = none_if_refused(make_despite(alloc, program, rules, runner.watch))? else {
        return Ok(None);
    };
    let certificate = &made.certificate;
    let report = report_by(runner, program, rules, certificate, WORKERS, &OpenGate);
    let Some(report) = none_if_refused(report)? else {
        return Ok(None);
    };
    let texts = copied_texts(alloc, sources.routines.as_slice())?;
    let grounds = Grounds {
        program,
        texts: texts.as_slice(),
        rules,
        rule_text: sources.rules.as_slice(),
        certificate,
        is_made: true,
    };
    let faults = ExplainedFaults::of_report(alloc, form, &grounds, &report)?;
    Ok(Some(faults))
}

// Explains the faults of `program` by the rules of `sources`.
fn explain_by_rules<R: Threads + Wait + Sync, W: Watch>(
    runner: &Runner<'_, R, W>,
    program: &Program<'_>,
    sources: &Sources<'_>,
    form: ExplainedAs,
) -> Result<Option<ExplainedFaults>, AllocError> {
    match none_if_refused(read_rules(runner.alloc, sources.rules.as_slice()))? {
        Some(rules) => explain_program(runner, program, &rules, sources, form),
        None => Ok(None),
    }
}

// Links these routines, and explains the faults of the program.
fn explain_linked<R: Threads + Wait + Sync, W: Watch>(
    runner: &Runner<'_, R, W>,
    routines: &[Routine],
    sources: &Sources<'_>,
    form: ExplainedAs,
) -> Result<Option<ExplainedFaults>, AllocError> {
    match none_if_refused(link(runner.alloc, routines))? {
        Some(program) => explain_by_rules(runner, &program, sources, form),
        None => Ok(None),
    }
}

// The faults of these routines, in the `form` that is asked for. None are found if something is refused.
fn explain_routines<R: Threads + Wait + Sync, W: Watch>(
    runner: &Runner<'_, R, W>,
    routines: &[Routine],
    sources: &Sources<'_>,
    form: ExplainedAs,
) -> Result<ExplainedFaults, AllocError> {
    match explain_linked(runner, routines, sources, form)? {
        Some(faults) => Ok(faults),
        None => Ok(ExplainedFaults::new(runner.alloc, form)),
    }
}

/// Adds to `text` the faults of a program for which no certificate can be made, with what explains them: those of the entries that
/// were given up, by what was found until then, and those of all others. The texts are read once more.
pub(crate) fn push_faults<R: Threads + Wait + Sync, W: Watch>(
    runner: &Runner<'_, R, W>,
    text: &mut Vec<u8>,
    sources: &Sources<'_>,
) -> Result<(), AllocError> {
    let read = read_routines(runner, sources.as_read());
    let Some(routines) = none_if_refused(read)? else {
        return Ok(());
    };
    let form = ExplainedAs::Text;
    let faults = explain_routines(runner, routines.as_slice(), sources, form)?;
    if !faults.rows().is_empty() {
        text.extend_from_slice(NOTE)?;
        text.extend_from_slice(faults.text())?;
    }
    Ok(())
}

// What the faults of these routines are about.
fn inputs_of<'a>(program: &'a ProgramRequest<'a>, routines: &'a [Routine]) -> ReportSources<'a> {
    ReportSources {
        routines,
        paths: program.routines.as_slice(),
        rules_path: program.rules,
        rule_text: &[],
        texts: &[],
        free_reads: &[],
    }
}

// Writes `notice` for other programs, with the faults of a program for which no certificate can be made.
fn render_despite<R: Threads + Wait + Sync, W: Watch>(
    runner: &Runner<'_, R, W>,
    notice: &Notice<'_>,
    program: &ProgramRequest<'_>,
    sources: &Sources<'_>,
) -> Result<Option<ReportText>, AllocError>
    ensures { IfOk result (IsNoticed (style_in program.now.asked).output) }
{
    let alloc = runner.alloc;
    let output = style_in(&program.asked).output;
    let read = read_routines(runner, sources.as_read());
    let Some(routines) = none_if_refused(read)? else {
        return render_notice(alloc, notice, output);
    };
    let trees = routines.as_slice();
    let faults = explain_routines(runner, trees, sources, ExplainedAs::Stories)?;
    let inputs = inputs_of(program, trees);
    render_given_up(alloc, notice, &inputs, &faults, output)
}

/// Writes the notice of a refusal. That of a program for which no certificate can be made has the faults that are found all the same;
/// for these the texts are read once more. Nothing is written, and nothing looked for, if a text is asked for.
pub(crate) fn render_refusal<R: Threads + Wait + Sync, W: Watch>(
    runner: &Runner<'_, R, W>,
    notice: &Notice<'_>,
    program: &ProgramRequest<'_>,
    sources: &Sources<'_>,
) -> Result<Option<ReportText>, AllocError>
    ensures { IfOk result (IsNoticed (style_in program.now.asked).output) }
{
    let output = style_in(&program.asked).output;
    let is_text = matches!(output, Output::Text | Output::Lines);
    if is_text || notice.code != Code::GaveUp {
        return render_notice(runner.alloc, notice, output);
    }
    render_despite(runner, notice, program, sources)
}
