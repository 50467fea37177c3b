// Surveys in the form that is asked for.

ghost use Rattle.std.specs.Prelude.{◌≡◌, ◌+◌, IfOk, length};

use crate::notice::with_end;
use mlk_cli::SurveyOutput;
use mlk_plain_report::ReportText;
use mlk_reading::Source;
use mlk_survey::{Facts, survey};
use mlk_survey_reading::read_all_lines;
use mlk_survey_text::{survey_json, survey_text};
use mlk_syntax::Routine;
use mlk_text::{Failure, Fault};
use mlk_watch::{Runner, Watch};
use std::alloc::{AllocError, Global};
use std::thread::Threads;

// How many lines a list has at most in the text.
const MOST_LINES: usize = 50;

/// A survey as it is printed.
#[derive(Drop)]
pub struct PrintedSurvey {
    /// how many routines were read
    pub read: usize,
    /// how many were refused
    pub refused: usize,
    pub text: ReportText,
}

fn text_in(
    alloc: Global,
    facts: &Facts<'_>,
    output: SurveyOutput,
) -> Result<ReportText, AllocError> {
    match output {
        SurveyOutput::Text => {
            let text = survey_text(alloc, facts, MOST_LINES)?;
            Ok(ReportText::of(text.into_bytes()))
        }
        SurveyOutput::Json => with_end(survey_json(alloc, facts)?),
    }
}

// Writes what is found in texts to which a reader gave these answers, and whose further lines have these faults.
fn render_answers(
    alloc: Global,
    answers: &[Result<Routine, Failure<Fault>>],
    further: &[Fault],
    output: SurveyOutput,
) -> Result<PrintedSurvey, AllocError>
    ensures { IfOk result (λ printed. printed.read + printed.refused ≡ length answers.now) }
{
    let facts = survey(alloc, answers, further)?;
    Ok(PrintedSurvey {
        read: facts.read,
        refused: facts.refused.len(),
        text: text_in(alloc, &facts, output)?,
    })
}

/// Writes what is found in the texts of routines. They are read side by side, each by itself: one that is refused is counted and
/// reported, with its lines that can't be read, and hides nothing of the others.
pub fn render_survey<R: Threads + Sync, W: Watch>(
    runner: &Runner<'_, R, W>,
    sources: &[Source<'_>],
    output: SurveyOutput,
) -> Result<PrintedSurvey, AllocError>
    ensures { IfOk result (λ printed. printed.read + printed.refused ≡ length sources.now) }
{
    let readings = read_all_lines(runner, sources)?;
    let answers = readings.answers.as_slice();
    let printed = render_answers(runner.alloc, answers, readings.further.as_slice(), output);
    runner.watch.discard(readings);
    printed
}
