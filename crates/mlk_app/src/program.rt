// The program, from its words to its status.

ghost use Rattle.std.specs.Prelude.{◌≡◌, ◌≢◌, ◌∷◌, [], IfOk};
ghost use Rattle.std.specs.IoError.{error_kind};
ghost use Rattle.mlk_cli.specs.declared.words.Request.TheVariants as wanted;
ghost use Rattle.mlk_app.specs.Ran.{style_in, IsErrorLine, IsRefusalLine, PrintsSurvey, TellsRefusal, TellsFault, TellsBaseline};
ghost use Rattle.mlk_app.specs.Ran.{TellsUnread, TellsUnfound, TellsPage, Answers, AnswersFound, AnswersLine, AnswersWords, Ran};
ghost use Rattle.mlk_files.specs.Files.{AreTexts, LosesPath, written_path};
ghost use Rattle.mlk_app.specs.Printing.{IsReportAnswer};
ghost use Rattle.mlk_cli.specs.CommandLine.{bytes_of};
ghost use Rattle.mlk_forms.specs.Rendering.{IsNoticed};
ghost use Rattle.mlk_outcome.specs.Refusals.{IsOfOpenGate, IsNotShut};

use crate::answer::{Answer, REFUSED, YES, print_answer, write_error, write_memory_error};
use crate::baseline::known_faults;
use crate::help::{Explaining, certificate_help, is_refusal_explained, refusal_help, why_unread};
use crate::notice::notice_of;
use crate::refused::{Refused, rule_file, spot_in};
use crate::stubs::answer_stubs;
use crate::stuck::render_refusal;
use crate::suggestion::answer_suggestion;
use crate::work::{Printed, print_sources, style_in};
use mlk_baseline::BaselineFault;
use mlk_cert::CertFault;
use mlk_cli::{
    Format, Invocation, ProgramRequest, Request, SurveyRequest, UsageError, read_request,
};
use mlk_dialogue::{ask_for_events, begun_events, with_events, written_path};
use mlk_files::{
    FileError, Files, Sources, all_paths, cert_format, find_routines, found_paths, list_of,
    read_file, read_files, read_given, read_in, read_sources, with_routines,
};
use mlk_forms::{render_pages, render_survey};
use mlk_outcome::{NoReport, convert};
use mlk_plain_report::ReportText;
use mlk_pool::CheckError;
use mlk_reading::Source;
use mlk_refusal_lines::{
    baseline_line, certificate_line, events_line, fault_line, file_line, missing_line,
    no_page_line, rules_line, stuck_line, workers_line,
};
use mlk_refusal_text::Spot;
use mlk_text::Failure;
use mlk_watch::{Runner, Watch};
use std::alloc::{AllocError, Global};
use std::io::{self, ErrorKind, Write};
use std::sync::Wait;
use std::thread::Threads;

// What helps if there is no such code.
const CODES_HELP: &[u8] = b"  = help: give a number such as 702, or a name such as Uncovered\n";

fn error_line(alloc: Global, error: &CheckError) -> Result<ReportText, AllocError>
    requires { IsOfOpenGate error.now }
    ensures { IfOk result (IsErrorLine error.now) }
{
    match error {
        CheckError::OutOfMemory => Err(AllocError),
        CheckError::Routine(fault) => fault_line(alloc, fault),
        CheckError::Rules(fault) => rules_line(alloc, fault),
        CheckError::Certificate(fault) => certificate_line(alloc, fault),
        CheckError::Entry(entry) => missing_line(alloc, entry),
        CheckError::Workers => workers_line(alloc),
        CheckError::GateShut(_) => unreachable!(),
    }
}

fn refusal_line(alloc: Global, refusal: &NoReport) -> Result<ReportText, AllocError>
    requires { IsNotShut refusal.now }
    ensures { IfOk result (IsRefusalLine refusal.now) }
{
    match refusal {
        NoReport::Check(error) => error_line(alloc, error),
        NoReport::GaveUp(entry, fault) => stuck_line(alloc, entry, fault),
        NoReport::Events(fault) => events_line(alloc, fault),
    }
}

// What is printed beside the line of a refusal that is at `spot`.
fn notice_at<R: Threads + Wait + Sync, W: Watch>(
    runner: &Runner<'_, R, W>,
    refused: &Refused<'_>,
    program: &ProgramRequest<'_>,
    sources: &Sources<'_>,
    line: &ReportText,
    spot: Option<Spot>,
) -> Result<Option<ReportText>, AllocError>
    ensures { IfOk result (IsNoticed (style_in program.now.asked).output) }
{
    let file = refused.file(program, sources);
    let file = file.unwrap_or(rule_file(program, sources));
    match notice_of(refused.why, program, line.as_bytes(), file, spot) {
        Some(notice) => render_refusal(runner, &notice, program, sources),
        None => Ok(None),
    }
}

// What is printed of a refusal beside its line.
fn notice<R: Threads + Wait + Sync, W: Watch>(
    runner: &Runner<'_, R, W>,
    refused: &Refused<'_>,
    program: &ProgramRequest<'_>,
    sources: &Sources<'_>,
    line: &ReportText,
) -> Result<Option<ReportText>, AllocError>
    ensures { IfOk result (IsNoticed (style_in program.now.asked).output) }
{
    let file = refused.file(program, sources);
    match spot_in(runner.alloc, refused.why, &file) {
        Ok(spot) => notice_at(runner, refused, program, sources, line, spot),
        Err(AllocError) => Err(AllocError),
    }
}

fn refusal_answer<R: Threads + Wait + Sync, W: Watch>(
    runner: &Runner<'_, R, W>,
    refusal: &NoReport,
    program: &ProgramRequest<'_>,
    sources: &Sources<'_>,
    explaining: Explaining,
) -> Answer
    requires { IsNotShut refusal.now }
    ensures { TellsRefusal (style_in program.now.asked).output refusal.now result }
{
    let alloc = runner.alloc;
    let Ok(line) = refusal_line(alloc, refusal) else {
        return Answer::OutOfMemory;
    };
    let Ok(refused) = Refused::of(alloc, refusal, sources.as_read()) else {
        return Answer::OutOfMemory;
    };
    let Ok(beside) = notice(runner, &refused, program, sources, &line) else {
        return Answer::OutOfMemory;
    };
    match refusal_help(runner, &refused, program, sources, explaining) {
        Ok(help) => Answer::Refused(line, beside, help),
        Err(AllocError) => Answer::OutOfMemory,
    }
}

// What is answered if the certificate at a path, which has this text, is refused.
fn fault_answer<'a>(
    alloc: Global,
    path: &'a str,
    text: &'a [u8],
    fault: &CertFault,
    explaining: Explaining,
) -> Answer
    ensures { TellsFault fault.now result }
{
    let Ok(help) = certificate_help(alloc, path, text, fault, explaining) else {
        return Answer::OutOfMemory;
    };
    match certificate_line(alloc, fault) {
        Ok(line) => Answer::Refused(line, None, help),
        Err(AllocError) => Answer::OutOfMemory,
    }
}

/// What is answered if the file at `path` can't be read.
pub(crate) fn unread_answer<F: Files>(
    alloc: Global,
    files: &F,
    path: &str,
    is_explained: bool,
) -> Answer
    ensures { TellsUnread path.now result }
{
    let Ok(help) = why_unread(alloc, files, path, is_explained) else {
        return Answer::OutOfMemory;
    };
    match file_line(alloc, path) {
        Ok(line) => Answer::Unread(line, help),
        Err(AllocError) => Answer::OutOfMemory,
    }
}

// What is answered if the page of a code is asked for.
fn answer_page(alloc: Global, code: &str) -> Answer
    ensures { TellsPage code.now result }
{
    let Ok(page) = render_pages(alloc, code) else {
        return Answer::OutOfMemory;
    };
    if let Some(text) = page {
        return Answer::Report(text, YES);
    }
    let Ok(help) = Vec::from_slice(alloc, CODES_HELP) else {
        return Answer::OutOfMemory;
    };
    match no_page_line(alloc, code) {
        Ok(line) => Answer::Refused(line, None, help),
        Err(AllocError) => Answer::OutOfMemory,
    }
}

// What is answered if a line of the known faults is refused.
fn baseline_answer(alloc: Global, fault: &BaselineFault) -> Answer
    ensures { TellsBaseline fault.now result }
{
    match baseline_line(alloc, fault) {
        Ok(line) => Answer::Refused(line, None, Vec::new(alloc)),
        Err(AllocError) => Answer::OutOfMemory,
    }
}

// What is answered if the file at `path` can't be written.
fn unwritten_answer(alloc: Global, path: &str) -> Answer
    ensures { TellsUnread path.now result }
{
    match file_line(alloc, path) {
        Ok(line) => Answer::Unread(line, Vec::new(alloc)),
        Err(AllocError) => Answer::OutOfMemory,
    }
}

// Writes the file at `path`, if there is a text for it.
fn write_text<F: Files>(files: &F, path: &str, text: &Option<Vec<u8>>) -> io::Result<()> {
    match text {
        Some(text) => files.write(path, text.as_slice()),
        None => Ok(()),
    }
}

// Writes the faults of a report as known ones, if that is asked for, and answers with the report.
fn report_answer<F: Files>(
    alloc: Global,
    program: &ProgramRequest<'_>,
    printed: Printed,
    files: &F,
) -> Answer
    ensures { IsReportAnswer program.now printed.text printed.status result }
{
    let Some(path) = program.new_baseline else {
        return Answer::Report(printed.text, printed.status);
    };
    if write_text(files, path, &printed.new_baseline).is_err() {
        return unwritten_answer(alloc, path);
    }
    Answer::Report(printed.text, printed.status)
}

// What is answered to a request for a program whose files have these texts.
fn answer_sources<R: Threads + Wait + Sync, F: Files, W: Watch>(
    runner: &Runner<'_, R, W>,
    program: &ProgramRequest<'_>,
    sources: &Sources<'_>,
    files: &F,
    explaining: Explaining,
) -> Answer
    requires { AreTexts (F.holds files.now) program.now sources.now }
    ensures { Answers (F.holds files.now) (F.unreadable files.now) (wanted.Program program.now) result }
{
    let alloc = runner.alloc;
    let known = match known_faults(alloc, sources) {
        Ok(known) => known,
        Err(Failure::OutOfMemory) => return Answer::OutOfMemory,
        Err(Failure::Refused(fault)) => return baseline_answer(alloc, &fault),
    };
    match print_sources(runner, sources, program, known.as_ref()) {
        Ok(printed) => report_answer(alloc, program, printed, files),
        Err(refusal) => refusal_answer(runner, &refusal, program, sources, explaining),
    }
}

// What is answered if the events that the file at `path` has already can't be read, for a reason of the kind `why`.
fn lost_events_answer<F: Files>(
    alloc: Global,
    files: &F,
    path: &str,
    why: ErrorKind,
    is_explained: bool,
) -> Answer
    ensures { TellsUnread path.now result }
{
    if why == ErrorKind::OutOfMemory {
        return Answer::OutOfMemory;
    }
    unread_answer(alloc, files, path, is_explained)
}

// What is answered if a person is asked for the events, which are then written at `path`.
#[tactic(auto, using(crate::proofs::Saying::unwritten_answers, mlk_files::proofs::Texts::asked_texts))]
fn answer_dialogue<'a, R: Threads + Wait + Sync, F: Files, W: Watch>(
    runner: &Runner<'_, R, W>,
    program: &ProgramRequest<'a>,
    sources: Sources<'a>,
    path: &str,
    files: &F,
    explaining: Explaining,
) -> Answer
    requires texts { AreTexts (F.holds files.now) program.now sources }
    requires written { written_path program.now.asked ≡ path.now ∷ [] }
    ensures { Answers (F.holds files.now) (F.unreadable files.now) (wanted.Program program.now) result }
{
    let alloc = runner.alloc;
    let begun = match begun_events(alloc, files, path) {
        Ok(begun) => begun,
        Err(error) => {
            let is_explained = is_refusal_explained(program, explaining);
            return lost_events_answer(alloc, files, path, error.kind(), is_explained);
        }
    };
    let Ok(entered) = ask_for_events(runner, files, program, &sources, begun.as_slice()) else {
        return Answer::OutOfMemory;
    };
    if write_text(files, path, &entered).is_err() {
        return unwritten_answer(alloc, path);
    }
    let sources = with_events(sources, entered.unwrap_or(begun));
    answer_sources(runner, program, &sources, files, explaining)
}

// What is answered to a request for a program, from the texts of its files.
fn answer_program<R: Threads + Wait + Sync, F: Files, W: Watch>(
    runner: &Runner<'_, R, W>,
    program: &ProgramRequest<'_>,
    files: &F,
    explaining: Explaining,
) -> Answer
    ensures { Answers (F.holds files.now) (F.unreadable files.now) (wanted.Program program.now) result }
{
    let alloc = runner.alloc;
    match read_files(alloc, files, program) {
        Ok(sources) => match written_path(program) {
            Some(path) => answer_dialogue(runner, program, sources, path, files, explaining),
            None => answer_sources(runner, program, &sources, files, explaining),
        },
        Err(FileError::OutOfMemory) => Answer::OutOfMemory,
        Err(FileError::Unread(path)) => {
            let is_explained = is_refusal_explained(program, explaining);
            unread_answer(alloc, files, path, is_explained)
        }
    }
}

// What is answered where a certificate is to be converted, from its text.
fn answer_conversion<F: Files, W: Watch>(
    alloc: Global,
    certificate: &str,
    format: Format,
    files: &F,
    explaining: Explaining,
    watch: &W,
) -> Answer
    ensures { Answers (F.holds files.now) (F.unreadable files.now) (wanted.Convert certificate.entry format) result }
{
    match read_file(alloc, files, certificate) {
        Ok(text) => match convert(alloc, text.as_slice(), cert_format(format), watch) {
            Ok(text) => Answer::Report(ReportText::of(text), YES),
            Err(Failure::OutOfMemory) => Answer::OutOfMemory,
            Err(Failure::Refused(fault)) => {
                fault_answer(alloc, certificate, text.as_slice(), &fault, explaining)
            }
        },
        Err(FileError::OutOfMemory) => Answer::OutOfMemory,
        Err(FileError::Unread(path)) => {
            unread_answer(alloc, files, path, explaining == Explaining::Refusals)
        }
    }
}

// What is answered where a survey of routines is asked for.
fn survey_answer<R: Threads + Wait + Sync, W: Watch>(
    runner: &Runner<'_, R, W>,
    survey: &SurveyRequest<'_>,
    sources: Vec<Source<'_>>,
) -> Answer
    ensures { PrintsSurvey result }
{
    let Ok(read) = read_in(runner.alloc, survey.dialect, sources) else {
        return Answer::OutOfMemory;
    };
    match render_survey(runner, read.as_slice(), survey.output) {
        Ok(printed) => Answer::Report(printed.text, YES),
        Err(AllocError) => Answer::OutOfMemory,
    }
}

// What is answered where a survey is asked for, from the texts of the routines.
fn answer_survey<R: Threads + Wait + Sync, F: Files, W: Watch>(
    runner: &Runner<'_, R, W>,
    survey: &SurveyRequest<'_>,
    files: &F,
    explaining: Explaining,
) -> Answer
    ensures { Answers (F.holds files.now) (F.unreadable files.now) (wanted.Survey survey.now) result }
{
    let alloc = runner.alloc;
    match read_sources(alloc, files, survey.routines.as_slice()) {
        Ok(sources) => survey_answer(runner, survey, sources),
        Err(FileError::OutOfMemory) => Answer::OutOfMemory,
        Err(FileError::Unread(path)) => {
            unread_answer(alloc, files, path, explaining == Explaining::Refusals)
        }
    }
}

// What is answered to a request, from the texts of the files.
fn answer_request<R: Threads + Wait + Sync, F: Files, W: Watch>(
    runner: &Runner<'_, R, W>,
    request: &Request<'_>,
    files: &F,
    explaining: Explaining,
) -> Answer
    ensures { Answers (F.holds files.now) (F.unreadable files.now) request.now result }
{
    let alloc = runner.alloc;
    match request {
        Request::Program(program) => answer_program(runner, program, files, explaining),
        Request::Convert {
            certificate,
            format,
        } => answer_conversion(
            alloc,
            *certificate,
            *format,
            files,
            explaining,
            runner.watch,
        ),
        Request::Survey(survey) => answer_survey(runner, survey, files, explaining),
        Request::Suggest(suggestion) => answer_suggestion(alloc, suggestion, files, explaining),
        Request::Stubs(stubs) => answer_stubs(alloc, stubs, files, explaining),
        Request::Explain(code) => answer_page(alloc, *code),
    }
}

// What is answered if a file can't be read that the routines are found by.
fn unfound_answer<F: Files>(
    alloc: Global,
    files: &F,
    error: &FileError<'_>,
    explaining: Explaining,
) -> Answer
    requires { LosesPath (F.unreadable files.now) error.now }
    ensures { TellsUnfound (F.unreadable files.now) result }
{
    match error {
        FileError::OutOfMemory => Answer::OutOfMemory,
        FileError::Unread(path) => {
            unread_answer(alloc, files, *path, explaining == Explaining::Refusals)
        }
    }
}

// What is answered to a request whose routines are at these paths, and below those that are folders.
fn answer_paths<R: Threads + Wait + Sync, F: Files, W: Watch>(
    runner: &Runner<'_, R, W>,
    request: Request<'_>,
    paths: &[&str],
    files: &F,
    explaining: Explaining,
) -> Answer
    ensures { AnswersFound (F.holds files.now) (F.below files.now) (F.unreadable files.now) request.entry (bytes_of paths.now) result }
{
    let alloc = runner.alloc;
    let found = match find_routines(alloc, files, paths) {
        Ok(found) => found,
        Err(error) => return unfound_answer(alloc, files, &error, explaining),
    };
    let Ok(routines) = found_paths(alloc, found.as_slice()) else {
        return Answer::OutOfMemory;
    };
    let request = with_routines(request, routines);
    answer_request(runner, &request, files, explaining)
}

// What is answered to a command line: its routines are found, and its request is answered.
fn answer_line<R: Threads + Wait + Sync, F: Files, W: Watch>(
    runner: &Runner<'_, R, W>,
    line: Invocation<'_>,
    files: &F,
    explaining: Explaining,
) -> Answer
    ensures { AnswersLine (F.holds files.now) (F.below files.now) (F.unreadable files.now) line.entry result }
{
    let alloc = runner.alloc;
    let Invocation { request, list } = line;
    let text = match read_given(alloc, files, list) {
        Ok(text) => text,
        Err(error) => return unfound_answer(alloc, files, &error, explaining),
    };
    let Ok(list) = list_of(alloc, &text) else {
        return Answer::OutOfMemory;
    };
    match all_paths(alloc, &request, &list) {
        Ok(paths) => answer_paths(runner, request, paths.as_slice(), files, explaining),
        Err(AllocError) => Answer::OutOfMemory,
    }
}

fn answer_words<R: Threads + Wait + Sync, F: Files, W: Watch>(
    runner: &Runner<'_, R, W>,
    words: &[String],
    files: &F,
    explaining: Explaining,
) -> Answer
    ensures { AnswersWords (F.holds files.now) (F.below files.now) (F.unreadable files.now) words.now result }
{
    let alloc = runner.alloc;
    match read_request(alloc, words) {
        Ok(line) => answer_line(runner, line, files, explaining),
        Err(UsageError::OutOfMemory) => Answer::OutOfMemory,
        Err(UsageError::Usage(text)) => Answer::Usage(text),
    }
}

/// Says that the words could not be had, and answers the status: 3 if memory ran out, 2 for a word that is no UTF-8.
pub fn wrong_words<E: Write>(error: &io::Error, err: &mut E) -> u8
    ensures memory { error_kind error.now ≡ ErrorKind.OutOfMemory → result ≡ 3 }
    ensures word { error_kind error.now ≢ ErrorKind.OutOfMemory → result ≡ 2 }
{
    if error.kind() == ErrorKind::OutOfMemory {
        return write_memory_error(err);
    }
    write_error(err, b"error: a word of the command line is no UTF-8 text\n");
    REFUSED
}

/// Does what the words ask for, after the first, which is the program's name, and answers the status: 0 for `yes`,
/// a certificate, jobs, a survey, suggested rules or stubs, 1 for `no` and, with `--strict`, for a hazard, 2 for refused input,
/// 3 if memory runs out or for a file that can't be read or written.
///
/// The texts of routines are read side by side, by these threads, and the lines of entries are walked so by the workers that
/// the words ask for. Reports go to `out`, and so does the JSON or SARIF of a refusal; all else goes to `err`. A fault of
/// `err` changes nothing. Refusals are explained on `err` as much as `explaining` says. `watch` sees how far the work has come,
/// and its end before anything is written.
pub fn run<R: Threads + Wait + Sync, F: Files, W: Watch, O: Write, E: Write>(
    runner: &Runner<'_, R, W>,
    words: &[String],
    files: &F,
    explaining: Explaining,
    out: &mut O,
    err: &mut E,
) -> u8
    ensures { Ran (F.holds files.now) (F.below files.now) (F.unreadable files.now) words.now (O.contents out.old)
        (O.contents out.new) result }
{
    let answer = answer_words(runner, words, files, explaining);
    runner.watch.end();
    print_answer(&answer, out, err)
}
