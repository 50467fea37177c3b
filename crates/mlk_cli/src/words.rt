// The command line, as `clap` reads it.

ghost use Rattle.std.specs.Prelude.{◌≡◌, ◌≢◌, codes, IfOk, IfErr, true};
ghost use Rattle.clap.specs.Words.{found_of, rows_of, kind_of};
ghost use Rattle.clap.specs.Takes.{takes};
ghost use Rattle.clap.specs.declared.error.kind.ErrorKind.TheVariants.{OutOfMemory};
ghost use Rattle.clap.specs.Simple.{subcommand_rows_of};
ghost use Rattle.mlk_cli_grammar.specs.Grammar.{mlock_app};
ghost use Rattle.mlk_cli.specs.CommandLine.{GivesNumber, GivesFormat, NamesOutput, GivesOutput, NamesDialect, GivesDialect, GivesFlag, goes_together, GivesStyle, GivesWalk, GivesSurveyOutput, GivesReplayStyle, GivesReplay, GivesAsked, GivesRoutines, GivesProgram, GivesSurvey, GivesSuggestion, IsWanted, GivesWanted, GivesStubs, GivesConversion, GivesPaths, GivesLine, texts_of, names_list, lists_routines, Asks, IsRequest, LacksRequest};

use clap::error::ErrorKind;
use clap::{ArgMatches, Error};
use mlk_cli_grammar::grammar;
use mlk_dialect::Dialect;
use std::alloc::{AllocError, Global};

// How the option begins that names a file which lists routines.
const LIST_OPTION: &[u8] = b"--files-from";

// What is said if `clap` takes the words and they are those of no request.
const NO_REQUEST: &str =
    "error: these values don't go together, or there is no such value: '--dialect' is standard or extended; '--output' of 'check' and 'verify' is text, json, sarif or lines, that of 'survey' is text or json; '--explain' and '--quiet' go with text, and not with each other; '--stubs' goes without '--beside'

For more information, try '--help'.
";

/// The format of a certificate's text.
#[derive(Clone, Copy, PartialEq, Eq)]
pub enum Format {
    First,
    Second,
}

/// The form of a report.
#[derive(Clone, Copy, PartialEq, Eq)]
pub enum Output {
    Text,
    Json,
    Sarif,
    /// text with the place of each fault before its line, as editors read it
    Lines,
}

/// The form of a survey.
#[derive(Clone, Copy, PartialEq, Eq)]
pub enum SurveyOutput {
    Text,
    Json,
}

/// The form of a report, whether hazards are reported with it, whether it is explained, or only its answer is printed, which goes
/// with text alone, and whether the status is 0 for each report.
#[derive(Clone, Copy, PartialEq, Eq)]
pub struct ReportStyle {
    pub output: Output,
    pub is_strict: bool,
    pub is_explained: bool,
    pub is_quiet: bool,
    pub exits_zero: bool,
}

/// Whether it is explained where jobs are, and whether the events are asked for and then written.
#[derive(Clone, Copy, PartialEq, Eq)]
pub struct ReplayStyle {
    pub is_explained: bool,
    pub is_interactive: bool,
}

/// What is to be done with routines and rules.
#[derive(Drop)]
pub enum Asked<'a> {
    /// the check by the certificate at this path, and the number of workers
    Check {
        certificate: &'a str,
        workers: u32,
        style: ReportStyle,
    },
    /// a certificate is made, and its text has this format
    Make {
        format: Format,
    },
    /// the check by the certificate that is made, and the number of workers
    Verify {
        workers: u32,
        style: ReportStyle,
    },
    /// the events at this path are replayed
    Replay {
        events: &'a str,
        style: ReplayStyle,
    },
}

/// What is asked for of a program, with the paths of its rules and its routines.
#[derive(Drop)]
pub struct ProgramRequest<'a> {
    pub asked: Asked<'a>,
    pub rules: &'a str,
    pub routines: Vec<&'a str>,
    pub dialect: Dialect,
    /// the path of the faults that are known, if it is given
    pub baseline: Option<&'a str>,
    /// the path at which the faults of the report are to be listed as known ones, if it is given
    pub new_baseline: Option<&'a str>,
}

/// The paths of the routines to survey, and the form of the survey.
#[derive(Drop)]
pub struct SurveyRequest<'a> {
    pub routines: Vec<&'a str>,
    pub dialect: Dialect,
    pub output: SurveyOutput,
}

/// The paths of the routines for which rules are suggested, and of the rules that are there already.
#[derive(Drop)]
pub struct SuggestRequest<'a> {
    pub beside: Option<&'a str>,
    pub routines: Vec<&'a str>,
    pub dialect: Dialect,
}

/// Which routines get a stub.
#[derive(Drop)]
pub enum WantedStubs<'a> {
    /// those that are called and not given
    Missing,
    /// those that are called and not given, and those that can't be read
    MissingAndUnread,
    /// those of these names, given or not
    Named(Vec<&'a str>),
}

/// Which routines get a stub, and the paths of the routines that call them.
#[derive(Drop)]
pub struct StubsRequest<'a> {
    pub wanted: WantedStubs<'a>,
    pub routines: Vec<&'a str>,
    pub dialect: Dialect,
}

/// What `mlock` is asked for.
#[derive(Drop)]
pub enum Request<'a> {
    Program(ProgramRequest<'a>),
    /// the text in this format of the certificate at this path
    Convert {
        certificate: &'a str,
        format: Format,
    },
    Survey(SurveyRequest<'a>),
    Suggest(SuggestRequest<'a>),
    Stubs(StubsRequest<'a>),
    /// the page of the code that this word names
    Explain(&'a str),
}

/// What the words ask for, and the path of the file that lists more routines, if it is given.
#[derive(Drop)]
pub struct Invocation<'a> {
    pub request: Request<'a>,
    pub list: Option<&'a str>,
}

/// Why the words ask for nothing.
#[derive(Drop, Debug, thiserror::Error)]
pub enum UsageError {
    #[error("out of memory")]
    OutOfMemory,
    /// The text that says so, help that was asked for too.
    #[error("{0}")]
    Usage(String),
}

// The number that a command was given by the option of this name.
fn number_of(matches: &ArgMatches<'_>, option: &str) -> Option<u32>
    ensures { GivesNumber option.now (rows_of (found_of matches.now)) result }
{
    matches.get_one::<u32>(option)
}

// The format that a command was given.
fn format_of(matches: &ArgMatches<'_>) -> Option<Format>
    ensures { GivesFormat (rows_of (found_of matches.now)) result }
{
    match number_of(matches, "format") {
        Some(1) => Some(Format::First),
        Some(2) => Some(Format::Second),
        _ => None,
    }
}

fn output_named(text: &str) -> Option<Output>
    ensures { NamesOutput text.now result }
{
    if text == "text" {
        return Some(Output::Text);
    }
    if text == "json" {
        return Some(Output::Json);
    }
    if text == "sarif" {
        return Some(Output::Sarif);
    }
    if text == "lines" {
        return Some(Output::Lines);
    }
    None
}

// The form of the report that a command was given.
fn output_of(matches: &ArgMatches<'_>) -> Option<Output>
    ensures { GivesOutput (rows_of (found_of matches.now)) result }
{
    let Some(text) = matches.get_str("output") else {
        return None;
    };
    output_named(text)
}

// Whether a command was given the option of this name.
fn flag_of(matches: &ArgMatches<'_>, option: &str) -> Option<bool>
    ensures { GivesFlag option.now (rows_of (found_of matches.now)) result }
{
    let Some(text) = matches.get_str(option) else {
        return None;
    };
    if text == "true" {
        return Some(true);
    }
    if text == "false" {
        return Some(false);
    }
    None
}

// Whether a report of this form may be explained, or be reduced to its answer.
fn goes_together(output: Output, is_explained: bool, is_quiet: bool) -> bool
    ensures { result ≡ goes_together output is_explained is_quiet }
{
    match output {
        Output::Text => !(is_explained && is_quiet),
        Output::Json | Output::Sarif | Output::Lines => !is_explained && !is_quiet,
    }
}

fn style_of(matches: &ArgMatches<'_>) -> Option<ReportStyle>
    ensures { GivesStyle (rows_of (found_of matches.now)) result }
{
    let Some(output) = output_of(matches) else {
        return None;
    };
    let Some(is_strict) = flag_of(matches, "strict") else {
        return None;
    };
    let Some(is_explained) = flag_of(matches, "explain") else {
        return None;
    };
    let Some(is_quiet) = flag_of(matches, "quiet") else {
        return None;
    };
    let Some(exits_zero) = flag_of(matches, "exit-zero") else {
        return None;
    };
    if !goes_together(output, is_explained, is_quiet) {
        return None;
    }
    Some(ReportStyle {
        output,
        is_strict,
        is_explained,
        is_quiet,
        exits_zero,
    })
}

// How many workers a command was given, and the style of its report.
fn walk_of(matches: &ArgMatches<'_>) -> Option<(u32, ReportStyle)>
    ensures { GivesWalk (rows_of (found_of matches.now)) result }
{
    let Some(workers) = number_of(matches, "workers") else {
        return None;
    };
    let Some(style) = style_of(matches) else {
        return None;
    };
    Some((workers, style))
}

fn survey_output_of(matches: &ArgMatches<'_>) -> Option<SurveyOutput>
    ensures { GivesSurveyOutput (rows_of (found_of matches.now)) result }
{
    match output_of(matches) {
        Some(Output::Text) => Some(SurveyOutput::Text),
        Some(Output::Json) => Some(SurveyOutput::Json),
        Some(Output::Sarif) => None,
        Some(Output::Lines) => None,
        None => None,
    }
}

fn replay_style_of(matches: &ArgMatches<'_>) -> Option<ReplayStyle>
    ensures { GivesReplayStyle (rows_of (found_of matches.now)) result }
{
    let Some(is_explained) = flag_of(matches, "explain") else {
        return None;
    };
    let Some(is_interactive) = flag_of(matches, "interactive") else {
        return None;
    };
    Some(ReplayStyle {
        is_explained,
        is_interactive,
    })
}

// The path of the events, and how they are replayed.
fn replay_of<'a>(matches: &ArgMatches<'a>) -> Option<(&'a str, ReplayStyle)>
    ensures { GivesReplay (rows_of (found_of matches.now)) result }
{
    let Some(events) = matches.get_str("EVENTS") else {
        return None;
    };
    let Some(style) = replay_style_of(matches) else {
        return None;
    };
    Some((events, style))
}

// What the command of this name is to do with a program.
fn asked_by<'a>(name: &str, matches: &ArgMatches<'a>) -> Option<Asked<'a>>
    ensures { GivesAsked name.now (rows_of (found_of matches.now)) result }
{
    if name == "make" {
        let Some(format) = format_of(matches) else {
            return None;
        };
        return Some(Asked::Make { format });
    }
    if name == "verify" {
        let Some((workers, style)) = walk_of(matches) else {
            return None;
        };
        return Some(Asked::Verify { workers, style });
    }
    if name == "replay" {
        let Some((events, style)) = replay_of(matches) else {
            return None;
        };
        return Some(Asked::Replay { events, style });
    }
    if name != "check" {
        return None;
    }
    let Some(certificate) = matches.get_str("CERT") else {
        return None;
    };
    let Some((workers, style)) = walk_of(matches) else {
        return None;
    };
    Some(Asked::Check {
        certificate,
        workers,
        style,
    })
}

// The paths of the routines that a command was given; there may be none if a file lists them.
fn routines_of<'a>(
    alloc: Global,
    matches: &ArgMatches<'a>,
) -> Result<Option<Vec<&'a str>>, AllocError>
    ensures { IfOk result (GivesRoutines (rows_of (found_of matches.now))) }
{
    if let Some(paths) = matches.get_strs("ROUTINE") {
        let routines = Vec::from_slice(alloc, paths)?;
        return Ok(Some(routines));
    }
    match matches.get_str("files-from") {
        Some(_) => Ok(Some(Vec::new(alloc))),
        None => Ok(None),
    }
}

fn dialect_named(text: &str) -> Option<Dialect>
    ensures { NamesDialect text.now result }
{
    if text == "standard" {
        return Some(Dialect::Standard);
    }
    if text == "extended" {
        return Some(Dialect::Extended);
    }
    None
}

// How much of M a command was asked to read.
fn dialect_of(matches: &ArgMatches<'_>) -> Option<Dialect>
    ensures { GivesDialect (rows_of (found_of matches.now)) result }
{
    let Some(text) = matches.get_str("dialect") else {
        return None;
    };
    dialect_named(text)
}

// What the command of this name asks for of a program, by what it was given.
fn program_of<'a>(
    alloc: Global,
    name: &str,
    matches: &ArgMatches<'a>,
) -> Result<Option<ProgramRequest<'a>>, AllocError>
    ensures { IfOk result (GivesProgram name.now (rows_of (found_of matches.now))) }
{
    let Some(asked) = asked_by(name, matches) else {
        return Ok(None);
    };
    let Some(rules) = matches.get_str("RULES") else {
        return Ok(None);
    };
    let Some(routines) = routines_of(alloc, matches)? else {
        return Ok(None);
    };
    let Some(dialect) = dialect_of(matches) else {
        return Ok(None);
    };
    let baseline = matches.get_str("baseline");
    let new_baseline = matches.get_str("write-baseline");
    Ok(Some(ProgramRequest {
        asked,
        rules,
        routines,
        dialect,
        baseline,
        new_baseline,
    }))
}

// The certificate that is to be written in another format, and that format.
fn conversion_of<'a>(matches: &ArgMatches<'a>) -> Option<(&'a str, Format)>
    ensures { GivesConversion (rows_of (found_of matches.now)) result }
{
    let Some(certificate) = matches.get_str("CERT") else {
        return None;
    };
    let Some(format) = format_of(matches) else {
        return None;
    };
    Some((certificate, format))
}

// The survey that is asked for.
fn survey_of<'a>(
    alloc: Global,
    matches: &ArgMatches<'a>,
) -> Result<Option<SurveyRequest<'a>>, AllocError>
    ensures { IfOk result (GivesSurvey (rows_of (found_of matches.now))) }
{
    let Some(routines) = routines_of(alloc, matches)? else {
        return Ok(None);
    };
    let Some(dialect) = dialect_of(matches) else {
        return Ok(None);
    };
    let Some(output) = survey_output_of(matches) else {
        return Ok(None);
    };
    Ok(Some(SurveyRequest {
        routines,
        dialect,
        output,
    }))
}

// The suggestion that is asked for.
fn suggestion_of<'a>(
    alloc: Global,
    matches: &ArgMatches<'a>,
) -> Result<Option<SuggestRequest<'a>>, AllocError>
    ensures { IfOk result (GivesSuggestion (rows_of (found_of matches.now))) }
{
    let Some(routines) = routines_of(alloc, matches)? else {
        return Ok(None);
    };
    let Some(dialect) = dialect_of(matches) else {
        return Ok(None);
    };
    let Some(false) = flag_of(matches, "stubs") else {
        return Ok(None);
    };
    let beside = matches.get_str("beside");
    Ok(Some(SuggestRequest {
        beside,
        routines,
        dialect,
    }))
}

// Which routines get a stub by `stubs`.
fn named_by<'a>(alloc: Global, matches: &ArgMatches<'a>) -> Result<WantedStubs<'a>, AllocError>
    ensures { IfOk result (IsWanted (codes "stubs") (rows_of (found_of matches.now))) }
{
    let Some(words) = matches.get_strs("for") else {
        return Ok(WantedStubs::Missing);
    };
    let names = Vec::from_slice(alloc, words)?;
    Ok(WantedStubs::Named(names))
}

// Which routines get a stub by the command of this name, by what it was given.
fn wanted_by<'a>(
    alloc: Global,
    name: &str,
    matches: &ArgMatches<'a>,
) -> Result<Option<WantedStubs<'a>>, AllocError>
    ensures { IfOk result (GivesWanted name.now (rows_of (found_of matches.now))) }
{
    if name == "stubs" {
        return Ok(Some(named_by(alloc, matches)?));
    }
    if name != "suggest" {
        return Ok(None);
    }
    let Some(true) = flag_of(matches, "stubs") else {
        return Ok(None);
    };
    match matches.get_str("beside") {
        None => Ok(Some(WantedStubs::MissingAndUnread)),
        Some(_) => Ok(None),
    }
}

// The stubs that the command of this name asks for, by what it was given.
fn stubs_of<'a>(
    alloc: Global,
    name: &str,
    matches: &ArgMatches<'a>,
) -> Result<Option<StubsRequest<'a>>, AllocError>
    ensures { IfOk result (GivesStubs name.now (rows_of (found_of matches.now))) }
{
    let Some(wanted) = wanted_by(alloc, name, matches)? else {
        return Ok(None);
    };
    let Some(routines) = routines_of(alloc, matches)? else {
        return Ok(None);
    };
    let Some(dialect) = dialect_of(matches) else {
        return Ok(None);
    };
    Ok(Some(StubsRequest {
        wanted,
        routines,
        dialect,
    }))
}

// What the command of this name, which reads routines, asks for, by what it was given.
fn routines_request<'a>(
    alloc: Global,
    name: &str,
    matches: &ArgMatches<'a>,
) -> Result<Option<Request<'a>>, AllocError>
    requires no_conversion { name.now ≢ codes "convert" }
    requires no_page { name.now ≢ codes "explain" }
    ensures { IfOk result (GivesPaths name.now (rows_of (found_of matches.now))) }
{
    if let Some(stubs) = stubs_of(alloc, name, matches)? {
        return Ok(Some(Request::Stubs(stubs)));
    }
    if name == "survey" {
        let Some(survey) = survey_of(alloc, matches)? else {
            return Ok(None);
        };
        return Ok(Some(Request::Survey(survey)));
    }
    if name == "suggest" {
        let Some(suggestion) = suggestion_of(alloc, matches)? else {
            return Ok(None);
        };
        return Ok(Some(Request::Suggest(suggestion)));
    }
    let Some(program) = program_of(alloc, name, matches)? else {
        return Ok(None);
    };
    Ok(Some(Request::Program(program)))
}

// What the command of this name asks for, by what it was given.
fn command_request<'a>(
    alloc: Global,
    name: &str,
    matches: &ArgMatches<'a>,
) -> Result<Option<Request<'a>>, AllocError>
    ensures { IfOk result (GivesPaths name.now (rows_of (found_of matches.now))) }
{
    if name == "convert" {
        let Some((certificate, format)) = conversion_of(matches) else {
            return Ok(None);
        };
        return Ok(Some(Request::Convert {
            certificate,
            format,
        }));
    }
    if name == "explain" {
        let Some(code) = matches.get_str("CODE") else {
            return Ok(None);
        };
        return Ok(Some(Request::Explain(code)));
    }
    routines_request(alloc, name, matches)
}

// What is asked for by the command that the words name.
fn line_of<'a>(
    alloc: Global,
    matches: &ArgMatches<'a>,
) -> Result<Option<Invocation<'a>>, AllocError>
    ensures { IfOk result (GivesLine (subcommand_rows_of matches.now)) }
{
    let Some((name, inner)) = matches.subcommand() else {
        return Ok(None);
    };
    let Some(request) = command_request(alloc, name, inner)? else {
        return Ok(None);
    };
    let list = inner.get_str("files-from");
    Ok(Some(Invocation { request, list }))
}

// Whether a word names a file that lists routines.
fn names_list(word: &str) -> bool
    ensures { result ≡ names_list word.now }
{
    word.as_bytes().starts_with(LIST_OPTION)
}

// Whether the words name a file that lists routines.
fn lists_routines(words: &[String]) -> bool
    ensures { result ≡ lists_routines words.now }
{
    words.iter().any(|word| names_list(word.as_str()))
}

fn read_words<'a>(alloc: Global, words: &'a [String]) -> Result<Option<Invocation<'a>>, Error>
    ensures asks { IfOk result (Asks words.now) }
    ensures passes { IfErr result (λ e. takes (mlock_app (lists_routines words.now)) (texts_of words.now) ≡ true → kind_of e ≡ OutOfMemory) }
{
    let grammar = grammar(alloc, lists_routines(words))?;
    let matches = grammar.try_get_matches_from(words)?;
    Ok(line_of(alloc, &matches)?)
}

fn no_request(alloc: Global) -> UsageError {
    match String::from_str(alloc, NO_REQUEST) {
        Ok(text) => UsageError::Usage(text),
        Err(AllocError) => UsageError::OutOfMemory,
    }
}

/// What the words ask for; the first word is the program's name.
pub fn read_request<'a>(alloc: Global, words: &'a [String]) -> Result<Invocation<'a>, UsageError>
    ensures asks { IfOk result (IsRequest words.now) }
    ensures refused { IfErr result (LacksRequest words.now) }
{
    match read_words(alloc, words) {
        Ok(Some(line)) => Ok(line),
        Ok(None) => Err(no_request(alloc)),
        Err(error) => {
            if error.kind() == ErrorKind::OutOfMemory {
                return Err(UsageError::OutOfMemory);
            }
            match error.to_string(alloc) {
                Ok(text) => Err(UsageError::Usage(text)),
                Err(AllocError) => Err(UsageError::OutOfMemory),
            }
        }
    }
}
