// The grammar of the command line, for `clap`.

ghost use Rattle.std.specs.Prelude.{◌≡◌, IfOk, true, false};
ghost use Rattle.clap.specs.Words.{app_of, rule_of, with_rule, with_subcommand};
ghost use Rattle.mlk_cli_grammar.specs.Grammar.{path_rule, routines_rule, workers_rule, format_rule, output_rule, flag_rule, file_rule, dialect_rule, with_routines, with_style, with_baseline, with_report, with_replaying, check_app, make_app, verify_app, replay_app, convert_app, survey_app, suggest_app, for_rule, stubs_app, explain_app, no_command_app, mlock_app};

use crate::help::{
    ABOUT, BASELINE_HELP, BESIDE_HELP, CERT_HELP, CHECK_HELP, CHECK_MORE, CODE_HELP, CONVERT_HELP,
    CONVERT_MORE, DIALECT_HELP, EVENTS_HELP, EXIT_ZERO_HELP, EXPLAIN_HELP, FILES_HELP, FOR_HELP,
    FORMAT_HELP, INSTEAD_HELP, INTERACTIVE_HELP, MAKE_HELP, MAKE_MORE, OUTPUT_HELP, PAGE_HELP,
    PAGE_MORE, QUIET_HELP, REPLAY_HELP, REPLAY_MORE, ROUTINE_HELP, RULES_HELP, STRICT_HELP,
    STUBS_HELP, STUBS_MORE, SUGGEST_HELP, SUGGEST_MORE, SURVEY_HELP, SURVEY_MORE,
    SURVEY_OUTPUT_HELP, VERIFY_HELP, VERIFY_MORE, VERSION, WHERE_HELP, WORKERS_HELP,
    WRITE_BASELINE_HELP,
};
use clap::builder::ValueParser;
use clap::{Arg, ArgAction, Command, value_parser};
use std::alloc::{AllocError, Global};

// A word that must be given, mostly a path.
fn path<'a>(alloc: Global, id: &'a str, help: &'a str) -> Arg<'a>
    ensures rule { rule_of result ≡ path_rule id.entry.now }
    ensures local { result.global ≡ false }
{
    Arg::new(alloc, id)
        .required(true)
        .action(ArgAction::Set)
        .help(help)
}

// The paths of the routines, which may be left out if a file lists them.
fn routines<'a>(alloc: Global, is_listed: bool) -> Arg<'a>
    ensures rule { rule_of result ≡ routines_rule is_listed }
    ensures local { result.global ≡ false }
{
    path(alloc, "ROUTINE", ROUTINE_HELP)
        .required(!is_listed)
        .action(ArgAction::Append)
        .num_args(1..)
}

// An option whose value is a path, which may be left out.
fn file_option<'a>(alloc: Global, id: &'a str, value: &'a str, help: &'a str) -> Arg<'a>
    ensures rule { rule_of result ≡ file_rule id.entry.now }
    ensures local { result.global ≡ false }
{
    Arg::new(alloc, id)
        .long(id)
        .value_name(value)
        .action(ArgAction::Set)
        .help(help)
}

// How much of M is read, which is the standard's subset if the words say nothing.
fn dialect_option<'a>(alloc: Global) -> Arg<'a>
    ensures rule { rule_of result ≡ dialect_rule }
    ensures local { result.global ≡ false }
{
    Arg::new(alloc, "dialect")
        .long("dialect")
        .value_name("NAME")
        .action(ArgAction::Set)
        .default_value("standard")
        .help(DIALECT_HELP)
}

// A command with the paths of its routines, the file that lists more of them, and how much of M is read.
fn with_routines<'a>(
    alloc: Global,
    command: Command<'a>,
    is_listed: bool,
) -> Result<Command<'a>, AllocError>
    ensures { IfOk result (λ c. app_of c ≡ with_routines is_listed (app_of command.entry)) }
{
    command
        .arg(routines(alloc, is_listed))?
        .arg(file_option(alloc, "files-from", "FILE", FILES_HELP))?
        .arg(dialect_option(alloc))
}

// The number of workers; its range is not looked at here.
fn workers<'a>(alloc: Global) -> Arg<'a>
    ensures rule { rule_of result ≡ workers_rule }
    ensures local { result.global ≡ false }
{
    Arg::new(alloc, "workers")
        .long("workers")
        .value_name("N")
        .value_parser(value_parser!(u32))
        .default_value("4")
        .help(WORKERS_HELP)
}

// The format of a certificate, and the one that is meant if the words say nothing.
fn format_option<'a>(alloc: Global, usual: &'a str) -> Arg<'a>
    ensures rule { rule_of result ≡ format_rule usual.entry.now }
    ensures local { result.global ≡ false }
{
    Arg::new(alloc, "format")
        .long("format")
        .value_name("N")
        .value_parser(ValueParser::Signed(1, 2))
        .default_value(usual)
        .help(FORMAT_HELP)
}

// The form of a report or of a survey, which is text if the words say nothing.
fn output_option<'a>(alloc: Global, help: &'a str) -> Arg<'a>
    ensures rule { rule_of result ≡ output_rule }
    ensures local { result.global ≡ false }
{
    Arg::new(alloc, "output")
        .long("output")
        .value_name("FORM")
        .action(ArgAction::Set)
        .default_value("text")
        .help(help)
}

// An option without a value.
fn flag<'a>(alloc: Global, id: &'a str, help: &'a str) -> Arg<'a>
    ensures rule { rule_of result ≡ flag_rule id.entry.now }
    ensures local { result.global ≡ false }
{
    Arg::new(alloc, id)
        .long(id)
        .action(ArgAction::SetTrue)
        .help(help)
}

// A command with the options for the style of its report.
fn with_style<'a>(alloc: Global, command: Command<'a>) -> Result<Command<'a>, AllocError>
    ensures { IfOk result (λ c. app_of c ≡ with_style (app_of command.entry)) }
{
    command
        .arg(output_option(alloc, OUTPUT_HELP))?
        .arg(flag(alloc, "strict", STRICT_HELP))?
        .arg(flag(alloc, "explain", EXPLAIN_HELP))?
        .arg(flag(alloc, "quiet", QUIET_HELP))?
        .arg(flag(alloc, "exit-zero", EXIT_ZERO_HELP))
}

// A command with the options for faults that are known.
fn with_baseline<'a>(alloc: Global, command: Command<'a>) -> Result<Command<'a>, AllocError>
    ensures { IfOk result (λ c. app_of c ≡ with_baseline (app_of command.entry)) }
{
    command
        .arg(file_option(alloc, "baseline", "FILE", BASELINE_HELP))?
        .arg(file_option(alloc, "write-baseline", "FILE", WRITE_BASELINE_HELP))
}

// A command with the number of workers, and the options for its report.
fn with_report<'a>(alloc: Global, command: Command<'a>) -> Result<Command<'a>, AllocError>
    ensures { IfOk result (λ c. app_of c ≡ with_report (app_of command.entry)) }
{
    let command = command.arg(workers(alloc))?;
    let command = with_style(alloc, command)?;
    with_baseline(alloc, command)
}

fn check_command<'a>(alloc: Global, is_listed: bool) -> Result<Command<'a>, AllocError>
    ensures { IfOk result (λ c. app_of c ≡ check_app is_listed) }
{
    let command = Command::new(alloc, "check")
        .about(CHECK_HELP)
        .long_about(CHECK_MORE)
        .arg(path(alloc, "RULES", RULES_HELP))?
        .arg(path(alloc, "CERT", CERT_HELP))?;
    let command = with_routines(alloc, command, is_listed)?;
    with_report(alloc, command)
}

fn make_command<'a>(alloc: Global, is_listed: bool) -> Result<Command<'a>, AllocError>
    ensures { IfOk result (λ c. app_of c ≡ make_app is_listed) }
{
    let command = Command::new(alloc, "make")
        .about(MAKE_HELP)
        .long_about(MAKE_MORE)
        .arg(path(alloc, "RULES", RULES_HELP))?;
    let command = with_routines(alloc, command, is_listed)?;
    command.arg(format_option(alloc, "1"))
}

fn verify_command<'a>(alloc: Global, is_listed: bool) -> Result<Command<'a>, AllocError>
    ensures { IfOk result (λ c. app_of c ≡ verify_app is_listed) }
{
    let command = Command::new(alloc, "verify")
        .about(VERIFY_HELP)
        .long_about(VERIFY_MORE)
        .arg(path(alloc, "RULES", RULES_HELP))?;
    let command = with_routines(alloc, command, is_listed)?;
    with_report(alloc, command)
}

// A command with the options for the way in which events are replayed.
fn with_replaying<'a>(alloc: Global, command: Command<'a>) -> Result<Command<'a>, AllocError>
    ensures { IfOk result (λ c. app_of c ≡ with_replaying (app_of command.entry)) }
{
    command
        .arg(flag(alloc, "explain", WHERE_HELP))?
        .arg(flag(alloc, "interactive", INTERACTIVE_HELP))
}

fn replay_command<'a>(alloc: Global, is_listed: bool) -> Result<Command<'a>, AllocError>
    ensures { IfOk result (λ c. app_of c ≡ replay_app is_listed) }
{
    let command = Command::new(alloc, "replay")
        .about(REPLAY_HELP)
        .long_about(REPLAY_MORE)
        .arg(path(alloc, "RULES", RULES_HELP))?
        .arg(path(alloc, "EVENTS", EVENTS_HELP))?;
    let command = with_routines(alloc, command, is_listed)?;
    with_replaying(alloc, command)
}

fn convert_command<'a>(alloc: Global) -> Result<Command<'a>, AllocError>
    ensures { IfOk result (λ c. app_of c ≡ convert_app) }
{
    Command::new(alloc, "convert")
        .about(CONVERT_HELP)
        .long_about(CONVERT_MORE)
        .arg(path(alloc, "CERT", CERT_HELP))?
        .arg(format_option(alloc, "2"))
}

fn survey_command<'a>(alloc: Global, is_listed: bool) -> Result<Command<'a>, AllocError>
    ensures { IfOk result (λ c. app_of c ≡ survey_app is_listed) }
{
    let command = Command::new(alloc, "survey")
        .about(SURVEY_HELP)
        .long_about(SURVEY_MORE);
    let command = with_routines(alloc, command, is_listed)?;
    command.arg(output_option(alloc, SURVEY_OUTPUT_HELP))
}

fn suggest_command<'a>(alloc: Global, is_listed: bool) -> Result<Command<'a>, AllocError>
    ensures { IfOk result (λ c. app_of c ≡ suggest_app is_listed) }
{
    let command = Command::new(alloc, "suggest")
        .about(SUGGEST_HELP)
        .long_about(SUGGEST_MORE);
    with_routines(alloc, command, is_listed)?
        .arg(file_option(alloc, "beside", "RULES", BESIDE_HELP))?
        .arg(flag(alloc, "stubs", INSTEAD_HELP))
}

// The names of the routines that get a stub.
fn for_option<'a>(alloc: Global) -> Arg<'a>
    ensures rule { rule_of result ≡ for_rule }
    ensures local { result.global ≡ false }
{
    Arg::new(alloc, "for")
        .long("for")
        .value_name("NAME")
        .action(ArgAction::Append)
        .help(FOR_HELP)
}

fn stubs_command<'a>(alloc: Global, is_listed: bool) -> Result<Command<'a>, AllocError>
    ensures { IfOk result (λ c. app_of c ≡ stubs_app is_listed) }
{
    let command = Command::new(alloc, "stubs")
        .about(STUBS_HELP)
        .long_about(STUBS_MORE);
    with_routines(alloc, command, is_listed)?.arg(for_option(alloc))
}

fn explain_command<'a>(alloc: Global) -> Result<Command<'a>, AllocError>
    ensures { IfOk result (λ c. app_of c ≡ explain_app) }
{
    Command::new(alloc, "explain")
        .about(PAGE_HELP)
        .long_about(PAGE_MORE)
        .arg(path(alloc, "CODE", CODE_HELP))
}

// `mlock` before it has a command.
fn without_commands<'a>(alloc: Global) -> Command<'a>
    ensures { app_of result ≡ no_command_app }
{
    Command::new(alloc, "mlock")
        .about(ABOUT)
        .version(VERSION)
        .subcommand_required(true)
}

// One command more, which is none of all commands.
fn with_command<'a>(app: Command<'a>, command: Command<'a>) -> Result<Command<'a>, AllocError>
    requires { (app_of command).top.is_plain ≡ true }
    ensures { IfOk result (λ c. app_of c ≡ with_subcommand (app_of app.entry) (app_of command.entry).top) }
{
    app.subcommand(command)
}

/// The grammar of all commands. If `is_listed`, a file lists routines, and none has to be given.
pub fn grammar<'a>(alloc: Global, is_listed: bool) -> Result<Command<'a>, AllocError>
    ensures { IfOk result (λ c. app_of c ≡ mlock_app is_listed) }
{
    let app = with_command(without_commands(alloc), check_command(alloc, is_listed)?)?;
    let app = with_command(app, make_command(alloc, is_listed)?)?;
    let app = with_command(app, verify_command(alloc, is_listed)?)?;
    let app = with_command(app, replay_command(alloc, is_listed)?)?;
    let app = with_command(app, convert_command(alloc)?)?;
    let app = with_command(app, survey_command(alloc, is_listed)?)?;
    let app = with_command(app, suggest_command(alloc, is_listed)?)?;
    let app = with_command(app, stubs_command(alloc, is_listed)?)?;
    with_command(app, explain_command(alloc)?)
}
