// Events that a person enters.

ghost use Rattle.std.specs.Prelude.{◌≡◌};
ghost use Rattle.mlk_files.specs.Files.{given_path, new_path, written_path};

use crate::shown::shown_routines;
use mlk_cli::{Asked, ProgramRequest};
use mlk_files::{Files, Sources, Work};
use mlk_outcome::{CheckError, NoReport, declared_entries};
use mlk_program::{EntryId, Program, link};
use mlk_reading::read_routines;
use mlk_replay_dialogue::{enter, prompt_for, resume};
use mlk_replay_text::ShownRoutine;
use mlk_rules::entries;
use mlk_rules_file::read_rules;
use mlk_syntax::Routine;
use mlk_watch::{Runner, Watch};
use std::alloc::{AllocError, Global};
use std::io::{self, ErrorKind};
use std::sync::Wait;
use std::thread::Threads;

// What is shown at the begin of a dialogue.
const WELCOME: &[u8] =
    b"Enter an event: begin JOB ENTRY TEST VALUE.., go, run or abort; or the answer to what is asked for: yes, no, a number, or a value in quotes.\nAn empty line enters the event in brackets, `undo` removes the last event, `end` writes the file.\n";

// What ends a dialogue.
const END: &[u8] = b"end";

// The path of events if a person is asked for them; `None` if they are only read.
fn new_path(is_interactive: bool, path: &str) -> Option<&str>
    ensures { given_path result ≡ new_path is_interactive path.now }
{
    if is_interactive { Some(path) } else { None }
}

/// The path of the events that are asked for and written; `None` if there are none.
pub fn written_path<'a>(program: &ProgramRequest<'a>) -> Option<&'a str>
    ensures { given_path result ≡ written_path program.now.asked }
{
    match &program.asked {
        Asked::Replay { events, style } => new_path(style.is_interactive, *events),
        Asked::Check { .. } | Asked::Make { .. } | Asked::Verify { .. } => None,
    }
}

/// `sources` with these events, which a person was asked for.
pub fn with_events<'a>(sources: Sources<'a>, events: Vec<u8>) -> Sources<'a>
    ensures { result ≡ record sources.entry { work = Work.Replay events } }
{
    Sources {
        work: Work::Replay(events),
        ..sources
    }
}

/// The events that the file at `path` has already; none if there is no file.
pub fn begun_events<F: Files>(alloc: Global, files: &F, path: &str) -> io::Result<Vec<u8>> {
    match files.read(alloc, path) {
        Ok(text) => Ok(text),
        Err(error) => {
            if error.kind() == ErrorKind::NotFound {
                Ok(Vec::new(alloc))
            } else {
                Err(error)
            }
        }
    }
}

// What a dialogue is about: the program, the entries at which jobs begin, and the texts of the routines.
#[derive(Drop)]
struct Subject<'s> {
    program: &'s Program<'s>,
    entries: &'s [EntryId],
    texts: &'s [ShownRoutine<'s>],
}

// Asks for events after those of `begun`, until the input ends; `None` if a line of `begun` can't be followed.
fn ask_events<F: Files>(
    alloc: Global,
    files: &F,
    subject: &Subject<'_>,
    begun: &[u8],
) -> Result<Option<Vec<u8>>, AllocError> {
    let Some(resumed) = resume(alloc, subject.program, subject.entries, begun)? else {
        return Ok(None);
    };
    let mut entered = resumed;
    let mut shown = Vec::from_slice(alloc, WELCOME)?;
    for _ in 0..u64::MAX {
        let prompt = prompt_for(alloc, subject.program, &entered, subject.texts)?;
        shown.extend_from_slice(prompt.as_slice())?;
        let Ok(Some(line)) = files.ask(alloc, shown.as_slice()) else {
            break;
        };
        if line.as_slice() == END {
            break;
        }
        entered = enter(
            alloc,
            subject.program,
            subject.entries,
            entered,
            line.as_slice(),
        )?;
        shown = Vec::new(alloc);
    }
    Ok(Some(entered.events))
}

// Asks for events of `program`, whose rules it reads.
fn ask_about_program<F: Files>(
    alloc: Global,
    files: &F,
    program: &Program<'_>,
    rule_text: &[u8],
    texts: &[ShownRoutine<'_>],
    begun: &[u8],
) -> Result<Option<Vec<u8>>, NoReport> {
    let rules = read_rules(alloc, rule_text)?;
    let declared = declared_entries(alloc, program, entries(&rules))?;
    let subject = Subject {
        program,
        entries: declared.as_slice(),
        texts,
    };
    let entered = ask_events(alloc, files, &subject, begun)?;
    Ok(entered)
}

// Asks for events of `routines`, which it links, and their rules. Refuses what `jobs_text` refuses of them.
fn ask_about_routines<F: Files>(
    alloc: Global,
    files: &F,
    request: &ProgramRequest<'_>,
    sources: &Sources<'_>,
    routines: &[Routine],
    begun: &[u8],
) -> Result<Option<Vec<u8>>, NoReport> {
    let program = link(alloc, routines)?;
    let texts = shown_routines(alloc, request, sources)?;
    ask_about_program(
        alloc,
        files,
        &program,
        sources.rules.as_slice(),
        texts.as_slice(),
        begun,
    )
}

// Asks for events of the routines of `sources`. Refuses what is refused of them and their rules.
fn ask_about_sources<R: Threads + Wait + Sync, F: Files, W: Watch>(
    runner: &Runner<'_, R, W>,
    files: &F,
    request: &ProgramRequest<'_>,
    sources: &Sources<'_>,
    begun: &[u8],
) -> Result<Option<Vec<u8>>, NoReport> {
    let routines = read_routines(runner, sources.as_read())?;
    runner.watch.end();
    ask_about_routines(
        runner.alloc,
        files,
        request,
        sources,
        routines.as_slice(),
        begun,
    )
}

/// Asks a person for events after those of `begun`, and returns all of them; `None`, without a question, if the routines, the
/// rules or the events of `begun` are refused.
pub fn ask_for_events<R: Threads + Wait + Sync, F: Files, W: Watch>(
    runner: &Runner<'_, R, W>,
    files: &F,
    request: &ProgramRequest<'_>,
    sources: &Sources<'_>,
    begun: &[u8],
) -> Result<Option<Vec<u8>>, AllocError> {
    match ask_about_sources(runner, files, request, sources, begun) {
        Ok(entered) => Ok(entered),
        Err(NoReport::Check(CheckError::OutOfMemory)) => Err(AllocError),
        Err(_) => Ok(None),
    }
}
