// Stubs: what is answered if routines are wanted that take the place of others.

ghost use Rattle.mlk_cli.specs.declared.words.Request.TheVariants as wanted;
ghost use Rattle.mlk_app.specs.Ran.{TellsStubFault, PrintsStubs, Answers};

use crate::answer::{Answer, YES};
use crate::help::{Explaining, stub_help};
use crate::program::unread_answer;
use mlk_cli::{StubsRequest, WantedStubs};
use mlk_files::{FileError, Files, read_in, read_sources, routine_texts};
use mlk_plain_report::ReportText;
use mlk_reading::Source;
use mlk_refusal_lines::fault_line;
use mlk_stubs::{Wanted, stubs_for};
use mlk_text::{Failure, Fault};
use std::alloc::{AllocError, Global};

// Which routines get a stub.
fn wanted_in<'w>(wanted: &'w WantedStubs<'w>) -> Wanted<'w> {
    match wanted {
        WantedStubs::Missing => Wanted::Missing,
        WantedStubs::MissingAndUnread => Wanted::MissingAndUnread,
        WantedStubs::Named(names) => Wanted::Named(names.as_slice()),
    }
}

// What is answered if a name or a stub is refused.
fn refused_stub(alloc: Global, fault: &Fault, explaining: Explaining) -> Answer
    ensures { TellsStubFault fault.now result }
{
    let Ok(help) = stub_help(alloc, fault, explaining) else {
        return Answer::OutOfMemory;
    };
    match fault_line(alloc, fault) {
        Ok(line) => Answer::Refused(line, None, help),
        Err(AllocError) => Answer::OutOfMemory,
    }
}

fn stubs_answer(
    alloc: Global,
    sources: Vec<Source<'_>>,
    stubs: &StubsRequest<'_>,
    explaining: Explaining,
) -> Answer
    ensures { PrintsStubs result }
{
    let Ok(read) = read_in(alloc, stubs.dialect, sources) else {
        return Answer::OutOfMemory;
    };
    let Ok(texts) = routine_texts(alloc, read.as_slice()) else {
        return Answer::OutOfMemory;
    };
    match stubs_for(alloc, texts.as_slice(), wanted_in(&stubs.wanted)) {
        Ok(text) => Answer::Report(ReportText::of(text.into_bytes()), YES),
        Err(Failure::OutOfMemory) => Answer::OutOfMemory,
        Err(Failure::Refused(fault)) => refused_stub(alloc, &fault, explaining),
    }
}

/// What is answered if stubs are wanted, from the texts of the routines.
pub(crate) fn answer_stubs<F: Files>(
    alloc: Global,
    stubs: &StubsRequest<'_>,
    files: &F,
    explaining: Explaining,
) -> Answer
    ensures { Answers (F.holds files.now) (F.unreadable files.now) (wanted.Stubs stubs.now) result }
{
    match read_sources(alloc, files, stubs.routines.as_slice()) {
        Ok(sources) => stubs_answer(alloc, sources, stubs, explaining),
        Err(FileError::OutOfMemory) => Answer::OutOfMemory,
        Err(FileError::Unread(path)) => {
            unread_answer(alloc, files, path, explaining == Explaining::Refusals)
        }
    }
}
