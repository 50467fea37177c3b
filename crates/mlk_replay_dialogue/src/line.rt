// What a person enters in short, as a line of a file of events.

use crate::dialogue::Entered;
use crate::offer::offered_line;
use mlk_excerpts::split_at_most;
use mlk_machine::{EventLine, read_line};
use mlk_numbers::whole_number;
use mlk_program::Program;
use mlk_report_text::Piece::{Bytes, Number, Words};
use mlk_report_text::text_of;
use mlk_text::Failure;
use std::alloc::{AllocError, Global};

/// The index at which the last line of `events` begins.
pub(crate) fn last_line_start(events: &[u8]) -> usize {
    let Some((_, front)) = events.split_last() else {
        return 0;
    };
    match front.iter().rposition(|byte| *byte == b'\n') {
        Some(place) => place.saturating_add(1),
        None => 0,
    }
}

// The last line of `events`, with its end.
fn last_line(events: &[u8]) -> &[u8] {
    let (_, line) = split_at_most(events, last_line_start(events));
    line
}

// The job of an event.
fn job_of(event: &EventLine) -> u32 {
    match event {
        EventLine::Begin(beginning) => beginning.job,
        EventLine::Go(job) | EventLine::Run(job) | EventLine::Abort(job) => *job,
        EventLine::GoValue(job, _) => *job,
        EventLine::GoTruth(job, _) => *job,
    }
}

/// The job of the last event; `None` if there is no event.
pub(crate) fn last_job(alloc: Global, events: &[u8]) -> Result<Option<u32>, AllocError> {
    match read_line(alloc, last_line(events)) {
        Ok((event, _)) => Ok(Some(job_of(&event))),
        Err(Failure::OutOfMemory) => Err(AllocError),
        Err(Failure::Refused(_)) => Ok(None),
    }
}

// Whether `line` is only a choice, as a file of events has it: a truth, or a value in quotes.
fn is_choice(line: &[u8]) -> bool {
    line == b"yes".as_slice() || line == b"no".as_slice() || line.starts_with(b"\"")
}

// Whether `line` is the word of an event without its job.
fn is_word(line: &[u8]) -> bool {
    line == b"go".as_slice() || line == b"run".as_slice() || line == b"abort".as_slice()
}

// The event of `job` that `line` abbreviates; `line` itself if it abbreviates none.
fn event_of(alloc: Global, job: u32, line: &[u8]) -> Result<Vec<u8>, AllocError> {
    let number = job as usize;
    if is_choice(line) {
        return text_of(
            alloc,
            &[Words("go "), Number(number), Words(" "), Bytes(line)],
        );
    }
    if whole_number(line).is_some() {
        return text_of(
            alloc,
            &[
                Words("go "),
                Number(number),
                Words(" \""),
                Bytes(line),
                Words("\""),
            ],
        );
    }
    if is_word(line) {
        return text_of(alloc, &[Bytes(line), Words(" "), Number(number)]);
    }
    Vec::from_slice(alloc, line)
}

/// The line of a file of events that `line` abbreviates: the event that is offered if it is empty, `line` with the job of the last
/// event if it has none, or `line` itself; `None` if it is empty and nothing is offered.
pub(crate) fn whole_line(
    alloc: Global,
    program: &Program<'_>,
    entered: &Entered<'_>,
    line: &[u8],
) -> Result<Option<Vec<u8>>, AllocError> {
    if line.is_empty() {
        return offered_line(alloc, program, entered);
    }
    let whole = match last_job(alloc, entered.events.as_slice())? {
        Some(job) => event_of(alloc, job, line)?,
        None => Vec::from_slice(alloc, line)?,
    };
    Ok(Some(whole))
}
