// The event that is offered next, and what a person is shown.

use crate::dialogue::{Entered, Reply};
use crate::line::last_job;
use mlk_cert_lexemes::{Written, WrittenText};
use mlk_machine::{EventsRefusal, System};
use mlk_machine_asks::{Question, question_of};
use mlk_machine_jobs::Job;
use mlk_machine_locks::Refusal;
use mlk_machine_view::{State, state};
use mlk_program::Program;
use mlk_replay_offers::known_value;
use mlk_replay_places::{place_of, spot_of};
use mlk_replay_text::{ShownRoutine, explained_text};
use mlk_report_text::Piece::{Bytes, Number, Words};
use mlk_report_text::push_all;
use mlk_text::Value;
use std::alloc::{AllocError, Global};

// The only value that the next step of a job can have, if that is known.
fn next_value(alloc: Global, job: &Job<'_>) -> Result<Option<Value>, AllocError> {
    let Some(place) = place_of(job) else {
        return Ok(None);
    };
    let spot = spot_of(alloc, job, &place, b"")?;
    match spot.part {
        Some(part) => known_value(alloc, job, part),
        None => Ok(None),
    }
}

// The event of a step that asks for a value, if only one is possible and that is known.
fn valued_line(
    alloc: Global,
    program: &Program<'_>,
    job: &Job<'_>,
) -> Result<Option<Vec<u8>>, AllocError> {
    if question_of(program, job) != Question::Value {
        return Ok(None);
    }
    let Some(value) = next_value(alloc, job)? else {
        return Ok(None);
    };
    let mut text = WrittenText::new(alloc);
    text.push(b"go ")?;
    text.push_number(job.number)?;
    text.push_byte(b' ')?;
    value.push_to(&mut text)?;
    Ok(Some(text.into_bytes()))
}

// An event of a job that has only a word.
fn plain_line(alloc: Global, word: &str, job: &Job<'_>) -> Result<Option<Vec<u8>>, AllocError> {
    let mut line = Vec::new(alloc);
    push_all(
        &mut line,
        &[Words(word), Words(" "), Number(job.number as usize)],
    )?;
    Ok(Some(line))
}

// Whether a job waits for another one.
fn is_waiting(system: &System<'_>, number: u32) -> bool {
    for other in system.jobs() {
        if system.waits_for(number, other.number) {
            return true;
        }
    }
    false
}

// The event of a step that other jobs notice, if it needs no choice, and no wait.
fn plain_step_line(
    alloc: Global,
    program: &Program<'_>,
    system: &System<'_>,
    job: &Job<'_>,
) -> Result<Option<Vec<u8>>, AllocError> {
    if question_of(program, job) != Question::Nothing || is_waiting(system, job.number) {
        return Ok(None);
    }
    plain_line(alloc, "go", job)
}

// The event that is offered for a job: the only one that can happen next; `None` if there is a choice.
fn offer_for(
    alloc: Global,
    program: &Program<'_>,
    system: &System<'_>,
    job: &Job<'_>,
) -> Result<Option<Vec<u8>>, AllocError> {
    match state(program, job) {
        State::Silent => plain_line(alloc, "run", job),
        State::AsksChoice => valued_line(alloc, program, job),
        State::Ready(_) | State::Claims(_, _) | State::Releases => {
            plain_step_line(alloc, program, system, job)
        }
        State::Stuck | State::Ended | State::Stopped => Ok(None),
    }
}

/// The event that is offered for the job of the last event: the only one that can happen next; `None` if there is a choice.
pub(crate) fn offered_line(
    alloc: Global,
    program: &Program<'_>,
    entered: &Entered<'_>,
) -> Result<Option<Vec<u8>>, AllocError> {
    let Some(number) = last_job(alloc, entered.events.as_slice())? else {
        return Ok(None);
    };
    match entered.system.job(number) {
        Some(job) => offer_for(alloc, program, &entered.system, job),
        None => Ok(None),
    }
}

// The reason why a line is refused, in words.
fn refused_words(why: EventsRefusal) -> &'static str {
    match why {
        EventsRefusal::Form => "refused: this is no event, or the entry is not in the routines\n",
        EventsRefusal::Refused(Refusal::UnknownJob) => {
            "refused: no job has begun with this number\n"
        }
        EventsRefusal::Refused(Refusal::NotEnabled) => {
            "refused: the job can't do this now, or its number is used\n"
        }
        EventsRefusal::Refused(Refusal::BadChoice) => {
            "refused: the step asks for something else\n"
        }
    }
}

// A reply in words.
fn words_of(reply: Reply) -> &'static str {
    match reply {
        Reply::Taken | Reply::Ignored => "",
        Reply::Undone => "the last event is removed\n",
        Reply::NothingOffered => "nothing is offered: enter an event\n",
        Reply::Refused(why) => refused_words(why),
    }
}

/// What a person is shown before a line is read: what came of the last line, the jobs, and the event that is offered.
pub fn prompt_for(
    alloc: Global,
    program: &Program<'_>,
    entered: &Entered<'_>,
    texts: &[ShownRoutine<'_>],
) -> Result<Vec<u8>, AllocError> {
    let mut text = Vec::new(alloc);
    text.extend_from_slice(words_of(entered.reply).as_bytes())?;
    if let Reply::Taken | Reply::Undone = entered.reply {
        let jobs = explained_text(alloc, &entered.system, texts)?;
        text.extend_from_slice(jobs.as_slice())?;
    }
    match offered_line(alloc, program, entered)? {
        Some(line) => push_all(
            &mut text,
            &[Words("event ["), Bytes(line.as_slice()), Words("]: ")],
        )?,
        None => text.extend_from_slice(b"event: ")?,
    }
    Ok(text)
}
