// A note on a job: where it is, and what its next step asks for.

use crate::explained::ShownRoutine;
use mlk_excerpts::{Excerpt, TextLines, margin_of, push_excerpt, push_labelled, token_at};
use mlk_machine_asks::{Question, question_of};
use mlk_machine_jobs::{Job, LineTask, Pending, Task};
use mlk_machine_view::{State, state};
use mlk_program::Program;
use mlk_replay_places::{Place, place_of, spot_of};
use mlk_report_text::Piece::{Bytes, Number, Words};
use mlk_report_text::push_all;
use mlk_syntax::{Line, Routine};
use mlk_text::{Column, LineNumber};
use std::alloc::{AllocError, Global};

// The last line of `routine` with a label that is not after the line `number`.
fn labelled_line(routine: &Routine, number: LineNumber) -> Option<&Line> {
    let mut found = None;
    for line in &routine.lines {
        if line.number <= number && line.label.is_some() {
            found = Some(line);
        }
    }
    found
}

// A place in the text of a routine.
#[derive(Clone, Copy, Drop)]
struct Position<'t> {
    path: &'t str,
    number: LineNumber,
    column: Column,
}

// Appends a line as M names it: a label, and how many lines are from it to this one; and the routine.
fn push_line_name(
    text: &mut Vec<u8>,
    routine: &Routine,
    number: LineNumber,
) -> Result<(), AllocError> {
    let mut start = 1;
    if let Some(line) = labelled_line(routine, number) {
        start = line.number.number();
        if let Some(label) = line.label.as_ref() {
            text.extend_from_slice(label.as_bytes())?;
        }
    }
    let offset = number.number().saturating_sub(start);
    if offset > 0 || text.is_empty() {
        push_all(text, &[Words("+"), Number(offset as usize)])?;
    }
    push_all(text, &[Words("^"), Bytes(routine.name.as_bytes())])
}

// Appends where a job is: its line as M names it, and the path, line and column, in bytes.
fn push_position(
    text: &mut Vec<u8>,
    routine: &Routine,
    position: &Position<'_>,
) -> Result<(), AllocError> {
    push_line_name(text, routine, position.number)?;
    push_all(
        text,
        &[
            Words(" in "),
            Words(position.path),
            Words(":"),
            Number(position.number.number() as usize),
            Words(":"),
            Number(position.column.number() as usize),
        ],
    )
}

// Whether a job decides next on a round of FOR.
fn decides_round(job: &Job<'_>) -> bool {
    matches!(
        job.pending.last(),
        Some(Pending::Task(Task::Line(
            LineTask::FirstRound(_, _, _) | LineTask::LaterRound(_, _, _)
        )))
    )
}

// Appends what the next step of a job asks for, whose token is `token`.
fn push_question(
    text: &mut Vec<u8>,
    program: &Program<'_>,
    job: &Job<'_>,
    token: &[u8],
) -> Result<(), AllocError> {
    match question_of(program, job) {
        Question::Value => push_all(
            text,
            &[
                Words("asks for a value: what `"),
                Bytes(token),
                Words("` gives"),
            ],
        ),
        Question::Truth if decides_round(job) => {
            text.extend_from_slice(b"asks for a truth, yes or no: whether a round is run")
        }
        Question::Truth => {
            text.extend_from_slice(b"asks for a truth, yes or no: whether this is true")
        }
        Question::Time => {
            text.extend_from_slice(b"asks for a truth, yes or no: whether it is done in time")
        }
        Question::Nothing => match state(program, job) {
            State::Stuck => text.extend_from_slice(b"can't continue"),
            _ => text.extend_from_slice(b"is next"),
        },
    }
}

// Appends the line of a job at `place`, which is in the routine `given`, and what is asked there; returns the column.
fn push_place(
    alloc: Global,
    text: &mut Vec<u8>,
    program: &Program<'_>,
    job: &Job<'_>,
    place: &Place<'_>,
    given: &ShownRoutine<'_>,
) -> Result<Column, AllocError> {
    let number = place.line.number;
    let lines = TextLines::of(alloc, given.text)?;
    let line = lines.line(number).unwrap_or(b"");
    let plain_lines = TextLines::of(alloc, given.plain)?;
    let spot = spot_of(alloc, job, place, plain_lines.line(number).unwrap_or(b""))?;
    let column = spot.column();
    let excerpt = Excerpt {
        number,
        line,
        column,
    };
    push_excerpt(text, &excerpt)?;
    push_question(text, program, job, token_at(line, column))?;
    text.push(b'\n')?;
    Ok(column)
}

/// The lines that say where a job is and what its next step asks for; empty if it is in no line.
pub(crate) fn note_of(
    alloc: Global,
    program: &Program<'_>,
    job: &Job<'_>,
    texts: &[ShownRoutine<'_>],
) -> Result<Vec<u8>, AllocError> {
    let mut text = Vec::new(alloc);
    let Some(place) = place_of(job) else {
        return Ok(text);
    };
    let Some(routine) = program.routines().get(place.routine) else {
        return Ok(text);
    };
    let Some(given) = texts.get(place.routine) else {
        return Ok(text);
    };
    let number = place.line.number;
    let position = Position {
        path: given.path,
        number,
        column: push_place(alloc, &mut text, program, job, &place, given)?,
    };
    let mut words = Vec::new(alloc);
    push_position(&mut words, routine, &position)?;
    push_labelled(&mut text, margin_of(number), "at", words.as_slice())?;
    Ok(text)
}
