// The readers of lines of a file of events.

ghost use Rattle.std.specs.Prelude.{◌≡◌, suc, length, option_map};
ghost use Rattle.mlk_text.specs.Reading.{many};
ghost use Rattle.mlk_text.specs.Lexemes.{byte_at};
ghost use Rattle.mlk_text.specs.Failures.{Reads};
ghost use Rattle.mlk_cert_lexemes.specs.Reading.{constant_at, next};
ghost use Rattle.mlk_machine.specs.EventReading.{job_at, test_at, head_at, begin_at, chosen_at, go_at, event_line_at, line_at};

use crate::event_line::{Beginning, EventLine};
use mlk_cert_lexemes::{constant, entry, positive_number, word_of};
use mlk_text::lexeme::byte_of;
use mlk_text::{Failure, List, NotThere, Value};
use std::alloc::Global;

const GREATEST_JOB: u32 = 4_294_967_295;

// Reads the number of a job at the front: the number, and the rest; otherwise `None`.
fn job(bytes: &[u8]) -> Option<(u32, &[u8])>
    ensures { option_map (λ x. (x.0, x.1.now)) result ≡ job_at bytes.now }
{
    positive_number(GREATEST_JOB, bytes)
}

// Reads `$TEST`: its value, and the rest; otherwise `None`.
fn test(bytes: &[u8]) -> Option<(bool, &[u8])>
    ensures { option_map (λ x. (x.0, x.1.now)) result ≡ test_at bytes.now }
{
    let Some((first, rest)) = bytes.split_first() else {
        return None;
    };
    match *first {
        b'0' => Some((false, rest)),
        b'1' => Some((true, rest)),
        _ => None,
    }
}

// Reads values, each after a space, as many as there are.
fn values(alloc: Global, bytes: &[u8]) -> Result<(Vec<Value>, &[u8]), Failure<NotThere>>
    ensures { Reads (λ x. (x.0.items, x.1.now)) result (many (byte_at 32) (next constant_at) (suc (length bytes.now)) bytes.now) }
{
    let mut found = Vec::new(alloc);
    let mut rest = bytes;
    while let Some(after) = byte_of(b' ', rest) {
        let (value, after) = constant(alloc, after)?;
        found.push(value)?;
        rest = after;
    }
    Ok((found, rest))
}

// Reads the part of a `begin` line before the values.
#[tactic(auto, unfolding(crate::specs::EventReading::head_at))]
fn begin_head(alloc: Global, bytes: &[u8]) -> Result<(u32, Value, bool, &[u8]), Failure<NotThere>>
    ensures { Reads (λ x. ((x.0, x.1, x.2), x.3.now)) result (head_at bytes.now) }
{
    let Some((job, rest)) = job(bytes) else {
        return Err(Failure::Refused(NotThere));
    };
    let Some(rest) = byte_of(b' ', rest) else {
        return Err(Failure::Refused(NotThere));
    };
    let (entry, rest) = entry(alloc, rest)?;
    let Some(rest) = byte_of(b' ', rest) else {
        return Err(Failure::Refused(NotThere));
    };
    let Some((test, rest)) = test(rest) else {
        return Err(Failure::Refused(NotThere));
    };
    Ok((job, entry, test, rest))
}

// Reads the rest of a `begin` line after its word.
#[tactic(auto, unfolding(crate::specs::EventReading::begin_at))]
fn begin(alloc: Global, bytes: &[u8]) -> Result<(EventLine, &[u8]), Failure<NotThere>>
    ensures { Reads (λ x. (x.0, x.1.now)) result (begin_at bytes.now) }
{
    let (job, entry, test, rest) = begin_head(alloc, bytes)?;
    let (values, rest) = values(alloc, rest)?;
    let beginning = Beginning {
        job,
        entry,
        test,
        values: List::of(values),
    };
    Ok((EventLine::Begin(beginning), rest))
}

// Reads the choice of a step, after its space.
#[tactic(auto, unfolding(crate::specs::EventReading::chosen_at))]
fn step_choice(
    alloc: Global,
    job: u32,
    bytes: &[u8],
) -> Result<(EventLine, &[u8]), Failure<NotThere>>
    ensures { Reads (λ x. (x.0, x.1.now)) result (chosen_at job bytes.now) }
{
    if let Some(rest) = word_of(b"yes", bytes) {
        return Ok((EventLine::GoTruth(job, true), rest));
    }
    if let Some(rest) = word_of(b"no", bytes) {
        return Ok((EventLine::GoTruth(job, false), rest));
    }
    let (value, rest) = constant(alloc, bytes)?;
    Ok((EventLine::GoValue(job, value), rest))
}

// Reads the rest of a `go` line after its word.
#[tactic(auto, unfolding(crate::specs::EventReading::go_at))]
fn read_step(alloc: Global, bytes: &[u8]) -> Result<(EventLine, &[u8]), Failure<NotThere>>
    ensures { Reads (λ x. (x.0, x.1.now)) result (go_at bytes.now) }
{
    let Some((job, rest)) = job(bytes) else {
        return Err(Failure::Refused(NotThere));
    };
    match byte_of(b' ', rest) {
        Some(rest) => step_choice(alloc, job, rest),
        None => Ok((EventLine::Go(job), rest)),
    }
}

// Reads the event of a line, without the line's end.
#[tactic(auto, unfolding(crate::specs::EventReading::event_line_at))]
fn event_line(alloc: Global, bytes: &[u8]) -> Result<(EventLine, &[u8]), Failure<NotThere>>
    ensures { Reads (λ x. (x.0, x.1.now)) result (event_line_at bytes.now) }
{
    if let Some(rest) = word_of(b"begin ", bytes) {
        return begin(alloc, rest);
    }
    if let Some(rest) = word_of(b"go ", bytes) {
        return read_step(alloc, rest);
    }
    if let Some(rest) = word_of(b"run ", bytes) {
        let (job, rest) = job(rest).ok_or(Failure::Refused(NotThere))?;
        return Ok((EventLine::Run(job), rest));
    }
    if let Some(rest) = word_of(b"abort ", bytes) {
        let (job, rest) = job(rest).ok_or(Failure::Refused(NotThere))?;
        return Ok((EventLine::Abort(job), rest));
    }
    Err(Failure::Refused(NotThere))
}

/// Reads the line at the front of a file: its event, and the rest after the line's end. `NotThere` if it is not an event.
#[tactic(auto, unfolding(crate::specs::EventReading::line_at))]
pub fn read_line(alloc: Global, bytes: &[u8]) -> Result<(EventLine, &[u8]), Failure<NotThere>>
    ensures { Reads (λ x. (x.0, x.1.now)) result (line_at bytes.now) }
{
    let (order, rest) = event_line(alloc, bytes)?;
    let Some(rest) = byte_of(b'\n', rest) else {
        return Err(Failure::Refused(NotThere));
    };
    Ok((order, rest))
}
