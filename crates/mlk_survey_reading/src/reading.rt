// Reading behind lines that are refused.

ghost use Rattle.std.specs.Prelude.{IfOk};
ghost use Rattle.std.specs.List.{AllZip};
ghost use Rattle.mlk_reading.specs.Answers.{IsAnswer};

use crate::rest::Rest;
use mlk_reading::{Source, read_each};
use mlk_syntax::Routine;
use mlk_text::{Failure, Fault};
use mlk_watch::{Runner, Watch};
use std::alloc::{AllocError, Global};
use std::thread::Threads;

// How many refused lines of a routine are found at most: each more is a copy of what is left of the text.
const MOST_LINES: usize = 64;

/// What reading the texts of routines came to.
#[derive(Drop)]
pub struct Readings {
    /// for each text its routine, or its first fault
    pub answers: Vec<Result<Routine, Failure<Fault>>>,
    /// the faults on later lines of texts that were refused, at most 63 of each
    pub further: Vec<Fault>,
}

fn sources_of<'a>(alloc: Global, rests: &'a [Rest]) -> Result<Vec<Source<'a>>, AllocError> {
    let mut sources = Vec::new(alloc);
    for rest in rests {
        let source = rest.source(alloc)?;
        if sources.push(source).is_err() {
            return Err(AllocError);
        }
    }
    Ok(sources)
}

// What is left of the texts that were refused, behind the lines of their faults.
fn rests_behind(
    alloc: Global,
    rests: &[Rest],
    answers: &[Result<Routine, Failure<Fault>>],
) -> Result<Vec<Rest>, AllocError> {
    let mut left = Vec::new(alloc);
    for (rest, answer) in rests.iter().zip(answers) {
        let Err(Failure::Refused(fault)) = answer else {
            continue;
        };
        if let Some(behind) = rest.rest_behind(alloc, fault)? {
            left.push(behind)?;
        }
    }
    Ok(left)
}

// Appends the faults among these answers, at their places in the routines.
fn add_faults(
    further: &mut Vec<Fault>,
    rests: &[Rest],
    answers: Vec<Result<Routine, Failure<Fault>>>,
) -> Result<(), AllocError> {
    for (rest, answer) in rests.iter().zip(answers) {
        let Err(failure) = answer else {
            continue;
        };
        match failure {
            Failure::Refused(fault) => further.push(rest.place_fault(fault))?,
            Failure::OutOfMemory => return Err(AllocError),
        }
    }
    Ok(())
}

// Reads what is left of the texts, appends the faults that are found, and returns what is left behind these.
fn read_on<R: Threads + Sync, W: Watch>(
    runner: &Runner<'_, R, W>,
    rests: &[Rest],
    further: &mut Vec<Fault>,
) -> Result<Vec<Rest>, AllocError> {
    let sources = sources_of(runner.alloc, rests)?;
    let answers = read_each(runner, sources.as_slice())?;
    let behind = rests_behind(runner.alloc, rests, answers.as_slice())?;
    add_faults(further, rests, answers)?;
    Ok(behind)
}

// The faults behind the first ones, round by round.
fn further_faults<R: Threads + Sync, W: Watch>(
    runner: &Runner<'_, R, W>,
    rests: Vec<Rest>,
) -> Result<Vec<Fault>, AllocError> {
    let mut further = Vec::new(runner.alloc);
    let mut left = rests;
    for _ in 1..MOST_LINES {
        if left.is_empty() {
            break;
        }
        let behind = read_on(runner, left.as_slice(), &mut further)?;
        left = behind;
    }
    Ok(further)
}

// What is left of those of `sources` that were refused, behind the lines of their faults.
fn first_rests(
    alloc: Global,
    sources: &[Source<'_>],
    answers: &[Result<Routine, Failure<Fault>>],
) -> Result<Vec<Rest>, AllocError> {
    let mut left = Vec::new(alloc);
    for (source, answer) in sources.iter().zip(answers) {
        let Err(Failure::Refused(fault)) = answer else {
            continue;
        };
        let rest = Rest::of(alloc, source)?;
        if let Some(behind) = rest.rest_behind(alloc, fault)? {
            left.push(behind)?;
        }
    }
    Ok(left)
}

/// Reads each of the texts `sources` by itself. One that is refused is then read behind the line of its fault, as if a routine began
/// there, in a block if the next line is in one.
pub fn read_all_lines<R: Threads + Sync, W: Watch>(
    runner: &Runner<'_, R, W>,
    sources: &[Source<'_>],
) -> Result<Readings, AllocError>
    ensures { IfOk result (λ r. AllZip IsAnswer sources.now r.answers.items) }
{
    let answers = read_each(runner, sources)?;
    let left = first_rests(runner.alloc, sources, answers.as_slice())?;
    let further = further_faults(runner, left)?;
    Ok(Readings { answers, further })
}
