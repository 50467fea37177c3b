// The reading of texts by several readers.

ghost use Rattle.std.specs.Prelude.{◌≡◌, ◌++◌, ◌∷◌, List, Ok, Err, IfOk, IfErr, map};
ghost use Rattle.std.specs.List.{AllZip};
ghost use Rattle.mlk_syntax.specs.Views.{routine_of};
ghost use Rattle.mlk_reading.specs.Reading.{AreRead, RefusesFirst};
ghost use Rattle.mlk_reading.specs.Answers.{IsAnswer, IsFirstError};

use crate::source::Source;
use mlk_routine::read_routine;
use mlk_syntax::Routine;
use mlk_text::{Failure, Fault};
use rayon::current_num_threads;
use rayon::prelude::*;
use std::alloc::{AllocError, Global};
use std::thread::Threads;

// Fewer bytes are read before a second reader would have begun.
const FEW_BYTES: usize = 65536;

// How many bytes the texts have.
fn bytes_of(sources: &[Source<'_>]) -> usize {
    sources
        .iter()
        .map(|source| source.text.len())
        .fold(0, |sum: usize, size| sum.saturating_add(size))
}

// How many texts a reader is given at least. With one processor, or where there is little to read, it is given all, since
// a second thread would make all memory that is taken later dearer, and bring nothing.
fn least_share<R: Threads>(rt: &R, sources: &[Source<'_>]) -> usize {
    if bytes_of(sources) < FEW_BYTES || current_num_threads(rt) == 1 {
        return sources.len();
    }
    1
}

/// What a reader answers to each of these texts, in their order.
pub(crate) fn reader_answers<R: Threads + Sync>(
    rt: &R,
    alloc: Global,
    sources: &[Source<'_>],
) -> Result<Vec<Result<Routine, Failure<Fault>>>, AllocError>
    ensures { IfOk result (λ v. AllZip IsAnswer sources.now v.items) }
{
    sources
        .par_iter()
        .with_min_len(least_share(rt, sources))
        .map(
            move |source: &Source<'_>| -> Result<Routine, Failure<Fault>>
                ensures { IsAnswer source.now result }
            { read_routine(alloc, source.dialect, source.stem, source.text.as_slice()) },
        )
        .collect(rt, alloc)
}

// The routines of these answers, or the first failure.
fn all_read(
    alloc: Global,
    answers: Vec<Result<Routine, Failure<Fault>>>,
) -> Result<Vec<Routine>, Failure<Fault>>
    ensures ok { IfOk result (λ r. answers.items ≡ map Ok r.items) }
    ensures refused { IfErr result (IsFirstError answers.items) }
{
    let mut routines = Vec::with_capacity(alloc, answers.len())?;
    let mut left = answers.into_iter();
    while let Some(answer) = left.next() {
        routines.push(answer?)?;
    }
    Ok(routines)
}

/// The routines of these texts, in their order, or the first refusal. There are as many readers as processors, side by side,
/// and they read all texts, also those after one that is refused.
pub(crate) fn read_all<R: Threads + Sync>(
    rt: &R,
    alloc: Global,
    sources: &[Source<'_>],
) -> Result<Vec<Routine>, Failure<Fault>>
    ensures ok { IfOk result (λ r. AreRead sources.now (map routine_of r.items)) }
    ensures refused { IfErr result (RefusesFirst sources.now) }
{
    let answers = reader_answers(rt, alloc, sources)?;
    all_read(alloc, answers)
}
