// The routines that are refused.

use mlk_survey_trees::Position;
use mlk_text::{Code, Fault, push_sparing};
use std::alloc::{AllocError, Global};

/// A routine that is refused: where, with which code, and the part of M that is not read, if the code has a word for it.
#[derive(Clone, Copy, Drop)]
pub struct RefusedRoutine<'a> {
    pub position: Position<'a>,
    pub code: Code,
    pub word: Option<&'a [u8]>,
}

impl<'a> RefusedRoutine<'a> {
    /// The refusal of `fault`.
    pub(crate) fn of(fault: &'a Fault) -> RefusedRoutine<'a> {
        let word = match &fault.left_out {
            None => None,
            Some(left_out) => Some(left_out.word()),
        };
        RefusedRoutine {
            position: Position {
                routine: fault.place.routine.as_bytes(),
                line: fault.place.line,
                column: fault.place.column,
            },
            code: fault.code,
            word,
        }
    }
}

/// The number of routines that are refused with a given code and word.
#[derive(Clone, Copy, Drop)]
pub struct RefusalCount<'a> {
    pub code: Code,
    pub word: Option<&'a [u8]>,
    pub routines: usize,
}

// The refused routines in the order of codes and words.
fn by_reason<'a>(
    alloc: Global,
    refused: &[RefusedRoutine<'a>],
) -> Result<Vec<RefusedRoutine<'a>>, AllocError> {
    let mut ordered = Vec::from_slice(alloc, refused)?;
    ordered.sort_by(|routine, other| {
        (routine.code, routine.word).cmp(&(other.code, other.word))
    })?;
    Ok(ordered)
}

// The number of refusals with the same code and word that are counted already, if they are the last of `counts`.
fn counted_before(counts: &[RefusalCount<'_>], routine: &RefusedRoutine<'_>) -> usize {
    match counts.last() {
        Some(last) if last.code == routine.code && last.word == routine.word => last.routines,
        _ => 0,
    }
}

// The number of routines that are refused with each code and word, in the order of `refused`.
fn count_refusals<'a>(
    alloc: Global,
    refused: &[RefusedRoutine<'a>],
) -> Result<Vec<RefusalCount<'a>>, AllocError> {
    let mut counts = Vec::new(alloc);
    for routine in refused {
        let before = counted_before(counts.as_slice(), routine);
        if before > 0 {
            let _ = counts.pop();
        }
        let count = RefusalCount {
            code: routine.code,
            word: routine.word,
            routines: before.saturating_add(1),
        };
        push_sparing(&mut counts, count)?;
    }
    Ok(counts)
}

/// The number of routines that are refused with each code and word, the most frequent first.
pub(crate) fn refusal_counts<'a>(
    alloc: Global,
    refused: &[RefusedRoutine<'a>],
) -> Result<Vec<RefusalCount<'a>>, AllocError> {
    let ordered = by_reason(alloc, refused)?;
    let mut counts = count_refusals(alloc, ordered.as_slice())?;
    counts.sort_by(|count, other| other.routines.cmp(&count.routines))?;
    Ok(counts)
}
