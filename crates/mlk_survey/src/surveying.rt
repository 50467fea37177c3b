// The survey of routines.

ghost use Rattle.std.specs.Prelude.{◌≡◌, ◌+◌, length, IfOk, OnOk};

use crate::facts::{Facts, InRoutines};
use crate::given::Given;
use crate::refused::{RefusedRoutine, refusal_counts};
use mlk_survey_trees::mentions_of;
use mlk_syntax::Routine;
use mlk_text::{Failure, Fault, push_sparing};
use std::alloc::{AllocError, Global};

fn sort_routines<'a>(routines: &mut Vec<&'a Routine>) -> Result<(), AllocError>
    ensures { OnOk result (length routines.new.items ≡ length routines.old.items) }
{
    routines.sort_by(|routine, other| routine.name.as_bytes().cmp(other.name.as_bytes()))
}

fn sort_refused<'a>(refused: &mut Vec<RefusedRoutine<'a>>) -> Result<(), AllocError>
    ensures { OnOk result (length refused.new.items ≡ length refused.old.items) }
{
    refused.sort_by(|routine, other| routine.position.cmp(&other.position))
}

// The routines that were read, and those that were refused.
fn split_answers<'a>(
    alloc: Global,
    answers: &'a [Result<Routine, Failure<Fault>>],
) -> Result<(Vec<&'a Routine>, Vec<RefusedRoutine<'a>>), AllocError>
    ensures { IfOk result (λ p. length p.0.items + length p.1.items ≡ length answers.now) }
{
    let mut routines = Vec::new(alloc);
    let mut refused = Vec::new(alloc);
    for answer in answers {
        match answer {
            Ok(routine) => push_sparing(&mut routines, routine)?,
            Err(Failure::Refused(fault)) => push_sparing(&mut refused, RefusedRoutine::of(fault))?,
            Err(Failure::OutOfMemory) => return Err(AllocError),
        }
    }
    Ok((routines, refused))
}

// `split_answers`, in order.
fn split_in_order<'a>(
    alloc: Global,
    answers: &'a [Result<Routine, Failure<Fault>>],
) -> Result<(Vec<&'a Routine>, Vec<RefusedRoutine<'a>>), AllocError>
    ensures { IfOk result (λ p. length p.0.items + length p.1.items ≡ length answers.now) }
{
    let (mut routines, mut refused) = split_answers(alloc, answers)?;
    sort_routines(&mut routines)?;
    sort_refused(&mut refused)?;
    Ok((routines, refused))
}

// The further faults, in order.
fn further_in_order<'a>(
    alloc: Global,
    further: &'a [Fault],
) -> Result<Vec<RefusedRoutine<'a>>, AllocError> {
    let mut found = Vec::new(alloc);
    for fault in further {
        push_sparing(&mut found, RefusedRoutine::of(fault))?;
    }
    sort_refused(&mut found)?;
    Ok(found)
}

// The results for `routines`, which are in the order of their names, given those that are refused.
fn found_in<'a>(
    alloc: Global,
    routines: &[&'a Routine],
    refused: &[RefusedRoutine<'a>],
) -> Result<InRoutines<'a>, AllocError> {
    let given = Given::of(alloc, routines, refused)?;
    let mentions = mentions_of(alloc, routines)?;
    InRoutines::of(alloc, &given, routines, mentions.as_slice())
}

/// Surveys the texts for which a reader returned `answers`. Each text is separate: a refused one does not affect the others.
/// `further` are the faults of refused texts after their first ones.
pub fn survey<'a>(
    alloc: Global,
    answers: &'a [Result<Routine, Failure<Fault>>],
    further: &'a [Fault],
) -> Result<Facts<'a>, AllocError>
    ensures { IfOk result (λ f. f.read + length f.refused.items ≡ length answers.now) }
{
    let (routines, refused) = split_in_order(alloc, answers)?;
    let refusal_counts = refusal_counts(alloc, refused.as_slice())?;
    let further = further_in_order(alloc, further)?;
    let found = found_in(alloc, routines.as_slice(), refused.as_slice())?;
    Ok(Facts {
        read: routines.len(),
        refused,
        further,
        refusal_counts,
        found,
    })
}
