// Cases to which no point refers.

ghost use Rattle.std.specs.Prelude.{◌≡◌, ◌-◌, IfOk, map, is_some, not, position, replicate, slice_set, false, true};
ghost use Rattle.mlk_cert_lexemes.specs.Lists.{ascends, below};
ghost use Rattle.mlk_cert_parts.specs.Texts.{case_text};
ghost use Rattle.mlk_cert.specs.Numbered.{are_named};
ghost use Rattle.mlk_cert.specs.Named.{texts_by, marked};

use crate::number::CaseNumber;
use mlk_cert_parts::Case;
use std::alloc::{AllocError, Global};

// Sets the mark of the case with the number `number`, if there is one.
fn mark(marks: &mut Vec<bool>, number: CaseNumber)
    ensures { marks.new.items ≡ slice_set marks.old.items (number - 1) true }
{
    let place = number.place();
    if place < marks.len() {
        marks[place] = true;
    }
}

// The marks of `count` cases, set for those with one of `numbers`.
fn marks(alloc: Global, count: usize, numbers: &[CaseNumber]) -> Result<Vec<bool>, AllocError>
    ensures { IfOk result (λ v. v.items ≡ marked (replicate count false) numbers.now) }
{
    let mut marks: Vec<bool> = Vec::new(alloc);
    marks.resize(count, false)?;
    for number in numbers {
        mark(&mut marks, *number);
    }
    Ok(marks)
}

// The index of the first mark that is not set, or `None`.
fn first_unset(marks: &[bool]) -> Option<usize>
    ensures { result ≡ position not marks.now }
{
    marks.iter().position(|mark| !*mark)
}

/// The index of the first case to which none of `numbers` refers, or `None`.
pub(crate) fn first_unnamed(
    alloc: Global,
    cases: &[Case],
    numbers: &[CaseNumber],
) -> Result<Option<usize>, AllocError>
    // No two cases have the same text.
    requires { ascends below (map case_text cases.now) ≡ true }
    ensures { IfOk result (λ o. not (is_some o) ≡ are_named (texts_by cases.now numbers.now) cases.now) }
{
    let marks = marks(alloc, cases.len(), numbers)?;
    Ok(first_unset(marks.as_slice()))
}
