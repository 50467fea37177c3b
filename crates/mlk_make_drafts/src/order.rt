// The orders of names and cases in a certificate.

ghost use Rattle.std.specs.Prelude.{◌≤◌, IfOk, length};

use mlk_calls::in_order;
use mlk_cert_lexemes::{Written, WrittenText};
use mlk_cert_parts::{Case, NameSet, Test};
use mlk_text::{List, Name};
use std::alloc::{AllocError, Global};

fn text_of(alloc: Global, names: &[Name]) -> Result<Vec<u8>, AllocError> {
    let mut text = Vec::new(alloc);
    for name in names {
        if !text.is_empty() {
            text.push(b',')?;
        }
        text.extend_from_slice(name.as_bytes())?;
    }
    text.push(b')')?;
    Ok(text)
}

// Whether the first set is before the second.
fn is_before(alloc: Global, first: &NameSet, second: &NameSet) -> Result<bool, AllocError> {
    match (first, second) {
        (NameSet::Only(name), NameSet::Only(other)) => Ok(name.as_bytes() < other.as_bytes()),
        (NameSet::Only(_), NameSet::AllBut(_)) => Ok(true),
        (NameSet::AllBut(_), NameSet::Only(_)) => Ok(false),
        (NameSet::AllBut(names), NameSet::AllBut(others)) => {
            Ok(text_of(alloc, names.as_slice())? < text_of(alloc, others.as_slice())?)
        }
    }
}

/// The index at which a set of names belongs among `sets`, which are in order: the number of those before it.
pub(crate) fn place_of_set(
    alloc: Global,
    sets: &[NameSet],
    set: &NameSet,
) -> Result<usize, AllocError>
    ensures { IfOk result (λ n. n ≤ length sets.now) }
{
    for (place, other) in sets.iter().enumerate() {
        if !is_before(alloc, other, set)? {
            return Ok(place);
        }
    }
    Ok(sets.len())
}

/// The set with its names in order.
pub(crate) fn set_in_order(alloc: Global, set: NameSet) -> Result<NameSet, AllocError> {
    match set {
        NameSet::Only(name) => Ok(NameSet::Only(name)),
        NameSet::AllBut(names) => Ok(NameSet::AllBut(in_order(alloc, names.as_slice())?)),
    }
}

// The rank of `$TEST` in the order of its signs.
fn place_of_test(case: &Case) -> u8 {
    match case.test {
        Test::Any => 0,
        Test::Zero => 1,
        Test::One => 2,
    }
}

fn how_many(cases: &[Case], test: Test) -> usize {
    cases.iter().filter(|case| case.test == test).count()
}

// Whether no two of the cases have the same `$TEST`.
fn have_distinct_tests(cases: &[Case]) -> bool {
    how_many(cases, Test::Any) < 2
        && how_many(cases, Test::Zero) < 2
        && how_many(cases, Test::One) < 2
}

// Cases, each with its text.
fn with_texts(alloc: Global, cases: Vec<Case>) -> Result<Vec<(WrittenText, Case)>, AllocError> {
    let mut all = Vec::new(alloc);
    for case in cases {
        let mut text = WrittenText::new(alloc);
        case.push_to(&mut text)?;
        all.push((text, case))?;
    }
    Ok(all)
}

// Cases in the order of their texts.
fn by_texts(alloc: Global, cases: Vec<Case>) -> Result<List<Case>, AllocError> {
    let mut all = with_texts(alloc, cases)?;
    all.sort_by(|first, second| first.0.as_bytes().cmp(second.0.as_bytes()))?;
    let mut ordered = List::new(alloc);
    for (_, case) in all {
        ordered.push_sparing(case)?;
    }
    Ok(ordered)
}

/// Cases in the order of their texts, in which `$TEST` is first. The texts are written only if two cases have the same `$TEST`.
pub(crate) fn cases_in_order(
    alloc: Global,
    mut cases: Vec<Case>,
) -> Result<List<Case>, AllocError> {
    if have_distinct_tests(cases.as_slice()) {
        cases.sort_by_key(place_of_test)?;
        return Ok(List::of(cases));
    }
    by_texts(alloc, cases)
}
