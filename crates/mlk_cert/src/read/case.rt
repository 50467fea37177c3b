// The readers of cases.

ghost use Rattle.std.specs.Prelude.{◌≡◌, ◌∷◌, [], suc, length, option_map, IfOk, codes};
ghost use Rattle.mlk_text.specs.Reading.{many, put};
ghost use Rattle.mlk_text.specs.Lexemes.{name_at};
ghost use Rattle.mlk_text.specs.Failures.{Reads};
ghost use Rattle.mlk_cert_parts.specs.Checks.{fit_terms, fit_own, fit_kept, fit_mods, fits_case, fits_exit};
ghost use Rattle.mlk_cert.specs.Fitting.{passes};
ghost use Rattle.mlk_cert_lexemes.specs.Reading.{keep, part_at, listed_at, term_at};
ghost use Rattle.mlk_cert_parts.specs.Reading.{sign_at, saved_at, own_at, names_at, exit_at, case_at};

use crate::read::fit::{Fit, fit_both, fit_of};
use crate::read::memory::{Memories, Memory, NoTests};
use mlk_cert_lexemes::{front_of, item_list, word_of};
use mlk_cert_parts::limit::{MOST_KEPT, MOST_MODS, MOST_OWN, MOST_TERMS};
use mlk_cert_parts::{
    Case, ExitCase, NameSet, Own, Shared, Test, ascend_inside, ascend_inside_own,
};
use mlk_names::LockTerm;
use mlk_text::lexeme::byte_of;
use mlk_text::{Failure, Name, NotThere};
use std::alloc::Global;

fn sign(bytes: &[u8]) -> Option<(Test, &[u8])>
    ensures { option_map (λ x. (x.0, x.1.now)) result ≡ sign_at bytes.now }
{
    let Some((first, rest)) = bytes.split_first() else {
        return None;
    };
    match *first {
        b'*' => Some((Test::Any, rest)),
        b'0' => Some((Test::Zero, rest)),
        b'1' => Some((Test::One, rest)),
        _ => None,
    }
}

fn more_signs(
    alloc: Global,
    first: Test,
    bytes: &[u8],
) -> Result<(Vec<Test>, &[u8]), Failure<NotThere>>
    ensures { Reads (λ x. (x.0.items, x.1.now)) result (put (first ∷ []) (many sign_at keep (suc
        (length bytes.now)) bytes.now)) }
{
    let mut found = Vec::new(alloc);
    found.push(first)?;
    let mut rest = bytes;
    while let Some((test, after)) = sign(rest) {
        found.push(test)?;
        rest = after;
    }
    Ok((found, rest))
}

#[tactic(auto, unfolding(mlk_cert_parts::specs::Reading::saved_at))]
fn saved_tests<'a>(
    alloc: Global,
    none: &mut NoTests,
    bytes: &'a [u8],
) -> Result<(Shared<Test>, &'a [u8]), Failure<NotThere>>
    ensures { Reads (λ x. (x.0, x.1.now)) result (saved_at bytes.now) }
{
    if let Some(rest) = byte_of(b'-', bytes) {
        return Ok((none.list(alloc)?, rest));
    }
    let Some((first, rest)) = sign(bytes) else {
        return Err(Failure::Refused(NotThere));
    };
    let (found, rest) = more_signs(alloc, first, rest)?;
    Ok((Shared::new(alloc, found)?, rest))
}

/// Reads a list of terms.
pub(crate) fn terms(
    alloc: Global,
    bytes: &[u8],
) -> Result<(Vec<LockTerm>, Fit, &[u8]), Failure<NotThere>>
    ensures read { Reads (λ x. (x.0.items, x.2.now)) result (listed_at term_at bytes.now) }
    ensures fit { IfOk result (λ x. passes x.1 ≡ fit_terms x.0.items) }
{
    let (found, ordered, rest) = item_list::<LockTerm>(alloc, bytes)?;
    let fit = fit_of(found.len() <= MOST_TERMS, ordered);
    Ok((found, fit, rest))
}

/// Reads the names that may change.
pub(crate) fn mods(
    alloc: Global,
    bytes: &[u8],
) -> Result<(Vec<NameSet>, Fit, &[u8]), Failure<NotThere>>
    ensures read { Reads (λ x. (x.0.items, x.2.now)) result (listed_at names_at bytes.now) }
    ensures fit { IfOk result (λ x. passes x.1 ≡ fit_mods x.0.items) }
{
    let (found, ordered, rest) = item_list::<NameSet>(alloc, bytes)?;
    let inside = ascend_inside(found.as_slice());
    let fit = fit_of(found.len() <= MOST_MODS, inside && ordered);
    Ok((found, fit, rest))
}

fn new_names(alloc: Global, bytes: &[u8]) -> Result<(Vec<Own>, Fit, &[u8]), Failure<NotThere>>
    ensures read { Reads (λ x. (x.0.items, x.2.now)) result (listed_at own_at bytes.now) }
    ensures fit { IfOk result (λ x. passes x.1 ≡ fit_own x.0.items) }
{
    let (found, ordered, rest) = item_list::<Own>(alloc, bytes)?;
    let inside = ascend_inside_own(found.as_slice());
    let fit = fit_of(found.len() <= MOST_OWN, inside && ordered);
    Ok((found, fit, rest))
}

fn kept_names(alloc: Global, bytes: &[u8]) -> Result<(Vec<Name>, Fit, &[u8]), Failure<NotThere>>
    ensures read { Reads (λ x. (x.0.items, x.2.now)) result (listed_at name_at bytes.now) }
    ensures fit { IfOk result (λ x. passes x.1 ≡ fit_kept x.0.items) }
{
    let (found, ordered, rest) = item_list::<Name>(alloc, bytes)?;
    let fit = fit_of(found.len() <= MOST_KEPT, ordered);
    Ok((found, fit, rest))
}

#[tactic(auto, unfolding(mlk_cert_lexemes::specs::Reading::part_at))]
fn test_part(bytes: &[u8]) -> Option<(Test, &[u8])>
    ensures { option_map (λ x. (x.0, x.1.now)) result ≡ part_at (codes "T=") sign_at bytes.now }
{
    let Some(rest) = word_of(b"T=", bytes) else {
        return None;
    };
    sign(rest)
}

#[tactic(auto, unfolding(mlk_cert_lexemes::specs::Reading::part_at))]
fn held_part<'a>(
    alloc: Global,
    memory: &mut Memory<'a, LockTerm>,
    bytes: &'a [u8],
) -> Result<(Shared<LockTerm>, Fit, &'a [u8]), Failure<NotThere>>
    ensures read { Reads (λ x. (x.0, x.2.now)) result (part_at (codes " H=") (listed_at term_at) bytes.now) }
    ensures fit { IfOk result (λ x. passes x.1 ≡ fit_terms x.0) }
{
    let Some(rest) = word_of(b" H=", bytes) else {
        return Err(Failure::Refused(NotThere));
    };
    if let Some((list, rest)) = memory.recall(rest)? {
        return Ok((list, Fit::Yes, rest));
    }
    let (found, fit, after) = terms(alloc, rest)?;
    let list = Shared::new(alloc, found)?;
    if fit.is_yes() {
        memory.note(list.clone()?, front_of(rest, after));
    }
    Ok((list, fit, after))
}

#[tactic(auto, unfolding(mlk_cert_lexemes::specs::Reading::part_at))]
fn own_part<'a>(
    alloc: Global,
    memory: &mut Memory<'a, Own>,
    bytes: &'a [u8],
) -> Result<(Shared<Own>, Fit, &'a [u8]), Failure<NotThere>>
    ensures read { Reads (λ x. (x.0, x.2.now)) result (part_at (codes " O=") (listed_at own_at) bytes.now) }
    ensures fit { IfOk result (λ x. passes x.1 ≡ fit_own x.0) }
{
    let Some(rest) = word_of(b" O=", bytes) else {
        return Err(Failure::Refused(NotThere));
    };
    if let Some((list, rest)) = memory.recall(rest)? {
        return Ok((list, Fit::Yes, rest));
    }
    let (found, fit, after) = new_names(alloc, rest)?;
    let list = Shared::new(alloc, found)?;
    if fit.is_yes() {
        memory.note(list.clone()?, front_of(rest, after));
    }
    Ok((list, fit, after))
}

#[tactic(auto, unfolding(mlk_cert_lexemes::specs::Reading::part_at))]
fn kept_part<'a>(
    alloc: Global,
    memory: &mut Memory<'a, Name>,
    bytes: &'a [u8],
) -> Result<(Shared<Name>, Fit, &'a [u8]), Failure<NotThere>>
    ensures read { Reads (λ x. (x.0, x.2.now)) result (part_at (codes " K=") (listed_at name_at) bytes.now) }
    ensures fit { IfOk result (λ x. passes x.1 ≡ fit_kept x.0) }
{
    let Some(rest) = word_of(b" K=", bytes) else {
        return Err(Failure::Refused(NotThere));
    };
    if let Some((list, rest)) = memory.recall(rest)? {
        return Ok((list, Fit::Yes, rest));
    }
    let (found, fit, after) = kept_names(alloc, rest)?;
    let list = Shared::new(alloc, found)?;
    if fit.is_yes() {
        memory.note(list.clone()?, front_of(rest, after));
    }
    Ok((list, fit, after))
}

#[tactic(auto, unfolding(mlk_cert_lexemes::specs::Reading::part_at))]
fn saved_part<'a>(
    alloc: Global,
    none: &mut NoTests,
    bytes: &'a [u8],
) -> Result<(Shared<Test>, &'a [u8]), Failure<NotThere>>
    ensures { Reads (λ x. (x.0, x.1.now)) result (part_at (codes " S=") saved_at bytes.now) }
{
    let Some(rest) = word_of(b" S=", bytes) else {
        return Err(Failure::Refused(NotThere));
    };
    let (found, rest) = saved_tests(alloc, none, rest)?;
    Ok((found, rest))
}

/// Reads the case of an exit: the case, whether it respects its limits, and the rest.
#[tactic(auto, unfolding(mlk_cert_parts::specs::Reading::exit_at))]
pub(crate) fn exit<'a>(
    alloc: Global,
    memories: &mut Memories<'a>,
    bytes: &'a [u8],
) -> Result<(ExitCase, Fit, &'a [u8]), Failure<NotThere>>
    ensures read { Reads (λ x. (x.0, x.2.now)) result (exit_at bytes.now) }
    ensures fit { IfOk result (λ x. passes x.1 ≡ fits_exit x.0) }
{
    let Some((test, rest)) = test_part(bytes) else {
        return Err(Failure::Refused(NotThere));
    };
    let (held, first, rest) = held_part(alloc, &mut memories.held, rest)?;
    let (kept, second, rest) = kept_part(alloc, &mut memories.kept, rest)?;
    Ok((ExitCase { test, held, kept }, fit_both(first, second), rest))
}

/// Reads a case: the case, whether it respects its limits, and the rest.
#[tactic(auto, unfolding(mlk_cert_parts::specs::Reading::case_at))]
pub(crate) fn case<'a>(
    alloc: Global,
    memories: &mut Memories<'a>,
    bytes: &'a [u8],
) -> Result<(Case, Fit, &'a [u8]), Failure<NotThere>>
    ensures read { Reads (λ x. (x.0, x.2.now)) result (case_at bytes.now) }
    ensures fit { IfOk result (λ x. passes x.1 ≡ fits_case x.0) }
{
    let Some((test, rest)) = test_part(bytes) else {
        return Err(Failure::Refused(NotThere));
    };
    let (held, first, rest) = held_part(alloc, &mut memories.held, rest)?;
    let (own, second, rest) = own_part(alloc, &mut memories.own, rest)?;
    let (kept, third, rest) = kept_part(alloc, &mut memories.kept, rest)?;
    let (saved, rest) = saved_part(alloc, &mut memories.no_tests, rest)?;
    let case = Case {
        test,
        held,
        own,
        kept,
        saved,
    };
    Ok((case, fit_both(first, fit_both(second, third)), rest))
}
