// Lists of held terms.

ghost use Rattle.std.specs.Prelude.{◌≡◌, ◌↔◌, ◌<◌, IsTrue, OnOk, IfOk, IfSome, length, option_map, position};
ghost use Rattle.std.specs.List.{list_any};
ghost use Rattle.mlk_rules.specs.Computed.{is_prefix};
ghost use Rattle.mlk_walk_state.specs.Names.{have};
ghost use Rattle.mlk_walk_state.specs.Terms.{same_term, add_term, add_terms, taken, all_taken};
ghost use Rattle.mlk_walk_state.specs.Terms.{first_missing, is_such, mention, is_within, rank_of};

use crate::names::any_has_name;
use mlk_cert_parts::{NameSet, place_of_term};
use mlk_names::{KnownSym, LockTerm, prefix};
use mlk_rules::{Rules, rank_of};
use mlk_text::copy_of;
use std::alloc::{AllocError, Global};

fn is_equal(first: &LockTerm, second: &LockTerm) -> bool
    ensures { IsTrue result ↔ (first.now ≡ second.now) }
{
    first == second
}

pub(crate) fn is_same(first: &LockTerm, second: &LockTerm) -> bool
    ensures { result ≡ same_term first.now second.now }
{
    is_equal(first, second)
}

// Whether `first` is `second` or above it.
fn is_prefix(first: &LockTerm, second: &LockTerm) -> bool
    ensures { result ≡ is_prefix first.now second.now }
{
    prefix(first, second)
}

/// Whether a held term is `term` or above it.
pub fn is_within(held: &[LockTerm], term: &LockTerm) -> bool
    ensures { result ≡ is_within held.now term.now }
{
    held.iter().any(|other| is_prefix(other, term))
}

/// The rank of the family that is `term` or above it, or `None`.
pub fn rank(rules: &Rules, term: &LockTerm) -> Option<u32>
    ensures { result ≡ rank_of rules.now.families term.now }
{
    rank_of(rules, term)
}

fn is_in_names(names: &[NameSet], symbol: &KnownSym) -> bool
    ensures { result ≡ is_such (have names.now) symbol.now }
{
    match symbol {
        KnownSym::Local(name) => any_has_name(names, name),
        KnownSym::Const(_) | KnownSym::Job => false,
    }
}

fn any_in_names(names: &[NameSet], symbols: &[KnownSym]) -> bool
    ensures { result ≡ list_any (is_such (have names.now)) symbols.now }
{
    symbols.iter().any(|symbol| is_in_names(names, symbol))
}

/// Whether some term mentions one of the names in a subscript. Allocates nothing.
pub fn mention_any(names: &[NameSet], terms: &[LockTerm]) -> bool
    ensures { result ≡ mention names.now terms.now }
{
    terms
        .iter()
        .any(|term| any_in_names(names, term.subs.as_slice()))
}

fn place_in(held: &[LockTerm], term: &LockTerm) -> Option<usize>
    ensures place { result ≡ position (same_term term.now) held.now }
    ensures within { IfSome result (λ i. i < length held.now) }
{
    held.iter().position(|other| is_same(term, other))
}

/// Removes one occurrence of `term`, or returns `None` if it is not held.
pub fn take_one(held: Vec<LockTerm>, term: &LockTerm) -> Option<Vec<LockTerm>>
    ensures { option_map (λ v. v.items) result ≡ taken term.now held.items }
{
    let mut held = held;
    let place = place_in(held.as_slice(), term)?;
    let _ = held.remove(place);
    Some(held)
}

/// Removes one occurrence of each of `terms`, or returns `None` if one is not held.
pub fn take_all(held: Vec<LockTerm>, terms: &[LockTerm]) -> Option<Vec<LockTerm>>
    ensures { option_map (λ v. v.items) result ≡ all_taken terms.now held.items }
{
    let mut held = held;
    let mut left = terms;
    while let Some((term, others)) = left.split_first() {
        held = take_one(held, term)?;
        left = others;
    }
    Some(held)
}

/// The first of `terms` that is not held besides those before it, or `None`.
pub fn first_missing(
    held: Vec<LockTerm>,
    terms: &[LockTerm],
) -> Result<Option<LockTerm>, AllocError>
    ensures { IfOk result (λ t. t ≡ first_missing terms.now held.items) }
{
    let mut held = held;
    let mut left = terms;
    while let Some((term, others)) = left.split_first() {
        let Some(rest) = take_one(held, term) else {
            return Ok(Some(copy_of(term)?));
        };
        held = rest;
        left = others;
    }
    Ok(None)
}

fn put(alloc: Global, held: &mut Vec<LockTerm>, term: LockTerm) -> Result<(), AllocError>
    ensures { OnOk result (held.new.items ≡ add_term term held.old.items) }
{
    let place = place_of_term(alloc, held.as_slice(), &term)?;
    held.insert(place, term)?;
    Ok(())
}

/// Adds each of `terms` to the held terms, in order.
pub fn put_all(
    alloc: Global,
    held: &[LockTerm],
    terms: &[LockTerm],
) -> Result<Vec<LockTerm>, AllocError>
    ensures { IfOk result (λ v. v.items ≡ add_terms terms.now held.now) }
{
    let mut all = copy_terms(alloc, held)?;
    let mut left = terms;
    while let Some((term, others)) = left.split_first() {
        put(alloc, &mut all, copy_of(term)?)?;
        left = others;
    }
    Ok(all)
}

/// Copies `terms`.
pub fn copy_terms(alloc: Global, terms: &[LockTerm]) -> Result<Vec<LockTerm>, AllocError>
    ensures { IfOk result (λ v. v.items ≡ terms.now) }
{
    Vec::from_clones(alloc, terms)
}
