// The lock names of LOCK arguments.

ghost use Rattle.std.specs.Prelude.{◌≡◌, ◌-◌, IfOk, OnOk, map, option_map, take, drop};
ghost use Rattle.mlk_syntax.specs.ExprTrees.{tree_of, sub_trees, subs_from};
ghost use Rattle.mlk_syntax.specs.Views.{variable_of};
ghost use Rattle.mlk_walk_state.specs.States.{last_captured, without_last};
ghost use Rattle.mlk_walk_state.specs.Terms.{all_known};
ghost use Rattle.mlk_walk_exprs.specs.Spots.{spot_of};
ghost use Rattle.mlk_walk_commands.specs.Locks.{root_of, capture_names, count_names, unknown_code};
ghost use Rattle.mlk_walk_commands.specs.Locks.{subscript_fault, subs_fault, names_fault, term_of, terms_of};

use crate::{capture_variable, count_of, subscripts_of};
use mlk_calls::State;
use mlk_names::{KnownSym, LockTerm, Sym, TermSubs};
use mlk_syntax::{Expr, Subscript, Variable};
use mlk_text::{Code, Column, Name, Root, Subscripts};
use mlk_walk_exprs::{Spot, Walk};
use std::alloc::{AllocError, Global};

/// Evaluates the subscripts of the names, in order.
pub(crate) fn capture_names<'a>(
    spot: &'a Spot<'a>,
    names: &'a [Variable],
    walk: &mut Walk,
) -> Result<(), AllocError>
    ensures { OnOk result (walk.new ≡ capture_names (spot_of spot.now) (map variable_of names.now) walk.old) }
{
    for name in names {
        capture_variable(spot, name, walk)?;
    }
    Ok(())
}

// The number of captured symbols before those of the names' subscripts, which were captured last.
fn count_before(captured: usize, names: &[Variable]) -> usize
    ensures { result ≡ captured - count_names (map variable_of names.now) }
{
    let mut before = captured;
    for name in names {
        before = before.saturating_sub(count_of(name));
    }
    before
}

/// The symbols of the names' subscripts, which were captured last.
pub(crate) fn symbols_of<'a>(names: &[Variable], state: &'a State) -> &'a [Sym]
    ensures { result.now ≡ last_captured (count_names (map variable_of names.now)) state.now }
{
    let symbols = state.captured.as_slice();
    let (_, own) = symbols.split_at(count_before(symbols.len(), names));
    own
}

/// The state without the symbols of the names' subscripts, which were captured last.
pub(crate) fn without_names(names: &[Variable], state: State) -> State
    ensures { result ≡ without_last (count_names (map variable_of names.now)) state }
{
    let before = count_before(state.captured.len(), names);
    let mut state = state;
    state.captured.truncate(before);
    state
}

#[tactic(auto, using(crate::proofs::OpenedLocks::local_unknown))]
fn unknown_code(spot: &Spot, state: &State, subscript: &Expr) -> Code
    ensures { result ≡ unknown_code ((spot_of spot.now).scope.is_shared state.now.case.own) (tree_of subscript.now) }
{
    let Expr::Local(name, subscripts) = subscript else {
        return Code::UnknownSubscript;
    };
    if let Some(_) = subscripts.split_first() {
        return Code::UnknownSubscript;
    }
    if spot.scope.is_shared_in(state.case.own.as_slice(), name) {
        Code::SharedName
    } else {
        Code::UnknownSubscript
    }
}

fn subscript_fault(spot: &Spot, state: &State, subscript: &Expr, symbol: &Sym) -> Option<Code>
    ensures { result ≡ subscript_fault ((spot_of spot.now).scope.is_shared state.now.case.own)
        (tree_of subscript.now) symbol.now }
{
    match symbol {
        Sym::Unknown => Some(unknown_code(spot, state, subscript)),
        _ => None,
    }
}

// The code and the column of the first of `subscripts` that has a fault, or `None`.
fn subs_fault(
    spot: &Spot,
    state: &State,
    subscripts: &[Subscript],
    symbols: &[Sym],
) -> Option<(Column, Code)>
    ensures { result ≡ subs_fault ((spot_of spot.now).scope.is_shared state.now.case.own)
        (subs_from (sub_trees subscripts.now)) symbols.now }
{
    let mut left = symbols;
    for subscript in subscripts {
        let Some((symbol, others)) = left.split_first() else {
            return Some((subscript.column, Code::UnknownSubscript));
        };
        if let Some(code) = subscript_fault(spot, state, &subscript.value, symbol) {
            return Some((subscript.column, code));
        }
        left = others;
    }
    None
}

// Splits `symbols` after the first `count`.
fn split_at_most(symbols: &[Sym], count: usize) -> (&[Sym], &[Sym])
    ensures first { result.0.now ≡ take count symbols.now }
    ensures rest { result.1.now ≡ drop count symbols.now }
{
    symbols.split_at(count.min(symbols.len()))
}

/// The code and the column of the first subscript of `names` that has a fault, or `None`.
pub(crate) fn names_fault(
    spot: &Spot,
    state: &State,
    names: &[Variable],
    symbols: &[Sym],
) -> Option<(Column, Code)>
    ensures { result ≡ names_fault ((spot_of spot.now).scope.is_shared state.now.case.own)
        (map variable_of names.now) symbols.now }
{
    let mut left = symbols;
    for name in names {
        let (own, others) = split_at_most(left, count_of(name));
        if let Some(fault) = subs_fault(spot, state, subscripts_of(name), own) {
            return Some(fault);
        }
        left = others;
    }
    None
}

#[tactic(auto, using(crate::proofs::OpenedLocks::local_root, crate::proofs::OpenedLocks::global_root))]
fn root_of(alloc: Global, name: &Expr) -> Result<Root, AllocError>
    ensures { IfOk result (λ r. r ≡ root_of (tree_of name.now)) }
{
    match name {
        Expr::Global(_, name, _) => Ok(Root::Global(name.copy()?)),
        Expr::Local(name, _) => Ok(Root::Local(name.copy()?)),
        _ => Ok(Root::Local(Name::of(alloc, b"")?)),
    }
}

fn known_subscripts(alloc: Global, symbols: &[Sym]) -> Result<Option<TermSubs>, AllocError>
    ensures { IfOk result (λ o. o ≡ all_known symbols.now) }
{
    let mut subs = Subscripts::new(alloc);
    let mut left = symbols;
    while let Some((symbol, others)) = left.split_first() {
        let Some(one) = symbol.to_known()? else {
            return Ok(None);
        };
        subs.push(one)?;
        left = others;
    }
    Ok(Some(subs))
}

fn term_of(alloc: Global, name: &Expr, symbols: &[Sym]) -> Result<Option<LockTerm>, AllocError>
    ensures { IfOk result (λ t. t ≡ term_of (tree_of name.now) symbols.now) }
{
    let Some(subs) = known_subscripts(alloc, symbols)? else {
        return Ok(None);
    };
    let root = root_of(alloc, name)?;
    Ok(Some(LockTerm { root, subs }))
}

/// The terms of names whose subscripts were captured, or `None` if one is unknown.
pub(crate) fn terms_of(
    alloc: Global,
    names: &[Variable],
    symbols: &[Sym],
) -> Result<Option<Vec<LockTerm>>, AllocError>
    ensures { IfOk result (λ o. option_map (λ v. v.items) o
        ≡ terms_of (map variable_of names.now) symbols.now) }
{
    let mut terms = Vec::new(alloc);
    let mut left = symbols;
    for name in names {
        let (own, others) = split_at_most(left, count_of(name));
        let Some(term) = term_of(alloc, &name.name, own)? else {
            return Ok(None);
        };
        terms.push(term)?;
        left = others;
    }
    Ok(Some(terms))
}
