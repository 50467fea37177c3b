// LOCK.

ghost use Rattle.std.specs.Prelude.{◌≡◌, ◌++◌, IfOk, OnOk, drop, map, option_map};
ghost use Rattle.mlk_syntax.specs.ExprTrees.{tree_of};
ghost use Rattle.mlk_syntax.specs.Views.{variable_of, lock_of};
ghost use Rattle.mlk_walk_state.specs.declared.state.State.{State};
ghost use Rattle.mlk_walk_state.specs.States.{holding};
ghost use Rattle.mlk_calls.specs.Claims.{release_all};
ghost use Rattle.mlk_walk_exprs.specs.Spots.{spot_of};
ghost use Rattle.mlk_walk_exprs.specs.Walks.{Outcome, add_all};
ghost use Rattle.mlk_walk_commands.specs.Holding.{held_quickly};
ghost use Rattle.mlk_walk_commands.specs.Locks.{known_names, is_timed, column_at, granted, claim, claim_after};
ghost use Rattle.mlk_walk_commands.specs.Locks.{give_back, by_sign, lock_row, lock_argument, release};

use crate::names::{capture_names, names_fault, symbols_of, terms_of, without_names};
use mlk_calls::{State, claim_unchecked, may_take, release_all, release_one};
use mlk_cert_parts::{Shared, Test};
use mlk_names::LockTerm;
use mlk_rules::rank_of;
use mlk_syntax::{Expr, LockArgument, Sign, Variable};
use mlk_text::{Code, Column, Failure, copy_of};
use mlk_walk_exprs::{Mend, Note, Spot, Transfer, Walk, apply_to_states, value_if};
use std::alloc::{AllocError, Global};

// The check that the subscripts of names, which were captured last, are known.
#[derive(Clone, Copy, Drop)]
struct Known<'a> {
    spot: &'a Spot<'a>,
    argument: &'a LockArgument,
}

impl<'a> Transfer for Known<'a> {
    ghost outcomes = { λ r s. known_names (spot_of r.spot.now) (map variable_of r.argument.now.names.items) s };

    fn make(&self, state: State, walk: &mut Walk) -> Result<(), AllocError> {
        let names = self.argument.names.as_slice();
        match names_fault(self.spot, &state, names, symbols_of(names, &state)) {
            None => walk.add_live(state),
            Some((column, code)) => {
                let note = Note::in_case(Mend::Nothing, &state.case)?;
                walk.refuse(self.spot.line, column, code, note)
            }
        }
    }
}

// The names from index `index` on.
fn names_from(names: &[Variable], index: usize) -> &[Variable]
    ensures { result.now ≡ drop index names.now }
{
    let (_, left) = names.split_at(index.min(names.len()));
    left
}

fn column_at(names: &[Variable], index: usize) -> Column
    ensures { result ≡ column_at (map variable_of names.now) index }
{
    match names_from(names, index).split_first() {
        Some((name, _)) => name.column,
        None => Column::new(1),
    }
}

// Adds `terms` to the held terms, in any order.
fn with_held(alloc: Global, terms: &[LockTerm], state: State) -> Result<State, AllocError>
    ensures { IfOk result (λ s. s ≡ holding (terms.now ++ state.case.held) state) }
{
    let mut state = state;
    let mut all = Vec::from_clones(alloc, terms)?;
    let mut held = Vec::from_clones(alloc, state.case.held.as_slice())?;
    all.append(&mut held)?;
    state.case.held = Shared::new(alloc, all)?;
    Ok(state)
}

fn hold_terms(alloc: Global, terms: &[LockTerm], state: State) -> Result<State, AllocError>
    ensures { IfOk result (λ s. s ≡ held_quickly terms.now state) }
{
    if terms.len() > 16 {
        return with_held(alloc, terms, state);
    }
    claim_unchecked(alloc, terms, state)
}

fn grant(
    alloc: Global,
    timed: bool,
    terms: &[LockTerm],
    state: State,
    walk: &mut Walk,
) -> Result<(), AllocError>
    ensures { OnOk result (walk.new ≡ add_all (granted held_quickly timed terms.now state) walk.old) }
{
    if !timed {
        let state = hold_terms(alloc, terms, state)?;
        return walk.add_live(state);
    }
    let other = state.copy()?;
    let state = hold_terms(alloc, terms, state)?;
    walk.add_live(state.with_test(Test::One))?;
    walk.add_live(other.with_test(Test::Zero))
}

fn claim_mend(spot: &Spot, code: Code, term: Option<&LockTerm>) -> Mend {
    if code != Code::SummaryShort {
        return Mend::Nothing;
    }
    let Some(term) = term else {
        return Mend::Nothing;
    };
    match rank_of(spot.scope.rules(), term) {
        Some(rank) => Mend::Rank(rank),
        None => Mend::Nothing,
    }
}

fn release_mend(code: Code) -> Mend {
    match code {
        Code::SummaryShort => Mend::Drops,
        _ => Mend::Nothing,
    }
}

fn missing_lock(alloc: Global, term: &LockTerm) -> Result<Mend, AllocError> {
    let mut locks = Vec::new(alloc);
    locks.push(copy_of(term)?)?;
    Ok(Mend::Locks(locks))
}

// Claims terms, each at the column of its name.
fn claim(
    spot: &Spot,
    timed: bool,
    names: &[Variable],
    terms: &[LockTerm],
    state: State,
    walk: &mut Walk,
) -> Result<(), AllocError>
    ensures { OnOk result (walk.new ≡ add_all
        (claim held_quickly (spot_of spot.now) timed (map variable_of names.now) terms.now state) walk.old) }
{
    match may_take(spot.scope, &state, terms, timed) {
        Ok(()) => grant(spot.alloc, timed, terms, state, walk),
        Err((index, code)) => {
            let mend = claim_mend(spot, code, terms.get(index));
            let note = Note::in_case(mend, &state.case)?;
            walk.refuse(spot.line, column_at(names, index), code, note)
        }
    }
}

// Releases all locks, at the word, then claims the names.
fn claim_anew(
    spot: &Spot,
    timed: bool,
    names: &[Variable],
    terms: &[LockTerm],
    state: State,
    walk: &mut Walk,
) -> Result<(), AllocError>
    ensures { OnOk result (walk.new ≡ add_all (claim_after held_quickly (spot_of spot.now) timed (map variable_of names.now)
        terms.now (release_all (spot_of spot.now).scope state)) walk.old) }
{
    match release_all(spot.alloc, spot.scope, state) {
        Ok(state) => claim(spot, timed, names, terms, state, walk),
        Err(Failure::OutOfMemory) => Err(AllocError),
        Err(Failure::Refused(refusal)) => {
            let note = Note::in_case(release_mend(refusal.code), &refusal.state.case)?;
            walk.refuse(spot.line, spot.word, refusal.code, note)
        }
    }
}

// `LOCK -`: releases the names one after another, each once.
fn give_back(
    spot: &Spot,
    names: &[Variable],
    terms: &[LockTerm],
    state: State,
    walk: &mut Walk,
) -> Result<(), AllocError>
    ensures { OnOk result (walk.new ≡ add_all
        (give_back (spot_of spot.now) (map variable_of names.now) terms.now state) walk.old) }
{
    let mut state = state;
    let mut left = terms;
    for name in names {
        let Some((term, others)) = left.split_first() else {
            return walk.add_live(state);
        };
        match release_one(spot.alloc, term, state) {
            Ok(after) => {
                state = after;
            }
            Err(Failure::OutOfMemory) => return Err(AllocError),
            Err(Failure::Refused(refusal)) => {
                let note = Note::in_case(missing_lock(spot.alloc, term)?, &refusal.state.case)?;
                return walk.refuse(spot.line, name.column, refusal.code, note);
            }
        }
        left = others;
    }
    walk.add_live(state)
}

fn is_timed(timeout: &Option<Expr>) -> bool
    ensures { result ≡ is_timed (option_map tree_of timeout.now) }
{
    match timeout {
        None => false,
        Some(_) => true,
    }
}

// The effect of an argument with the terms of its names.
fn by_sign(
    spot: &Spot,
    argument: &LockArgument,
    terms: &[LockTerm],
    state: State,
    walk: &mut Walk,
) -> Result<(), AllocError>
    ensures { OnOk result (walk.new ≡ add_all (by_sign held_quickly (spot_of spot.now) argument.now.sign
        (is_timed (option_map tree_of argument.now.timeout)) (map variable_of argument.now.names.items)
        terms.now state) walk.old) }
{
    let names = argument.names.as_slice();
    let timed = is_timed(&argument.timeout);
    match argument.sign {
        Sign::Plus => claim(spot, timed, names, terms, state, walk),
        Sign::None => claim_anew(spot, timed, names, terms, state, walk),
        Sign::Minus => give_back(spot, names, terms, state, walk),
    }
}

// The effect of an argument whose names' subscripts were captured last.
#[derive(Clone, Copy, Drop)]
struct Locks<'a> {
    spot: &'a Spot<'a>,
    argument: &'a LockArgument,
}

impl<'a> Transfer for Locks<'a> {
    ghost outcomes = { λ r s. lock_row held_quickly (spot_of r.spot.now) r.argument.now.sign
        (is_timed (option_map tree_of r.argument.now.timeout)) (map variable_of r.argument.now.names.items) s };

    fn make(&self, state: State, walk: &mut Walk) -> Result<(), AllocError> {
        let spot = self.spot;
        let names = self.argument.names.as_slice();
        let terms = terms_of(spot.alloc, names, symbols_of(names, &state))?;
        let Some(terms) = terms else {
            let note = Note::in_case(Mend::Nothing, &state.case)?;
            return walk.refuse(spot.line, spot.word, Code::UnknownSubscript, note);
        };
        by_sign(
            spot,
            self.argument,
            terms.as_slice(),
            without_names(names, state),
            walk,
        )
    }
}

/// LOCK: evaluates the names, whose subscripts must be known, and the timeout; without a sign it releases all locks; then it
/// claims all names at once or releases them one after another. At the end it checks that there are not too many states.
pub fn lock_argument<'a>(
    spot: &'a Spot<'a>,
    argument: &'a LockArgument,
    walk: &mut Walk,
) -> Result<(), AllocError>
    ensures { OnOk result (walk.new ≡ lock_argument (spot_of spot.now) (lock_of argument.now) walk.old) }
{
    let names = argument.names.as_slice();
    capture_names(spot, names, walk)?;
    apply_to_states(spot.alloc, &Known { spot, argument }, walk)?;
    value_if(spot, argument.timeout.as_ref(), walk)?;
    apply_to_states(spot.alloc, &Locks { spot, argument }, walk)?;
    walk.limit_states(spot.alloc, spot.line, spot.word)
}

/// The release of all locks, by LOCK without arguments.
#[derive(Clone, Copy, Drop)]
pub struct Release<'a> {
    pub spot: &'a Spot<'a>,
}

impl<'a> Transfer for Release<'a> {
    ghost outcomes = { λ r s. release (spot_of r.spot.now) s };

    fn make(&self, state: State, walk: &mut Walk) -> Result<(), AllocError> {
        let spot = self.spot;
        match release_all(spot.alloc, spot.scope, state) {
            Ok(state) => walk.add_live(state),
            Err(Failure::OutOfMemory) => Err(AllocError),
            Err(Failure::Refused(refusal)) => {
                let note = Note::in_case(release_mend(refusal.code), &refusal.state.case)?;
                walk.refuse(spot.line, spot.word, refusal.code, note)
            }
        }
    }
}
