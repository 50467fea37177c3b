// Claims and releases of terms.

ghost use Rattle.std.specs.Prelude.{◌≡◌, ◌&&◌, ℕ, IfOk, IfErr, OnOk, Some, None};
ghost use Rattle.mlk_calls.specs.Ranks.{is_above, IsHighest};
ghost use Rattle.mlk_walk_state.specs.Refusals.{AnswersOf};
ghost use Rattle.mlk_walk_state.specs.Scope.{scope_of};
ghost use Rattle.mlk_calls.specs.Claims.{is_low_enough, is_below, order_fault, claim_fault};
ghost use Rattle.mlk_calls.specs.Claims.{claim_refused, held_too, release_all, release_one};

use mlk_cert_parts::Shared;
use mlk_names::LockTerm;
use mlk_rules::Rules;
use mlk_text::{Code, Failure};
use mlk_walk_state::{RefusedState, Scope, State, copy_terms, is_within, put_all, rank, take_one};
use std::alloc::{AllocError, Global};

/// Whether the least rank `other` is not below `low`; `None` is above every rank.
pub(crate) fn is_low_enough(low: Option<u32>, other: Option<u32>) -> bool
    ensures { result ≡ is_low_enough low other }
{
    match (low, other) {
        (_, None) => true,
        (None, Some(_)) => false,
        (Some(low), Some(rank)) => low <= rank,
    }
}

// The highest rank of terms.
#[derive(Clone, Copy, Drop)]
enum Highest {
    // there are no terms
    Nothing,
    // each has a rank, and this is the highest
    Ranked(u32),
    // one has no rank
    Unranked,
}

fn with_rank(highest: Highest, rank: Option<u32>) -> Highest
    ensures { (k : ℕ) → is_above result k ≡ is_below rank k && is_above highest k }
{
    match rank {
        None => Highest::Unranked,
        Some(rank) => match highest {
            Highest::Nothing => Highest::Ranked(rank),
            Highest::Ranked(other) => Highest::Ranked(if other < rank { rank } else { other }),
            Highest::Unranked => Highest::Unranked,
        },
    }
}

fn highest_of(rules: &Rules, held: &[LockTerm]) -> Highest
    ensures { IsHighest result rules.now.families held.now }
{
    let mut highest = Highest::Nothing;
    let mut left = held;
    while let Some((term, others)) = left.split_first() {
        highest = with_rank(highest, rank(rules, term));
        left = others;
    }
    highest
}

// Whether `rank` is above all ranks of the terms.
fn is_above(highest: Highest, rank: u32) -> bool
    ensures { result ≡ is_above highest rank }
{
    match highest {
        Highest::Nothing => true,
        Highest::Ranked(other) => other < rank,
        Highest::Unranked => false,
    }
}

fn order_fault(
    scope: &Scope,
    highest: Highest,
    held: &[LockTerm],
    term: &LockTerm,
    rank: u32,
) -> Option<Code>
    requires { IsHighest highest (scope_of scope.now).rules.families held.now }
    ensures { result ≡ order_fault (scope_of scope.now) held.now term.now rank }
{
    if is_within(held, term) {
        return None;
    }
    if !is_above(highest, rank) {
        return Some(Code::RankOrder);
    }
    if !is_low_enough(scope.block.summary.low, Some(rank)) {
        return Some(Code::SummaryShort);
    }
    None
}

fn claim_fault(
    scope: &Scope,
    highest: Highest,
    held: &[LockTerm],
    term: &LockTerm,
    timed: bool,
) -> Option<Code>
    requires { IsHighest highest (scope_of scope.now).rules.families held.now }
    ensures { result ≡ claim_fault (scope_of scope.now) timed held.now term.now }
{
    match rank(scope.rules, term) {
        None => Some(Code::Unranked),
        Some(rank) => {
            if timed {
                None
            } else {
                order_fault(scope, highest, held, term, rank)
            }
        }
    }
}

/// Checks whether a state may claim `terms` at once, with a timeout if `timed`. The error is the index of the first that is
/// refused, and why. Allocates nothing.
///
/// A term is refused by the first of: it is in no family, timed or not (707); and if the claim is not timed and no held term is
/// at or above it: a held term has no rank, or one that is not below its own (708), or the walked entry's least rank is above its
/// own (712).
pub fn may_take(
    scope: &Scope,
    state: &State,
    terms: &[LockTerm],
    timed: bool,
) -> Result<(), (usize, Code)>
    ensures ok { OnOk result (claim_refused (scope_of scope.now) timed state.now.case.held terms.now ≡ None) }
    ensures err { IfErr result (λ e. claim_refused (scope_of scope.now) timed state.now.case.held terms.now ≡ Some e) }
{
    let held = state.case.held.as_slice();
    let highest = highest_of(scope.rules, held);
    let mut left = terms;
    let mut index = 0;
    while let Some((term, others)) = left.split_first() {
        if let Some(code) = claim_fault(scope, highest, held, term, timed) {
            return Err((index, code));
        }
        index += 1;
        left = others;
    }
    Ok(())
}

/// The state once `terms` are granted: they are held too. It checks nothing: [`may_take`] does. Its time grows with the number
/// of pairs of terms, so a caller that limits the number of held terms compares the lengths first.
pub fn claim_unchecked(alloc: Global, terms: &[LockTerm], state: State) -> Result<State, AllocError>
    ensures { IfOk result (λ s. s ≡ held_too terms.now state) }
{
    let held = put_all(alloc, state.case.held.as_slice(), terms)?;
    Ok(state.with_held(Shared::new(alloc, held)?))
}

/// Releases all locks. Refused if the walked entry's summary does not say that it may drop them (712).
pub fn release_all(
    alloc: Global,
    scope: &Scope,
    state: State,
) -> Result<State, Failure<RefusedState>>
    ensures { AnswersOf state (λ s. s) result (release_all (scope_of scope.now) state) }
{
    if !scope.block.summary.drops {
        return Err(Failure::Refused(RefusedState {
            code: Code::SummaryShort,
            state,
        }));
    }
    Ok(state.with_held(Shared::new(alloc, Vec::new(alloc))?))
}

/// Releases `term` once. Refused if it is not held (706).
pub fn release_one(
    alloc: Global,
    term: &LockTerm,
    state: State,
) -> Result<State, Failure<RefusedState>>
    ensures { AnswersOf state (λ s. s) result (release_one term.now state) }
{
    let Some(held) = take_one(copy_terms(alloc, state.case.held.as_slice())?, term) else {
        return Err(Failure::Refused(RefusedState {
            code: Code::NotHeld,
            state,
        }));
    };
    Ok(state.with_held(Shared::new(alloc, held)?))
}
