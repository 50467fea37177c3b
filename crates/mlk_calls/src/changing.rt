// Changes of names.

ghost use Rattle.std.specs.Prelude.{◌≡◌, IfOk, OnOk, is_none, map};
ghost use Rattle.std.specs.List.{list_all};
ghost use Rattle.mlk_walk_state.specs.Names.{may_change};
ghost use Rattle.mlk_walk_state.specs.Scope.{scope_of};
ghost use Rattle.mlk_calls.specs.Changes.{marked, without_kept, changed_state, change_fault, change, short_names};
ghost use Rattle.mlk_walk_state.specs.Refusals.{AnswersOf};

use mlk_cert_parts::{Case, NameSet};
use mlk_names::Sym;
use mlk_text::{Code, Failure, List, copy_of};
use mlk_walk_state::{RefusedState, Scope, State, any_has_name, may_change, mention_any, take_out};
use std::alloc::{AllocError, Global};

fn mark(changed: &[NameSet], symbol: &Sym) -> Result<Sym, AllocError>
    ensures { IfOk result (λ s. s ≡ marked changed.now symbol.now) }
{
    if let Sym::Local(name) = symbol {
        if any_has_name(changed, name) {
            return Ok(Sym::Unknown);
        }
    }
    copy_of(symbol)
}

/// The symbols, in which those that mention a changed name are replaced by unknown.
pub(crate) fn mark_all(
    alloc: Global,
    changed: &[NameSet],
    symbols: &[Sym],
) -> Result<Vec<Sym>, AllocError>
    ensures { IfOk result (λ v. v.items ≡ map (marked changed.now) symbols.now) }
{
    let mut found = Vec::new(alloc);
    for symbol in symbols {
        found.push(mark(changed, symbol)?)?;
    }
    Ok(found)
}

/// The case after a change of names, which are then not kept.
#[inline(always)]
pub(crate) fn changed_case(
    alloc: Global,
    names: &[NameSet],
    mut case: Case,
) -> Result<Case, AllocError>
    ensures { IfOk result (λ c. c ≡ without_kept names.now case) }
{
    take_out(alloc, names, &mut case.kept)?;
    Ok(case)
}

/// The state after a change of names: they are not kept, and captured symbols that mention them are unknown. It checks nothing:
/// [`change`] does.
#[inline(always)]
pub fn change_unchecked(alloc: Global, names: &[NameSet], state: State) -> Result<State, AllocError>
    ensures { IfOk result (λ s. s ≡ changed_state names.now state) }
{
    let State { case, captured } = state;
    Ok(State {
        case: changed_case(alloc, names, case)?,
        captured: List::of(mark_all(alloc, names, captured.as_slice())?),
    })
}

fn all_may_change(scope: &Scope, state: &State, names: &[NameSet]) -> bool
    ensures { result ≡ list_all (may_change state.now.case.own (scope_of scope.now).summary.mods) names.now }
{
    let own = state.case.own.as_slice();
    let mods = scope.block.summary.mods.as_slice();
    names.iter().all(|set| may_change(own, mods, set))
}

/// The fault of a change of names, or `None`. Allocates nothing.
pub(crate) fn change_fault(scope: &Scope, names: &[NameSet], state: &State) -> Option<Code>
    ensures { result ≡ change_fault (scope_of scope.now) names.now state.now }
{
    if mention_any(names, state.case.held.as_slice()) {
        return Some(Code::Pinned);
    }
    if !all_may_change(scope, state, names) {
        return Some(Code::SummaryShort);
    }
    None
}

/// Whether `names` may change in a state, so that [`change`] is not refused. Allocates nothing.
pub fn is_allowed(scope: &Scope, names: &[NameSet], state: &State) -> bool
    ensures { result ≡ is_none (change_fault (scope_of scope.now) names.now state.now) }
{
    change_fault(scope, names, state).is_none()
}

/// [`change_unchecked`], in place.
pub fn change_in_place(
    alloc: Global,
    names: &[NameSet],
    state: &mut State,
) -> Result<(), AllocError>
    ensures { OnOk result (state.new ≡ changed_state names.now state.old) }
{
    take_out(alloc, names, &mut state.case.kept)?;
    let Some(_) = state.captured.as_slice().split_first() else {
        return Ok(());
    };
    let symbols = mark_all(alloc, names, state.captured.as_slice())?;
    state.captured = List::of(symbols);
    Ok(())
}

/// The effect of a change of names on a state. Refused by the first of: a held term mentions one of them (705); one is neither
/// own nor in the walked entry's summary (712).
pub fn change(
    alloc: Global,
    scope: &Scope,
    names: &[NameSet],
    state: State,
) -> Result<State, Failure<RefusedState>>
    ensures { AnswersOf state (λ s. s) result (change (scope_of scope.now) names.now state) }
{
    if let Some(code) = change_fault(scope, names, &state) {
        return Err(Failure::Refused(RefusedState { code, state }));
    }
    Ok(change_unchecked(alloc, names, state)?)
}

/// Those of `names` that the walked entry's summary would have to list as changed, since they are neither listed there nor own:
/// the correction for a 712 of a change.
pub fn short_names(
    alloc: Global,
    scope: &Scope,
    names: &[NameSet],
    state: &State,
) -> Result<Vec<NameSet>, AllocError>
    ensures { IfOk result (λ v. v.items ≡ short_names (scope_of scope.now) names.now state.now) }
{
    let own = state.case.own.as_slice();
    let mods = scope.block.summary.mods.as_slice();
    let mut short = Vec::new(alloc);
    for set in names {
        if !may_change(own, mods, set) {
            short.push(copy_of(set)?)?;
        }
    }
    Ok(short)
}
