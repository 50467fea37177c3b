// Corrections for a refused call.

ghost use Rattle.std.specs.Prelude.{◌≡◌, IfOk, Some, option_copied};
ghost use Rattle.mlk_syntax.specs.ExprTrees.{actual_trees};
ghost use Rattle.mlk_walk_state.specs.Scope.{scope_of};
ghost use Rattle.mlk_calls.specs.Calls.{called_of, callee_summary, changes_by, missing_by, missing_need};

use crate::call::{KnownCallee, all_given, changes, known_callee, lent_names, put_terms};
use mlk_cert_parts::{NameSet, Summary};
use mlk_names::{LockTerm, Sym};
use mlk_syntax::{Actual, Callee};
use mlk_walk_state::{Scope, State, copy_terms, first_missing, last_of};
use std::alloc::{AllocError, Global};

/// The summary of the callee, or `None` without a certificate. Its least rank, and whether it may release all locks, are the
/// correction for a 712 of a call. Allocates nothing.
pub fn callee_summary<'a>(scope: &Scope<'a>, callee: &Callee) -> Option<&'a Summary>
    ensures { option_copied result ≡ callee_summary (scope_of scope.now) callee.now }
{
    let target = known_callee(scope, callee)?;
    Some(target.summary)
}

/// The names that a call with the actual list `given` may change, by the callee's summary or by reference; empty without a
/// certificate.
pub fn call_changes(
    alloc: Global,
    scope: &Scope,
    callee: &Callee,
    given: &[Actual],
) -> Result<Vec<NameSet>, AllocError>
    ensures { IfOk result (λ v. v.items
        ≡ changes_by (callee_summary (scope_of scope.now) callee.now) (actual_trees given.now)) }
{
    match callee_summary(scope, callee) {
        None => Ok(Vec::new(alloc)),
        Some(summary) => changes(alloc, summary.mods.as_slice(), lent_names(alloc, given)?),
    }
}

fn missing_of(
    alloc: Global,
    target: &KnownCallee,
    actuals: &[Sym],
    held: &[LockTerm],
) -> Result<Option<LockTerm>, AllocError>
    ensures { IfOk result (λ t. t ≡ missing_by (Some (called_of target.now)) actuals.now held.now) }
{
    let given = all_given(alloc, actuals)?;
    let need = target.summary.need.as_slice();
    match put_terms(alloc, target.formals, given.as_slice(), need)? {
        None => Ok(None),
        Some(needs) => first_missing(copy_terms(alloc, held)?, needs.as_slice()),
    }
}

/// The first of a callee's needs, translated by the actuals, that a state does not hold: the correction for a 711. `None` if a
/// need would have an unknown subscript.
pub fn missing_need(
    alloc: Global,
    scope: &Scope,
    callee: &Callee,
    given: &[Actual],
    state: &State,
) -> Result<Option<LockTerm>, AllocError>
    ensures { IfOk result
        (λ t. t ≡ missing_need (scope_of scope.now) callee.now (actual_trees given.now) state.now) }
{
    let actuals = last_of(state.captured.as_slice(), given.len());
    match known_callee(scope, callee) {
        None => Ok(None),
        Some(target) => missing_of(alloc, &target, actuals, state.case.held.as_slice()),
    }
}
