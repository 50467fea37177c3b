// Variables in arguments of commands, and changes of locals.

ghost use Rattle.std.specs.Prelude.{◌≡◌, ◌∷◌, [], OnOk, is_none};
ghost use Rattle.std.specs.List.{list_all};
ghost use Rattle.mlk_syntax.specs.ExprTrees.{sub_trees, subs_from};
ghost use Rattle.mlk_syntax.specs.Views.{variable_of};
ghost use Rattle.mlk_walk_state.specs.declared.state.State.{State};
ghost use Rattle.mlk_calls.specs.Changes.{change, change_fault, changed_state};
ghost use Rattle.mlk_walk_state.specs.Refusals.{AnswersOf};
ghost use Rattle.mlk_walk_exprs.specs.Spots.{spot_of};
ghost use Rattle.mlk_walk_exprs.specs.Walks.{Outcome, add_all, each, each_changed};
ghost use Rattle.mlk_walk_commands.specs.Variables.{subs_of, name_in, count_in, capture_variable, change_at, change_local};

use mlk_calls::{RefusedState, State, change, change_in_place, is_allowed, short_names};
use mlk_cert_parts::NameSet;
use mlk_syntax::{Expr, Subscript, Variable};
use mlk_text::{Code, Column, Failure, Name};
use mlk_walk_exprs::{Mend, Note, Spot, Transfer, Walk, apply_to_states, capture_subs};
use std::alloc::AllocError;
use std::slice;

/// The subscripts of a variable; empty unless it is a local or a global.
#[tactic(auto, using(crate::proofs::OpenedVariables::local_subs, crate::proofs::OpenedVariables::global_subs))]
pub fn subscripts_of(variable: &Variable) -> &[Subscript]
    ensures { subs_from (sub_trees result.now) ≡ subs_of (name_in (variable_of variable.now)) }
{
    match &variable.name {
        Expr::Local(_, subscripts) => subscripts.as_slice(),
        Expr::Global(_, _, subscripts) => subscripts.as_slice(),
        _ => &[],
    }
}

/// The number of subscripts of a variable.
#[tactic(auto, using(mlk_syntax::proofs::TreeLists::counted))]
pub fn count_of(variable: &Variable) -> usize
    ensures { result ≡ count_in (variable_of variable.now) }
{
    subscripts_of(variable).len()
}

/// Evaluates the subscripts of a variable.
pub fn capture_variable<'a>(
    spot: &'a Spot<'a>,
    variable: &'a Variable,
    walk: &mut Walk,
) -> Result<(), AllocError>
    ensures { OnOk result (walk.new ≡ capture_variable (spot_of spot.now) (variable_of variable.now) walk.old) }
{
    capture_subs(spot, subscripts_of(variable), walk)
}

/// A change of names, at a column.
#[derive(Clone, Copy, Drop)]
pub struct Change<'a> {
    pub spot: &'a Spot<'a>,
    pub column: Column,
    pub names: &'a NameSet,
}

impl<'a> Change<'a> {
    // The correction of a refused change: the summary must list the names.
    fn mend(&self, refusal: &RefusedState) -> Result<Mend, AllocError> {
        let spot = self.spot;
        match refusal.code {
            Code::SummaryShort => {
                let names = slice::from_ref(self.names);
                let short = short_names(spot.alloc, spot.scope, names, &refusal.state)?;
                Ok(Mend::Changes(short))
            }
            _ => Ok(Mend::Nothing),
        }
    }

    fn changed(&self, state: State) -> Result<State, Failure<RefusedState>>
        ensures { AnswersOf state (λ s. s) result
            (change (spot_of self.now.spot.now).scope (self.now.names.now ∷ []) state) }
    {
        let names = slice::from_ref(self.names);
        change(self.spot.alloc, self.spot.scope, names, state)
    }

    // Whether the change is allowed in each of `states`.
    fn is_allowed(&self, states: &[State]) -> bool
        ensures { result ≡ list_all (λ s. is_none (change_fault (spot_of self.now.spot.now).scope
            (self.now.names.now ∷ []) s)) states.now }
    {
        let names = slice::from_ref(self.names);
        states
            .iter()
            .all(|state| is_allowed(self.spot.scope, names, state))
    }

    // Applies the change to each live state, all of which allow it.
    fn make_in_place(&self, walk: &mut Walk) -> Result<(), AllocError>
        ensures { OnOk result (walk.new ≡ each_changed (changed_state (self.now.names.now ∷ [])) walk.old) }
    {
        let alloc = self.spot.alloc;
        let names = slice::from_ref(self.names);
        let mut states = walk.take_going(alloc).into_vec();
        for state in states.iter_mut() {
            change_in_place(alloc, names, state)?;
        }
        walk.resume(alloc, states)
    }

    /// Applies the change to each live state. Usually all allow it, and then no state is moved.
    pub fn make_in_each(&self, walk: &mut Walk) -> Result<(), AllocError>
        ensures { OnOk result (walk.new
            ≡ each (change_at (spot_of self.now.spot.now) self.now.column self.now.names.now) walk.old) }
    {
        if self.is_allowed(walk.going.as_slice()) {
            return self.make_in_place(walk);
        }
        apply_to_states(self.spot.alloc, self, walk)
    }
}

impl<'a> Transfer for Change<'a> {
    ghost outcomes = { λ r s. change_at (spot_of r.spot.now) r.column r.names.now s };

    fn make(&self, state: State, walk: &mut Walk) -> Result<(), AllocError> {
        match self.changed(state) {
            Ok(state) => walk.add_live(state),
            Err(Failure::OutOfMemory) => Err(AllocError),
            Err(Failure::Refused(refusal)) => {
                let mend = self.mend(&refusal)?;
                let note = Note::in_case(mend, &refusal.state.case)?;
                walk.refuse(self.spot.line, self.column, refusal.code, note)
            }
        }
    }
}

/// Applies a change of `names`, at `column`.
pub fn change_all<'a>(
    spot: &'a Spot<'a>,
    column: Column,
    names: &'a NameSet,
    walk: &mut Walk,
) -> Result<(), AllocError>
    ensures { OnOk result (walk.new ≡ each (change_at (spot_of spot.now) column names.now) walk.old) }
{
    let change = Change {
        spot,
        column,
        names,
    };
    change.make_in_each(walk)
}

/// Applies a change of a local to each live state; with subscripts it changes nothing that is known.
pub fn change_locals<'a>(
    spot: &'a Spot<'a>,
    column: Column,
    name: &Name,
    subscripts: &[Subscript],
    walk: &mut Walk,
) -> Result<(), AllocError>
    ensures { OnOk result (walk.new ≡ each (change_local (spot_of spot.now) column name.now
        (subs_from (sub_trees subscripts.now))) walk.old) }
{
    if let Some(_) = subscripts.split_first() {
        return walk.remove_duplicates(spot.alloc);
    }
    let names = NameSet::Only(name.copy()?);
    let change = Change {
        spot,
        column,
        names: &names,
    };
    change.make_in_each(walk)
}

/// Applies a change of a local to a state; with subscripts it changes nothing that is known.
pub fn change_local(
    spot: &Spot,
    column: Column,
    name: &Name,
    subscripts: &[Subscript],
    state: State,
    walk: &mut Walk,
) -> Result<(), AllocError>
    ensures { OnOk result (walk.new ≡ add_all (change_local (spot_of spot.now) column name.now
        (subs_from (sub_trees subscripts.now)) state) walk.old) }
{
    if let Some(_) = subscripts.split_first() {
        return walk.add_live(state);
    }
    let names = NameSet::Only(name.copy()?);
    let transfer = Change {
        spot,
        column,
        names: &names,
    };
    transfer.make(state, walk)
}
