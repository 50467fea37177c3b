// NEW.

ghost use Rattle.std.specs.Prelude.{◌≡◌, IfOk, OnOk};
ghost use Rattle.mlk_syntax.specs.Views.{new_of};
ghost use Rattle.mlk_walk_state.specs.declared.state.State.{State};
ghost use Rattle.mlk_walk_state.specs.Refusals.{AnswersOf};
ghost use Rattle.mlk_walk_exprs.specs.Spots.{spot_of};
ghost use Rattle.mlk_walk_exprs.specs.Walks.{Outcome, each};
ghost use Rattle.mlk_walk_commands.specs.News.{renewed, with_own, renew};
ghost use Rattle.mlk_walk_commands.specs.Arguments.{new_all_but, new_argument};

use crate::put_own;
use mlk_calls::{RefusedState, State, change_unchecked, in_order, mention_any};
use mlk_cert_parts::{NameSet, Own, Shared};
use mlk_syntax::NewArgument;
use mlk_text::{Code, Column, Failure, List, Name, copy_of};
use mlk_walk_exprs::{Mend, Note, Spot, Transfer, Walk, apply_to_states};
use std::alloc::{AllocError, Global};

// The state after NEW of `names`: refused if a held term mentions one of them. The summary need not list these changes.
fn renew_in_state(
    alloc: Global,
    names: &[NameSet],
    state: State,
) -> Result<State, Failure<RefusedState>>
    ensures { AnswersOf state (λ s. s) result (renewed names.now state) }
{
    if mention_any(names, state.case.held.as_slice()) {
        return Err(Failure::Refused(RefusedState {
            code: Code::Pinned,
            state,
        }));
    }
    Ok(change_unchecked(alloc, names, state)?)
}

fn with_own(alloc: Global, item: Own, state: State) -> Result<State, AllocError>
    ensures { IfOk result (λ s. s ≡ with_own item state) }
{
    let mut state = state;
    let own = put_own(alloc, state.case.own.as_slice(), item)?;
    state.case.own = Shared::new(alloc, own)?;
    Ok(state)
}

// The NEW of names, at a column.
#[derive(Clone, Copy, Drop)]
struct Renewal<'a> {
    spot: &'a Spot<'a>,
    column: Column,
    names: &'a NameSet,
}

impl<'a> Transfer for Renewal<'a> {
    ghost outcomes = { λ r s. renew (spot_of r.spot.now) r.column r.names.now s };

    fn make(&self, state: State, walk: &mut Walk) -> Result<(), AllocError> {
        let spot = self.spot;
        let names = [copy_of(self.names)?];
        match renew_in_state(spot.alloc, &names, state) {
            Ok(state) => {
                let item = Own {
                    level: spot.level,
                    names: copy_of(self.names)?,
                };
                let state = with_own(spot.alloc, item, state)?;
                walk.add_live(state)
            }
            Err(Failure::OutOfMemory) => Err(AllocError),
            Err(Failure::Refused(refusal)) => {
                let note = Note::in_case(Mend::Nothing, &refusal.state.case)?;
                walk.refuse(spot.line, self.column, refusal.code, note)
            }
        }
    }
}

fn renew<'a>(
    spot: &'a Spot<'a>,
    column: Column,
    names: &'a NameSet,
    walk: &mut Walk,
) -> Result<(), AllocError>
    ensures { OnOk result (walk.new ≡ each (renew (spot_of spot.now) column names.now) walk.old) }
{
    let transfer = Renewal {
        spot,
        column,
        names,
    };
    apply_to_states(spot.alloc, &transfer, walk)
}

/// The NEW of all locals except `names`, at the column of the word.
pub fn new_all_but<'a>(
    spot: &'a Spot<'a>,
    names: &'a List<Name>,
    walk: &mut Walk,
) -> Result<(), AllocError>
    ensures { OnOk result (walk.new ≡ new_all_but (spot_of spot.now) names.now walk.old) }
{
    let others = NameSet::AllBut(in_order(spot.alloc, names.as_slice())?);
    renew(spot, spot.word, &others, walk)
}

/// NEW of one name, or of all but some, at the column of the word.
pub fn new_argument<'a>(
    spot: &'a Spot<'a>,
    argument: &'a NewArgument,
    walk: &mut Walk,
) -> Result<(), AllocError>
    ensures { OnOk result (walk.new ≡ new_argument (spot_of spot.now) (new_of argument.now) walk.old) }
{
    match argument {
        NewArgument::One(column, name) => {
            let names = NameSet::Only(name.copy()?);
            renew(spot, *column, &names, walk)
        }
        NewArgument::AllBut(names) => new_all_but(spot, names, walk),
    }
}
