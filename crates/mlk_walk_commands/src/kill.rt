// KILL.

ghost use Rattle.std.specs.Prelude.{◌≡◌, OnOk};
ghost use Rattle.mlk_syntax.specs.Views.{variable_of, kill_of};
ghost use Rattle.mlk_walk_state.specs.declared.state.State.{State};
ghost use Rattle.mlk_walk_exprs.specs.Spots.{spot_of};
ghost use Rattle.mlk_walk_exprs.specs.Walks.{Outcome};
ghost use Rattle.mlk_walk_commands.specs.Arguments.{kill_row, kill_all_but, kill_argument};

use crate::{capture_variable, change_all, change_local};
use mlk_calls::{State, in_order};
use mlk_cert_parts::NameSet;
use mlk_names::{Access, Extent};
use mlk_syntax::{Expr, KillArgument, Variable};
use mlk_text::{List, Name};
use mlk_walk_exprs::{Spot, Touch, TouchLast, Transfer, Walk, apply_to_states};
use std::alloc::AllocError;

/// The KILL of a variable whose subscripts were captured last.
#[derive(Clone, Copy, Drop)]
pub(crate) struct Kill<'a> {
    pub(crate) spot: &'a Spot<'a>,
    pub(crate) variable: &'a Variable,
}

impl<'a> Transfer for Kill<'a> {
    ghost outcomes = { λ r s. kill_row (spot_of r.spot.now) (variable_of r.variable.now) s };

    #[tactic(auto, using(mlk_syntax::proofs::TreeLists::counted, crate::proofs::Opened::local_killed, crate::proofs::Opened::global_killed))]
    fn make(&self, state: State, walk: &mut Walk) -> Result<(), AllocError> {
        let spot = self.spot;
        match &self.variable.name {
            Expr::Global(column, name, subscripts) => {
                let touch = Touch {
                    extent: Extent::Tree,
                    access: Access::Writes,
                    column: *column,
                    name,
                };
                let transfer = TouchLast {
                    spot,
                    touch,
                    count: subscripts.len(),
                };
                transfer.make(state, walk)
            }
            Expr::Local(name, subscripts) => {
                let state = state.without_last(subscripts.len());
                change_local(spot, self.variable.column, name, subscripts, state, walk)
            }
            _ => walk.add_live(state),
        }
    }
}

/// The KILL of all locals except `names`, at the column of the word.
pub fn kill_all_but<'a>(
    spot: &'a Spot<'a>,
    names: &'a List<Name>,
    walk: &mut Walk,
) -> Result<(), AllocError>
    ensures { OnOk result (walk.new ≡ kill_all_but (spot_of spot.now) names.now walk.old) }
{
    let others = NameSet::AllBut(in_order(spot.alloc, names.as_slice())?);
    change_all(spot, spot.word, &others, walk)
}

/// KILL: evaluates the subscripts of a variable and kills it, or kills all locals but some.
pub fn kill_argument<'a>(
    spot: &'a Spot<'a>,
    argument: &'a KillArgument,
    walk: &mut Walk,
) -> Result<(), AllocError>
    ensures { OnOk result (walk.new ≡ kill_argument (spot_of spot.now) (kill_of argument.now) walk.old) }
{
    match argument {
        KillArgument::One(variable) => {
            capture_variable(spot, variable, walk)?;
            apply_to_states(spot.alloc, &Kill { spot, variable }, walk)
        }
        KillArgument::AllBut(names) => kill_all_but(spot, names, walk),
    }
}
