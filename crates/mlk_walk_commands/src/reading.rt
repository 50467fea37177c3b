// READ, MERGE and WRITE.

ghost use Rattle.std.specs.Prelude.{◌≡◌, OnOk, option_map, option_copied};
ghost use Rattle.mlk_syntax.specs.ExprTrees.{tree_of};
ghost use Rattle.mlk_syntax.specs.Views.{variable_of, read_of, merge_of, write_of};
ghost use Rattle.mlk_walk_state.specs.declared.state.State.{State};
ghost use Rattle.mlk_walk_exprs.specs.Spots.{spot_of};
ghost use Rattle.mlk_walk_exprs.specs.Walks.{Outcome};
ghost use Rattle.mlk_walk_commands.specs.Arguments.{in_time_or_not, read_row, read_variable, read_argument};
ghost use Rattle.mlk_walk_commands.specs.Arguments.{merge_from, merge_argument, write_argument};

use crate::kill::Kill;
use crate::{capture_variable, change_local, count_of};
use mlk_calls::State;
use mlk_cert_parts::Test;
use mlk_names::{Access, Extent};
use mlk_syntax::{Expr, MergeArgument, ReadArgument, Variable, WriteArgument};
use mlk_walk_exprs::{Spot, Touch, TouchLast, Transfer, Walk, apply_to_states, value, value_if};
use std::alloc::AllocError;

// The end of a READ: with a timeout there is a state in which `$TEST` is 1, and one in which it is 0.
#[derive(Clone, Copy, Drop)]
struct InTime<'a> {
    timeout: Option<&'a Expr>,
}

impl<'a> Transfer for InTime<'a> {
    ghost outcomes = { λ r s. in_time_or_not (option_map tree_of (option_copied r.timeout)) s };

    // Adds the state, or with a timeout both states.
    fn make(&self, state: State, walk: &mut Walk) -> Result<(), AllocError> {
        match self.timeout {
            None => walk.add_live(state),
            Some(_) => {
                let other = state.copy()?;
                walk.add_live(other.with_test(Test::One))?;
                walk.add_live(state.with_test(Test::Zero))
            }
        }
    }
}

// The READ into a local whose subscripts were captured last.
#[derive(Clone, Copy, Drop)]
struct Read<'a> {
    spot: &'a Spot<'a>,
    variable: &'a Variable,
}

impl<'a> Transfer for Read<'a> {
    ghost outcomes = { λ r s. read_row (spot_of r.spot.now) (variable_of r.variable.now) s };

    // Adds the states in which the local has another value.
    #[tactic(auto, using(mlk_syntax::proofs::TreeLists::counted, crate::proofs::Opened::local_read))]
    fn make(&self, state: State, walk: &mut Walk) -> Result<(), AllocError> {
        let Expr::Local(name, subscripts) = &self.variable.name else {
            return walk.add_live(state);
        };
        let state = state.without_last(subscripts.len());
        change_local(
            self.spot,
            self.variable.column,
            name,
            subscripts,
            state,
            walk,
        )
    }
}

fn read_variable<'a>(
    spot: &'a Spot<'a>,
    variable: &'a Variable,
    most: Option<&'a Expr>,
    timeout: Option<&'a Expr>,
    walk: &mut Walk,
) -> Result<(), AllocError>
    ensures { OnOk result (walk.new ≡ read_variable (spot_of spot.now) (variable_of variable.now)
        (option_map tree_of (option_copied most.entry)) (option_map tree_of (option_copied timeout.entry)) walk.old) }
{
    capture_variable(spot, variable, walk)?;
    value_if(spot, most, walk)?;
    value_if(spot, timeout, walk)?;
    apply_to_states(spot.alloc, &Read { spot, variable }, walk)?;
    apply_to_states(spot.alloc, &InTime { timeout }, walk)
}

/// READ: evaluates the subscripts, the length and the timeout; then the local changes, and with a timeout `$TEST` is 1 or 0.
pub fn read_argument<'a>(
    spot: &'a Spot<'a>,
    argument: &'a ReadArgument,
    walk: &mut Walk,
) -> Result<(), AllocError>
    ensures { OnOk result (walk.new ≡ read_argument (spot_of spot.now) (read_of argument.now) walk.old) }
{
    match argument {
        ReadArgument::Text(_) => Ok(()),
        ReadArgument::Format(tab) => value_if(spot, tab.as_ref(), walk),
        ReadArgument::Line(variable, most, timeout) => {
            read_variable(spot, variable, most.as_ref(), timeout.as_ref(), walk)
        }
        ReadArgument::Character(variable, timeout) => {
            read_variable(spot, variable, None, timeout.as_ref(), walk)
        }
    }
}

// The read of a variable's tree, whose subscripts were captured last.
#[derive(Clone, Copy, Drop)]
struct ReadTree<'a> {
    spot: &'a Spot<'a>,
    variable: &'a Variable,
}

impl<'a> Transfer for ReadTree<'a> {
    ghost outcomes = { λ r s. merge_from (spot_of r.spot.now) (variable_of r.variable.now) s };

    // Adds the states after a global is read; a local is read without effect.
    #[tactic(auto, using(mlk_syntax::proofs::TreeLists::counted, crate::proofs::Opened::local_merged, crate::proofs::Opened::global_merged))]
    fn make(&self, state: State, walk: &mut Walk) -> Result<(), AllocError> {
        match &self.variable.name {
            Expr::Global(column, name, subscripts) => {
                let touch = Touch {
                    extent: Extent::Tree,
                    access: Access::Reads,
                    column: *column,
                    name,
                };
                let transfer = TouchLast {
                    spot: self.spot,
                    touch,
                    count: subscripts.len(),
                };
                transfer.make(state, walk)
            }
            _ => walk.add_live(state.without_last(count_of(self.variable))),
        }
    }
}

/// MERGE: evaluates the subscripts of both sides; then it reads the right tree and writes the left one.
pub fn merge_argument<'a>(
    spot: &'a Spot<'a>,
    argument: &'a MergeArgument,
    walk: &mut Walk,
) -> Result<(), AllocError>
    ensures { OnOk result (walk.new ≡ merge_argument (spot_of spot.now) (merge_of argument.now) walk.old) }
{
    let target = &argument.target;
    let source = &argument.source;
    capture_variable(spot, target, walk)?;
    capture_variable(spot, source, walk)?;
    let reads = ReadTree {
        spot,
        variable: source,
    };
    let writes = Kill {
        spot,
        variable: target,
    };
    apply_to_states(spot.alloc, &reads, walk)?;
    apply_to_states(spot.alloc, &writes, walk)
}

/// WRITE: evaluates its expressions.
pub fn write_argument<'a>(
    spot: &'a Spot<'a>,
    argument: &'a WriteArgument,
    walk: &mut Walk,
) -> Result<(), AllocError>
    ensures { OnOk result (walk.new ≡ write_argument (spot_of spot.now) (write_of argument.now) walk.old) }
{
    match argument {
        WriteArgument::Value(expression) => value(spot, expression, walk),
        WriteArgument::Character(expression) => value(spot, expression, walk),
        WriteArgument::Format(tab) => value_if(spot, tab.as_ref(), walk),
    }
}
