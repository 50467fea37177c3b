// SET.

ghost use Rattle.std.specs.Prelude.{◌≡◌, IfOk, OnOk, is_none, map};
ghost use Rattle.std.specs.List.{list_all};
ghost use Rattle.mlk_syntax.specs.ExprTrees.{trees};
ghost use Rattle.mlk_syntax.specs.Views.{variable_of, target_of, set_of};
ghost use Rattle.mlk_names.specs.declared.reference.Extent.TheVariants as extent;
ghost use Rattle.mlk_walk_state.specs.declared.state.State.{State};
ghost use Rattle.mlk_walk_exprs.specs.Spots.{spot_of};
ghost use Rattle.mlk_walk_exprs.specs.Walks.{Outcome, each};
ghost use Rattle.mlk_walk_exprs.specs.References.{checked, touch};
ghost use Rattle.mlk_walk_commands.specs.Arguments.{variable_in, arguments_in, capture_targets};
ghost use Rattle.mlk_walk_commands.specs.Arguments.{symbols_at, read_part, read_target, write_variable};
ghost use Rattle.mlk_walk_commands.specs.Arguments.{assign, assign_all, count_targets, set_argument};

use crate::{capture_variable, change_local, change_locals, count_of};
use mlk_calls::State;
use mlk_names::{Access, Extent, Sym};
use mlk_syntax::{Expr, SetArgument, Target, Variable};
use mlk_walk_exprs::{
    Spot, Touch, Transfer, Walk, apply_to_states, covered_or, forget_captured, value, values,
};
use std::alloc::AllocError;

fn variable_in(target: &Target) -> &Variable
    ensures { variable_of result.now ≡ variable_in (target_of target.now) }
{
    match target {
        Target::Whole(variable) => variable,
        Target::Part(_, variable, _) => variable,
    }
}

fn arguments_in(target: &Target) -> &[Expr]
    ensures { trees result.now ≡ arguments_in (target_of target.now) }
{
    match target {
        Target::Whole(_) => &[],
        Target::Part(_, _, arguments) => arguments.as_slice(),
    }
}

// Evaluates the subscripts of each target, and the further arguments of `$PIECE` and `$EXTRACT`, where they are written.
fn capture_targets<'a>(
    spot: &'a Spot<'a>,
    targets: &'a [Target],
    walk: &mut Walk,
) -> Result<(), AllocError>
    ensures { OnOk result (walk.new ≡ capture_targets (spot_of spot.now) (map target_of targets.now) walk.old) }
{
    for target in targets {
        capture_variable(spot, variable_in(target), walk)?;
        values(spot, arguments_in(target), walk)?;
    }
    Ok(())
}

// `count` captured symbols after the first `from`, or as many as there are.
fn symbols_at(state: &State, from: usize, count: usize) -> &[Sym]
    ensures { result.now ≡ symbols_at from count state.now }
{
    let captured = state.captured.as_slice();
    let (_, after) = captured.split_at(from.min(captured.len()));
    let (symbols, _) = after.split_at(count.min(after.len()));
    symbols
}

// A touch of the node whose `count` subscripts were captured after the first `from` symbols.
#[derive(Clone, Copy, Drop)]
struct TouchAt<'a> {
    spot: &'a Spot<'a>,
    touch: Touch<'a>,
    from: usize,
    count: usize,
}

impl<'a> TouchAt<'a> {
    // Whether the touch is covered in `state`. Allocates nothing.
    fn is_covered(&self, state: &State) -> bool
        ensures { result ≡ is_none (checked (spot_of self.now.spot.now) self.now.touch.extent self.now.touch.access
            self.now.touch.name.now (symbols_at self.now.from self.now.count state.now) state.now) }
    {
        let symbols = symbols_at(state, self.from, self.count);
        self.touch.is_covered(self.spot, symbols, state)
    }

    fn are_covered(&self, states: &[State]) -> bool
        ensures { result ≡ list_all (λ s. is_none (checked (spot_of self.now.spot.now) self.now.touch.extent
            self.now.touch.access self.now.touch.name.now (symbols_at self.now.from self.now.count s) s)) states.now }
    {
        states.iter().all(|state| self.is_covered(state))
    }

    // Applies the touch to each live state. Usually it is covered in all of them, and then no state is moved.
    fn make_in_each(&self, walk: &mut Walk) -> Result<(), AllocError>
        ensures { OnOk result (walk.new ≡ each (λ s. touch (spot_of self.now.spot.now) self.now.touch.extent
            self.now.touch.access self.now.touch.column self.now.touch.name.now
            (symbols_at self.now.from self.now.count s) s) walk.old) }
    {
        if self.are_covered(walk.going.as_slice()) {
            return walk.remove_duplicates(self.spot.alloc);
        }
        apply_to_states(self.spot.alloc, self, walk)
    }
}

impl<'a> Transfer for TouchAt<'a> {
    ghost outcomes = { λ r s. touch (spot_of r.spot.now) r.touch.extent r.touch.access r.touch.column
        r.touch.name.now (symbols_at r.from r.count s) s };

    fn make(&self, state: State, walk: &mut Walk) -> Result<(), AllocError> {
        let symbols = symbols_at(&state, self.from, self.count);
        let fault = self.touch.fault(self.spot, symbols, &state)?;
        covered_or(self.spot, self.touch.column, fault, state, walk)
    }
}

// The read of a global, a part of which is then assigned.
#[derive(Clone, Copy, Drop)]
struct ReadPart<'a> {
    spot: &'a Spot<'a>,
    from: usize,
    variable: &'a Variable,
}

impl<'a> Transfer for ReadPart<'a> {
    ghost outcomes = { λ r s. read_part (spot_of r.spot.now) r.from (variable_of r.variable.now) s };

    fn make(&self, state: State, walk: &mut Walk) -> Result<(), AllocError> {
        let spot = self.spot;
        match &self.variable.name {
            Expr::Global(column, name, subscripts) => {
                let touch = Touch {
                    extent: Extent::Node,
                    access: Access::Reads,
                    column: *column,
                    name,
                };
                let transfer = TouchAt {
                    spot,
                    touch,
                    from: self.from,
                    count: subscripts.len(),
                };
                transfer.make(state, walk)
            }
            _ => walk.add_live(state),
        }
    }
}

fn read_target<'a>(
    spot: &'a Spot<'a>,
    from: usize,
    target: &'a Target,
    walk: &mut Walk,
) -> Result<(), AllocError>
    ensures { OnOk result (walk.new ≡ read_target (spot_of spot.now) from (target_of target.now) walk.old) }
{
    match target {
        Target::Whole(_) => Ok(()),
        Target::Part(_, variable, _) => {
            let transfer = ReadPart {
                spot,
                from,
                variable,
            };
            apply_to_states(spot.alloc, &transfer, walk)
        }
    }
}

// The assignment of a variable whose subscripts were captured after the first `from` symbols.
#[derive(Clone, Copy, Drop)]
struct Write<'a> {
    spot: &'a Spot<'a>,
    from: usize,
    variable: &'a Variable,
}

impl<'a> Transfer for Write<'a> {
    ghost outcomes = { λ r s. write_variable (spot_of r.spot.now) r.from (variable_of r.variable.now) s };

    #[tactic(auto, using(mlk_syntax::proofs::TreeLists::counted, crate::proofs::Opened::local_written, crate::proofs::Opened::global_written))]
    fn make(&self, state: State, walk: &mut Walk) -> Result<(), AllocError> {
        let spot = self.spot;
        match &self.variable.name {
            Expr::Global(column, name, subscripts) => {
                let touch = Touch {
                    extent: Extent::Node,
                    access: Access::Writes,
                    column: *column,
                    name,
                };
                let transfer = TouchAt {
                    spot,
                    touch,
                    from: self.from,
                    count: subscripts.len(),
                };
                transfer.make(state, walk)
            }
            Expr::Local(name, subscripts) => {
                change_local(spot, self.variable.column, name, subscripts, state, walk)
            }
            _ => walk.add_live(state),
        }
    }
}

// Applies the assignment to each live state. No state is moved if each may write the node or change the local.
#[tactic(auto, using(crate::proofs::Written::local_written))]
fn write_in_each<'a>(
    spot: &'a Spot<'a>,
    from: usize,
    variable: &'a Variable,
    walk: &mut Walk,
) -> Result<(), AllocError>
    ensures { OnOk result (walk.new
        ≡ each (write_variable (spot_of spot.now) from (variable_of variable.now)) walk.old) }
{
    match &variable.name {
        Expr::Global(column, name, subscripts) => {
            let touch = Touch {
                extent: Extent::Node,
                access: Access::Writes,
                column: *column,
                name,
            };
            let transfer = TouchAt {
                spot,
                touch,
                from,
                count: subscripts.len(),
            };
            transfer.make_in_each(walk)
        }
        Expr::Local(name, subscripts) => {
            change_locals(spot, variable.column, name, subscripts, walk)
        }
        _ => {
            let transfer = Write {
                spot,
                from,
                variable,
            };
            apply_to_states(spot.alloc, &transfer, walk)
        }
    }
}

fn assign<'a>(
    spot: &'a Spot<'a>,
    from: usize,
    target: &'a Target,
    walk: &mut Walk,
) -> Result<(), AllocError>
    ensures { OnOk result (walk.new ≡ assign (spot_of spot.now) from (target_of target.now) walk.old) }
{
    read_target(spot, from, target, walk)?;
    write_in_each(spot, from, variable_in(target), walk)
}

// Assigns the targets one after another, and returns how many symbols were captured for them, a number that memory bounds.
fn assign_all<'a>(
    spot: &'a Spot<'a>,
    targets: &'a [Target],
    walk: &mut Walk,
) -> Result<usize, AllocError>
    ensures walk { OnOk result (walk.new ≡ assign_all (spot_of spot.now) 0 (map target_of targets.now) walk.old) }
    ensures count { IfOk result (λ n. n ≡ count_targets (map target_of targets.now)) }
{
    let mut from: usize = 0;
    for target in targets {
        assign(spot, from, target, walk)?;
        let Some(next) = from.checked_add(count_of(variable_in(target))) else {
            return Err(AllocError);
        };
        from = next;
    }
    Ok(from)
}

/// SET: evaluates the subscripts of all targets, then the value, then assigns the targets one after another.
pub fn set_argument<'a>(
    spot: &'a Spot<'a>,
    argument: &'a SetArgument,
    walk: &mut Walk,
) -> Result<(), AllocError>
    ensures { OnOk result (walk.new ≡ set_argument (spot_of spot.now) (set_of argument.now) walk.old) }
{
    capture_targets(spot, argument.targets.as_slice(), walk)?;
    value(spot, &argument.value, walk)?;
    let count = assign_all(spot, argument.targets.as_slice(), walk)?;
    forget_captured(spot.alloc, count, walk)
}
