// Conditions: the states in which they may be true, and those in which they may be false.

ghost use Rattle.std.specs.Prelude.{◌≡◌, ◌++◌, [], IfOk, OnOk, true, false};
ghost use Rattle.mlk_syntax.specs.ExprTrees.{tree_of};
ghost use Rattle.mlk_walk_state.specs.Scope.{scope_of};
ghost use Rattle.mlk_walk_exprs.specs.Walks.{with_states, joins};
ghost use Rattle.mlk_walk_exprs.specs.Expressions.{where_it_may_be, if_agrees};
ghost use Rattle.mlk_walk_exprs.specs.Gathered.{gathered};

use crate::spot::Spot;
use crate::walk::{Walk, put_all};
use mlk_calls::{State, truth_of};
use mlk_syntax::Expr;
use mlk_text::List;
use std::alloc::{AllocError, Global};

/// The states in which a condition may be true, and those in which it may be false.
#[derive(Drop)]
pub struct Sides {
    pub holds: List<State>,
    pub fails: List<State>,
}

impl Sides {
    fn new(alloc: Global) -> Sides
        ensures holds { result.holds ≡ [] }
        ensures fails { result.fails ≡ [] }
    {
        Sides {
            holds: List::new(alloc),
            fails: List::new(alloc),
        }
    }

    // Adds `state`, in which the condition has the truth value `truth`, if it is known.
    fn add(&mut self, truth: Option<bool>, state: State) -> Result<(), AllocError>
        ensures holds { OnOk result (self.new.holds ≡ self.old.holds ++ if_agrees true truth state) }
        ensures fails { OnOk result (self.new.fails ≡ self.old.fails ++ if_agrees false truth state) }
    {
        match truth {
            Some(true) => self.holds.push(state),
            Some(false) => self.fails.push(state),
            None => {
                self.holds.push(state.copy()?)?;
                self.fails.push(state)
            }
        }
    }
}

/// Splits states by a condition that was evaluated; a state in which its value is unknown is on both sides.
pub fn split_by(spot: &Spot, condition: &Expr, states: List<State>) -> Result<Sides, AllocError>
    ensures { IfOk result (λ s. (s.holds ≡ where_it_may_be true (scope_of spot.now.scope.now) (tree_of condition.now) states)
        × (s.fails ≡ where_it_may_be false (scope_of spot.now.scope.now) (tree_of condition.now) states)) }
{
    let mut sides = Sides::new(spot.alloc);
    for state in states.into_vec() {
        let truth = truth_of(spot.alloc, spot.scope, &state, condition)?;
        sides.add(truth, state)?;
    }
    Ok(sides)
}

/// Keeps the live states in which a condition that was evaluated may be true, and returns those in which it may be false.
pub fn where_it_holds(
    spot: &Spot,
    condition: &Expr,
    walk: &mut Walk,
) -> Result<List<State>, AllocError>
    ensures holds { OnOk result (walk.new
        ≡ with_states (where_it_may_be true (scope_of spot.now.scope.now) (tree_of condition.now) walk.old.going) walk.old) }
    ensures fails { IfOk result (λ s. s ≡ where_it_may_be false (scope_of spot.now.scope.now) (tree_of condition.now) walk.old.going) }
{
    let going = walk.take_going(spot.alloc);
    let sides = split_by(spot, condition, going)?;
    walk.going = sides.holds;
    Ok(sides.fails)
}

// The waiting states and the live ones, in one list.
fn gather_states(waiting: Vec<List<State>>, going: List<State>) -> Result<List<State>, AllocError>
    ensures { IfOk result (λ all. all ≡ gathered waiting.items going) }
{
    let mut left = waiting.into_iter();
    let Some(mut all) = left.next() else {
        return Ok(going);
    };
    for states in left {
        all = put_all(all, states.into_vec())?;
    }
    put_all(all, going.into_vec())
}

/// Adds the waiting states to the live ones: those that waited longest come first.
pub fn join_all(alloc: Global, waiting: Vec<List<State>>, walk: &mut Walk) -> Result<(), AllocError>
    ensures { OnOk result (walk.new ≡ joins waiting.items walk.old) }
{
    if walk.over {
        return Ok(());
    }
    let going = walk.take_going(alloc);
    walk.going = gather_states(waiting, going)?;
    Ok(())
}
