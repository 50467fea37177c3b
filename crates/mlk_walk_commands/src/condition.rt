// IF.

ghost use Rattle.std.specs.Prelude.{◌≡◌, OnOk};
ghost use Rattle.mlk_syntax.specs.ExprTrees.{tree_of};
ghost use Rattle.mlk_walk_state.specs.declared.state.State.{State};
ghost use Rattle.mlk_walk_state.specs.Symbols.{truth_in};
ghost use Rattle.mlk_walk_exprs.specs.Spots.{spot_of};
ghost use Rattle.mlk_walk_exprs.specs.Walks.{Outcome};
ghost use Rattle.mlk_walk_commands.specs.Arguments.{if_outcomes, if_argument};

use mlk_calls::{State, truth_of};
use mlk_cert_parts::Test;
use mlk_syntax::Expr;
use mlk_walk_exprs::{Spot, Transfer, Walk, apply_to_states, value};
use std::alloc::AllocError;

// Sets `$TEST` to the truth of the condition; if it may be false, the rest of the line is skipped.
#[derive(Clone, Copy, Drop)]
struct ByTruth<'a> {
    spot: &'a Spot<'a>,
    condition: &'a Expr,
}

impl<'a> Transfer for ByTruth<'a> {
    ghost outcomes = { λ r s.
        if_outcomes (truth_in (spot_of r.spot.now).scope (tree_of r.condition.now) s) s };

    fn make(&self, state: State, walk: &mut Walk) -> Result<(), AllocError> {
        match truth_of(self.spot.alloc, self.spot.scope, &state, self.condition)? {
            Some(true) => walk.add_live(state.with_test(Test::One)),
            Some(false) => walk.skip(state.with_test(Test::Zero).case),
            None => {
                let other = state.copy()?;
                walk.add_live(other.with_test(Test::One))?;
                walk.skip(state.with_test(Test::Zero).case)
            }
        }
    }
}

/// IF: if its argument may be true, `$TEST` is 1; if it may be false, `$TEST` is 0 and the rest of the line is skipped.
pub fn if_argument<'a>(
    spot: &'a Spot<'a>,
    argument: &'a Expr,
    walk: &mut Walk,
) -> Result<(), AllocError>
    ensures { OnOk result (walk.new ≡ if_argument (spot_of spot.now) (tree_of argument.now) walk.old) }
{
    value(spot, argument, walk)?;
    let transfer = ByTruth {
        spot,
        condition: argument,
    };
    apply_to_states(spot.alloc, &transfer, walk)
}
