// DO with a label, and JOB.

ghost use Rattle.std.specs.Prelude.{◌≡◌, OnOk};
ghost use Rattle.mlk_syntax.specs.ExprTrees.{tree_of, actual_trees};
ghost use Rattle.mlk_syntax.specs.Views.{call_of, do_of};
ghost use Rattle.mlk_walk_state.specs.declared.state.State.{State};
ghost use Rattle.mlk_walk_exprs.specs.Spots.{spot_of};
ghost use Rattle.mlk_walk_exprs.specs.Walks.{Outcome, each};
ghost use Rattle.mlk_walk_exprs.specs.Expressions.{by_condition};
ghost use Rattle.mlk_walk_commands.specs.Arguments.{given_in, capture_given, forget_given, do_row, do_argument, job_row, job_argument};

use mlk_calls::{Calling, State, at_job};
use mlk_syntax::{Actual, Call, DoArgument, Expr};
use mlk_text::Failure;
use mlk_walk_exprs::{
    CallTransfer, Mend, Note, Spot, Transfer, Walk, apply_to_states, capture_actuals,
    forget_captured, value, where_it_holds,
};
use std::alloc::AllocError;

// The actuals of a call; empty without an actual list.
fn given_of(call: &Call) -> &[Actual]
    ensures { actual_trees result.now ≡ given_in (call_of call.now) }
{
    match &call.actuals {
        None => &[],
        Some(given) => given.as_slice(),
    }
}

fn capture_given<'a>(spot: &'a Spot<'a>, call: &'a Call, walk: &mut Walk) -> Result<(), AllocError>
    ensures { OnOk result (walk.new ≡ capture_given (spot_of spot.now) (call_of call.now) walk.old) }
{
    capture_actuals(spot, given_of(call), walk)
}

fn forget_given(spot: &Spot, call: &Call, walk: &mut Walk) -> Result<(), AllocError>
    ensures { OnOk result (walk.new ≡ forget_given (call_of call.now) walk.old) }
{
    forget_captured(spot.alloc, given_of(call).len(), walk)
}

// A call whose actuals were captured last.
#[derive(Clone, Copy, Drop)]
struct Calls<'a> {
    spot: &'a Spot<'a>,
    call: &'a Call,
}

impl<'a> Transfer for Calls<'a> {
    ghost outcomes = { λ r s. do_row (spot_of r.spot.now) (call_of r.call.now) s };

    fn make(&self, state: State, walk: &mut Walk) -> Result<(), AllocError> {
        let transfer = CallTransfer {
            spot: self.spot,
            how: Calling::ByDo,
            column: self.call.column,
            callee: &self.call.callee,
            given: given_of(self.call),
        };
        transfer.make(state, walk)
    }
}

// Makes the call in states in which a condition that was evaluated may be true, and removes its actuals in those in which it
// may be false.
fn call_where<'a>(
    spot: &'a Spot<'a>,
    call: &'a Call,
    condition: &'a Expr,
    walk: &mut Walk,
) -> Result<(), AllocError>
    ensures { OnOk result (walk.new ≡ by_condition (spot_of spot.now).scope (tree_of condition.now)
        (each (do_row (spot_of spot.now) (call_of call.now))) (forget_given (call_of call.now)) walk.old) }
{
    let failed = where_it_holds(spot, condition, walk)?;
    apply_to_states(spot.alloc, &Calls { spot, call }, walk)?;
    if walk.over {
        return Ok(());
    }
    let waiting = std::mem::replace(&mut walk.going, failed);
    forget_given(spot, call, walk)?;
    walk.join(spot.alloc, waiting)
}

/// DO with a label: evaluates the actuals, then the argument's own postconditional, then makes the call.
pub fn do_argument<'a>(
    spot: &'a Spot<'a>,
    argument: &'a DoArgument,
    walk: &mut Walk,
) -> Result<(), AllocError>
    ensures { OnOk result (walk.new ≡ do_argument (spot_of spot.now) (do_of argument.now) walk.old) }
{
    let call = &argument.call;
    capture_given(spot, call, walk)?;
    match &argument.condition {
        None => apply_to_states(spot.alloc, &Calls { spot, call }, walk),
        Some(condition) => {
            value(spot, condition, walk)?;
            call_where(spot, call, condition, walk)
        }
    }
}

// The start of a job at a callee, with actuals that were captured last.
#[derive(Clone, Copy, Drop)]
struct Begins<'a> {
    spot: &'a Spot<'a>,
    call: &'a Call,
}

impl<'a> Transfer for Begins<'a> {
    ghost outcomes = { λ r s. job_row (spot_of r.spot.now) (call_of r.call.now) s };

    fn make(&self, state: State, walk: &mut Walk) -> Result<(), AllocError> {
        let spot = self.spot;
        match at_job(spot.scope, &self.call.callee, given_of(self.call), state) {
            Ok(state) => walk.add_live(state),
            Err(Failure::OutOfMemory) => Err(AllocError),
            Err(Failure::Refused(refusal)) => {
                let note = Note::in_case(Mend::Nothing, &refusal.state.case)?;
                walk.refuse(spot.line, self.call.column, refusal.code, note)
            }
        }
    }
}

/// JOB: evaluates the actuals; the entry must be declared.
pub fn job_argument<'a>(
    spot: &'a Spot<'a>,
    argument: &'a Call,
    walk: &mut Walk,
) -> Result<(), AllocError>
    ensures { OnOk result (walk.new ≡ job_argument (spot_of spot.now) (call_of argument.now) walk.old) }
{
    capture_given(spot, argument, walk)?;
    let transfer = Begins {
        spot,
        call: argument,
    };
    apply_to_states(spot.alloc, &transfer, walk)
}
