// Transfer functions of the walk: from one state to its outcomes.

ghost use Rattle.std.specs.Prelude.{◌≡◌, List, OnOk};
ghost use Rattle.mlk_walk_state.specs.declared.state.State.{State};
ghost use Rattle.mlk_walk_state.specs.States.{without_last};
ghost use Rattle.mlk_walk_exprs.specs.Walks.{Outcome, add_all, each, each_changed};

use crate::walk::Walk;
use mlk_calls::State;
use std::alloc::{AllocError, Global};

/// A function from one state to its outcomes.
pub trait Transfer {
    ghost outcomes: { Self → State → List Outcome };

    /// Adds the outcomes of `state` to the walk.
    fn make(&self, state: State, walk: &mut Walk) -> Result<(), AllocError>
        ensures { OnOk result (walk.new ≡ add_all (outcomes self.now state) walk.old) };
}

/// Applies the transfer function to each live state. Usually there is one, and its slot is reused.
#[inline(always)]
pub fn apply_to_states<T: Transfer>(
    alloc: Global,
    transfer: &T,
    walk: &mut Walk,
) -> Result<(), AllocError>
    ensures { OnOk result (walk.new ≡ each (T.outcomes transfer.now) walk.old) }
{
    if let Some(state) = walk.take_only() {
        return transfer.make(state, walk);
    }
    let going = walk.take_going(alloc);
    for state in going.into_vec() {
        transfer.make(state, walk)?;
    }
    Ok(())
}

/// Removes the last `count` captured symbols of each live state.
pub fn forget_captured(alloc: Global, count: usize, walk: &mut Walk) -> Result<(), AllocError>
    ensures { OnOk result (walk.new ≡ each_changed (without_last count) walk.old) }
{
    if count == 0 {
        return walk.remove_duplicates(alloc);
    }
    let mut states = walk.take_going(alloc).into_vec();
    for state in states.iter_mut() {
        state.forget_last(count);
    }
    walk.resume(alloc, states)
}
