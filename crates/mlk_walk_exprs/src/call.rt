// Extrinsic calls.

ghost use Rattle.std.specs.Prelude.{◌≡◌, length};
ghost use Rattle.mlk_syntax.specs.ExprTrees.{actual_trees};
ghost use Rattle.mlk_walk_state.specs.declared.state.State.{State};
ghost use Rattle.mlk_calls.specs.Calls.{at_call};
ghost use Rattle.mlk_walk_exprs.specs.Walks.{Outcome, add_all, all_placed};
ghost use Rattle.mlk_walk_exprs.specs.Spots.{spot_of};

use crate::spot::Spot;
use crate::transfer::Transfer;
use crate::walk::{Mend, Note, Walk};
use mlk_calls::{
    Calling, RefusedState, State, at_call, call_changes, callee_summary, missing_need, short_names,
};
use mlk_syntax::{Actual, Callee};
use mlk_text::{Code, Column, Failure};
use std::alloc::AllocError;

/// A call of `callee`, at a column, with the given actuals, whose symbols were captured last.
#[derive(Clone, Copy, Drop)]
pub struct CallTransfer<'a> {
    pub spot: &'a Spot<'a>,
    pub how: Calling,
    pub column: Column,
    pub callee: &'a Callee,
    pub given: &'a [Actual],
}

impl<'a> CallTransfer<'a> {
    // The change of the walked entry's summary that would allow the call.
    fn wider_summary(&self, state: &State) -> Result<Mend, AllocError> {
        let spot = self.spot;
        let names = call_changes(spot.alloc, spot.scope, self.callee, self.given)?;
        let short = short_names(spot.alloc, spot.scope, names.as_slice(), state)?;
        if !short.is_empty() {
            return Ok(Mend::Changes(short));
        }
        match callee_summary(spot.scope, self.callee) {
            None => Ok(Mend::Nothing),
            Some(summary) => Ok(Mend::Callee(summary.low, summary.drops)),
        }
    }

    fn missing_lock(&self, state: &State) -> Result<Mend, AllocError> {
        let spot = self.spot;
        let Some(term) = missing_need(spot.alloc, spot.scope, self.callee, self.given, state)?
        else {
            return Ok(Mend::Nothing);
        };
        let mut locks = Vec::new(spot.alloc);
        locks.push(term)?;
        Ok(Mend::Locks(locks))
    }

    fn mend(&self, refusal: &RefusedState) -> Result<Mend, AllocError> {
        match refusal.code {
            Code::NeedMissing => self.missing_lock(&refusal.state),
            Code::SummaryShort => self.wider_summary(&refusal.state),
            _ => Ok(Mend::Nothing),
        }
    }
}

impl<'a> Transfer for CallTransfer<'a> {
    ghost outcomes = { λ r s. all_placed r.spot.now.line r.column
        (at_call (spot_of r.spot.now).scope r.how r.callee.now (actual_trees r.given.now) s) };

    fn make(&self, state: State, walk: &mut Walk) -> Result<(), AllocError> {
        let spot = self.spot;
        match at_call(
            spot.alloc,
            spot.scope,
            self.how,
            self.callee,
            self.given,
            state,
        ) {
            Ok(states) => walk.add_all_live(states),
            Err(Failure::OutOfMemory) => Err(AllocError),
            Err(Failure::Refused(refusal)) => {
                let mend = self.mend(&refusal)?;
                let note = Note::in_case(mend, &refusal.state.case)?;
                walk.refuse(spot.line, self.column, refusal.code, note)
            }
        }
    }
}
