// The rounds of a FOR.

ghost use Rattle.std.specs.Prelude.{◌≡◌, ◌∷◌, [], IfOk, OnOk};
ghost use Rattle.mlk_syntax.specs.Views.{parameter_of};
ghost use Rattle.mlk_walk_state.specs.declared.state.State.{State};
ghost use Rattle.mlk_walk_exprs.specs.Spots.{spot_of};
ghost use Rattle.mlk_walk_exprs.specs.Walks.{Outcome, Refused, add_all, each};
ghost use Rattle.mlk_text.specs.declared.code.Code.TheVariants.{CaseNotListed};
ghost use Rattle.mlk_walk_lines.specs.Loops.{rounds_of, begin_round, round_or_after, after_round};
ghost use Rattle.mlk_walk_lines.specs.Loops.{step_variable, step_again, limited, parameter};

use mlk_calls::{State, is_listed};
use mlk_cert_parts::{Case, NameSet};
use mlk_syntax::Parameter;
use mlk_text::{Code, Column, List};
use mlk_walk_commands::Change;
use mlk_walk_exprs::{Mend, Note, Spot, Transfer, Walk, apply_to_states, value};
use std::alloc::{AllocError, Global};

/// The rounds of a FOR, whose word is at the spot's column: its variable with the column of its name, the number of the FOR on
/// its line, the cases that are listed for its rounds, and the states in which a round ended.
#[derive(Clone, Copy, Drop)]
pub(crate) struct Rounds<'a> {
    pub(crate) column: Column,
    pub(crate) variable: &'a NameSet,
    pub(crate) index: usize,
    pub(crate) cases: &'a [Case],
    pub(crate) ended: &'a [State],
}

fn refuse_round(spot: &Spot, index: usize, case: Case, walk: &mut Walk) -> Result<(), AllocError>
    ensures { OnOk result (walk.new ≡ add_all (Refused spot.now.line spot.now.word CaseNotListed ∷ []) walk.old) }
{
    let mend = Mend::Listed(spot.line, index, case);
    walk.refuse(spot.line, spot.word, Code::CaseNotListed, Note::of(mend))
}

/// The start of a round in a case that is listed for it; the rounds are walked separately.
#[derive(Clone, Copy, Drop)]
pub(crate) struct BeginRound<'a> {
    pub(crate) spot: &'a Spot<'a>,
    pub(crate) index: usize,
    pub(crate) cases: &'a [Case],
}

impl<'a> Transfer for BeginRound<'a> {
    ghost outcomes = { λ r s. begin_round (spot_of r.spot.now) r.cases.now s };

    fn make(&self, state: State, walk: &mut Walk) -> Result<(), AllocError> {
        if is_listed(self.cases, &state.case) {
            return Ok(());
        }
        refuse_round(self.spot, self.index, state.case, walk)
    }
}

// The start of a round in a case that may also continue after the loop.
#[derive(Clone, Copy, Drop)]
struct RoundOrAfter<'a> {
    spot: &'a Spot<'a>,
    index: usize,
    cases: &'a [Case],
}

impl<'a> Transfer for RoundOrAfter<'a> {
    ghost outcomes = { λ r s. round_or_after (spot_of r.spot.now) r.cases.now s };

    fn make(&self, state: State, walk: &mut Walk) -> Result<(), AllocError> {
        if is_listed(self.cases, &state.case) {
            return walk.add_live(state);
        }
        refuse_round(self.spot, self.index, state.case, walk)
    }
}

// Copies of states.
fn copy_states(alloc: Global, states: &[State]) -> Result<List<State>, AllocError>
    ensures { IfOk result (λ l. l ≡ states.now) }
{
    let mut all = List::of(Vec::with_capacity(alloc, states.len())?);
    for state in states {
        all.push(state.copy()?)?;
    }
    Ok(all)
}

/// Replaces the live states by those in which a round ended, unless the walk of the line is over.
pub(crate) fn after_round(alloc: Global, ended: &[State], walk: &mut Walk) -> Result<(), AllocError>
    ensures { OnOk result (walk.new ≡ after_round ended.now walk.old) }
{
    if walk.over {
        return Ok(());
    }
    walk.going = copy_states(alloc, ended)?;
    Ok(())
}

fn step_variable<'a>(
    spot: &'a Spot<'a>,
    rounds: &Rounds<'a>,
    walk: &mut Walk,
) -> Result<(), AllocError>
    ensures { OnOk result (walk.new ≡ step_variable (spot_of spot.now) (rounds_of rounds.now) walk.old) }
{
    let change = Change {
        spot,
        column: rounds.column,
        names: rounds.variable,
    };
    change.make_in_each(walk)
}

/// Lets each live state begin a round.
pub(crate) fn begin_rounds<'a>(
    spot: &'a Spot<'a>,
    index: usize,
    cases: &'a [Case],
    walk: &mut Walk,
) -> Result<(), AllocError>
    ensures { OnOk result (walk.new ≡ each (begin_round (spot_of spot.now) cases.now) walk.old) }
{
    let transfer = BeginRound { spot, index, cases };
    apply_to_states(spot.alloc, &transfer, walk)
}

// After each round, changes the variable and begins another round.
fn step_again<'a>(
    spot: &'a Spot<'a>,
    rounds: &Rounds<'a>,
    walk: &mut Walk,
) -> Result<(), AllocError>
    ensures { OnOk result (walk.new ≡ step_again (spot_of spot.now) (rounds_of rounds.now) walk.old) }
{
    after_round(spot.alloc, rounds.ended, walk)?;
    step_variable(spot, rounds, walk)?;
    begin_rounds(spot, rounds.index, rounds.cases, walk)
}

// Changes the variable; a case that begins a round may also continue after the loop.
fn round_or_after<'a>(
    spot: &'a Spot<'a>,
    rounds: &Rounds<'a>,
    walk: &mut Walk,
) -> Result<(), AllocError>
    ensures { OnOk result (walk.new ≡ each (round_or_after (spot_of spot.now) (rounds_of rounds.now).cases)
        (step_variable (spot_of spot.now) (rounds_of rounds.now) walk.old)) }
{
    step_variable(spot, rounds, walk)?;
    let transfer = RoundOrAfter {
        spot,
        index: rounds.index,
        cases: rounds.cases,
    };
    apply_to_states(spot.alloc, &transfer, walk)
}

fn walk_limited<'a>(
    spot: &'a Spot<'a>,
    rounds: &Rounds<'a>,
    walk: &mut Walk,
) -> Result<(), AllocError>
    ensures { OnOk result (walk.new ≡ limited (spot_of spot.now) (rounds_of rounds.now) walk.old) }
{
    let without_round = copy_states(spot.alloc, walk.going.as_slice())?;
    step_again(spot, rounds, walk)?;
    after_round(spot.alloc, rounds.ended, walk)?;
    walk.join(spot.alloc, without_round)
}

/// Walks one parameter, from the states that reach it.
pub(crate) fn walk_parameter<'a>(
    spot: &'a Spot<'a>,
    rounds: &Rounds<'a>,
    given: &'a Parameter,
    walk: &mut Walk,
) -> Result<(), AllocError>
    ensures { OnOk result (walk.new ≡ parameter (spot_of spot.now) (rounds_of rounds.now) walk.old (parameter_of given.now)) }
{
    match given {
        Parameter::Once(expression) => {
            value(spot, expression, walk)?;
            step_variable(spot, rounds, walk)?;
            begin_rounds(spot, rounds.index, rounds.cases, walk)?;
            after_round(spot.alloc, rounds.ended, walk)
        }
        Parameter::Endless(start, step) => {
            value(spot, start, walk)?;
            value(spot, step, walk)?;
            step_variable(spot, rounds, walk)?;
            begin_rounds(spot, rounds.index, rounds.cases, walk)?;
            step_again(spot, rounds, walk)
        }
        Parameter::Limited(start, step, limit) => {
            value(spot, start, walk)?;
            value(spot, step, walk)?;
            value(spot, limit, walk)?;
            round_or_after(spot, rounds, walk)?;
            walk_limited(spot, rounds, walk)
        }
    }
}
