// FOR, and the commands of a line.

ghost use Rattle.std.specs.Prelude.{◌≡◌, IfOk, OnOk, None, Some, fold, map, option_map, take};
ghost use Rattle.mlk_syntax.specs.Views.{parameter_of, control_of, command_of, commands_of};
ghost use Rattle.mlk_walk_state.specs.States.{at_rest};
ghost use Rattle.mlk_walk_exprs.specs.Spots.{spot_of};
ghost use Rattle.mlk_walk_exprs.specs.Walks.{begin, put_states};
ghost use Rattle.mlk_walk_lines.specs.Counting.{counted};
ghost use Rattle.mlk_walk_lines.specs.Loops.{rounds_of, parameters, controlled, and_faults, and_states};
ghost use Rattle.mlk_walk_lines.specs.Loops.{over_too, after_rounds, at_word, one_command, commands};

use crate::block::are_many;
use crate::conditioned::perform;
use crate::rounds::{Rounds, after_round, begin_rounds, walk_parameter};
use mlk_calls::State;
use mlk_cert_parts::{Case, NameSet};
use mlk_syntax::{Command, Commands, Control, Parameter};
use mlk_text::{Column, List};
use mlk_walk_exprs::{Faults, Quit, Spot, Walk, put, put_all};
use std::alloc::{AllocError, Global};

// The cases that skipped, as states with nothing captured.
fn resting_states(alloc: Global, cases: List<Case>) -> Result<Vec<State>, AllocError>
    ensures { IfOk result (λ v. v.items ≡ map at_rest cases) }
{
    let mut states = Vec::new(alloc);
    for case in cases.into_vec() {
        states.push(State {
            case,
            captured: List::new(alloc),
        })?;
    }
    Ok(states)
}

// The cases that quit, as states with nothing captured.
fn resting_quits(alloc: Global, quits: List<Quit>) -> Result<Vec<State>, AllocError>
    ensures { IfOk result (λ v. v.items ≡ map (λ q. at_rest q.case) quits) }
{
    let mut states = Vec::new(alloc);
    for quit in quits.into_vec() {
        states.push(State {
            case: quit.case,
            captured: List::new(alloc),
        })?;
    }
    Ok(states)
}

// Adds `faults` to the walk.
fn add_faults(faults: Faults, walk: &mut Walk) -> Result<(), AllocError>
    ensures { OnOk result (walk.new ≡ and_faults faults walk.old) }
{
    for found in faults.into_vec() {
        walk.faults.push(found.fault, found.note)?;
    }
    Ok(())
}

// Adds each of `new` to `states`, unless it is there. Beyond 17 some may be dropped, since 17 are already too many.
#[tactic(auto, using(crate::proofs::FewStates::no_more))]
fn put_few(states: List<State>, new: Vec<State>) -> Result<List<State>, AllocError>
    ensures { IfOk result (λ all. take 17 all ≡ take 17 (put_states new.items states)) }
{
    let mut all = states;
    for state in new {
        if !are_many(all.as_slice()) {
            put(&mut all, state)?;
        }
    }
    Ok(all)
}

// Adds `states` to the live ones, each once, unless the walk of the line is over. Beyond 17 some may be dropped.
fn and_states(alloc: Global, states: Vec<State>, walk: &mut Walk) -> Result<(), AllocError>
    ensures { OnOk result (counted walk.new ≡ counted (and_states states.items walk.old)) }
{
    if walk.over {
        return Ok(());
    }
    let going = walk.take_going(alloc);
    walk.going = put_few(going, states)?;
    Ok(())
}

// Ends the walk of the line.
fn end_walk(alloc: Global, walk: &mut Walk)
    ensures { walk.new ≡ over_too walk.old }
{
    let _ = walk.take_going(alloc);
    walk.over = true;
}

fn walk_parameters<'a>(
    spot: &'a Spot<'a>,
    rounds: &Rounds<'a>,
    given: &'a [Parameter],
    walk: &mut Walk,
) -> Result<(), AllocError>
    ensures { OnOk result (walk.new ≡ parameters (spot_of spot.now) (rounds_of rounds.now) (map parameter_of given.now) walk.old) }
{
    for one in given {
        walk_parameter(spot, rounds, one, walk)?;
    }
    Ok(())
}

// A FOR without a parameter.
fn walk_endless<'a>(
    spot: &'a Spot<'a>,
    index: usize,
    cases: &'a [Case],
    ended: &'a [State],
    walk: &mut Walk,
) -> Result<(), AllocError>
    ensures { OnOk result (walk.new ≡ controlled (spot_of spot.now) None cases.now ended.now walk.old) }
{
    begin_rounds(spot, index, cases, walk)?;
    after_round(spot.alloc, ended, walk)?;
    begin_rounds(spot, index, cases, walk)
}

fn walk_controlled<'a>(
    spot: &'a Spot<'a>,
    control: &'a Control,
    index: usize,
    cases: &'a [Case],
    ended: &'a [State],
    walk: &mut Walk,
) -> Result<(), AllocError>
    ensures { OnOk result (walk.new ≡ controlled (spot_of spot.now) (Some (control_of control.now)) cases.now ended.now walk.old) }
{
    let variable = NameSet::Only(control.variable.copy()?);
    let rounds = Rounds {
        column: control.column,
        variable: &variable,
        index,
        cases,
        ended,
    };
    walk_parameters(spot, &rounds, control.parameters.as_slice(), walk)
}

fn for_rounds<'a>(
    spot: &'a Spot<'a>,
    control: &'a Option<Control>,
    index: usize,
    cases: &'a [Case],
    ended: &'a [State],
    walk: &mut Walk,
) -> Result<(), AllocError>
    ensures { OnOk result (walk.new ≡ controlled (spot_of spot.now) (option_map control_of control.now) cases.now ended.now walk.old) }
{
    match control {
        None => walk_endless(spot, index, cases, ended, walk),
        Some(control) => walk_controlled(spot, control, index, cases, ended, walk),
    }
}

// FOR, given the result of its rounds.
fn after_rounds<'a>(
    spot: &'a Spot<'a>,
    control: &'a Option<Control>,
    index: usize,
    cases: &'a [Case],
    inner: Walk,
    walk: &mut Walk,
) -> Result<(), AllocError>
    ensures { OnOk result (walk.new ≡ after_rounds (spot_of spot.now) (option_map control_of control.now) cases.now inner walk.old) }
{
    if walk.over {
        return Ok(());
    }
    let Walk {
        going,
        skips,
        quits,
        faults,
        over,
    } = inner;
    add_faults(faults, walk)?;
    if over {
        end_walk(spot.alloc, walk);
        return Ok(());
    }
    let ended = put_all(going, resting_states(spot.alloc, skips)?)?;
    for_rounds(spot, control, index, cases, ended.as_slice(), walk)?;
    and_states(spot.alloc, resting_quits(spot.alloc, quits)?, walk)?;
    walk.limit_states(spot.alloc, spot.line, spot.word)
}

fn at_word<'a>(spot: &Spot<'a>, word: Column) -> Spot<'a>
    ensures { spot_of result ≡ at_word (spot_of spot.now) word }
{
    Spot {
        alloc: spot.alloc,
        scope: spot.scope,
        line: spot.line,
        level: spot.level,
        block: spot.block,
        word,
    }
}

fn one_command<'a>(
    spot: &'a Spot<'a>,
    command: &'a Command,
    walk: &mut Walk,
) -> Result<(), AllocError>
    ensures { OnOk result (walk.new ≡ one_command (spot_of spot.now) walk.old (command_of command.now)) }
{
    let here = at_word(spot, command.column);
    perform(&here, command, walk)
}

// Applies the commands before the first FOR, one after another.
fn apply_before_for<'a>(
    spot: &'a Spot<'a>,
    given: &'a [Command],
    walk: &mut Walk,
) -> Result<(), AllocError>
    ensures { OnOk result (walk.new ≡ fold (one_command (spot_of spot.now)) walk.old (map command_of given.now)) }
{
    for command in given {
        one_command(spot, command, walk)?;
    }
    Ok(())
}

/// The walk of a line or of a round at its start, from the cases that are listed there.
#[inline(always)]
pub(crate) fn begin(alloc: Global, cases: &[Case]) -> Result<Walk, AllocError>
    ensures { IfOk result (λ w. w ≡ begin cases.now) }
{
    let mut going = List::of(Vec::with_capacity(alloc, cases.len())?);
    for case in cases {
        let held = case.held.clone()?;
        let own = case.own.clone()?;
        let kept = case.kept.clone()?;
        let saved = case.saved.clone()?;
        going.push(State {
            case: Case {
                test: case.test,
                saved,
                held,
                own,
                kept,
            },
            captured: List::new(alloc),
        })?;
    }
    Ok(Walk {
        going,
        skips: List::new(alloc),
        quits: List::new(alloc),
        faults: Faults::new(alloc),
        over: false,
    })
}

/// Applies the commands of a line from here on. The rest of the line after a FOR is run in each round.
#[tactic(auto, using(crate::proofs::Opened::without_for, crate::proofs::Opened::for_done))]
pub(crate) fn commands<'a>(
    spot: &'a Spot<'a>,
    given: &'a Commands,
    walk: &mut Walk,
) -> Result<(), AllocError>
    ensures { OnOk result (walk.new ≡ commands (spot_of spot.now) (commands_of given.now) walk.old) }
{
    apply_before_for(spot, given.before.as_slice(), walk)?;
    let Some(last) = &given.last else {
        return Ok(());
    };
    let cases = spot.scope.listed_cases(spot.line, last.index);
    let mut inner = begin(spot.alloc, cases)?;
    commands(spot, &last.rest, &mut inner)?;
    let here = at_word(spot, last.column);
    after_rounds(&here, &last.control, last.index, cases, inner, walk)
}
