// Expressions: the effect of their references and calls on the states of a walk.

ghost use Rattle.std.specs.Prelude.{◌≡◌, IfOk, OnOk, option_map, option_copied};
ghost use Rattle.mlk_syntax.specs.ExprTrees.{tree_of, trees, trees_from, sub_trees, subs_from, no_subs, links};
ghost use Rattle.mlk_syntax.specs.ExprTrees.{links_from, choices, choices_from, actual_of, actual_trees, actuals_from};
ghost use Rattle.mlk_walk_state.specs.Scope.{scope_of};
ghost use Rattle.mlk_walk_state.specs.States.{with_symbol};
ghost use Rattle.mlk_walk_state.specs.Symbols.{local_symbol};
ghost use Rattle.mlk_walk_exprs.specs.Walks.{each};
ghost use Rattle.mlk_walk_exprs.specs.References.{read_last};
ghost use Rattle.mlk_walk_exprs.specs.Spots.{spot_of};
ghost use Rattle.mlk_walk_exprs.specs.Expressions.{with_symbol_of, capture, capture_unknown, forget_subs};
ghost use Rattle.mlk_walk_exprs.specs.Expressions.{extrinsic, evaluate, evaluate_all, capture_subs, evaluate_links};
ghost use Rattle.mlk_walk_exprs.specs.Expressions.{evaluate_choices, where_chosen, passed_over};
ghost use Rattle.mlk_walk_exprs.specs.Expressions.{capture_actual, capture_actuals, value, value_if, values};

use crate::call::CallTransfer;
use crate::condition::{join_all, where_it_holds};
use crate::reference::{ReadLast, Use, use_of};
use crate::spot::Spot;
use crate::transfer::{apply_to_states, forget_captured};
use crate::walk::Walk;
use mlk_calls::{Calling, State, symbol_of};
use mlk_names::Sym;
use mlk_syntax::{Actual, Callee, Expr, Subscript};
use mlk_text::{Column, List, Name, Op};
use std::alloc::AllocError;

// Captures the symbol of a local without subscripts.
#[inline(always)]
fn capture_local(spot: &Spot, name: &Name, state: &mut State) -> Result<(), AllocError>
    ensures { OnOk result (state.new ≡ with_symbol
        (local_symbol ((scope_of spot.now.scope.now).is_shared state.old.case.own name.now) name.now no_subs) state.old) }
{
    if spot.scope.is_shared_in(state.case.own.as_slice(), name) {
        return state.captured.push(Sym::Unknown);
    }
    state.captured.push(Sym::Local(name.copy()?))
}

// Captures the symbol of an expression that was evaluated. Most are constants or locals, whose symbols are created in place.
#[inline(always)]
fn capture_value(spot: &Spot, expression: &Expr, state: &mut State) -> Result<(), AllocError>
    ensures { OnOk result (state.new ≡ with_symbol_of (scope_of spot.now.scope.now) (tree_of expression.now) state.old) }
{
    match expression {
        Expr::Lit(value) => state.captured.push(Sym::Const(value.copy()?)),
        Expr::Local(name, subscripts) if subscripts.as_slice().is_empty() => capture_local(
            spot, name, state,
        ),
        _ => {
            let symbol = symbol_of(spot.alloc, spot.scope, state, expression)?;
            state.captured.push(symbol)
        }
    }
}

/// Captures the symbol of an expression that was evaluated, in each state.
#[inline(always)]
pub fn capture(spot: &Spot, expression: &Expr, walk: &mut Walk) -> Result<(), AllocError>
    ensures { OnOk result (walk.new ≡ capture (spot_of spot.now).scope (tree_of expression.now) walk.old) }
{
    let mut states = walk.take_going(spot.alloc).into_vec();
    for state in states.iter_mut() {
        capture_value(spot, expression, state)?;
    }
    walk.going = List::of(states);
    Ok(())
}

/// Captures unknown, for something without a symbol.
pub fn capture_unknown(spot: &Spot, walk: &mut Walk) -> Result<(), AllocError>
    ensures { OnOk result (walk.new ≡ capture_unknown walk.old) }
{
    let mut states = walk.take_going(spot.alloc).into_vec();
    for state in states.iter_mut() {
        state.captured.push(Sym::Unknown)?;
    }
    walk.going = List::of(states);
    Ok(())
}

fn forget_subs(spot: &Spot, subscripts: &[Subscript], walk: &mut Walk) -> Result<(), AllocError>
    ensures { OnOk result (walk.new ≡ forget_subs (subs_from (sub_trees subscripts.now)) walk.old) }
{
    if subscripts.is_empty() {
        return Ok(());
    }
    forget_captured(spot.alloc, subscripts.len(), walk)
}

fn read<'a>(
    spot: &'a Spot<'a>,
    how: Use,
    column: Column,
    name: &'a Name,
    count: usize,
    walk: &mut Walk,
) -> Result<(), AllocError>
    ensures { OnOk result (walk.new ≡ each (read_last (spot_of spot.now) how column name.now count) walk.old) }
{
    let transfer = ReadLast {
        spot,
        how,
        column,
        name,
        count,
    };
    transfer.make_in_each(walk)
}

fn extrinsic<'a>(
    spot: &'a Spot<'a>,
    column: Column,
    callee: &'a Callee,
    given: &'a [Actual],
    walk: &mut Walk,
) -> Result<(), AllocError>
    ensures { OnOk result (walk.new ≡ extrinsic (spot_of spot.now) column callee.now (actual_trees given.now) walk.old) }
{
    let transfer = CallTransfer {
        spot,
        how: Calling::Extrinsic,
        column,
        callee,
        given,
    };
    apply_to_states(spot.alloc, &transfer, walk)?;
    walk.limit_states(spot.alloc, spot.line, spot.word)
}

/// Evaluates an expression; if it is a name, it is used as `how` says.
#[cycle(evaluation)]
#[tactic(auto, using(crate::proofs::Opened::local_opens, crate::proofs::Opened::global_opens, crate::proofs::Opened::unary_opens, crate::proofs::Opened::binary_opens, crate::proofs::Opened::function_opens, crate::proofs::Opened::bare_opens, crate::proofs::Opened::call_opens))]
pub fn evaluate<'a>(
    spot: &'a Spot<'a>,
    how: Use,
    expression: &'a Expr,
    walk: &mut Walk,
) -> Result<(), AllocError>
    ensures { OnOk result (walk.new ≡ evaluate (spot_of spot.now) how (tree_of expression.now) walk.old) }
{
    match expression {
        Expr::Lit(_) | Expr::Free | Expr::Special(_) | Expr::Pattern(_) => Ok(()),
        Expr::Local(_, subscripts) => {
            capture_subs(spot, subscripts, walk)?;
            forget_subs(spot, subscripts, walk)
        }
        Expr::Global(column, name, subscripts) => {
            capture_subs(spot, subscripts, walk)?;
            read(spot, how, *column, name, subscripts.len(), walk)
        }
        Expr::Unary(_, operand) => evaluate(spot, Use::ItsValue, operand, walk),
        Expr::Binary(first, rest) => {
            evaluate(spot, Use::ItsValue, first, walk)?;
            evaluate_links(spot, rest, walk)
        }
        Expr::Func(function, arguments) => {
            evaluate_all(spot, use_of(*function), arguments, walk)
        }
        Expr::Select(conditions) => evaluate_choices(spot, conditions, walk),
        Expr::Call(column, callee, given) => match given {
            None => extrinsic(spot, *column, callee, &[], walk),
            Some(given) => {
                capture_actuals(spot, given, walk)?;
                extrinsic(spot, *column, callee, given, walk)
            }
        },
    }
}

// Evaluates the arguments of a function, which uses the first as `how` says.
#[cycle(evaluation)]
fn evaluate_all<'a>(
    spot: &'a Spot<'a>,
    how: Use,
    arguments: &'a [Expr],
    walk: &mut Walk,
) -> Result<(), AllocError>
    ensures { OnOk result (walk.new ≡ evaluate_all (spot_of spot.now) how (trees_from (trees arguments.now)) walk.old) }
{
    let mut how = how;
    for argument in arguments {
        evaluate(spot, how, argument, walk)?;
        how = Use::ItsValue;
    }
    Ok(())
}

/// Evaluates subscripts, and captures the symbol of each after its evaluation.
#[cycle(evaluation)]
pub fn capture_subs<'a>(
    spot: &'a Spot<'a>,
    subscripts: &'a [Subscript],
    walk: &mut Walk,
) -> Result<(), AllocError>
    ensures { OnOk result (walk.new ≡ capture_subs (spot_of spot.now) (subs_from (sub_trees subscripts.now)) walk.old) }
{
    for subscript in subscripts {
        evaluate(spot, Use::ItsValue, &subscript.value, walk)?;
        capture(spot, &subscript.value, walk)?;
    }
    Ok(())
}

// Evaluates the operands after the first.
#[cycle(evaluation)]
fn evaluate_links<'a>(
    spot: &'a Spot<'a>,
    rest: &'a [(Op, Expr)],
    walk: &mut Walk,
) -> Result<(), AllocError>
    ensures { OnOk result (walk.new ≡ evaluate_links (spot_of spot.now) (links_from (links rest.now)) walk.old) }
{
    for (_, operand) in rest {
        evaluate(spot, Use::ItsValue, operand, walk)?;
    }
    Ok(())
}

// Evaluates a condition, keeps the live states in which it may be true, and returns those in which it may be false.
#[cycle(evaluation)]
fn evaluate_condition<'a>(
    spot: &'a Spot<'a>,
    condition: &'a Expr,
    walk: &mut Walk,
) -> Result<List<State>, AllocError>
    ensures holds { OnOk result (walk.new ≡ where_chosen (spot_of spot.now) (tree_of condition.now) walk.old) }
    ensures fails { IfOk result (λ s. s ≡ passed_over (spot_of spot.now) (tree_of condition.now) walk.old) }
{
    evaluate(spot, Use::ItsValue, condition, walk)?;
    where_it_holds(spot, condition, walk)
}

// Evaluates `$SELECT`: the states of each value wait until the conditions after it are evaluated.
#[cycle(evaluation)]
fn evaluate_choices<'a>(
    spot: &'a Spot<'a>,
    conditions: &'a [(Expr, Expr)],
    walk: &mut Walk,
) -> Result<(), AllocError>
    ensures { OnOk result (walk.new ≡ evaluate_choices (spot_of spot.now) (choices_from (choices conditions.now)) walk.old) }
{
    let mut waiting = Vec::new(spot.alloc);
    for (condition, value) in conditions {
        let failed = evaluate_condition(spot, condition, walk)?;
        evaluate(spot, Use::ItsValue, value, walk)?;
        if walk.over {
            return join_all(spot.alloc, waiting, walk);
        }
        waiting.push(std::mem::replace(&mut walk.going, failed))?;
    }
    let _ = walk.take_going(spot.alloc);
    join_all(spot.alloc, waiting, walk)
}

// Evaluates an actual and captures its symbol: unknown for a name by reference and for a missing actual.
#[cycle(evaluation)]
fn capture_actual<'a>(
    spot: &'a Spot<'a>,
    actual: &'a Actual,
    walk: &mut Walk,
) -> Result<(), AllocError>
    ensures { OnOk result (walk.new ≡ capture_actual (spot_of spot.now) (actual_of actual.now) walk.old) }
{
    match actual {
        Actual::Value(expression) => {
            evaluate(spot, Use::ItsValue, expression, walk)?;
            capture(spot, expression, walk)
        }
        Actual::ByRef(_, _) | Actual::Missing => capture_unknown(spot, walk),
    }
}

/// Evaluates actuals, and captures the symbol of each after its evaluation: unknown for a name by reference and for a missing
/// actual.
#[cycle(evaluation)]
pub fn capture_actuals<'a>(
    spot: &'a Spot<'a>,
    given: &'a [Actual],
    walk: &mut Walk,
) -> Result<(), AllocError>
    ensures { OnOk result (walk.new ≡ capture_actuals (spot_of spot.now) (actuals_from (actual_trees given.now)) walk.old) }
{
    for actual in given {
        capture_actual(spot, actual, walk)?;
    }
    Ok(())
}

/// Evaluates an expression for its value.
pub fn value<'a>(
    spot: &'a Spot<'a>,
    expression: &'a Expr,
    walk: &mut Walk,
) -> Result<(), AllocError>
    ensures { OnOk result (walk.new ≡ value (spot_of spot.now) (tree_of expression.now) walk.old) }
{
    evaluate(spot, Use::ItsValue, expression, walk)
}

/// Evaluates an optional expression for its value.
pub fn value_if<'a>(
    spot: &'a Spot<'a>,
    expression: Option<&'a Expr>,
    walk: &mut Walk,
) -> Result<(), AllocError>
    ensures { OnOk result (walk.new ≡ value_if (spot_of spot.now) (option_map tree_of (option_copied expression.entry)) walk.old) }
{
    match expression {
        None => Ok(()),
        Some(expression) => value(spot, expression, walk),
    }
}

/// Evaluates expressions for their values, in order.
pub fn values<'a>(
    spot: &'a Spot<'a>,
    expressions: &'a [Expr],
    walk: &mut Walk,
) -> Result<(), AllocError>
    ensures { OnOk result (walk.new ≡ values (spot_of spot.now) (trees expressions.now) walk.old) }
{
    for expression in expressions {
        value(spot, expression, walk)?;
    }
    Ok(())
}
