// Symbols of expressions.

ghost use Rattle.std.specs.Prelude.{◌≡◌, IfOk, true, drop};
ghost use Rattle.mlk_syntax.specs.ExprTrees.{tree_of, links, links_from, subs_from, sub_trees};
ghost use Rattle.mlk_walk_state.specs.Scope.{scope_of};
ghost use Rattle.mlk_walk_state.specs.Symbols.{local_symbol, before_symbol, between_symbols};
ghost use Rattle.mlk_walk_state.specs.Symbols.{symbol_in, truth_in, chain_in, truth_of_symbol};
ghost use Rattle.mlk_walk_state.specs.Cases.{known_test};

use crate::scope::Scope;
use crate::state::State;
use mlk_cert_parts::Test;
use mlk_names::Sym;
use mlk_numbers::{fold, fold_unary, known_truth};
use mlk_syntax::{Expr, Special, Subscript};
use mlk_text::{Name, Op, UnaryOp};
use std::alloc::{AllocError, Global};

fn before_symbol(alloc: Global, op: UnaryOp, operand: Sym) -> Result<Sym, AllocError>
    ensures { IfOk result (λ s. s ≡ before_symbol op operand) }
{
    let Sym::Const(value) = operand else {
        return Ok(Sym::Unknown);
    };
    match fold_unary(alloc, op, &value)? {
        Some(result) => Ok(Sym::Const(result)),
        None => Ok(Sym::Unknown),
    }
}

fn between_symbols(alloc: Global, op: Op, left: Sym, right: Sym) -> Result<Sym, AllocError>
    ensures { IfOk result (λ s. s ≡ between_symbols op left right) }
{
    let Sym::Const(a) = left else {
        return Ok(Sym::Unknown);
    };
    let Sym::Const(b) = right else {
        return Ok(Sym::Unknown);
    };
    match fold(alloc, op, &a, &b)? {
        Some(result) => Ok(Sym::Const(result)),
        None => Ok(Sym::Unknown),
    }
}

// The symbol of the local `name` with the given subscripts.
#[inline(always)]
fn local_symbol(shared: bool, name: &Name, subscripts: &[Subscript]) -> Result<Sym, AllocError>
    ensures { IfOk result (λ s. s ≡ local_symbol shared name.now (subs_from (sub_trees subscripts.now))) }
{
    if shared {
        return Ok(Sym::Unknown);
    }
    match subscripts.split_first() {
        Some(_) => Ok(Sym::Unknown),
        None => Ok(Sym::Local(name.copy()?)),
    }
}

// Applies the operators after the first operand from left to right. Once a value is not constant, the result is unknown.
#[cycle(symbols)]
fn chain_symbol(
    alloc: Global,
    scope: &Scope,
    state: &State,
    first: Sym,
    rest: &[(Op, Expr)],
) -> Result<Sym, AllocError>
    ensures { IfOk result (λ s. s ≡ chain_in (scope_of scope.now) state.now first (links_from (links rest.now))) }
{
    let mut symbol = first;
    for (op, operand) in rest {
        let Sym::Const(_) = &symbol else {
            return Ok(Sym::Unknown);
        };
        let right = symbol_of(alloc, scope, state, operand)?;
        symbol = between_symbols(alloc, *op, symbol, right)?;
    }
    Ok(symbol)
}

/// The symbol of an expression in a state: a constant, a local that is not shared, the job's number, or unknown. Operators on
/// constants are computed if their result is exact.
#[cycle(symbols)]
#[tactic(auto, using(crate::proofs::ExprTrees::local_in, crate::proofs::ExprTrees::binary_in))]
pub fn symbol_of(
    alloc: Global,
    scope: &Scope,
    state: &State,
    expression: &Expr,
) -> Result<Sym, AllocError>
    ensures { IfOk result (λ s. s ≡ symbol_in (scope_of scope.now) (tree_of expression.now) state.now) }
{
    match expression {
        Expr::Lit(value) => Ok(Sym::Const(value.copy()?)),
        Expr::Local(name, subscripts) => {
            let shared = scope.is_shared_in(state.case.own.as_slice(), name);
            let symbol = local_symbol(shared, name, subscripts)?;
            Ok(symbol)
        }
        Expr::Special(Special::Job) => Ok(Sym::Job),
        Expr::Unary(op, operand) => {
            let operand = symbol_of(alloc, scope, state, operand)?;
            let symbol = before_symbol(alloc, *op, operand)?;
            Ok(symbol)
        }
        Expr::Binary(first, rest) => {
            let first = symbol_of(alloc, scope, state, first)?;
            let symbol = chain_symbol(alloc, scope, state, first, rest)?;
            Ok(symbol)
        }
        _ => Ok(Sym::Unknown),
    }
}

fn truth_of_symbol(symbol: &Sym) -> Option<bool>
    ensures { result ≡ truth_of_symbol symbol.now }
{
    match symbol {
        Sym::Const(value) => known_truth(value),
        _ => None,
    }
}

fn known_test(test: Test) -> Option<bool>
    ensures { result ≡ known_test test }
{
    match test {
        Test::Any => None,
        Test::Zero => Some(false),
        Test::One => Some(true),
    }
}

/// The truth value of an expression in a state, if it is known: of a constant `0` or `1`, of `$TEST` if it is known, and of `'`
/// before these; otherwise `None`.
pub fn truth_of(
    alloc: Global,
    scope: &Scope,
    state: &State,
    expression: &Expr,
) -> Result<Option<bool>, AllocError>
    ensures { IfOk result (λ t. t ≡ truth_in (scope_of scope.now) (tree_of expression.now) state.now) }
{
    match expression {
        Expr::Special(Special::Test) => Ok(known_test(state.case.test)),
        Expr::Lit(value) => Ok(known_truth(value)),
        Expr::Unary(UnaryOp::Not, operand) => {
            let truth = truth_of(alloc, scope, state, operand)?;
            Ok(truth.map(|known| !known))
        }
        Expr::Unary(_, _) | Expr::Binary(_, _) => {
            let symbol = symbol_of(alloc, scope, state, expression)?;
            Ok(truth_of_symbol(&symbol))
        }
        _ => Ok(None),
    }
}
