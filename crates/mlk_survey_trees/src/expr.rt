// The mentions in expressions: uses of globals, and calls.

use crate::mention::{Mention, Touch, Usage};
use mlk_names::Extent;
use mlk_syntax::{Actual, Callee, Expr, Function, Subscript};
use mlk_text::{Column, Name, Op, Relation, push_sparing};
use std::alloc::AllocError;

/// Whether an expression is evaluated whenever its command runs.
#[derive(Clone, Copy, Drop, PartialEq, Eq)]
pub(crate) enum Runs {
    Surely,
    /// it is to the right of an operator that may skip it
    Perhaps,
}

// Whether the right operand of `op` is evaluated.
fn right_of(op: Op, runs: Runs) -> Runs {
    match op {
        Op::Is(Relation::And | Relation::Or) | Op::IsNot(Relation::And | Relation::Or) => {
            Runs::Perhaps
        }
        _ => runs,
    }
}

/// Adds the mentions in `e`. Most expressions have no parts that could contain one.
#[cycle(surveying)]
#[inline(always)]
pub(crate) fn in_expr<'a>(
    found: &mut Vec<Mention<'a>>,
    e: &'a Expr,
    runs: Runs,
) -> Result<(), AllocError> {
    match e {
        Expr::Lit(_) | Expr::Free | Expr::Special(_) | Expr::Pattern(_) => Ok(()),
        Expr::Local(_, subscripts) if subscripts.is_empty() => Ok(()),
        _ => in_parts(found, e, runs),
    }
}

#[cycle(surveying)]
fn in_parts<'a>(found: &mut Vec<Mention<'a>>, e: &'a Expr, runs: Runs) -> Result<(), AllocError> {
    match e {
        Expr::Lit(_) | Expr::Free | Expr::Special(_) | Expr::Pattern(_) => Ok(()),
        Expr::Local(_, subscripts) => in_subscripts(found, subscripts, runs),
        Expr::Global(column, name, subscripts) => {
            in_subscripts(found, subscripts, runs)?;
            push_sparing(
                found,
                Mention::Touch(Touch::read(*column, name, subscripts)),
            )
        }
        Expr::Unary(_, operand) => in_expr(found, operand, runs),
        Expr::Binary(first, rest) => {
            in_expr(found, first, runs)?;
            in_chain(found, rest, runs)
        }
        Expr::Func(Function::Name, arguments) => in_spelled(found, arguments, runs),
        Expr::Func(function, arguments) => in_function(found, *function, arguments, runs),
        Expr::Select(choices) => in_select(found, choices, runs),
        Expr::Call(column, callee, actuals) => {
            add_call(found, *column, callee, runs)?;
            match actuals {
                None => Ok(()),
                Some(given) => in_actuals(found, given, runs),
            }
        }
    }
}

// Adds an extrinsic call.
fn add_call<'a>(
    found: &mut Vec<Mention<'a>>,
    column: Column,
    callee: &'a Callee,
    runs: Runs,
) -> Result<(), AllocError> {
    push_sparing(found, Mention::Call(column, callee))?;
    if runs == Runs::Perhaps {
        push_sparing(found, Mention::SkippedCall(column))?;
    }
    Ok(())
}

/// Adds the mentions in each of `es`.
#[cycle(surveying)]
pub(crate) fn in_exprs<'a>(
    found: &mut Vec<Mention<'a>>,
    es: &'a [Expr],
    runs: Runs,
) -> Result<(), AllocError> {
    for e in es {
        in_expr(found, e, runs)?;
    }
    Ok(())
}

// The subscripts of the node on top of the tree that a function touches, if its first argument has these; `None` if it touches
// no tree.
fn tree_of<'a>(function: Function, subscripts: &'a [Subscript]) -> Option<&'a [Subscript]> {
    match function {
        Function::Data => Some(subscripts),
        Function::Order => match subscripts.split_last() {
            Some((_, above)) => Some(above),
            None => Some(subscripts),
        },
        Function::Query => Some(&[]),
        _ => None,
    }
}

// The touch of a function whose first argument is this global.
fn touch_of<'a>(
    function: Function,
    column: Column,
    global: &'a Name,
    subscripts: &'a [Subscript],
) -> Touch<'a> {
    let node = Touch::read(column, global, subscripts);
    match tree_of(function, subscripts) {
        None if function == Function::Increment => Touch {
            usage: Usage::Write,
            ..node
        },
        None => node,
        Some(above) => Touch {
            column,
            global,
            subscripts: above,
            extent: Extent::Tree,
            usage: Usage::Read,
        },
    }
}

// Adds the mentions in the arguments of a function.
#[cycle(surveying)]
fn in_function<'a>(
    found: &mut Vec<Mention<'a>>,
    function: Function,
    arguments: &'a [Expr],
    runs: Runs,
) -> Result<(), AllocError> {
    match arguments {
        [Expr::Global(column, name, subscripts), rest @ ..] => {
            in_subscripts(found, subscripts, runs)?;
            let touch = touch_of(function, *column, name, subscripts);
            push_sparing(found, Mention::Touch(touch))?;
            in_exprs(found, rest, runs)
        }
        _ => in_exprs(found, arguments, runs),
    }
}

// Adds the mentions in the arguments of $NAME, the first of which names a node that is not read.
#[cycle(surveying)]
fn in_spelled<'a>(
    found: &mut Vec<Mention<'a>>,
    arguments: &'a [Expr],
    runs: Runs,
) -> Result<(), AllocError> {
    match arguments {
        [Expr::Global(_, _, subscripts), rest @ ..] => {
            in_subscripts(found, subscripts, runs)?;
            in_exprs(found, rest, runs)
        }
        _ => in_exprs(found, arguments, runs),
    }
}

/// Adds the mentions in `subscripts`.
#[cycle(surveying)]
pub(crate) fn in_subscripts<'a>(
    found: &mut Vec<Mention<'a>>,
    subscripts: &'a [Subscript],
    runs: Runs,
) -> Result<(), AllocError> {
    for subscript in subscripts {
        in_expr(found, &subscript.value, runs)?;
    }
    Ok(())
}

#[cycle(surveying)]
fn in_chain<'a>(
    found: &mut Vec<Mention<'a>>,
    rest: &'a [(Op, Expr)],
    runs: Runs,
) -> Result<(), AllocError> {
    for (op, operand) in rest {
        in_expr(found, operand, right_of(*op, runs))?;
    }
    Ok(())
}

#[cycle(surveying)]
fn in_select<'a>(
    found: &mut Vec<Mention<'a>>,
    branches: &'a [(Expr, Expr)],
    runs: Runs,
) -> Result<(), AllocError> {
    for (condition, value) in branches {
        in_expr(found, condition, runs)?;
        in_expr(found, value, runs)?;
    }
    Ok(())
}

#[cycle(surveying)]
fn in_actuals<'a>(
    found: &mut Vec<Mention<'a>>,
    given: &'a [Actual],
    runs: Runs,
) -> Result<(), AllocError> {
    for actual in given {
        if let Actual::Value(e) = actual {
            in_expr(found, e, runs)?;
        }
    }
    Ok(())
}
