// The calls in expressions.

ghost use Rattle.std.specs.Prelude.{OnOk, flat_map};
ghost use Rattle.mlk_program.specs.Found.{Finds, of_expr, of_subscript, of_link, of_choice, of_actual};

use crate::call::{CallSite, add_call};
use mlk_syntax::{Actual, Expr, Subscript};
use mlk_text::Op;
use std::alloc::AllocError;

/// Adds the calls in `e`. Most expressions have no parts that could contain one.
#[cycle(finding)]
#[inline(always)]
pub(crate) fn in_expr<'a>(found: &mut Vec<CallSite<'a>>, e: &'a Expr) -> Result<(), AllocError>
    ensures { OnOk result (Finds (of_expr e.now) found.old.items found.new.items) }
{
    match e {
        Expr::Lit(_) | Expr::Free | Expr::Special(_) | Expr::Pattern(_) => Ok(()),
        Expr::Local(_, subscripts) if subscripts.is_empty() => Ok(()),
        _ => in_parts(found, e),
    }
}

// Adds the calls in the parts of `e`.
#[cycle(finding)]
#[tactic(auto, using(crate::proofs::FoundCalls::of_func, crate::proofs::FoundCalls::of_local, crate::proofs::FoundCalls::of_global, crate::proofs::FoundCalls::of_binary, crate::proofs::FoundCalls::of_select, crate::proofs::FoundCalls::finds_call, crate::proofs::FoundCalls::finds_both))]
fn in_parts<'a>(found: &mut Vec<CallSite<'a>>, e: &'a Expr) -> Result<(), AllocError>
    ensures { OnOk result (Finds (of_expr e.now) found.old.items found.new.items) }
{
    match e {
        Expr::Lit(_) | Expr::Free | Expr::Special(_) | Expr::Pattern(_) => Ok(()),
        Expr::Local(_, subscripts) | Expr::Global(_, _, subscripts) => in_subscripts(
            found, subscripts,
        ),
        Expr::Unary(_, operand) => in_expr(found, operand),
        Expr::Binary(first, rest) => {
            in_expr(found, first)?;
            in_chain(found, rest)?;
            Ok(())
        }
        Expr::Func(_, arguments) => in_exprs(found, arguments),
        Expr::Select(choices) => in_select(found, choices),
        Expr::Call(column, callee, actuals) => {
            add_call(found, *column, callee, actuals)?;
            if let Some(given) = actuals {
                in_actuals(found, given)?;
            }
            Ok(())
        }
    }
}

#[cycle(finding)]
pub(crate) fn in_exprs<'a>(found: &mut Vec<CallSite<'a>>, es: &'a [Expr]) -> Result<(), AllocError>
    ensures { OnOk result (Finds (flat_map of_expr es.now) found.old.items found.new.items) }
{
    for e in es {
        in_expr(found, e)?;
    }
    Ok(())
}

#[cycle(finding)]
fn in_subscripts<'a>(
    found: &mut Vec<CallSite<'a>>,
    subscripts: &'a [Subscript],
) -> Result<(), AllocError>
    ensures { OnOk result (Finds (flat_map of_subscript subscripts.now) found.old.items found.new.items) }
{
    for subscript in subscripts {
        in_expr(found, &subscript.value)?;
    }
    Ok(())
}

#[cycle(finding)]
fn in_chain<'a>(found: &mut Vec<CallSite<'a>>, rest: &'a [(Op, Expr)]) -> Result<(), AllocError>
    ensures { OnOk result (Finds (flat_map of_link rest.now) found.old.items found.new.items) }
{
    for (_, operand) in rest {
        in_expr(found, operand)?;
    }
    Ok(())
}

#[cycle(finding)]
fn in_select<'a>(
    found: &mut Vec<CallSite<'a>>,
    branches: &'a [(Expr, Expr)],
) -> Result<(), AllocError>
    ensures { OnOk result (Finds (flat_map of_choice branches.now) found.old.items found.new.items) }
{
    for (condition, value) in branches {
        in_expr(found, condition)?;
        in_expr(found, value)?;
    }
    Ok(())
}

#[cycle(finding)]
pub(crate) fn in_actual<'a>(
    found: &mut Vec<CallSite<'a>>,
    given: &'a Actual,
) -> Result<(), AllocError>
    ensures { OnOk result (Finds (of_actual given.now) found.old.items found.new.items) }
{
    match given {
        Actual::Value(e) => in_expr(found, e),
        Actual::ByRef(_, _) | Actual::Missing => Ok(()),
    }
}

#[cycle(finding)]
fn in_actuals<'a>(found: &mut Vec<CallSite<'a>>, given: &'a [Actual]) -> Result<(), AllocError>
    ensures { OnOk result (Finds (flat_map of_actual given.now) found.old.items found.new.items) }
{
    for actual in given {
        in_actual(found, actual)?;
    }
    Ok(())
}
