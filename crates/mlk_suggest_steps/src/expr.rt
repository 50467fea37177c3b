// The steps of expressions.

use crate::branch::condition_of;
use crate::draft::Draft;
use crate::step::{CallKind, Step};
use mlk_names::{Access, Extent};
use mlk_syntax::{Actual, Expr, Function, Subscript};
use mlk_text::{Column, Name, Op};
use std::alloc::AllocError;

/// Adds the steps of the expression `e`. Most expressions have none.
#[cycle(drafting)]
pub(crate) fn add_expr<'a>(draft: &mut Draft<'a>, e: &'a Expr) -> Result<(), AllocError> {
    match e {
        Expr::Lit(_) | Expr::Free | Expr::Special(_) | Expr::Pattern(_) => Ok(()),
        Expr::Local(_, subscripts) => add_subscripts(draft, subscripts),
        Expr::Global(column, name, subscripts) => {
            add_subscripts(draft, subscripts)?;
            draft.touch(*column, name, subscripts, Extent::Node, Access::Reads)
        }
        Expr::Unary(_, operand) => add_expr(draft, operand),
        Expr::Binary(first, rest) => {
            add_expr(draft, first)?;
            add_chain(draft, rest)
        }
        Expr::Func(function, arguments) => add_function(draft, arguments, *function),
        Expr::Select(choices) => {
            draft.push(Step::Begin)?;
            add_choices(draft, choices)?;
            draft.push(Step::End)
        }
        Expr::Call(column, callee, actuals) => match actuals {
            None => draft.call(*column, callee, &[], CallKind::Extrinsic),
            Some(given) => {
                add_actuals(draft, given)?;
                draft.call(*column, callee, given, CallKind::Extrinsic)
            }
        },
    }
}

/// Adds the steps of the expressions `es`, in order.
#[cycle(drafting)]
pub(crate) fn add_exprs<'a>(draft: &mut Draft<'a>, es: &'a [Expr]) -> Result<(), AllocError> {
    for e in es {
        add_expr(draft, e)?;
    }
    Ok(())
}

/// Adds the steps of `subscripts`, in order.
#[cycle(drafting)]
pub(crate) fn add_subscripts<'a>(
    draft: &mut Draft<'a>,
    subscripts: &'a [Subscript],
) -> Result<(), AllocError> {
    for subscript in subscripts {
        add_expr(draft, &subscript.value)?;
    }
    Ok(())
}

/// Adds the steps of `actuals`, in order. An actual by reference has none.
#[cycle(drafting)]
pub(crate) fn add_actuals<'a>(
    draft: &mut Draft<'a>,
    actuals: &'a [Actual],
) -> Result<(), AllocError> {
    for actual in actuals {
        if let Actual::Value(e) = actual {
            add_expr(draft, e)?;
        }
    }
    Ok(())
}

#[cycle(drafting)]
fn add_chain<'a>(draft: &mut Draft<'a>, rest: &'a [(Op, Expr)]) -> Result<(), AllocError> {
    for (_, operand) in rest {
        add_expr(draft, operand)?;
    }
    Ok(())
}

#[cycle(drafting)]
fn add_choices<'a>(draft: &mut Draft<'a>, choices: &'a [(Expr, Expr)]) -> Result<(), AllocError> {
    for (condition, value) in choices {
        add_expr(draft, condition)?;
        draft.push(Step::When(condition_of(condition)))?;
        add_expr(draft, value)?;
        draft.push(Step::Otherwise)?;
    }
    Ok(())
}

// Adds the steps of the arguments of a function, and what it touches of a global that is its first argument.
#[cycle(drafting)]
fn add_function<'a>(
    draft: &mut Draft<'a>,
    arguments: &'a [Expr],
    function: Function,
) -> Result<(), AllocError> {
    match arguments {
        [Expr::Global(column, name, subscripts), rest @ ..] => {
            add_subscripts(draft, subscripts)?;
            add_exprs(draft, rest)?;
            add_touch(draft, function, *column, name, subscripts)
        }
        _ => add_exprs(draft, arguments),
    }
}

// The subscripts of the node above; a global without subscripts has none above it.
fn subscripts_above(subscripts: &[Subscript]) -> &[Subscript] {
    match subscripts.split_last() {
        Some((_, front)) => front,
        None => subscripts,
    }
}

// Adds what a function touches of the global that is its first argument.
fn add_touch<'a>(
    draft: &mut Draft<'a>,
    function: Function,
    column: Column,
    name: &'a Name,
    subscripts: &'a [Subscript],
) -> Result<(), AllocError> {
    match function {
        Function::Name => Ok(()),
        Function::Data => draft.touch(column, name, subscripts, Extent::Tree, Access::Reads),
        Function::Order => {
            draft.touch(
                column,
                name,
                subscripts_above(subscripts),
                Extent::Tree,
                Access::Reads,
            )
        }
        Function::Query => draft.touch(column, name, &[], Extent::Tree, Access::Reads),
        Function::Increment => {
            draft.touch(column, name, subscripts, Extent::Node, Access::Writes)
        }
        _ => draft.touch(column, name, subscripts, Extent::Node, Access::Reads),
    }
}
