// The steps of expressions. Those of each expression push one value.

use crate::step::{Call, CallKind, StackStep, Step};
use crate::writer::Writer;
use mlk_names::Extent;
use mlk_syntax::{Actual, Callee, Expr, Function, Special, Subscript};
use mlk_text::{Column, Name, Op, push_sparing};
use std::alloc::AllocError;

/// Adds the steps of the expression `e`.
#[cycle(writing)]
pub(crate) fn add_expr<'a>(writer: &mut Writer<'_, 'a>, e: &'a Expr) -> Result<(), AllocError> {
    match e {
        Expr::Lit(value) => writer.push_value(StackStep::Constant(value)),
        Expr::Special(Special::Job) => writer.push_value(StackStep::JobNumber),
        Expr::Free | Expr::Special(_) | Expr::Pattern(_) => writer.push_value(StackStep::Forget(0)),
        Expr::Local(name, subscripts) => add_local(writer, name, subscripts),
        Expr::Global(column, name, subscripts) => {
            add_subscripts(writer, subscripts)?;
            writer.push_read(*column, name, subscripts.len(), Extent::Node)
        }
        Expr::Unary(_, operand) => {
            add_expr(writer, operand)?;
            writer.push_value(StackStep::Combine(1))
        }
        Expr::Binary(first, rest) => {
            add_expr(writer, first)?;
            add_chain(writer, rest)?;
            writer.push_value(StackStep::Combine(rest.len().saturating_add(1)))
        }
        Expr::Func(function, arguments) => {
            add_function(writer, *function, arguments)?;
            writer.push_value(StackStep::Combine(arguments.len()))
        }
        Expr::Select(choices) => {
            add_choices(writer, choices)?;
            writer.push_value(StackStep::Combine(choices.len()))
        }
        Expr::Call(_, callee, None) => add_call(writer, callee, &[], CallKind::Extrinsic),
        Expr::Call(_, callee, Some(actuals)) => {
            add_actuals(writer, actuals)?;
            add_call(writer, callee, actuals, CallKind::Extrinsic)
        }
    }
}

// Adds the steps of the local `name`. The value of one with subscripts is unknown.
#[cycle(writing)]
fn add_local<'a>(
    writer: &mut Writer<'_, 'a>,
    name: &'a Name,
    subscripts: &'a [Subscript],
) -> Result<(), AllocError> {
    if subscripts.is_empty() {
        return writer.push_value(StackStep::Local(name));
    }
    add_subscripts(writer, subscripts)?;
    writer.push_value(StackStep::Forget(subscripts.len()))
}

/// Adds the steps of the expressions `es`, in order.
#[cycle(writing)]
pub(crate) fn add_exprs<'a>(writer: &mut Writer<'_, 'a>, es: &'a [Expr]) -> Result<(), AllocError> {
    for e in es {
        add_expr(writer, e)?;
    }
    Ok(())
}

/// Adds the steps of `subscripts`, in order.
#[cycle(writing)]
pub(crate) fn add_subscripts<'a>(
    writer: &mut Writer<'_, 'a>,
    subscripts: &'a [Subscript],
) -> Result<(), AllocError> {
    for subscript in subscripts {
        add_expr(writer, &subscript.value)?;
    }
    Ok(())
}

/// Adds the steps of `actuals`, in order. An actual that is missing or passed by reference has an unknown value.
#[cycle(writing)]
pub(crate) fn add_actuals<'a>(
    writer: &mut Writer<'_, 'a>,
    actuals: &'a [Actual],
) -> Result<(), AllocError> {
    for actual in actuals {
        match actual {
            Actual::Value(e) => add_expr(writer, e)?,
            Actual::ByRef(_, _) | Actual::Missing => writer.push_value(StackStep::Forget(0))?,
        }
    }
    Ok(())
}

/// Adds a call of `callee`, whose actuals are on the stack. A path ends at a callee that the program does not have.
pub(crate) fn add_call<'a>(
    writer: &mut Writer<'_, 'a>,
    callee: &'a Callee,
    actuals: &'a [Actual],
    kind: CallKind,
) -> Result<(), AllocError> {
    let Some(entry) = writer.program.target(writer.routine, callee) else {
        return push_sparing(&mut writer.steps, Step::Halt);
    };
    let (Some(mark), Some(line)) = (writer.lines.of(entry), writer.program.line(entry)) else {
        return push_sparing(&mut writer.steps, Step::Halt);
    };
    let formals: &'a [Name] = match line.formals.as_ref() {
        Some(formals) => formals.as_slice(),
        None => &[],
    };
    push_sparing(
        &mut writer.steps,
        Step::Call(Call {
            kind,
            mark,
            formals,
            actuals,
        }),
    )
}

// Adds the steps of the further operands of a chain of binary operators.
#[cycle(writing)]
fn add_chain<'a>(writer: &mut Writer<'_, 'a>, rest: &'a [(Op, Expr)]) -> Result<(), AllocError> {
    for (_, operand) in rest {
        add_expr(writer, operand)?;
    }
    Ok(())
}

// Adds the steps of `choices` of a $SELECT, whose value may be that of each choice. It does not come from their conditions.
#[cycle(writing)]
fn add_choices<'a>(
    writer: &mut Writer<'_, 'a>,
    choices: &'a [(Expr, Expr)],
) -> Result<(), AllocError> {
    for (condition, value) in choices {
        add_expr(writer, condition)?;
        writer.push_discard(1)?;
        add_expr(writer, value)?;
    }
    Ok(())
}

// Adds the steps of `arguments` of `function`: each pushes one value.
#[cycle(writing)]
fn add_function<'a>(
    writer: &mut Writer<'_, 'a>,
    function: Function,
    arguments: &'a [Expr],
) -> Result<(), AllocError> {
    match arguments {
        [Expr::Global(column, name, subscripts), rest @ ..] => {
            add_read(writer, function, *column, name, subscripts)?;
            add_exprs(writer, rest)
        }
        _ => add_exprs(writer, arguments),
    }
}

// Adds the steps by which `function` reads the global that is its first argument: $DATA reads the tree of its node, $ORDER that
// above it, $QUERY the whole global, $NAME nothing. $INCREMENT reads its node: what it writes there depends on no earlier read.
#[cycle(writing)]
fn add_read<'a>(
    writer: &mut Writer<'_, 'a>,
    function: Function,
    column: Column,
    name: &'a Name,
    subscripts: &'a [Subscript],
) -> Result<(), AllocError> {
    add_subscripts(writer, subscripts)?;
    let count = subscripts.len();
    match function {
        Function::Name => writer.push_value(StackStep::Forget(count)),
        Function::Data => writer.push_read(column, name, count, Extent::Tree),
        Function::Order => {
            writer.push_discard(count.min(1))?;
            writer.push_read(column, name, count.saturating_sub(1), Extent::Tree)
        }
        Function::Query => {
            writer.push_discard(count)?;
            writer.push_read(column, name, 0, Extent::Tree)
        }
        _ => writer.push_read(column, name, count, Extent::Node),
    }
}
