// The steps of an expression: what a job computes one after another, each with the token of the expression that it belongs to.

use mlk_syntax::{Actual, Expr, Function, Special, Subscript};
use mlk_text::{Op, UnaryOp, Value, push_sparing};
use std::alloc::{AllocError, Global};

/// What a step computes.
#[derive(Clone, Copy, Drop)]
pub enum Part<'a> {
    /// a constant
    Constant,
    /// a local
    Local,
    /// a global
    Global,
    Special(Special),
    Prefix(UnaryOp),
    Operator(Op),
    /// a match of this pattern
    Match(Op, &'a Value),
    /// a function of this number of arguments
    Function(Function, usize),
    /// `$SELECT`: its conditions, each with its value
    Select(&'a [(Expr, Expr)]),
    /// an extrinsic call
    Call,
}

/// A step: what it computes, and the index of its token, from 0.
#[derive(Clone, Copy, Drop)]
pub(crate) struct Step<'a> {
    pub(crate) part: Part<'a>,
    pub(crate) token: usize,
}

/// Steps in their order, and the number of tokens that they come from.
#[derive(Drop)]
pub(crate) struct Steps<'a> {
    pub(crate) steps: Vec<Step<'a>>,
    pub(crate) tokens: usize,
}

impl<'a> Steps<'a> {
    /// No steps.
    pub(crate) fn new(alloc: Global) -> Steps<'a> {
        Steps {
            steps: Vec::new(alloc),
            tokens: 0,
        }
    }

    /// The steps of `expression`.
    pub(crate) fn of(alloc: Global, expression: &'a Expr) -> Result<Steps<'a>, AllocError> {
        let mut steps = Steps::new(alloc);
        add_expression(&mut steps, expression)?;
        Ok(steps)
    }

    // Counts one token more, and returns its index.
    fn take_token(&mut self) -> usize {
        let token = self.tokens;
        self.tokens = token.saturating_add(1);
        token
    }

    // Adds a step.
    fn push(&mut self, part: Part<'a>, token: usize) -> Result<(), AllocError> {
        push_sparing(&mut self.steps, Step { part, token })
    }
}

// Adds a part without operands.
fn add_leaf<'a>(steps: &mut Steps<'a>, part: Part<'a>) -> Result<(), AllocError> {
    let token = steps.take_token();
    steps.push(part, token)
}

/// Adds the steps of `expression`.
#[cycle(stepping)]
pub(crate) fn add_expression<'a>(
    steps: &mut Steps<'a>,
    expression: &'a Expr,
) -> Result<(), AllocError> {
    match expression {
        Expr::Lit(_) | Expr::Free | Expr::Pattern(_) => add_leaf(steps, Part::Constant),
        Expr::Special(special) => add_leaf(steps, Part::Special(*special)),
        Expr::Local(_, subscripts) => {
            let token = steps.take_token();
            add_subscripts(steps, subscripts)?;
            steps.push(Part::Local, token)
        }
        Expr::Global(_, _, subscripts) => {
            let token = steps.take_token();
            add_subscripts(steps, subscripts)?;
            add_touch(steps, Part::Global, token)
        }
        Expr::Unary(op, operand) => {
            let token = steps.take_token();
            add_expression(steps, operand)?;
            steps.push(Part::Prefix(*op), token)
        }
        Expr::Binary(first, rest) => {
            add_expression(steps, first)?;
            add_chain(steps, rest)
        }
        Expr::Func(function, arguments) => add_function(steps, *function, arguments),
        Expr::Select(branches) => add_select(steps, branches),
        Expr::Call(_, _, actuals) => {
            let token = steps.take_token();
            if let Some(given) = actuals {
                add_actuals(steps, given)?;
            }
            steps.push(Part::Call, token)
        }
    }
}

// Adds a reference that is formed and then touched.
fn add_touch<'a>(steps: &mut Steps<'a>, part: Part<'a>, token: usize) -> Result<(), AllocError> {
    steps.push(part, token)?;
    steps.push(part, token)
}

#[cycle(stepping)]
fn add_subscripts<'a>(
    steps: &mut Steps<'a>,
    subscripts: &'a [Subscript],
) -> Result<(), AllocError> {
    for subscript in subscripts {
        add_expression(steps, &subscript.value)?;
    }
    Ok(())
}

#[cycle(stepping)]
fn add_arguments<'a>(steps: &mut Steps<'a>, arguments: &'a [Expr]) -> Result<(), AllocError> {
    for argument in arguments {
        add_expression(steps, argument)?;
    }
    Ok(())
}

/// Adds the steps of the actuals that are passed by value.
#[cycle(stepping)]
pub(crate) fn add_actuals<'a>(
    steps: &mut Steps<'a>,
    actuals: &'a [Actual],
) -> Result<(), AllocError> {
    for actual in actuals {
        match actual {
            Actual::Value(value) => add_expression(steps, value)?,
            Actual::ByRef(_, _) => {
                steps.take_token();
            }
            Actual::Missing => {}
        }
    }
    Ok(())
}

#[cycle(stepping)]
fn add_chain<'a>(steps: &mut Steps<'a>, rest: &'a [(Op, Expr)]) -> Result<(), AllocError> {
    for (op, operand) in rest {
        let token = steps.take_token();
        add_operation(steps, *op, operand, token)?;
    }
    Ok(())
}

// Adds an operator, whose token is counted already, after its right operand.
#[cycle(stepping)]
fn add_operation<'a>(
    steps: &mut Steps<'a>,
    op: Op,
    operand: &'a Expr,
    token: usize,
) -> Result<(), AllocError> {
    if let Expr::Pattern(pattern) = operand {
        return steps.push(Part::Match(op, pattern), token);
    }
    add_expression(steps, operand)?;
    steps.push(Part::Operator(op), token)
}

// Whether the first argument of `function` is a name, not a value.
fn takes_name(function: Function) -> bool {
    matches!(
        function,
        Function::Data
            | Function::Get
            | Function::Increment
            | Function::Order
            | Function::Query
            | Function::Name
    )
}

#[cycle(stepping)]
fn add_function<'a>(
    steps: &mut Steps<'a>,
    function: Function,
    arguments: &'a [Expr],
) -> Result<(), AllocError> {
    let token = steps.take_token();
    if takes_name(function) {
        add_named(steps, function, arguments, token)?;
    } else {
        add_arguments(steps, arguments)?;
    }
    steps.push(Part::Function(function, arguments.len()), token)
}

// Adds the steps of a function whose first argument is a name, up to its last one.
#[cycle(stepping)]
fn add_named<'a>(
    steps: &mut Steps<'a>,
    function: Function,
    arguments: &'a [Expr],
    token: usize,
) -> Result<(), AllocError> {
    match arguments {
        [Expr::Global(_, _, subscripts), more @ ..] => {
            let part = Part::Function(function, arguments.len());
            steps.take_token();
            add_subscripts(steps, subscripts)?;
            add_reading(steps, function, part, token)?;
            add_arguments(steps, more)
        }
        [Expr::Local(_, subscripts), more @ ..] => {
            steps.take_token();
            add_subscripts(steps, subscripts)?;
            add_arguments(steps, more)
        }
        _ => add_arguments(steps, arguments),
    }
}

// Adds what a function of a global does once the subscripts are known: some drop subscripts, and all but `$NAME` touch it.
fn add_reading<'a>(
    steps: &mut Steps<'a>,
    function: Function,
    part: Part<'a>,
    token: usize,
) -> Result<(), AllocError> {
    match function {
        Function::Name => Ok(()),
        Function::Order | Function::Query => {
            steps.push(part, token)?;
            add_touch(steps, part, token)
        }
        _ => add_touch(steps, part, token),
    }
}

// Adds the conditions and values of `$SELECT`, each condition with the decision on it.
#[cycle(stepping)]
fn add_branches<'a>(steps: &mut Steps<'a>, branches: &'a [(Expr, Expr)]) -> Result<(), AllocError> {
    for (condition, value) in branches {
        add_expression(steps, condition)?;
        steps.push(Part::Constant, 0)?;
        add_expression(steps, value)?;
    }
    Ok(())
}

// Adds `$SELECT`: which of its conditions and values are computed is not known, so all their steps have its token.
#[cycle(stepping)]
fn add_select<'a>(steps: &mut Steps<'a>, branches: &'a [(Expr, Expr)]) -> Result<(), AllocError> {
    let token = steps.take_token();
    let mut inside = Steps::new(*steps.steps.allocator());
    add_branches(&mut inside, branches)?;
    steps.push(Part::Select(branches), token)?;
    for _ in 0..inside.steps.len() {
        steps.push(Part::Select(branches), token)?;
    }
    steps.tokens = steps.tokens.saturating_add(inside.tokens);
    Ok(())
}

/// How many steps `branches` of `$SELECT` are counted as, with its own, and how many tokens they have, with its own.
pub(crate) fn size_of_branches(
    alloc: Global,
    branches: &[(Expr, Expr)],
) -> Result<(usize, usize), AllocError> {
    let mut steps = Steps::new(alloc);
    add_select(&mut steps, branches)?;
    Ok((steps.steps.len(), steps.tokens))
}
