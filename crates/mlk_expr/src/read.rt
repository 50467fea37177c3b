// The readers of expressions: one cycle of functions, which terminates since `left` counts down.

ghost use Rattle.std.specs.Prelude.{suc, length};
ghost use Rattle.mlk_text.specs.Reading.{with, many};
ghost use Rattle.mlk_expr_tokens.specs.Lexemes.{op_at, is_match};
ghost use Rattle.mlk_syntax.specs.ExprTrees.{Prefixed, tree_of, links};
ghost use Rattle.mlk_expr.specs.Reading.{chain_after, nested_in, pattern_at, right_by, linked, enclosed_with, operand_in, atom_in};
ghost use Rattle.mlk_text.specs.Failures.{Reads};

pub mod actuals;
mod functions;
pub mod names;

use crate::context::Context;
use crate::part::{number, text};
use crate::pattern::pattern;
use crate::read::functions::dollar;
use crate::read::names::{global, local};
use crate::refusal::{Offence, Wrong, no_end, no_operand, refusal_at, too_deep};
use mlk_expr_tokens::lexeme::{Kind, is_match, kind_of, may_continue, op_at};
use mlk_syntax::Expr;
use mlk_text::lexeme::byte_of;
use mlk_text::{Failure, Op, UnaryOp, Value, drop_and_return, make_room};
use std::alloc::Global;

/// Reads the expression at the front, nested at most `context.left` deep: its tree, and the rest.
#[tactic(auto, unfolding(crate::specs::Reading::chain_with, mlk_text::specs::Reading::many))]
#[cycle(reading)]
pub(crate) fn chain<'a>(
    alloc: Global,
    context: &Context,
    bytes: &'a [u8],
) -> Result<(Expr, &'a [u8]), Failure<Offence>>
    ensures { Reads (λ x. (tree_of x.0, x.1.now)) result (nested_in context.now bytes.now) }
{
    let (first, rest) = atom(alloc, context, bytes)?;
    if !may_continue(rest) {
        return Ok((first, rest));
    }
    call_chain_after(alloc, context, first, rest)
}

// Calls `chain_after`, as a function of its own, so that the slot of the result is cleared only if an operator may follow.
#[cycle(reading)]
#[inline(always)]
fn call_chain_after<'a>(
    alloc: Global,
    context: &Context,
    first: Expr,
    bytes: &'a [u8],
) -> Result<(Expr, &'a [u8]), Failure<Offence>>
    ensures { Reads (λ x. (tree_of x.0, x.1.now)) result
        (chain_after (atom_in context.now) (pattern_at context.now.left) (tree_of first) bytes.now) }
{
    chain_after(alloc, context, first, bytes)
}

// Reads the rest of an expression after its first operand.
#[cycle(reading)]
fn chain_after<'a>(
    alloc: Global,
    context: &Context,
    first: Expr,
    bytes: &'a [u8],
) -> Result<(Expr, &'a [u8]), Failure<Offence>>
    ensures { Reads (λ x. (tree_of x.0, x.1.now)) result
        (chain_after (atom_in context.now) (pattern_at context.now.left) (tree_of first) bytes.now) }
{
    let (links, rest) = match chain_rest(alloc, context, bytes) {
        Ok(read) => read,
        Err(failure) => return Err(drop_and_return(first, failure)),
    };
    if links.is_empty() {
        return Ok((first, rest));
    }
    Ok((Expr::Binary(Box::new(alloc, first)?, links), rest))
}

#[cycle(reading)]
fn chain_rest<'a>(
    alloc: Global,
    context: &Context,
    bytes: &'a [u8],
) -> Result<(Vec<(Op, Expr)>, &'a [u8]), Failure<Offence>>
    ensures { Reads (λ x. (links x.0.items, x.1.now)) result
        (many op_at (linked (atom_in context.now) (pattern_at context.now.left)) (suc (length bytes.now)) bytes.now) }
{
    let mut found = Vec::new(alloc);
    let mut rest = bytes;
    while let Some((op, after)) = op_at(rest) {
        make_room(&mut found)?;
        let (item, after) = right_operand(alloc, context, op, after)?;
        found.push_reserved((op, item));
        rest = after;
    }
    Ok((found, rest))
}

// Reads the right operand of `op`.
#[cycle(reading)]
fn right_operand<'a>(
    alloc: Global,
    context: &Context,
    op: Op,
    after: &'a [u8],
) -> Result<(Expr, &'a [u8]), Failure<Offence>>
    ensures { Reads (λ x. (tree_of x.0, x.1.now)) result
        (right_by (atom_in context.now) (pattern_at context.now.left) (is_match op) after.now) }
{
    if is_match(op) {
        let (text, rest) = pattern(alloc, context.left, after)?;
        return Ok((Expr::Pattern(Value::of(alloc, text)?), rest));
    }
    atom(alloc, context, after)
}

// Reads an expression and a closing parenthesis.
#[cycle(reading)]
#[inline(always)]
fn enclosed_expr<'a>(
    alloc: Global,
    context: &Context,
    bytes: &'a [u8],
) -> Result<(Expr, &'a [u8]), Failure<Offence>>
    ensures { Reads (λ x. (tree_of x.0, x.1.now)) result (enclosed_with (nested_in context.now) bytes.now) }
{
    let (inner, rest) = chain(alloc, context, bytes)?;
    let Some(rest) = byte_of(b')', rest) else {
        return Err(no_end(rest));
    };
    Ok((inner, rest))
}

// Reads the operand of a sign.
#[cycle(reading)]
fn unary_expr<'a>(
    alloc: Global,
    context: &Context,
    op: UnaryOp,
    bytes: &'a [u8],
) -> Result<(Expr, &'a [u8]), Failure<Offence>>
    ensures { Reads (λ x. (tree_of x.0, x.1.now)) result (with (Prefixed op) (atom_in context.now bytes.now)) }
{
    let (operand, rest) = atom(alloc, context, bytes)?;
    Ok((Expr::Unary(op, Box::new(alloc, operand)?), rest))
}

// Calls `unary_expr`, as a function of its own, so that the slot of the result is cleared only if there is a sign.
#[cycle(reading)]
#[inline(always)]
fn call_unary_expr<'a>(
    alloc: Global,
    context: &Context,
    op: UnaryOp,
    bytes: &'a [u8],
) -> Result<(Expr, &'a [u8]), Failure<Offence>>
    ensures { Reads (λ x. (tree_of x.0, x.1.now)) result (with (Prefixed op) (atom_in context.now bytes.now)) }
{
    unary_expr(alloc, context, op, bytes)
}

#[cycle(reading)]
#[inline(always)]
fn operand<'a>(
    alloc: Global,
    context: &Context,
    bytes: &'a [u8],
) -> Result<(Expr, &'a [u8]), Failure<Offence>>
    ensures { Reads (λ x. (tree_of x.0, x.1.now)) result (operand_in context.now bytes.now) }
{
    let Some((first, after)) = bytes.split_first() else {
        return Err(refusal_at(Wrong::Form, bytes));
    };
    match kind_of(*first) {
        Kind::Numeral => number(alloc, bytes),
        Kind::Quote => text(alloc, after),
        Kind::Letter => local(alloc, context, bytes),
        Kind::Caret => global(alloc, context, bytes, after),
        Kind::Dollar => dollar(alloc, context, bytes, after),
        Kind::Open => enclosed_expr(alloc, context, after),
        Kind::Prefix(op) => call_unary_expr(alloc, context, op, after),
        Kind::Other => Err(no_operand(bytes)),
    }
}

/// Reads the operand at the front, nested at most `context.left` deep: its tree, and the rest.
#[cycle(reading)]
#[inline(always)]
pub(crate) fn atom<'a>(
    alloc: Global,
    context: &Context,
    bytes: &'a [u8],
) -> Result<(Expr, &'a [u8]), Failure<Offence>>
    ensures { Reads (λ x. (tree_of x.0, x.1.now)) result (atom_in context.now bytes.now) }
{
    if context.left == 0 {
        return Err(too_deep(context.allows, bytes));
    }
    let deeper = Context {
        left: context.left - 1,
        ..*context
    };
    operand(alloc, &deeper, bytes)
}
