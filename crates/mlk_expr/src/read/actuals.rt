// Calls and their actuals.

ghost use Rattle.std.specs.Prelude.{◌≡◌, ◌<◌, vec_len, vec_capacity, ◌∷◌, [], suc, length};
ghost use Rattle.mlk_text.specs.Lexemes.{byte_at};
ghost use Rattle.mlk_text.specs.Reading.{many, put};
ghost use Rattle.mlk_expr_tokens.specs.Lexemes.{column_of};
ghost use Rattle.mlk_syntax.specs.ExprTrees.{tree_of, actual_of, actual_trees};
ghost use Rattle.mlk_expr.specs.Reading.{next, nested_in, list_with, actual_with, actuals_with, call_with};
ghost use Rattle.mlk_expr.specs.Touches.{calls_may};
ghost use Rattle.mlk_text.specs.Failures.{Reads};

use crate::context::{Context, Passing};
use crate::part::{callee, list_room, name};
use crate::read::chain;
use crate::refusal::{Offence, Wrong, no_actual, no_actuals_end, no_call, refusal_at};
use mlk_expr_tokens::lexeme::{column_of, is_missing};
use mlk_syntax::{Actual, Expr};
use mlk_text::lexeme::byte_of;
use mlk_text::{Failure, make_room};
use std::alloc::Global;

#[tactic(auto, unfolding(crate::specs::Reading::actual_with, mlk_expr_tokens::specs::Lexemes::lent_at))]
#[cycle(reading)]
fn actual<'a>(
    alloc: Global,
    context: &Context,
    passing: Passing,
    bytes: &'a [u8],
) -> Result<(Actual, &'a [u8]), Failure<Offence>>
    ensures { Reads (λ x. (actual_of x.0, x.1.now)) result
        (actual_with passing context.now.end (nested_in context.now) bytes.now) }
{
    if let Some(after) = byte_of(b'.', bytes) {
        match name(alloc, after) {
            Ok(_) if !passing.is_by_reference() => return Err(refusal_at(Wrong::Lent, bytes)),
            Ok((name, rest)) => {
                return Ok((Actual::ByRef(column_of(context.end, bytes), name), rest));
            }
            Err(Failure::OutOfMemory) => return Err(Failure::OutOfMemory),
            Err(Failure::Refused(_)) => {}
        }
    }
    if is_missing(bytes) {
        return Ok((Actual::Missing, bytes));
    }
    match chain(alloc, context, bytes) {
        Ok((value, rest)) => Ok((Actual::Value(value), rest)),
        Err(refusal) => Err(no_actual(passing, refusal, bytes)),
    }
}

// Reads one or more actuals up to the closing parenthesis.
#[tactic(auto, unfolding(crate::specs::Reading::list_with))]
#[cycle(reading)]
fn some_actuals<'a>(
    alloc: Global,
    context: &Context,
    passing: Passing,
    bytes: &'a [u8],
) -> Result<(Vec<Actual>, &'a [u8]), Failure<Offence>>
    ensures { Reads (λ x. (actual_trees x.0.items, x.1.now)) result
        (list_with (actual_with passing context.now.end (nested_in context.now)) bytes.now) }
{
    let (first, rest) = actual(alloc, context, passing, bytes)?;
    let room = list_room(alloc, rest)?;
    let (found, rest) = actuals_rest(alloc, context, passing, room, first, rest)?;
    let Some(rest) = byte_of(b')', rest) else {
        return Err(no_actuals_end(&found, rest));
    };
    Ok((found, rest))
}

/// Reads the actuals after an opening parenthesis: the actuals, and the rest after the closing one.
#[tactic(auto, unfolding(crate::specs::Reading::actuals_with))]
#[cycle(reading)]
pub(crate) fn actuals<'a>(
    alloc: Global,
    context: &Context,
    passing: Passing,
    bytes: &'a [u8],
) -> Result<(Vec<Actual>, &'a [u8]), Failure<Offence>>
    ensures { Reads (λ x. (actual_trees x.0.items, x.1.now)) result
        (actuals_with passing context.now.end (nested_in context.now) bytes.now) }
{
    if let Some(rest) = byte_of(b')', bytes) {
        return Ok((Vec::new(alloc), rest));
    }
    some_actuals(alloc, context, passing, bytes)
}

#[cycle(reading)]
fn actuals_rest<'a>(
    alloc: Global,
    context: &Context,
    passing: Passing,
    room: Vec<Actual>,
    first: Actual,
    bytes: &'a [u8],
) -> Result<(Vec<Actual>, &'a [u8]), Failure<Offence>>
    requires empty { room.items ≡ [] }
    requires spare { vec_len room < vec_capacity room }
    ensures { Reads (λ x. (actual_trees x.0.items, x.1.now)) result
        (put (actual_of first ∷ [])
        (many (byte_at 44) (next (actual_with passing context.now.end (nested_in context.now)))
        (suc (length bytes.now)) bytes.now)) }
{
    let mut found = room;
    found.push_reserved(first);
    let mut rest = bytes;
    while let Some(after) = byte_of(b',', rest) {
        make_room(&mut found)?;
        let (item, after) = actual(alloc, context, passing, after)?;
        found.push_reserved(item);
        rest = after;
    }
    Ok((found, rest))
}

/// Reads a call after its `$$`, at which `whole` begins.
#[tactic(auto, unfolding(crate::specs::Reading::call_with))]
#[cycle(reading)]
pub(crate) fn call<'a>(
    alloc: Global,
    context: &Context,
    whole: &[u8],
    bytes: &'a [u8],
) -> Result<(Expr, &'a [u8]), Failure<Offence>>
    ensures { Reads (λ x. (tree_of x.0, x.1.now)) result
        (call_with (calls_may context.now.allows) context.now.end (nested_in context.now) (column_of context.now.end whole.now) bytes.now) }
{
    if !context.allows.calls() {
        return Err(no_call(whole));
    }
    let (callee, rest) = callee(alloc, bytes)?;
    let boxed = Box::new(alloc, callee)?;
    let column = column_of(context.end, whole);
    let Some(after) = byte_of(b'(', rest) else {
        return Ok((Expr::Call(column, boxed, None), rest));
    };
    let (given, rest) = actuals(alloc, context, Passing::ByReference, after)?;
    Ok((Expr::Call(column, boxed, Some(given)), rest))
}
