// Locals and globals with their subscripts.

ghost use Rattle.std.specs.Prelude.{◌≡◌, ◌<◌, vec_len, vec_capacity, ◌∷◌, [], suc, length};
ghost use Rattle.mlk_text.specs.Lexemes.{byte_at};
ghost use Rattle.mlk_text.specs.Reading.{many, put};
ghost use Rattle.mlk_expr_tokens.specs.Lexemes.{column_of};
ghost use Rattle.mlk_syntax.specs.ExprTrees.{tree_of, sub_of, sub_trees};
ghost use Rattle.mlk_expr.specs.Reading.{few, next, nested_in, list_with, placed, subs_with, local_with, global_with};
ghost use Rattle.mlk_expr.specs.Touches.{globals_may};
ghost use Rattle.mlk_text.specs.Failures.{Reads};

use crate::context::Context;
use crate::part::{global_name, list_room, name};
use crate::read::chain;
use crate::refusal::{Offence, Wrong, no_end, refusal_at};
use mlk_expr_tokens::lexeme::column_of;
use mlk_syntax::{Expr, Subscript};
use mlk_text::lexeme::byte_of;
use mlk_text::limit::MOST_SUBSCRIPTS;
use mlk_text::{Failure, make_room};
use std::alloc::Global;

#[cycle(reading)]
fn subscript<'a>(
    alloc: Global,
    context: &Context,
    bytes: &'a [u8],
) -> Result<(Subscript, &'a [u8]), Failure<Offence>>
    ensures { Reads (λ x. (sub_of x.0, x.1.now)) result (placed context.now.end (nested_in context.now) bytes.now) }
{
    let column = column_of(context.end, bytes);
    let (value, rest) = chain(alloc, context, bytes)?;
    Ok((Subscript { column, value }, rest))
}

// Reads subscripts up to the closing parenthesis, at most 32.
#[tactic(auto, unfolding(crate::specs::Reading::list_with))]
#[cycle(reading)]
fn subs<'a>(
    alloc: Global,
    context: &Context,
    bytes: &'a [u8],
) -> Result<(Vec<Subscript>, &'a [u8]), Failure<Offence>>
    ensures { Reads (λ x. (sub_trees x.0.items, x.1.now)) result
        (few 32 (list_with (placed context.now.end (nested_in context.now)) bytes.now)) }
{
    let (first, rest) = subscript(alloc, context, bytes)?;
    let room = list_room(alloc, rest)?;
    let (found, rest) = subs_rest(alloc, context, room, first, rest)?;
    let Some(rest) = byte_of(b')', rest) else {
        return Err(no_end(rest));
    };
    Ok((found, rest))
}

#[cycle(reading)]
fn subs_rest<'a>(
    alloc: Global,
    context: &Context,
    room: Vec<Subscript>,
    first: Subscript,
    bytes: &'a [u8],
) -> Result<(Vec<Subscript>, &'a [u8]), Failure<Offence>>
    requires empty { room.items ≡ [] }
    requires spare { vec_len room < vec_capacity room }
    ensures { Reads (λ x. (sub_trees x.0.items, x.1.now)) result
        (few 32 (put (sub_of first ∷ [])
        (many (byte_at 44) (next (placed context.now.end (nested_in context.now))) (suc (length bytes.now)) bytes.now))) }
{
    let mut found = room;
    found.push_reserved(first);
    let mut rest = bytes;
    while let Some(after) = byte_of(b',', rest) {
        if found.len() == MOST_SUBSCRIPTS {
            return Err(refusal_at(Wrong::Form, rest));
        }
        make_room(&mut found)?;
        let (item, after) = subscript(alloc, context, after)?;
        found.push_reserved(item);
        rest = after;
    }
    Ok((found, rest))
}

// Calls `subs`, as a function of its own, so that the slot of the result is cleared only if there are subscripts.
#[cycle(reading)]
#[inline(always)]
fn some_subs<'a>(
    alloc: Global,
    context: &Context,
    bytes: &'a [u8],
) -> Result<(Vec<Subscript>, &'a [u8]), Failure<Offence>>
    ensures { Reads (λ x. (sub_trees x.0.items, x.1.now)) result
        (few 32 (list_with (placed context.now.end (nested_in context.now)) bytes.now)) }
{
    subs(alloc, context, bytes)
}

/// Reads the subscripts at the front: the subscripts, and the rest. Without a parenthesis there are none.
#[tactic(auto, unfolding(crate::specs::Reading::subs_with))]
#[cycle(reading)]
#[inline(always)]
pub(crate) fn subscripts<'a>(
    alloc: Global,
    context: &Context,
    bytes: &'a [u8],
) -> Result<(Vec<Subscript>, &'a [u8]), Failure<Offence>>
    ensures { Reads (λ x. (sub_trees x.0.items, x.1.now)) result (subs_with context.now.end (nested_in context.now) bytes.now) }
{
    let Some(rest) = byte_of(b'(', bytes) else {
        return Ok((Vec::new(alloc), bytes));
    };
    some_subs(alloc, context, rest)
}

/// Reads a local with its subscripts.
#[cycle(reading)]
#[inline(always)]
pub(crate) fn local<'a>(
    alloc: Global,
    context: &Context,
    bytes: &'a [u8],
) -> Result<(Expr, &'a [u8]), Failure<Offence>>
    ensures { Reads (λ x. (tree_of x.0, x.1.now)) result (local_with context.now.end (nested_in context.now) bytes.now) }
{
    let (name, rest) = name(alloc, bytes)?;
    let (subs, rest) = subscripts(alloc, context, rest)?;
    Ok((Expr::Local(name, subs), rest))
}

/// Reads a global with its subscripts, after its caret, at which `whole` begins.
#[cycle(reading)]
#[inline(always)]
pub(crate) fn global<'a>(
    alloc: Global,
    context: &Context,
    whole: &[u8],
    bytes: &'a [u8],
) -> Result<(Expr, &'a [u8]), Failure<Offence>>
    ensures { Reads (λ x. (tree_of x.0, x.1.now)) result
        (global_with (globals_may context.now.allows) context.now.end (column_of context.now.end whole.now)
        (nested_in context.now) bytes.now) }
{
    let (name, rest) = global_name(alloc, context.allows, whole, bytes)?;
    let (subs, rest) = subscripts(alloc, context, rest)?;
    Ok((
        Expr::Global(column_of(context.end, whole), name, subs),
        rest,
    ))
}
