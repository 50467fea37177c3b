// Functions and special variables: everything that begins with `$`.

ghost use Rattle.std.specs.Prelude.{◌≡◌, ◌<◌, vec_len, vec_capacity, ◌∷◌, [], suc, length};
ghost use Rattle.mlk_text.specs.Lexemes.{byte_at};
ghost use Rattle.mlk_text.specs.Reading.{many, put};
ghost use Rattle.mlk_expr_tokens.specs.Lexemes.{column_of};
ghost use Rattle.mlk_syntax.specs.ExprTrees.{tree_of, trees, choice_of, choices};
ghost use Rattle.mlk_expr.specs.Reading.{few, next, nested_in, list_with, choice_with, arguments_with, function_with};
ghost use Rattle.mlk_expr.specs.Reading.{dollar_with, atom_in, quiet};
ghost use Rattle.mlk_text.specs.Failures.{Reads};

use crate::context::{Allows, Context};
use crate::part::{list_room, most_after_name, takes};
use crate::read::actuals::call;
use crate::read::{atom, chain};
use crate::refusal::{
    Offence, Wrong, no_arguments_end, no_end, no_function, no_operand, no_word, not_taken,
    refusal_at,
};
use mlk_expr_tokens::lexeme::starts_reference;
use mlk_expr_tokens::words::{function_of, is_select, special_of};
use mlk_syntax::{Expr, Function};
use mlk_text::lexeme::{byte_of, word_at};
use mlk_text::{Failure, drop_and_return, make_room};
use std::alloc::Global;

// Reads expressions up to the closing parenthesis.
#[tactic(auto, unfolding(crate::specs::Reading::list_with))]
#[cycle(reading)]
fn exprs<'a>(
    alloc: Global,
    context: &Context,
    bytes: &'a [u8],
) -> Result<(Vec<Expr>, &'a [u8]), Failure<Offence>>
    ensures { Reads (λ x. (trees x.0.items, x.1.now)) result (list_with (nested_in context.now) bytes.now) }
{
    let (first, rest) = chain(alloc, context, bytes)?;
    let room = list_room(alloc, rest)?;
    let (found, rest) = exprs_rest(alloc, context, room, first, rest)?;
    let Some(rest) = byte_of(b')', rest) else {
        return Err(no_end(rest));
    };
    Ok((found, rest))
}

#[cycle(reading)]
fn exprs_rest<'a>(
    alloc: Global,
    context: &Context,
    room: Vec<Expr>,
    first: Expr,
    bytes: &'a [u8],
) -> Result<(Vec<Expr>, &'a [u8]), Failure<Offence>>
    requires empty { room.items ≡ [] }
    requires spare { vec_len room < vec_capacity room }
    ensures { Reads (λ x. (trees x.0.items, x.1.now)) result
        (put (tree_of first ∷ []) (many (byte_at 44) (next (nested_in context.now)) (suc (length bytes.now)) bytes.now)) }
{
    let mut found = room;
    found.push_reserved(first);
    let mut rest = bytes;
    while let Some(after) = byte_of(b',', rest) {
        make_room(&mut found)?;
        let (item, after) = chain(alloc, context, after)?;
        found.push_reserved(item);
        rest = after;
    }
    Ok((found, rest))
}

// Reads the arguments after a first one that is a name, at most `most`.
#[cycle(reading)]
fn later_arguments<'a>(
    alloc: Global,
    context: &Context,
    most: usize,
    room: Vec<Expr>,
    first: Expr,
    bytes: &'a [u8],
) -> Result<(Vec<Expr>, &'a [u8]), Failure<Offence>>
    requires empty { room.items ≡ [] }
    requires spare { vec_len room < vec_capacity room }
    ensures { Reads (λ x. (trees x.0.items, x.1.now)) result
        (few (suc most) (put (tree_of first ∷ [])
        (many (byte_at 44) (next (nested_in context.now)) (suc (length bytes.now)) bytes.now))) }
{
    let mut found = room;
    found.push_reserved(first);
    let mut rest = bytes;
    while let Some(after) = byte_of(b',', rest) {
        if found.len() > most {
            return Err(refusal_at(Wrong::Form, rest));
        }
        make_room(&mut found)?;
        let (item, after) = chain(alloc, context, after)?;
        found.push_reserved(item);
        rest = after;
    }
    Ok((found, rest))
}

// Reads the arguments of a function other than `$SELECT`, up to the closing parenthesis.
#[tactic(auto, unfolding(crate::specs::Reading::arguments_with))]
#[cycle(reading)]
fn arguments<'a>(
    alloc: Global,
    context: &Context,
    function: Function,
    bytes: &'a [u8],
) -> Result<(Vec<Expr>, &'a [u8]), Failure<Offence>>
    ensures { Reads (λ x. (trees x.0.items, x.1.now)) result
        (arguments_with (atom_in context.now) (nested_in context.now) (nested_in (quiet context.now)) function bytes.now) }
{
    let Some(most) = most_after_name(function) else {
        return exprs(alloc, context, bytes);
    };
    if !starts_reference(bytes) {
        return Err(no_operand(bytes));
    }
    let (first, rest) = atom(alloc, context, bytes)?;
    if !takes(function, &first) {
        return Err(drop_and_return(first, not_taken(function, bytes, rest)));
    }
    let room = list_room(alloc, rest)?;
    let quiet = Context {
        allows: Allows::NoTouches,
        ..*context
    };
    let (args, rest) = later_arguments(alloc, &quiet, most, room, first, rest)?;
    let Some(rest) = byte_of(b')', rest) else {
        return Err(no_arguments_end(&args, rest));
    };
    Ok((args, rest))
}

// Reads a condition and its value.
#[cycle(reading)]
fn choice<'a>(
    alloc: Global,
    context: &Context,
    bytes: &'a [u8],
) -> Result<((Expr, Expr), &'a [u8]), Failure<Offence>>
    ensures { Reads (λ x. (choice_of x.0, x.1.now)) result (choice_with (nested_in context.now) bytes.now) }
{
    let (condition, rest) = chain(alloc, context, bytes)?;
    let Some(rest) = byte_of(b':', rest) else {
        return Err(drop_and_return(condition, no_end(rest)));
    };
    match chain(alloc, context, rest) {
        Ok((value, rest)) => Ok(((condition, value), rest)),
        Err(failure) => Err(drop_and_return(condition, failure)),
    }
}

// Reads choices up to the closing parenthesis.
#[tactic(auto, unfolding(crate::specs::Reading::list_with))]
#[cycle(reading)]
fn choices<'a>(
    alloc: Global,
    context: &Context,
    bytes: &'a [u8],
) -> Result<(Vec<(Expr, Expr)>, &'a [u8]), Failure<Offence>>
    ensures { Reads (λ x. (choices x.0.items, x.1.now)) result (list_with (choice_with (nested_in context.now)) bytes.now) }
{
    let (first, rest) = choice(alloc, context, bytes)?;
    let room = list_room(alloc, rest)?;
    let (found, rest) = choices_rest(alloc, context, room, first, rest)?;
    let Some(rest) = byte_of(b')', rest) else {
        return Err(no_end(rest));
    };
    Ok((found, rest))
}

#[cycle(reading)]
fn choices_rest<'a>(
    alloc: Global,
    context: &Context,
    room: Vec<(Expr, Expr)>,
    first: (Expr, Expr),
    bytes: &'a [u8],
) -> Result<(Vec<(Expr, Expr)>, &'a [u8]), Failure<Offence>>
    requires empty { room.items ≡ [] }
    requires spare { vec_len room < vec_capacity room }
    ensures { Reads (λ x. (choices x.0.items, x.1.now)) result
        (put (choice_of first ∷ [])
        (many (byte_at 44) (next (choice_with (nested_in context.now))) (suc (length bytes.now)) bytes.now)) }
{
    let mut found = room;
    found.push_reserved(first);
    let mut rest = bytes;
    while let Some(after) = byte_of(b',', rest) {
        make_room(&mut found)?;
        let (item, after) = choice(alloc, context, after)?;
        found.push_reserved(item);
        rest = after;
    }
    Ok((found, rest))
}

// Reads a function after its opening parenthesis.
#[tactic(auto, unfolding(crate::specs::Reading::function_with))]
#[cycle(reading)]
fn function<'a>(
    alloc: Global,
    context: &Context,
    whole: &[u8],
    word: &[u8],
    bytes: &'a [u8],
) -> Result<(Expr, &'a [u8]), Failure<Offence>>
    ensures { Reads (λ x. (tree_of x.0, x.1.now)) result
        (function_with context.now.allows (atom_in context.now) (nested_in context.now) (nested_in (quiet context.now)) word.now bytes.now) }
{
    if is_select(word) {
        let (choices, rest) = choices(alloc, context, bytes)?;
        return Ok((Expr::Select(choices), rest));
    }
    let Some(function) = function_of(word) else {
        return Err(no_function(whole, word));
    };
    if !context.allows.function(function) {
        return Err(no_function(whole, word));
    }
    let (args, rest) = arguments(alloc, context, function, bytes)?;
    Ok((Expr::Func(function, args), rest))
}

/// Reads a function, a special variable or a call after its `$`, at which `whole` begins.
#[tactic(auto, unfolding(crate::specs::Reading::dollar_with))]
#[cycle(reading)]
#[inline(always)]
pub(crate) fn dollar<'a>(
    alloc: Global,
    context: &Context,
    whole: &[u8],
    bytes: &'a [u8],
) -> Result<(Expr, &'a [u8]), Failure<Offence>>
    ensures { Reads (λ x. (tree_of x.0, x.1.now)) result
        (dollar_with context.now.allows context.now.end (atom_in context.now) (nested_in context.now)
        (nested_in (quiet context.now)) (column_of context.now.end whole.now) bytes.now) }
{
    if let Some(rest) = byte_of(b'$', bytes) {
        return call(alloc, context, whole, rest);
    }
    let (word, rest) = word_at(bytes);
    if let Some(after) = byte_of(b'(', rest) {
        return function(alloc, context, whole, word, after);
    }
    let Some(special) = special_of(word) else {
        return Err(no_word(whole, bytes));
    };
    Ok((Expr::Special(special), rest))
}
