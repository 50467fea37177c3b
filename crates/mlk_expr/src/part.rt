// The readers of parts without expressions.

ghost use Rattle.std.specs.Prelude.{◌≡◌, ◌<◌, [], vec_len, vec_capacity, IfOk};
ghost use Rattle.mlk_text.specs.Failures.{Reads, IsRefused};
ghost use Rattle.mlk_text.specs.Lexemes.{name_at, label_at, inside};
ghost use Rattle.mlk_text.specs.Reading.{with};
ghost use Rattle.mlk_expr_tokens.specs.Lexemes.{numeral_at, lent_at};
ghost use Rattle.mlk_syntax.specs.ExprTrees.{Lit, tree_of};
ghost use Rattle.mlk_expr.specs.Grammar.{named, has_subscript, takes};
ghost use Rattle.mlk_expr.specs.Reading.{where_may, number_of, callee_at};
ghost use Rattle.mlk_expr.specs.Touches.{globals_may};

use crate::context::Allows;
use crate::refusal::{
    Offence, Wrong, no_global, no_label, no_name, no_number, no_routine, refusal_at,
};
use mlk_expr_tokens::numeral::numeral_at;
use mlk_numbers::canonical_text;
use mlk_syntax::{Callee, Expr, Function};
use mlk_text::lexeme::{byte_of, is_text_byte};
use mlk_text::spelling::{label_text, name_text};
use mlk_text::{Failure, Name, Value, likely_length, literal, make_room};
use std::alloc::{AllocError, Global};

/// An empty list, with room for the number of items that the list at `bytes` seems to have.
#[inline(always)]
pub(crate) fn list_room<T: Drop>(alloc: Global, bytes: &[u8]) -> Result<Vec<T>, AllocError>
    ensures empty { IfOk result (λ v. v.items ≡ []) }
    ensures spare { IfOk result (λ v. vec_len v < vec_capacity v) }
{
    let mut room = Vec::with_capacity(alloc, likely_length(b',', b')', bytes))?;
    make_room(&mut room)?;
    Ok(room)
}

/// Reads the name at the front: the name, and the rest.
#[inline(always)]
pub(crate) fn name(alloc: Global, bytes: &[u8]) -> Result<(Name, &[u8]), Failure<Offence>>
    ensures { Reads (λ x. (x.0, x.1.now)) result (name_at bytes.now) }
{
    let Some((text, rest)) = name_text(bytes) else {
        return Err(no_name(bytes));
    };
    Ok((Name::of(alloc, text)?, rest))
}

// Why there is no quoted text after its opening quote: a byte that is not allowed in it, or the line's end.
fn no_text(bytes: &[u8]) -> Failure<Offence>
    ensures { IsRefused result }
{
    for (i, b) in bytes.iter().enumerate() {
        if !is_text_byte(*b) {
            let (_, rest) = bytes.split_at(i);
            return refusal_at(Wrong::Form, rest);
        }
    }
    refusal_at(Wrong::Form, &[])
}

/// Reads the value up to the closing quote: the value, and the rest.
#[inline(always)]
pub(crate) fn quoted_value(alloc: Global, bytes: &[u8]) -> Result<(Value, &[u8]), Failure<Offence>>
    ensures { Reads (λ x. (x.0, x.1.now)) result (inside bytes.now) }
{
    match literal::quoted_value(alloc, bytes) {
        Ok((value, rest)) => Ok((value, rest)),
        Err(Failure::OutOfMemory) => Err(Failure::OutOfMemory),
        Err(Failure::Refused(_)) => Err(no_text(bytes)),
    }
}

/// Reads the text up to the closing quote: its tree, and the rest.
#[inline(always)]
pub(crate) fn text(alloc: Global, bytes: &[u8]) -> Result<(Expr, &[u8]), Failure<Offence>>
    ensures { Reads (λ x. (tree_of x.0, x.1.now)) result (with Lit (inside bytes.now)) }
{
    let (value, rest) = quoted_value(alloc, bytes)?;
    Ok((Expr::Lit(value), rest))
}

// The tree of a numeric literal.
#[inline(always)]
fn number_of(alloc: Global, text: &[u8]) -> Result<Expr, AllocError>
    ensures { IfOk result (λ e. tree_of e ≡ number_of text.now) }
{
    match canonical_text(alloc, text)? {
        Some(value) => Ok(Expr::Lit(value)),
        None => Ok(Expr::Free),
    }
}

/// Reads the numeric literal at the front: its tree, and the rest.
#[inline(always)]
pub(crate) fn number(alloc: Global, bytes: &[u8]) -> Result<(Expr, &[u8]), Failure<Offence>>
    ensures { Reads (λ x. (tree_of x.0, x.1.now)) result (with number_of (numeral_at bytes.now)) }
{
    let Some((text, rest)) = numeral_at(bytes) else {
        return Err(no_number(bytes));
    };
    Ok((number_of(alloc, text)?, rest))
}

/// Reads the name at the front; a refusal says which part of M is not read here.
pub(crate) fn plain_name(alloc: Global, bytes: &[u8]) -> Result<(Name, &[u8]), Failure<Offence>>
    ensures { Reads (λ x. (x.0, x.1.now)) result (name_at bytes.now) }
{
    match name(alloc, bytes) {
        Ok((name, rest)) => Ok((name, rest)),
        Err(Failure::OutOfMemory) => Err(Failure::OutOfMemory),
        Err(Failure::Refused(_)) => Err(no_label(bytes)),
    }
}

/// Reads the label at the front: the label, and the rest.
pub(crate) fn label(alloc: Global, bytes: &[u8]) -> Result<(Name, &[u8]), Failure<Offence>>
    ensures { Reads (λ x. (x.0, x.1.now)) result (label_at bytes.now) }
{
    let Some((text, rest)) = label_text(bytes) else {
        return Err(no_label(bytes));
    };
    Ok((Name::of(alloc, text)?, rest))
}

// Reads the name of a routine: the name, and the rest. `whole` begins at its caret, `bytes` after it.
fn routine<'a>(
    alloc: Global,
    whole: &[u8],
    bytes: &'a [u8],
) -> Result<(Name, &'a [u8]), Failure<Offence>>
    ensures { Reads (λ x. (x.0, x.1.now)) result (name_at bytes.now) }
{
    match name(alloc, bytes) {
        Ok((name, rest)) => Ok((name, rest)),
        Err(Failure::OutOfMemory) => Err(Failure::OutOfMemory),
        Err(Failure::Refused(_)) => Err(no_routine(whole, bytes)),
    }
}

/// Reads the callee after `$$`: the callee, and the rest.
#[tactic(auto, unfolding(crate::specs::Reading::callee_at))]
pub(crate) fn callee(alloc: Global, bytes: &[u8]) -> Result<(Callee, &[u8]), Failure<Offence>>
    ensures { Reads (λ x. (x.0, x.1.now)) result (callee_at bytes.now) }
{
    if let Some(after) = byte_of(b'^', bytes) {
        let (routine, rest) = routine(alloc, bytes, after)?;
        let routine = Some(routine);
        return Ok((
            Callee {
                label: None,
                routine,
            },
            rest,
        ));
    }
    let (label, rest) = label(alloc, bytes)?;
    let label = Some(label);
    let Some(after) = byte_of(b'^', rest) else {
        let routine = None;
        return Ok((Callee { label, routine }, rest));
    };
    let (routine, rest) = routine(alloc, rest, after)?;
    let routine = Some(routine);
    Ok((Callee { label, routine }, rest))
}

/// Reads the name of a global: the name, and the rest. `whole` begins at its caret, `bytes` after it.
#[inline(always)]
pub(crate) fn global_name<'a>(
    alloc: Global,
    allows: Allows,
    whole: &[u8],
    bytes: &'a [u8],
) -> Result<(Name, &'a [u8]), Failure<Offence>>
    ensures { Reads (λ x. (x.0, x.1.now)) result (where_may (globals_may allows) (name_at bytes.now)) }
{
    if !allows.globals() {
        return Err(no_global(allows, whole, bytes));
    }
    match name(alloc, bytes) {
        Ok((name, rest)) => Ok((name, rest)),
        Err(Failure::OutOfMemory) => Err(Failure::OutOfMemory),
        Err(Failure::Refused(_)) => Err(no_global(allows, whole, bytes)),
    }
}

/// How many arguments `function` may have after the first, if the first must be a name; otherwise `None`.
pub(crate) fn most_after_name(function: Function) -> Option<usize>
    ensures { result ≡ named function }
{
    match function {
        Function::Data | Function::Query => Some(0),
        Function::Get | Function::Increment | Function::Name | Function::Order => Some(1),
        _ => None,
    }
}

/// Whether `tree` is a name with a subscript.
pub(crate) fn has_subscript(tree: &Expr) -> bool
    ensures { result ≡ has_subscript (tree_of tree.now) }
{
    match tree {
        Expr::Local(_, subs) => !subs.is_empty(),
        Expr::Global(_, _, subs) => !subs.is_empty(),
        _ => false,
    }
}

/// Whether `function`, whose first argument is a name, takes this one.
pub(crate) fn takes(function: Function, tree: &Expr) -> bool
    ensures { result ≡ takes function (tree_of tree.now) }
{
    match (function, tree) {
        (Function::Order, _) => has_subscript(tree),
        (Function::Increment, Expr::Global(_, _, _)) => true,
        (Function::Increment, _) => false,
        _ => true,
    }
}
