// Why a text was refused, and where.

ghost use Rattle.std.specs.Prelude.{◌≡◌};
ghost use Rattle.mlk_text.specs.Failures.{IsRefused, IsLike};

use crate::context::{Allows, Passing};
use mlk_expr_tokens::lexeme::{Kind, count_at, kind_of};
use mlk_expr_tokens::numeral::mantissa_len;
use mlk_expr_tokens::words::{function_of, is_select, special_of};
use mlk_syntax::{Actual, Expr, Function};
use mlk_text::lexeme::{byte_of, is_digit, word_at};
use mlk_text::{Failure, LeftOut};
use thiserror::Error;

/// What is wrong.
#[derive(Debug, Drop, Error)]
pub enum Wrong {
    /// a byte that is not allowed here
    #[error("a byte that is not allowed here")]
    Form,
    #[error("a part of M that is not read")]
    LeftOut(LeftOut),
    #[error("too deep")]
    Deep,
    #[error("the name is too long")]
    NameLong,
    /// a name by reference where only values may be passed
    #[error("a name by reference where only values may be passed")]
    Lent,
}

/// What is wrong, and how many bytes of the line are left there.
#[derive(Debug, Drop, Error)]
#[error("{wrong}, {left} bytes before the end of the line")]
pub struct Offence {
    pub wrong: Wrong,
    pub left: usize,
}

/// A refusal at the first of `bytes`.
pub(crate) fn refusal_at(wrong: Wrong, bytes: &[u8]) -> Failure<Offence>
    ensures { IsRefused result }
{
    Failure::Refused(Offence {
        wrong,
        left: bytes.len(),
    })
}

fn leaves_out(what: LeftOut, bytes: &[u8]) -> Failure<Offence>
    ensures { IsRefused result }
{
    refusal_at(Wrong::LeftOut(what), bytes)
}

/// Why there is no name here: it is too long, or no name begins.
pub(crate) fn no_name(bytes: &[u8]) -> Failure<Offence>
    ensures { IsRefused result }
{
    let Some((first, _)) = bytes.split_first() else {
        return refusal_at(Wrong::Form, bytes);
    };
    match kind_of(*first) {
        Kind::Letter => refusal_at(Wrong::NameLong, bytes),
        _ => refusal_at(Wrong::Form, bytes),
    }
}

// The bytes after a sign, or all of them if there is no sign.
fn after_sign(bytes: &[u8]) -> &[u8] {
    match bytes.split_first() {
        Some((first, after)) if *first == b'+' || *first == b'-' => after,
        _ => bytes,
    }
}

/// Why there is no number here, at the byte that should be a digit.
#[inline(always)]
pub(crate) fn no_number(bytes: &[u8]) -> Failure<Offence>
    ensures { IsRefused result }
{
    let (_, rest) = bytes.split_at(mantissa_len(bytes));
    let Some((first, after)) = rest.split_first() else {
        return refusal_at(Wrong::Form, rest);
    };
    if *first == b'E' {
        return refusal_at(Wrong::Form, after_sign(after));
    }
    refusal_at(Wrong::Form, after)
}

/// Why an expression neither continues nor ends here: after `'` a relation is expected.
pub(crate) fn no_end(bytes: &[u8]) -> Failure<Offence>
    ensures { IsRefused result }
{
    match byte_of(b'\'', bytes) {
        Some(after) => refusal_at(Wrong::Form, after),
        None => refusal_at(Wrong::Form, bytes),
    }
}

// Whether a name begins here, too long or not.
fn begins_name(bytes: &[u8]) -> bool {
    match bytes.split_first() {
        Some((first, _)) => match kind_of(*first) {
            Kind::Letter => true,
            _ => false,
        },
        None => false,
    }
}

/// Why there is no actual here, if reading it as an expression was refused: after a point there is neither a digit nor a name
/// that is short enough. If names may not be passed by reference, the point before a name of any length is refused instead.
pub(crate) fn no_actual(
    passing: Passing,
    refusal: Failure<Offence>,
    bytes: &[u8],
) -> Failure<Offence>
    ensures { IsLike refusal result }
{
    let Failure::Refused(offence) = refusal else {
        return Failure::OutOfMemory;
    };
    let Some(after) = byte_of(b'.', bytes) else {
        return Failure::Refused(offence);
    };
    match after.first().copied() {
        Some(b'@') => leaves_out(LeftOut::Indirection, after),
        Some(first) if is_digit(first) => Failure::Refused(offence),
        _ if !passing.is_by_reference() && begins_name(after) => refusal_at(Wrong::Lent, bytes),
        _ => no_name(after),
    }
}

/// Why a list of arguments that begins with a name neither continues nor ends after `args`.
pub(crate) fn no_arguments_end(args: &[Expr], bytes: &[u8]) -> Failure<Offence>
    ensures { IsRefused result }
{
    if args.len() == 1 {
        return refusal_at(Wrong::Form, bytes);
    }
    no_end(bytes)
}

/// Why an actual list neither continues nor ends after `given`.
pub(crate) fn no_actuals_end(given: &[Actual], bytes: &[u8]) -> Failure<Offence>
    ensures { IsRefused result }
{
    match given.last() {
        Some(Actual::Value(_)) => no_end(bytes),
        _ => refusal_at(Wrong::Form, bytes),
    }
}

/// Why there is no global here, after its caret, at which `whole` begins.
pub(crate) fn no_global(allows: Allows, whole: &[u8], after: &[u8]) -> Failure<Offence>
    ensures { IsRefused result }
{
    match after.first().copied() {
        Some(b'(') => leaves_out(LeftOut::Naked, whole),
        Some(b'|') => leaves_out(LeftOut::Environment, whole),
        Some(b'$') => leaves_out(LeftOut::Ssvn, whole),
        Some(b'@') => leaves_out(LeftOut::Indirection, after),
        _ if !allows.globals() => leaves_out(LeftOut::Order, whole),
        _ => no_name(after),
    }
}

/// The refusal of a call where calls are not allowed, at its `$$`.
pub(crate) fn no_call(whole: &[u8]) -> Failure<Offence>
    ensures { IsRefused result }
{
    leaves_out(LeftOut::Order, whole)
}

/// Why there is no label here.
pub(crate) fn no_label(bytes: &[u8]) -> Failure<Offence>
    ensures { IsRefused result }
{
    match bytes.first().copied() {
        Some(b'@') => leaves_out(LeftOut::Indirection, bytes),
        _ => no_name(bytes),
    }
}

/// Why there is no routine's name here, after its caret, at which `whole` begins.
pub(crate) fn no_routine(whole: &[u8], after: &[u8]) -> Failure<Offence>
    ensures { IsRefused result }
{
    match after.first().copied() {
        Some(b'|') => leaves_out(LeftOut::Environment, whole),
        _ => no_label(after),
    }
}

/// Why there is no function and no special variable here, after its `$`.
pub(crate) fn no_word(bytes: &[u8], after: &[u8]) -> Failure<Offence>
    ensures { IsRefused result }
{
    if let Some(b'&') = after.first().copied() {
        return leaves_out(LeftOut::External, bytes);
    }
    let (word, rest) = word_at(after);
    if word.is_empty() {
        return refusal_at(Wrong::Form, after);
    }
    match byte_of(b'(', rest) {
        Some(_) => leaves_out(LeftOut::Function, bytes),
        None => leaves_out(LeftOut::Special, bytes),
    }
}

/// Why `function` does not take the name at the front of `bytes`, after which `rest` is left.
pub(crate) fn not_taken(function: Function, bytes: &[u8], rest: &[u8]) -> Failure<Offence>
    ensures { IsRefused result }
{
    match function {
        Function::Increment => leaves_out(LeftOut::Function, bytes),
        _ => refusal_at(Wrong::Form, rest),
    }
}

/// Why there is no function `word` here, from its `$` on.
pub(crate) fn no_function(bytes: &[u8], word: &[u8]) -> Failure<Offence>
    ensures { IsRefused result }
{
    match bytes.split_first() {
        Some((_, after)) if word.is_empty() => refusal_at(Wrong::Form, after),
        _ => leaves_out(LeftOut::Function, bytes),
    }
}

/// Why no operand and no pattern begins here.
pub(crate) fn no_operand(bytes: &[u8]) -> Failure<Offence>
    ensures { IsRefused result }
{
    match bytes.first().copied() {
        Some(b'@') => leaves_out(LeftOut::Indirection, bytes),
        _ => refusal_at(Wrong::Form, bytes),
    }
}

/// Why a pattern is nested too deep here; a missing count is refused first.
pub(crate) fn too_deep_pattern(bytes: &[u8]) -> Failure<Offence>
    ensures { IsRefused result }
{
    match count_at(bytes) {
        Some(_) => refusal_at(Wrong::Deep, bytes),
        None => no_operand(bytes),
    }
}

// Whether the text after a `$` is refused at the `$`, at any depth.
fn is_left_out(allows: Allows, after: &[u8]) -> bool {
    let (word, rest) = word_at(after);
    if word.is_empty() {
        return after.first().copied() == Some(b'&');
    }
    match byte_of(b'(', rest) {
        Some(_) => !is_select(word) && !function_of(word).is_some_and(|it| allows.function(it)),
        None => special_of(word).is_none(),
    }
}

/// Why an operand is nested too deep here; another fault of its first byte is refused first.
#[inline(always)]
pub(crate) fn too_deep(allows: Allows, bytes: &[u8]) -> Failure<Offence>
    ensures { IsRefused result }
{
    let Some((first, after)) = bytes.split_first() else {
        return refusal_at(Wrong::Form, bytes);
    };
    match kind_of(*first) {
        Kind::Other => no_operand(bytes),
        Kind::Caret => match after.first().copied() {
            Some(b'(' | b'|' | b'$') => no_global(allows, bytes, after),
            _ if !allows.globals() => leaves_out(LeftOut::Order, bytes),
            _ => refusal_at(Wrong::Deep, bytes),
        },
        Kind::Dollar => {
            if after.first().copied() == Some(b'$') && !allows.calls() {
                return no_call(bytes);
            }
            if is_left_out(allows, after) {
                return no_word(bytes, after);
            }
            refusal_at(Wrong::Deep, bytes)
        }
        _ => refusal_at(Wrong::Deep, bytes),
    }
}
