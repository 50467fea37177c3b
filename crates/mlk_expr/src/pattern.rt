// The reader of patterns.

ghost use Rattle.std.specs.Prelude.{◌≡◌, ◌<◌, suc, length, nat_lt};
ghost use Rattle.mlk_text.specs.Lexemes.{byte_at};
ghost use Rattle.mlk_text.specs.Reading.{with, many, put};
ghost use Rattle.mlk_expr_tokens.specs.Lexemes.{count_at};
ghost use Rattle.mlk_expr.specs.Reading.{next, list_with, matcher_by, some_atoms, pattern_at, rest_of};
ghost use Rattle.mlk_text.specs.Failures.{Reads};

use crate::part::quoted_value;
use crate::refusal::{Offence, Wrong, no_operand, refusal_at, too_deep_pattern};
use mlk_expr_tokens::lexeme::{count_at, pattern_codes_at};
use mlk_text::Failure;
use mlk_text::lexeme::byte_of;
use std::alloc::Global;

/// Reads the pattern at the front: its text, and the rest. Its alternatives nest at most `left` deep.
#[cycle(patterns)]
pub(crate) fn pattern(
    alloc: Global,
    left: u8,
    bytes: &[u8],
) -> Result<(&[u8], &[u8]), Failure<Offence>>
    ensures { Reads (λ x. (x.0.now, x.1.now)) result (pattern_at left bytes.now) }
{
    if left == 0 {
        return Err(too_deep_pattern(bytes));
    }
    let (found, rest) = atoms(alloc, left - 1, bytes)?;
    if !found {
        return Err(no_operand(bytes));
    }
    let (text, _) = bytes.split_at(bytes.len() - rest.len());
    Ok((text, rest))
}

// Reads all pattern atoms at the front: whether there is one, and the rest.
#[cycle(patterns)]
fn atoms(alloc: Global, deeper: u8, bytes: &[u8]) -> Result<(bool, &[u8]), Failure<Offence>>
    ensures { Reads (λ x. (x.0, x.1.now)) result
        (with (λ l. nat_lt 0 (length l))
        (many count_at (matcher_by (pattern_at deeper)) (suc (length bytes.now)) bytes.now)) }
{
    let mut found = false;
    let mut rest = bytes;
    while let Some((count, after)) = count_at(rest) {
        rest = matcher(alloc, deeper, count, after)?;
        found = true;
    }
    Ok((found, rest))
}

// Reads what follows the count of a pattern atom.
#[cycle(patterns)]
fn matcher<'a>(
    alloc: Global,
    deeper: u8,
    count: &[u8],
    bytes: &'a [u8],
) -> Result<&'a [u8], Failure<Offence>>
    ensures { Reads (λ x. (count.now, x.now)) result (matcher_by (pattern_at deeper) count.now bytes.now) }
{
    let Some((first, after)) = bytes.split_first() else {
        return Err(refusal_at(Wrong::Form, bytes));
    };
    if *first == b'"' {
        let (_, rest) = quoted_value(alloc, after)?;
        return Ok(rest);
    }
    if *first == b'(' {
        let rest = alternatives(alloc, deeper, after)?;
        return Ok(rest);
    }
    let Some((_, rest)) = pattern_codes_at(bytes) else {
        return Err(refusal_at(Wrong::Form, bytes));
    };
    Ok(rest)
}

// Reads patterns separated by commas, after an opening parenthesis, and returns the rest after the closing one.
#[tactic(auto, unfolding(crate::specs::Reading::list_with))]
#[cycle(patterns)]
fn alternatives(alloc: Global, deeper: u8, bytes: &[u8]) -> Result<&[u8], Failure<Offence>>
    ensures { Reads (λ x. x.now) result (rest_of (list_with (pattern_at deeper) bytes.now)) }
{
    let (_, rest) = pattern(alloc, deeper, bytes)?;
    let rest = alternatives_rest(alloc, deeper, rest)?;
    let Some(rest) = byte_of(b')', rest) else {
        return Err(refusal_at(Wrong::Form, rest));
    };
    Ok(rest)
}

#[cycle(patterns)]
fn alternatives_rest(alloc: Global, deeper: u8, bytes: &[u8]) -> Result<&[u8], Failure<Offence>>
    ensures { Reads (λ x. x.now) result
        (rest_of (many (byte_at 44) (next (pattern_at deeper)) (suc (length bytes.now)) bytes.now)) }
{
    let mut rest = bytes;
    while let Some(after) = byte_of(b',', rest) {
        let (_, item_rest) = pattern(alloc, deeper, after)?;
        rest = item_rest;
    }
    Ok(rest)
}
