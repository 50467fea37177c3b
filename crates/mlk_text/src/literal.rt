// Literals and subscripts of M.

ghost use Rattle.std.specs.Prelude.{◌≡◌, ◌≤◌, ◌∷◌, [], suc, length, nat_le, ◌&&◌};
ghost use Rattle.mlk_text.specs.Reading.{put};
ghost use Rattle.mlk_text.specs.Plain.{plain_bytes};
ghost use Rattle.mlk_text.specs.Lexemes.{zeros, to_last, digits_at, exact_digits_at, inside, literal_at};
ghost use Rattle.mlk_text.specs.Lexemes.{list_at, subs_at, canonical, canonical_of, is_exact};
ghost use Rattle.mlk_text.specs.Failures.{Reads};

use crate::failure::Failure;
use crate::lexeme::{byte_of, digits, is_text_byte};
use crate::limit::{MOST_DIGITS, MOST_SIGNIFICANT, MOST_SUBSCRIPTS};
use crate::list::List;
use crate::sequence::{Items, separated_items};
use crate::spelling::NotThere;
use crate::value::Value;
use std::alloc::Global;

/// The number of zeros at the front of `bytes`.
pub fn zeros(bytes: &[u8]) -> usize
    ensures value { result ≡ zeros bytes.now }
    ensures within { result ≤ length bytes.now }
{
    bytes.iter().take_while(|b| **b == b'0').count()
}

/// The length of `bytes` without the zeros at the end.
pub fn to_last(bytes: &[u8]) -> usize
    ensures { result ≡ to_last bytes.now }
{
    let mut last = 0;
    for (i, b) in bytes.iter().enumerate() {
        if *b != b'0' {
            last = i + 1;
        }
    }
    last
}

fn is_exact(digits: &[u8], kept: &[u8]) -> bool
    ensures { result ≡ (nat_le (length digits.now) 25 && nat_le (to_last kept.now) 15) }
{
    digits.len() <= MOST_DIGITS && to_last(kept) <= MOST_SIGNIFICANT
}

/// Reads the digits at the front: their value, and the rest. `NotThere` if there are none.
#[tactic(auto, unfolding(crate::specs::Lexemes::exact_digits_at, crate::specs::Lexemes::digits_at, crate::specs::Lexemes::canonical, crate::specs::Lexemes::is_exact))]
fn number(alloc: Global, bytes: &[u8]) -> Result<(Value, &[u8]), Failure<NotThere>>
    ensures { Reads (λ x. (x.0, x.1.now)) result (exact_digits_at bytes.now) }
{
    let n = digits(bytes);
    if n == 0 {
        return Err(Failure::Refused(NotThere));
    }
    let (text, rest) = bytes.split_at(n);
    let (_, kept) = text.split_at(zeros(text));
    if !is_exact(text, kept) {
        return Err(Failure::Refused(NotThere));
    }
    if kept.is_empty() {
        return Ok((Value::of(alloc, b"0")?, rest));
    }
    Ok((Value::of(alloc, kept)?, rest))
}

// The number of bytes before the next quote, or before a byte that is not allowed in a text.
fn plain_bytes(bytes: &[u8]) -> usize
    ensures value { result ≡ plain_bytes bytes.now }
    ensures within { result ≤ length bytes.now }
{
    bytes
        .iter()
        .take_while(|b| **b != b'"' && is_text_byte(**b))
        .count()
}

// Reads the value up to the closing quote, where `before` has been read already: the value, and the rest.
fn quoted_after<'a>(
    alloc: Global,
    before: &[u8],
    bytes: &'a [u8],
) -> Result<(Value, &'a [u8]), Failure<NotThere>>
    ensures { Reads (λ x. (x.0, x.1.now)) result (put before.now (inside bytes.now)) }
{
    let mut value = Vec::from_slice(alloc, before)?;
    let mut rest = bytes;
    while let Some((first, after)) = rest.split_first() {
        if *first != b'"' {
            if !is_text_byte(*first) {
                return Err(Failure::Refused(NotThere));
            }
            value.push(*first)?;
            rest = after;
            continue;
        }
        let Some(after) = byte_of(b'"', after) else {
            return Ok((Value::new(value), after));
        };
        value.push(b'"')?;
        rest = after;
    }
    Err(Failure::Refused(NotThere))
}

/// Reads the value up to the closing quote: the value, and the rest. `NotThere` if it is not closed.
#[tactic(auto, using(crate::proofs::Quoted::inside_once, crate::proofs::Quoted::inside_plain))]
#[inline(always)]
pub fn quoted_value(alloc: Global, bytes: &[u8]) -> Result<(Value, &[u8]), Failure<NotThere>>
    ensures { Reads (λ x. (x.0, x.1.now)) result (inside bytes.now) }
{
    let (plain, rest) = bytes.split_at(plain_bytes(bytes));
    if let Some(after) = byte_of(b'"', rest) {
        if byte_of(b'"', after).is_none() {
            return Ok((Value::of(alloc, plain)?, after));
        }
    }
    quoted_after(alloc, plain, rest)
}

/// Reads the literal at the front: its value, and the rest. `NotThere` if there is none.
#[tactic(auto, unfolding(crate::specs::Lexemes::literal_at))]
pub fn literal(alloc: Global, bytes: &[u8]) -> Result<(Value, &[u8]), Failure<NotThere>>
    ensures { Reads (λ x. (x.0, x.1.now)) result (literal_at bytes.now) }
{
    let Some((first, after)) = bytes.split_first() else {
        return Err(Failure::Refused(NotThere));
    };
    if *first == b'"' {
        return quoted_value(alloc, after);
    }
    number(alloc, bytes)
}

// Literals separated by commas.
struct Literals;

impl Items for Literals {
    ghost use Rattle.mlk_text.specs.Lexemes.{literal_at, byte_at};

    type Item = Value;

    type Reason = NotThere;

    ghost item_at = { λ _ xs. literal_at xs };

    ghost separator_at = { λ _ xs. byte_at 44 xs };

    ghost separator = { 44 };

    fn item<'a>(
        &self,
        alloc: Global,
        bytes: &'a [u8],
    ) -> Result<(Value, &'a [u8]), Failure<NotThere>> {
        literal(alloc, bytes)
    }

    fn after_separator<'a>(&self, bytes: &'a [u8]) -> Option<&'a [u8]> {
        byte_of(b',', bytes)
    }
}

#[tactic(auto, unfolding(crate::specs::Lexemes::list_at))]
fn list(alloc: Global, bytes: &[u8]) -> Result<(Vec<Value>, &[u8]), Failure<NotThere>>
    ensures { Reads (λ x. (x.0.items, x.1.now)) result (list_at bytes.now) }
{
    let (items, rest) = separated_items(alloc, &Literals, bytes)?;
    let Some(rest) = byte_of(b')', rest) else {
        return Err(Failure::Refused(NotThere));
    };
    Ok((items, rest))
}

/// Reads the subscripts at the front: their values, and the rest. Without a parenthesis there are none.
#[tactic(auto, unfolding(crate::specs::Lexemes::subs_at))]
pub fn subscripts(alloc: Global, bytes: &[u8]) -> Result<(List<Value>, &[u8]), Failure<NotThere>>
    ensures { Reads (λ x. (x.0, x.1.now)) result (subs_at bytes.now) }
{
    let Some(rest) = byte_of(b'(', bytes) else {
        return Ok((List::new(alloc), bytes));
    };
    let (subs, rest) = list(alloc, rest)?;
    if subs.len() > MOST_SUBSCRIPTS {
        return Err(Failure::Refused(NotThere));
    }
    Ok((List::of(subs), rest))
}
