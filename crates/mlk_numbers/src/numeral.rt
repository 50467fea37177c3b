// Numeric literals and their canonical texts.

ghost use Rattle.std.specs.Prelude.{◌≡◌, ◌==◌, ◌≤◌, ◌+◌, ◌++◌, ℕ, List, length, nat_lt, option_map, Decides, IfOk, MatchOption};
ghost use Rattle.mlk_text.specs.Lexemes.{zeros, to_last, are_digits};
ghost use Rattle.mlk_numbers.specs.Outcome.{Finds};
ghost use Rattle.mlk_numbers.specs.Numbers.{pointed, after_point, IsNumeral, IsExact, IsCanonical};
ghost use Rattle.mlk_numbers.specs.Canonical.{canonical_text};

use mlk_text::Value;
use mlk_text::lexeme::{byte_of, digits, is_digit};
use mlk_text::limit::{MOST_DIGITS, MOST_SIGNIFICANT};
use mlk_text::literal::{to_last, zeros};
use std::alloc::{AllocError, Global};

/// Whether `bytes` are digits only.
pub(crate) fn are_digits(bytes: &[u8]) -> bool
    ensures { result ≡ are_digits bytes.now }
{
    bytes.iter().all(|b| is_digit(*b))
}

fn has_digit(before: &[u8], after: &[u8]) -> bool
    ensures { result ≡ nat_lt 0 (length before.now + length after.now) }
{
    !before.is_empty() || !after.is_empty()
}

// The digits after the point, none if `bytes` are empty; `None` if something else than a point follows.
fn after_point(bytes: &[u8]) -> Option<&[u8]>
    ensures { option_map (λ x. x.now) result ≡ after_point bytes.now }
{
    if bytes.is_empty() {
        return Some(bytes);
    }
    byte_of(b'.', bytes)
}

// The digits before and after the point, or `None` if `literal` is not a numeral.
fn parts(literal: &[u8]) -> Option<(&[u8], &[u8])>
    ensures { MatchOption result ((before after : List ℕ) → IsNumeral before after literal.now → ⊥)
        (λ p. IsNumeral p.0.now p.1.now literal.now) }
{
    let (before, rest) = literal.split_at(digits(literal));
    let after = after_point(rest)?;
    if !are_digits(after) || !has_digit(before, after) {
        return None;
    }
    Some((before, after))
}

// The number of zeros at the front of `before` and `after` joined.
fn leading_zeros(before: &[u8], after: &[u8]) -> usize
    requires { length before.now + length after.now ≤ 50 }
    ensures { result ≡ zeros (before.now ++ after.now) }
{
    let count = zeros(before);
    if count == before.len() {
        count + zeros(after)
    } else {
        count
    }
}

// The number of digits of `before` and `after` joined, up to the last nonzero digit.
#[tactic(auto, using(crate::proofs::Zeros::last_append, crate::proofs::Zeros::last_within))]
fn up_to_last(before: &[u8], after: &[u8]) -> usize
    requires { length before.now + length after.now ≤ 50 }
    ensures { result ≡ to_last (before.now ++ after.now) }
{
    let count = to_last(after);
    if count == 0 {
        to_last(before)
    } else {
        before.len() + count
    }
}

fn is_exact(before: &[u8], after: &[u8]) -> bool
    ensures { Decides result (IsExact before.now after.now) }
{
    if before.len() > MOST_DIGITS || after.len() > MOST_DIGITS {
        return false;
    }
    if before.len() + after.len() <= MOST_SIGNIFICANT {
        return true;
    }
    up_to_last(before, after) <= leading_zeros(before, after) + MOST_SIGNIFICANT
}

// Joins the digits with a point, or returns `before` alone if there is no fraction.
fn join_digits(alloc: Global, before: &[u8], after: &[u8]) -> Result<Value, AllocError>
    ensures { IfOk result (λ v. v ≡ pointed before.now after.now) }
{
    if !after.is_empty() {
        let mut text = Vec::from_slice(alloc, before)?;
        text.push(b'.')?;
        text.extend_from_slice(after)?;
        return Ok(Value::new(text));
    }
    if before.is_empty() {
        return Value::of(alloc, b"0");
    }
    Value::of(alloc, before)
}

/// The canonical text of the numeric literal `literal`, or `None` if it has none.
#[tactic(auto, using(crate::proofs::Zeros::last_within))]
pub fn canonical_text(alloc: Global, literal: &[u8]) -> Result<Option<Value>, AllocError>
    ensures found { IfOk result (Finds (IsCanonical literal.now)) }
    ensures same { IfOk result (λ v. v ≡ canonical_text literal.now) }
{
    let Some((before, after)) = parts(literal) else {
        return Ok(None);
    };
    if !is_exact(before, after) {
        return Ok(None);
    }
    let (_, whole) = before.split_at(zeros(before));
    let (fraction, _) = after.split_at(to_last(after));
    Ok(Some(join_digits(alloc, whole, fraction)?))
}
