// The reader of numbers in rule files.

ghost use Rattle.std.specs.Prelude.{◌≡◌, ◌≤◌, ◌∷◌, [], length, bytes_eq, IfOk};
ghost use Rattle.mlk_text.specs.Failures.{Reads};
ghost use Rattle.mlk_rules_file.specs.RuleNumbers.{fraction_len, numeral_len, literal_value_at, negative, negative_at};

use mlk_numbers::canonical_text;
use mlk_text::lexeme::digits;
use mlk_text::{Failure, NotThere, Value};
use std::alloc::{AllocError, Global};

// The length of a point with digits at the front of `bytes`.
fn fraction_len(bytes: &[u8]) -> usize
    ensures value { result ≡ fraction_len bytes.now }
    ensures within { result ≤ length bytes.now }
{
    let Some((first, after)) = bytes.split_first() else {
        return 0;
    };
    if *first == b'.' { 1 + digits(after) } else { 0 }
}

// The length of the number at the front of `bytes`.
#[tactic(auto, unfolding(crate::specs::RuleNumbers::numeral_len))]
fn numeral_len(bytes: &[u8]) -> usize
    ensures value { result ≡ numeral_len bytes.now }
    ensures within { result ≤ length bytes.now }
{
    let whole = digits(bytes);
    let (_, rest) = bytes.split_at(whole);
    whole + fraction_len(rest)
}

/// Reads the number at the front: its value, and the rest. `NotThere` if there is none.
#[tactic(auto, unfolding(crate::specs::RuleNumbers::literal_value_at))]
pub fn number(alloc: Global, bytes: &[u8]) -> Result<(Value, &[u8]), Failure<NotThere>>
    ensures { Reads (λ x. (x.0, x.1.now)) result (literal_value_at bytes.now) }
{
    let (text, rest) = bytes.split_at(numeral_len(bytes));
    match canonical_text(alloc, text)? {
        Some(value) => Ok((value, rest)),
        None => Err(Failure::Refused(NotThere)),
    }
}

fn is_zero(text: &[u8]) -> bool
    ensures { result ≡ bytes_eq text.now (48 ∷ []) }
{
    text == b"0".as_slice()
}

// The value of a number after a minus.
fn negative(alloc: Global, value: Value) -> Result<Value, AllocError>
    ensures { IfOk result (λ v. v ≡ negative value) }
{
    if is_zero(value.as_bytes()) {
        return Ok(value);
    }
    let mut text = Vec::from_slice(alloc, b"-")?;
    text.extend_from_slice(value.as_bytes())?;
    Ok(Value::new(text))
}

/// Reads the number at the front, after a minus: its value, and the rest. `NotThere` if there is none.
pub fn negative_number(alloc: Global, bytes: &[u8]) -> Result<(Value, &[u8]), Failure<NotThere>>
    ensures { Reads (λ x. (x.0, x.1.now)) result (negative_at bytes.now) }
{
    let (value, rest) = number(alloc, bytes)?;
    Ok((negative(alloc, value)?, rest))
}
