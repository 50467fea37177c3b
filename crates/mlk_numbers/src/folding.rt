// Exact results of operators.

ghost use Rattle.std.specs.Prelude.{◌≡◌, ◌<◌, ◌≤◌, ◌^◌, ℕ, true, length, ℤ, List, pos, neg_ℤ};
ghost use Rattle.std.specs.Prelude.{unsigned_abs, decimal, Decides, IfOk, MatchOption};
ghost use Rattle.std.specs.Fmt.{signed_decimal};
ghost use Rattle.mlk_numbers.specs.Numbers.{number_of_digits};
ghost use Rattle.mlk_text.specs.Lexemes.{are_digits};
ghost use Rattle.mlk_numbers.specs.Outcome.{Finds};
ghost use Rattle.mlk_numbers.specs.Folding.{IsPlain, IsWhole, IsFold, IsUnaryFold, is_short, folded};
ghost use Rattle.mlk_numbers.specs.Operators.{fold_between, fold_before};

use crate::numeral::are_digits;
use mlk_text::lexeme::byte_of;
use mlk_text::limit::{LONGEST_JOIN, MOST_SIGNIFICANT};
use mlk_text::{Op, UnaryOp, Value};
use std::alloc::{AllocError, Global};

const LIMIT: i64 = 1_000_000_000_000_000;

// The number that `digits` denote.
fn number_of(digits: &[u8]) -> u64
    requires shape { are_digits digits.now ≡ true }
    requires short { length digits.now ≤ 15 }
    ensures { result ≡ number_of_digits digits.now }
{
    let mut number = 0;
    for digit in digits {
        number = 10 * number + (*digit - b'0') as u64;
    }
    number
}

// Whether `digits` are 1 to 15 digits without a leading zero.
fn is_plain(digits: &[u8]) -> bool
    ensures { Decides result (IsPlain digits.now) }
{
    if !are_digits(digits) || digits.is_empty() || digits.len() > MOST_SIGNIFICANT {
        return false;
    }
    digits[0] != b'0' || digits.len() == 1
}

// The number that `digits` denote, or `None` unless they are 1 to 15 digits without a leading zero.
fn magnitude(digits: &[u8]) -> Option<u64>
    ensures { Finds (λ n. (n < 10 ^ 15) × (digits.now ≡ decimal n)) result }
{
    if is_plain(digits) {
        Some(number_of(digits))
    } else {
        None
    }
}

/// The number whose canonical text is `text`, or `None` if `text` is not a whole number of at most 15 digits.
pub fn whole_number(text: &[u8]) -> Option<i64>
    ensures { Finds (λ z. IsWhole z text.now) result }
{
    let Some(digits) = byte_of(b'-', text) else {
        let number = magnitude(text)?;
        return Some(number as i64);
    };
    let number = magnitude(digits)?;
    if number == 0 {
        return None;
    }
    Some(-(number as i64))
}

fn is_short(number: i64) -> bool
    ensures { result ≡ is_short number }
{
    -LIMIT < number && number < LIMIT
}

/// The exact sum, difference or product, or `None` if an operand or the result has more than 15 digits.
pub fn fold_number(op: Op, a: i64, b: i64) -> Option<i64>
    ensures { result ≡ folded op a b }
{
    if !is_short(a) || !is_short(b) {
        return None;
    }
    let answer = match op {
        Op::Add => a + b,
        Op::Subtract => a - b,
        Op::Multiply => a.checked_mul(b)?,
        _ => return None,
    };
    if is_short(answer) { Some(answer) } else { None }
}

// The text of the whole number `number`.
fn text_of(alloc: Global, number: i64) -> Result<Value, AllocError>
    ensures { IfOk result (λ v. v ≡ signed_decimal number) }
{
    let text = format!(in alloc; "{number}")?;
    Ok(Value::new(text.into_bytes()))
}

fn concatenate(alloc: Global, a: &Value, b: &Value) -> Result<Option<Value>, AllocError>
    ensures { IfOk result (Finds (IsFold Op.Concatenate a.now b.now)) }
{
    let (a, b) = (a.as_bytes(), b.as_bytes());
    if a.len() > LONGEST_JOIN || a.len() + b.len() > LONGEST_JOIN {
        return Ok(None);
    }
    let mut text = Vec::from_slice(alloc, a)?;
    text.extend_from_slice(b)?;
    Ok(Some(Value::new(text)))
}

// The exact result of `op` on the texts of two whole numbers, or `None` if there is none.
fn fold_texts(op: Op, a: &Value, b: &Value) -> Option<i64>
    ensures { Finds (λ z. (x y : ℤ) × IsWhole x a.now × IsWhole y b.now × (folded op x y ≡ Some z)) result }
{
    let x = whole_number(a.as_bytes())?;
    let y = whole_number(b.as_bytes())?;
    fold_number(op, x, y)
}

// The exact result of `op` on two texts, or `None` if there is none.
fn exact_result(alloc: Global, op: Op, a: &Value, b: &Value) -> Result<Option<Value>, AllocError>
    ensures { IfOk result (Finds (IsFold op a.now b.now)) }
{
    if let Op::Concatenate = op {
        return concatenate(alloc, a, b);
    }
    let Some(answer) = fold_texts(op, a, b) else {
        return Ok(None);
    };
    Ok(Some(text_of(alloc, answer)?))
}

/// The result of `op` on two values, or `None` if it is not exact. Exact are sums, differences and products of whole numbers
/// of at most 15 digits, and joined texts of at most 255 bytes.
pub fn fold(alloc: Global, op: Op, a: &Value, b: &Value) -> Result<Option<Value>, AllocError>
    ensures { IfOk result (λ v. v ≡ fold_between op a.now b.now) }
{
    let found = exact_result(alloc, op, a, b)?;
    Ok(found)
}

fn negate(alloc: Global, a: &Value) -> Result<Option<Value>, AllocError>
    ensures { IfOk result (Finds (IsUnaryFold UnaryOp.Minus a.now)) }
{
    let Some(number) = whole_number(a.as_bytes()) else {
        return Ok(None);
    };
    Ok(Some(text_of(alloc, -number)?))
}

// Turns `0` into `1` and `1` into `0`; `None` for any other text.
fn invert_truth(alloc: Global, a: &Value) -> Result<Option<Value>, AllocError>
    ensures { IfOk result (Finds (IsUnaryFold UnaryOp.Not a.now)) }
{
    let opposite: &[u8] = match a.as_bytes() {
        b"0" => b"1",
        b"1" => b"0",
        _ => return Ok(None),
    };
    Ok(Some(Value::of(alloc, opposite)?))
}

// The exact result of the unary operator `op` on a text, or `None` if there is none.
fn exact_unary(alloc: Global, op: UnaryOp, a: &Value) -> Result<Option<Value>, AllocError>
    ensures { IfOk result (Finds (IsUnaryFold op a.now)) }
{
    match op {
        UnaryOp::Plus => match whole_number(a.as_bytes()) {
            Some(_) => Ok(Some(Value::of(alloc, a.as_bytes())?)),
            None => Ok(None),
        },
        UnaryOp::Minus => negate(alloc, a),
        UnaryOp::Not => invert_truth(alloc, a),
    }
}

/// The result of the unary operator `op` on a value, or `None` if it is not exact. Exact are `+` and `-` of a whole number of
/// at most 15 digits, and `'` of `0` and `1`.
pub fn fold_unary(alloc: Global, op: UnaryOp, a: &Value) -> Result<Option<Value>, AllocError>
    ensures { IfOk result (λ v. v ≡ fold_before op a.now) }
{
    let found = exact_unary(alloc, op, a)?;
    Ok(found)
}
