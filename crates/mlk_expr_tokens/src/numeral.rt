// Numeric literals, as written.

ghost use Rattle.std.specs.Prelude.{◌≡◌, ◌≤◌, length, option_map};
ghost use Rattle.mlk_expr_tokens.specs.Lexemes.{signed_len, exponent_len, mantissa_len, has_no_exponent, numeral_at};

use mlk_text::lexeme::digits;

/// The length of the numeric literal at the front without its exponent: 0 if it has no digit.
#[tactic(auto, unfolding(crate::specs::Lexemes::mantissa_len))]
pub fn mantissa_len(bytes: &[u8]) -> usize
    ensures value { result ≡ mantissa_len bytes.now }
    ensures within { result ≤ length bytes.now }
{
    let whole = digits(bytes);
    let (_, rest) = bytes.split_at(whole);
    let Some((first, after)) = rest.split_first() else {
        return whole;
    };
    if *first != b'.' {
        return whole;
    }
    let fraction = digits(after);
    if whole == 0 && fraction == 0 {
        return 0;
    }
    whole + 1 + fraction
}

fn signed_len(bytes: &[u8]) -> usize
    ensures value { result ≡ signed_len bytes.now }
    ensures within { result ≤ length bytes.now }
{
    let Some((first, after)) = bytes.split_first() else {
        return 0;
    };
    if *first != b'+' && *first != b'-' {
        return digits(bytes);
    }
    let n = digits(after);
    if n == 0 { 0 } else { n + 1 }
}

fn exponent_len(bytes: &[u8]) -> usize
    ensures value { result ≡ exponent_len bytes.now }
    ensures within { result ≤ length bytes.now }
{
    let Some((first, after)) = bytes.split_first() else {
        return 0;
    };
    if *first != b'E' {
        return 0;
    }
    let n = signed_len(after);
    if n == 0 { 0 } else { n + 1 }
}

// Whether there is an `E` here without an exponent after it.
fn has_no_exponent(bytes: &[u8]) -> bool
    ensures { result ≡ has_no_exponent bytes.now }
{
    match bytes.split_first() {
        Some((first, after)) => *first == b'E' && signed_len(after) == 0,
        None => false,
    }
}

/// Reads the numeric literal at the front: its text, and the rest. `None` if there is none.
#[tactic(auto, unfolding(crate::specs::Lexemes::numeral_at))]
#[inline(always)]
pub fn numeral_at(bytes: &[u8]) -> Option<(&[u8], &[u8])>
    ensures { option_map (λ x. (x.0.now, x.1.now)) result ≡ numeral_at bytes.now }
{
    let n = mantissa_len(bytes);
    if n == 0 {
        return None;
    }
    let (_, rest) = bytes.split_at(n);
    if has_no_exponent(rest) {
        return None;
    }
    Some(bytes.split_at(n + exponent_len(rest)))
}
