// The smallest parts of lines.

ghost use Rattle.std.specs.Prelude.{◌≡◌, ◌≤◌, ◌-◌, suc, length, option_map, take};
ghost use Rattle.mlk_text.specs.Reading.{many};
ghost use Rattle.mlk_text.specs.Failures.{Reads};
ghost use Rattle.mlk_cert_lexemes.specs.Lists.{upto, below};
ghost use Rattle.mlk_cert_lexemes.specs.Texts.{is_plain};
ghost use Rattle.mlk_cert_lexemes.specs.Reading.{strip, word_at, value_after, leads_zero, number_at, counted_at};
ghost use Rattle.mlk_cert_lexemes.specs.Reading.{hex_value, escaped_at, piece_at, keep, constant_at, entry_at};

use mlk_text::lexeme::{byte_of, digits};
use mlk_text::spelling::{label_text, name};
use mlk_text::{Failure, NotThere, Value};
use std::alloc::Global;

fn strip_word<'a>(word: &[u8], bytes: &'a [u8]) -> Option<&'a [u8]>
    ensures { option_map (λ x. x.now) result ≡ strip word.now bytes.now }
{
    bytes.strip_prefix(word)
}

/// The rest of `bytes` after `word`, or `None` if they do not begin with it.
#[tactic(auto, unfolding(crate::specs::Reading::word_at))]
pub fn word_of<'a>(word: &[u8], bytes: &'a [u8]) -> Option<&'a [u8]>
    ensures { option_map (λ x. (word.now, x.now)) result ≡ word_at word.now bytes.now }
{
    match strip_word(word, bytes) {
        Some(rest) => Some(rest),
        None => None,
    }
}

/// Whether `x` is not above `y`.
pub fn is_upto(x: &[u8], y: &[u8]) -> bool
    ensures { result ≡ upto x.now y.now }
{
    x <= y
}

/// Whether `x` is below `y`.
pub fn is_below(x: &[u8], y: &[u8]) -> bool
    ensures { result ≡ below x.now y.now }
{
    !is_upto(y, x)
}

/// The bytes before `rest`, which is the end of `bytes`.
pub fn front_of<'a>(bytes: &'a [u8], rest: &[u8]) -> &'a [u8]
    ensures { result.now ≡ take (length bytes.now - length rest.now) bytes.now }
{
    let (front, _) = bytes.split_at(bytes.len().saturating_sub(rest.len()));
    front
}

fn value_of(limit: u32, text: &[u8]) -> Option<u32>
    ensures { result ≡ value_after limit 0 text.now }
{
    let mut value: u64 = 0;
    for b in text {
        value = value * 10 + u64::from(b.saturating_sub(b'0'));
        if value > u64::from(limit) {
            return None;
        }
    }
    Some(value as u32)
}

fn leads_zero(text: &[u8]) -> bool
    ensures { result ≡ leads_zero text.now }
{
    match text {
        [first, _, ..] => *first == b'0',
        _ => false,
    }
}

/// Reads the number at the front, up to `limit`: the number, and the rest; otherwise `None`.
#[tactic(auto, unfolding(crate::specs::Reading::number_at, mlk_text::specs::Lexemes::digits_at))]
pub fn number(limit: u32, bytes: &[u8]) -> Option<(u32, &[u8])>
    ensures { option_map (λ x. (x.0, x.1.now)) result ≡ number_at limit bytes.now }
{
    let n = digits(bytes);
    if n == 0 {
        return None;
    }
    let (text, rest) = bytes.split_at(n);
    if leads_zero(text) {
        return None;
    }
    let Some(value) = value_of(limit, text) else {
        return None;
    };
    Some((value, rest))
}

/// `number`, from 1.
pub fn positive_number(limit: u32, bytes: &[u8]) -> Option<(u32, &[u8])>
    ensures { option_map (λ x. (x.0, x.1.now)) result ≡ counted_at limit bytes.now }
{
    let Some((value, rest)) = number(limit, bytes) else {
        return None;
    };
    if value == 0 {
        return None;
    }
    Some((value, rest))
}

/// Whether a byte is written as itself in a constant.
pub(crate) fn is_plain(b: u8) -> bool
    ensures { result ≡ is_plain b }
{
    32 <= b && b <= 126 && b != b'"' && b != b'\\'
}

fn hex_value(b: u8) -> Option<u8>
    ensures { result ≡ hex_value b }
{
    match b {
        b'0'..=b'9' => Some(b - b'0'),
        b'a'..=b'f' => Some(b - b'a' + 10),
        _ => None,
    }
}

fn escaped_byte(bytes: &[u8]) -> Option<(u8, &[u8])>
    ensures { option_map (λ x. (x.0, x.1.now)) result ≡ escaped_at bytes.now }
{
    let Some((first, rest)) = bytes.split_first() else {
        return None;
    };
    let Some((second, rest)) = rest.split_first() else {
        return None;
    };
    let Some(high) = hex_value(*first) else {
        return None;
    };
    let Some(low) = hex_value(*second) else {
        return None;
    };
    let b = high * 16 + low;
    if is_plain(b) || b == b'"' {
        return None;
    }
    Some((b, rest))
}

#[tactic(auto, unfolding(crate::specs::Reading::piece_at))]
fn piece_of(bytes: &[u8]) -> Option<(u8, &[u8])>
    ensures { option_map (λ x. (x.0, x.1.now)) result ≡ piece_at bytes.now }
{
    let Some((first, rest)) = bytes.split_first() else {
        return None;
    };
    if is_plain(*first) {
        return Some((*first, rest));
    }
    if *first == b'"' {
        let Some(rest) = byte_of(b'"', rest) else {
            return None;
        };
        return Some((b'"', rest));
    }
    if *first == b'\\' {
        return escaped_byte(rest);
    }
    None
}

fn value_bytes(alloc: Global, bytes: &[u8]) -> Result<(Vec<u8>, &[u8]), Failure<NotThere>>
    ensures { Reads (λ x. (x.0.items, x.1.now)) result (many piece_at keep (suc (length bytes.now)) bytes.now) }
{
    let mut value = Vec::new(alloc);
    let mut rest = bytes;
    while let Some((b, after)) = piece_of(rest) {
        value.push(b)?;
        rest = after;
    }
    Ok((value, rest))
}

/// Reads the constant at the front: its value, and the rest. `NotThere` if there is none.
#[tactic(auto, unfolding(crate::specs::Reading::constant_at))]
pub fn constant(alloc: Global, bytes: &[u8]) -> Result<(Value, &[u8]), Failure<NotThere>>
    ensures { Reads (λ x. (x.0, x.1.now)) result (constant_at bytes.now) }
{
    let Some(rest) = byte_of(b'"', bytes) else {
        return Err(Failure::Refused(NotThere));
    };
    let (value, rest) = value_bytes(alloc, rest)?;
    let Some(rest) = byte_of(b'"', rest) else {
        return Err(Failure::Refused(NotThere));
    };
    Ok((Value::of(alloc, value.as_slice())?, rest))
}

/// Reads the text of an entry at the front: the text, and the rest. `NotThere` if there is none.
#[tactic(auto, unfolding(crate::specs::Reading::entry_at))]
pub fn entry(alloc: Global, bytes: &[u8]) -> Result<(Value, &[u8]), Failure<NotThere>>
    ensures { Reads (λ x. (x.0, x.1.now)) result (entry_at bytes.now) }
{
    let (label, rest) = match label_text(bytes) {
        Some(found) => found,
        None => bytes.split_at(0),
    };
    let Some(rest) = byte_of(b'^', rest) else {
        return Err(Failure::Refused(NotThere));
    };
    let (routine, rest) = name(alloc, rest)?;
    let mut text = Vec::from_slice(alloc, label)?;
    text.push(b'^')?;
    text.extend_from_slice(routine.as_bytes())?;
    Ok((Value::new(text), rest))
}
