// The tokens of an expression, and the parts of a command, in the text of a line.

use mlk_excerpts::{is_of_word, split_at_most};
use mlk_expr_tokens::lexeme::{is_match, op_at};
use mlk_expr_tokens::numeral::numeral_at;

/// The bytes of `text` from the index `at` on.
pub(crate) fn rest_at(text: &[u8], at: usize) -> &[u8] {
    let (_, rest) = split_at_most(text, at);
    rest
}

// Whether `byte` only separates tokens.
fn is_mark(byte: u8) -> bool {
    matches!(byte, b'(' | b')' | b',' | b':')
}

// The rest of `text` after the marks at its front.
fn after_marks(text: &[u8]) -> &[u8] {
    rest_at(text, text.iter().take_while(|byte| is_mark(**byte)).count())
}

// The rest of `text` after the word at its front, whose first byte is skipped in any case.
fn after_word(text: &[u8]) -> &[u8] {
    let rest = rest_at(text, 1);
    rest_at(
        rest,
        rest.iter().take_while(|byte| is_of_word(**byte)).count(),
    )
}

// The rest of `text` after a quoted text, whose quotes are doubled inside.
fn after_quoted(text: &[u8]) -> &[u8] {
    let mut is_open = false;
    for (at, byte) in text.iter().enumerate() {
        if *byte == b'"' {
            is_open = !is_open;
        } else if !is_open {
            return rest_at(text, at);
        }
    }
    &[]
}

// The rest of `text` after the atoms of a pattern.
fn after_pattern(text: &[u8]) -> &[u8] {
    let mut is_open = false;
    let mut depth: usize = 0;
    for (at, byte) in text.iter().enumerate() {
        let is_over = match *byte {
            b'"' => {
                is_open = !is_open;
                false
            }
            _ if is_open => false,
            b'(' => {
                depth = depth.saturating_add(1);
                false
            }
            b')' if depth > 0 => {
                depth = depth.saturating_sub(1);
                false
            }
            other => depth == 0 && !other.is_ascii_alphanumeric() && other != b'.',
        };
        if is_over {
            return rest_at(text, at);
        }
    }
    &[]
}

// The rest of `text` after the operator at its front, a prefix too, and after the pattern that a match has.
fn after_operator(text: &[u8]) -> &[u8] {
    match op_at(text) {
        Some((op, rest)) if is_match(op) => after_pattern(rest),
        Some((_, rest)) => rest,
        None => rest_at(text, 1),
    }
}

// The rest of `text` after the token at its front.
fn after_token(text: &[u8]) -> &[u8] {
    let Some(first) = text.first() else {
        return text;
    };
    if *first == b'"' {
        return after_quoted(text);
    }
    if let Some((_, rest)) = numeral_at(text) {
        return rest;
    }
    if is_of_word(*first) || *first == b'.' {
        return after_word(text);
    }
    after_operator(text)
}

/// How many bytes of `text` are before its token number `token`, from 0; `None` if there are fewer tokens.
pub(crate) fn token_place(text: &[u8], token: usize) -> Option<usize> {
    let mut rest = after_marks(text);
    for _ in 0..token {
        rest = after_marks(after_token(rest));
    }
    if rest.is_empty() {
        return None;
    }
    Some(text.len().saturating_sub(rest.len()))
}

/// How many bytes of `text` are before the first `stop` that is outside of quotes and parentheses; `None` if the text ends before
/// that, or a parenthesis or the command does.
pub(crate) fn find_outside(text: &[u8], stop: u8) -> Option<usize> {
    let mut is_open = false;
    let mut depth: usize = 0;
    for (at, byte) in text.iter().enumerate() {
        let is_outside = !is_open && depth == 0;
        if is_outside && *byte == stop {
            return Some(at);
        }
        match *byte {
            b'"' => is_open = !is_open,
            _ if is_open => {}
            b'(' => depth = depth.saturating_add(1),
            b')' | b' ' if is_outside => return None,
            b')' => depth = depth.saturating_sub(1),
            _ => {}
        }
    }
    None
}
