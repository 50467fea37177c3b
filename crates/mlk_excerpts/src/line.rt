// The lines of a text, and the tokens on them.

use bstr::{ByteSlice, decode_utf8};
use mlk_text::{Column, LineNumber};
use std::alloc::{AllocError, Global};

/// The lines of a text, without their terminators: a line feed, or a carriage return and a line feed.
#[derive(Drop)]
pub struct TextLines<'a> {
    lines: Vec<&'a [u8]>,
}

impl<'a> TextLines<'a> {
    /// Splits `text` into its lines.
    pub fn of(alloc: Global, text: &'a [u8]) -> Result<TextLines<'a>, AllocError> {
        let mut lines = Vec::new(alloc);
        for line in text.lines() {
            lines.push(line)?;
        }
        Ok(TextLines { lines })
    }

    /// The lines in order.
    pub fn as_slice(&self) -> &[&'a [u8]] {
        self.lines.as_slice()
    }

    /// The line number `number`; `None` if the text has no such line.
    pub fn line(&self, number: LineNumber) -> Option<&'a [u8]> {
        let place = (number.number() as usize).checked_sub(1)?;
        self.lines.as_slice().get(place).copied()
    }
}

/// Splits `bytes` into the first of them, at most `most`, and the others.
pub fn split_at_most(bytes: &[u8], most: usize) -> (&[u8], &[u8]) {
    bytes.split_at(most.min(bytes.len()))
}

/// Splits `line` into the bytes before `column`, which counts bytes, and those from it on.
pub fn split_at_column(line: &[u8], column: Column) -> (&[u8], &[u8]) {
    split_at_most(line, (column.number() as usize).saturating_sub(1))
}

/// The column `column` of `line` in characters, from 1. Invalid UTF-8 counts as an editor shows it, one for each replacement
/// character.
pub fn character_column(line: &[u8], column: Column) -> usize {
    let (front, _) = split_at_column(line, column);
    front.chars().count().saturating_add(1)
}

/// Whether `byte` may be in a word of M, including the marks in front of it: `^ACCT`, `$$NEXT^BIL`, `%Z`.
pub fn is_of_word(byte: u8) -> bool {
    byte.is_ascii_alphanumeric() || matches!(byte, b'^' | b'%' | b'$')
}

// The number of bytes of a quoted text after its opening quote, the closing one included. A quote inside is doubled.
fn quoted_length(text: &[u8]) -> usize {
    let mut is_closed = false;
    for (place, byte) in text.iter().enumerate() {
        if *byte == b'"' {
            is_closed = !is_closed;
        } else if is_closed {
            return place;
        }
    }
    text.len()
}

// The number of bytes of the token at the front of `text`.
fn token_length(text: &[u8]) -> usize {
    match text.first() {
        None => 0,
        Some(b'"') => {
            let (_, rest) = split_at_most(text, 1);
            quoted_length(rest).saturating_add(1)
        }
        Some(first) if is_of_word(*first) => {
            text.iter().take_while(|byte| is_of_word(**byte)).count()
        }
        Some(_) => {
            let (_, size) = decode_utf8(text);
            size
        }
    }
}

/// The token at `column` of `line`: a word with the marks in front of it, a quoted text, or one other character; empty at the
/// line's end.
pub fn token_at(line: &[u8], column: Column) -> &[u8] {
    let (_, rest) = split_at_column(line, column);
    let (token, _) = split_at_most(rest, token_length(rest));
    token
}
