// A line of a text as it is shown to people, with a caret below a column.

use crate::line::{split_at_column, split_at_most};
use bstr::ByteSlice;
use mlk_report_text::Piece::{Bytes, Number, Words};
use mlk_report_text::push_all;
use mlk_text::{Column, LineNumber};
use std::alloc::AllocError;

// The maximum number of bytes of a line that are shown, and for a longer line, of those before the column.
const MOST_SHOWN: usize = 320;

const MOST_BEFORE: usize = 240;

// One more space than the longest line number has digits.
const BLANKS: &[u8] = b"           ";

/// A line of a text, without its terminator, and the column, in bytes, below which the caret is.
#[derive(Clone, Copy, Drop)]
pub struct Excerpt<'a> {
    pub number: LineNumber,
    pub line: &'a [u8],
    pub column: Column,
}

/// The spaces below the number of a line: one more than it has digits.
pub fn margin_of(number: LineNumber) -> &'static [u8] {
    let digits = number.number().checked_ilog10().unwrap_or(0) as usize;
    let (margin, _) = split_at_most(BLANKS, digits.saturating_add(2));
    margin
}

// Appends `bytes`, with `?` for those that would move what is shown after them.
fn push_shown(text: &mut Vec<u8>, bytes: &[u8]) -> Result<(), AllocError> {
    for byte in bytes {
        text.push(match *byte {
            b'\t' => b'\t',
            0..=31 | 127 => b'?',
            shown => shown,
        })?;
    }
    Ok(())
}

// Appends spaces and tabs that are as wide as `bytes`.
fn push_width(text: &mut Vec<u8>, bytes: &[u8]) -> Result<(), AllocError> {
    for shown in bytes.chars() {
        text.push(if shown == '\t' { b'\t' } else { b' ' })?;
    }
    Ok(())
}

// The part of a line that is shown: its bytes before the column and from it on, and the marks for what is cut at either end.
#[derive(Drop)]
struct Window<'a> {
    front: &'a [u8],
    back: &'a [u8],
    cut_before: &'static str,
    cut_after: &'static str,
}

// The number of bytes at the front of `text` that belong to a character which begins before it.
fn rest_of_character(text: &[u8]) -> usize {
    match text {
        [0x80..=0xbf, 0x80..=0xbf, 0x80..=0xbf, ..] => 3,
        [0x80..=0xbf, 0x80..=0xbf, ..] => 2,
        [0x80..=0xbf, ..] => 1,
        _ => 0,
    }
}

fn cut_mark(is_cut: bool) -> &'static str {
    if is_cut { ".." } else { "" }
}

impl<'a> Window<'a> {
    // The part of a line around the column, which is after `front`; all of a line that is short enough.
    fn of(front: &'a [u8], back: &'a [u8]) -> Window<'a> {
        if front.len().saturating_add(back.len()) <= MOST_SHOWN {
            return Window {
                front,
                back,
                cut_before: "",
                cut_after: "",
            };
        }
        let is_cut_before = front.len() > MOST_BEFORE;
        let (_, near) = split_at_most(front, front.len().saturating_sub(MOST_BEFORE));
        let start = if is_cut_before {
            rest_of_character(near)
        } else {
            0
        };
        let (_, shown) = split_at_most(near, start);
        let most = MOST_SHOWN.saturating_sub(shown.len());
        let (behind, _) = split_at_most(back, most);
        Window {
            front: shown,
            back: behind,
            cut_before: cut_mark(is_cut_before),
            cut_after: cut_mark(back.len() > most),
        }
    }
}

/// Appends a line below an excerpt: its margin, `= LABEL: `, and `words`.
pub fn push_labelled<'a>(
    text: &mut Vec<u8>,
    margin: &'a [u8],
    label: &'a str,
    words: &'a [u8],
) -> Result<(), AllocError> {
    push_all(
        text,
        &[
            Bytes(margin),
            Words("= "),
            Words(label),
            Words(": "),
            Bytes(words),
            Words("\n"),
        ],
    )
}

/// Appends the line with its number, and below it a caret and a space, after which the fault can be described. Control bytes are
/// shown as `?`. For a line of more than 320 bytes, the part around the column is shown.
pub fn push_excerpt(text: &mut Vec<u8>, excerpt: &Excerpt<'_>) -> Result<(), AllocError> {
    let (front, back) = split_at_column(excerpt.line, excerpt.column);
    let window = Window::of(front, back);
    push_all(
        text,
        &[
            Number(excerpt.number.number() as usize),
            Words(" | "),
            Words(window.cut_before),
        ],
    )?;
    push_shown(text, window.front)?;
    push_shown(text, window.back)?;
    push_all(
        text,
        &[
            Words(window.cut_after),
            Words("\n"),
            Bytes(margin_of(excerpt.number)),
            Words("| "),
        ],
    )?;
    push_width(text, window.cut_before.as_bytes())?;
    push_width(text, window.front)?;
    text.extend_from_slice(b"^ ")
}
