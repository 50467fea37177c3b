// The lines of a rule file: where its sections, their elements and their keys are.

use crate::explanation::Spot;
use bstr::ByteSlice;
use mlk_excerpts::{TextLines, split_at_most};
use mlk_text::{Column, LineNumber};
use std::alloc::{AllocError, Global};

// The number of the line with the index `place`.
fn number_at(place: usize) -> LineNumber {
    LineNumber::new(u32::try_from(place.saturating_add(1)).unwrap_or(u32::MAX))
}

// The byte at `offset` of the line with the index `place`.
fn spot_at(place: usize, offset: usize) -> Spot {
    Spot {
        line: number_at(place),
        column: Some(Column::at(offset.saturating_add(1))),
    }
}

/// Finds the first line that contains `words`, and the place; `None` if no line does.
pub(crate) fn line_with(
    alloc: Global,
    text: &[u8],
    words: &[u8],
) -> Result<Option<Spot>, AllocError> {
    let lines = TextLines::of(alloc, text)?;
    for (place, line) in lines.as_slice().iter().enumerate() {
        if let Some(offset) = line.find(words) {
            return Ok(Some(spot_at(place, offset)));
        }
    }
    Ok(None)
}

// The rest of a line after its key and `=`, or `None` if the line does not have this key.
fn after_key<'a>(line: &'a [u8], key: &str) -> Option<&'a [u8]> {
    let rest = line.trim_start().strip_prefix(key.as_bytes())?;
    let rest = rest.trim_start().strip_prefix(b"=")?;
    Some(rest.trim_start())
}

// Whether a line is the head of an element of `section`, such as `[[lock]]`.
fn is_element_head(line: &[u8], section: &str) -> bool {
    let Some(rest) = line.trim_start().strip_prefix(b"[[") else {
        return false;
    };
    match rest.trim_start().strip_prefix(section.as_bytes()) {
        Some(rest) => rest.trim_start().starts_with(b"]]"),
        None => false,
    }
}

// Whether a line is the head of a table with the name `section`, such as `[lock]`, or has it as a key.
fn names_section(line: &[u8], section: &str) -> bool {
    if is_element_head(line, section) || after_key(line, section).is_some() {
        return true;
    }
    let Some(rest) = line.trim_start().strip_prefix(b"[") else {
        return false;
    };
    match rest.trim_start().strip_prefix(section.as_bytes()) {
        Some(rest) => rest.trim_start().starts_with(b"]"),
        None => false,
    }
}

/// The place at which a section begins; `None` if no line names it.
pub(crate) fn section_line(lines: &TextLines<'_>, section: &str) -> Option<Spot> {
    for (place, line) in lines.as_slice().iter().enumerate() {
        if names_section(*line, section) {
            let blanks = bytes_before(*line, line.trim_start());
            return Some(spot_at(place, blanks));
        }
    }
    None
}

// The index of the line with the head of element number `index` of a section, counted from 1, or `None`.
fn element_place(lines: &TextLines<'_>, section: &str, index: usize) -> Option<usize> {
    let mut count = 0usize;
    for (place, line) in lines.as_slice().iter().enumerate() {
        if is_element_head(*line, section) {
            count = count.saturating_add(1);
            if count == index {
                return Some(place);
            }
        }
    }
    None
}

// The number of bytes of `line` before `end`, which is its end.
fn bytes_before(line: &[u8], end: &[u8]) -> usize {
    line.len().saturating_sub(end.len())
}

/// The place at which element number `index` of a section begins, counted from 1; the first line of the section if its elements
/// have no lines of their own.
pub(crate) fn element_line(lines: &TextLines<'_>, section: &str, index: usize) -> Option<Spot> {
    let Some(head) = element_place(lines, section, index) else {
        return section_line(lines, section);
    };
    let line = lines.as_slice().get(head).copied()?;
    Some(spot_at(head, bytes_before(line, line.trim_start())))
}

/// The line of a key of an element.
#[derive(Clone, Copy, Drop)]
pub(crate) struct KeyLine<'a> {
    place: usize,
    line: &'a [u8],
    /// the rest of the line after the `=`
    value: &'a [u8],
}

impl<'a> KeyLine<'a> {
    /// The place of the key.
    pub(crate) fn at_key(&self) -> Spot {
        let key = self.line.trim_start();
        spot_at(self.place, bytes_before(self.line, key))
    }

    /// The place of the byte at `offset` of `text`, the key's value; that of the value's begin if it is not written literally.
    pub(crate) fn at_value(&self, text: &[u8], offset: usize) -> Spot {
        let start = bytes_before(self.line, self.value);
        let quotes = usize::from(matches!(self.value.first(), Some(b'"' | b'\'')));
        let (front, _) = split_at_most(text, offset);
        let (_, inside) = split_at_most(self.value, quotes);
        let inside_by = if inside.starts_with(front) {
            front.len()
        } else {
            0
        };
        let offset = start.saturating_add(quotes).saturating_add(inside_by);
        spot_at(self.place, offset)
    }
}

/// The line of a key of element number `index` of a section, counted from 1; `None` if it has none, as in an inline table.
pub(crate) fn key_line<'a>(
    lines: &TextLines<'a>,
    section: &str,
    index: usize,
    key: &str,
) -> Option<KeyLine<'a>> {
    let head = element_place(lines, section, index)?;
    let after = head.saturating_add(1);
    for (place, line) in lines.as_slice().iter().enumerate().skip(after) {
        if line.trim_start().starts_with(b"[") {
            return None;
        }
        if let Some(value) = after_key(*line, key) {
            return Some(KeyLine {
                place,
                line: *line,
                value,
            });
        }
    }
    None
}

/// The place of the byte at `offset` of `text`; the end of the last line if it is past all lines.
pub(crate) fn line_of_byte(lines: &TextLines<'_>, text: &[u8], offset: usize) -> Option<Spot> {
    let (before, _) = split_at_most(text, offset);
    let place = before.iter().filter(|byte| **byte == b'\n').count();
    let start = match before.rfind_byte(b'\n') {
        Some(end) => end.saturating_add(1),
        None => 0,
    };
    if place < lines.as_slice().len() {
        return Some(spot_at(place, before.len().saturating_sub(start)));
    }
    let last = lines.as_slice().len().checked_sub(1)?;
    let line = lines.as_slice().get(last).copied()?;
    Some(spot_at(last, line.len()))
}
