// Names in a line of M, and names as they are shown.

use bstr::ByteSlice;
use mlk_cert_lexemes::{Written, WrittenText};
use mlk_cert_parts::NameSet;
use mlk_excerpts::{is_of_word, split_at_column, split_at_most};
use mlk_names::{KnownSym, LockTerm};
use mlk_report_text::Piece::{Bytes, Words};
use mlk_report_text::push_all;
use mlk_text::{Column, Root, Value};
use std::alloc::AllocError;

/// How many bytes of a name or of a pattern are shown at most.
const MOST_OF_NAME: usize = 120;

// How many bytes the name at the front of a text has, with the list in parentheses after it.
fn name_length(text: &[u8]) -> usize {
    let mut depth = 0usize;
    let mut quoted = false;
    for (place, byte) in text.iter().enumerate() {
        match *byte {
            b'(' if !quoted => depth = depth.saturating_add(1),
            byte if depth == 0 && !is_of_word(byte) => return place,
            b')' if depth == 1 && !quoted => return place.saturating_add(1),
            b')' if !quoted => depth = depth.saturating_sub(1),
            b'"' => quoted = !quoted,
            _ => {}
        }
    }
    text.len()
}

/// The name at `column` of `line`, with its subscripts or actuals, as it is written; the front of a long one.
pub(crate) fn name_at(line: &[u8], column: Column) -> &[u8] {
    let (_, rest) = split_at_column(line, column);
    let (front, _) = split_at_most(rest, MOST_OF_NAME);
    let (name, _) = split_at_most(front, name_length(front));
    name
}

// How many bytes the expression at the front of a text has, up to a comma or a parenthesis that ends it.
fn expression_length(text: &[u8]) -> usize {
    let mut depth = 0usize;
    let mut quoted = false;
    for (place, byte) in text.iter().enumerate() {
        match *byte {
            b'(' if !quoted => depth = depth.saturating_add(1),
            b',' | b')' | b' ' if depth == 0 && !quoted => return place,
            b')' if !quoted => depth = depth.saturating_sub(1),
            b'"' => quoted = !quoted,
            _ => {}
        }
    }
    text.len()
}

/// The subscript or actual at `column` of `line`, as it is written; the front of a long one.
pub(crate) fn expression_at(line: &[u8], column: Column) -> &[u8] {
    let (_, rest) = split_at_column(line, column);
    let (front, _) = split_at_most(rest, MOST_OF_NAME);
    let (expression, _) = split_at_most(front, expression_length(front));
    expression
}

/// The word of the function whose first argument is at `column` of `line`; empty where there is none.
pub fn function_before(line: &[u8], column: Column) -> &[u8] {
    let (front, _) = split_at_column(line, column);
    let Some(front) = front.strip_suffix(b"(") else {
        return b"";
    };
    let mut start = 0usize;
    for (place, byte) in front.iter().enumerate() {
        if !byte.is_ascii_alphabetic() && *byte != b'$' {
            start = place.saturating_add(1);
        }
    }
    let (_, word) = split_at_most(front, start);
    word
}

/// The root of a name, as it is written in M.
pub fn root_of(name: &[u8]) -> &[u8] {
    let (root, _) = split_at_most(name, name.find_byte(b'(').unwrap_or(name.len()));
    root
}

/// Whether `written` is this root in M.
pub(crate) fn is_written(root: &Root, written: &[u8]) -> bool {
    match root {
        Root::Global(global) => written.strip_prefix(b"^") == Some(global.as_bytes()),
        Root::Local(local) => written == local.as_bytes(),
    }
}

/// Appends a name of `name_at` or its root, with `..` for what was cut.
pub(crate) fn push_name(text: &mut Vec<u8>, name: &[u8]) -> Result<(), AllocError> {
    let end = if name.len() < MOST_OF_NAME { "" } else { ".." };
    push_all(text, &[Bytes(name), Words(end)])
}

/// Appends `bytes`, or the front of many with `..` after it; `?` for those that no terminal shows.
pub fn push_front(text: &mut Vec<u8>, bytes: &[u8]) -> Result<(), AllocError> {
    for byte in bytes.iter().take(MOST_OF_NAME) {
        text.push(match *byte {
            0..=31 | 127 => b'?',
            shown => shown,
        })?;
    }
    if bytes.len() > MOST_OF_NAME {
        text.extend_from_slice(b"..")?;
    }
    Ok(())
}

// Whether a value is written in M as a whole number.
fn is_whole(bytes: &[u8]) -> bool {
    match bytes {
        b"0" => true,
        [b'1'..=b'9', ..] => bytes.len() <= 15 && bytes.iter().all(|byte| byte.is_ascii_digit()),
        _ => false,
    }
}

/// Appends `item` as a certificate has it, without the end of its line.
pub(crate) fn push_written<T: Written>(text: &mut Vec<u8>, item: &T) -> Result<(), AllocError> {
    let mut written = WrittenText::new(*text.allocator());
    item.push_to(&mut written)?;
    let bytes = written.as_bytes();
    text.extend_from_slice(bytes.strip_suffix(b"\n").unwrap_or(bytes))
}

// Appends a constant as it is written in M; the front of a long one.
fn push_value(text: &mut Vec<u8>, value: &Value) -> Result<(), AllocError> {
    let bytes = value.as_bytes();
    if is_whole(bytes) {
        return text.extend_from_slice(bytes);
    }
    if bytes.len() <= MOST_OF_NAME {
        return push_written(text, value);
    }
    text.push(b'"')?;
    push_front(text, bytes)
}

fn push_symbol(text: &mut Vec<u8>, symbol: &KnownSym) -> Result<(), AllocError> {
    match symbol {
        KnownSym::Const(value) => push_value(text, value),
        KnownSym::Local(name) => text.extend_from_slice(name.as_bytes()),
        KnownSym::Job => text.extend_from_slice(b"$JOB"),
    }
}

fn push_root(text: &mut Vec<u8>, root: &Root) -> Result<(), AllocError> {
    match root {
        Root::Global(name) => push_all(text, &[Words("^"), Bytes(name.as_bytes())]),
        Root::Local(name) => text.extend_from_slice(name.as_bytes()),
    }
}

/// Appends a lock's name as it is written in M.
pub(crate) fn push_lock(text: &mut Vec<u8>, term: &LockTerm) -> Result<(), AllocError> {
    push_root(text, &term.root)?;
    let mut before = b'(';
    for symbol in term.subs.as_slice() {
        text.push(before)?;
        push_symbol(text, symbol)?;
        before = b',';
    }
    if before == b',' {
        text.push(b')')?;
    }
    Ok(())
}

/// Whether a lock is named by the local of this name.
pub(crate) fn is_named_by(term: &LockTerm, name: &[u8]) -> bool {
    for symbol in term.subs.as_slice() {
        if matches!(symbol, KnownSym::Local(local) if local.as_bytes() == name) {
            return true;
        }
    }
    false
}

// Appends the name of a local, or `all locals but` and those that are left out.
fn push_set(text: &mut Vec<u8>, names: &NameSet) -> Result<(), AllocError> {
    let others = match names {
        NameSet::Only(name) => return text.extend_from_slice(name.as_bytes()),
        NameSet::AllBut(others) => others,
    };
    text.extend_from_slice(b"all locals")?;
    let mut before: &[u8] = b" but ";
    for name in others.as_slice() {
        text.extend_from_slice(before)?;
        text.extend_from_slice(name.as_bytes())?;
        before = b", ";
    }
    Ok(())
}

/// Appends names of locals, with commas between the sets.
pub(crate) fn push_sets(text: &mut Vec<u8>, sets: &[NameSet]) -> Result<(), AllocError> {
    let mut before: &[u8] = b"";
    for names in sets {
        text.extend_from_slice(before)?;
        push_set(text, names)?;
        before = b", ";
    }
    Ok(())
}
