// Numbers as texts.

use crate::text_of;
use mlk_numbers::{canonical_text, whole_number};
use std::alloc::Global;
use std::io::{self, Write};

/// Adds the canonical text of a literal, if it has one.
pub(crate) fn answer_canonical(alloc: Global, written: &[u8], out: &mut Vec<u8>) -> io::Result<()> {
    let text = text_of(alloc, written)?;
    match canonical_text(alloc, text.as_slice())? {
        Some(number) => {
            out.extend_from_slice(number.as_bytes())?;
            writeln!(out)
        }
        None => writeln!(out, "none"),
    }
}

/// Adds the whole number whose canonical text is given, if it is one.
pub(crate) fn answer_whole(alloc: Global, written: &[u8], out: &mut Vec<u8>) -> io::Result<()> {
    let text = text_of(alloc, written)?;
    match whole_number(text.as_slice()) {
        Some(number) => writeln!(out, "{number}"),
        None => writeln!(out, "none"),
    }
}
