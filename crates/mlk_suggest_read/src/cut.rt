// The part of a line before the first thing that can't be read.

use mlk_text::{Code, Fault, LeftOut};

// Whether a fault is at the word of a command, so that the commands before it are complete.
fn is_at_command(fault: &Fault) -> bool {
    fault.code == Code::UnknownCommand || matches!(&fault.left_out, Some(LeftOut::Command(_)))
}

// The part of a text before its last blank.
fn before_blank(text: &[u8]) -> &[u8] {
    match text
        .iter()
        .rposition(|byte| *byte == b' ' || *byte == b'\t')
    {
        Some(place) => text.get(..place).unwrap_or(b""),
        None => b"",
    }
}

// Whether a text is the word of a command, with or without a postconditional.
fn is_command_word(word: &[u8]) -> bool {
    match word.split_first() {
        Some((first, _)) if first.is_ascii_alphabetic() => word
            .iter()
            .take_while(|byte| **byte != b':')
            .all(|byte| byte.is_ascii_alphabetic()),
        _ => false,
    }
}

// The last word of a text.
fn last_word(text: &[u8]) -> &[u8] {
    match text
        .iter()
        .rposition(|byte| *byte == b' ' || *byte == b'\t')
    {
        Some(place) => text.get(place.saturating_add(1)..).unwrap_or(b""),
        None => text,
    }
}

/// The front of `line`, up to the last blank before the place of `fault`. The word of a command whose argument is cut is dropped
/// too.
pub(crate) fn readable_front<'t>(line: &'t [u8], fault: &Fault) -> &'t [u8] {
    let place = (fault.place.column.number() as usize).saturating_sub(1);
    let before = line.get(..place).unwrap_or(line);
    let left = before_blank(before);
    if is_at_command(fault) || !is_command_word(last_word(left)) {
        return left;
    }
    before_blank(left)
}
