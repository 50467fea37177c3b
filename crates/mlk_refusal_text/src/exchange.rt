// Files that were given in the wrong order.

use bstr::ByteSlice;
use mlk_excerpts::split_at_most;

// The first line of a text that is not blank.
fn first_line(text: &[u8]) -> &[u8] {
    for line in text.lines() {
        if !line.trim().is_empty() {
            return line;
        }
    }
    b""
}

// Whether a line begins like a line of a routine, and unlike TOML: with a label or a command, and without `=` after it.
fn begins_routine(line: &[u8]) -> bool {
    let line = line.trim_start();
    let word = line
        .iter()
        .take_while(|byte| byte.is_ascii_alphanumeric() || **byte == b'%')
        .count();
    let (_, rest) = split_at_most(line, word);
    match rest.first() {
        Some(b';') => true,
        Some(b'(' | b':') => word > 0,
        Some(b' ' | b'\t') => word > 0 && !rest.trim_start().starts_with(b"="),
        _ => false,
    }
}

/// Whether a file that was given as the rule file looks like a routine.
pub(crate) fn is_like_routine(path: &str, text: &[u8]) -> bool {
    path.ends_with(".m") || begins_routine(first_line(text))
}

/// Whether a file that was given as a routine looks like a rule file.
pub(crate) fn is_like_rules(path: &str, text: &[u8]) -> bool {
    path.ends_with(".toml") || first_line(text).starts_with(b"[")
}
