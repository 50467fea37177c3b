// Paths in URIs.

use percent_encoding::{AsciiSet, NON_ALPHANUMERIC, ascii_set, percent_encode};
use std::alloc::{AllocError, Global};

// What is escaped in a part of a path: all but letters, digits and what joins words.
const UNSAFE: AsciiSet = ascii_set!(
    NON_ALPHANUMERIC
        .remove(b'-')
        .remove(b'.')
        .remove(b'_')
        .remove(b'~')
);

/// Whether `path` begins at the root of the file system.
pub(crate) fn is_absolute(path: &str) -> bool {
    path.starts_with('/')
}

/// Writes `path` as a URI, each byte that a URI can't have escaped once: a relative reference without `.` parts, or a `file:` URI
/// of an absolute path.
pub(crate) fn uri(alloc: Global, path: &str) -> Result<String, AllocError> {
    let mut text = String::new(alloc);
    if is_absolute(path) {
        text.push_str("file://")?;
    }
    for part in path.split('/') {
        if part.is_empty() || part == "." {
            continue;
        }
        if !text.is_empty() {
            text.push('/')?;
        }
        percent_encode(part.as_bytes(), UNSAFE).append_to(&mut text)?;
    }
    Ok(text)
}
