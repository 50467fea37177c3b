// Escaping of bytes.

use std::alloc::{AllocError, Global};

// Whether a byte is not escaped.
fn is_plain(byte: u8) -> bool {
    matches!(byte, b' '..=b'~') && byte != b'\\'
}

/// Escapes `bytes`, which are mostly ASCII: those outside of 32 to 126, and `\`, become `\` and two hexadecimal digits, as in
/// certificates.
pub fn escape_bytes(alloc: Global, bytes: &[u8]) -> Result<String, AllocError> {
    let mut text = String::new(alloc);
    for byte in bytes {
        if is_plain(*byte) {
            text.push(char::from(*byte))?;
        } else {
            text.push_str(&format!(in alloc; "\\{:02x}", *byte)?)?;
        }
    }
    Ok(text)
}
