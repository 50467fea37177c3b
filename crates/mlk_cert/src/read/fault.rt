// Why the text of a certificate is refused.

ghost use Rattle.std.specs.Prelude.{◌≡◌, true};
ghost use Rattle.mlk_cert.specs.Faults.{has_line, is_later};

use mlk_text::{Code, LineNumber};
use thiserror::Error;

/// Why a certificate's text is refused, and on which line.
#[derive(Debug, Drop, PartialEq, Eq, Error)]
#[error("{code}, at line {line}")]
pub struct CertFault {
    pub code: Code,
    pub line: LineNumber,
}

/// A fault after the head line, and how many bytes are left there.
#[derive(Drop)]
pub(crate) struct BlockFault {
    pub code: Code,
    pub left: usize,
    ghost known: { is_later code ≡ true },
}

fn has_line(bytes: &[u8]) -> bool
    ensures { result ≡ has_line bytes.now }
{
    for b in bytes {
        if *b == b'\n' {
            return true;
        }
    }
    false
}

/// The fault of a line of a wrong form: 602, or 606 if the line is not terminated, since the text then ends too early.
pub(crate) fn other_form(bytes: &[u8]) -> BlockFault {
    let left = bytes.len();
    if has_line(bytes) {
        return BlockFault {
            code: Code::Form,
            left,
        };
    }
    BlockFault {
        code: Code::NoEnd,
        left,
    }
}
