// Reading a file whole.

ghost use Rattle.std.specs.Prelude.{◌≡◌, ◌≤◌, IfOk, IfSome, length};
ghost use Rattle.mlk_files.specs.declared.file.TheConstants.{LONGEST_FILE};

use std::alloc::Global;
use std::io::{self, ErrorKind, Read};

/// The longest file that is read, in bytes: 128 MiB.
pub const LONGEST_FILE: usize = 128 << 20;

// One byte more, which shows that a file is longer.
const TOO_LONG: u64 = (128 << 20) + 1;

// The longest line that is read from a person, in bytes.
const LONGEST_LINE: u32 = 65_536;

/// The next line of a reader, without its line feed; `None` at the end of the input. What is after the line is left to the
/// reader. A line of more than 65,536 bytes is read in parts.
pub fn read_line<R: Read>(alloc: Global, reader: &mut R) -> io::Result<Option<Vec<u8>>> {
    let mut line: Vec<u8> = Vec::new(alloc);
    for _ in 0..LONGEST_LINE {
        let mut byte = [0u8; 1];
        if reader.read(&mut byte)? == 0 {
            return Ok(if line.is_empty() { None } else { Some(line) });
        }
        if byte[0] == b'\n' {
            return Ok(Some(line));
        }
        line.push(byte[0])?;
    }
    Ok(Some(line))
}

/// All bytes that a reader has, where there are at most `LONGEST_FILE`; else a fault of the kind `FileTooLarge`.
///
/// However few bytes a single read gives, nothing is left out.
pub fn read_whole<R: Read + Drop>(alloc: Global, reader: R) -> io::Result<Vec<u8>>
    ensures whole { IfOk result (λ bytes. IfSome (R.remaining reader) (λ all. bytes.items ≡ all)) }
    ensures bound { IfOk result (λ bytes. length bytes.items ≤ LONGEST_FILE) }
{
    let mut bytes = Vec::new(alloc);
    let mut limited = reader.take(TOO_LONG);
    io::copy(&mut limited, &mut bytes)?;
    if bytes.len() > LONGEST_FILE {
        return Err(io::Error::from(ErrorKind::FileTooLarge));
    }
    Ok(bytes)
}
