// Files that are read whole, however few bytes a read gives.

use mlk_app::read_whole;
use std::io::{self, ErrorKind, Read};
use std::test::Fail;

// A reader that gives one byte at a time, and fails at the end if it is asked to.
#[derive(Drop)]
struct Drops<'a> {
    left: &'a [u8],
    fails: bool,
}

impl Read for Drops<'_> {
    fn read(&mut self, buf: &mut [u8]) -> io::Result<usize> {
        let Some((first, rest)) = self.left.split_first() else {
            if self.fails {
                return Err(io::Error::from(ErrorKind::ConnectionReset));
            }
            return Ok(0);
        };
        if buf.is_empty() {
            return Ok(0);
        }
        buf[0] = *first;
        self.left = rest;
        Ok(1)
    }
}

#[test]
fn short_reads(rt: HostRuntime) -> Result<(), Fail> {
    let text: &[u8] = b"mlock-cert 1\nend\n";
    let drops = Drops {
        left: text,
        fails: false,
    };
    let bytes = read_whole(rt.alloc(), drops)?;
    assert!(&rt; bytes.as_slice() == text, "all bytes are there");
    Ok(())
}

#[test]
fn reads_that_fail(rt: HostRuntime) {
    let drops = Drops {
        left: b"mlock-cert 1\n",
        fails: true,
    };
    match read_whole(rt.alloc(), drops) {
        Ok(_) => assert!(&rt; false, "a torn file is read"),
        Err(error) => assert!(&rt; error.kind() == ErrorKind::ConnectionReset),
    }
}
