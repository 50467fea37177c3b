// Tests on `run` of what no row of `mlock_cases` can say: readers and writers that fail, and words whose text is long.

mod faults;
mod reading;

use mlk_app::Files;
use std::alloc::{AllocError, Global};
use std::io;

pub(crate) const RULES: &str = "[[lock]]
name = \"^ACCT\"
rank = 10
[[cover]]
global = \"^ACCT(id,...)\"
lock = \"^ACCT(id)\"
[[entry]]
label = \"TAKE^ONE\"
";

pub(crate) const CERT: &str = "mlock-cert 1
entry TAKE^ONE
need -
low 10
drops 0
mods -
exit T=* H=- K=-
at 1.0 T=* H=- O=- K=- S=-
end
";

pub(crate) const TAKE: &str = "TAKE LOCK +^ACCT(1) SET ^ACCT(1)=5 LOCK -^ACCT(1) QUIT\n";

// Files in memory.
#[derive(Drop)]
pub(crate) struct Memory<'a> {
    pub files: &'a [(&'a str, &'a str)],
}

impl Files for Memory<'_> {
    fn read(&self, alloc: Global, path: &str) -> io::Result<Vec<u8>> {
        for (name, text) in self.files {
            if *name == path {
                let mut bytes = Vec::new(alloc);
                bytes.extend_from_slice(text.as_bytes())?;
                return Ok(bytes);
            }
        }
        Err(io::Error::from(io::ErrorKind::NotFound))
    }

    fn routines_below(&self, _alloc: Global, _path: &str) -> io::Result<Option<Vec<String>>> {
        Ok(None)
    }

    fn write(&self, _path: &str, _text: &[u8]) -> io::Result<()> {
        Err(io::Error::from(io::ErrorKind::ReadOnlyFilesystem))
    }

    fn ask(&self, _alloc: Global, _shown: &[u8]) -> io::Result<Option<Vec<u8>>> {
        Ok(None)
    }
}

pub(crate) fn texts(alloc: Global, words: &[&str]) -> Result<Vec<String>, AllocError> {
    let mut all = Vec::new(alloc);
    for word in words {
        all.push(String::from_str(alloc, word)?)?;
    }
    Ok(all)
}

pub(crate) const CHECK: [&str; 5] = ["mlock", "check", "rules.toml", "cert", "ONE.m"];
