//! Reads test cases from one text: the command line of each, what it shows, and the files given with it.
//!
//! What comes before the first line that begins with `== ` is a comment. Such a line has the words of a command line, in which
//! `~` is a space; lines right below it may say what it shows. The files come after it, each after a line of `-- ` and its name.
//! A file's bytes are the lines up to the next such line.
#![tactic(auto)]

use bstr::ByteSlice;
use std::alloc::{AllocError, Global};
use std::io::{self, ErrorKind};

// What comes before the words of a command line.
const CASE: &[u8] = b"\n== ";

// What comes before a file's name.
const FILE: &[u8] = b"\n-- ";

/// A command line, and the files after it.
#[derive(Clone, Copy, Drop)]
pub struct Case<'a> {
    text: &'a [u8],
}

// The bytes before the first `mark`; all of them where there is none.
fn front_of<'a>(text: &'a [u8], mark: &[u8]) -> &'a [u8] {
    match text.split_once_str(mark) {
        None => text,
        Some((front, _)) => front,
    }
}

// The lines of a file; the last one is not ended yet.
fn end_last_line(alloc: Global, lines: &[u8]) -> Result<Vec<u8>, AllocError> {
    let mut text = Vec::from_slice(alloc, lines)?;
    text.push(b'\n')?;
    Ok(text)
}

impl<'a> Case<'a> {
    // The command line as it is given, and what it shows.
    fn heading(&self) -> &'a [u8] {
        front_of(self.text, FILE)
    }

    /// The words of the command line, after `program`.
    pub fn words(&self, alloc: Global, program: &str) -> Result<Vec<String>, AllocError> {
        let mut words = Vec::new(alloc);
        words.push(String::from_str(alloc, program)?)?;
        for word in front_of(self.heading(), b"\n").split_str(b" ") {
            let word = word.replace(alloc, b"~", b" ")?;
            words.push(String::from_utf8_lossy(alloc, word.as_slice())?)?;
        }
        Ok(words)
    }

    /// The bytes of the file with this name; an error of the kind `NotFound` where none is given.
    pub fn read(&self, alloc: Global, name: &str) -> io::Result<Vec<u8>> {
        for file in self.text.split_str(FILE).skip(1) {
            match file.split_once_str(b"\n") {
                None if file == name.as_bytes() => return Ok(Vec::new(alloc)),
                Some((found, lines)) if found == name.as_bytes() => {
                    return Ok(end_last_line(alloc, lines)?);
                }
                _ => {}
            }
        }
        Err(io::Error::from(ErrorKind::NotFound))
    }

    /// The names of the files, in their order.
    pub fn names(&self, alloc: Global) -> Result<Vec<&'a [u8]>, AllocError> {
        let mut names = Vec::new(alloc);
        for file in self.text.split_str(FILE).skip(1) {
            let Ok(()) = names.push(front_of(file, b"\n")) else {
                return Err(AllocError);
            };
        }
        Ok(names)
    }

    /// Appends the command line as it is given, and what it shows.
    pub fn push_heading(&self, out: &mut Vec<u8>) -> Result<(), AllocError> {
        out.extend_from_slice(b"== ")?;
        out.extend_from_slice(self.heading())?;
        out.extend_from_slice(b"\n")
    }
}

/// The cases of a text, in their order.
pub fn cases_of(alloc: Global, text: &[u8]) -> Result<Vec<Case<'_>>, AllocError> {
    let mut cases = Vec::new(alloc);
    for text in text.split_str(CASE).skip(1) {
        cases.push(Case { text })?;
    }
    Ok(cases)
}
