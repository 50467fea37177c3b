// Refusals of certificates, events and whole runs, and files that can't be read.

use crate::explanation::{Explanation, GivenFile, Spot};
use crate::rule_lines::line_with;
use mlk_code_pages::page_of;
use mlk_report_text::Piece::{Bytes, Words};
use mlk_report_text::text_of;
use mlk_text::Code;
use std::alloc::{AllocError, Global};
use std::io::ErrorKind;

// The page of a code as an explanation, at a place of a file.
fn page_help(
    alloc: Global,
    code: Code,
    file: Option<GivenFile<'_>>,
    spot: Option<Spot>,
) -> Result<Vec<u8>, AllocError> {
    let page = page_of(code);
    let it = Explanation {
        code,
        file,
        spot,
        what: text_of(alloc, &[Words(page.meaning)])?,
        help: page.hint,
        note: None,
    };
    it.text(alloc)
}

/// Explains the refusal `code` at a line of `file`: a certificate, a file of events, or the routine at which the maker gave up.
pub fn line_help(
    alloc: Global,
    code: Code,
    file: &GivenFile<'_>,
    spot: Spot,
) -> Result<Vec<u8>, AllocError> {
    page_help(alloc, code, Some(*file), Some(spot))
}

/// Explains the refusal `code` that is at no place in a file.
pub fn code_help(alloc: Global, code: Code) -> Result<Vec<u8>, AllocError> {
    page_help(alloc, code, None, None)
}

/// Finds the place at which the rule file `rules` declares `entry`; `None` if it is spelled in another way there.
pub fn entry_place(alloc: Global, rules: &[u8], entry: &[u8]) -> Result<Option<Spot>, AllocError> {
    let text = text_of(alloc, &[Words("\""), Bytes(entry), Words("\"")])?;
    line_with(alloc, rules, text.as_slice())
}

/// Explains that the routines do not have `entry`: shows the line of the rule file that declares it, if one does.
pub fn entry_help(
    alloc: Global,
    rules: &GivenFile<'_>,
    entry: &[u8],
) -> Result<Vec<u8>, AllocError> {
    match entry_place(alloc, rules.text, entry) {
        Ok(spot) => page_help(alloc, Code::EntryMissing, Some(*rules), spot),
        Err(AllocError) => Err(AllocError),
    }
}

// Why a file can't be read, and what helps.
fn unread_words(path: &str, kind: ErrorKind) -> (&'static str, &'static str) {
    match kind {
        ErrorKind::NotFound if path.contains('*') || path.contains('?') => (
            "no file matches this pattern",
            "correct the pattern, or the folder in which mlock is run",
        ),
        ErrorKind::NotFound | ErrorKind::NotADirectory => (
            "no such file",
            "correct the path; it is taken from the folder in which mlock is run",
        ),
        ErrorKind::IsADirectory => ("this is a folder", "name its files, such as FOLDER/*.m"),
        ErrorKind::PermissionDenied => (
            "this user may not read the file",
            "allow it, for example by chmod +r",
        ),
        ErrorKind::FileTooLarge => (
            "the file is longer than 128 MiB",
            "name a routine, a rule file, a certificate or a file of events",
        ),
        _ => (
            "the file could not be read",
            "see whether it is there, and whether other programs can read it",
        ),
    }
}

/// Explains why the file at `path` can't be read.
pub fn unread_help(alloc: Global, path: &str, kind: ErrorKind) -> Result<Vec<u8>, AllocError> {
    let (what, help) = unread_words(path, kind);
    text_of(
        alloc,
        &[
            Words("  = refused: "),
            Words(what),
            Words("\n  = help: "),
            Words(help),
            Words("\n"),
        ],
    )
}
