// Pages of codes.

use mlk_code_pages::{Page, codes_named, page_of};
use mlk_plain_report::ReportText;
use mlk_report_text::Piece::{CodeName, Made, Words};
use mlk_report_text::push_all;
use std::alloc::{AllocError, Global};

// How many characters a line of a page has at most; an example keeps its lines.
const LINE_LENGTH: usize = 96;

// Breaks sentences into lines of at most `LINE_LENGTH` characters, if no word is longer.
fn wrap(alloc: Global, sentences: &str) -> Result<Vec<u8>, AllocError> {
    let mut text = Vec::new(alloc);
    let mut length = 0usize;
    for word in sentences.split_whitespace() {
        let more = word.len().saturating_add(1);
        if length > 0 && length.saturating_add(more) > LINE_LENGTH {
            text.push(b'\n')?;
            length = 0;
        }
        if length > 0 {
            text.push(b' ')?;
        }
        text.extend_from_slice(word.as_bytes())?;
        length = length.saturating_add(more);
    }
    Ok(text)
}

// Indents the lines of an example.
fn indent(alloc: Global, example: &str) -> Result<Vec<u8>, AllocError> {
    let mut text = Vec::new(alloc);
    for line in example.lines() {
        push_all(&mut text, &[Words("    "), Words(line), Words("\n")])?;
    }
    Ok(text)
}

// Appends a page.
fn push_page(text: &mut Vec<u8>, page: &Page) -> Result<(), AllocError> {
    let alloc = *text.allocator();
    let meaning = Words(page.meaning);
    push_all(
        text,
        &[CodeName(page.code), Words(": "), meaning, Words("\n\n")],
    )?;
    let why = Made(wrap(alloc, page.why)?);
    let mend = Made(wrap(alloc, page.mend)?);
    push_all(text, &[why, Words("\n\n"), mend, Words("\n\n")])?;
    let before = indent(alloc, page.before)?;
    let after = indent(alloc, page.after)?;
    push_all(
        text,
        &[
            Words("Example:\n\n"),
            Made(before),
            Words("\nMended:\n\n"),
            Made(after),
        ],
    )
}

/// Writes the page of each code that `word` names, by its number or by its name; `None` if no code has it.
pub fn render_pages(alloc: Global, word: &str) -> Result<Option<ReportText>, AllocError> {
    let mut text: Vec<u8> = Vec::new(alloc);
    let codes = codes_named(alloc, word)?;
    for code in codes.iter() {
        if !text.is_empty() {
            text.push(b'\n')?;
        }
        push_page(&mut text, page_of(*code))?;
    }
    if text.is_empty() {
        return Ok(None);
    }
    Ok(Some(ReportText::of(text)))
}
