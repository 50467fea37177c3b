// The codes of a number or a word.

use crate::page::CODES;
use mlk_text::Code;
use std::alloc::{AllocError, Global};

// Whether `word` is the number of `code` in digits, or its word, in capitals or small letters.
fn is_named(code: Code, word: &str) -> bool {
    match word.parse::<u16>() {
        Ok(number) => number == code.number(),
        Err(_) => word.as_bytes().eq_ignore_ascii_case(code.word()),
    }
}

/// Lists the codes that `word` names, by number or by word; empty if no code has it. Two codes have the word `Limit`, each of the
/// others has a word of its own.
pub fn codes_named(alloc: Global, word: &str) -> Result<Vec<Code>, AllocError> {
    let mut codes = Vec::new(alloc);
    for code in CODES.iter() {
        if is_named(*code, word) {
            codes.push(*code)?;
        }
    }
    Ok(codes)
}
