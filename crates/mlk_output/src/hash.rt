// The hash of a line by which GitHub recognizes a result when lines move: that of 100 characters from the line's begin on, without
// blanks and tabs, as its action `upload-sarif` computes it if a report has none. Characters are UTF-16 units, each line's end
// is one line feed, and the text ends in a mark.

use bstr::ByteSlice;
use mlk_excerpts::TextLines;
use mlk_text::LineNumber;
use std::alloc::{AllocError, Global};
use std::collections::BTreeMap;

// How many characters are hashed.
const BLOCK: usize = 100;

const FACTOR: u64 = 37;

// The mark of the text's end.
const END: u32 = 65535;

const LINE_FEED: u32 = 10;

// The characters of a text that are hashed, and which of them begin lines.
#[derive(Drop)]
struct Units {
    units: Vec<u32>,
    starts: Vec<usize>,
    is_line_start: bool,
}

impl Units {
    fn push(&mut self, unit: u32) -> Result<(), AllocError> {
        if self.is_line_start {
            let start = self.units.len();
            self.starts.push(start)?;
        }
        self.is_line_start = unit == LINE_FEED;
        self.units.push(unit)?;
        Ok(())
    }

    // Adds a character, as one unit or as two.
    fn push_character(&mut self, character: char) -> Result<(), AllocError> {
        let code = u32::from(character);
        let Some(above) = code.checked_sub(0x10000) else {
            return self.push(code);
        };
        self.push(0xd800 | ((above >> 10) & 0x3ff))?;
        self.push(0xdc00 | (above & 0x3ff))
    }

    fn of(alloc: Global, text: &[u8]) -> Result<Units, AllocError> {
        let mut units = Units {
            units: Vec::new(alloc),
            starts: Vec::new(alloc),
            is_line_start: true,
        };
        let mut is_after_return = false;
        for character in text.chars() {
            match character {
                ' ' | '\t' => {}
                '\n' if is_after_return => {}
                '\r' => units.push(LINE_FEED)?,
                _ => units.push_character(character)?,
            }
            is_after_return = character == '\r';
        }
        units.push(END)?;
        Ok(units)
    }
}

// The hash of the first 100 of these units; missing ones count as zeros.
fn hash_of(units: &[u32]) -> u64 {
    let mut hash = 0u64;
    for unit in units.iter().take(BLOCK) {
        hash = hash.wrapping_mul(FACTOR).wrapping_add(u64::from(*unit));
    }
    for _ in units.len()..BLOCK {
        hash = hash.wrapping_mul(FACTOR);
    }
    hash
}

/// The hash of a line, and how many lines of its file up to it have this hash.
#[derive(Clone, Copy, Drop)]
pub(crate) struct LineHash {
    pub(crate) hash: u64,
    pub(crate) count: usize,
}

/// A line of a file, with its hash.
#[derive(Clone, Copy, Drop)]
pub(crate) struct HashedLine<'a> {
    pub(crate) line: &'a [u8],
    pub(crate) hash: LineHash,
}

/// The lines of a file, with their hashes.
#[derive(Drop)]
pub(crate) struct HashedLines<'a> {
    lines: TextLines<'a>,
    hashes: Vec<LineHash>,
}

fn hashes_of(alloc: Global, text: &[u8]) -> Result<Vec<LineHash>, AllocError> {
    let units = Units::of(alloc, text)?;
    let mut counts = BTreeMap::new(alloc);
    let mut hashes = Vec::new(alloc);
    for start in units.starts.iter() {
        let (_, from) = units.units.split_at((*start).min(units.units.len()));
        let hash = hash_of(from);
        let count = counts
            .get(&hash)
            .copied()
            .unwrap_or(0usize)
            .saturating_add(1);
        counts.insert(hash, count)?;
        hashes.push(LineHash { hash, count })?;
    }
    Ok(hashes)
}

impl<'a> HashedLines<'a> {
    /// Splits `text` into lines and hashes each.
    pub(crate) fn of(alloc: Global, text: &'a [u8]) -> Result<HashedLines<'a>, AllocError> {
        Ok(HashedLines {
            lines: TextLines::of(alloc, text)?,
            hashes: hashes_of(alloc, text)?,
        })
    }

    /// The line with this number; `None` if the file has no such line.
    pub(crate) fn line(&self, number: LineNumber) -> Option<HashedLine<'a>> {
        let line = self.lines.line(number)?;
        let place = (number.number() as usize).checked_sub(1)?;
        let hash = self.hashes.as_slice().get(place).copied()?;
        Some(HashedLine { line, hash })
    }
}

/// The lines of the routines of a program. It keeps the last routine, since results are in the order of routines.
#[derive(Drop)]
pub(crate) struct ProgramLines<'a> {
    alloc: Global,
    texts: &'a [Vec<u8>],
    // the number of a routine, and its lines
    last: Option<(usize, HashedLines<'a>)>,
}

impl<'a> ProgramLines<'a> {
    /// Looks up nothing yet. `texts` are those of the routines, in their order.
    pub(crate) fn new(alloc: Global, texts: &'a [Vec<u8>]) -> ProgramLines<'a> {
        ProgramLines {
            alloc,
            texts,
            last: None,
        }
    }

    /// Looks up the lines of the routine of this number, unless it was the last one.
    pub(crate) fn look_up(&mut self, routine: usize) -> Result<(), AllocError> {
        if matches!(&self.last, Some((number, _)) if *number == routine) {
            return Ok(());
        }
        let texts = self.texts;
        let text: &'a [u8] = match texts.get(routine) {
            Some(text) => text.as_slice(),
            None => &[],
        };
        self.last = Some((routine, HashedLines::of(self.alloc, text)?));
        Ok(())
    }

    /// A line of the routine that was looked up last; `None` if it has no such line.
    pub(crate) fn line(&self, number: LineNumber) -> Option<HashedLine<'a>> {
        let (_, lines) = self.last.as_ref()?;
        lines.line(number)
    }
}
