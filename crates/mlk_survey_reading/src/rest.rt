// What is left of a text behind a line that is refused.

use mlk_dialect::Dialect;
use mlk_reading::Source;
use mlk_text::{Code, Fault, LineNumber, Place};
use std::alloc::{AllocError, Global};

// The deepest level of a line.
const DEEPEST: usize = 15;

/// What is left to read of the text of a routine.
#[derive(Drop)]
pub(crate) struct Rest {
    dialect: Dialect,
    stem: Vec<u8>,
    text: Vec<u8>,
    /// how many lines of the routine come before the text
    before: usize,
    /// how many lines are put in front of the text to read it: the heads of the blocks that its first line is in
    heads: usize,
}

// What comes after the first `count` lines of a text.
fn after_lines(text: &[u8], count: usize) -> &[u8] {
    let mut ends = 0usize;
    for (place, byte) in text.iter().enumerate() {
        if *byte == b'\n' {
            ends = ends.saturating_add(1);
            if ends == count {
                let (_, rest) = text.split_at(place.saturating_add(1).min(text.len()));
                return rest;
            }
        }
    }
    b""
}

// The level of the first line of a text: one more than its periods; 1 of one that begins with a label or a comment.
fn first_level(text: &[u8]) -> usize {
    if !matches!(text.first(), Some(b' ' | b'\t')) {
        return 1;
    }
    let start = text
        .iter()
        .take_while(|byte| matches!(**byte, b' ' | b'\t' | b'.'));
    start
        .filter(|byte| **byte == b'.')
        .count()
        .saturating_add(1)
}

// Whether a fault is of a line. A name of a file, and a text that is too long, are refused at 1:1 before a line is read.
fn is_of_line(fault: &Fault) -> bool {
    match fault.code {
        Code::RoutineName => false,
        Code::TooLarge => fault.place.line.number() > 1 || fault.place.column.number() > 1,
        _ => true,
    }
}

impl Rest {
    /// Keeps a copy of a whole text.
    pub(crate) fn of(alloc: Global, source: &Source<'_>) -> Result<Rest, AllocError> {
        Ok(Rest {
            dialect: source.dialect,
            stem: Vec::from_slice(alloc, source.stem)?,
            text: Vec::from_slice(alloc, source.text.as_slice())?,
            before: 0,
            heads: 0,
        })
    }

    // The line of the routine at which a fault of this text is.
    fn line_of(&self, fault: &Fault) -> usize {
        let line = fault.place.line.number() as usize;
        line.saturating_sub(self.heads).saturating_add(self.before)
    }

    /// Moves a fault of this text to its place in the routine.
    pub(crate) fn place_fault(&self, fault: Fault) -> Fault {
        let line = LineNumber::new(u32::try_from(self.line_of(&fault)).unwrap_or(u32::MAX));
        let Fault {
            code,
            place,
            left_out,
        } = fault;
        let Place {
            routine,
            column,
            ..
        } = place;
        Fault {
            code,
            place: Place {
                routine,
                line,
                column,
            },
            left_out,
        }
    }

    /// Copies what comes after the line of a fault; `None` if nothing is left to read, or the fault is of no line.
    pub(crate) fn rest_behind(
        &self,
        alloc: Global,
        fault: &Fault,
    ) -> Result<Option<Rest>, AllocError> {
        let line = self.line_of(fault);
        let left = after_lines(self.text.as_slice(), line.saturating_sub(self.before));
        let level = first_level(left);
        if !is_of_line(fault) || left.is_empty() || level > DEEPEST {
            return Ok(None);
        }
        Ok(Some(Rest {
            dialect: self.dialect,
            stem: Vec::from_slice(alloc, self.stem.as_slice())?,
            text: Vec::from_slice(alloc, left)?,
            before: line,
            heads: level.saturating_sub(1),
        }))
    }

    /// Copies the text as it is read: behind a head of each block that its first line is in.
    pub(crate) fn source(&self, alloc: Global) -> Result<Source<'_>, AllocError> {
        let mut text = Vec::new(alloc);
        for level in 0..self.heads {
            text.push(b' ')?;
            for _ in 0..level {
                text.push(b'.')?;
            }
            text.extend_from_slice(b"DO\n")?;
        }
        text.extend_from_slice(self.text.as_slice())?;
        Ok(Source {
            dialect: self.dialect,
            stem: self.stem.as_slice(),
            text,
        })
    }
}
