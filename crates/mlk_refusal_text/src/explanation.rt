// The explanation of a refusal, and its text.

use mlk_excerpts::{Excerpt, TextLines, margin_of, push_excerpt, push_labelled};
use mlk_report_text::Piece::{At, Bytes, Number, Words};
use mlk_report_text::push_all;
use mlk_text::{Code, Column, LineNumber};
use std::alloc::{AllocError, Global};

/// A file as it was given: its path, and its text, which is empty if it is not available.
#[derive(Clone, Copy, Drop)]
pub struct GivenFile<'a> {
    pub path: &'a str,
    pub text: &'a [u8],
}

/// A place in a text: a line, and a column of it in bytes, if one is known.
#[derive(Clone, Copy, Drop, PartialEq, Eq)]
pub struct Spot {
    pub line: LineNumber,
    pub column: Option<Column>,
}

impl Spot {
    /// The column, or the first one if it is not known.
    pub(crate) fn caret(self) -> Column {
        self.column.unwrap_or(Column::new(1))
    }
}

/// The explanation of a refusal.
#[derive(Drop)]
pub(crate) struct Explanation<'a> {
    pub(crate) code: Code,
    /// the refused file, if there is one
    pub(crate) file: Option<GivenFile<'a>>,
    /// the place of the refusal, if it is known
    pub(crate) spot: Option<Spot>,
    /// what is wrong
    pub(crate) what: Vec<u8>,
    /// what corrects it
    pub(crate) help: &'static str,
    /// what else may be wrong
    pub(crate) note: Option<&'static str>,
}

// Appends the place: `--> PATH:line:column`.
fn push_place(text: &mut Vec<u8>, it: &Explanation<'_>) -> Result<(), AllocError> {
    let Some(file) = &it.file else {
        return Ok(());
    };
    push_all(text, &[Words("--> "), Words(file.path)])?;
    if let Some(spot) = it.spot {
        push_all(text, &[Words(":"), At(spot.line, spot.caret())])?;
    }
    text.extend_from_slice(b"\n")
}

impl Explanation<'_> {
    // Appends the line with a caret, if the file has that line, and returns whether it has.
    fn push_line_of_file(&self, text: &mut Vec<u8>) -> Result<bool, AllocError> {
        let Some(file) = &self.file else {
            return Ok(false);
        };
        let Some(spot) = self.spot else {
            return Ok(false);
        };
        let lines = TextLines::of(*text.allocator(), file.text)?;
        let Some(line) = lines.line(spot.line) else {
            return Ok(false);
        };
        let excerpt = Excerpt {
            number: spot.line,
            line,
            column: spot.caret(),
        };
        push_excerpt(text, &excerpt)?;
        Ok(true)
    }

    // The spaces below the number of the line.
    fn margin(&self) -> &'static [u8] {
        match self.spot {
            Some(spot) => margin_of(spot.line),
            None => b"  ",
        }
    }

    /// Writes the explanation, on lines of its own.
    pub(crate) fn text(&self, alloc: Global) -> Result<Vec<u8>, AllocError> {
        let margin = self.margin();
        let mut text = Vec::new(alloc);
        push_place(&mut text, self)?;
        if !self.push_line_of_file(&mut text)? {
            push_all(&mut text, &[Bytes(margin), Words("= refused: ")])?;
        }
        push_all(&mut text, &[Bytes(self.what.as_slice()), Words("\n")])?;
        push_labelled(&mut text, margin, "help", self.help.as_bytes())?;
        if let Some(note) = self.note {
            push_labelled(&mut text, margin, "note", note.as_bytes())?;
        }
        let code = Number(usize::from(self.code.number()));
        push_all(
            &mut text,
            &[
                Bytes(margin),
                Words("= more: mlock explain "),
                code,
                Words("\n"),
            ],
        )?;
        Ok(text)
    }
}
