// The labels of a routine, and the text of its lines.

use mlk_excerpts::TextLines;
use mlk_syntax::Routine;
use mlk_text::{LineNumber, push_sparing};
use std::alloc::{AllocError, Global};

// A label and its line.
#[derive(Clone, Copy, Drop)]
struct LabelAt<'a> {
    label: &'a [u8],
    line: LineNumber,
}

/// A line by the label above it, so that it is found again when lines before that label come or go.
#[derive(Clone, Copy, Drop)]
pub(crate) struct RelativeLine<'a> {
    /// empty above the first label
    pub(crate) label: &'a [u8],
    /// the number of lines below the label, or below the routine's top
    pub(crate) offset: usize,
    /// the line's text, without blanks and tabs at its ends; empty if it is not known
    pub(crate) text: &'a [u8],
}

/// The lines of a routine.
#[derive(Drop)]
pub(crate) struct RoutineLines<'a> {
    labels: Vec<LabelAt<'a>>,
    lines: TextLines<'a>,
}

impl<'a> RoutineLines<'a> {
    /// The lines of `routine`, which has this text.
    pub(crate) fn of(
        alloc: Global,
        routine: &'a Routine,
        text: &'a [u8],
    ) -> Result<RoutineLines<'a>, AllocError> {
        let mut labels = Vec::new(alloc);
        for line in &routine.lines {
            if let Some(label) = line.label.as_ref() {
                let at = LabelAt {
                    label: label.as_bytes(),
                    line: line.number,
                };
                push_sparing(&mut labels, at)?;
            }
        }
        let lines = TextLines::of(alloc, text)?;
        Ok(RoutineLines { labels, lines })
    }

    // The last label up to this line.
    fn label_above(&self, line: LineNumber) -> Option<LabelAt<'a>> {
        let after = self
            .labels
            .partition_point(|at| at.line.number() <= line.number());
        self.labels.get(after.checked_sub(1)?).copied()
    }

    /// The line with this number.
    pub(crate) fn relative(&self, line: LineNumber) -> RelativeLine<'a> {
        let number = line.number() as usize;
        let text = match self.lines.line(line) {
            Some(text) => text.trim_ascii(),
            None => b"",
        };
        match self.label_above(line) {
            Some(at) => RelativeLine {
                label: at.label,
                offset: number.saturating_sub(at.line.number() as usize),
                text,
            },
            None => RelativeLine {
                label: b"",
                offset: number.saturating_sub(1),
                text,
            },
        }
    }
}
