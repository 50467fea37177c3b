// The text line of each thing in a survey.

use mlk_hazards::HazardAt;
use mlk_report_text::Piece::{At, Bytes, CodeName, Made, Number, Words};
use mlk_report_text::{Piece, text_of};
use mlk_survey::{
    Entry, GlobalUse, Lack, ListLength, LockOrder, LockUse, MisfitCall, MissingCall, RefusalCount,
    RefusedRoutine,
};
use mlk_survey_trees::LockRoot;
use mlk_text::{Code, Name};
use std::alloc::{AllocError, Global};

/// A thing that has a line in the text.
pub(crate) trait TextLine {
    /// The bytes of the line, without a terminator.
    fn line(&self, alloc: Global) -> Result<Vec<u8>, AllocError>;
}

/// The root of a lock name, with its caret.
pub(crate) fn root_text(alloc: Global, root: &LockRoot<'_>) -> Result<Vec<u8>, AllocError> {
    match root {
        LockRoot::Global(name) => text_of(alloc, &[Words("^"), Bytes(*name)]),
        LockRoot::Local(name) => text_of(alloc, &[Bytes(*name)]),
    }
}

// `CODE NAME WORD`.
fn reason(alloc: Global, code: Code, word: Option<&[u8]>) -> Result<Vec<u8>, AllocError> {
    match word {
        Some(word) => text_of(alloc, &[CodeName(code), Words(" "), Bytes(word)]),
        None => text_of(alloc, &[CodeName(code)]),
    }
}

impl<'a> TextLine for RefusalCount<'a> {
    fn line(&self, alloc: Global) -> Result<Vec<u8>, AllocError> {
        let reason = Made(reason(alloc, self.code, self.word)?);
        text_of(alloc, &[Number(self.routines), Words(" "), reason])
    }
}

impl<'a> TextLine for RefusedRoutine<'a> {
    fn line(&self, alloc: Global) -> Result<Vec<u8>, AllocError> {
        let reason = Made(reason(alloc, self.code, self.word)?);
        let place = At(self.position.line, self.position.column);
        let routine = Bytes(self.position.routine);
        text_of(alloc, &[routine, Words(" "), place, Words(" "), reason])
    }
}

impl<'a> TextLine for MissingCall<'a> {
    fn line(&self, alloc: Global) -> Result<Vec<u8>, AllocError> {
        let lack = match self.lack {
            Lack::Routine => " no such routine, calls ",
            Lack::Label => " no such label, calls ",
        };
        text_of(
            alloc,
            &[
                Bytes(self.called.label),
                Words("^"),
                Bytes(self.called.routine),
                Words(lack),
                Number(self.calls),
                Words(", first "),
                Bytes(self.first.routine),
                Words(" "),
                At(self.first.line, self.first.column),
            ],
        )
    }
}

// The number of items of a list, or that there is no list.
fn length_piece(length: ListLength) -> Piece<'static> {
    match length {
        ListLength::NoList => Words("no list"),
        ListLength::Items(count) => Number(count),
    }
}

impl<'a> TextLine for MisfitCall<'a> {
    fn line(&self, alloc: Global) -> Result<Vec<u8>, AllocError> {
        text_of(
            alloc,
            &[
                Bytes(self.position.routine),
                Words(" "),
                At(self.position.line, self.position.column),
                Words(" "),
                CodeName(Code::Arity),
                Words(", "),
                Bytes(self.called.label),
                Words("^"),
                Bytes(self.called.routine),
                Words(" has formals "),
                length_piece(self.formals),
                Words(", and actuals "),
                length_piece(self.actuals),
            ],
        )
    }
}

// Names in parentheses; empty without a list.
fn formals_text(alloc: Global, formals: Option<&[Name]>) -> Result<Vec<u8>, AllocError> {
    let Some(names) = formals else {
        return Ok(Vec::new(alloc));
    };
    let mut text = text_of(alloc, &[Words("(")])?;
    for (place, name) in names.iter().enumerate() {
        if place > 0 {
            text.push(b',')?;
        }
        text.extend_from_slice(name.as_bytes())?;
    }
    text.push(b')')?;
    Ok(text)
}

impl<'a> TextLine for Entry<'a> {
    fn line(&self, alloc: Global) -> Result<Vec<u8>, AllocError> {
        let formals = formals_text(alloc, self.formals)?;
        text_of(
            alloc,
            &[
                Bytes(self.label.unwrap_or(b"")),
                Words("^"),
                Bytes(self.routine),
                Made(formals),
            ],
        )
    }
}

impl<'a> TextLine for GlobalUse<'a> {
    fn line(&self, alloc: Global) -> Result<Vec<u8>, AllocError> {
        text_of(
            alloc,
            &[
                Words("^"),
                Bytes(self.name),
                Words(" read "),
                Number(self.uses.reads),
                Words(", written "),
                Number(self.uses.writes),
                Words(", killed "),
                Number(self.uses.kills),
            ],
        )
    }
}

impl<'a> TextLine for LockUse<'a> {
    fn line(&self, alloc: Global) -> Result<Vec<u8>, AllocError> {
        let root = Made(root_text(alloc, &self.root)?);
        text_of(alloc, &[root, Words(" claimed "), Number(self.claims)])
    }
}

impl<'a> TextLine for LockOrder<'a> {
    fn line(&self, alloc: Global) -> Result<Vec<u8>, AllocError> {
        let held = Made(root_text(alloc, &self.held)?);
        let claimed = Made(root_text(alloc, &self.claimed)?);
        let claims = Number(self.claims);
        text_of(alloc, &[held, Words(" then "), claimed, Words(" "), claims])
    }
}

impl<'a> TextLine for HazardAt<'a> {
    fn line(&self, alloc: Global) -> Result<Vec<u8>, AllocError> {
        let place = &self.position;
        text_of(
            alloc,
            &[
                Bytes(place.routine),
                Words(" "),
                At(place.line, place.column),
                Words(" "),
                Words(self.hazard.word()),
                Words(": "),
                Words(self.hazard.advice()),
            ],
        )
    }
}
