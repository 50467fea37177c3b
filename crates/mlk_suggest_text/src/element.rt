// The elements of a rule file's sections.

use crate::spelling::toml_string;
use crate::view::View;
use mlk_report_text::Piece::{Made, Number, Words};
use mlk_report_text::text_of;
use mlk_suggest_rules::{CoverGuess, EntryGuess, FamilyGuess, GlobalGuess};
use std::alloc::AllocError;

/// An element of a section of a rule file.
pub(crate) trait InSection {
    /// The element as an inline table, in a suggestion written from `view`.
    fn element(&self, view: &View<'_>) -> Result<Vec<u8>, AllocError>;

    /// The remark beside the element: the evidence for it, and what makes it doubtful.
    fn remark(&self, view: &View<'_>) -> Result<Vec<u8>, AllocError>;
}

impl InSection for FamilyGuess {
    fn element(&self, view: &View<'_>) -> Result<Vec<u8>, AllocError> {
        let name = view.family(self.name)?;
        let text = Made(toml_string(view.alloc, name.as_slice())?);
        let rank = Number(self.rank);
        text_of(
            view.alloc,
            &[
                Words("{name = "),
                text,
                Words(", rank = "),
                rank,
                Words("}"),
            ],
        )
    }

    fn remark(&self, view: &View<'_>) -> Result<Vec<u8>, AllocError> {
        view.family_remark(self)
    }
}

// The key of a cover's second lock, if it has one.
fn also_key(view: &View<'_>, cover: &CoverGuess) -> Result<Vec<u8>, AllocError> {
    let Some(also) = &cover.also else {
        return Ok(Vec::new(view.alloc));
    };
    let lock = view.rule_lock(also, &cover.pattern)?;
    let text = Made(toml_string(view.alloc, lock.as_slice())?);
    text_of(view.alloc, &[Words(", also = "), text])
}

impl InSection for CoverGuess {
    fn element(&self, view: &View<'_>) -> Result<Vec<u8>, AllocError> {
        let global = view.pattern(&self.pattern)?;
        let lock = view.rule_lock(&self.lock, &self.pattern)?;
        let global = Made(toml_string(view.alloc, global.as_slice())?);
        let lock = Made(toml_string(view.alloc, lock.as_slice())?);
        let also = Made(also_key(view, self)?);
        text_of(
            view.alloc,
            &[
                Words("{global = "),
                global,
                Words(", lock = "),
                lock,
                also,
                Words("}"),
            ],
        )
    }

    fn remark(&self, view: &View<'_>) -> Result<Vec<u8>, AllocError> {
        view.cover_remark(self)
    }
}

impl InSection for GlobalGuess {
    fn element(&self, view: &View<'_>) -> Result<Vec<u8>, AllocError> {
        let global = view.pattern(&self.pattern)?;
        let text = Made(toml_string(view.alloc, global.as_slice())?);
        text_of(view.alloc, &[Words("{global = "), text, Words("}")])
    }

    fn remark(&self, view: &View<'_>) -> Result<Vec<u8>, AllocError> {
        view.global_remark(self)
    }
}

impl InSection for EntryGuess {
    fn element(&self, view: &View<'_>) -> Result<Vec<u8>, AllocError> {
        let label = view.entry(self.unit)?;
        let text = Made(toml_string(view.alloc, label.as_slice())?);
        text_of(view.alloc, &[Words("{label = "), text, Words("}")])
    }

    fn remark(&self, view: &View<'_>) -> Result<Vec<u8>, AllocError> {
        view.entry_remark(self)
    }
}
