// The remarks beside the elements of a suggestion.

use crate::view::View;
use mlk_report_text::Piece::{At, Bytes, Made, Number, Words};
use mlk_report_text::{push_all, text_of};
use mlk_suggest::Spot;
use mlk_suggest_rules::{CoverGuess, Element, EntryGuess, EntryKind, FamilyGuess, GlobalGuess};
use std::alloc::AllocError;

/// The maximum number of other families that are named beside a family.
const MOST_NAMED: usize = 12;

/// Up to this number, writes are too few for a majority.
const FEW_WRITES: usize = 2;

// The word for a number of places.
fn places(count: usize) -> &'static str {
    if count == 1 { " place" } else { " places" }
}

impl<'v> View<'v> {
    /// The place `spot`, as `ROUTINE line:column`.
    pub(crate) fn place(&self, spot: Spot) -> Result<Vec<u8>, AllocError> {
        let routine: &[u8] = match self.program.unit(spot.unit) {
            Some(unit) => unit.routine,
            None => b"",
        };
        let at = At(spot.line, spot.column);
        text_of(self.alloc, &[Bytes(routine), Words(" "), at])
    }

    // Appends which families are claimed while a family is held.
    fn push_claimed(&self, text: &mut Vec<u8>, family: &FamilyGuess) -> Result<(), AllocError> {
        let nested = self
            .guess
            .nestings
            .iter()
            .filter(|nesting| nesting.held == family.name);
        for (place, nesting) in nested.take(MOST_NAMED).enumerate() {
            let before = if place == 0 { "; then " } else { ", " };
            let claimed = Made(self.family(nesting.claimed)?);
            push_all(
                text,
                &[Words(before), claimed, Words(" "), Number(nesting.places)],
            )?;
        }
        Ok(())
    }

    /// The number of places at which `family` is claimed, and the families that are claimed while it is held.
    pub(crate) fn family_remark(&self, family: &FamilyGuess) -> Result<Vec<u8>, AllocError> {
        let mut text = text_of(self.alloc, &[Words("claimed at "), Number(family.claims)])?;
        self.push_claimed(&mut text, family)?;
        Ok(text)
    }

    /// The number of writes and reads at which the lock of `cover` is held.
    pub(crate) fn cover_remark(&self, cover: &CoverGuess) -> Result<Vec<u8>, AllocError> {
        let score = cover.score;
        let mut text = text_of(
            self.alloc,
            &[
                Words("held at "),
                Number(score.writes_held),
                Words(" of "),
                Number(score.writes),
                Words(" writes"),
            ],
        )?;
        if score.reads == 0 {
            push_all(&mut text, &[Words(", read nowhere")])?;
        } else {
            let held = Number(score.reads_held);
            let reads = Number(score.reads);
            push_all(
                &mut text,
                &[Words(", "), held, Words(" of "), reads, Words(" reads")],
            )?;
        }
        self.push_doubts(&mut text, cover)?;
        Ok(text)
    }

    // Appends what makes a cover doubtful.
    fn push_doubts(&self, text: &mut Vec<u8>, cover: &CoverGuess) -> Result<(), AllocError> {
        let score = cover.score;
        if score.writes <= FEW_WRITES && score.writes_held < score.writes {
            push_all(text, &[Words("; so few are no majority")])?;
        } else if score.writes_held.saturating_mul(2) == score.writes {
            push_all(text, &[Words("; half against half is a coin toss")])?;
        }
        if cover.reads_are_free {
            push_all(text, &[Words("; most reads don't hold it")])?;
        }
        Ok(())
    }

    // The evidence for a private or readonly global.
    fn global_evidence(&self, global: &GlobalGuess) -> Result<Vec<u8>, AllocError> {
        let elements = global.pattern.elements.as_slice();
        if elements.iter().any(|element| *element == Element::Job) {
            let pieces = [
                Words("$J is there at "),
                Number(global.touches),
                Words(" of "),
                Number(global.all_touches),
                Words(places(global.all_touches)),
            ];
            return text_of(self.alloc, &pieces);
        }
        let pieces = [
            Words("read at "),
            Number(global.touches),
            Words(places(global.touches)),
            Words(", written nowhere"),
        ];
        text_of(self.alloc, &pieces)
    }

    /// The evidence for the rule of the private or readonly `global`, and what makes it doubtful.
    pub(crate) fn global_remark(&self, global: &GlobalGuess) -> Result<Vec<u8>, AllocError> {
        let mut text = self.global_evidence(global)?;
        if global.locked > 0 {
            let locked = Number(global.locked);
            push_all(
                &mut text,
                &[Words("; a lock of its name is held at "), locked],
            )?;
        }
        Ok(text)
    }

    /// Why the label `entry` counts as an entry.
    pub(crate) fn entry_remark(&self, entry: &EntryGuess) -> Result<Vec<u8>, AllocError> {
        let words = match &entry.kind {
            EntryKind::Job(spot) => {
                let place = Made(self.place(*spot)?);
                return text_of(self.alloc, &[Words("JOB at "), place]);
            }
            EntryKind::Uncalled => "nobody calls it",
            EntryKind::RunInto => {
                "nobody calls it, but the lines above run into it: it may be no entry"
            }
            EntryKind::Helper => {
                "nobody calls it, but it only claims or releases: perhaps its callers weren't read"
            }
            EntryKind::Idle => "nobody calls it, but it touches no global and no lock",
            EntryKind::Circle => "called only by labels that nobody else calls",
        };
        text_of(self.alloc, &[Words(words)])
    }
}
